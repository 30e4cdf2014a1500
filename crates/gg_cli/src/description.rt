//! What is printed of a thunk.

ghost use Rattle.std.specs.Prelude.{◌≡◌, ◌++◌, ◌∷◌, [], codes, decimal, IfOk, OnOk};
ghost use Rattle.std.specs.List.{flat_map};
ghost use Rattle.hex.specs.Hex.{encode_lower};
ghost use Rattle.object_name.specs.Name.{spelling};
ghost use Rattle.gg_cli.specs.Description.{is_plain, escaped_byte, escaped, labelled, argument_line, environment_line, input_line, output_lines, head_lines, description};

use object_name::{Bytes, Name, SPELLING_LEN, write_number};
use std::alloc::{AllocError, Global};
use thunk_codec::{Path, Ref, Thunk};

/// Whether a byte is printed as it is.
fn is_plain(byte: u8) -> bool
    ensures { result ≡ is_plain byte }
{
    32 <= byte && (byte <= 126 && byte != b'\\')
}

/// Appends two hexadecimal digits of a byte, after `\x`.
fn append_digits(text: &mut Bytes, byte: u8) -> Result<(), AllocError>
    ensures { OnOk result (text.new ≡ text.old ++ 92 ∷ 120 ∷ encode_lower (byte ∷ [])) }
{
    let mut digits = [0; 2];
    let _ = hex::encode_to_slice([byte].as_slice(), &mut digits);
    text.append(b"\\x")?;
    text.append(&digits)
}

/// Appends a byte, as it is printed.
fn append_byte(text: &mut Bytes, byte: u8) -> Result<(), AllocError>
    ensures { OnOk result (text.new ≡ text.old ++ escaped_byte byte) }
{
    if is_plain(byte) {
        text.append(&[byte])
    } else {
        append_digits(text, byte)
    }
}

/// Appends a text, as it is printed.
#[tactic(auto, unfolding(crate::specs::Description::escaped))]
fn append_escaped(text: &mut Bytes, bytes: &[u8]) -> Result<(), AllocError>
    ensures { OnOk result (text.new ≡ text.old ++ escaped bytes.now) }
{
    'bytes: for byte in bytes {
        append_byte(text, *byte)?;
    }
    Ok(())
}

/// Appends the lines of a name and of a function.
fn append_head(text: &mut Bytes, name: &Name, function: &Ref) -> Result<(), AllocError>
    ensures { OnOk result (text.new ≡ text.old ++ head_lines name.now function.now) }
{
    let mut spelling = [0; SPELLING_LEN];
    name.spell(&mut spelling);
    text.append(b"thunk ")?;
    text.append(&spelling)?;
    text.append(b"\nfunction ")?;
    function.write(text)?;
    text.append(b"\n")
}

/// Appends the line of an argument.
fn append_argument(text: &mut Bytes, arg: &[u8]) -> Result<(), AllocError>
    ensures { OnOk result (text.new ≡ text.old ++ argument_line arg.now) }
{
    text.append(b"argument ")?;
    append_escaped(text, arg)?;
    text.append(b"\n")
}

/// Appends a key, `=` and its value.
fn append_pair(text: &mut Bytes, key: &[u8], value: &[u8]) -> Result<(), AllocError>
    ensures { OnOk result (text.new ≡ text.old ++ (key.now ++ (61 ∷ escaped value.now))) }
{
    text.append(key)?;
    text.append(b"=")?;
    append_escaped(text, value)
}

/// Appends the line of a key and its value.
fn append_environment(text: &mut Bytes, key: &[u8], value: &[u8]) -> Result<(), AllocError>
    ensures { OnOk result (text.new ≡ text.old ++ environment_line (key.now, value.now)) }
{
    text.append(b"environment ")?;
    append_pair(text, key, value)?;
    text.append(b"\n")
}

/// Appends the line of an input.
fn append_input(text: &mut Bytes, path: &[u8], reference: &Ref) -> Result<(), AllocError>
    ensures { OnOk result (text.new ≡ text.old ++ input_line (path.now, reference.now)) }
{
    text.append(b"input ")?;
    text.append(path)?;
    text.append(b" ")?;
    reference.write(text)?;
    text.append(b"\n")
}

/// Appends the line of an output.
fn append_output(text: &mut Bytes, index: usize, output: &[u8]) -> Result<(), AllocError>
    ensures { OnOk result (text.new ≡ text.old ++ labelled (codes "output") (decimal index ++ (32 ∷ output.now))) }
{
    text.append(b"output ")?;
    write_number(index as u64, text)?;
    text.append(b" ")?;
    text.append(output)?;
    text.append(b"\n")
}

/// Appends the lines of arguments.
fn append_arguments(text: &mut Bytes, args: &[Bytes]) -> Result<(), AllocError>
    ensures { OnOk result (text.new ≡ text.old ++ flat_map argument_line args.now) }
{
    'texts: for arg in args {
        append_argument(text, arg.as_slice())?;
    }
    Ok(())
}

/// Appends the lines of an environment.
fn append_environments(text: &mut Bytes, envs: &[(Bytes, Bytes)]) -> Result<(), AllocError>
    ensures { OnOk result (text.new ≡ text.old ++ flat_map environment_line envs.now) }
{
    'envs: for (key, value) in envs {
        append_environment(text, key.as_slice(), value.as_slice())?;
    }
    Ok(())
}

/// Appends the lines of inputs.
fn append_inputs(text: &mut Bytes, inputs: &[(Path, Ref)]) -> Result<(), AllocError>
    ensures { OnOk result (text.new ≡ text.old ++ flat_map input_line inputs.now) }
{
    'inputs: for (path, reference) in inputs {
        append_input(text, path.text(), reference)?;
    }
    Ok(())
}

/// Appends the lines of outputs.
fn append_outputs(text: &mut Bytes, outputs: &[Path]) -> Result<(), AllocError>
    ensures { OnOk result (text.new ≡ text.old ++ output_lines 0 outputs.now) }
{
    'outputs: for (index, output) in outputs.iter().enumerate() {
        append_output(text, index, output.text())?;
    }
    Ok(())
}

/// The text of a thunk of this name.
#[tactic(auto, unfolding(crate::specs::Description::description))]
pub(crate) fn thunk_text(alloc: Global, name: &Name, thunk: &Thunk) -> Result<Bytes, AllocError>
    ensures { IfOk result (λ text. text ≡ description name.now thunk.now) }
{
    let mut text = Bytes::new(alloc);
    append_head(&mut text, name, thunk.function())?;
    append_arguments(&mut text, thunk.args())?;
    append_environments(&mut text, thunk.envs())?;
    append_inputs(&mut text, thunk.inputs())?;
    append_outputs(&mut text, thunk.outputs())?;
    Ok(text)
}
