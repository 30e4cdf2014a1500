//! Writing the text of a thunk.

ghost use Rattle.std.specs.Prelude.{◌≡◌, ◌++◌, ◌∷◌, IfOk, OnOk, IsTrue, map};
ghost use Rattle.std.specs.List.{flat_map, list_all};
ghost use Rattle.thunk_codec.specs.Path.{is_path};
ghost use Rattle.thunk_codec.specs.Thunk.{Text, text_of, line, counted, head_line, function_line, arg_line, env_line, input_line, output_line};

use crate::path::Path;
use crate::reference::Ref;
use crate::thunk::Thunk;
use object_name::{Bytes, write_number};
use std::alloc::{AllocError, Global};

/// Appends the first line, and the function's.
fn write_function(function: &Ref, out: &mut Bytes) -> Result<(), AllocError>
    ensures { OnOk result (out.new ≡ out.old ++ (head_line ++ function_line function.now)) }
{
    out.append(b"gg-thunk 1\nf ")?;
    function.write(out)?;
    out.append(b"\n")
}

/// Appends a line that says some bytes.
fn write_line(letter: u8, bytes: &[u8], out: &mut Bytes) -> Result<(), AllocError>
    ensures { OnOk result (out.new ≡ out.old ++ line letter (counted bytes.now)) }
{
    out.append(&[letter, b' '])?;
    write_number(bytes.len() as u64, out)?;
    out.append(b":")?;
    out.append(bytes)?;
    out.append(b"\n")
}

/// Appends the line of a key and its value.
fn write_env(key: &[u8], value: &[u8], out: &mut Bytes) -> Result<(), AllocError>
    ensures { OnOk result (out.new ≡ out.old ++ env_line (key.now, value.now)) }
{
    out.append(b"e ")?;
    write_number(key.len() as u64 + 1 + value.len() as u64, out)?;
    out.append(b":")?;
    out.append(key)?;
    out.append(b"=")?;
    out.append(value)?;
    out.append(b"\n")
}

/// Appends the line of an input.
fn write_input(path: &[u8], reference: &Ref, out: &mut Bytes) -> Result<(), AllocError>
    ensures { OnOk result (out.new ≡ out.old ++ input_line (path.now, reference.now)) }
{
    out.append(b"i ")?;
    write_number(path.len() as u64, out)?;
    out.append(b":")?;
    out.append(path)?;
    out.append(b" ")?;
    reference.write(out)?;
    out.append(b"\n")
}

/// Appends the lines of some arguments.
fn write_args(args: &[Bytes], out: &mut Bytes) -> Result<(), AllocError>
    ensures { OnOk result (out.new ≡ out.old ++ flat_map arg_line args.now) }
{
    'texts: for arg in args {
        write_line(b'a', arg.as_slice(), out)?;
    }
    Ok(())
}

/// Appends the lines of an environment.
fn write_envs(envs: &[(Bytes, Bytes)], out: &mut Bytes) -> Result<(), AllocError>
    ensures { OnOk result (out.new ≡ out.old ++ flat_map env_line envs.now) }
{
    'envs: for (key, value) in envs {
        write_env(key.as_slice(), value.as_slice(), out)?;
    }
    Ok(())
}

/// Appends the lines of some inputs.
fn write_inputs(inputs: &[(Path, Ref)], out: &mut Bytes) -> Result<(), AllocError>
    ensures lines { OnOk result (out.new ≡ out.old ++ flat_map input_line inputs.now) }
    ensures paths { OnOk result (IsTrue (list_all is_path (map (λ input. input.0) inputs.now))) }
{
    'inputs: for (path, reference) in inputs {
        write_input(path.text(), reference, out)?;
    }
    Ok(())
}

/// Appends the lines of some outputs.
fn write_outputs(outputs: &[Path], out: &mut Bytes) -> Result<(), AllocError>
    ensures lines { OnOk result (out.new ≡ out.old ++ flat_map output_line outputs.now) }
    ensures paths { OnOk result (IsTrue (list_all is_path outputs.now)) }
{
    'outputs: for output in outputs {
        write_line(b'o', output.text(), out)?;
    }
    Ok(())
}

/// The text of some parts, whatever rules they break but those on paths.
pub fn encode_parts(
    alloc: Global,
    function: &Ref,
    args: &[Bytes],
    envs: &[(Bytes, Bytes)],
    inputs: &[(Path, Ref)],
    outputs: &[Path],
) -> Result<Bytes, AllocError>
    ensures text { IfOk result (λ text. text ≡ text_of (record { function = function.now; args = args.now; envs = envs.now; inputs = inputs.now; outputs = outputs.now })) }
    ensures input_paths { OnOk result (IsTrue (list_all is_path (map (λ input. input.0) inputs.now))) }
    ensures output_paths { OnOk result (IsTrue (list_all is_path outputs.now)) }
{
    let mut text = Bytes::new(alloc);
    write_function(function, &mut text)?;
    write_args(args, &mut text)?;
    write_envs(envs, &mut text)?;
    write_inputs(inputs, &mut text)?;
    write_outputs(outputs, &mut text)?;
    text.append(b"end\n")?;
    Ok(text)
}

/// The text of a thunk.
pub fn encode(alloc: Global, thunk: &Thunk) -> Result<Bytes, AllocError>
    ensures text { IfOk result (λ bytes. bytes ≡ text_of thunk.now) }
    // No other thunk has it.
    ensures thunk { IfOk result (λ bytes. Text bytes thunk.now) }
{
    encode_parts(
        alloc,
        thunk.function(),
        thunk.args(),
        thunk.envs(),
        thunk.inputs(),
        thunk.outputs(),
    )
}
