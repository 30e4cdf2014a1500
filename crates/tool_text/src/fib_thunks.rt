//! The thunks that the card `fib` gives.

ghost use Rattle.std.specs.Prelude.{◌≡◌, ◌≤◌, ◌++◌, length, decimal, IfOk, OnOk};
ghost use Rattle.std.specs.List.{AllByRecursion};
ghost use Rattle.object_name.specs.declared.kind.Kind.TheVariants as kinds;
ghost use Rattle.object_name.specs.Name.{IsName, max_size, name_of, spelling};
ghost use Rattle.thunk_codec.specs.Thunk.{IsThunk, counted, text_of};
ghost use Rattle.tool_text.specs.Fib.{fib_thunk, sum_thunk, thunk_texts, thunks_of};

use object_name::{Bytes, Many, Name, SPELLING_LEN, name_of, write_number};
use std::alloc::{AllocError, Global};

/// What a job of the card `fib` asks for.
#[derive(Clone, Copy)]
pub struct Asked {
    /// Which number, from 0.
    pub number: u64,
    /// The name of the card's own function.
    pub function: Name,
    /// The name of the function that adds.
    pub add: Name,
}

/// Appends the spelling of a name.
fn write_name(name: &Name, out: &mut Bytes) -> Result<(), AllocError>
    ensures text { OnOk result (out.new ≡ out.old ++ spelling name.now) }
    ensures name { IsName name.now }
{
    let mut text = [0; SPELLING_LEN];
    name.spell(&mut text);
    out.append(&text)
}

/// Appends a number, with the number of its digits before it.
fn write_counted(alloc: Global, number: u64, out: &mut Bytes) -> Result<(), AllocError>
    ensures { OnOk result (out.new ≡ out.old ++ counted (decimal number)) }
{
    let mut digits = Bytes::new(alloc);
    write_number(number, &mut digits)?;
    write_number(digits.len() as u64, out)?;
    out.append(b":")?;
    out.append(digits.as_slice())
}

/// The text of the job's own thunk with another number.
fn fib_text(alloc: Global, asked: &Asked, number: u64) -> Result<Bytes, AllocError>
    ensures text { IfOk result (λ text. text ≡ text_of (fib_thunk asked.now number)) }
    ensures size { IfOk result (λ text. length text ≤ max_size) }
    ensures rules { OnOk result (asked.now.function.kind ≡ kinds.Value → asked.now.add.kind ≡ kinds.Value → IsThunk (fib_thunk asked.now number)) }
{
    let mut text = Bytes::from_slice(alloc, b"gg-thunk 1\nf ")?;
    write_name(&asked.function, &mut text)?;
    text.append(b"\na ")?;
    write_counted(alloc, number, &mut text)?;
    text.append(b"\ni 3:add ")?;
    write_name(&asked.add, &mut text)?;
    text.append(b"\no 3:out\no 4:left\no 5:right\nend\n")?;
    Ok(text)
}

/// The text of the thunk that adds the first outputs of two.
fn sum_text(alloc: Global, asked: &Asked, left: &Name, right: &Name) -> Result<Bytes, AllocError>
    ensures text { IfOk result (λ text. text ≡ text_of (sum_thunk asked.now left.now right.now)) }
    ensures rules { OnOk result (asked.now.add.kind ≡ kinds.Value → left.now.kind ≡ kinds.Thunk → right.now.kind ≡ kinds.Thunk → IsThunk (sum_thunk asked.now left.now right.now)) }
{
    let mut text = Bytes::from_slice(alloc, b"gg-thunk 1\nf ")?;
    write_name(&asked.add, &mut text)?;
    text.append(b"\ni 1:a ")?;
    write_name(left, &mut text)?;
    text.append(b"#0\ni 1:b ")?;
    write_name(right, &mut text)?;
    text.append(b"#0\no 3:out\nend\n")?;
    Ok(text)
}

/// The name of a thunk's text.
fn name_of_text(text: &Bytes) -> Name
    requires { length text.now ≤ max_size }
    ensures { result ≡ name_of text.now }
{
    name_of(text.as_slice()).unwrap()
}

/// The texts of the thunk that adds the two numbers before the one that is asked for, and of the thunks of these two.
pub fn thunk_texts(alloc: Global, asked: &Asked) -> Result<Many<Bytes>, AllocError>
    requires { 2 ≤ asked.now.number }
    ensures texts { IfOk result (λ texts. texts ≡ thunk_texts asked.now) }
    ensures rules { OnOk result (asked.now.function.kind ≡ kinds.Value → asked.now.add.kind ≡ kinds.Value → AllByRecursion IsThunk (thunks_of asked.now)) }
{
    let left = fib_text(alloc, asked, asked.number - 1)?;
    let right = fib_text(alloc, asked, asked.number - 2)?;
    let left_name = name_of_text(&left);
    let right_name = name_of_text(&right);
    let mut texts = Many::new(alloc);
    texts.push(sum_text(alloc, asked, &left_name, &right_name)?)?;
    texts.push(left)?;
    texts.push(right)?;
    Ok(texts)
}
