//! Thunks of references.

use anyhow::{Context, Result, bail};
use object_name::Many;
use std::alloc::Global;
use thunk_codec::{MakeFault, Path, Ref, Thunk};

/// The number in the path of the first input: the paths of all inputs have as many digits, so that they stand in their order.
const FIRST: u32 = 1000;

/// The path of a text.
fn path(alloc: Global, text: &str) -> Result<Path> {
    Path::read(alloc, text.as_bytes())?.context(format_args!("{text} is no path"))
}

/// These references as inputs, in order.
fn inputs(alloc: Global, refs: &[Ref]) -> Result<Many<(Path, Ref)>> {
    let mut inputs = Many::new(alloc);
    let mut number = FIRST;
    'refs: for reference in refs {
        let text = format!(in alloc; "{number}")?;
        inputs.push((path(alloc, text.as_str())?, *reference))?;
        number = number.saturating_add(1);
    }
    Ok(inputs)
}

/// The thunk of some references: the first is its function, the others its inputs.
pub fn thunk(alloc: Global, refs: &[Ref]) -> Result<Thunk> {
    let (function, others) = refs.split_first().context("a thunk has a function")?;
    let inputs = inputs(alloc, others)?;
    let mut outputs = Many::new(alloc);
    outputs.push(path(alloc, "out")?)?;
    let args = Many::new(alloc);
    let envs = Many::new(alloc);
    match Thunk::make(alloc, *function, args, envs, inputs, outputs) {
        Ok(thunk) => Ok(thunk),
        Err(MakeFault::NotThunk) => bail!("no thunk has these references"),
        Err(MakeFault::Memory) => bail!("out of memory"),
    }
}
