//! The stages: which tool runs over what.

ghost use Rattle.std.specs.Prelude.{◌≡◌, ◌∷◌, [], IfOk, codes};
ghost use Rattle.model_gcc.specs.Stages.{run_over, preprocess, compile};

use crate::gcc_plan::GccPlan;
use build_plan::{Scanning, Source, Stage, Step, known_path};
use object_name::{Bytes, Many, TryCopy};
use std::alloc::{AllocError, Global};
use thunk_codec::Path;

/// A tool that has one input, `in`.
fn run_over(
    alloc: Global,
    tool: &[u8],
    args: Many<Bytes>,
    input: Source,
    target: &Path,
) -> Result<Step, AllocError>
    ensures { IfOk result (λ step. step ≡ run_over tool.now args input target.now) }
{
    let path = known_path(alloc, b"in")?;
    let mut inputs = Many::new(alloc);
    inputs.push((path, input))?;
    let tool = Bytes::from_slice(alloc, tool)?;
    let target = target.copy(alloc)?;
    Ok(Step::Run(Stage {
        tool,
        args,
        inputs,
        optional: None,
        target,
    }))
}

/// The preprocessor's arguments: the source's path, and then its words.
fn source_and_words(
    alloc: Global,
    path: &Path,
    words: &Many<Bytes>,
) -> Result<Many<Bytes>, AllocError>
    ensures { IfOk result (λ args. args ≡ path.now ∷ words.now) }
{
    let first = Bytes::from_slice(alloc, path.text())?;
    let mut args = words.copy(alloc)?;
    args.0.insert(0, first)?;
    Ok(args)
}

/// The preprocessor over a source and what it may include.
pub(crate) fn preprocess(
    alloc: Global,
    plan: &GccPlan,
    target: &Path,
    path: &Path,
) -> Result<Step, AllocError>
    ensures { IfOk result (λ step. step ≡ preprocess plan.now target.now path.now) }
{
    let tool = Bytes::from_slice(alloc, b"cpp")?;
    let args = source_and_words(alloc, path, &plan.cpp_words)?;
    let folders = plan.include_folders.copy(alloc)?;
    let source = path.copy(alloc)?;
    let target = target.copy(alloc)?;
    Ok(Step::Scan(Scanning {
        tool,
        args,
        folders,
        source,
        target,
    }))
}

/// The compiler, with the words that are passed on.
pub(crate) fn compile(
    alloc: Global,
    plan: &GccPlan,
    target: &Path,
    input: Source,
) -> Result<Step, AllocError>
    ensures { IfOk result (λ step. step ≡ compile plan.now target.now input) }
{
    let args = plan.cc_words.copy(alloc)?;
    run_over(alloc, b"cc1", args, input, target)
}

/// The assembler.
pub(crate) fn assemble(alloc: Global, target: &Path, input: Source) -> Result<Step, AllocError>
    ensures { IfOk result (λ step. step ≡ run_over (codes "as") [] input target.now) }
{
    run_over(alloc, b"as", Many::new(alloc), input, target)
}
