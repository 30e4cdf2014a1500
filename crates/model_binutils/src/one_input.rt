//! Runs of tools over one file.

ghost use Rattle.std.specs.Prelude.{◌≡◌, ◌∷◌, [], IsTrue, IfOk, codes};
ghost use Rattle.thunk_codec.specs.Path.{is_path};
ghost use Rattle.model_binutils.specs.PlanOf.{run_over, strip_step, stripped_path};

use build_plan::{Source, Stage, Step, known_path};
use object_name::{Bytes, Many, TryCopy};
use std::alloc::{AllocError, Global};
use thunk_codec::Path;

/// A tool over one file, as the input of a name.
fn run_over(
    alloc: Global,
    tool: &[u8],
    args: Many<Bytes>,
    input: &[u8],
    path: &Path,
    target: Path,
) -> Result<Step, AllocError>
    requires { IsTrue (is_path input.now) }
    ensures { IfOk result (λ step. step ≡ run_over tool.now args input.now path.now target) }
{
    let name = known_path(alloc, input)?;
    let file = path.copy(alloc)?;
    let mut inputs = Many::new(alloc);
    inputs.push((name, Source::File(file)))?;
    let tool = Bytes::from_slice(alloc, tool)?;
    Ok(Step::Run(Stage {
        tool,
        args,
        inputs,
        optional: None,
        target,
    }))
}

/// The run of `ar` that makes a table of symbols.
pub(crate) fn table_step(alloc: Global, archive: &Path) -> Result<Step, AllocError>
    ensures { IfOk result (λ step. step ≡ run_over (codes "ar") (codes "s" ∷ []) (codes "old") archive.now archive.now) }
{
    let mut args = Many::new(alloc);
    args.push(Bytes::from_slice(alloc, b"s")?)?;
    let target = archive.copy(alloc)?;
    run_over(alloc, b"ar", args, b"old", archive, target)
}

/// The run of `ranlib`.
pub(crate) fn ranlib_step(alloc: Global, archive: &Path) -> Result<Step, AllocError>
    ensures { IfOk result (λ step. step ≡ run_over (codes "ranlib") [] (codes "old") archive.now archive.now) }
{
    let target = archive.copy(alloc)?;
    run_over(alloc, b"ranlib", Many::new(alloc), b"old", archive, target)
}

/// Where a stripped file goes.
pub(crate) fn stripped_path(
    alloc: Global,
    output: &Option<Path>,
    path: &Path,
) -> Result<Path, AllocError>
    ensures { IfOk result (λ found. found ≡ stripped_path output.now path.now) }
{
    match output {
        Some(given) => given.copy(alloc),
        None => path.copy(alloc),
    }
}

/// The run of `strip` over a file.
pub(crate) fn strip_step(
    alloc: Global,
    output: &Option<Path>,
    path: &Path,
) -> Result<Step, AllocError>
    ensures { IfOk result (λ step. step ≡ strip_step output.now path.now) }
{
    let target = stripped_path(alloc, output, path)?;
    run_over(alloc, b"strip", Many::new(alloc), b"in", path, target)
}
