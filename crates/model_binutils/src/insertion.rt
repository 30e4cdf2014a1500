//! The run of `ar` that puts members into an archive.

ghost use Rattle.std.specs.Prelude.{◌≡◌, ◌∷◌, map, IfOk};
ghost use Rattle.thunk_codec.specs.Folder.{last_of};
ghost use Rattle.model_binutils.specs.PlanOf.{member_input, member_inputs, insertion_letters, insertion};

use build_plan::{Source, Stage, Step, four_digits, known_path};
use object_name::{Bytes, Many, TryCopy};
use std::alloc::{AllocError, Global};
use thunk_codec::Path;

/// The letters that `ar` is given.
fn insertion_letters(table: bool) -> &'static [u8]
    ensures { result.now ≡ insertion_letters table }
{
    if table { b"rs" } else { b"r" }
}

/// The letters, and the names of the members.
fn insertion_args(alloc: Global, table: bool, members: &[Path]) -> Result<Many<Bytes>, AllocError>
    ensures { IfOk result (λ args. args ≡ insertion_letters table ∷ map last_of members.now) }
{
    let mut args = Many::new(alloc);
    args.push(Bytes::from_slice(alloc, insertion_letters(table))?)?;
    let mut rest = members;
    'members: while let [path, others @ ..] = rest {
        args.push(Bytes::from_slice(alloc, path.last())?)?;
        rest = others;
    }
    Ok(args)
}

/// The input of the member of a number.
fn member_input(alloc: Global, number: usize) -> Result<Path, AllocError>
    ensures { IfOk result (λ path. path ≡ member_input number) }
{
    let mut text = Bytes::from_slice(alloc, b"m")?;
    text.append(&four_digits(number))?;
    known_path(alloc, text.as_slice())
}

/// The members as inputs.
fn member_inputs(alloc: Global, members: &[Path]) -> Result<Many<(Path, Source)>, AllocError>
    ensures { IfOk result (λ inputs. inputs ≡ member_inputs 0 members.now) }
{
    let mut inputs = Many::new(alloc);
    let mut rest = members;
    'members: while let [path, others @ ..] = rest {
        let input = member_input(alloc, inputs.len())?;
        let file = path.copy(alloc)?;
        inputs.push((input, Source::File(file)))?;
        rest = others;
    }
    Ok(inputs)
}

/// The run of `ar` that puts members in, and makes a table of symbols where that is asked for.
pub(crate) fn insertion(
    alloc: Global,
    table: bool,
    archive: &Path,
    members: &[Path],
) -> Result<Step, AllocError>
    ensures { IfOk result (λ step. step ≡ Step.Run (insertion table archive.now members.now)) }
{
    let tool = Bytes::from_slice(alloc, b"ar")?;
    let args = insertion_args(alloc, table, members)?;
    let inputs = member_inputs(alloc, members)?;
    let old = known_path(alloc, b"old")?;
    let file = archive.copy(alloc)?;
    let target = archive.copy(alloc)?;
    Ok(Step::Run(Stage {
        tool,
        args,
        inputs,
        optional: Some((old, file)),
        target,
    }))
}
