//! The file that an include line goes into.

ghost use Rattle.std.specs.Prelude.{◌≡◌, ◌∷◌, [], length, IfOk};
ghost use Rattle.object_name.specs.Causes.{HasCauseBy, HasCauseOver, faults_of};
ghost use Rattle.object_name.specs.Causes.{TriesAtMost};
ghost use Rattle.tool_text.specs.Including.{first_there};
ghost use Rattle.include_scan.specs.Queue.{IsFound, NoneRefused};

use file_tree::{FileRead, Tree, read_again};
use indexmap::IndexSet;
use object_name::{Trouble, TryCopy};
use std::alloc::Global;
use thunk_codec::Path;

/// Where a file was found.
#[derive(Drop)]
pub(crate) enum Found {
    /// It isn't there.
    Nowhere,
    /// It was visited before.
    Visited,
    /// It is new, and this was read.
    New(Path, FileRead),
}

/// Looks at one candidate. A file that was visited before is there.
fn look_at<T: Tree>(
    alloc: Global,
    tree: &mut T,
    visited: &IndexSet<Path>,
    candidate: &Option<Path>,
    retries: u32,
) -> Result<Found, Trouble>
    ensures exact { T.tells → NoneRefused (T.files tree.old) visited.now.keys → IfOk result (IsFound (T.files tree.old) visited.now.keys (first_there (T.files tree.old) (candidate.now ∷ []))) }
    ensures same { T.tells → T.files tree.new ≡ T.files tree.old }
    ensures list { T.tells → T.changes tree.new ≡ T.changes tree.old }
    ensures cause { HasCauseBy retries (T.faults tree.old) (T.faults tree.new) result }
    ensures tries { T.tells → TriesAtMost retries T.calls T.faults tree.old tree.new (faults_of result) }
{
    let Some(path) = candidate else {
        return Ok(Found::Nowhere);
    };
    if visited.contains(path) {
        return Ok(Found::Visited);
    }
    match read_again(alloc, tree, path, retries)? {
        FileRead::Absent => Ok(Found::Nowhere),
        read => Ok(Found::New(path.copy(alloc)?, read)),
    }
}

/// Looks at the candidates in order until one is there.
pub(crate) fn find<T: Tree>(
    alloc: Global,
    tree: &mut T,
    visited: &IndexSet<Path>,
    candidates: &[Option<Path>],
    retries: u32,
) -> Result<Found, Trouble>
    ensures exact { T.tells → NoneRefused (T.files tree.old) visited.now.keys → IfOk result (IsFound (T.files tree.old) visited.now.keys (first_there (T.files tree.old) candidates.now)) }
    ensures same { T.tells → T.files tree.new ≡ T.files tree.old }
    ensures list { T.tells → T.changes tree.new ≡ T.changes tree.old }
    ensures cause { HasCauseOver (length candidates.now) retries (T.faults tree.old) (T.faults tree.new) result }
    ensures tries { T.tells → TriesAtMost retries T.calls T.faults tree.old tree.new (faults_of result) }
{
    let mut rest = candidates;
    'candidates: while let [candidate, others @ ..] = rest {
        match look_at(alloc, tree, visited, candidate, retries)? {
            Found::Nowhere => rest = others,
            found => return Ok(found),
        }
    }
    Ok(Found::Nowhere)
}
