//! The command `describe`: what a thunk says.

ghost use Rattle.std.specs.Prelude.{◌≡◌, ◌≢◌, ◌≤◌, ℕ, Err};
ghost use Rattle.blob_store.specs.Keeping.{kept};
ghost use Rattle.file_tree.specs.Files.{filed_in};
ghost use Rattle.file_tree.specs.Wanted.{IsItem};
ghost use Rattle.object_name.specs.Causes.{TriesAtMost};
ghost use Rattle.gg_cli.specs.Answer.{described};
ghost use Rattle.gg_cli.specs.Comes.{around};
ghost use Rattle.gg_cli.specs.Description.{description};
ghost use Rattle.gg_cli.specs.StepContracts.{Ends, EndCause, ReadsBytes, ReadsThunk, GivesThunk, answered, file_faults_of, kept_counts, kept_faults_of};
ghost use Rattle.gg_cli.specs.Writing.{Writes};

use crate::description::thunk_text;
use crate::fault::{TopFault, output_fault};
use crate::pieces::write;
use blob_store::{Keeper, fetch};
use file_tree::{Item, Tree, ref_of_item};
use need_eval::Refusal;
use object_name::{Bytes, Name, Sink, Trouble};
use std::alloc::Global;
use thunk_codec::{DecodeFault, Thunk, decode};

/// The bytes that are held under a name.
fn held_bytes<K: Keeper>(
    alloc: Global,
    keeper: &mut K,
    name: &Name,
    retries: u32,
) -> Result<Bytes, TopFault>
    ensures reads { K.tells → ReadsBytes (K.store keeper.old).objects name.now result }
    ensures same { K.tells → K.store keeper.new ≡ K.store keeper.old }
    ensures list { K.tells → K.writes keeper.new ≡ K.writes keeper.old }
    ensures later { K.faults keeper.old ≤ K.faults keeper.new }
    ensures cause { EndCause retries (kept_counts (K.faults keeper.old) (K.faults keeper.new)) result }
    ensures kept_tries { K.tells → TriesAtMost retries K.calls K.faults keeper.old keeper.new (answered kept_faults_of result) }
    ensures no_usage { result ≢ Err TopFault.Usage }
    ensures no_input { result ≢ Err TopFault.InputFailed }
{
    match fetch(alloc, keeper, name, retries) {
        Ok(Some(bytes)) => Ok(bytes),
        Ok(None) => Err(TopFault::Refused(Refusal::Missing(*name))),
        Err(Trouble::Failed) => Err(TopFault::StoreFailed),
        Err(Trouble::Memory) => Err(TopFault::Memory),
    }
}

/// The thunk of this name whose text the bytes are.
fn thunk_of(alloc: Global, name: &Name, bytes: &[u8]) -> Result<Thunk, TopFault>
    ensures gives { GivesThunk name.now bytes.now result }
    ensures cause { (retries before after : ℕ) → EndCause retries (kept_counts before after) result }
    ensures unkept { answered kept_faults_of result ≡ 0 }
    ensures no_usage { result ≢ Err TopFault.Usage }
    ensures no_input { result ≢ Err TopFault.InputFailed }
{
    match decode(alloc, bytes) {
        Ok(thunk) => Ok(thunk),
        Err(DecodeFault::BadThunk) => Err(TopFault::Refused(Refusal::BadThunk(*name))),
        Err(DecodeFault::Memory) => Err(TopFault::Memory),
    }
}

/// The thunk of a name.
fn read_thunk<K: Keeper>(
    alloc: Global,
    keeper: &mut K,
    name: &Name,
    retries: u32,
) -> Result<Thunk, TopFault>
    ensures reads { K.tells → ReadsThunk (K.store keeper.old).objects name.now result }
    ensures same { K.tells → K.store keeper.new ≡ K.store keeper.old }
    ensures list { K.tells → K.writes keeper.new ≡ K.writes keeper.old }
    ensures later { K.faults keeper.old ≤ K.faults keeper.new }
    ensures cause { EndCause retries (kept_counts (K.faults keeper.old) (K.faults keeper.new)) result }
    ensures kept_tries { K.tells → TriesAtMost retries K.calls K.faults keeper.old keeper.new (answered kept_faults_of result) }
    ensures no_usage { result ≢ Err TopFault.Usage }
    ensures no_input { result ≢ Err TopFault.InputFailed }
{
    let bytes = held_bytes(alloc, keeper, name, retries)?;
    thunk_of(alloc, name, bytes.as_slice())
}

/// Prints what a thunk of this name says.
fn print_thunk<S: Sink>(
    alloc: Global,
    sink: &mut S,
    name: &Name,
    thunk: &Thunk,
) -> Result<(), Trouble>
    ensures { Writes (description name.now thunk.now) (S.written sink.old) (S.written sink.new) (S.faults sink.old) (S.faults sink.new) result }
{
    let text = thunk_text(alloc, name, thunk)?;
    write(sink, text.as_slice())
}

/// Does `describe`: prints what the thunk says of which the item is an output.
pub(crate) fn describe<K: Keeper, T: Tree, O: Sink>(
    alloc: Global,
    keeper: &mut K,
    tree: &mut T,
    out: &mut O,
    item: &Item,
    retries: u32,
) -> Result<(), TopFault>
    requires { IsItem item.now }
    ensures ends { K.tells → T.tells → Ends (described item.now (K.store keeper.old) (T.files tree.old))
        (around (kept K.store K.writes) (filed_in T.files T.changes) O.written keeper.old keeper.new tree.old tree.new out.old out.new) result }
    ensures cause { EndCause retries (around K.faults T.faults O.faults keeper.old keeper.new tree.old tree.new out.old out.new) result }
    ensures kept_tries { K.tells → TriesAtMost retries K.calls K.faults keeper.old keeper.new (answered kept_faults_of result) }
    ensures file_tries { T.tells → TriesAtMost retries T.calls T.faults tree.old tree.new (answered file_faults_of result) }
    ensures no_usage { result ≢ Err TopFault.Usage }
    ensures no_input { result ≢ Err TopFault.InputFailed }
{
    let reference = ref_of_item(alloc, tree, item, retries)?;
    let name = reference.name();
    let thunk = read_thunk(alloc, keeper, name, retries)?;
    match print_thunk(alloc, out, name, &thunk) {
        Ok(()) => Ok(()),
        Err(trouble) => Err(output_fault(trouble)),
    }
}
