//! Objects that steps store.

ghost use Rattle.std.specs.Prelude.{◌≡◌, ◌≤◌, ◌<◌, ◌^◌, ℕ, IfOk, OnOk, length, map};
ghost use Rattle.std.specs.List.{AllByRecursion};
ghost use Rattle.object_name.specs.Kind.{kind_of};
ghost use Rattle.object_name.specs.Name.{max_size, name_of};
ghost use Rattle.thunk_codec.specs.Card.{card_text};
ghost use Rattle.thunk_codec.specs.Fitting.{AreFit};
ghost use Rattle.thunk_codec.specs.Reference.{IsRef};
ghost use Rattle.thunk_codec.specs.declared.reference.Ref.TheVariants.{Value, Out};
ghost use Rattle.blob_store.specs.Keeping.{kept};
ghost use Rattle.file_tree.specs.Files.{Filed};
ghost use Rattle.build_plan.specs.Fitting.{IsCardName};
ghost use Rattle.build_plan.specs.Symbolic.{ref_of_item, stored, thunk_stored, value_ref};
ghost use Rattle.build_plan.specs.StepContracts.{FaresKeeper, Goes, IsItem, between, parts_with};

use crate::faults::store_fault;
use crate::gathered::Gathered;
use blob_store::{Keeper, store};
use file_tree::{ApplyFault, Reason};
use object_name::{Bytes, Kind, Many, Name, TryCopy, kind_of};
use std::alloc::{AllocError, Global};
use thunk_codec::{MakeFault, Path, Ref, Thunk, card, encode};

/// Stores an object, unless it is held, and gives its name.
fn store_object<K: Keeper>(
    alloc: Global,
    bytes: &[u8],
    keeper: &mut K,
    retries: u32,
) -> Result<Name, ApplyFault>
    requires { length bytes.now ≤ max_size }
    ensures goes { K.tells → (files : Filed) → Goes (stored bytes.now) 0 (between (kept K.store K.writes keeper.old) (kept K.store K.writes keeper.new) files files) result }
    ensures named { IfOk result (λ name. name ≡ name_of bytes.now) }
    ensures fares { FaresKeeper K.tells K.calls K.faults retries keeper.old keeper.new result }
{
    match store(alloc, keeper, bytes, retries) {
        Ok(name) => Ok(name),
        Err(fault) => Err(store_fault(fault)),
    }
}

/// Stores some bytes, which are a value's, and gives their reference.
pub(crate) fn store_value<K: Keeper>(
    alloc: Global,
    bytes: &[u8],
    keeper: &mut K,
    retries: u32,
) -> Result<Ref, ApplyFault>
    requires { length bytes.now ≤ max_size }
    ensures goes { K.tells → (files : Filed) → Goes (value_ref bytes.now (kind_of bytes.now)) 0 (between (kept K.store K.writes keeper.old) (kept K.store K.writes keeper.new) files files) result }
    ensures reference { IfOk result IsRef }
    ensures fares { FaresKeeper K.tells K.calls K.faults retries keeper.old keeper.new result }
{
    match kind_of(bytes) {
        Kind::Value => Ok(Ref::Value(store_object(alloc, bytes, keeper, retries)?)),
        Kind::Thunk => Err(ApplyFault::Reason(Reason::WrongKind)),
    }
}

/// Stores what was gathered, if it is bytes, and gives its reference.
pub(crate) fn store_item<K: Keeper>(
    alloc: Global,
    item: &Gathered,
    keeper: &mut K,
    retries: u32,
) -> Result<Ref, ApplyFault>
    requires { IsItem item.now }
    ensures goes { K.tells → (files : Filed) → Goes (ref_of_item item.now) 0 (between (kept K.store K.writes keeper.old) (kept K.store K.writes keeper.new) files files) result }
    ensures reference { IfOk result IsRef }
    ensures fares { FaresKeeper K.tells K.calls K.faults retries keeper.old keeper.new result }
{
    match item {
        Gathered::Plain(bytes) => store_value(alloc, bytes.as_slice(), keeper, retries),
        Gathered::Output(name, index) => Ok(Ref::Out(*name, *index)),
    }
}

/// Stores the card of a tool, and gives its name.
pub(crate) fn store_card<K: Keeper>(
    alloc: Global,
    tool: &[u8],
    keeper: &mut K,
    retries: u32,
) -> Result<Name, ApplyFault>
    requires { IsCardName tool.now }
    ensures goes { K.tells → (files : Filed) → Goes (stored (card_text tool.now)) 0 (between (kept K.store K.writes keeper.old) (kept K.store K.writes keeper.new) files files) result }
    ensures reference { IfOk result (λ name. IsRef (Value name)) }
    ensures fares { FaresKeeper K.tells K.calls K.faults retries keeper.old keeper.new result }
{
    let text = card(alloc, tool)?;
    store_object(alloc, text.as_slice(), keeper, retries)
}

/// The thunk of some parts.
fn thunk_of(
    alloc: Global,
    function: Ref,
    args: &Many<Bytes>,
    envs: &Many<(Bytes, Bytes)>,
    inputs: Many<(Path, Ref)>,
    outputs: &Many<Path>,
) -> Result<Thunk, AllocError>
    requires fits { AreFit args.now envs.now (map (λ input. input.0) inputs) outputs.now }
    requires function { IsRef function }
    requires inputs { AllByRecursion IsRef (map (λ input. input.1) inputs) }
    ensures { IfOk result (λ thunk. thunk ≡ record { function = function; args = args.now; envs = envs.now; inputs = inputs; outputs = outputs.now }) }
{
    let args = args.copy(alloc)?;
    let envs = envs.copy(alloc)?;
    let outputs = outputs.copy(alloc)?;
    match Thunk::make(alloc, function, args, envs, inputs, outputs) {
        Ok(thunk) => Ok(thunk),
        Err(MakeFault::NotThunk) => unreachable!(),
        Err(MakeFault::Memory) => Err(AllocError),
    }
}

/// Stores the thunk of some parts, and gives its name.
pub(crate) fn store_thunk<K: Keeper>(
    alloc: Global,
    function: Ref,
    args: &Many<Bytes>,
    envs: &Many<(Bytes, Bytes)>,
    inputs: Many<(Path, Ref)>,
    outputs: &Many<Path>,
    keeper: &mut K,
    retries: u32,
) -> Result<Name, ApplyFault>
    requires fits { AreFit args.now envs.now (map (λ input. input.0) inputs) outputs.now }
    requires function { IsRef function }
    requires inputs { AllByRecursion IsRef (map (λ input. input.1) inputs) }
    ensures goes { K.tells → (files : Filed) → Goes (thunk_stored (parts_with function args.now envs.now inputs outputs.now)) 1 (between (kept K.store K.writes keeper.old) (kept K.store K.writes keeper.new) files files) result }
    ensures reference { IfOk result (λ name. (index : ℕ) → index < 2 ^ 32 → IsRef (Out name index)) }
    ensures few { OnOk result (length outputs.now ≤ 64) }
    ensures fares { FaresKeeper K.tells K.calls K.faults retries keeper.old keeper.new result }
{
    let thunk = thunk_of(alloc, function, args, envs, inputs, outputs)?;
    let text = encode(alloc, &thunk)?;
    store_object(alloc, text.as_slice(), keeper, retries)
}
