//! The command `demo`: a build that is inferred and then forced, in a store and a tree of its own.

ghost use Rattle.std.specs.Prelude.{◌≡◌, ◌≢◌, ◌∷◌, [], ℕ, IfOk, length, Err};
ghost use Rattle.thunk_codec.specs.Reference.{IsRef};
ghost use Rattle.blob_store.specs.Keeping.{Kept};
ghost use Rattle.blob_store.specs.Memory.{store_of};
ghost use Rattle.file_tree.specs.Files.{Filed};
ghost use Rattle.file_tree.specs.Memory.{files_of};
ghost use Rattle.file_tree.specs.Wanted.{ref_of_item};
ghost use Rattle.build_script.specs.Script.{script_inferred};
ghost use Rattle.need_eval.specs.Eval.{start};
ghost use Rattle.need_eval.specs.Evaluation.{value_of, by_function};
ghost use Rattle.sandbox_run.specs.Cards.{card_outcome};
ghost use Rattle.gg_cli.specs.Answer.{demo_text, demonstrated, program_forced, program_wanted};
ghost use Rattle.gg_cli.specs.Demo.{program};
ghost use Rattle.gg_cli.specs.ForceWords.{default_budget};
ghost use Rattle.gg_cli.specs.LowerFaults.{own_fault};
ghost use Rattle.gg_cli.specs.StepContracts.{Ends, EndCause, MakesThunks, ShowsDemonstration, ShowsProgram, answered, file_counts, file_faults_of, kept_faults_of, unkept};
ghost use Rattle.gg_cli.specs.Writing.{Writes};

use crate::command::DEFAULT_RETRIES;
use crate::demo_build::{demo_script, demo_tree, empty_keeper};
use crate::fault::{TopFault, output_fault};
use crate::force_command::fault_of;
use crate::force_words::DEFAULT_BUDGET;
use crate::line_fault::line_fault;
use crate::pieces::Piece::{Spelled, Text};
use crate::pieces::write_pieces;
use crate::script_lines::print_count;
use blob_store::MemKeeper;
use build_plan::known_path;
use build_script::infer;
use file_tree::{Item, MemTree, ref_of_item};
use need_eval::evaluate;
use object_name::{Many, Name, Sink, Trouble};
use sandbox_run::Cards;
use std::alloc::{AllocError, Global};
use thunk_codec::Ref;

/// The value of the program, and the steps that it took.
#[derive(Debug, Drop)]
struct Program {
    name: Name,
    steps: u32,
}

/// What is printed: the number of thunks that were made, and what the program of them gave.
#[derive(Debug, Drop)]
struct Demonstration {
    thunks: u32,
    program: Program,
}

/// The number of thunks that the script makes. They are stored, and the tree gets their placeholders.
fn make_thunks(
    alloc: Global,
    keeper: &mut MemKeeper,
    tree: &mut MemTree,
    script: &[u8],
) -> Result<u32, TopFault>
    ensures made { MakesThunks (script_inferred script.now (store_of keeper.old) (files_of tree.old)) (store_of keeper.new) (files_of tree.new) result }
    ensures no_usage { result ≢ Err TopFault.Usage }
    ensures no_input { result ≢ Err TopFault.InputFailed }
{
    match infer(alloc, script, tree, keeper, DEFAULT_RETRIES) {
        Ok(inferred) => Ok(inferred.thunks),
        Err(fault) => Err(line_fault(alloc, fault)),
    }
}

/// The one name of a list.
fn only_name(names: &[Name]) -> Name
    requires { length names.now ≡ 1 }
    ensures { names.now ≡ result ∷ [] }
{
    names[0]
}

/// A list of one reference.
fn one_ref(alloc: Global, reference: Ref) -> Result<Many<Ref>, AllocError>
    ensures { IfOk result (λ refs. refs ≡ reference ∷ []) }
{
    let mut refs = Many::new(alloc);
    refs.push(reference)?;
    Ok(refs)
}

/// The value of a reference.
fn force_ref(alloc: Global, keeper: &mut MemKeeper, reference: Ref) -> Result<Program, TopFault>
    requires { IsRef reference }
    ensures shows { (thunks : ℕ) → ShowsProgram thunks (program_forced thunks (value_of (by_function card_outcome) default_budget reference (start (store_of keeper.old)))) result }
    ensures no_usage { result ≢ Err TopFault.Usage }
    ensures no_input { result ≢ Err TopFault.InputFailed }
{
    let refs = one_ref(alloc, reference)?;
    match evaluate(
        alloc,
        keeper,
        refs,
        DEFAULT_BUDGET,
        DEFAULT_RETRIES,
        &mut Cards,
    ) {
        Ok(values) => Ok(Program {
            name: only_name(values.names.as_slice()),
            steps: values.steps,
        }),
        Err(fault) => Err(fault_of(&fault)),
    }
}

/// What is wanted in the end.
fn program_item(alloc: Global) -> Result<Item, AllocError>
    ensures { IfOk result (λ item. item ≡ program) }
{
    Ok(Item::File(known_path(alloc, b"prog")?))
}

/// The value of the program, by its placeholder.
fn force_program(
    alloc: Global,
    keeper: &mut MemKeeper,
    tree: &mut MemTree,
) -> Result<Program, TopFault>
    ensures shows { (thunks : ℕ) → ShowsProgram thunks (program_wanted thunks (store_of keeper.old) (ref_of_item (files_of tree.old) program)) result }
    ensures no_usage { result ≢ Err TopFault.Usage }
    ensures no_input { result ≢ Err TopFault.InputFailed }
{
    let item = program_item(alloc)?;
    let reference = ref_of_item(alloc, tree, &item, DEFAULT_RETRIES)?;
    force_ref(alloc, keeper, reference)
}

/// The build of so many functions, inferred and then forced.
fn demonstrate(alloc: Global, count: u32) -> Result<Demonstration, TopFault>
    ensures shows { ShowsDemonstration (demonstrated count) result }
    ensures no_usage { result ≢ Err TopFault.Usage }
    ensures no_input { result ≢ Err TopFault.InputFailed }
{
    let mut keeper = empty_keeper(alloc)?;
    let mut tree = demo_tree(alloc, count)?;
    let script = demo_script(alloc, count)?;
    let thunks = make_thunks(alloc, &mut keeper, &mut tree, script.as_slice())?;
    let program = force_program(alloc, &mut keeper, &mut tree)?;
    Ok(Demonstration { thunks, program })
}

/// The fault of a build in a store and a tree in memory, of which no call is to fail: of these memory alone runs out.
fn own_fault(fault: TopFault) -> TopFault
    requires is_no_usage { fault ≢ TopFault.Usage }
    requires is_no_input { fault ≢ TopFault.InputFailed }
    ensures is_fault { result ≡ own_fault fault }
    ensures no_usage { result ≢ TopFault.Usage }
    ensures no_input { result ≢ TopFault.InputFailed }
{
    match fault {
        TopFault::StoreFailed => TopFault::Memory,
        TopFault::FileFailed => TopFault::Memory,
        other => other,
    }
}

/// Prints what was made and what it gave.
fn print_demonstration<S: Sink>(
    alloc: Global,
    sink: &mut S,
    shown: &Demonstration,
) -> Result<(), Trouble>
    ensures { Writes (demo_text shown.now.thunks shown.now.program.steps shown.now.program.name) (S.written sink.old) (S.written sink.new) (S.faults sink.old) (S.faults sink.new) result }
{
    print_count(alloc, sink, b"thunks ", shown.thunks)?;
    print_count(alloc, sink, b"steps ", shown.program.steps)?;
    write_pieces(
        alloc,
        sink,
        &[Text(b"prog "), Spelled(shown.program.name), Text(b"\n")],
    )
}

/// Does `demo`: a build of so many functions, in a store and a tree of its own, is inferred, its program is forced, and the number of
/// thunks, the steps and the program's name are printed.
pub(crate) fn demo<O: Sink>(alloc: Global, out: &mut O, count: u32) -> Result<(), TopFault>
    ensures ends { (kept : Kept) (files : Filed) → Ends (demonstrated count) (unkept kept files files (O.written out.old) (O.written out.new)) result }
    ensures cause { (retries kept files : ℕ) → EndCause retries (file_counts kept files files (O.faults out.old) (O.faults out.new)) result }
    ensures no_keeper { answered kept_faults_of result ≡ 0 }
    ensures no_tree { answered file_faults_of result ≡ 0 }
    ensures no_usage { result ≢ Err TopFault.Usage }
    ensures no_input { result ≢ Err TopFault.InputFailed }
{
    let shown = match demonstrate(alloc, count) {
        Ok(shown) => shown,
        Err(fault) => return Err(own_fault(fault)),
    };
    match print_demonstration(alloc, out, &shown) {
        Ok(()) => Ok(()),
        Err(trouble) => Err(output_fault(trouble)),
    }
}
