//! One command line, from its words to what is written.

ghost use Rattle.std.specs.Prelude.{◌≡◌, ◌≢◌, ◌≤◌, ◌⊎◌, ℕ, List, Some, None, Err, false, length, map, string_bytes, true};
ghost use Rattle.blob_store.specs.Keeping.{kept};
ghost use Rattle.file_tree.specs.Files.{filed_in};
ghost use Rattle.object_name.specs.Causes.{TriesAtMost};
ghost use Rattle.object_name.specs.Name.{max_size};
ghost use Rattle.gg_cli.specs.Words.{command_here, here, read_by, reads_input, retries_in, IsCommand};
ghost use Rattle.gg_cli.specs.Answer.{answer_of, answer_of_command};
ghost use Rattle.gg_cli.specs.Comes.{around, Comes, IsInputFault, Says, SaysUntold, TopCause, file_failures, kept_failures};
ghost use Rattle.gg_cli.specs.InputText.{Leaves, LeavesInput, TellsText, input_of};
ghost use Rattle.gg_cli.specs.StepContracts.{Ends, EndCause, InputEnd, TopEnds, TopEndCause, answered, file_faults_of, kept_faults_of};

use crate::build_command::build_text;
use crate::command::{Command, DEFAULT_RETRIES};
use crate::create_command::create_thunk;
use crate::demo_command::demo;
use crate::describe_command::describe;
use crate::endings::say;
use crate::fault::TopFault;
use crate::force_command::force;
use crate::help_command::help;
use crate::infer_command::infer_text;
use crate::input_text::input_text;
use crate::model_command::model;
use crate::status::Status;
use crate::word_fault::WordFault;
use crate::words::read_here;
use blob_store::Keeper;
use file_tree::Tree;
use object_name::{Sink, Source};
use std::alloc::Global;

/// Does a command, with the text of the input where it reads that.
fn do_command<K: Keeper, T: Tree, O: Sink>(
    alloc: Global,
    command: &Command,
    keeper: &mut K,
    tree: &mut T,
    text: &[u8],
    out: &mut O,
) -> Result<(), TopFault>
    requires rules { IsCommand command.now }
    requires done_here { here command.now ≡ Some command.now }
    requires fits { length text.now ≤ max_size }
    ensures ends { K.tells → T.tells → Ends (answer_of_command (Some command.now) text.now (K.store keeper.old) (T.files tree.old))
        (around (kept K.store K.writes) (filed_in T.files T.changes) O.written keeper.old keeper.new tree.old tree.new out.old out.new) result }
    ensures cause { EndCause (retries_in (Some command.now)) (around K.faults T.faults O.faults keeper.old keeper.new tree.old tree.new out.old out.new) result }
    ensures kept_tries { K.tells → TriesAtMost (retries_in (Some command.now)) K.calls K.faults keeper.old keeper.new (answered kept_faults_of result) }
    ensures file_tries { T.tells → TriesAtMost (retries_in (Some command.now)) T.calls T.faults tree.old tree.new (answered file_faults_of result) }
    ensures no_usage { result ≢ Err TopFault.Usage }
    ensures no_input { result ≢ Err TopFault.InputFailed }
{
    match command {
        Command::Force {
            budget,
            retries,
            items,
        } => force(
            alloc,
            keeper,
            tree,
            out,
            items.as_slice(),
            *budget,
            *retries,
        ),
        Command::CreateThunk(recipe) => {
            create_thunk(alloc, keeper, tree, out, recipe, DEFAULT_RETRIES)
        }
        Command::Model(words) => model(alloc, keeper, tree, words.as_slice(), DEFAULT_RETRIES),
        Command::Infer => infer_text(alloc, keeper, tree, out, text, DEFAULT_RETRIES),
        Command::Build => build_text(alloc, tree, out, text, DEFAULT_RETRIES),
        Command::Describe(item) => describe(alloc, keeper, tree, out, item, DEFAULT_RETRIES),
        Command::ForceWith { .. } => unreachable!(),
        Command::Demo(count) => demo(alloc, out, *count),
        Command::Worker { .. } => unreachable!(),
        Command::Help => help(out),
    }
}

/// Reads the input where the command does that, and does the command.
fn read_and_do<K: Keeper, T: Tree, I: Source, O: Sink>(
    alloc: Global,
    command: &Command,
    keeper: &mut K,
    tree: &mut T,
    input: &mut I,
    out: &mut O,
) -> Result<(), TopFault>
    requires rules { IsCommand command.now }
    requires done_here { here command.now ≡ Some command.now }
    ensures ends { K.tells → T.tells → (text : List ℕ) → TellsText (Some command.now) (I.left input.old) text → TopEnds (answer_of_command (Some command.now) text (K.store keeper.old) (T.files tree.old))
        (around (kept K.store K.writes) (filed_in T.files T.changes) O.written keeper.old keeper.new tree.old tree.new out.old out.new) result }
    ensures failed { InputEnd (Some command.now) (around (kept K.store K.writes) (filed_in T.files T.changes) O.written keeper.old keeper.new tree.old tree.new out.old out.new)
        (I.faults input.old) (I.faults input.new) result }
    ensures cause { TopEndCause (retries_in (Some command.now)) (around K.faults T.faults O.faults keeper.old keeper.new tree.old tree.new out.old out.new) result }
    ensures kept_tries { K.tells → TriesAtMost (retries_in (Some command.now)) K.calls K.faults keeper.old keeper.new (answered kept_faults_of result) }
    ensures file_tries { T.tells → TriesAtMost (retries_in (Some command.now)) T.calls T.faults tree.old tree.new (answered file_faults_of result) }
    ensures unread { reads_input command.now ≡ false → input_of I.left I.faults I.reads input.new ≡ input_of I.left I.faults I.reads input.old }
    ensures read { reads_input command.now ≡ true → Leaves (input_of I.left I.faults I.reads input.old) (input_of I.left I.faults I.reads input.new) result }
    ensures no_usage { result ≢ Err TopFault.Usage }
{
    let text = input_text(alloc, input, command)?;
    do_command(alloc, command, keeper, tree, text.as_slice(), out)
}

/// Does one command line, but for the line of its fault.
fn obey<K: Keeper, T: Tree, I: Source, O: Sink>(
    alloc: Global,
    words: &[String],
    keeper: &mut K,
    tree: &mut T,
    input: &mut I,
    out: &mut O,
) -> Result<(), TopFault>
    ensures ends { K.tells → T.tells → (text : List ℕ) → TellsText (command_here (map string_bytes words.now)) (I.left input.old) text → TopEnds (answer_of (map string_bytes words.now) text (K.store keeper.old) (T.files tree.old))
        (around (kept K.store K.writes) (filed_in T.files T.changes) O.written keeper.old keeper.new tree.old tree.new out.old out.new) result }
    ensures failed { InputEnd (command_here (map string_bytes words.now)) (around (kept K.store K.writes) (filed_in T.files T.changes) O.written keeper.old keeper.new tree.old tree.new out.old out.new)
        (I.faults input.old) (I.faults input.new) result }
    ensures cause { TopEndCause (retries_in (command_here (map string_bytes words.now))) (around K.faults T.faults O.faults keeper.old keeper.new tree.old tree.new out.old out.new) result }
    ensures kept_tries { K.tells → TriesAtMost (retries_in (command_here (map string_bytes words.now))) K.calls K.faults keeper.old keeper.new (answered kept_faults_of result) }
    ensures file_tries { T.tells → TriesAtMost (retries_in (command_here (map string_bytes words.now))) T.calls T.faults tree.old tree.new (answered file_faults_of result) }
    ensures unread { read_by (command_here (map string_bytes words.now)) ≡ false → input_of I.left I.faults I.reads input.new ≡ input_of I.left I.faults I.reads input.old }
    ensures read { read_by (command_here (map string_bytes words.now)) ≡ true → Leaves (input_of I.left I.faults I.reads input.old) (input_of I.left I.faults I.reads input.new) result }
    ensures usage { result ≡ Err TopFault.Usage → command_here (map string_bytes words.now) ≡ None }
    ensures no_command { command_here (map string_bytes words.now) ≡ None → (result ≡ Err TopFault.Usage) ⊎ (result ≡ Err TopFault.Memory) }
{
    match read_here(alloc, words) {
        Ok(command) => read_and_do(alloc, &command, keeper, tree, input, out),
        Err(WordFault::Usage) => Err(TopFault::Usage),
        Err(WordFault::Memory) => Err(TopFault::Memory),
    }
}

/// Does one command line, without links, and waits for nobody: words of `worker` are none here. The text goes to `out`; a fault's
/// one line goes to `err`, after all else. The input is read by `infer` and `build` alone, before anything is done.
pub fn gg_top<K: Keeper, T: Tree, I: Source, O: Sink, E: Sink>(
    alloc: Global,
    words: &[String],
    keeper: &mut K,
    tree: &mut T,
    input: &mut I,
    out: &mut O,
    err: &mut E,
) -> Status
    // Where the keeper, the tree and the input that is read tell, all is as the answer by the definition has it, or a fault stopped it
    // after a prefix. Each write and each change is made once, in order: the lists of those that were answered Ok grow by the answer's.
    ensures exact { K.tells → T.tells → (text : List ℕ) → TellsText (command_here (map string_bytes words.now)) (I.left input.old) text →
        IsInputFault (command_here (map string_bytes words.now)) (around (kept K.store K.writes) (filed_in T.files T.changes) O.written keeper.old keeper.new tree.old tree.new out.old out.new) result
        (I.faults input.old) (I.faults input.new) (E.written err.old) (E.written err.new) (E.faults err.old) (E.faults err.new)
        ⊎ Comes (answer_of (map string_bytes words.now) text (K.store keeper.old) (T.files tree.old))
        (around (kept K.store K.writes) (filed_in T.files T.changes) O.written keeper.old keeper.new tree.old tree.new out.old out.new) result }
    ensures said { K.tells → T.tells → (text : List ℕ) → TellsText (command_here (map string_bytes words.now)) (I.left input.old) text →
        IsInputFault (command_here (map string_bytes words.now)) (around (kept K.store K.writes) (filed_in T.files T.changes) O.written keeper.old keeper.new tree.old tree.new out.old out.new) result
        (I.faults input.old) (I.faults input.new) (E.written err.old) (E.written err.new) (E.faults err.old) (E.faults err.new)
        ⊎ Says (answer_of (map string_bytes words.now) text (K.store keeper.old) (T.files tree.old)) result
        (E.written err.old) (E.written err.new) (E.faults err.old) (E.faults err.new) }
    // The line that a status alone decides is said whatever is told, unless the input failed.
    ensures line { IsInputFault (command_here (map string_bytes words.now)) (around (kept K.store K.writes) (filed_in T.files T.changes) O.written keeper.old keeper.new tree.old tree.new out.old out.new) result
        (I.faults input.old) (I.faults input.new) (E.written err.old) (E.written err.new) (E.faults err.old) (E.faults err.new)
        ⊎ SaysUntold result (E.written err.old) (E.written err.new) (E.faults err.old) (E.faults err.new) }
    // A fault comes only where a count rose, by more than the retries where calls are tried again, whatever is told: the input's, and
    // then nothing is done and that line is said, or that of which the status is.
    ensures cause { IsInputFault (command_here (map string_bytes words.now)) (around (kept K.store K.writes) (filed_in T.files T.changes) O.written keeper.old keeper.new tree.old tree.new out.old out.new) result
        (I.faults input.old) (I.faults input.new) (E.written err.old) (E.written err.new) (E.faults err.old) (E.faults err.new)
        ⊎ TopCause (retries_in (command_here (map string_bytes words.now))) (around K.faults T.faults O.faults keeper.old keeper.new tree.old tree.new out.old out.new) result }
    // Of the calls of the keeper and of the tree no more failed than the retries of the words allow.
    ensures kept_tries { K.tells → TriesAtMost (retries_in (command_here (map string_bytes words.now))) K.calls K.faults keeper.old keeper.new (kept_failures result) }
    ensures file_tries { T.tells → TriesAtMost (retries_in (command_here (map string_bytes words.now))) T.calls T.faults tree.old tree.new (file_failures result) }
    // Words that are neither `infer` nor `build` leave the input alone; these read it to its end, or to one byte past the limit.
    ensures unread { read_by (command_here (map string_bytes words.now)) ≡ false → input_of I.left I.faults I.reads input.new ≡ input_of I.left I.faults I.reads input.old }
    ensures read { read_by (command_here (map string_bytes words.now)) ≡ true → LeavesInput (input_of I.left I.faults I.reads input.old) (input_of I.left I.faults I.reads input.new) result }
    // Words that are no command line here, and no others, are a usage fault, unless memory runs out.
    ensures usage { result ≡ Status.Usage → command_here (map string_bytes words.now) ≡ None }
    ensures no_command { command_here (map string_bytes words.now) ≡ None → (result ≡ Status.Usage) ⊎ (result ≡ Status.Memory) }
{
    match obey(alloc, words, keeper, tree, input, out) {
        Ok(()) => Status::Done,
        Err(fault) => say(alloc, err, &fault),
    }
}
