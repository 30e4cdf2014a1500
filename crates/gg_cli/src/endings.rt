//! The status and the line of each fault, together.

ghost use Rattle.std.specs.Prelude.{◌≡◌, ◌++◌, codes, decimal};
ghost use Rattle.gg_cli.specs.Endings.{fault_line, file_text, line_word_text, reason_text, refusal_ending, tool_text, ending_of};
ghost use Rattle.gg_cli.specs.Writing.{Writes};
ghost use Rattle.gg_cli.specs.StepContracts.{Speaks};

use crate::fault::TopFault;
use crate::pieces::Piece::{Number, Spelled, Text};
use crate::pieces::write_line;
use crate::status::Status;
use file_tree::{FileRefusal, Reason};
use need_eval::Refusal;
use object_name::{Sink, Trouble};
use std::alloc::Global;

/// Writes the line of a refused item.
fn write_file_line<S: Sink>(
    alloc: Global,
    sink: &mut S,
    refusal: &FileRefusal,
) -> Result<(), Trouble>
    ensures { Writes (fault_line (file_text refusal.now)) (S.written sink.old) (S.written sink.new) (S.faults sink.old) (S.faults sink.new) result }
{
    match refusal {
        FileRefusal::Twice(item) => {
            write_line(alloc, sink, &[Text(b"twice: "), Text(item.as_slice())])
        }
        FileRefusal::NoFile(path) => {
            write_line(alloc, sink, &[Text(b"no file "), Text(path.text())])
        }
        FileRefusal::TooLong(path) => {
            write_line(alloc, sink, &[Text(b"too long: "), Text(path.text())])
        }
        FileRefusal::NotPlaceholder(path) => {
            write_line(
                alloc,
                sink,
                &[Text(b"not a placeholder: "), Text(path.text())],
            )
        }
        FileRefusal::Generated(path) => {
            write_line(alloc, sink, &[Text(b"generated: "), Text(path.text())])
        }
        FileRefusal::ThunkText(path) => {
            write_line(alloc, sink, &[Text(b"thunk text: "), Text(path.text())])
        }
        FileRefusal::Computed { path, line } => write_line(
            alloc,
            sink,
            &[
                Text(b"computed include: "),
                Text(path.text()),
                Text(b" line "),
                Number(u64::from(*line)),
            ],
        ),
    }
}

/// Writes the line of a refusal; answers its status, and whether all was written.
fn end_refused<S: Sink>(
    alloc: Global,
    sink: &mut S,
    refusal: &Refusal,
) -> (Status, Result<(), Trouble>)
    ensures status { result.0 ≡ (refusal_ending refusal.now).status }
    ensures line { Writes (fault_line (refusal_ending refusal.now).text) (S.written sink.old) (S.written sink.new) (S.faults sink.old) (S.faults sink.new) result.1 }
{
    match refusal {
        Refusal::Missing(name) => (
            Status::Missing,
            write_line(alloc, sink, &[Text(b"missing object "), Spelled(*name)]),
        ),
        Refusal::BadThunk(name) => (
            Status::BadThunk,
            write_line(alloc, sink, &[Text(b"bad thunk "), Spelled(*name)]),
        ),
        Refusal::NoOutput { name, index } => (
            Status::NoOutput,
            write_line(
                alloc,
                sink,
                &[
                    Text(b"no output "),
                    Number(u64::from(*index)),
                    Text(b" of "),
                    Spelled(*name),
                ],
            ),
        ),
        Refusal::Spent { name, budget } => (
            Status::Spent,
            write_line(
                alloc,
                sink,
                &[
                    Text(b"budget of "),
                    Number(u64::from(*budget)),
                    Text(b" steps spent at "),
                    Spelled(*name),
                ],
            ),
        ),
        Refusal::TooBig { name, bytes } => (
            Status::TooBig,
            write_line(
                alloc,
                sink,
                &[
                    Text(b"job too big: "),
                    Spelled(*name),
                    Text(b" "),
                    Number(*bytes),
                ],
            ),
        ),
        Refusal::FunctionFailed { name, status } => (
            Status::FunctionFailed,
            write_line(
                alloc,
                sink,
                &[
                    Text(b"function failed: "),
                    Spelled(*name),
                    Text(b" status "),
                    Number(u64::from(*status)),
                ],
            ),
        ),
    }
}

/// Why a word is refused, in words.
fn reason_text(reason: Reason) -> &'static [u8]
    ensures { result.now ≡ reason_text reason }
{
    match reason {
        Reason::Unknown => b"not modelled",
        Reason::NoValue => b"no value",
        Reason::BadValue => b"bad value",
        Reason::TwoStages => b"two stages",
        Reason::OneFile => b"one file only",
        Reason::NoInput => b"no input",
        Reason::NeedsOutput => b"needs -o",
        Reason::WrongKind => b"wrong kind of file",
        Reason::TooMany => b"too many files",
        Reason::Shell => b"shell syntax",
        Reason::Same => b"same file",
    }
}

/// Writes the line of a refused word.
fn write_word_line<S: Sink>(
    alloc: Global,
    sink: &mut S,
    word: &[u8],
    reason: Reason,
) -> Result<(), Trouble>
    ensures { Writes (fault_line (word.now ++ (codes ": " ++ reason_text reason))) (S.written sink.old) (S.written sink.new) (S.faults sink.old) (S.faults sink.new) result }
{
    write_line(
        alloc,
        sink,
        &[Text(word), Text(b": "), Text(reason_text(reason))],
    )
}

/// Writes the line of a refused word in a line of a script.
fn write_script_line<S: Sink>(
    alloc: Global,
    sink: &mut S,
    line: u32,
    word: &[u8],
    reason: Reason,
) -> Result<(), Trouble>
    ensures { Writes (fault_line (line_word_text line word.now reason)) (S.written sink.old) (S.written sink.new) (S.faults sink.old) (S.faults sink.new) result }
{
    write_line(
        alloc,
        sink,
        &[
            Text(b"line "),
            Number(u64::from(line)),
            Text(b": "),
            Text(word),
            Text(b": "),
            Text(reason_text(reason)),
        ],
    )
}

/// Writes the line of a tool that failed.
fn write_tool_line<S: Sink>(
    alloc: Global,
    sink: &mut S,
    line: u32,
    status: u8,
) -> Result<(), Trouble>
    ensures { Writes (fault_line (tool_text line status)) (S.written sink.old) (S.written sink.new) (S.faults sink.old) (S.faults sink.new) result }
{
    write_line(
        alloc,
        sink,
        &[
            Text(b"function failed: line "),
            Number(u64::from(line)),
            Text(b" status "),
            Number(u64::from(status)),
        ],
    )
}

/// Writes the line of a fault; answers its status, and whether all was written.
fn end<S: Sink>(alloc: Global, sink: &mut S, fault: &TopFault) -> (Status, Result<(), Trouble>)
    ensures status { result.0 ≡ (ending_of fault.now).status }
    ensures line { Writes (fault_line (ending_of fault.now).text) (S.written sink.old) (S.written sink.new) (S.faults sink.old) (S.faults sink.new) result.1 }
{
    match fault {
        TopFault::Usage => (Status::Usage, write_line(alloc, sink, &[Text(b"usage")])),
        TopFault::FileRefused(refusal) => (
            Status::FileRefused,
            write_file_line(alloc, sink, refusal),
        ),
        TopFault::Refused(refusal) => end_refused(alloc, sink, refusal),
        TopFault::NotModelled { word, reason } => (
            Status::NotModelled,
            write_word_line(alloc, sink, word.as_slice(), *reason),
        ),
        TopFault::LineNotModelled { line, word, reason } => (
            Status::NotModelled,
            write_script_line(alloc, sink, *line, word.as_slice(), *reason),
        ),
        TopFault::ToolFailed { line, status } => (
            Status::FunctionFailed,
            write_tool_line(alloc, sink, *line, *status),
        ),
        TopFault::Clash(name) => (
            Status::Clash,
            write_line(alloc, sink, &[Text(b"two objects named "), Spelled(*name)]),
        ),
        TopFault::InputTooLong => (
            Status::FileRefused,
            write_line(alloc, sink, &[Text(b"input too long")]),
        ),
        TopFault::StoreFailed => (
            Status::StoreFault,
            write_line(alloc, sink, &[Text(b"store fault")]),
        ),
        TopFault::FileFailed => (
            Status::FileFault,
            write_line(alloc, sink, &[Text(b"file fault")]),
        ),
        TopFault::InputFailed => (
            Status::ByteFault,
            write_line(alloc, sink, &[Text(b"input fault")]),
        ),
        TopFault::OutputFailed => (
            Status::ByteFault,
            write_line(alloc, sink, &[Text(b"output fault")]),
        ),
        TopFault::Memory => (
            Status::Memory,
            write_line(alloc, sink, &[Text(b"want of memory")]),
        ),
    }
}

/// Says the line of a fault, and answers the status that stands then: that of the fault, or out of memory.
pub(crate) fn say<S: Sink>(alloc: Global, sink: &mut S, fault: &TopFault) -> Status
    ensures { Speaks fault.now result (S.written sink.old) (S.written sink.new) (S.faults sink.old) (S.faults sink.new) }
{
    let (status, written) = end(alloc, sink, fault);
    match written {
        Ok(()) => status,
        Err(Trouble::Failed) => status,
        Err(Trouble::Memory) => Status::Memory,
    }
}
