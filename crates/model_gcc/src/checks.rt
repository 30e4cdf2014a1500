//! What is looked at once all words are read.

ghost use Rattle.std.specs.Prelude.{◌≡◌, ◌&&◌, not, nat_le};
ghost use Rattle.model_gcc.specs.Checks.{is_file, has_file, has_several_files, needs_output, shared_output, is_preprocessed, is_compiled, is_assembled, has_work, first_unfit, total_length, is_within};

use crate::gcc_plan::{Operand, Stop};
use crate::slots::{Slots, stages_to};
use object_name::Bytes;
use thunk_codec::Path;

/// The most operands.
const MAX_OPERANDS: usize = 4096;

/// The most bytes of all words together.
const MAX_BYTES: usize = 1_048_576;

/// Whether an operand is a file.
fn is_file(operand: &Operand) -> bool
    ensures { result ≡ is_file operand.now }
{
    match operand {
        Operand::Source(_) => true,
        Operand::Preprocessed(_) => true,
        Operand::Assembly(_) => true,
        Operand::AssemblySource(_) => true,
        Operand::Other(_) => true,
        Operand::Library(_) => false,
    }
}

/// Whether some operands have a file.
pub(crate) fn has_file(operands: &[Operand]) -> bool
    ensures { result ≡ has_file operands.now }
{
    operands.iter().any(|operand| is_file(operand))
}

/// Whether some operands have more than one file.
fn has_several_files(operands: &[Operand]) -> bool
    ensures { result ≡ has_several_files operands.now }
{
    let mut rest = operands;
    'operands: while let [operand, others @ ..] = rest {
        if is_file(operand) {
            return has_file(others);
        }
        rest = others;
    }
    false
}

/// Whether preprocessing alone is asked for, without a file for what is made.
#[tactic(auto, unfolding(crate::specs::Checks::needs_output))]
pub(crate) fn needs_output(stop: Stop, output: &Option<Path>) -> bool
    ensures { result ≡ needs_output stop output.now }
{
    if output.is_some() {
        return false;
    }
    stages_to(stop) == 1
}

/// The place of a `-o` that several files would share, where there is a stop.
#[tactic(auto, unfolding(crate::specs::Checks::shared_output))]
pub(crate) fn shared_output(given: &Slots) -> Option<u32>
    ensures { result ≡ shared_output given.now }
{
    if given.stop.is_none() {
        return None;
    }
    if !has_several_files(given.operands.as_slice()) {
        return None;
    }
    given.output_at
}

/// Whether preprocessing alone has work for a file.
fn is_preprocessed(operand: &Operand) -> bool
    ensures { result ≡ is_preprocessed operand.now }
{
    match operand {
        Operand::Source(_) => true,
        Operand::Preprocessed(_) => false,
        Operand::Assembly(_) => false,
        Operand::AssemblySource(_) => true,
        Operand::Other(_) => false,
        Operand::Library(_) => false,
    }
}

/// Whether a file is compiled.
fn is_compiled(operand: &Operand) -> bool
    ensures { result ≡ is_compiled operand.now }
{
    match operand {
        Operand::Source(_) => true,
        Operand::Preprocessed(_) => true,
        Operand::Assembly(_) => false,
        Operand::AssemblySource(_) => false,
        Operand::Other(_) => false,
        Operand::Library(_) => false,
    }
}

/// Whether a file is assembled.
fn is_assembled(operand: &Operand) -> bool
    ensures { result ≡ is_assembled operand.now }
{
    match operand {
        Operand::Source(_) => true,
        Operand::Preprocessed(_) => true,
        Operand::Assembly(_) => true,
        Operand::AssemblySource(_) => true,
        Operand::Other(_) => false,
        Operand::Library(_) => false,
    }
}

/// Whether the stages up to a stop have work for a file.
fn has_work(stop: Stop, operand: &Operand) -> bool
    ensures { result ≡ has_work stop operand.now }
{
    match stop {
        Stop::Preprocess => is_preprocessed(operand),
        Stop::Compile => is_compiled(operand),
        Stop::Assemble => is_assembled(operand),
        Stop::Link => true,
    }
}

/// Whether an operand is a file that they have no work for.
fn is_unfit(stop: Stop, operand: &Operand) -> bool
    ensures { result ≡ (is_file operand.now && not (has_work stop operand.now)) }
{
    is_file(operand) && !has_work(stop, operand)
}

/// The place of the first such file.
pub(crate) fn first_unfit(stop: Stop, operands: &[Operand], places: &[u32]) -> Option<u32>
    ensures { result ≡ first_unfit stop operands.now places.now }
{
    let mut rest = operands;
    let mut left = places;
    'operands: while let [operand, others @ ..] = rest {
        let Some((place, more)) = left.split_first() else {
            return None;
        };
        if is_unfit(stop, operand) {
            return Some(*place);
        }
        rest = others;
        left = more;
    }
    None
}

/// Whether some words together have at most so many bytes.
fn are_within(most: usize, words: &[Bytes]) -> bool
    ensures { result ≡ nat_le (total_length words.now) most }
{
    let mut left = most;
    let mut rest = words;
    'words: while let [word, others @ ..] = rest {
        let size = word.len();
        if size > left {
            return false;
        }
        left -= size;
        rest = others;
    }
    true
}

/// Whether there aren't too many operands, nor too many bytes of words.
#[tactic(auto, unfolding(crate::specs::Checks::is_within))]
pub(crate) fn is_within(words: &[Bytes], operands: &[Operand]) -> bool
    ensures { result ≡ is_within words.now operands.now }
{
    operands.len() <= MAX_OPERANDS && are_within(MAX_BYTES, words)
}
