//! The tools of the cards.

ghost use Rattle.std.specs.Prelude.{◌≡◌, IfOk};
ghost use Rattle.sandbox_run.specs.Cards.{tool_outcome};

use std::alloc::{AllocError, Global};
use thunk_codec::{Job, Outcome};
use tool_bin::{ar, as_, cc1, ld, ranlib, strip};
use tool_text::{add, cat, cpp, fail, fib};

/// The status of a function that is no card.
const UNKNOWN_CARD: u8 = 203;

/// Returns what the tool of the first card gives that the function is, if it is one of these.
macro_rules! return_if_card {
    ($function:ident, $alloc:ident, $job:ident; $($card:literal => $tool:ident,)*) => {
        $(if $function == $card.as_slice() {
            return $tool($alloc, $job);
        })*
    };
}

/// What the tool of the card gives that a job's function is, however long its outputs are.
#[tactic(auto, unfolding(crate::specs::Cards::tool_outcome))]
pub(crate) fn run_tool(alloc: Global, job: &Job) -> Result<Outcome, AllocError>
    ensures { IfOk result (λ outcome. outcome ≡ tool_outcome job.now.function job.now) }
{
    let function = job.function.as_slice();
    return_if_card!(function, alloc, job;
        b"gg-tool add\n" => add,
        b"gg-tool ar\n" => ar,
        b"gg-tool as\n" => as_,
        b"gg-tool cat\n" => cat,
        b"gg-tool cc1\n" => cc1,
        b"gg-tool cpp\n" => cpp,
        b"gg-tool fail\n" => fail,
        b"gg-tool fib\n" => fib,
        b"gg-tool ld\n" => ld,
        b"gg-tool ranlib\n" => ranlib,
        b"gg-tool strip\n" => strip,
    );
    Ok(Outcome::Failed(UNKNOWN_CARD))
}
