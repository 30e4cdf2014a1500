//! How a forcing ends, as it is printed.

use crate::glossary::Glossary;
use force_pool::ForceFault;
use job_wire::Answer;
use need_eval::{EvalFault, Refusal, Values};
use std::alloc::{AllocError, Global};

/// The values and the steps, or why there are none.
pub fn spelled(
    alloc: Global,
    glossary: &Glossary,
    end: &Result<Values, ForceFault>,
) -> Result<String, AllocError> {
    match end {
        Ok(values) => {
            let names = glossary.all_spelled(values.names.as_slice())?;
            let steps = values.steps;
            format!(in alloc; "{names} in {steps} steps")
        }
        Err(ForceFault::Eval(fault)) => spelled_fault(alloc, glossary, fault),
        Err(
            ForceFault::Differs {
                resolved,
                first,
                second,
            },
        ) => {
            let job = glossary.spelled(resolved)?;
            let first = spelled_answer(alloc, glossary, first)?;
            let second = spelled_answer(alloc, glossary, second)?;
            format!(in alloc; "the answers on {job} differ: {first}, {second}")
        }
        Err(ForceFault::LinksLost) => String::from_str(alloc, "links lost"),
        Err(ForceFault::Memory) => String::from_str(alloc, "out of memory"),
    }
}

fn spelled_answer(
    alloc: Global,
    glossary: &Glossary,
    answer: &Answer,
) -> Result<String, AllocError> {
    match answer {
        Answer::Done(names) => {
            let names = glossary.all_spelled(names.as_slice())?;
            format!(in alloc; "done {names}")
        }
        Answer::Failed(status) => format!(in alloc; "failed {status}"),
    }
}

fn spelled_fault(
    alloc: Global,
    glossary: &Glossary,
    fault: &EvalFault,
) -> Result<String, AllocError> {
    match fault {
        EvalFault::Refused(refusal) => spelled_refusal(alloc, glossary, refusal),
        EvalFault::Clash { name, .. } => {
            let name = glossary.spelled(name)?;
            format!(in alloc; "two objects of the name {name}")
        }
        EvalFault::StoreFailed => String::from_str(alloc, "store failed"),
        EvalFault::RunFailed => String::from_str(alloc, "run failed"),
        EvalFault::Memory => String::from_str(alloc, "out of memory"),
    }
}

fn spelled_refusal(
    alloc: Global,
    glossary: &Glossary,
    refusal: &Refusal,
) -> Result<String, AllocError> {
    match refusal {
        Refusal::Missing(name) => {
            let name = glossary.spelled(name)?;
            format!(in alloc; "missing {name}")
        }
        Refusal::BadThunk(name) => {
            let name = glossary.spelled(name)?;
            format!(in alloc; "bad thunk {name}")
        }
        Refusal::NoOutput { name, index } => {
            let name = glossary.spelled(name)?;
            format!(in alloc; "no output {index} of {name}")
        }
        Refusal::Spent { name, budget } => {
            let name = glossary.spelled(name)?;
            format!(in alloc; "budget of {budget} spent at {name}")
        }
        Refusal::TooBig { name, bytes } => {
            let name = glossary.spelled(name)?;
            format!(in alloc; "job too big: {name} with {bytes} bytes")
        }
        Refusal::FunctionFailed { name, status } => {
            let name = glossary.spelled(name)?;
            format!(in alloc; "function failed: {name} with status {status}")
        }
    }
}
