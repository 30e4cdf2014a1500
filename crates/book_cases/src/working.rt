//! Many jobs, one after another.

use crate::answered::Answered;
use crate::call::Call;
use crate::playing::Played;
use crate::sizes::Sizes;
use anyhow::{Result, bail};
use force_core::Need;
use std::alloc::Global;
use std::collections::VecDeque;

/// How many jobs are out at a time.
const WINDOW: usize = 64;

/// The sizes of the book.
const SIZES: Sizes = Sizes {
    workers: 1,
    retries: 2,
    copies: 1,
};

/// A lease that is out.
#[derive(Clone, Copy)]
struct Out {
    lease: u64,
    id: u64,
}

/// Offers a job and starts it.
fn begin(alloc: Global, played: &mut Played, number: u32) -> Result<Out> {
    let word = format!(in alloc; "{number}")?;
    let call = Call::Offer {
        word: word.as_str(),
        need: Need::Now,
    };
    let Answered::Offered(_) = played.answer(&call)? else {
        bail!("job {number} was not offered");
    };
    let Answered::Lease { lease, id } = played.answer(&Call::Start { worker: 0 })? else {
        bail!("job {number} was not started");
    };
    Ok(Out { lease, id })
}

/// Enters the outcome of a job and takes it.
fn end(played: &mut Played, out: Out) -> Result<()> {
    let reply = Call::Reply {
        lease: out.lease,
        status: 1,
    };
    let Answered::First = played.answer(&reply)? else {
        bail!("lease {} was answered before", out.lease);
    };
    let Answered::Failed(_) = played.answer(&Call::Take { id: out.id })? else {
        bail!("job {} has no outcome", out.id);
    };
    Ok(())
}

/// Ends all jobs that are out.
fn end_all(played: &mut Played, outs: VecDeque<Out>) -> Result<()> {
    'outs: for out in outs {
        end(played, out)?;
    }
    Ok(())
}

/// Offers, starts, answers and takes so many jobs one after another, with at most 64 out at a time.
pub fn work(alloc: Global, jobs: u32) -> Result<()> {
    let mut played = Played::new(alloc, SIZES)?;
    let mut outs = VecDeque::new(alloc);
    'jobs: for number in 0..jobs {
        if outs.len() >= WINDOW {
            if let Some(out) = outs.pop_front() {
                end(&mut played, out)?;
            }
        }
        outs.push_back(begin(alloc, &mut played, number)?)?;
    }
    end_all(&mut played, outs)
}
