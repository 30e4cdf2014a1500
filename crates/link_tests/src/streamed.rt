//! Links over frames in memory.

use crate::frames::{BYE, REPLY, START, is_x, job, joined, sink, source};
use object_name::Trouble;
use std::test::Fail;
use worker_link::{Link, StreamLink};

/// The frame of an outcome under the lease 5.
const UNSENT: &[u8] = b"\0\0\0\x13R\0\0\0\0\0\0\0\x05\0\0\0\0\x01\0\0\0\x01x";

#[test]
fn a_job_goes_out_and_its_reply_comes_in(rt: HostRuntime) -> Result<(), Fail> {
    let alloc = rt.alloc();
    let mut link = StreamLink::new(alloc, source(alloc, REPLY)?, sink(alloc)?);
    link.reopen(alloc)?;
    link.send(alloc, 0, &job(alloc)?)?;
    let (lease, outcome) = link.receive(alloc)?;
    assert_eq!(rt; lease, 0);
    assert!(rt; is_x(&outcome));
    link.finish(alloc)?;
    assert_eq!(rt; link.failures(), 0);
    let (_, sink) = link.into_ends();
    assert_eq!(rt; sink.into_content(), joined(alloc, &[START, BYE])?);
    Ok(())
}

#[test]
fn a_reply_on_a_job_that_was_not_sent_is_a_fault(rt: HostRuntime) -> Result<(), Fail> {
    let alloc = rt.alloc();
    let mut link = StreamLink::new(alloc, source(alloc, UNSENT)?, sink(alloc)?);
    link.reopen(alloc)?;
    link.send(alloc, 0, &job(alloc)?)?;
    assert!(rt; matches!(link.receive(alloc), Err(Trouble::Failed)));
    assert_eq!(rt; link.failures(), 1);
    Ok(())
}
