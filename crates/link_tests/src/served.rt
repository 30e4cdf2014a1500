//! What a worker answers to a session, whole and byte by byte.

use crate::frames::{BYE, REPLY, START, joined, sink, source};
use crate::trickle::Trickle;
use object_name::{Bytes, ReadSource, Source};
use sandbox_run::Cards;
use std::alloc::{AllocError, Global};
use std::test::Fail;
use worker_link::{WorkerEnd, serve};

/// Whether the session of a source ends so, with these answers.
fn ends_so<S: Source + Drop>(
    alloc: Global,
    mut session: S,
    end: WorkerEnd,
    answers: &[u8],
) -> Result<bool, AllocError> {
    let mut sink = sink(alloc)?;
    let ended = serve(alloc, &mut Cards, &mut session, &mut sink);
    Ok(ended == end && sink.into_content().as_slice() == answers)
}

/// The same of a session of some pieces, both whole and byte by byte.
fn is_served(
    alloc: Global,
    pieces: &[&[u8]],
    end: WorkerEnd,
    answers: &[u8],
) -> Result<bool, AllocError> {
    let session = joined(alloc, pieces)?;
    if !ends_so(alloc, source(alloc, session.as_slice())?, end, answers)? {
        return Ok(false);
    }
    ends_so(alloc, ReadSource::new(Trickle::new(session)), end, answers)
}

#[test]
fn each_job_is_answered(rt: HostRuntime) -> Result<(), Fail> {
    let alloc = rt.alloc();
    let answers = joined(alloc, &[REPLY, REPLY])?;
    let session = [START, START, BYE];
    assert!(rt; is_served(alloc, &session, WorkerEnd::Ended, answers.as_slice())?);
    Ok(())
}

#[test]
fn what_stands_behind_the_last_frame_is_not_looked_at(rt: HostRuntime) -> Result<(), Fail> {
    let session = [START, BYE, b"\xff\xff\xff\xff"];
    assert!(rt; is_served(rt.alloc(), &session, WorkerEnd::Ended, REPLY)?);
    Ok(())
}

#[test]
fn a_session_may_end_between_frames(rt: HostRuntime) -> Result<(), Fail> {
    assert!(rt; is_served(rt.alloc(), &[], WorkerEnd::Ended, b"")?);
    assert!(rt; is_served(rt.alloc(), &[START], WorkerEnd::Ended, REPLY)?);
    Ok(())
}

#[test]
fn a_session_may_be_cut(rt: HostRuntime) -> Result<(), Fail> {
    assert!(rt; is_served(rt.alloc(), &[b"\0\0\0"], WorkerEnd::Cut, b"")?);
    let half = &START[..31];
    assert!(rt; is_served(rt.alloc(), &[START, half], WorkerEnd::Cut, REPLY)?);
    Ok(())
}

#[test]
fn a_bad_frame_ends_a_session(rt: HostRuntime) -> Result<(), Fail> {
    let bad = WorkerEnd::BadFrame { at: 62 };
    assert!(rt; is_served(rt.alloc(), &[START, REPLY, START], bad, REPLY)?);
    assert!(rt; is_served(rt.alloc(), &[START, b"\0\0\0\x01X", START], bad, REPLY)?);
    Ok(())
}

#[test]
fn a_length_over_the_limit_ends_a_session(rt: HostRuntime) -> Result<(), Fail> {
    let too_long = WorkerEnd::FrameTooLong {
        at: 62,
        len: 67_108_874,
    };
    assert!(rt;
        is_served(
            rt.alloc(),
            &[START, b"\x04\0\0\x0a", START],
            too_long,
            REPLY
        )?
    );
    Ok(())
}
