//! Frames against the bytes of one session, and answers.

use job_wire::{Answer, CutFault, Cutter, Message, encode_frame, encode_start, seal};
use object_name::{Bytes, Many, TryCopy, name_of};
use std::alloc::Global;
use std::test::Fail;
use thunk_codec::Outcome;

/// The frame of the job of `cat` over the input `a`, which is `x`, with the output `out`, under the lease 0.
const START: &[u8] =
    b"\0\0\0\x3aJ\0\0\0\0\0\0\0\0\0\0\0\x0cgg-tool cat\n\0\0\0\0\0\0\0\0\0\0\0\x01\0\0\0\x01a\0\0\0\x01x\0\0\0\x01\0\0\0\x03out";

/// The frame of its outcome.
const REPLY: &[u8] = b"\0\0\0\x13R\0\0\0\0\0\0\0\0\0\0\0\0\x01\0\0\0\x01x";

/// The frame at the end of a session.
const BYE: &[u8] = b"\0\0\0\x01B";

/// A cutter that got some bytes.
fn cutter_of(alloc: Global, bytes: &[u8]) -> Result<Cutter, Fail> {
    let mut cutter = Cutter::new(alloc);
    feed(&mut cutter, bytes)?;
    Ok(cutter)
}

/// Feeds some bytes to a cutter of a short session.
fn feed(cutter: &mut Cutter, piece: &[u8]) -> Result<(), Fail> {
    if cutter.fed() > 1_000_000 || piece.len() > 1_000_000 {
        return Err(Fail::from("the session is long"));
    }
    cutter.feed(piece)?;
    Ok(())
}

/// The message of the next frame, written again.
fn written_again(alloc: Global, cutter: &mut Cutter) -> Result<Bytes, Fail> {
    let Ok(Some(message)) = cutter.next(alloc) else {
        return Err(Fail::from("there is no frame"));
    };
    Ok(encode_frame(alloc, &message)?)
}

#[test]
fn frames_have_their_bytes(rt: HostRuntime) -> Result<(), Fail> {
    for frame in [START, REPLY, BYE] {
        let mut cutter = cutter_of(rt.alloc(), frame)?;
        assert_eq!(rt; written_again(rt.alloc(), &mut cutter)?.as_slice(), frame);
        assert!(rt; cutter.at_rest());
    }
    Ok(())
}

#[test]
fn a_job_is_framed_by_reference(rt: HostRuntime) -> Result<(), Fail> {
    let mut cutter = cutter_of(rt.alloc(), START)?;
    let Ok(Some(Message::Start(lease, job))) = cutter.next(rt.alloc()) else {
        return Err(Fail::from("there is no job"));
    };
    assert_eq!(rt; job.size(), 49);
    assert_eq!(rt; encode_start(rt.alloc(), lease, &job)?.as_slice(), START);
    Ok(())
}

#[test]
fn a_session_is_cut_byte_by_byte(rt: HostRuntime) -> Result<(), Fail> {
    let mut cutter = Cutter::new(rt.alloc());
    for frame in [START, START, BYE] {
        for byte in frame {
            assert!(rt; matches!(cutter.next(rt.alloc()), Ok(None)));
            feed(&mut cutter, &[*byte])?;
        }
        assert!(rt; matches!(cutter.next(rt.alloc()), Ok(Some(_))));
    }
    assert_eq!(rt; cutter.at(), 129);
    assert!(rt; cutter.at_rest());
    Ok(())
}

#[test]
fn a_length_over_the_limit_is_seen(rt: HostRuntime) -> Result<(), Fail> {
    let over = CutFault::FrameTooLong {
        at: 0,
        len: 67_108_874,
    };
    let mut cutter = cutter_of(rt.alloc(), &[4, 0, 0, 10])?;
    assert!(rt; matches!(cutter.next(rt.alloc()), Err(fault) if fault == over));
    let mut longest = cutter_of(rt.alloc(), &[4, 0, 0, 9, 1])?;
    assert!(rt; matches!(longest.next(rt.alloc()), Ok(None)));
    Ok(())
}

// A letter that no frame has; a list of more arguments than bytes; a status over 204.
const BAD: [&[u8]; 3] = [
    b"\0\0\0\x01X",
    b"\0\0\0\x11J\0\0\0\0\0\0\0\0\0\0\0\0\xff\xff\xff\xff",
    b"\0\0\0\x0bR\0\0\0\0\0\0\0\0\x01\xcd",
];

#[test]
fn bad_frames_are_seen(rt: HostRuntime) -> Result<(), Fail> {
    for frame in BAD {
        let mut cutter = cutter_of(rt.alloc(), BYE)?;
        feed(&mut cutter, frame)?;
        assert!(rt; matches!(cutter.next(rt.alloc()), Ok(Some(Message::Bye))));
        assert!(rt; matches!(cutter.next(rt.alloc()), Err(CutFault::BadFrame { at: 5 })));
    }
    Ok(())
}

#[test]
fn outcomes_are_sealed_with_their_answers(rt: HostRuntime) -> Result<(), Fail> {
    let mut outputs = Many::new(rt.alloc());
    outputs.push(Bytes::new(rt.alloc()))?;
    let sealed = seal(rt.alloc(), Outcome::Done(outputs))?;
    let copy = sealed.answer().copy(rt.alloc())?;
    assert!(rt; copy.is_same(sealed.answer()));
    let mut names = Many::new(rt.alloc());
    names.push(name_of(b"")?)?;
    assert!(rt; Answer::Done(names).is_same(&copy));
    assert!(rt; !copy.is_same(&Answer::Failed(1)));
    Ok(())
}
