//! Links over TCP, to a worker on a thread.

ghost use Rattle.std.specs.Arc.{arc_value};
ghost use Rattle.job_wire.specs.Frame.{IsJob};

use crate::frames::{is_x, job};
use object_name::{Bytes, ReadSource, Trouble, WriteSink};
use sandbox_run::Cards;
use std::alloc::Global;
use std::net::{Ipv4Addr, SocketAddr, TcpListener};
use std::sync::Arc;
use std::test::Fail;
use std::{io, thread};
use thunk_codec::{Job, Outcome};
use worker_link::{Link, TcpLink, WorkerEnd, serve};

/// A listener on a free port of this machine, and its address.
fn listen(rt: &HostRuntime) -> Result<(TcpListener, Bytes), Fail> {
    let listener = TcpListener::bind(rt, SocketAddr::from((Ipv4Addr::LOCALHOST, 0)))?;
    let address = listener.local_addr()?.to_string(rt.alloc())?;
    Ok((listener, Bytes::from_slice(rt.alloc(), address.as_bytes())?))
}

/// Answers the next connection.
fn answer_one(alloc: Global, listener: &TcpListener) -> io::Result<WorkerEnd> {
    let (stream, _) = listener.accept()?;
    Ok(serve(
        alloc,
        &mut Cards,
        &mut ReadSource::new(&stream),
        &mut WriteSink::new(&stream),
    ))
}

/// Sends a job over a connection of its own, and gives the reply.
fn ask(rt: &HostRuntime, address: Bytes, job: &Arc<Job>) -> Result<(u64, Outcome), Trouble>
    requires { IsJob (arc_value job.now) }
{
    let alloc = rt.alloc();
    let mut link = TcpLink::new(alloc, *rt, address);
    link.reopen(alloc)?;
    link.send(alloc, 0, job)?;
    let reply = link.receive(alloc)?;
    link.finish(alloc)?;
    Ok(reply)
}

#[test]
fn a_job_is_run_over_a_connection(rt: HostRuntime) -> Result<(), Fail> {
    let job = job(rt.alloc())?;
    let (listener, address) = listen(&rt)?;
    let (end, reply) = thread::join(
        &rt,
        || answer_one(rt.alloc(), &listener),
        || ask(&rt, address, &job),
    );
    assert!(rt; end? == WorkerEnd::Ended);
    let (lease, outcome) = reply?;
    assert_eq!(rt; lease, 0);
    assert!(rt; is_x(&outcome));
    Ok(())
}

#[test]
fn a_worker_that_does_not_listen_is_a_fault(rt: HostRuntime) -> Result<(), Fail> {
    let (listener, address) = listen(&rt)?;
    drop(listener);
    let mut link = TcpLink::new(rt.alloc(), rt, address);
    assert_eq!(rt; link.reopen(rt.alloc()), Err(Trouble::Failed));
    assert_eq!(rt; link.failures(), 1);
    Ok(())
}
