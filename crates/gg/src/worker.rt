//! `gg worker`: the jobs of one connection after the other.

use gg_cli::{Status, say_end, worker_top};
use object_name::{ReadSource, Sink, Trouble, WriteSink, write_all};
use sandbox_run::Cards;
use std::alloc::{AllocError, Global};
use std::io;
use std::io::ErrorKind;
use std::net::{TcpListener, TcpStream};

/// The trouble of a listener.
fn trouble(error: &io::Error) -> Trouble {
    if error.kind() == ErrorKind::OutOfMemory {
        return Trouble::Memory;
    }
    Trouble::Failed
}

/// A listener at an address, a host and a port as `HOST:PORT`.
fn listen(rt: &HostRuntime, address: &[u8]) -> Result<TcpListener, Trouble> {
    let Ok(address) = str::from_utf8(address) else {
        return Err(Trouble::Failed);
    };
    match TcpListener::bind(rt, address) {
        Ok(listener) => Ok(listener),
        Err(error) => Err(trouble(&error)),
    }
}

/// Answers the jobs of a connection, and says how it ended.
fn serve_one<E: Sink>(alloc: Global, stream: &TcpStream, err: &mut E) -> Result<(), Trouble> {
    let mut source = ReadSource::new(stream);
    let mut sink = WriteSink::new(stream);
    let end = worker_top(alloc, &mut Cards, &mut source, &mut sink);
    match say_end(alloc, err, &end) {
        Err(Trouble::Memory) => Err(Trouble::Memory),
        // The next connection is served even where standard error can't be written.
        _ => Ok(()),
    }
}

/// Serves the connections of a listener, one after the other: so many, or without end.
fn serve_each<E: Sink>(
    alloc: Global,
    listener: &TcpListener,
    times: Option<u32>,
    err: &mut E,
) -> Result<(), Trouble> {
    let mut left = times;
    'connections: for stream in listener.incoming() {
        match stream {
            Ok(stream) => serve_one(alloc, &stream, err)?,
            Err(error) => return Err(trouble(&error)),
        }
        if let Some(count) = left {
            if count <= 1 {
                return Ok(());
            }
            left = Some(count - 1);
        }
    }
    Ok(())
}

/// Serves the connections at an address, one after the other: so many, or without end. A listener that can't be made or fails is an
/// input fault.
pub fn serve<E: Sink>(
    rt: &HostRuntime,
    address: &[u8],
    times: Option<u32>,
    err: &mut E,
) -> Result<Status, AllocError> {
    let served = match listen(rt, address) {
        Ok(listener) => serve_each(rt.alloc(), &listener, times, err),
        Err(trouble) => Err(trouble),
    };
    match served {
        Ok(()) => Ok(Status::Done),
        Err(Trouble::Memory) => Err(AllocError),
        Err(Trouble::Failed) => {
            // The status says so even where standard error can't be written.
            let _ = write_all(err, b"gg: input fault\n");
            Ok(Status::ByteFault)
        }
    }
}
