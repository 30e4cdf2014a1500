//! A link over a TCP connection.

ghost use Rattle.std.specs.Prelude.{◌≡◌, []};
ghost use Rattle.worker_link.specs.declared.phase.Phase.TheVariants.{Shut};
ghost use Rattle.worker_link.specs.Stream.{none_told, some_outcome, some_fits};

use crate::exchange::Exchange;
use crate::link::Link;
use crate::phase::Phase;
use crate::sent::Sent;
use object_name::{Bytes, ReadSource, Trouble, WriteSink};
use std::alloc::Global;
use std::io::ErrorKind;
use std::net::{Net, TcpStream};
use std::sync::Arc;
use thunk_codec::{Function, Job, Outcome};

/// A link over a TCP connection, which `reopen` makes anew. It tells nothing: neither of outcomes nor of bytes.
#[derive(Drop)]
pub struct TcpLink<N: Net> {
    net: N,
    address: Bytes,
    stream: Option<N::Stream>,
    exchange: Exchange,
}

impl<N: Net> TcpLink<N> {
    /// A link to a worker at this address, a host and a port as `HOST:PORT`. It is shut, and nothing was sent over it.
    pub fn new(alloc: Global, net: N, address: Bytes) -> Self
        ensures jobs { ⟦<TcpLink<N> as Link>⟧.jobs result ≡ [] }
        ensures phase { ⟦<TcpLink<N> as Link>⟧.phase result ≡ Shut }
        ensures faults { ⟦<TcpLink<N> as Link>⟧.faults result ≡ 0 }
    {
        TcpLink {
            net,
            address,
            stream: None,
            exchange: Exchange::new(alloc),
        }
    }

    /// How often a call has failed. The count stands still at its last value.
    pub fn failures(&self) -> u64
        ensures { result ≡ ⟦<TcpLink<N> as Link>⟧.faults self.now }
    {
        self.exchange.failures
    }
}

/// A connection to an address.
fn connect<N: Net>(net: &N, address: &[u8]) -> Result<N::Stream, Trouble> {
    let Ok(address) = str::from_utf8(address) else {
        return Err(Trouble::Failed);
    };
    match TcpStream::connect(net, address) {
        Ok(stream) => Ok(stream),
        Err(error) if error.kind() == ErrorKind::OutOfMemory => Err(Trouble::Memory),
        Err(_) => Err(Trouble::Failed),
    }
}

impl<N: Net> Function for TcpLink<N> {
    ghost outcome = { some_outcome };

    ghost tells = { none_told };

    ghost fits = { some_fits };
}

impl<N: Net> Link for TcpLink<N> {
    ghost jobs = { λ l. l.exchange.sent };

    ghost phase = { λ l. l.exchange.phase };

    ghost faults = { λ l. l.exchange.failures };

    fn reopen(&mut self, alloc: Global) -> Result<(), Trouble> {
        self.stream = None;
        match connect(&self.net, self.address.as_slice()) {
            Ok(stream) => {
                self.stream = Some(stream);
                self.exchange.begin(alloc);
                Ok(())
            }
            Err(trouble) => Err(self.exchange.fail(trouble)),
        }
    }

    fn send(&mut self, alloc: Global, lease: u64, job: &Arc<Job>) -> Result<(), Trouble> {
        let Some(stream) = self.stream.take() else {
            return Err(self.exchange.fail(Trouble::Failed));
        };
        let mut sink = WriteSink::new(stream);
        let sent = self.exchange.send(alloc, &mut sink, lease, job);
        self.stream = Some(sink.into_inner());
        sent
    }

    fn receive(&mut self, alloc: Global) -> Result<(u64, Outcome), Trouble> {
        let Some(stream) = self.stream.take() else {
            return Err(self.exchange.fail(Trouble::Failed));
        };
        let mut source = ReadSource::new(stream);
        let received = self.exchange.receive(alloc, &mut source);
        self.stream = Some(source.into_inner());
        received
    }

    fn finish(&mut self, alloc: Global) -> Result<(), Trouble> {
        let Some(stream) = self.stream.take() else {
            self.exchange.phase = Phase::Shut;
            return Ok(());
        };
        self.exchange.finish(alloc, &mut WriteSink::new(stream))
    }

    fn sent(&self) -> &[Sent] {
        self.exchange.sent.as_slice()
    }
}
