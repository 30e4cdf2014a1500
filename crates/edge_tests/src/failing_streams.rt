//! Sources and sinks, of which some calls fail.

use object_name::{
    Many, MemSink, MemSource, ReadEnd, ReadSource, Trouble, WriteSink, read_all, write_all,
};
use std::io;
use std::test::Fail;

/// What a sink in memory of which the second call fails has taken of `abc`, `def` and `g`, read back by a source in memory.
#[test]
fn bytes_in_memory_are_written_and_read_back(rt: HostRuntime) -> Result<(), Fail> {
    let mut failing = Many::new(rt.alloc());
    failing.push(2)?;
    let mut sink = MemSink::new(rt.alloc(), failing)?;
    assert_eq!(rt; write_all(&mut sink, b"abc"), Ok(()));
    assert_eq!(rt; write_all(&mut sink, b"def"), Err(Trouble::Failed));
    assert_eq!(rt; write_all(&mut sink, b"g"), Ok(()));
    let mut source = MemSource::new(sink.into_content(), Many::new(rt.alloc()))?;
    assert_eq!(rt;
        read_all(rt.alloc(), &mut source, 4)?.as_slice(),
        b"abcg".as_slice()
    );
    Ok(())
}

/// Gives three bytes, fails once, and then gives three bytes and ends; takes three bytes, fails twice, and then takes all.
#[derive(Drop)]
struct Faltering(usize);

impl io::Read for Faltering {
    fn read(&mut self, buf: &mut [u8]) -> io::Result<usize> {
        self.0 = self.0.saturating_add(1);
        match self.0 {
            1 | 3 if buf.len() >= 3 => {
                buf[..3].copy_from_slice(b"abc");
                Ok(3)
            }
            2 => Err(io::Error::from(io::ErrorKind::TimedOut)),
            _ => Ok(0),
        }
    }
}

impl io::Write for Faltering {
    fn write(&mut self, buf: &[u8]) -> io::Result<usize> {
        self.0 = self.0.saturating_add(1);
        match self.0 {
            1 => Ok(buf.len().min(3)),
            2 => Err(io::Error::from(io::ErrorKind::Interrupted)),
            3 => Ok(0),
            _ => Ok(buf.len()),
        }
    }

    fn flush(&mut self) -> io::Result<()> {
        Ok(())
    }
}

#[test]
fn a_reader_that_fails_midway_is_a_fault(rt: HostRuntime) -> Result<(), Fail> {
    let mut source = ReadSource::new(Faltering(0));
    assert_eq!(rt; read_all(rt.alloc(), &mut source, 9), Err(ReadEnd::Failed));
    assert_eq!(rt; source.faults(), 1);
    assert_eq!(rt;
        read_all(rt.alloc(), &mut source, 9)?.as_slice(),
        b"abc".as_slice()
    );
    assert_eq!(rt; source.faults(), 1);
    assert_eq!(rt; source.into_inner().0, 4);
    Ok(())
}

#[test]
fn a_writer_that_fails_midway_is_a_fault(rt: HostRuntime) {
    let mut sink = WriteSink::new(Faltering(0));
    assert_eq!(rt; write_all(&mut sink, b"abcdef"), Err(Trouble::Failed));
    assert_eq!(rt; sink.faults(), 1);
    assert_eq!(rt; write_all(&mut sink, b"def"), Err(Trouble::Failed));
    assert_eq!(rt; sink.faults(), 2);
    assert_eq!(rt; write_all(&mut sink, b"def"), Ok(()));
    assert_eq!(rt; sink.into_inner().0, 4);
}
