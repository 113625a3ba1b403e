use nim_base::Text;
use nim_outside::{Fault, MemSink, MemSource, Sink, Source, StreamSink, StreamSource};
use std::cell::RefCell;
use std::io::{self, Read, Write};
use std::test::Fail;

#[test]
fn memory_gives_what_is_left(rt: HostRuntime) -> Result<(), Fail> {
    let fails = vec![in rt.alloc(); 1]?;
    let mut source = MemSource::new(Text::of(rt.alloc(), b"abcde")?, fails);
    let mut into = [0; 3];
    assert_eq!(rt; source.read(&mut into), Ok(3));
    assert!(rt; into == *b"abc");
    assert_eq!(rt; source.read(&mut into), Err(Fault));
    assert_eq!(rt; source.faults(), 1);
    assert_eq!(rt; source.read(&mut into), Ok(2));
    assert!(rt; into == *b"dec");
    assert_eq!(rt; source.read(&mut into), Ok(0));
    Ok(())
}

#[test]
fn memory_takes_what_is_put(rt: HostRuntime) -> Result<(), Fail> {
    let fails = vec![in rt.alloc(); 1]?;
    let mut sink = MemSink::new(rt.alloc(), fails);
    assert_eq!(rt; sink.put(b"ab"), Ok(()));
    assert_eq!(rt; sink.put(b"cd"), Err(Fault));
    assert_eq!(rt; sink.faults(), 1);
    assert_eq!(rt; sink.put(b"ef"), Ok(()));
    assert_eq!(rt; sink.bytes(), b"abef".as_slice());
    Ok(())
}

/// A stream of sevens that fails at its second call and else moves one byte, and keeps what it is
/// given.
#[derive(Drop)]
struct Faulty<'a> {
    calls: u64,
    written: &'a RefCell<Vec<u8>>,
}

impl Faulty<'_> {
    fn call(&mut self) -> io::Result<()> {
        self.calls = self.calls.saturating_add(1);
        if self.calls == 2 {
            return Err(io::Error::from(io::ErrorKind::BrokenPipe));
        }
        Ok(())
    }
}

impl Read for Faulty<'_> {
    fn read(&mut self, buf: &mut [u8]) -> io::Result<usize> {
        self.call()?;
        if buf.is_empty() {
            return Ok(0);
        }
        buf[0] = 7;
        Ok(1)
    }
}

impl Write for Faulty<'_> {
    fn write(&mut self, buf: &[u8]) -> io::Result<usize> {
        self.call()?;
        if buf.is_empty() {
            return Ok(0);
        }
        match self.written.try_borrow_mut() {
            Ok(mut written) => written.push(buf[0])?,
            Err(_) => return Err(io::Error::from(io::ErrorKind::Other)),
        }
        Ok(1)
    }

    fn flush(&mut self) -> io::Result<()> {
        Ok(())
    }
}

#[test]
fn streams_count_their_faults(rt: HostRuntime) {
    let written = RefCell::new(Vec::new(rt.alloc()));
    let mut source = StreamSource::new(Faulty {
        calls: 0,
        written: &written,
    });
    let mut into = [0; 2];
    assert_eq!(rt; source.read(&mut into), Ok(1));
    assert_eq!(rt; into[0], 7);
    assert_eq!(rt; source.read(&mut into), Err(Fault));
    assert_eq!(rt; source.faults(), 1);
    assert_eq!(rt; source.read(&mut into), Ok(1));

    let mut sink = StreamSink::new(Faulty {
        calls: 0,
        written: &written,
    });
    assert_eq!(rt; sink.put(b"a"), Ok(()));
    assert_eq!(rt; sink.put(b"b"), Err(Fault));
    assert_eq!(rt; sink.faults(), 1);
    assert_eq!(rt; sink.put(b"cd"), Ok(()));
    drop(sink);
    drop(source);
    assert_eq!(rt; written.into_inner().as_slice(), b"acd".as_slice());
}
