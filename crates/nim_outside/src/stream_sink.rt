ghost use Rattle.std.specs.Prelude.{◌≡◌, if◌then◌else◌, is_err};
ghost use Rattle.std.specs.Io.KnownBytes.{Appends};
ghost use Rattle.nim_outside.specs.Causes.{Puts};

use crate::fault::Fault;
use crate::sink::Sink;
use std::io::{ErrorKind, Write};

/// A sink over a writer, which tells what the writer tells.
#[derive(Drop)]
pub struct StreamSink<W: Write> {
    writer: W,
    faults: u64,
}

/// Hands the bytes to the writer until it has taken them all. A call that was interrupted is made
/// again.
fn write_each<W: Write>(writer: &mut W, bytes: &[u8]) -> Result<(), Fault>
    ensures { Puts (W.contents writer.old) (W.contents writer.new) result bytes.now }
{
    let mut rest = bytes;
    for _ in 0..u64::MAX {
        if rest.is_empty() {
            return Ok(());
        }
        match writer.write(rest) {
            Ok(0) => return Err(Fault),
            Ok(count) => rest = &rest[count..],
            Err(error) => {
                if error.kind() != ErrorKind::Interrupted {
                    return Err(Fault);
                }
            }
        }
    }
    Err(Fault)
}

impl<W: Write> StreamSink<W> {
    /// A sink that hasn't failed yet.
    pub fn new(writer: W) -> StreamSink<W>
        ensures faults { result.faults ≡ 0 }
        ensures writer { result.writer ≡ writer }
    {
        StreamSink { writer, faults: 0 }
    }
}

impl<W: Write> Sink for StreamSink<W> {
    ghost use Rattle.nim_outside.specs.Causes.{HasCause, Puts, counted};

    ghost written = { λ sink. W.contents sink.writer };

    ghost fault_count = { λ sink. sink.faults };

    fn faults(&self) -> u64 {
        self.faults
    }

    fn put(&mut self, bytes: &[u8]) -> Result<(), Fault>
        ensures bytes { Puts (W.contents self.old.writer) (W.contents self.new.writer) result bytes.now }
        ensures cause { HasCause self.old.faults self.new.faults result }

        // What the adapter promises besides.
        ensures faults { self.new.faults ≡ (if is_err result then counted self.old.faults else self.old.faults) }
    {
        let result = write_each(&mut self.writer, bytes);
        if result.is_err() {
            self.faults = self.faults.saturating_add(1);
        }
        result
    }
}
