ghost use Rattle.std.specs.Prelude.{◌≡◌, [], if◌then◌else◌, is_err, Contains, IsErr, OnErr};

use crate::fault::Fault;
use crate::sink::Sink;
use std::alloc::Global;
use std::marker::Model;

/// Bytes in memory as a sink. The puts whose numbers stand in a list fail, counted from 0, and so
/// does a put that finds no memory. A put that fails writes nothing.
#[derive(Drop)]
pub struct MemSink {
    bytes: Vec<u8>,
    fails: Vec<u64>,
    calls: u64,
    faults: u64,
}

impl Model for MemSink {
    ghost use Rattle.nim_outside.specs.MemSink.{Collected};

    ghost Value = { Collected };

    ghost view = { λ sink. record {
      bytes = sink.bytes.items;
      fails = sink.fails.items;
      calls = sink.calls;
      faults = sink.faults;
    } };
}

impl MemSink {
    /// A sink with nothing written.
    pub fn new(alloc: Global, fails: Vec<u64>) -> MemSink
        ensures bytes { result.bytes ≡ [] }
        ensures fails { result.fails ≡ fails.items }
        ensures calls { result.calls ≡ 0 }
        ensures faults { result.faults ≡ 0 }
    {
        MemSink {
            bytes: Vec::new(alloc),
            fails,
            calls: 0,
            faults: 0,
        }
    }

    /// The bytes written.
    pub fn bytes(&self) -> &[u8]
        ensures { result.now ≡ self.now.bytes }
    {
        self.bytes.as_slice()
    }
}

impl Sink for MemSink {
    ghost use Rattle.std.specs.Prelude.{Some};
    ghost use Rattle.nim_outside.specs.Causes.{HasCause, Puts, counted};

    ghost written = { λ sink. Some sink.bytes };

    ghost fault_count = { λ sink. sink.faults };

    fn faults(&self) -> u64 {
        self.faults
    }

    fn put(&mut self, bytes: &[u8]) -> Result<(), Fault>
        ensures bytes { Puts (Some self.old.bytes) (Some self.new.bytes) result bytes.now }
        ensures cause { HasCause self.old.faults self.new.faults result }

        // what the form in memory promises besides
        ensures err { OnErr result (self.new.bytes ≡ self.old.bytes) }
        ensures listed { Contains self.old.fails self.old.calls → IsErr result }
        ensures fails { self.new.fails ≡ self.old.fails }
        ensures calls { self.new.calls ≡ counted self.old.calls }
        ensures faults { self.new.faults ≡ (if is_err result then counted self.old.faults else self.old.faults) }
    {
        let fails = self.fails.contains(&self.calls);
        self.calls = self.calls.saturating_add(1);
        if fails || self.bytes.extend_from_slice(bytes).is_err() {
            self.faults = self.faults.saturating_add(1);
            return Err(Fault);
        }
        Ok(())
    }
}
