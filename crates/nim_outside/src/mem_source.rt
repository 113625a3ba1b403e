ghost use Rattle.std.specs.Prelude.{◌≡◌, ◌↔◌, ℕ, drop, if◌then◌else◌, is_err, length, min, Contains, IfOk, IsErr, OnErr};

use crate::fault::Fault;
use crate::source::Source;
use nim_base::Text;
use std::marker::Model;

/// Bytes in memory as a source. The reads whose numbers stand in a list fail; they are counted
/// from 0. Each other read gives as many bytes as are left and fit.
#[derive(Drop)]
pub struct MemSource {
    bytes: Text,
    read: usize,
    fails: Vec<u64>,
    calls: u64,
    faults: u64,
}

impl Model for MemSource {
    ghost use Rattle.std.specs.Prelude.{◌≤◌, drop, length};
    ghost use Rattle.nim_outside.specs.MemSource.{Supply};

    ghost Value = { Supply };

    ghost view = { λ source. record {
      left = drop source.read source.bytes.bytes;
      fails = source.fails.items;
      calls = source.calls;
      faults = source.faults;
    } };

    ghost invariant = { λ source. source.read ≤ length source.bytes.bytes };
}

impl MemSource {
    /// A source that has yet to give these bytes.
    pub fn new(bytes: Text, fails: Vec<u64>) -> MemSource
        ensures left { result.left ≡ bytes.bytes }
        ensures fails { result.fails ≡ fails.items }
        ensures calls { result.calls ≡ 0 }
        ensures faults { result.faults ≡ 0 }
    {
        MemSource {
            bytes,
            read: 0,
            fails,
            calls: 0,
            faults: 0,
        }
    }
}

impl Source for MemSource {
    ghost use Rattle.std.specs.Prelude.{Some};
    ghost use Rattle.std.specs.Io.{ReadsAtMost};
    ghost use Rattle.std.specs.Io.KnownBytes.{ReadConsumes};
    ghost use Rattle.nim_outside.specs.Causes.{HasCause, counted};

    ghost left = { λ source. Some source.left };

    ghost fault_count = { λ source. source.faults };

    fn faults(&self) -> u64 {
        self.faults
    }

    fn read(&mut self, into: &mut [u8]) -> Result<usize, Fault>
        ensures bound { ReadsAtMost result into.new }
        ensures bytes { ReadConsumes (Some self.old.left) (Some self.new.left) result into.new }
        ensures cause { HasCause self.old.faults self.new.faults result }

        // what the form in memory promises besides
        ensures err { IsErr result ↔ Contains self.old.fails self.old.calls }
        ensures count { IfOk result (λ n. n ≡ min (length into.old) (length self.old.left)) }
        ensures rest { IfOk result (λ n. drop n into.new ≡ drop n into.old) }
        ensures untouched { OnErr result (into.new ≡ into.old) }
        ensures fails { self.new.fails ≡ self.old.fails }
        ensures calls { self.new.calls ≡ counted self.old.calls }
        ensures faults { self.new.faults ≡ (if is_err result then counted self.old.faults else self.old.faults) }
    {
        let fails = self.fails.contains(&self.calls);
        self.calls = self.calls.saturating_add(1);
        if fails {
            self.faults = self.faults.saturating_add(1);
            return Err(Fault);
        }
        let left = &self.bytes.bytes()[self.read..];
        let count = into.len().min(left.len());
        into[..count].copy_from_slice(&left[..count]);
        self.read += count;
        Ok(count)
    }
}
