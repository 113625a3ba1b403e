ghost use Rattle.std.specs.Prelude.{◌≡◌, ◌+◌, ◌-◌, ◌<◌, ◌^◌, ℕ, Bool, Option, min, Some, true, false, [], is_some};
ghost use Rattle.port.specs.declared.key.Key.{Key};
ghost use Rattle.port.specs.Contents.{nothing};
ghost use Rattle.port.specs.Store.{StoreStep, PutNew, Get, Attach, WasPut, WasGot, WasAttached, failures};
ghost use Rattle.blob_store.specs.Rows.{contents_of};
ghost use Rattle.blob_store.specs.Fault.{Counts};
ghost use Rattle.blob_store.specs.Line.{IsNoted};

use crate::call_log::CallLog;
use crate::rows::Rows;
use nim_base::Text;
use port::{Attached, Got, Key, Put, Stored};
use std::alloc::Global;

/// What the stores in memory have in common: rows, the list of calls, counts, and how many calls are still to fail.
///
/// A get is told at which source to look, and a put whether it replaces what stands; an answer that isn't the honest
/// one is a fault. Where the count of faults can't rise, it is want of memory.
#[derive(Drop)]
pub(crate) struct Memory {
    pub rows: Rows,
    pub log: CallLog,
    pub calls: u64,
    pub faults: u64,
    pub due: u64,
    ghost room: { faults + due < 2 ^ 64 },
}

impl Memory {
    ghost use Rattle.blob_store.specs.Memory.{memory_view};

    pub fn new(alloc: Global) -> Memory
        ensures rows { contents_of result.rows ≡ nothing }
        ensures log { result.log ≡ [] }
        ensures calls { result.calls ≡ 0 }
        ensures faults { result.faults ≡ 0 }
        ensures due { result.due ≡ 0 }
    {
        Memory {
            rows: Rows::new(alloc),
            log: CallLog::new(alloc),
            calls: 0,
            faults: 0,
            due: 0,
        }
    }

    pub fn fail_next(&mut self, n: u64)
        ensures due { self.new.due ≡ min (self.old.due + n) (2 ^ 64 - 1 - self.old.faults) }
        ensures rows { self.new.rows ≡ self.old.rows }
        ensures log { self.new.log ≡ self.old.log }
        ensures calls { self.new.calls ≡ self.old.calls }
        ensures faults { self.new.faults ≡ self.old.faults }
    {
        self.due = self.due.saturating_add(n).min(u64::MAX - self.faults);
    }

    pub fn put_new(&mut self, alloc: Global, key: &Key, body: &[u8], replaces: bool) -> Put
        ensures step { (source : Key → Option Key) (forks : Key → Bool) → forks key.now ≡ replaces
            → StoreStep (memory_view source forks) self.old self.new (PutNew key.now body.now) (WasPut result) }
        ensures noted { IsNoted self.old.log self.new.log (record { number = self.old.calls; call = PutNew key.now body.now; answer = WasPut result }) }
        ensures counts { Counts (contents_of self.old.rows) (PutNew key.now body.now) (WasPut result) self.old.faults self.new.faults }
        ensures honest { replaces ≡ false → self.new.faults ≡ self.old.faults + failures (WasPut result) }
    {
        let number = self.calls;
        self.calls = number.saturating_add(1);
        if self.due > 0 {
            if self
                .log
                .add_put(alloc, number, key, body, Put::Failed)
                .is_err()
            {
                return Put::NoMemory;
            }
            self.due -= 1;
            self.faults += 1;
            return Put::Failed;
        }
        let stands = self.rows.has(key);
        if stands && !replaces {
            if self
                .log
                .add_put(alloc, number, key, body, Put::Taken)
                .is_err()
            {
                return Put::NoMemory;
            }
            return Put::Taken;
        }
        if stands && self.faults == u64::MAX {
            return Put::NoMemory;
        }
        let Ok(text) = Text::of(alloc, body) else {
            return Put::NoMemory;
        };
        if self
            .log
            .add_put(alloc, number, key, body, Put::Done)
            .is_err()
        {
            return Put::NoMemory;
        }
        let row = Stored {
            body: text,
            attached: None,
        };
        if self.rows.set(key, row).is_err() {
            self.log.forget();
            return Put::NoMemory;
        }
        if stands {
            self.faults += 1;
        }
        Put::Done
    }

    pub fn get(&mut self, alloc: Global, key: &Key, source: &Option<Key>) -> Got
        ensures step { (sources : Key → Option Key) (forks : Key → Bool) → sources key.now ≡ source.now
            → StoreStep (memory_view sources forks) self.old self.new (Get key.now) (WasGot result) }
        ensures noted { IsNoted self.old.log self.new.log (record { number = self.old.calls; call = Get key.now; answer = WasGot result }) }
        ensures counts { Counts (contents_of self.old.rows) (Get key.now) (WasGot result) self.old.faults self.new.faults }
        ensures honest { source.now ≡ Some key.now → self.new.faults ≡ self.old.faults + failures (WasGot result) }
    {
        let number = self.calls;
        self.calls = number.saturating_add(1);
        if self.due > 0 {
            if self.log.add_get(alloc, number, key, &Got::Failed).is_err() {
                return Got::NoMemory;
            }
            self.due -= 1;
            self.faults += 1;
            return Got::Failed;
        }
        let lies = !self.rows.agree(key, source);
        if lies && self.faults == u64::MAX {
            return Got::NoMemory;
        }
        let Some(found) = self.rows.find_at(source) else {
            if self.log.add_get(alloc, number, key, &Got::None).is_err() {
                return Got::NoMemory;
            }
            if lies {
                self.faults += 1;
                return Got::None;
            }
            return Got::None;
        };
        let Ok(copy) = found.copy(alloc) else {
            return Got::NoMemory;
        };
        let got = Got::Some(copy);
        if self.log.add_get(alloc, number, key, &got).is_err() {
            return Got::NoMemory;
        }
        if lies {
            self.faults += 1;
        }
        got
    }

    pub fn attach(&mut self, alloc: Global, key: &Key, bytes: &[u8]) -> Attached
        ensures step { (source : Key → Option Key) (forks : Key → Bool)
            → StoreStep (memory_view source forks) self.old self.new (Attach key.now bytes.now) (WasAttached result) }
        ensures noted { IsNoted self.old.log self.new.log (record { number = self.old.calls; call = Attach key.now bytes.now; answer = WasAttached result }) }
        ensures counts { self.new.faults ≡ self.old.faults + failures (WasAttached result) }
    {
        let number = self.calls;
        self.calls = number.saturating_add(1);
        if self.due > 0 {
            if self
                .log
                .add_attach(alloc, number, key, bytes, Attached::Failed)
                .is_err()
            {
                return Attached::NoMemory;
            }
            self.due -= 1;
            self.faults += 1;
            return Attached::Failed;
        }
        let Some(found) = self.rows.find(key) else {
            if self
                .log
                .add_attach(alloc, number, key, bytes, Attached::Absent)
                .is_err()
            {
                return Attached::NoMemory;
            }
            return Attached::Absent;
        };
        let Ok(body) = Text::of(alloc, found.body.bytes()) else {
            return Attached::NoMemory;
        };
        let Ok(attached) = Text::of(alloc, bytes) else {
            return Attached::NoMemory;
        };
        if self
            .log
            .add_attach(alloc, number, key, bytes, Attached::Done)
            .is_err()
        {
            return Attached::NoMemory;
        }
        let row = Stored {
            body,
            attached: Some(attached),
        };
        if self.rows.set(key, row).is_err() {
            self.log.forget();
            return Attached::NoMemory;
        }
        Attached::Done
    }
}
