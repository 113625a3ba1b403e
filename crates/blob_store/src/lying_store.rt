ghost use Rattle.std.specs.Prelude.{◌≡◌, ◌+◌, ◌-◌, ◌^◌, ℕ, min, true, Some, OnOk, OnErr};
ghost use Rattle.std.specs.Option.{option_copied};
ghost use Rattle.port.specs.Contents.{nothing};
ghost use Rattle.port.specs.Store.{StoreCall, StoreAnswer, StoreStep, PutNew, Get, Attach, WasPut, WasGot, WasAttached, failures, is_no_memory};
ghost use Rattle.blob_store.specs.Fault.{AddsOnly, Counts, Stays};

use crate::lie::Lie;
use crate::lies::Lies;
use crate::memory::Memory;
use nim_base::NoMemory;
use port::{Attached, Got, Key, Put, Store, Stored};
use std::alloc::Global;

/// A store in memory that lies as it was told to, and fails as it was asked to.
///
/// Its count of faults rises at these failures and at each answer that a [`MemStore`](crate::MemStore) in which the
/// same stands wouldn't give; a lie that happens to be the truth is none. Where the count can't rise, such an answer
/// is want of memory.
#[derive(Drop)]
pub struct LyingStore {
    memory: Memory,
    lies: Lies,
}

impl LyingStore {
    ghost use Rattle.blob_store.specs.MemStore.{itself, never};
    ghost use Rattle.blob_store.specs.Lies.{source_after, forks_after};
    ghost use Rattle.blob_store.specs.LyingStore.{lying_view, held_in};

    /// A store in which nothing stands, and which is honest yet. It takes no memory.
    pub fn new(alloc: Global) -> LyingStore
        ensures told { (lying_view result).told ≡ Some nothing }
        ensures truth { (lying_view result).truth ≡ Some (record { contents = nothing; source = itself; forks = never; due = 0 }) }
        ensures calls { (lying_view result).calls ≡ 0 }
        ensures faults { (lying_view result).faults ≡ 0 }
        ensures none { (n : ℕ) (call : StoreCall) (answer : StoreAnswer) → (lying_view result).was n call answer → is_no_memory answer ≡ true }
    {
        LyingStore {
            memory: Memory::new(alloc),
            lies: Lies::new(alloc),
        }
    }

    /// Tells the store to lie so from now on. Of the lies for gets of one key the latest alone holds.
    pub fn lie(&mut self, lie: Lie) -> Result<(), NoMemory>
        ensures source { OnOk result ((held_in self.new).source ≡ source_after (held_in self.old).source lie) }
        ensures forks { OnOk result ((held_in self.new).forks ≡ forks_after (held_in self.old).forks lie) }
        ensures same_source { OnErr result ((held_in self.new).source ≡ (held_in self.old).source) }
        ensures same_forks { OnErr result ((held_in self.new).forks ≡ (held_in self.old).forks) }
        ensures held { (held_in self.new).contents ≡ (held_in self.old).contents }
        ensures due { (held_in self.new).due ≡ (held_in self.old).due }
        ensures stays { Stays lying_view self.old self.new }
    {
        self.lies.add(&lie)
    }

    /// Ends all lies. What stands stays, and so do failures that are still to come.
    pub fn honest(&mut self)
        ensures source { (held_in self.new).source ≡ itself }
        ensures forks { (held_in self.new).forks ≡ never }
        ensures held { (held_in self.new).contents ≡ (held_in self.old).contents }
        ensures due { (held_in self.new).due ≡ (held_in self.old).due }
        ensures stays { Stays lying_view self.old self.new }
    {
        self.lies.clear();
    }

    /// Lets this many more calls fail before they do anything, after those that are still to fail, as far as the
    /// number of faults fits 64 bits then.
    pub fn fail_next(&mut self, n: u64)
        ensures due { (held_in self.new).due ≡ min ((held_in self.old).due + n) (2 ^ 64 - 1 - (lying_view self.old).faults) }
        ensures contents { (held_in self.new).contents ≡ (held_in self.old).contents }
        ensures source { (held_in self.new).source ≡ (held_in self.old).source }
        ensures forks { (held_in self.new).forks ≡ (held_in self.old).forks }
        ensures stays { Stays lying_view self.old self.new }
    {
        self.memory.fail_next(n);
    }

    /// What really stands at the key.
    pub fn held(&self, key: &Key) -> Option<&Stored>
        ensures { option_copied result ≡ (held_in self.now).contents key.now }
    {
        self.memory.rows.find(key)
    }
}

impl Store for LyingStore {
    ghost use Rattle.blob_store.specs.LyingStore.{lying_view, held_in};

    ghost view = { lying_view };

    fn put_new(&mut self, alloc: Global, key: &Key, body: &[u8]) -> Put
        ensures step { StoreStep lying_view self.old self.new (PutNew key.now body.now) (WasPut result) }

        // what this store promises besides
        ensures counts { Counts (held_in self.old).contents (PutNew key.now body.now) (WasPut result) (lying_view self.old).faults (lying_view self.new).faults }
        ensures only { AddsOnly lying_view self.old self.new (PutNew key.now body.now) (WasPut result) }
    {
        let forks = self.lies.forks(key);
        self.memory.put_new(alloc, key, body, forks)
    }

    fn get(&mut self, alloc: Global, key: &Key) -> Got
        ensures step { StoreStep lying_view self.old self.new (Get key.now) (WasGot result) }
        ensures counts { Counts (held_in self.old).contents (Get key.now) (WasGot result) (lying_view self.old).faults (lying_view self.new).faults }
        ensures only { AddsOnly lying_view self.old self.new (Get key.now) (WasGot result) }
    {
        let source = self.lies.source(key);
        self.memory.get(alloc, key, &source)
    }

    fn attach(&mut self, alloc: Global, key: &Key, bytes: &[u8]) -> Attached
        ensures step { StoreStep lying_view self.old self.new (Attach key.now bytes.now) (WasAttached result) }
        ensures counts { (lying_view self.new).faults ≡ (lying_view self.old).faults + failures (WasAttached result) }
        ensures only { AddsOnly lying_view self.old self.new (Attach key.now bytes.now) (WasAttached result) }
    {
        self.memory.attach(alloc, key, bytes)
    }

    fn faults(&self) -> u64 {
        self.memory.faults
    }
}
