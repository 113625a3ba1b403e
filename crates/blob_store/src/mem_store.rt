ghost use Rattle.std.specs.Prelude.{◌≡◌, ◌+◌, ◌-◌, ◌^◌, ℕ, min, true, Some};
ghost use Rattle.port.specs.Contents.{nothing};
ghost use Rattle.port.specs.Store.{StoreCall, StoreAnswer, StoreStep, PutNew, Get, Attach, WasPut, WasGot, WasAttached, failures, is_no_memory};
ghost use Rattle.blob_store.specs.Fault.{AddsOnly, Stays};

use crate::memory::Memory;
use port::{Attached, Got, Key, Put, Store};
use std::alloc::Global;

/// An honest store in memory, which fails only as it was asked to, and tells its contents.
#[derive(Drop)]
pub struct MemStore {
    memory: Memory,
}

impl MemStore {
    ghost use Rattle.blob_store.specs.MemStore.{mem_view, truth_in, itself, never};

    /// A store in which nothing stands. It takes no memory.
    pub fn new(alloc: Global) -> MemStore
        ensures told { (mem_view result).told ≡ Some nothing }
        ensures truth { (mem_view result).truth ≡ Some (record { contents = nothing; source = itself; forks = never; due = 0 }) }
        ensures calls { (mem_view result).calls ≡ 0 }
        ensures faults { (mem_view result).faults ≡ 0 }
        ensures none { (n : ℕ) (call : StoreCall) (answer : StoreAnswer) → (mem_view result).was n call answer → is_no_memory answer ≡ true }
    {
        MemStore {
            memory: Memory::new(alloc),
        }
    }

    /// Lets this many more calls fail before they do anything, after those that are still to fail, as far as the
    /// number of faults fits 64 bits then.
    pub fn fail_next(&mut self, n: u64)
        ensures due { (truth_in self.new).due ≡ min ((truth_in self.old).due + n) (2 ^ 64 - 1 - (mem_view self.old).faults) }
        ensures contents { (truth_in self.new).contents ≡ (truth_in self.old).contents }
        ensures stays { Stays mem_view self.old self.new }
    {
        self.memory.fail_next(n);
    }
}

impl Store for MemStore {
    ghost use Rattle.blob_store.specs.MemStore.{mem_view};

    ghost view = { mem_view };

    fn put_new(&mut self, alloc: Global, key: &Key, body: &[u8]) -> Put
        ensures step { StoreStep mem_view self.old self.new (PutNew key.now body.now) (WasPut result) }

        // what the honest store promises besides
        ensures faults { (mem_view self.new).faults ≡ (mem_view self.old).faults + failures (WasPut result) }
        ensures only { AddsOnly mem_view self.old self.new (PutNew key.now body.now) (WasPut result) }
    {
        self.memory.put_new(alloc, key, body, false)
    }

    fn get(&mut self, alloc: Global, key: &Key) -> Got
        ensures step { StoreStep mem_view self.old self.new (Get key.now) (WasGot result) }
        ensures faults { (mem_view self.new).faults ≡ (mem_view self.old).faults + failures (WasGot result) }
        ensures only { AddsOnly mem_view self.old self.new (Get key.now) (WasGot result) }
    {
        self.memory.get(alloc, key, &Some(*key))
    }

    fn attach(&mut self, alloc: Global, key: &Key, bytes: &[u8]) -> Attached
        ensures step { StoreStep mem_view self.old self.new (Attach key.now bytes.now) (WasAttached result) }
        ensures faults { (mem_view self.new).faults ≡ (mem_view self.old).faults + failures (WasAttached result) }
        ensures only { AddsOnly mem_view self.old self.new (Attach key.now bytes.now) (WasAttached result) }
    {
        self.memory.attach(alloc, key, bytes)
    }

    fn faults(&self) -> u64 {
        self.memory.faults
    }
}
