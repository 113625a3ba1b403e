ghost use Rattle.std.specs.Prelude.{◌≡◌};
ghost use Rattle.port.specs.Store.{StoreView, StoreStep, PutNew, Get, Attach, WasPut, WasGot, WasAttached};

use crate::key::Key;
use crate::store_answers::{Attached, Got, Put};
use std::alloc::Global;

/// Where rows, views and what ended them are kept, by key. It may fail, and it may lie.
///
/// What is known of a store is one value, `view`, and each call's contract is one clause over it, [`StoreStep`]:
/// how the counts move, that this call now stands under its number, and what a store that tells its contents
/// answers. Whoever is generic over a store has no other way to a numbered call than to make it.
pub trait Store {
    /// Its faults and calls, and what it tells of its contents.
    ghost view: { Self → StoreView };

    /// Puts a body where nothing stands.
    fn put_new(&mut self, alloc: Global, key: &Key, body: &[u8]) -> Put
        ensures { StoreStep view self.old self.new (PutNew key.now body.now) (WasPut result) };

    /// What stands at the key, in memory of its own.
    fn get(&mut self, alloc: Global, key: &Key) -> Got
        ensures { StoreStep view self.old self.new (Get key.now) (WasGot result) };

    /// Sets the bytes beside the body that stands at the key.
    fn attach(&mut self, alloc: Global, key: &Key, bytes: &[u8]) -> Attached
        ensures { StoreStep view self.old self.new (Attach key.now bytes.now) (WasAttached result) };

    /// How many calls failed or were answered by a lie. It never falls.
    fn faults(&self) -> u64
        ensures { result ≡ (view self.now).faults };
}
