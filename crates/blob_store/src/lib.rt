//! Stores in memory.
//!
//! - [`MemStore`] is a map from keys to what was put and attached there. It fails only as it was asked to.
//! - [`LyingStore`] also lies as it was told to: it hides what stands, gives something else, or lets a put replace it.
//! - [`true_stores_are_honest`] is the law that a store without a lie answers honestly.
//!
//! A store keeps the list of its calls with their numbers and answers, and what is known of its calls is that list.
//! In it equal bytes of one key are held once.

#![tactic(auto)]

mod call_log;
mod laws;
mod lie;
mod lies;
mod lying_store;
mod mem_store;
mod memory;
mod pool;
mod rows;

pub use laws::true_stores_are_honest;
pub use lie::Lie;
pub use lying_store::LyingStore;
pub use mem_store::MemStore;
