//! A ledger is a chain: its entries, the metablocks over their digests, and the tail, which is the
//! digest of the newest metablock.
//!
//! - [`Entry`] is a record of a ledger. The digest of the first one is the ledger's handle.
//! - [`EntryFault`] says why bytes are no entry's.
//! - [`MetaBlock`] binds an entry's digest to the tail below it and to its height.
//! - [`tail_of`] goes from one tail to the next, and [`links`] tests that metablocks lead from one
//!   tail to another.
//!
//! [`entries_have_own_bytes`], [`entries_alone_have_no_fault`], [`metablocks_have_own_bytes`] and
//! [`links_lead_to_the_tail`] do nothing: the contract of each is a law over all entries, bytes or
//! metablocks, which callers' proofs take.
//!
//! Digests are SHA-256 (FIPS 180-4), and numbers are big-endian.

#![tactic(auto)]

pub mod entry;
pub mod entry_fault;
mod fields;
pub mod meta_block;

pub use entry::{
    Entry, MAX_HEIGHT, MAX_PAYLOAD, entries_alone_have_no_fault, entries_have_own_bytes,
};
pub use entry_fault::EntryFault;
pub use meta_block::{
    MetaBlock, links, links_lead_to_the_tail, metablocks_have_own_bytes, tail_of,
};
