//! The values that every layer speaks of: digests, nonces, texts and cursors.
//!
//! - [`Digest`] is a SHA-256 digest (FIPS 180-4), and [`digest_of`] makes one.
//! - [`Nonce`] is a number that a client draws once.
//! - [`Text`] is bytes that grow, with room that can be set aside before it is needed.
//! - [`Cursor`] reads bytes from the front, big-endian numbers among them, and [`FormFault`] says why
//!   bytes can't be read as what they should be.
//!
//! What takes memory answers [`NoMemory`] where there is none, and what has no such answer takes none.

#![tactic(auto)]

pub mod cursor;
pub mod digest;
pub mod form_fault;
pub mod no_memory;
pub mod nonce;
pub mod text;

pub use cursor::Cursor;
pub use digest::{Digest, digest_of};
pub use form_fault::FormFault;
pub use no_memory::NoMemory;
pub use nonce::Nonce;
pub use text::Text;
