//! Looks among texts for two different ones with one SHA-256 digest (FIPS 180-4).
//!
//! - [`least_collision`] gives the least pair of such texts in byte order ([`Collision`]), or tells
//!   that there is none.
//! - [`least_collision_among`] does so for texts whose digests are given ([`Digested`]).
//!
//! Where no two texts have one digest, each costs its digest and one look-up in a map.

#![tactic(auto)]

pub mod collision;
pub mod digested;
mod search;

pub use collision::Collision;
pub use digested::Digested;
pub use search::{least_collision, least_collision_among};
