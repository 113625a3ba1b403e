//! Signing and checking, and a stand-in for keys that hardware would attest.
//!
//! - [`Signer`] signs under one key, [`Checker`] tells whether a signature is accepted under a key, and
//!   a [`Scheme`] is a kind of each with the law that a fitting checker accepts what its signer signs.
//!   Keys that hardware attests would implement them, and so would hash-based signatures. Nothing here
//!   assumes that a signer never runs out: how many signatures it has left is part of what it tells.
//! - [`MacScheme`] is the stand-in: the signature of a [`MacSigner`] is [`hmac`] over SHA-256 (RFC 2104)
//!   under a secret that is worked out from the signer's id, and a [`KeyBook`] holds the secrets of the
//!   ids that it checks.
//!
//! In the stand-in a signature says no more than that who made it had the secret of the id, and whoever
//! knows the id has that. It takes the place that the signature of an attested key has in the service,
//! so that everything round it can be run and proved. No theorem says or assumes that a signature is
//! hard to make for others, and none rests on the strength of HMAC or SHA-256.

#![tactic(auto)]

mod checker;
mod key_book;
mod keyed_hash;
mod mac_scheme;
mod mac_signer;
mod mac_text;
mod scheme;
mod sign_fault;
mod signer;

pub use checker::Checker;
pub use key_book::KeyBook;
pub use keyed_hash::hmac;
pub use mac_scheme::MacScheme;
pub use mac_signer::MacSigner;
pub use mac_text::{key_text, secret_text};
pub use scheme::Scheme;
pub use sign_fault::SignFault;
pub use signer::{MAX_SIGNATURE, Signer};
