//! The world in which a script runs, and what each line makes of it.
//!
//! [`World`] holds a coordinator over a store that may lie and the endorsers of a run, the clients, the ledgers of labels and the
//! operations that were begun. It has a call for each line but the first and the last one:
//!
//! - [`World::new_ledger`], [`World::append`], [`World::latest`] and [`World::at`] are done at once by a client, and give the line that is
//!   printed.
//! - [`World::begin_new`] and its like begin such a thing as an operation with a name, which [`World::step`], [`World::finish`] and
//!   [`World::retry`] carry on. [`World::offer`] and [`World::forge`] give its client a reply that the service didn't give.
//! - [`World::restart`] begins the coordinator anew. [`World::lose`], [`World::fail_next`], [`World::hide`] and its like, and
//!   [`World::raw_append`] and its like are what may go wrong.
//! - [`World::calls_are_kept`] and [`World::lists_are_lawful`] do nothing, and say what is known of the lists that the endorsers keep.
//!
//! [`nonce`] gives the nonce of a number; nonces are drawn in the order of their numbers, from 0 on. [`handle_for`] gives the ledger that
//! a label means.
//!
//! `specs/World` is what a run has come to. `specs/Lines` says what each line that is done at once makes of it, `specs/Begun` what a
//! beginning does, and `specs/Going` what stays whatever is done. `specs/Running` is a run with the names of its clients, their turns and
//! its operations, and `specs/Carried` says what becomes of these. Want of memory ends a run: what it leaves of the line isn't said.

#![tactic(auto)]

mod asking;
mod begun;
mod entries;
mod faults;
mod held;
mod labels;
mod made;
mod member_signer;
mod nonces;
mod operations;
mod raw;
mod reads;
mod served;
mod signed;
mod world;

pub use labels::handle_for;
pub use member_signer::MemberSigner;
pub use nonces::nonce;
pub use world::World;
