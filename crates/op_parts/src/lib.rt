//! The operations of a service over a store and the links to its endorsers, one outside call a step: the parts that they
//! share.
//!
//! - [`Refresh`] is the first part of every operation: the chain of views goes on by each view that the store marks as
//!   complete. [`read_marks`] gives the marks of what members left when their view ended.
//! - [`Round`] appends one row to all members of a chain's newest view, member by member, and gives their marks and
//!   the reasons of the others. [`refusal_of`] says why there is no quorum, from the reasons, and [`first_above`] who had
//!   come further. [`are_quorum`] says whether marks are enough, [`needed`] how many are, and [`members`] how many are asked.
//! - [`Walk`] goes up the rows of a ledger from one that has no receipt to the first that has one. [`accepted_receipt`] is
//!   the receipt that is attached to a row.
//!
//! What a part has done is the list of its calls, the newest first; its invariant says what they were and what they made
//! of it. [`round_calls_are_own`] and [`members_are_shown`] say what follows for each call, mark and reason of a round, and
//! [`walks_link`] that the metablocks of a walk lead from one tail to the other, and [`refreshes_grow`] that a chain grew by
//! the oldest calls of its refresh.

#![tactic(auto)]

mod attachment;
mod marks;
mod parting_laws;
mod quorum;
mod refresh;
mod refresh_laws;
mod refresh_stage;
mod refresh_turn;
mod round;
mod round_laws;
mod round_progress;
mod round_refusal;
mod round_stage;
mod round_turn;
mod round_verdict;
mod walk;
mod walk_laws;

pub use attachment::{Head, accepted_receipt};
pub use marks::read_marks;
pub use parting_laws::quorums_are_parted;
pub use quorum::{are_quorum, members, needed};
pub use refresh::Refresh;
pub use refresh_laws::refreshes_grow;
pub use refresh_turn::RefreshProgress;
pub use round::Round;
pub use round_laws::{members_are_shown, members_tell_counts, round_calls_are_own};
pub use round_progress::RoundProgress;
pub use round_refusal::{Contention, first_above, refusal_of};
pub use walk::{MAX_BLOCKS, Walk, WalkProgress};
pub use walk_laws::walks_link;
