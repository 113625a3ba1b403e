//! What a read of a ledger's newest entry answers over a calm service.
//!
//! [`calm_services_answer_latest`] says it of a [`LatestOp`](op_latest::LatestOp) that has ended, whose store was honest and
//! whose link lost nothing: the answer is the ledger's tail and count, with its newest row, or want of memory, and the service
//! is calm afterwards, each of its members with one stamp and signature less.

#![tactic(auto)]

mod latest_laws;

pub use latest_laws::calm_services_answer_latest;
