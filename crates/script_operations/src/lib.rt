//! The operations that a script began, by name.
//!
//! [`Operations`] holds them. An operation is begun for a client, with a copy of a coordinator's chain of views, and makes no call then.
//! It is open until its client is given an answer or the coordinator restarts: an open one is stepped, one outside call at a time, or
//! stepped to its answer. A closed one may be asked anew, by a whole call of the coordinator. Whatever is done, what it was begun for
//! stays: its client, the draw of that client, and the entry, or the ledger and the nonce or the height.
//!
//! [`served_so_far`] tells how many calls the endorsers of a run served, which is the moment at which a client writes its lines.

#![tactic(auto)]

mod height_operation;
mod laws;
mod newest_operation;
mod operation;
mod operations;
mod own_operation;
mod own_run;
mod reading;
mod served;

pub use laws::operations_keep_draws;
pub use operations::Operations;
pub use reading::Reading;
pub use served::served_so_far;
