//! Who signs for a service, and what is signed: configs, view blocks, statements and receipts.
//!
//! - [`Config`] is the members of a view, with the weight of each and their quorum. [`ConfigFault`]
//!   says why members make no config.
//! - [`ViewBlock`] binds a config to the view below it and to its number, and its digest is the tail of
//!   the view.
//! - [`Statement`] is what a member signs, and [`StatementBytes`] are its bytes.
//! - [`Receipt`] is a statement with the [`Mark`]s of those who signed it.
//!
//! [`FormFault`] says why bytes can't be read as one of these.
//!
//! Digests are SHA-256 (FIPS 180-4), and numbers are big-endian. What takes memory answers `NoMemory`
//! where there is none, and what has no such answer takes none.

#![tactic(auto)]

mod config;
mod config_fault;
mod config_reading;
mod ids;
mod laws;
mod mark;
mod member;
mod reading;
mod receipt;
mod statement;
mod statement_bytes;
mod view_block;

pub use config::{Config, MAX_MEMBERS};
pub use config_fault::ConfigFault;
pub use laws::{
    configs_have_own_bytes, configs_show_one_fault, quorums_meet, receipts_have_own_bytes,
    statements_have_own_bytes, view_blocks_have_own_bytes,
};
pub use mark::Mark;
pub use member::Member;
pub use nim_base::FormFault;
pub use receipt::{MAX_MARKS, MAX_SIGNATURE, Receipt};
pub use statement::Statement;
pub use statement_bytes::{MAX_STATEMENT, StatementBytes};
pub use view_block::ViewBlock;
