//! Values by names, which are bytes.
//!
//! [`NameMap`] is a map of them, in which a value is found and set in the logarithm of their number.

#![tactic(auto)]

mod name_map;

pub use name_map::NameMap;
