//! What no contract says of the lowest crates: vectors from outside, and each call once.

#![tactic(auto)]

#[cfg(test)]
mod bad_scripts;
#[cfg(test)]
mod base;
#[cfg(test)]
mod chains;
#[cfg(test)]
mod hexadecimal;
#[cfg(test)]
mod maps;
#[cfg(test)]
mod outside;
#[cfg(test)]
mod scripts;
#[cfg(test)]
mod statements;
