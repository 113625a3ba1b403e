//! What no contract says of the crates of which the program is made: printed lines, worked scripts, each call once.

#![tactic(auto)]

#[cfg(test)]
mod plain_scripts;
#[cfg(test)]
mod printed;
#[cfg(test)]
mod records;
#[cfg(test)]
mod set_ups;
#[cfg(test)]
mod signing;
