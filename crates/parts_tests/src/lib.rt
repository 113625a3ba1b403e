//! What no contract says of signing, rows, the endorser, views, replies, clocks, cells and clients' passes: outside
//! vectors, whole exchanges, that ample memory suffices, and what only running threads show.

#![tactic(auto)]

#[cfg(test)]
mod cells;
#[cfg(test)]
mod clocks;
#[cfg(test)]
mod endorser_calls;
#[cfg(test)]
mod endorsers;
#[cfg(test)]
mod hexadecimal;
#[cfg(test)]
mod passes;
#[cfg(test)]
mod refused_forms;
#[cfg(test)]
mod replies;
#[cfg(test)]
mod rows;
#[cfg(test)]
mod signing;
#[cfg(test)]
mod views;
