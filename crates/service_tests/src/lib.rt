//! What no contract says of stores, banks of cells, catch-ups and operations: whole exchanges over a store and a link that
//! lose, fail and lie, and that ample memory suffices.

#![tactic(auto)]

#[cfg(test)]
mod banks;
#[cfg(test)]
mod catch_ups;
#[cfg(test)]
mod coordinators;
#[cfg(test)]
mod geneses;
#[cfg(test)]
mod ledgers;
#[cfg(test)]
mod operations;
#[cfg(test)]
mod refreshes;
#[cfg(test)]
mod said;
#[cfg(test)]
mod stores;
#[cfg(test)]
mod world;
