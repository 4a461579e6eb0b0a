//! What a sector may hold after a stop, by the history of a run.
//!
//! # What is proved
//!
//! `may_hold` answers exactly `MayHold`, in one pass over the history: the sector has its value at the last
//! flush that was acknowledged, or what a later write put or was about to put there, or zeros by a later
//! discard.
#![tactic(auto)]

mod held;
mod puts;
#[cfg(test)]
mod tests;

pub use held::may_hold;
