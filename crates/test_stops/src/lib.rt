//! What stops leave of a disk in memory: tests alone, above the crates that they run through.
#![tactic(auto)]

#[cfg(test)]
mod stops;
