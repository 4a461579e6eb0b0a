//! Disks that are formatted by words, in memory and in files.
#![tactic(auto)]

#[cfg(test)]
mod formatting;
