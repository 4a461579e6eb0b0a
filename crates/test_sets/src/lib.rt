//! Sets of metadata on a disk: read, written, made equal, examined.
#![tactic(auto)]

#[cfg(test)]
mod equal_sets;
#[cfg(test)]
mod examining;
