//! Volumes that are repaired, and that get new heads.
#![tactic(auto)]

#[cfg(test)]
mod heads;
#[cfg(test)]
mod repairs;
