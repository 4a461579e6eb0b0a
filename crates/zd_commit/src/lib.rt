//! Commits: when one is due, its steps, a whole one, and the closing of a volume.
//!
//! # What is proved
//!
//! - `due` says exactly whether a commit is due.
//! - `step` makes the next call of a commit, exactly one, and none at the last generation.
//! - A whole commit makes `2 d + 6` writing calls with d dirty blocks, and one with none; with its end a
//!   stop leaves what the disk reads as alone.
#![tactic(auto)]

mod closing;
mod run;
mod when;

pub use closing::close;
pub use run::{run_commit, step};
pub use when::{due, has_limbo};
