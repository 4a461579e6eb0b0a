//! Reclaim: which job is possible, which one is picked, when one is due, and its steps.
//!
//! # What is proved
//!
//! - `possible` is exactly the job that is possible on a chunk, and `pick` exactly the one that is picked: the first in
//!   use order that gives a conventional zone back, else the first Merge, else the first Empty. Both are read off the
//!   index of candidates; neither looks over the chunks.
//! - `due` says exactly whether a job is due.
//! - `step` makes exactly the step of a job that comes next, by one call of the disk or none, and answers its kind.
//! - Where no conventional zone is free, no zone is in limbo and no job is under way, one is picked
//!   (`never_stuck`).
#![tactic(auto)]

mod choice;
pub mod rows;
mod run;
mod when;

pub use choice::{never_stuck, pick, possible};
pub use run::step;
pub use when::due;
