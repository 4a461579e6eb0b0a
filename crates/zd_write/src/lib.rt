//! Where a write goes, its step, and that of a discard.
//!
//! # What is proved
//!
//! - `place` is the place of a write, exactly, and None exactly where it needs a conventional zone and none
//!   is free; `goes_to_buffer` says whether that is a buffer.
//! - `step` makes one call of the disk, or none where no zone is free, and then changes nothing.
//! - `settle` promotes a chunk exactly where it is buffered and its zone has no valid block.
#![tactic(auto)]

mod route;
mod settling;
mod steps;

pub use route::{goes_to_buffer, place};
pub use settling::settle;
pub use steps::{Tried, discard, step};
