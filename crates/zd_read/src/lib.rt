//! Reads of a volume, run by run.
//!
//! # What is proved
//!
//! - `run_of` answers the longest run of blocks with one place, and which place it is: the chunk's
//!   zone, its buffer, or none where the blocks are zeros (`IsRunFrom`).
//! - `step` reads the next run of a read under way, by one reading call of the disk, or none for
//!   zeros (`ReadStep`). Nothing of the volume changes but its history: the last run enters the piece
//!   with exactly the bytes that the volume serves, a call that fails enters it with `Fault`.
#![tactic(auto)]

mod run;

pub use run::{Run, run_of, step};
