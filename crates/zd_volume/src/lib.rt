//! What a mounted volume is: its values, its invariant, and what its steps make of both.
//!
//! The types name how far a commit is (`Phase`), what a job does (`Work`), what of a read is done
//! (`Flight`), and what a step answers. Everything else here is definitions and laws, over plain
//! values and over what a disk tells; no law knows how a volume is held in memory.
//!
//! # What is proved
//!
//! - What is always true of a volume (`IsKeptVolume`): its tables follow the rules, what the disk
//!   reads as serves the last array of the history, the history is legal, and each image that a stop
//!   may leave, at each moment since opening, is well-formed with sectors that it may hold.
//! - A call of the disk keeps it, if on one image the call leads there (`kept_call`); so does a step
//!   that makes no writing call (`kept_still`).
//! - Each call of a commit leads there, in each of the nine phases: a block or a super block of
//!   either set, written or cut short; a flush done or failed; the last flush, with which the new
//!   tables are the committed ones. A commit makes `2 d + 6` calls with d dirty blocks, else one.
//! - So do a copy, a reset, a write and a discard, over what they make of the tables.
#![tactic(auto)]

mod flight;
mod phase;
mod work;

pub use flight::{Flight, Ran, Wrote};
pub use phase::{Committed, Phase};
pub use work::{Job, JobKind, Place, Work};
