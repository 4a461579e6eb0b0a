//! A mounted volume: its values in memory, its disk, and the primitives that change both.
#![tactic(auto)]

mod classes;
mod closed;
mod commit;
mod copying;
mod discards;
mod entering;
mod filling;
mod job_begins;
mod jobs;
mod marks;
mod merging;
mod next_steps;
mod place;
mod promoting;
mod readers;
mod reading;
mod remapping;
mod start;
mod state;
mod volume;
mod writing;

pub use volume::Volume;
pub use zd_routes::{Edge, Edges};
pub use zd_volume::{Committed, Flight, Job, JobKind, Phase, Place, Ran, Work, Wrote};
