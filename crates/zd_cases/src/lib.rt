//! Cases: texts that say what a disk in memory holds, what is run over it, and what must come of
//! it.
//!
//! `docs/CASES.md` says how they are written. A text is read whole by [`parse_cases`];
//! [`Bench::run_text`] also runs its cases one after the other, and tells those that failed.
#![tactic(auto)]

mod asks;
mod bench;
mod builds;
mod fault;
mod lines;
mod places;
mod reading;
mod runs;
mod sets;
mod steps;
mod stops;
mod words;

pub use bench::{Bench, Tally};
pub use fault::{Broken, TextFault, Unread};
pub use reading::{Case, CaseLine, parse_cases};
pub use steps::{Ask, Build, Count, Filling, Order, Sectors, Step, Stop};
