//! Where scripts come from, where reports go, and what goes on step by step between the two.
//!
//! # What is proved
//!
//! `MemSource` and `MemSink` give and take exactly their bytes, and fail exactly where listed
//! (the sink else only past its room). `StdSource` and `StdSink` pass on what std tells.
//! `write_all` hands out all bytes, or fails with a prefix of them taken (`Takes`), and only
//! where the sink failed. `is_option` tells whether a word begins with a minus and isn't a minus
//! alone.
#![tactic(auto)]

mod faults;
mod gate;
mod mem_sink;
mod mem_source;
mod no_source;
mod paths;
mod sink;
mod source;
mod std_ports;
mod stepper;
#[cfg(test)]
mod tests;
mod words;
mod writing;

pub use gate::{FreeGate, Gate};
pub use mem_sink::MemSink;
pub use mem_source::MemSource;
pub use no_source::NoSource;
pub use paths::Paths;
pub use sink::Sink;
pub use source::Source;
pub use std_ports::{StdSink, StdSource};
pub use stepper::Stepper;
pub use words::is_option;
pub use writing::write_all;
pub use zd_base::{Failed, Memory};
