//! Reports: the text that tells a history and how it ended. Summaries: the text that tells how many entries
//! of each kind a history has, in the report's place.
//!
//! A report has a line for each entry, in their order, and a last line for the ending. Each line
//! ends with a line feed; numbers have no leading zeros.
//!
//! # What is proved
//!
//! `text` is the report of a history and its ending, and `told` says that it is no other's.
//! `output_text` is the same for every outcome. `summary` is the summary of a history and its ending, and
//! `summary_output` is the same for every outcome.
#![tactic(auto)]

mod endings;
mod entries;
mod numbers;
mod reports;
mod rows;
mod summaries;
#[cfg(test)]
mod tests;

pub use endings::{ending_line, fixed_line};
pub use reports::{output_text, text};
pub use summaries::{summary, summary_output};
