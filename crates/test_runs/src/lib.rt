//! Runs and calls that no text of a case can say: over files, with sources and sinks of their own, very long
//! scripts, and what crates answer to a caller.
//!
//! Tests alone stand here, above all the crates that they run through. In their texts `;` is the line
//! feed byte. What a text can say is a case: `docs/CASES.md`.
#![tactic(auto)]

#[cfg(test)]
mod failures;
#[cfg(test)]
mod image_file;
#[cfg(test)]
mod opening;
#[cfg(test)]
mod reads;
#[cfg(test)]
mod refusals;
#[cfg(test)]
mod run;
#[cfg(test)]
mod values;
#[cfg(test)]
mod wide;
