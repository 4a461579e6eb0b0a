//! Runs by threads, held at gates: that actors work at the same time, and that the turn is let go between two steps
//! of a request, of a commit and of a job. No clause says that.
//!
//! Tests alone stand here. In their texts `;` is the line feed byte. A gate gives up after a fixed number of turns,
//! and the test then fails.
#![tactic(auto)]

#[cfg(test)]
mod gates;
#[cfg(test)]
mod rows;
