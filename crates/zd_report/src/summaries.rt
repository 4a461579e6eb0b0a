//! Summaries: how many entries of each kind a history has.

ghost use Rattle.std.specs.Prelude.{◌≡◌, ◌++◌, IfOk, OnOk, string_bytes};
ghost use Rattle.zd_model.specs.Entries.{shown_entry};
ghost use Rattle.zd_report.specs.Counting.{AreCounts, CanCount, CountsEntry};
ghost use Rattle.zd_report.specs.Summary.{count_line, counts_text, run_summary, summary};

#[cfg(test)]
mod tests;

use crate::endings::add_outcome;
use crate::numbers::add_number;
use std::alloc::{AllocError, Global};
use zd_base::Memory;
use zd_model::{Ending, Entry, Outcome, Reply, What};
use zd_plain::History;

/// How many entries there are of each operation, with any reply, and how many entries failed.
#[derive(Clone, Copy)]
struct EntryCounts {
    reads: u64,
    writes: u64,
    discards: u64,
    flushes: u64,
    faults: u64,
}

impl EntryCounts {
    /// Those of no entries.
    const NONE: EntryCounts = EntryCounts {
        reads: 0,
        writes: 0,
        discards: 0,
        flushes: 0,
        faults: 0,
    };

    /// Counts one more entry.
    fn add(&mut self, entry: &Entry)
        requires { CanCount self.old }
        ensures { CountsEntry (shown_entry entry.now) self.old self.new }
    {
        match entry.what {
            What::Read { .. } | What::ReadSectors { .. } => self.reads += 1,
            What::Write { .. } | What::WriteSectors { .. } => self.writes += 1,
            What::Discard { .. } => self.discards += 1,
            What::Flush => self.flushes += 1,
        }
        if matches!(entry.reply, Reply::Fault) {
            self.faults += 1;
        }
    }
}

/// Counts the entries of a history.
fn counts_of(history: &History) -> EntryCounts
    ensures { AreCounts history.now.items result }
{
    let mut counts = EntryCounts::NONE;
    for i in 0..history.len() {
        counts.add(history.get(i));
    }
    counts
}

/// Appends a line with a word and a number.
fn add_count(text: &mut String, word: &str, count: u64) -> Result<(), AllocError>
    ensures { OnOk result (string_bytes text.new ≡ string_bytes text.old ++ count_line word.now count) }
{
    text.push_str(word)?;
    text.push_str(" ")?;
    add_number(text, count)?;
    text.push_str("\n")
}

/// The lines of the counts.
fn with_counts(alloc: Global, history: &History, made: u32) -> Result<String, AllocError>
    ensures { IfOk result (λ text. string_bytes text ≡ counts_text history.now.items made) }
{
    let counts = counts_of(history);
    let mut text = String::new(alloc);
    add_count(&mut text, "made", u64::from(made))?;
    add_count(&mut text, "read", counts.reads)?;
    add_count(&mut text, "write", counts.writes)?;
    add_count(&mut text, "discard", counts.discards)?;
    add_count(&mut text, "flush", counts.flushes)?;
    add_count(&mut text, "fault", counts.faults)?;
    Ok(text)
}

/// The lines of the counts, and that of the outcome.
fn with_run(
    alloc: Global,
    history: &History,
    made: u32,
    outcome: &Outcome,
) -> Result<Vec<u8>, AllocError>
    ensures { IfOk result (λ v. v.items ≡ run_summary history.now.items made outcome.now) }
{
    let mut text = with_counts(alloc, history, made)?;
    add_outcome(&mut text, outcome)?;
    Ok(text.into_bytes())
}

/// All that a run prints whose requests were made: the lines of the counts, then that of its outcome. Where
/// a session ended, that is the summary.
///
/// `Memory` where none is found for it.
pub fn summary_output(
    alloc: Global,
    history: &History,
    made: u32,
    outcome: &Outcome,
) -> Result<Vec<u8>, Memory>
    ensures { IfOk result (λ v. v.items ≡ run_summary history.now.items made outcome.now) }
{
    with_run(alloc, history, made, outcome).map_err(|_| Memory)
}

/// The summary of a history and its ending, where so many requests were made. After the number of requests
/// it tells how many entries there are of each operation, with any reply, and how many of all failed.
///
/// `Memory` where none is found for it.
pub fn summary(
    alloc: Global,
    history: &History,
    made: u32,
    ending: &Ending,
) -> Result<Vec<u8>, Memory>
    ensures { IfOk result (λ v. v.items ≡ summary history.now.items made ending.now) }
{
    summary_output(alloc, history, made, &Outcome::Ended(*ending))
}
