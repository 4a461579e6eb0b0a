//! Reports and outputs as a whole.

ghost use Rattle.std.specs.Prelude.{◌≡◌, ◌++◌, IfOk, flat_map};
ghost use Rattle.std.specs.List.{AllByRecursion};
ghost use Rattle.zd_model.specs.Report.{IsReported, entry_text, report, run_output};
ghost use Rattle.zd_report.specs.Told.{TellsOnly};

use crate::ending_line;
use crate::endings::add_outcome;
use crate::entries::add_lines;
use std::alloc::{AllocError, Global};
use zd_base::Memory;
use zd_model::{Ending, Outcome};
use zd_plain::History;

/// The lines of the entries, and a last line.
fn with_last(alloc: Global, history: &History, last: &str) -> Result<Vec<u8>, AllocError>
    ensures { IfOk result (λ v. v.items ≡ flat_map entry_text history.now.items ++ last.now) }
{
    let mut text = String::new(alloc);
    add_lines(&mut text, history)?;
    text.push_str(last)?;
    Ok(text.into_bytes())
}

/// The report of a history and its ending. It tells both: each `Got` stands with a read and has the
/// bytes of its sectors, and no other such history has the same report, nor another ending.
///
/// `Memory` where none is found for it.
#[tactic(auto, unfolding(zd_model::specs::Report::report))]
pub fn text(alloc: Global, history: &History, ending: &Ending) -> Result<Vec<u8>, Memory>
    requires reported { AllByRecursion IsReported history.now.items }
    ensures value { IfOk result (λ v. v.items ≡ report history.now.items ending.now) }
    ensures told { IfOk result (λ v. TellsOnly v.items history.now.items ending.now) }
{
    with_last(alloc, history, ending_line(*ending)).map_err(|_| Memory)
}

/// The lines of the entries, and that of the outcome.
#[tactic(auto, unfolding(zd_model::specs::Report::run_output))]
fn with_outcome(alloc: Global, history: &History, outcome: &Outcome) -> Result<Vec<u8>, AllocError>
    ensures { IfOk result (λ v. v.items ≡ run_output history.now.items outcome.now) }
{
    let mut text = String::new(alloc);
    add_lines(&mut text, history)?;
    add_outcome(&mut text, outcome)?;
    Ok(text.into_bytes())
}

/// All that a run prints: the lines of the entries, then that of its outcome. Where a session
/// ended, that is the report.
///
/// `Memory` where none is found for it.
pub fn output_text(alloc: Global, history: &History, outcome: &Outcome) -> Result<Vec<u8>, Memory>
    ensures { IfOk result (λ v. v.items ≡ run_output history.now.items outcome.now) }
{
    with_outcome(alloc, history, outcome).map_err(|_| Memory)
}
