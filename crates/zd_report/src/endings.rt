//! The last line of a report.

ghost use Rattle.std.specs.Prelude.{◌≡◌, ◌++◌, OnOk, string_bytes};
ghost use Rattle.zd_model.specs.Report.{ending_text, outcome_text, why_text};
ghost use Rattle.zd_report.specs.Fixed.{IsFixedLine};

use crate::numbers::{add_field, add_number};
use std::alloc::AllocError;
use zd_base::Why;
use zd_model::{BadLine, Ending, NoVolume, Outcome};

/// The last line of a session's report, with its line feed.
pub fn ending_line(ending: Ending) -> &'static str
    ensures { result.now ≡ ending_text ending }
{
    match ending {
        Ending::Ok => "end 0 ok\n",
        Ending::Stopped(Why::Device) => "end 4 device\n",
        Ending::Stopped(Why::Memory) => "end 7 memory\n",
        Ending::Stopped(Why::Generation) => "end 8 generation\n",
    }
}

/// The last line of a run's output, with its line feed, where it tells no line of a script, no chunk and no
/// block. It takes no memory.
pub fn fixed_line(outcome: &Outcome) -> &'static str
    requires { IsFixedLine outcome.now }
    ensures { result.now ≡ outcome_text outcome.now }
{
    match outcome {
        Outcome::Ended(ending) => ending_line(*ending),
        Outcome::Usage => "end 1 usage\n",
        Outcome::BadScript { .. }
        | Outcome::NoVolume(NoVolume::BadMap { .. } | NoVolume::BadBits { .. }) => unreachable!(),
        Outcome::NoVolume(NoVolume::NoSuperBlock) => "end 3 volume no-super-block\n",
        Outcome::NoVolume(NoVolume::Layout) => "end 3 volume layout\n",
        Outcome::Source => "end 5 source\n",
        Outcome::NotBuilt => "end 11 not-built\n",
    }
}

/// The rule that a line of a script breaks.
fn rule(why: BadLine) -> &'static str
    ensures { result.now ≡ why_text why }
{
    match why {
        BadLine::Form => "form",
        BadLine::Number => "number",
        BadLine::Caller => "caller",
        BadLine::TooLong => "long",
    }
}

/// Appends the line of a script that is refused.
fn add_refusal(text: &mut String, line: u32, why: BadLine) -> Result<(), AllocError>
    ensures { OnOk result (string_bytes text.new
        ≡ string_bytes text.old ++ outcome_text (Outcome.BadScript line why)) }
{
    text.push_str("end 2 script ")?;
    add_field(text, u64::from(line))?;
    text.push_str(rule(why))?;
    text.push_str("\n")?;
    Ok(())
}

/// Appends that the entry of a chunk breaks a rule of the map.
fn add_bad_map(text: &mut String, chunk: u32) -> Result<(), AllocError>
    ensures { OnOk result (string_bytes text.new
        ≡ string_bytes text.old ++ outcome_text (Outcome.NoVolume (NoVolume.BadMap chunk))) }
{
    text.push_str("end 3 volume map ")?;
    add_number(text, u64::from(chunk))?;
    text.push_str("\n")?;
    Ok(())
}

/// Appends that the bit of a block of a zone is set against a rule.
fn add_bad_bits(text: &mut String, zone: u32, block: u32) -> Result<(), AllocError>
    ensures { OnOk result (string_bytes text.new
        ≡ string_bytes text.old ++ outcome_text (Outcome.NoVolume (NoVolume.BadBits zone block))) }
{
    text.push_str("end 3 volume bits ")?;
    add_field(text, u64::from(zone))?;
    add_number(text, u64::from(block))?;
    text.push_str("\n")?;
    Ok(())
}

/// Appends the last line of a run's output.
pub fn add_outcome(text: &mut String, outcome: &Outcome) -> Result<(), AllocError>
    ensures { OnOk result (string_bytes text.new ≡ string_bytes text.old ++ outcome_text outcome.now) }
{
    match outcome {
        Outcome::BadScript { line, why } => add_refusal(text, *line, *why),
        Outcome::NoVolume(NoVolume::BadMap { chunk }) => add_bad_map(text, chunk.0),
        Outcome::NoVolume(NoVolume::BadBits { zone, block }) => {
            add_bad_bits(text, zone.0, *block)
        }
        _ => text.push_str(fixed_line(outcome)),
    }
}
