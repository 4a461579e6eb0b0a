//! The lines of entries.

ghost use Rattle.std.specs.Prelude.{◌≡◌, ◌++◌, ◌∷◌, [], string_bytes, OnOk, flat_map};
ghost use Rattle.zd_model.specs.Entries.{answer_of, shown_entry};
ghost use Rattle.zd_model.specs.Report.{entry_text, reply_text};
ghost use Rattle.zd_model.specs.Text.{numeral};
ghost use Rattle.zd_report.specs.Fields.{what_text};

use crate::numbers::{add_field, add_number};
use crate::rows::add_items;
use std::alloc::AllocError;
use zd_plain::{Entry, History, Reply, What, first_sector};

/// Appends the letters of a form, and a first block or sector and a count after them.
fn add_span(text: &mut String, letters: &str, place: u64, count: u32) -> Result<(), AllocError>
    ensures { OnOk result (string_bytes text.new ≡ string_bytes text.old
        ++ (letters.now ++ 32 ∷ (numeral place ++ 32 ∷ (numeral count ++ 32 ∷ [])))) }
{
    text.push_str(letters)?;
    text.push_str(" ")?;
    add_field(text, place)?;
    add_field(text, u64::from(count))
}

/// Appends what was asked for: letters, the place, the count and the seed, a space after each.
fn add_what(text: &mut String, what: What) -> Result<(), AllocError>
    ensures { OnOk result (string_bytes text.new ≡ string_bytes text.old ++ what_text what) }
{
    match what {
        What::Read { block, count } => add_span(text, "r", block, count),
        What::Write { block, count, seed } => {
            add_span(text, "w", block, count)?;
            add_field(text, u64::from(seed))
        }
        What::Discard { block, count } => add_span(text, "d", block, count),
        What::Flush => text.push_str("f "),
        What::ReadSectors { sector, count } => add_span(text, "rs", sector, count),
        What::WriteSectors {
            sector,
            count,
            seed,
        } => {
            add_span(text, "ws", sector, count)?;
            add_field(text, u64::from(seed))
        }
    }
}

/// Appends what was answered.
fn add_reply(text: &mut String, what: What, reply: &Reply) -> Result<(), AllocError>
    ensures { OnOk result (string_bytes text.new
        ≡ string_bytes text.old ++ reply_text what (answer_of reply.now)) }
{
    match reply {
        Reply::Got(bytes) => {
            text.push_str("data ")?;
            add_items(text, first_sector(what), bytes.bytes())
        }
        Reply::Done => text.push_str("done"),
        Reply::Range => text.push_str("range"),
        Reply::Fault => text.push_str("fault"),
    }
}

/// Appends the line of an entry.
fn add_line(text: &mut String, entry: &Entry) -> Result<(), AllocError>
    ensures { OnOk result (string_bytes text.new
        ≡ string_bytes text.old ++ entry_text (shown_entry entry.now)) }
{
    add_field(text, u64::from(entry.caller))?;
    add_field(text, u64::from(entry.request))?;
    add_field(text, u64::from(entry.piece))?;
    add_what(text, entry.what)?;
    add_reply(text, entry.what, &entry.reply)?;
    text.push_str(" @")?;
    add_number(text, entry.at)?;
    text.push_str("\n")
}

/// Appends the lines of all entries.
pub fn add_lines(text: &mut String, history: &History) -> Result<(), AllocError>
    ensures { OnOk result (string_bytes text.new
        ≡ string_bytes text.old ++ flat_map entry_text history.now.items) }
{
    for i in 0..history.len() {
        add_line(text, history.get(i))?;
    }
    Ok(())
}
