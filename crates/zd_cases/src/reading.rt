//! Cases read from their text.

use crate::fault::{TextFault, Unread};
use crate::steps::{Ask, Build, Count, Order, Step, Stop};
use crate::words::{
    byte, call_count, choice_words, failing, geometry_of, hexadecimal, identifier, long,
    sector_words, short, size, zone_or_none,
};
use std::alloc::{AllocError, Global};
use zd_base::ZoneNo;

/// A line of a case: where it stands in its text, counted from 1, and what it asks for.
#[derive(Drop)]
pub struct CaseLine {
    /// Its number.
    pub number: u32,
    /// What it asks for.
    pub step: Step,
}

/// A case: its name and its lines.
#[derive(Drop)]
pub struct Case {
    /// The rest of the line with which it begins.
    pub name: String,
    /// The lines after that one.
    pub lines: Vec<CaseLine>,
}

fn read_build(alloc: Global, word: &str, fields: &[&str]) -> Result<Option<Build>, Unread> {
    let build = match (word, fields) {
        ("disk", [blocks, conv, seq]) => Build::Blank(geometry_of(blocks, conv, seq)?),
        ("format", [reserved, volume]) => Build::Format {
            reserved: short(reserved)?,
            volume: identifier(volume)?,
        },
        ("put", fields) => Build::Put(sector_words(fields)?),
        ("bytes", [zone, block, offset, bytes]) => Build::Bytes {
            zone: short(zone)?,
            block: short(block)?,
            offset: size(offset)?,
            bytes: hexadecimal(alloc, bytes)?,
        },
        ("field", [zone, offset, bytes]) => Build::Field {
            zone: short(zone)?,
            offset: size(offset)?,
            bytes: hexadecimal(alloc, bytes)?,
        },
        ("entry", [chunk, zone, buffer]) => Build::Entry {
            chunk: short(chunk)?,
            zone: zone_or_none(zone)?,
            buffer: zone_or_none(buffer)?,
        },
        ("bits", [zone, bytes]) => Build::Bits {
            zone: short(zone)?,
            bytes: hexadecimal(alloc, bytes)?,
        },
        ("flush", []) => Build::Flush,
        _ => return Ok(None),
    };
    Ok(Some(build))
}

fn owned_words(alloc: Global, words: &[&str]) -> Result<Vec<String>, AllocError> {
    let mut owned = Vec::new(alloc);
    for word in words {
        owned.push(String::from_str(alloc, word)?)?;
    }
    Ok(owned)
}

fn read_order(alloc: Global, word: &str, fields: &[&str]) -> Result<Option<Order>, Unread> {
    let order = match (word, fields) {
        ("fail", ["source", nth]) => Order::FailSource(long(nth)?),
        ("fail", ["sink", nth]) => Order::FailSink(long(nth)?),
        ("fail", [call, zone, nth]) => Order::FailCall(failing(call, zone, nth)?),
        ("gives", [most]) => Order::Gives(size(most)?),
        ("words", words) => Order::Words(owned_words(alloc, words)?),
        _ => return Ok(None),
    };
    Ok(Some(order))
}

fn read_ask(alloc: Global, word: &str, rest: &str, fields: &[&str]) -> Result<Option<Ask>, Unread> {
    let ask = match (word, fields) {
        ("prints", _) => Ask::Prints(String::from_str(alloc, rest)?),
        ("silent", [status]) => Ask::Silent(byte(status)?),
        ("calls", [number]) => Ask::Calls(call_count(number)?),
        ("reads", [number]) => Ask::Reads(call_count(number)?),
        ("pointer", [zone, pointer]) => Ask::Pointer(ZoneNo(short(zone)?), short(pointer)?),
        ("holds", fields) => Ask::Holds(sector_words(fields)?),
        ("equal", [generation]) => Ask::Equal(long(generation)?),
        ("same", _) => Ask::Same(String::from_str(alloc, rest)?),
        ("unchanged", []) => Ask::Unchanged,
        _ => return Ok(None),
    };
    Ok(Some(ask))
}

fn read_other(alloc: Global, word: &str, rest: &str, fields: &[&str]) -> Result<Step, Unread> {
    match (word, fields) {
        ("on", _) => Ok(Step::On(String::from_str(alloc, rest)?)),
        ("keep", _) => Ok(Step::Keep(String::from_str(alloc, rest)?)),
        ("run", _) => Ok(Step::Run(String::from_str(alloc, rest)?)),
        ("admin", words) => Ok(Step::Admin(owned_words(alloc, words)?)),
        ("stop", [at, first, items @ ..]) => Ok(Step::Stop(Stop {
            at: call_count(at)?,
            choices: choice_words(alloc, first, items)?,
        })),
        ("back", []) => Ok(Step::Back),
        _ => Err(Unread::Form),
    }
}

/// The words of a text with one space between two; none of an empty text.
fn fields<'a>(alloc: Global, text: &'a str) -> Result<Vec<&'a str>, AllocError> {
    if text.is_empty() {
        return Ok(Vec::new(alloc));
    }
    text.split(' ').collect(alloc)
}

fn read_step(alloc: Global, word: &str, rest: &str) -> Result<Step, Unread> {
    let fields = fields(alloc, rest)?;
    if let Some(build) = read_build(alloc, word, &fields)? {
        return Ok(Step::Build(build));
    }
    if let Some(order) = read_order(alloc, word, &fields)? {
        return Ok(Step::Order(order));
    }
    if let Some(ask) = read_ask(alloc, word, rest, &fields)? {
        return Ok(Step::Ask(ask));
    }
    read_other(alloc, word, rest, &fields)
}

/// The lines for which `refused WHY` stands: a read is refused so, after one flush, and nothing
/// changes.
fn refusal(alloc: Global, why: &str) -> Result<[Step; 4], Unread> {
    let once = Count {
        opened: false,
        number: 1,
    };
    Ok([
        Step::Run(String::from_str(alloc, "r 0 0 1;")?),
        Step::Ask(Ask::Prints(format!(in alloc; "end 3 volume {why};")?)),
        Step::Ask(Ask::Calls(once)),
        Step::Ask(Ask::Unchanged),
    ])
}

fn read_into(
    alloc: Global,
    case: &mut Case,
    number: u32,
    word: &str,
    rest: &str,
) -> Result<(), Unread> {
    if word != "refused" {
        let step = read_step(alloc, word, rest)?;
        case.lines.push(CaseLine { number, step })?;
        return Ok(());
    }
    for step in refusal(alloc, rest)? {
        case.lines.push(CaseLine { number, step })?;
    }
    Ok(())
}

fn read_line(alloc: Global, cases: &mut Vec<Case>, number: u32, line: &str) -> Result<(), Unread> {
    if line.is_empty() || line.starts_with('#') {
        return Ok(());
    }
    let (word, rest) = line.split_once(' ').unwrap_or((line, ""));
    if word == "case" {
        let name = String::from_str(alloc, rest)?;
        let lines = Vec::new(alloc);
        cases.push(Case { name, lines })?;
        return Ok(());
    }
    match cases.last_mut() {
        Some(case) => read_into(alloc, case, number, word, rest),
        None => Err(Unread::NoCase),
    }
}

/// The cases of a text; else its first line that is wrong.
pub fn parse_cases(alloc: Global, text: &str) -> Result<Vec<Case>, TextFault> {
    let mut cases = Vec::new(alloc);
    let mut number = 0u32;
    for line in text.lines() {
        number = number.saturating_add(1);
        if let Err(why) = read_line(alloc, &mut cases, number, line) {
            return Err(TextFault { line: number, why });
        }
    }
    Ok(cases)
}
