//! The words of a line.

use crate::fault::Unread;
use crate::steps::{Count, Filling, Sectors};
use std::alloc::Global;
use uuid::Uuid;
use zd_base::{Geometry, ZoneNo};
use zd_memdisk::{Choices, DeviceCall, Fail};

/// A number of 64 bits.
pub fn long(word: &str) -> Result<u64, Unread> {
    word.parse::<u64>().ok().ok_or(Unread::Number)
}

/// A number of 32 bits.
pub fn short(word: &str) -> Result<u32, Unread> {
    word.parse::<u32>().ok().ok_or(Unread::Number)
}

/// A number of 8 bits.
pub fn byte(word: &str) -> Result<u8, Unread> {
    word.parse::<u8>().ok().ok_or(Unread::Number)
}

/// A number of bytes.
pub fn size(word: &str) -> Result<usize, Unread> {
    word.parse::<usize>().ok().ok_or(Unread::Number)
}

/// Bytes in hexadecimal digits.
pub fn hexadecimal(alloc: Global, word: &str) -> Result<Vec<u8>, Unread> {
    hex::decode(alloc, word).ok().ok_or(Unread::Number)
}

/// An identifier.
pub fn identifier(word: &str) -> Result<Uuid, Unread> {
    Uuid::try_parse(word).ok().ok_or(Unread::Number)
}

/// Three numbers as the geometry of a disk.
pub fn geometry_of(blocks: &str, conv: &str, seq: &str) -> Result<Geometry, Unread> {
    let (blocks, conv, seq) = (short(blocks)?, short(conv)?, short(seq)?);
    Geometry::new(blocks, conv, seq).ok().ok_or(Unread::Number)
}

/// A zone's number as it stands in a map; `none` is the number that stands for none.
pub fn zone_or_none(word: &str) -> Result<u32, Unread> {
    if word == "none" {
        return Ok(u32::MAX);
    }
    short(word)
}

/// A number of calls, counted from the end of opening behind a `+`.
pub fn call_count(word: &str) -> Result<Count, Unread> {
    match word.strip_prefix('+') {
        Some(number) => Ok(Count {
            opened: true,
            number: long(number)?,
        }),
        None => Ok(Count {
            opened: false,
            number: long(word)?,
        }),
    }
}

fn filling_words(words: &[&str]) -> Result<Filling, Unread> {
    match words {
        ["zeros"] => Ok(Filling::Full(0)),
        ["full", value] => Ok(Filling::Full(byte(value)?)),
        ["pattern", seed, first] => Ok(Filling::Pattern {
            seed: short(seed)?,
            first: long(first)?,
        }),
        _ => Err(Unread::Form),
    }
}

/// A zone, a sector, a number of sectors, and what stands in them.
pub fn sector_words(words: &[&str]) -> Result<Sectors, Unread> {
    match words {
        [zone, start, count, what @ ..] => Ok(Sectors {
            zone: short(zone)?,
            start: short(start)?,
            count: short(count)?,
            filling: filling_words(what)?,
        }),
        _ => Err(Unread::Form),
    }
}

fn device_call(word: &str) -> Result<DeviceCall, Unread> {
    match word {
        "geometry" => Ok(DeviceCall::Geometry),
        "report" => Ok(DeviceCall::Report),
        "read" => Ok(DeviceCall::Read),
        "write" => Ok(DeviceCall::Write),
        "reset" => Ok(DeviceCall::Reset),
        "flush" => Ok(DeviceCall::Flush),
        _ => Err(Unread::Form),
    }
}

/// A call of a disk that fails: its kind, its zone or `any`, and its number.
pub fn failing(call: &str, zone: &str, nth: &str) -> Result<Fail, Unread> {
    let call = device_call(call)?;
    let zone = match zone {
        "any" => None,
        zone => Some(ZoneNo(short(zone)?)),
    };
    let nth = long(nth)?;
    Ok(Fail { call, zone, nth })
}

fn newest(word: &str) -> Result<bool, Unread> {
    match word {
        "newest" => Ok(true),
        "flushed" => Ok(false),
        _ => Err(Unread::Form),
    }
}

/// What a stop leaves: `newest` or `flushed`, and any number of `conv ZONE SECTOR VALUE` and
/// `seq ZONE EVENTS`.
pub fn choice_words(alloc: Global, first: &str, words: &[&str]) -> Result<Choices, Unread> {
    let newest = newest(first)?;
    let mut conv = Vec::new(alloc);
    let mut seq = Vec::new(alloc);
    let mut left = words;
    for _ in 0..words.len() {
        left = match left {
            [] => break,
            ["conv", zone, sector, value, rest @ ..] => {
                conv.push((ZoneNo(short(zone)?), short(sector)?, long(value)?))?;
                rest
            }
            ["seq", zone, events, rest @ ..] => {
                seq.push((ZoneNo(short(zone)?), long(events)?))?;
                rest
            }
            _ => return Err(Unread::Form),
        };
    }
    Ok(Choices { newest, conv, seq })
}
