//! The items of a read: its sectors in rows.

ghost use Rattle.std.specs.Prelude.{◌≡◌, ◌<◌, ◌≤◌, ◌+◌, ◌*◌, ◌^◌, ◌++◌, string_bytes, OnOk, IfOk};
ghost use Rattle.std.specs.Prelude.{length, slice_range};
ghost use Rattle.std.specs.Str.{bytes_eq};
ghost use Rattle.zd_model.specs.Bytes.{u32_at, zero_sector};
ghost use Rattle.zd_model.specs.Plain.{pattern};
ghost use Rattle.zd_model.specs.Report.{row_of, row_text, items_text};
ghost use Rattle.zd_report.specs.Rows.{is_joined, row_with, row_told, IsOwed};

use crate::numbers::{add_hex, add_number};
use std::alloc::AllocError;
use zd_base::SECTOR;
use zd_plain::pattern;

/// A sector of zeros.
const ZEROS: [u8; SECTOR] = [0; SECTOR];

/// Where the seed of a sector's pattern stands: it is the upper half of the first word.
const SEED: usize = 4;

/// What a sector is told as.
#[derive(Clone, Copy)]
enum Kind<'a> {
    Zeros,
    /// The pattern of a seed.
    Pattern(u32),
    /// Any other bytes. They stand by themselves.
    Other(&'a [u8]),
}

/// Neighbouring sectors of one kind.
#[derive(Clone, Copy)]
struct Row<'a> {
    kind: Kind<'a>,
    /// How many sectors.
    count: u64,
}

/// Whether all bytes of a sector are zero.
#[tactic(auto, unfolding(zd_model::specs::Bytes::zero_sector))]
fn is_zeros(sector: &[u8]) -> bool
    requires { length sector.now ≡ 512 }
    ensures { result ≡ bytes_eq sector.now zero_sector }
{
    sector == ZEROS.as_slice()
}

/// The seed whose pattern a sector may have.
#[tactic(auto, unfolding(zd_model::specs::Bytes::u32_at))]
fn seed_of(sector: &[u8]) -> u32
    requires { length sector.now ≡ 512 }
    ensures { result ≡ u32_at sector.now 4 }
{
    let mut bytes = [0; 4];
    bytes.copy_from_slice(&sector[SEED..SEED + 4]);
    u32::from_le_bytes(bytes)
}

/// Whether a sector has its pattern under a seed.
fn is_pattern(seed: u32, number: u64, sector: &[u8]) -> bool
    requires { length sector.now ≡ 512 }
    ensures { result ≡ bytes_eq sector.now (pattern seed number) }
{
    let mut wanted = [0; SECTOR];
    pattern(seed, number, &mut wanted);
    sector == wanted.as_slice()
}

/// The kind of a sector that has this number on the logical device.
fn kind_of<'a>(number: u64, sector: &'a [u8]) -> Kind<'a>
    requires { length sector.now ≡ 512 }
    ensures { row_with result 1 ≡ row_of (number, sector.now) }
{
    if is_zeros(sector) {
        return Kind::Zeros;
    }
    let seed = seed_of(sector);
    if is_pattern(seed, number, sector) {
        return Kind::Pattern(seed);
    }
    Kind::Other(sector)
}

/// The kind of sector i of the bytes that were read from a sector on.
///
/// Patterns are the same again after 2^26 sectors, so the number may wrap.
fn kind_at<'a>(first: u128, i: usize, bytes: &'a [u8]) -> Kind<'a>
    requires { 512 * i + 512 ≤ length bytes.now }
    ensures { row_with result 1
        ≡ row_of (first + i, slice_range bytes.now (512 * i) (512 * i + 512)) }
{
    let number = ((first % (1 << 64)) as u64).wrapping_add(i as u64);
    kind_of(number, &bytes[SECTOR * i..SECTOR * i + SECTOR])
}

/// Whether a row of one kind goes on with a sector of the next.
fn goes_on(kind: Kind, next: Kind) -> bool
    ensures { result ≡ is_joined kind.entry next.entry }
{
    match (kind, next) {
        (Kind::Zeros, Kind::Zeros) => true,
        (Kind::Pattern(seed), Kind::Pattern(other)) => seed == other,
        _ => false,
    }
}

/// Appends a row.
fn add_row(text: &mut String, row: Row) -> Result<(), AllocError>
    ensures { OnOk result (string_bytes text.new
        ≡ string_bytes text.old ++ row_text (row_told row.entry)) }
{
    match row.kind {
        Kind::Zeros => {
            text.push_str("z")?;
            add_number(text, row.count)
        }
        Kind::Pattern(seed) => {
            text.push_str("p")?;
            add_number(text, u64::from(seed))?;
            text.push_str("x")?;
            add_number(text, row.count)
        }
        Kind::Other(sector) => {
            text.push_str("h")?;
            add_hex(text, sector)
        }
    }
}

/// The row that ends with the next sector. Where the row so far doesn't go on, it is appended.
fn row_after<'a>(text: &mut String, row: Row<'a>, next: Kind<'a>) -> Result<Row<'a>, AllocError>
    requires { row.count + 1 < 2 ^ 64 }
    ensures owed { IfOk result (λ last. IsOwed (string_bytes text.old) (row_told row.entry)
        (row_with next.entry 1) (string_bytes text.new) (row_told last)) }
    ensures count { IfOk result (λ last. last.count ≤ row.entry.count + 1) }
{
    if goes_on(row.kind, next) {
        return Ok(Row {
            kind: row.kind,
            count: row.count + 1,
        });
    }
    add_row(text, row)?;
    text.push_str(",")?;
    Ok(Row {
        kind: next,
        count: 1,
    })
}

/// Appends the items of the bytes that were read from a sector on, in whole sectors.
pub fn add_items(text: &mut String, first: u128, bytes: &[u8]) -> Result<(), AllocError>
    ensures { OnOk result (string_bytes text.new
        ≡ string_bytes text.old ++ items_text first bytes.now) }
{
    let sectors = bytes.len() / SECTOR;
    if sectors == 0 {
        return Ok(());
    }
    let mut row = Row {
        kind: kind_at(first, 0, bytes),
        count: 1,
    };
    for i in 1..sectors {
        row = row_after(text, row, kind_at(first, i, bytes))?;
    }
    add_row(text, row)
}
