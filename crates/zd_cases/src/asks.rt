//! What must be so.

use crate::bench::Kept;
use crate::fault::Broken;
use crate::lines::{differs, ending_status, same_lines, same_number};
use crate::places::{copy, copy_at, end_of_zone, first_other_zone, hold};
use crate::runs::Told;
use crate::sets::expect_equal;
use crate::steps::{Ask, Count, Sectors};
use crate::stops::{from_start, opening_calls};
use std::alloc::Global;
use zd_base::ZoneNo;
use zd_memdisk::MemDisk;

fn expect_status(alloc: Global, told: &Told, status: u8) -> Result<(), Broken> {
    same_number(alloc, "status", u64::from(status), u64::from(told.status.0))
}

fn expect_reads(alloc: Global, disk: &MemDisk, told: &Told, count: Count) -> Result<(), Broken> {
    let mut wanted = count.number;
    if count.opened {
        let (_, reads) = opening_calls(alloc, disk, told)?;
        wanted = wanted.saturating_add(reads);
    }
    same_number(alloc, "reads", wanted, told.reads)
}

fn expect_pointer(alloc: Global, disk: &MemDisk, zone: ZoneNo, pointer: u32) -> Result<(), Broken> {
    let got = end_of_zone(&mut copy(alloc, disk)?, zone.0)?;
    same_number(alloc, "pointer", u64::from(pointer), u64::from(got))
}

fn expect_held(alloc: Global, disk: &MemDisk, sectors: &Sectors) -> Result<(), Broken> {
    let mut disk = copy(alloc, disk)?;
    if hold(alloc, &mut disk, sectors)? {
        return Ok(());
    }
    differs(alloc, "these sectors", "others")
}

/// Asks that two disks hold the same.
fn expect_same(alloc: Global, disk: &MemDisk, mut other: MemDisk) -> Result<(), Broken> {
    let mut disk = copy(alloc, disk)?;
    match first_other_zone(alloc, &mut disk, &mut other)? {
        None => Ok(()),
        Some(zone) => Err(Broken::Differs {
            wanted: String::from_str(alloc, "equal disks")?,
            got: format!(in alloc; "zone {zone} differs")?,
        }),
    }
}

/// Asks for something of the disk and of the last run.
pub fn expect(
    alloc: Global,
    disk: &MemDisk,
    told: &Told,
    kept: &[Kept],
    asked: &Ask,
) -> Result<(), Broken> {
    match asked {
        Ask::Prints(text) => {
            same_lines(alloc, text.as_str(), &told.output)?;
            expect_status(alloc, told, ending_status(text.as_str()))
        }
        Ask::Silent(status) => {
            same_lines(alloc, "", &told.output)?;
            expect_status(alloc, told, *status)
        }
        Ask::Calls(count) => {
            let wanted = from_start(alloc, disk, told, *count)?;
            same_number(alloc, "calls", wanted, told.calls)
        }
        Ask::Reads(count) => expect_reads(alloc, disk, told, *count),
        Ask::Pointer(zone, pointer) => expect_pointer(alloc, disk, *zone, *pointer),
        Ask::Holds(sectors) => expect_held(alloc, disk, sectors),
        Ask::Equal(generation) => expect_equal(alloc, &mut copy(alloc, disk)?, *generation),
        Ask::Same(name) => expect_same(alloc, disk, kept_copy(alloc, kept, name.as_str())?),
        Ask::Unchanged => expect_same(alloc, disk, copy_at(alloc, disk, told.before)?),
    }
}

/// A copy of the image of this name.
pub fn kept_copy(alloc: Global, kept: &[Kept], name: &str) -> Result<MemDisk, Broken> {
    for image in kept {
        if image.name.as_str() == name {
            return copy(alloc, &image.disk);
        }
    }
    Err(Broken::NoImage)
}
