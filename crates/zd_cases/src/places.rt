//! Sectors of a disk in memory, written and read wherever they are.

use crate::fault::Broken;
use crate::steps::{Filling, Sectors};
use std::alloc::{AllocError, Global};
use zd_base::{BLOCK, SECTOR, ZoneNo};
use zd_disk::ZonedDisk;
use zd_memdisk::{Choices, MemDisk};
use zd_plain::pattern;

/// Writes sectors by one call, in a sequential zone at its pointer.
pub fn write_sectors(
    disk: &mut MemDisk,
    zone: u32,
    start: u32,
    bytes: &[u8],
) -> Result<(), Broken> {
    let Ok(geometry) = disk.geometry() else {
        return Err(Broken::Device);
    };
    let zone_sectors = 8 * geometry.zone_blocks() as usize;
    if bytes.is_empty() || bytes.len() % SECTOR != 0 || zone >= geometry.zones() {
        return Err(Broken::Place);
    }
    if bytes.len() / SECTOR > zone_sectors || start as usize > zone_sectors - bytes.len() / SECTOR {
        return Err(Broken::Place);
    }
    if zone < geometry.conv() {
        return disk
            .write(ZoneNo(zone), start, bytes)
            .ok()
            .ok_or(Broken::Device);
    }
    let Ok(pointer) = disk.report(ZoneNo(zone)) else {
        return Err(Broken::Device);
    };
    if start != pointer {
        return Err(Broken::Place);
    }
    disk.write(ZoneNo(zone), start, bytes)
        .ok()
        .ok_or(Broken::Device)
}

/// The pointer of a zone, in sectors; a conventional zone ends with its size.
pub fn end_of_zone(disk: &mut MemDisk, zone: u32) -> Result<u32, Broken> {
    let Ok(geometry) = disk.geometry() else {
        return Err(Broken::Device);
    };
    if zone < geometry.conv() {
        return Ok(8 * geometry.zone_blocks());
    }
    if zone >= geometry.zones() {
        return Err(Broken::Place);
    }
    disk.report(ZoneNo(zone)).ok().ok_or(Broken::Device)
}

/// Reads sectors by one call.
fn read_into(disk: &mut MemDisk, zone: u32, start: u32, into: &mut [u8]) -> Result<(), Broken> {
    let Ok(geometry) = disk.geometry() else {
        return Err(Broken::Device);
    };
    let zone_sectors = 8 * geometry.zone_blocks() as usize;
    if into.is_empty() || into.len() % SECTOR != 0 || zone >= geometry.zones() {
        return Err(Broken::Place);
    }
    if into.len() / SECTOR > zone_sectors || start as usize > zone_sectors - into.len() / SECTOR {
        return Err(Broken::Place);
    }
    if zone < geometry.conv() {
        return disk
            .read(ZoneNo(zone), start, into)
            .ok()
            .ok_or(Broken::Device);
    }
    let Ok(pointer) = disk.report(ZoneNo(zone)) else {
        return Err(Broken::Device);
    };
    if start as usize + into.len() / SECTOR > pointer as usize {
        return Err(Broken::Place);
    }
    disk.read(ZoneNo(zone), start, into)
        .ok()
        .ok_or(Broken::Device)
}

/// So many sectors, read by one call.
pub fn read_sectors(
    alloc: Global,
    disk: &mut MemDisk,
    zone: u32,
    start: u32,
    count: u32,
) -> Result<Vec<u8>, Broken> {
    let mut bytes = vec![in alloc; 0; SECTOR * count as usize]?;
    read_into(disk, zone, start, &mut bytes)?;
    Ok(bytes)
}

/// The bytes of so many sectors.
fn filled(alloc: Global, count: u32, filling: &Filling) -> Result<Vec<u8>, AllocError> {
    let mut bytes = Vec::new(alloc);
    for i in 0..count {
        let mut sector = [0; SECTOR];
        match filling {
            Filling::Full(value) => sector = [*value; SECTOR],
            Filling::Pattern { seed, first } => {
                pattern(*seed, first.wrapping_add(u64::from(i)), &mut sector);
            }
        }
        bytes.extend_from_slice(&sector)?;
    }
    Ok(bytes)
}

/// Writes sectors with what is to stand in them.
pub fn put(alloc: Global, disk: &mut MemDisk, sectors: &Sectors) -> Result<(), Broken> {
    let bytes = filled(alloc, sectors.count, &sectors.filling)?;
    write_sectors(disk, sectors.zone, sectors.start, &bytes)
}

/// Whether sectors have what is to stand in them.
pub fn hold(alloc: Global, disk: &mut MemDisk, sectors: &Sectors) -> Result<bool, Broken> {
    let wanted = filled(alloc, sectors.count, &sectors.filling)?;
    let got = read_sectors(alloc, disk, sectors.zone, sectors.start, sectors.count)?;
    Ok(wanted == got)
}

/// Changes bytes of a block of a conventional zone.
pub fn change_bytes(
    alloc: Global,
    disk: &mut MemDisk,
    zone: u32,
    block: u32,
    offset: usize,
    bytes: &[u8],
) -> Result<(), Broken> {
    let Some(start) = block.checked_mul(8) else {
        return Err(Broken::Place);
    };
    let mut whole = read_sectors(alloc, disk, zone, start, 8)?;
    if bytes.len() > BLOCK || offset > BLOCK - bytes.len() || whole.len() != BLOCK {
        return Err(Broken::Place);
    }
    whole[offset..offset + bytes.len()].copy_from_slice(bytes);
    write_sectors(disk, zone, start, &whole)
}

/// A disk that reads as this one did after so many of its writing calls.
pub fn copy_at(alloc: Global, disk: &MemDisk, calls: u64) -> Result<MemDisk, Broken> {
    let newest = Choices {
        newest: true,
        conv: Vec::new(alloc),
        seq: Vec::new(alloc),
    };
    disk.stop_image(alloc, calls, &newest)
        .ok()
        .ok_or(Broken::NoStop)
}

/// A disk that reads as this one.
pub fn copy(alloc: Global, disk: &MemDisk) -> Result<MemDisk, Broken> {
    copy_at(alloc, disk, disk.calls())
}

/// Whether a zone of two disks has the same sectors, up to the same pointer.
fn is_same_zone(
    alloc: Global,
    disk: &mut MemDisk,
    other: &mut MemDisk,
    zone: u32,
) -> Result<bool, Broken> {
    let end = end_of_zone(disk, zone)?;
    if end != end_of_zone(other, zone)? {
        return Ok(false);
    }
    if end == 0 {
        return Ok(true);
    }
    let bytes = read_sectors(alloc, disk, zone, 0, end)?;
    Ok(bytes == read_sectors(alloc, other, zone, 0, end)?)
}

/// The first zone that two disks don't hold alike, where there is one.
pub fn first_other_zone(
    alloc: Global,
    disk: &mut MemDisk,
    other: &mut MemDisk,
) -> Result<Option<u32>, Broken> {
    let (Ok(geometry), Ok(second)) = (disk.geometry(), other.geometry()) else {
        return Err(Broken::Device);
    };
    if geometry != second {
        return Err(Broken::Place);
    }
    for zone in 0..geometry.zones() {
        if !is_same_zone(alloc, disk, other, zone)? {
            return Ok(Some(zone));
        }
    }
    Ok(None)
}
