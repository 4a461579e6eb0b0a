//! The sets of metadata of a disk in memory, changed and compared.

use crate::fault::Broken;
use crate::lines::{differs, same_number};
use crate::places::{change_bytes, read_sectors, write_sectors};
use std::alloc::Global;
use zd_base::{BLOCK, Geometry};
use zd_disk::ZonedDisk;
use zd_memdisk::MemDisk;
use zd_model::Super;
use zd_super::{crc32_le, decode};

/// Makes the crc of a super block right.
fn make_right(block: &mut [u8; BLOCK]) {
    block[44..48].copy_from_slice(&[0; 4]);
    let seed = u32::from_le_bytes([block[8], block[9], block[10], block[11]]);
    let crc = crc32_le(seed, block);
    block[44..48].copy_from_slice(&crc.to_le_bytes());
}

/// Changes bytes of the super block in front of a zone, and makes its crc right.
pub fn change_field(
    alloc: Global,
    disk: &mut MemDisk,
    zone: u32,
    offset: usize,
    bytes: &[u8],
) -> Result<(), Broken> {
    change_bytes(alloc, disk, zone, 0, offset, bytes)?;
    let whole = read_sectors(alloc, disk, zone, 0, 8)?;
    if whole.len() != BLOCK {
        return Err(Broken::Place);
    }
    let mut block = [0; BLOCK];
    block.copy_from_slice(&whole);
    make_right(&mut block);
    write_sectors(disk, zone, 0, &block)
}

/// The super block in front of a zone.
fn head_at(alloc: Global, disk: &mut MemDisk, zone: u32) -> Result<Super, Broken> {
    let whole = read_sectors(alloc, disk, zone, 0, 8)?;
    if whole.len() != BLOCK {
        return Err(Broken::NoSet);
    }
    decode(&whole).ok().ok_or(Broken::NoSet)
}

/// The geometry, the super block in front of zone 0, and the zone in which the second set begins.
fn first_set(alloc: Global, disk: &mut MemDisk) -> Result<(Geometry, Super, u32), Broken> {
    let Ok(geometry) = disk.geometry() else {
        return Err(Broken::Device);
    };
    let head = head_at(alloc, disk, 0)?;
    let second = head.layout.set_zones(&geometry);
    Ok((geometry, head, second))
}

/// Changes bytes of a block of both sets; the block is counted from the super blocks.
fn change_both(
    alloc: Global,
    disk: &mut MemDisk,
    block: u64,
    offset: usize,
    bytes: &[u8],
) -> Result<(), Broken> {
    let (geometry, _, second) = first_set(alloc, disk)?;
    let zone_blocks = u64::from(geometry.zone_blocks());
    let own = (block % zone_blocks) as u32;
    for first in [0, second] {
        let Ok(zone) = u32::try_from(u64::from(first) + block / zone_blocks) else {
            return Err(Broken::Place);
        };
        change_bytes(alloc, disk, zone, own, offset, bytes)?;
    }
    Ok(())
}

/// Changes the entry of a chunk in both sets.
pub fn change_entry(
    alloc: Global,
    disk: &mut MemDisk,
    chunk: u32,
    zone: u32,
    buffer: u32,
) -> Result<(), Broken> {
    let mut entry = [0; 8];
    entry[..4].copy_from_slice(&zone.to_le_bytes());
    entry[4..].copy_from_slice(&buffer.to_le_bytes());
    let offset = 8 * (chunk as usize % 512);
    change_both(alloc, disk, 1 + u64::from(chunk / 512), offset, &entry)
}

/// Changes the first bytes of the bitmap of a zone in both sets.
pub fn change_bits(
    alloc: Global,
    disk: &mut MemDisk,
    zone: u32,
    bytes: &[u8],
) -> Result<(), Broken> {
    let (geometry, head, _) = first_set(alloc, disk)?;
    let before = u64::from(zone) * u64::from(geometry.per());
    change_both(
        alloc,
        disk,
        1 + u64::from(head.layout.map_blocks) + before,
        0,
        bytes,
    )
}

/// Whether a block of both sets is the same, counted from the super blocks.
fn is_same_block(
    alloc: Global,
    disk: &mut MemDisk,
    geometry: &Geometry,
    second: u32,
    block: u32,
) -> Result<bool, Broken> {
    let (zone, own) = (
        block / geometry.zone_blocks(),
        block % geometry.zone_blocks(),
    );
    let Some(other) = second.checked_add(zone) else {
        return Err(Broken::Place);
    };
    let bytes = read_sectors(alloc, disk, zone, 8 * own, 8)?;
    Ok(bytes == read_sectors(alloc, disk, other, 8 * own, 8)?)
}

/// Asks that both super blocks are good, of this generation and alike but for their places, and
/// that the other used blocks of both sets are the same.
pub fn expect_equal(alloc: Global, disk: &mut MemDisk, generation: u64) -> Result<(), Broken> {
    let (geometry, head, second) = first_set(alloc, disk)?;
    if !head.layout.fits(&geometry) {
        return Err(Broken::NoSet);
    }
    same_number(alloc, "generation", generation, head.generation)?;
    same_number(alloc, "own number", 0, head.own)?;
    let own = u64::from(second) * u64::from(geometry.zone_blocks());
    if head_at(alloc, disk, second)? != (Super { own, ..head }) {
        return differs(alloc, "equal super blocks", "others");
    }
    for block in 1..head.layout.used_blocks(&geometry) {
        if !is_same_block(alloc, disk, &geometry, second, block)? {
            return same_number(alloc, "first block that differs", 0, u64::from(block));
        }
    }
    Ok(())
}
