//! Changes of what a disk holds.

use crate::fault::Broken;
use crate::places::{change_bytes, put};
use crate::sets::{change_bits, change_entry, change_field};
use crate::steps::Build;
use std::alloc::Global;
use uuid::Uuid;
use zd_disk::ZonedDisk;
use zd_format::format;
use zd_memdisk::MemDisk;

fn make_volume(
    alloc: Global,
    disk: &mut MemDisk,
    reserved: u32,
    volume: Uuid,
) -> Result<(), Broken> {
    match format(alloc, disk, reserved, [0; 32], volume) {
        Ok(_) => Ok(()),
        Err(_) => Err(Broken::Unfit),
    }
}

fn make_durable(disk: &mut MemDisk) -> Result<(), Broken> {
    disk.flush().ok().ok_or(Broken::Device)
}

/// Changes what a disk holds.
pub fn change(alloc: Global, mut disk: MemDisk, wanted: &Build) -> Result<MemDisk, Broken> {
    match wanted {
        Build::Blank(geometry) => {
            return MemDisk::blank(alloc, *geometry).ok().ok_or(Broken::Memory);
        }
        Build::Format { reserved, volume } => make_volume(alloc, &mut disk, *reserved, *volume)?,
        Build::Put(sectors) => put(alloc, &mut disk, sectors)?,
        Build::Bytes {
            zone,
            block,
            offset,
            bytes,
        } => change_bytes(alloc, &mut disk, *zone, *block, *offset, bytes)?,
        Build::Field {
            zone,
            offset,
            bytes,
        } => change_field(alloc, &mut disk, *zone, *offset, bytes)?,
        Build::Entry {
            chunk,
            zone,
            buffer,
        } => change_entry(alloc, &mut disk, *chunk, *zone, *buffer)?,
        Build::Bits { zone, bytes } => change_bits(alloc, &mut disk, *zone, bytes)?,
        Build::Flush => make_durable(&mut disk)?,
    }
    Ok(disk)
}
