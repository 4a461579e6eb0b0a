//! Volumes that the tests write block by block.

ghost use Rattle.std.specs.Prelude.{◌+◌, ◌<◌, ◌≤◌, length};

use std::alloc::Global;
use std::test::Fail;
use uuid::Uuid;
use zd_base::{Geometry, Kind, Layout, SECTOR, ZoneNo};
use zd_disk::{Failed, ZonedDisk};
use zd_memdisk::MemDisk;
use zd_plain::pattern;
use zd_super::crc32_le;

/// No zone, in an entry of a map.
pub const NONE: u32 = 0xFFFF_FFFF;

/// The layout of the volume of the rows, on a disk of 6 conventional and 6 sequential zones of 16
/// blocks. Its sets stand in zones 0 and 1.
pub const SMALL: Layout = Layout {
    meta_blocks: 14,
    reserved: 2,
    chunks: 8,
    map_blocks: 1,
    bitmap_blocks: 12,
};

/// The identifier 00000000-0000-4000-8000-000000000001.
pub const VOLUME: [u8; 16] = [0, 0, 0, 0, 0, 0, 0x40, 0, 0x80, 0, 0, 0, 0, 0, 0, 1];

/// The identifier of the volume's one device, 705d13ab-1a26-52ae-a1fa-3108df8326ab.
const DEVICE: [u8; 16] = [
    0x70, 0x5d, 0x13, 0xab, 0x1a, 0x26, 0x52, 0xae, 0xa1, 0xfa, 0x31, 0x08, 0xdf, 0x83, 0x26, 0xab,
];

/// Writes bytes into a block, from byte `at` on.
pub fn write_at(block: &mut [u8; 4096], at: usize, bytes: &[u8])
    requires { at + length bytes.now ≤ 4096 }
{
    block[at..at + bytes.len()].copy_from_slice(bytes);
}

/// A super block of generation 1, with its own number among the blocks of the disk and a right crc.
pub fn super_block(layout: &Layout, own: u64) -> [u8; 4096] {
    let mut block = [0; 4096];
    write_at(&mut block, 0, &[0x44, 0x42, 0x5a, 0x44, 2, 0, 0, 0, 1]);
    write_at(&mut block, 16, &own.to_le_bytes());
    write_at(&mut block, 24, &layout.meta_blocks.to_le_bytes());
    write_at(&mut block, 28, &layout.reserved.to_le_bytes());
    write_at(&mut block, 32, &layout.chunks.to_le_bytes());
    write_at(&mut block, 36, &layout.map_blocks.to_le_bytes());
    write_at(&mut block, 40, &layout.bitmap_blocks.to_le_bytes());
    write_at(&mut block, 80, &VOLUME);
    write_at(&mut block, 96, &DEVICE);
    let crc = crc32_le(1, &block);
    write_at(&mut block, 44, &crc.to_le_bytes());
    block
}

/// A map block that maps one chunk, the one whose place in the block is `i`.
pub fn map_block(i: usize, zone: u32, buffer: u32) -> [u8; 4096]
    requires { i < 512 }
{
    let mut block = [0xFF; 4096];
    write_at(&mut block, 8 * i, &zone.to_le_bytes());
    write_at(&mut block, 8 * i + 4, &buffer.to_le_bytes());
    block
}

/// A bitmap block with this first byte, for the first eight blocks of a zone.
pub fn bitmap_of(first: u8) -> [u8; 4096] {
    let mut block = [0; 4096];
    block[0] = first;
    block
}

/// Block `i` of a set of a volume that nobody wrote.
pub fn set_block(layout: &Layout, own: u64, i: u32) -> [u8; 4096] {
    if i == 0 {
        super_block(layout, own)
    } else if i <= layout.map_blocks {
        [0xFF; 4096]
    } else {
        [0; 4096]
    }
}

/// Writes a block, in a sequential zone at its pointer. `Failed` also where it is no block of the disk, or doesn't
/// stand there.
pub fn put<D: ZonedDisk>(
    disk: &mut D,
    zone: u32,
    block: u32,
    bytes: &[u8; 4096],
) -> Result<(), Failed> {
    let geometry = disk.geometry()?;
    if zone >= geometry.zones() || block >= geometry.zone_blocks() {
        return Err(Failed);
    }
    if geometry.kind(ZoneNo(zone)) == Kind::Sequential && disk.report(ZoneNo(zone))? != 8 * block {
        return Err(Failed);
    }
    disk.write(ZoneNo(zone), 8 * block, bytes)
}

/// Makes all that was written outlast a stop.
pub fn flush<D: ZonedDisk>(disk: &mut D) -> Result<(), Failed> {
    let _geometry = disk.geometry()?;
    disk.flush()
}

/// Writes the set of metadata that begins in zone `first`. `Failed` also where that is no zone of a disk.
fn put_set<D: ZonedDisk>(disk: &mut D, layout: &Layout, first: u32) -> Result<(), Failed> {
    let zone_blocks = disk.geometry()?.zone_blocks();
    if first >= 65_536 {
        return Err(Failed);
    }
    let own = u64::from(first) * u64::from(zone_blocks);
    for i in 0..layout.meta_blocks {
        let block = set_block(layout, own, i);
        put(disk, first + i / zone_blocks, i % zone_blocks, &block)?;
    }
    Ok(())
}

/// Writes both sets of a volume that nobody wrote.
pub fn format<D: ZonedDisk>(disk: &mut D, layout: &Layout) -> Result<(), Failed> {
    let geometry = disk.geometry()?;
    put_set(disk, layout, 0)?;
    put_set(disk, layout, layout.set_zones(&geometry))?;
    flush(disk)
}

/// The volume of the rows, which nobody wrote.
pub fn fresh(alloc: Global) -> Result<MemDisk, Fail> {
    let mut disk = MemDisk::blank(alloc, Geometry::new(16, 6, 6)?)?;
    let volume = Uuid::from_bytes(VOLUME);
    zd_format::format(alloc, &mut disk, 2, [0; 32], volume)?;
    Ok(disk)
}

/// The pattern of a block of the logical device.
pub fn patterned(seed: u32, block: u32) -> [u8; 4096] {
    let mut bytes = [0; 4096];
    for i in 0..8u32 {
        let at = SECTOR * i as usize;
        pattern(
            seed,
            8 * u64::from(block) + u64::from(i),
            &mut bytes[at..at + SECTOR],
        );
    }
    bytes
}
