//! Writes by the bare calls of a disk.

ghost use Rattle.std.specs.Prelude.{◌≡◌, length, Some};

use crate::places::next_of;
use std::fs::File;
use zd_base::{BLOCK, Geometry, ZoneNo};
use zd_disk::{FileDisk, ZonedDisk};

/// The sectors of a block.
const BLOCK_SECTORS: u32 = 8;

/// Writes block `at` of the conventional zones, if there is one, by one call.
fn write_block(disk: &mut FileDisk<File>, geometry: &Geometry, at: u64, block: &[u8]) -> bool
    requires told { disk.old.told ≡ Some geometry.now }
    requires size { length block.now ≡ 4096 }
    ensures { disk.new.told ≡ Some geometry.now }
{
    let zone_blocks = u64::from(geometry.zone_blocks());
    let zone = at / zone_blocks;
    if zone >= u64::from(geometry.conv()) {
        return false;
    }
    let start = BLOCK_SECTORS * (at % zone_blocks) as u32;
    disk.write(ZoneNo(zone as u32), start, block).is_ok()
}

/// Flushes the disk. Where that fails, nothing is said.
fn flush_bare(disk: &mut FileDisk<File>)
    ensures { disk.new.told ≡ disk.old.told }
{
    let _flushed = disk.flush();
}

/// Whether so many writes are a whole number of intervals. No interval is none.
fn is_flush_due(done: u32, interval: u64) -> bool {
    interval > 0 && u64::from(done) % interval == 0
}

/// Writes so many blocks of the conventional zones by bare calls, each so many blocks after the one before, round and
/// round, and flushes after each so many writes, or never where that is 0. The answer is how many were written.
pub fn write_bare(disk: &mut FileDisk<File>, writes: u32, step: u64, interval: u64) -> u32 {
    let Ok(geometry) = disk.geometry() else {
        return 0;
    };
    let blocks = u64::from(geometry.conv()) * u64::from(geometry.zone_blocks());
    let block = [1; BLOCK];
    let mut done = 0u32;
    let mut at = 0;
    for _ in 0..writes {
        if write_block(disk, &geometry, at, &block) {
            done = done.saturating_add(1);
            if is_flush_due(done, interval) {
                flush_bare(disk);
            }
        }
        at = next_of(at, step, blocks);
    }
    done
}
