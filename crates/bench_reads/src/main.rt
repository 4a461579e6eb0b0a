//! A benchmark of reads: `bench_reads IMAGE READS STEP volume|bare`.
//!
//! It reads so many blocks, each so many blocks after the one before, round and round: from the volume in the
//! image file, or by the bare calls of the disk, in its conventional zones. It prints how many were read.
#![tactic(auto)]

ghost use Rattle.std.specs.Prelude.{◌≡◌, length, Some};

use bench_tools::{Asked, answer_all, next_of, words};
use std::alloc::Global;
use std::fs::File;
use std::process::ExitCode;
use zd_base::{BLOCK, Geometry, ZoneNo};
use zd_disk::{FileDisk, ZonedDisk};
use zd_open::open_volume;

/// The sectors of a block.
const BLOCK_SECTORS: u32 = 8;

/// Reads block `at` of the conventional zones, if there is one, by one call.
fn read_block(disk: &mut FileDisk<File>, geometry: &Geometry, at: u64, into: &mut [u8]) -> bool
    requires told { disk.old.told ≡ Some geometry.now }
    requires size { length into.old ≡ 4096 }
    ensures told { disk.new.told ≡ Some geometry.now }
    ensures size { length into.new ≡ 4096 }
{
    let zone_blocks = u64::from(geometry.zone_blocks());
    let zone = at / zone_blocks;
    if zone >= u64::from(geometry.conv()) {
        return false;
    }
    let start = BLOCK_SECTORS * (at % zone_blocks) as u32;
    disk.read(ZoneNo(zone as u32), start, into).is_ok()
}

/// Reads so many blocks of the conventional zones by bare calls. The answer is how many were read.
fn read_bare(disk: &mut FileDisk<File>, reads: u32, step: u64) -> u32 {
    let Ok(geometry) = disk.geometry() else {
        return 0;
    };
    let blocks = u64::from(geometry.conv()) * u64::from(geometry.zone_blocks());
    let mut block = [0; BLOCK];
    let mut done = 0u32;
    let mut at = 0;
    for _ in 0..reads {
        if read_block(disk, &geometry, at, &mut block) {
            done = done.saturating_add(1);
        }
        at = next_of(at, step, blocks);
    }
    done
}

/// Reads so many blocks of a volume. The answer is how many were read.
fn read_volume<D: ZonedDisk>(alloc: Global, disk: D, reads: u32, step: u64) -> usize {
    let Ok(volume) = open_volume(alloc, disk) else {
        return 0;
    };
    match answer_all(alloc, volume, Asked::Read, reads, step) {
        Some(session) => session.volume().history().len(),
        None => 0,
    }
}

/// How many blocks were read, where the words are a command.
fn measured(rt: &HostRuntime) -> Option<usize> {
    let words = words(rt).ok()?;
    match words.as_slice() {
        [image, reads, step, how] => {
            let mut disk = FileDisk::at(rt, image);
            let reads = reads.parse().ok()?;
            let step = step.parse().ok()?;
            match how.as_str() {
                "bare" => Some(read_bare(&mut disk, reads, step) as usize),
                "volume" => Some(read_volume(rt.alloc(), disk, reads, step)),
                _ => None,
            }
        }
        _ => None,
    }
}

fn main(rt: HostRuntime) -> ExitCode {
    match measured(&rt) {
        Some(done) => {
            let _ = println!(rt; "{} blocks", done);
            ExitCode::SUCCESS
        }
        None => ExitCode::from(1),
    }
}
