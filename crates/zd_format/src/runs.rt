//! Runs of blocks of a set, each written by one call of the disk.

ghost use Rattle.std.specs.Prelude.{◌≡◌, ◌+◌, ◌*◌, ◌/◌, ◌%◌, ◌<◌, ◌≤◌, Some, OnOk, IfOk, length};
ghost use Rattle.zd_disk.specs.View.{Fails, Stays, Turns};
ghost use Rattle.zd_disk.specs.Runs.{blocks_in};
ghost use Rattle.zd_format.specs.Sets.{PutBlocks, zero_blocks};

use std::alloc::{AllocError, Global};
use zd_base::{BLOCK, Failed, Geometry, ZoneNo};
use zd_disk::{RUN_BLOCKS, ZonedDisk};

/// As many blocks of zeros as a call writes at most.
#[tactic(auto, unfolding(crate::specs::Sets::zero_blocks))]
pub fn zero_run(alloc: Global) -> Result<Vec<u8>, AllocError>
    ensures { IfOk result (λ zeros. zeros.items ≡ zero_blocks 32) }
{
    vec![in alloc; 0u8; BLOCK * RUN_BLOCKS as usize]
}

/// Writes blocks of the set that begins in zone `first`, from this one on, all in one conventional
/// zone.
pub fn write_run<D: ZonedDisk>(
    disk: &mut D,
    geometry: &Geometry,
    first: u32,
    block: u32,
    bytes: &[u8],
) -> Result<(), Failed>
    requires told { (D.view disk.old).told ≡ Some geometry.now }
    requires whole { length bytes.now ≡ 4096 * blocks_in bytes.now }
    requires some { 0 < blocks_in bytes.now }
    requires zone { first + block / geometry.now.zone_blocks < geometry.now.conv }
    requires within { block % geometry.now.zone_blocks + blocks_in bytes.now
        ≤ geometry.now.zone_blocks }
    ensures ok { OnOk result (Turns (PutBlocks first block bytes.now)
        (D.view disk.old) (D.view disk.new)) }
    ensures stays { Stays (D.view disk.old) (D.view disk.new) }
    ensures cause { Fails result (D.view disk.old) (D.view disk.new) }
{
    let zone_blocks = geometry.zone_blocks();
    let _conv = geometry.conv();
    let zone = ZoneNo(first + block / zone_blocks);
    disk.write(zone, 8 * (block % zone_blocks), bytes)
}
