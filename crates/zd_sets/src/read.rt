//! Blocks of a set, read from a disk.

ghost use Rattle.std.specs.Prelude.{◌≡◌, ◌+◌, ◌-◌, ◌*◌, ◌/◌, ◌%◌, ◌<◌, ◌≤◌, ℕ, Some, Err, IfOk, OnOk, length};
ghost use Rattle.zd_model.specs.Image.{block_at, set_block};
ghost use Rattle.zd_disk.specs.Runs.{blocks_in, run_count};
ghost use Rattle.zd_disk.specs.Told.{WhereTold};
ghost use Rattle.zd_disk.specs.View.{Fails, HasFailed, MadeReads, OnlyReads, ReadsOnce};
ghost use Rattle.zd_base.specs.Layout.{used_blocks};
ghost use Rattle.zd_sets.specs.Choice.{IsPlacedChoice};
ghost use Rattle.zd_sets.specs.Blocks.{AreBlocks, AreBlocksFrom, blocks_of};

use crate::{Chosen, SetBlocks};
use std::alloc::Global;
use zd_base::{BLOCK, Failed, Geometry, ZoneNo};
use zd_disk::{ZonedDisk, run_length};

/// Why the blocks of a set weren't read.
#[derive(Clone, Copy, Debug, PartialEq, Eq)]
pub enum ReadFault {
    /// A call of the disk failed.
    Device,
    /// No memory was found.
    Memory,
}

/// Reads a block of a conventional zone, by one call of the disk.
///
/// `Failed` says nothing of what then stands in `into`.
pub fn read_block<D: ZonedDisk>(
    disk: &mut D,
    geometry: &Geometry,
    zone: ZoneNo,
    block: u32,
    into: &mut [u8],
) -> Result<(), Failed>
    requires told { (D.view disk.old).told ≡ Some geometry.now }
    requires zone { zone < geometry.now.conv }
    requires block { block < geometry.now.zone_blocks }
    requires size { length into.old ≡ 4096 }
    ensures value { OnOk result (WhereTold (D.view disk.old).zones (λ i. into.new ≡ block_at i zone block)) }
    ensures read_calls { ReadsOnce (D.view disk.old) (D.view disk.new) }
    ensures reads { OnlyReads (D.view disk.old) (D.view disk.new) }
    ensures cause { Fails result (D.view disk.old) (D.view disk.new) }
{
    let _conv = geometry.conv();
    disk.read(zone, 8 * block, into)
}

/// Reads blocks of the set that begins in zone `first`, from block `i` on, all in one conventional zone, by one
/// call of the disk.
///
/// `Failed` says nothing of what then stands in `into`.
pub fn read_run<D: ZonedDisk>(
    disk: &mut D,
    geometry: &Geometry,
    first: ZoneNo,
    i: u32,
    into: &mut [u8],
) -> Result<(), Failed>
    requires told { (D.view disk.old).told ≡ Some geometry.now }
    requires whole { length into.old ≡ 4096 * blocks_in into.old }
    requires some { 0 < blocks_in into.old }
    requires zone { first + i / geometry.now.zone_blocks < geometry.now.conv }
    requires within { i % geometry.now.zone_blocks + blocks_in into.old ≤ geometry.now.zone_blocks }
    ensures value { OnOk result (WhereTold (D.view disk.old).zones (λ image.
        AreBlocksFrom image first i into.new)) }
    ensures read_calls { ReadsOnce (D.view disk.old) (D.view disk.new) }
    ensures reads { OnlyReads (D.view disk.old) (D.view disk.new) }
    ensures cause { Fails result (D.view disk.old) (D.view disk.new) }
{
    let zone_blocks = geometry.zone_blocks();
    let _conv = geometry.conv();
    let zone = ZoneNo(first.0 + i / zone_blocks);
    disk.read(zone, 8 * (i % zone_blocks), into)
}

/// Reads such blocks to their places among the blocks of the set.
fn fill_run<D: ZonedDisk>(
    disk: &mut D,
    geometry: &Geometry,
    first: ZoneNo,
    i: u32,
    count: u32,
    into: &mut [u8],
) -> Result<(), Failed>
    requires told { (D.view disk.old).told ≡ Some geometry.now }
    requires some { 0 < count }
    requires zone { first + i / geometry.now.zone_blocks < geometry.now.conv }
    requires within { i % geometry.now.zone_blocks + count ≤ geometry.now.zone_blocks }
    requires place { 4096 * (i + count) ≤ length into.old }
    ensures value { OnOk result (WhereTold (D.view disk.old).zones (λ image.
        (j : ℕ) → j < count → blocks_of into.new (i + j) 1 ≡ set_block image first (i + j))) }
    ensures before { (j : ℕ) → j < i → blocks_of into.new j 1 ≡ blocks_of into.old j 1 }
    ensures size { length into.new ≡ length into.old }
    ensures read_calls { ReadsOnce (D.view disk.old) (D.view disk.new) }
    ensures reads { OnlyReads (D.view disk.old) (D.view disk.new) }
    ensures cause { Fails result (D.view disk.old) (D.view disk.new) }
{
    let start = BLOCK * i as usize;
    let end = start + BLOCK * count as usize;
    read_run(disk, geometry, first, i, &mut into[start..end])
}

/// Reads the first blocks of the set that begins in zone `first`, as many as there are in `into`.
fn fill<D: ZonedDisk>(
    disk: &mut D,
    geometry: &Geometry,
    first: ZoneNo,
    count: u32,
    into: &mut [u8],
) -> Result<(), Failed>
    requires told { (D.view disk.old).told ≡ Some geometry.now }
    requires inside { (i : ℕ) → i < count → first + i / geometry.now.zone_blocks < geometry.now.conv }
    requires size { length into.old ≡ 4096 * count }
    ensures value { OnOk result (WhereTold (D.view disk.old).zones (λ image.
        AreBlocks image first count into.new)) }
    ensures read_calls { OnOk result (MadeReads (run_count geometry.now 0 count)
        (D.view disk.old) (D.view disk.new)) }
    ensures reads { OnlyReads (D.view disk.old) (D.view disk.new) }
    ensures cause { Fails result (D.view disk.old) (D.view disk.new) }
{
    let _zone_blocks = geometry.zone_blocks();
    let mut i = 0;
    while i < count {
        let run = run_length(geometry, i, count);
        fill_run(disk, geometry, first, i, run, into)?;
        i += run;
    }
    Ok(())
}

/// The first `count` blocks of the set that begins in zone `first`, which stand in conventional zones. Each
/// call reads up to 32 blocks of one zone.
pub fn read_blocks<D: ZonedDisk>(
    alloc: Global,
    disk: &mut D,
    geometry: &Geometry,
    first: ZoneNo,
    count: u32,
) -> Result<SetBlocks, ReadFault>
    requires told { (D.view disk.old).told ≡ Some geometry.now }
    requires inside { (i : ℕ) → i < count → first + i / geometry.now.zone_blocks < geometry.now.conv }
    ensures size { IfOk result (λ blocks. length blocks ≡ 4096 * count) }
    ensures value { IfOk result (λ blocks. WhereTold (D.view disk.old).zones (λ image.
        AreBlocks image first count blocks)) }
    ensures read_calls { IfOk result (λ _. MadeReads (run_count geometry.now 0 count)
        (D.view disk.old) (D.view disk.new)) }
    ensures reads { OnlyReads (D.view disk.old) (D.view disk.new) }
    ensures cause { result ≡ Err ReadFault.Device → HasFailed (D.view disk.old) (D.view disk.new) }
{
    let Ok(mut bytes) = vec![in alloc; 0u8; BLOCK * count as usize] else {
        return Err(ReadFault::Memory);
    };
    match fill(disk, geometry, first, count, &mut bytes) {
        Ok(()) => Ok(SetBlocks::from_bytes(bytes)),
        Err(Failed) => Err(ReadFault::Device),
    }
}

/// The used blocks of the chosen set. Each call reads up to 32 blocks of one zone.
pub fn read_set<D: ZonedDisk>(
    alloc: Global,
    disk: &mut D,
    geometry: &Geometry,
    chosen: &Chosen,
) -> Result<SetBlocks, ReadFault>
    requires told { (D.view disk.old).told ≡ Some geometry.now }
    requires placed { IsPlacedChoice geometry.now chosen.now }
    ensures size { IfOk result (λ blocks.
        length blocks ≡ 4096 * used_blocks geometry.now chosen.now.head.layout) }
    ensures value { IfOk result (λ blocks. WhereTold (D.view disk.old).zones (λ image.
        AreBlocks image chosen.now.zone (used_blocks geometry.now chosen.now.head.layout) blocks)) }
    ensures read_calls { IfOk result (λ _. MadeReads
        (run_count geometry.now 0 (used_blocks geometry.now chosen.now.head.layout))
        (D.view disk.old) (D.view disk.new)) }
    ensures reads { OnlyReads (D.view disk.old) (D.view disk.new) }
    ensures cause { result ≡ Err ReadFault.Device → HasFailed (D.view disk.old) (D.view disk.new) }
{
    let used = chosen.head.layout.used_blocks(geometry);
    read_blocks(alloc, disk, geometry, chosen.zone, used)
}
