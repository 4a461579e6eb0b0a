//! Both sets of metadata of a volume that nobody wrote, written in the order of the disk's blocks.

ghost use Rattle.std.specs.Prelude.{◌≡◌, ◌+◌, Some, OnOk};
ghost use Rattle.zd_base.specs.Geometry.{IsShape};
ghost use Rattle.zd_base.specs.Layout.{Fits};
ghost use Rattle.zd_disk.specs.Told.{WhereTold};
ghost use Rattle.zd_disk.specs.View.{Fails, Holds, Stays};
ghost use Rattle.zd_model.specs.Super.{FitsVersion};
ghost use Rattle.zd_format.specs.Sets.{HasBothSets, HasWritten, IsFittingSet, zero_blocks};

use crate::runs::write_run;
use zd_base::{BLOCK, Failed, Geometry};
use zd_disk::{ZonedDisk, run_length};
use zd_map::blank;
use zd_model::Super;
use zd_super::encode;

/// Writes the super block of the set that begins in zone `first`.
fn write_head<D: ZonedDisk>(
    disk: &mut D,
    geometry: &Geometry,
    head: &Super,
    first: u32,
) -> Result<(), Failed>
    requires told { (D.view disk.old).told ≡ Some geometry.now }
    requires version { FitsVersion head.now }
    requires set { IsFittingSet geometry.now head.now first }
    requires zones { WhereTold (D.view disk.old).zones (HasWritten geometry.now head.now first 0) }
    ensures ok { OnOk result (WhereTold (D.view disk.new).zones
        (HasWritten geometry.now head.now first 1)) }
    ensures stays { Stays (D.view disk.old) (D.view disk.new) }
    ensures cause { Fails result (D.view disk.old) (D.view disk.new) }
{
    let mut block = [0; BLOCK];
    encode(head, &mut block);
    write_run(disk, geometry, first, 0, &block)
}

/// Writes its map, whose entries name no zone.
fn write_map<D: ZonedDisk>(
    disk: &mut D,
    geometry: &Geometry,
    head: &Super,
    first: u32,
) -> Result<(), Failed>
    requires told { (D.view disk.old).told ≡ Some geometry.now }
    requires set { IsFittingSet geometry.now head.now first }
    requires zones { WhereTold (D.view disk.old).zones (HasWritten geometry.now head.now first 1) }
    ensures ok { OnOk result (WhereTold (D.view disk.new).zones
        (HasWritten geometry.now head.now first (1 + head.now.layout.map_blocks))) }
    ensures stays { Stays (D.view disk.old) (D.view disk.new) }
    ensures cause { Fails result (D.view disk.old) (D.view disk.new) }
{
    let mut map_block = [0; BLOCK];
    blank(&mut map_block);
    for m in 0..head.layout.map_blocks {
        write_run(disk, geometry, first, 1 + m, &map_block)?;
    }
    Ok(())
}

/// Writes its bitmaps, which have no valid block.
fn write_bitmaps<D: ZonedDisk>(
    disk: &mut D,
    geometry: &Geometry,
    head: &Super,
    first: u32,
    zeros: &[u8],
) -> Result<(), Failed>
    requires told { (D.view disk.old).told ≡ Some geometry.now }
    requires set { IsFittingSet geometry.now head.now first }
    requires zeros { zeros.now ≡ zero_blocks 32 }
    requires zones { WhereTold (D.view disk.old).zones
        (HasWritten geometry.now head.now first (1 + head.now.layout.map_blocks)) }
    ensures ok { OnOk result (WhereTold (D.view disk.new).zones
        (HasWritten geometry.now head.now first head.now.layout.meta_blocks)) }
    ensures stays { Stays (D.view disk.old) (D.view disk.new) }
    ensures cause { Fails result (D.view disk.old) (D.view disk.new) }
{
    let end = head.layout.meta_blocks;
    let mut block = 1 + head.layout.map_blocks;
    while block < end {
        let count = run_length(geometry, block, end);
        write_run(
            disk,
            geometry,
            first,
            block,
            &zeros[..BLOCK * count as usize],
        )?;
        block += count;
    }
    Ok(())
}

/// Writes the set that begins in zone `first`.
fn write_set<D: ZonedDisk>(
    disk: &mut D,
    geometry: &Geometry,
    head: &Super,
    first: u32,
    zeros: &[u8],
) -> Result<(), Failed>
    requires told { (D.view disk.old).told ≡ Some geometry.now }
    requires version { FitsVersion head.now }
    requires set { IsFittingSet geometry.now head.now first }
    requires zeros { zeros.now ≡ zero_blocks 32 }
    requires zones { WhereTold (D.view disk.old).zones (HasWritten geometry.now head.now first 0) }
    ensures ok { OnOk result (WhereTold (D.view disk.new).zones
        (HasWritten geometry.now head.now first head.now.layout.meta_blocks)) }
    ensures stays { Stays (D.view disk.old) (D.view disk.new) }
    ensures cause { Fails result (D.view disk.old) (D.view disk.new) }
{
    write_head(disk, geometry, head, first)?;
    write_map(disk, geometry, head, first)?;
    write_bitmaps(disk, geometry, head, first, zeros)
}

/// Writes both sets, and makes them outlast a stop. `head` is that of the first set.
pub fn write_sets<D: ZonedDisk>(
    disk: &mut D,
    geometry: &Geometry,
    head: &Super,
    zeros: &[u8],
) -> Result<(), Failed>
    requires told { (D.view disk.old).told ≡ Some geometry.now }
    requires fits { Fits geometry.now head.now.layout }
    requires version { FitsVersion head.now }
    requires own { head.now.own ≡ 0 }
    requires zeros { zeros.now ≡ zero_blocks 32 }
    ensures shape { IsShape geometry.now }
    ensures ok { OnOk result (Holds (HasBothSets geometry.now head.now) (D.view disk.new)) }
    ensures stays { Stays (D.view disk.old) (D.view disk.new) }
    ensures cause { Fails result (D.view disk.old) (D.view disk.new) }
{
    let second = head.layout.set_zones(geometry);
    let own = u64::from(second) * u64::from(geometry.zone_blocks());
    write_set(disk, geometry, head, 0, zeros)?;
    write_set(disk, geometry, &Super { own, ..*head }, second, zeros)?;
    disk.flush()
}
