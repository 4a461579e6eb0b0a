//! A commit of new tables, without a volume.

ghost use Rattle.std.specs.Prelude.{◌≡◌, ◌+◌, ◌*◌, ◌/◌, ◌<◌, ℕ, Some, OnOk, length};
ghost use Rattle.zd_base.specs.Layout.{Fits, used_blocks};
ghost use Rattle.zd_disk.specs.View.{Fails, Holds, IsDurable, Keeps, MadeOf, Reaches, Turns};
ghost use Rattle.zd_model.specs.Super.{FitsVersion};
ghost use Rattle.zd_sets.specs.Calls.{differing_from};
ghost use Rattle.zd_sets.specs.Equal.{InSet, OnlyAt};
ghost use Rattle.zd_repair.specs.Heads.{HasGoodSuper};
ghost use Rattle.zd_repair.specs.Committed.{HasPartOfCommit, HasPartOfSet, HaveGoodSupers, InBothSets, PutsBothSets, PutsSet, commit_calls};

use crate::heads::put_head;
use zd_base::{Failed, Geometry, ZoneNo};
use zd_disk::ZonedDisk;
use zd_model::Super;
use zd_sets::{SetBlocks, copy_blocks};

/// Gives the set that begins in this zone these blocks and this head: writes the blocks that differ, flushes, writes
/// the super block over a good one, and flushes.
///
/// At any answer the set has them, or its super block is as before; and so it is in what a stop leaves, where a stop
/// before would have left what the disk read as.
fn commit_set<D: ZonedDisk>(
    disk: &mut D,
    geometry: &Geometry,
    zone: ZoneNo,
    head: &Super,
    blocks: &SetBlocks,
) -> Result<(), Failed>
    requires told { (D.view disk.old).told ≡ Some geometry.now }
    requires fits { Fits geometry.now head.now.layout }
    requires inside { (i : ℕ) → i < used_blocks geometry.now head.now.layout →
        zone + i / geometry.now.zone_blocks < geometry.now.conv }
    requires version { FitsVersion head.now }
    requires size { length blocks.now ≡ 4096 * used_blocks geometry.now head.now.layout }
    requires good { Holds (HasGoodSuper zone) (D.view disk.old) }
    ensures ok { OnOk result (Turns (PutsSet geometry.now head.now.layout zone head.now blocks.now)
        (D.view disk.old) (D.view disk.new)) }
    ensures way { Reaches (OnlyAt (InSet geometry.now zone 0 (used_blocks geometry.now head.now.layout)))
        (D.view disk.old) (D.view disk.new) }
    ensures kept { Keeps (HasPartOfSet geometry.now head.now.layout zone head.now blocks.now)
        (D.view disk.old) (D.view disk.new) }
    ensures counted { OnOk result (MadeOf (λ image.
        differing_from blocks.now zone 1 (used_blocks geometry.now head.now.layout) image + 3)
        (D.view disk.old) (D.view disk.new)) }
    ensures durable { OnOk result (IsDurable (D.view disk.new)) }
    ensures cause { Fails result (D.view disk.old) (D.view disk.new) }
{
    let _zone_blocks = geometry.zone_blocks();
    let used = head.layout.used_blocks(geometry);
    copy_blocks(disk, geometry, zone, used, blocks)?;
    put_head(disk, geometry, zone, head)
}

/// Gives both sets these blocks and this head, first set 1 and then set 0: writes the blocks that differ, flushes,
/// writes the super block, and flushes. The super blocks that stand there are good.
///
/// At any answer set 1 alone has changed, and not its super block; or set 1 has the blocks and the head, and the super
/// block of set 0 hasn't changed; or both have them. So it is in what a stop leaves, where a stop before would have
/// left what the disk read as.
pub fn commit_blocks<D: ZonedDisk>(
    disk: &mut D,
    geometry: &Geometry,
    head: &Super,
    blocks: &SetBlocks,
) -> Result<(), Failed>
    requires told { (D.view disk.old).told ≡ Some geometry.now }
    requires fits { Fits geometry.now head.now.layout }
    requires version { FitsVersion head.now }
    requires size { length blocks.now ≡ 4096 * used_blocks geometry.now head.now.layout }
    requires good { Holds (HaveGoodSupers geometry.now head.now.layout) (D.view disk.old) }
    ensures ok { OnOk result (Turns (PutsBothSets geometry.now head.now.layout head.now blocks.now)
        (D.view disk.old) (D.view disk.new)) }
    ensures way { Reaches (OnlyAt (InBothSets geometry.now head.now.layout)) (D.view disk.old) (D.view disk.new) }
    ensures kept { Keeps (HasPartOfCommit geometry.now head.now.layout head.now blocks.now)
        (D.view disk.old) (D.view disk.new) }
    ensures counted { OnOk result (MadeOf (commit_calls geometry.now head.now.layout blocks.now)
        (D.view disk.old) (D.view disk.new)) }
    ensures durable { OnOk result (IsDurable (D.view disk.new)) }
    ensures cause { Fails result (D.view disk.old) (D.view disk.new) }
{
    let _zone_blocks = geometry.zone_blocks();
    let second = ZoneNo(head.layout.set_zones(geometry));
    commit_set(disk, geometry, second, head, blocks)?;
    commit_set(disk, geometry, ZoneNo(0), head, blocks)
}
