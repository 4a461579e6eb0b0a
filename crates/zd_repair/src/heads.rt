//! New heads for both sets of a volume.

ghost use Rattle.std.specs.Prelude.{◌≡◌, ◌-◌, ◌<◌, ◌^◌, ℕ, Some, OnOk, OnErr};
ghost use Rattle.zd_base.specs.Geometry.{IsShape};
ghost use Rattle.zd_disk.specs.View.{Fails, Holds, IsDurable, Made, Reaches, Turns};
ghost use Rattle.zd_examine.specs.Examined.{IsUsable};
ghost use Rattle.zd_examine.specs.Opened.{HoldsBothSets};
ghost use Rattle.zd_model.specs.Super.{FitsVersion, HasBlock};
ghost use Rattle.zd_sets.specs.Equal.{HasSuper, head_at};
ghost use Rattle.zd_repair.specs.Heads.{HasGoodSuper, HasPartOfHead, HasPartOfHeads, HoldsHeads, IsNextHead, MovesHeads, MadeUpTo, calls_done};

use zd_base::{Failed, Geometry, ZoneNo};
use zd_disk::ZonedDisk;
use zd_examine::Image;
use zd_model::Super;
use zd_sets::write_super;

/// The head with the own number of a super block in this zone.
fn head_in(geometry: &Geometry, zone: ZoneNo, head: Super) -> Super
    requires { FitsVersion head }
    ensures value { result ≡ head_at geometry.now zone head }
    ensures sizes { HasBlock result }
    ensures shape { IsShape geometry.now }
{
    let own = u64::from(zone.0) * u64::from(geometry.zone_blocks());
    Super { own, ..head }
}

/// Writes a head as the super block of a zone, with its own number there, in place of a good one, and flushes.
///
/// At any answer, and in what a stop leaves, the super block is the one before or the new one.
pub fn put_head<D: ZonedDisk>(
    disk: &mut D,
    geometry: &Geometry,
    zone: ZoneNo,
    head: &Super,
) -> Result<(), Failed>
    requires told { (D.view disk.old).told ≡ Some geometry.now }
    requires zone { zone < geometry.now.conv }
    requires fits { FitsVersion head.now }
    requires good { Holds (HasGoodSuper zone) (D.view disk.old) }
    ensures ok { OnOk result (Turns (HasSuper geometry.now zone head.now)
        (D.view disk.old) (D.view disk.new)) }
    ensures way { Reaches (HasPartOfHead geometry.now zone head.now)
        (D.view disk.old) (D.view disk.new) }
    ensures counted { OnOk result (Made 2 (D.view disk.old) (D.view disk.new)) }
    ensures few { MadeUpTo 2 (D.view disk.old) (D.view disk.new) }
    ensures durable { OnOk result (IsDurable (D.view disk.new)) }
    ensures cause { Fails result (D.view disk.old) (D.view disk.new) }
{
    let head = head_in(geometry, zone, *head);
    write_super(disk, zone, &head)?;
    disk.flush()
}

/// Writes this head as the super blocks of both sets of a volume, first that of set 1 and then that of set 0,
/// each followed by a flush. It is of the generation after the volume's, and has the volume's layout.
///
/// At any answer, and in what a stop leaves, the used blocks of both sets are as before behind their super
/// blocks, and each of these is the one before or the new one: that of set 0 the one before until that of set 1
/// is flushed.
pub fn write_heads<D: ZonedDisk>(disk: &mut D, volume: &Image, head: &Super) -> Result<(), Failed>
    requires told { (D.view disk.old).told ≡ Some volume.now.geometry }
    requires usable { IsUsable volume.now.geometry volume.now.chosen volume.now.blocks
        volume.now.pointers.items volume.now.named.items }
    requires sets { Holds (HoldsBothSets volume.now.geometry volume.now.chosen volume.now.blocks)
        (D.view disk.old) }
    requires next { IsNextHead volume.now.chosen.head head.now }
    requires fits { FitsVersion head.now }
    ensures ok { OnOk result (Holds (HoldsHeads volume.now.geometry volume.now.chosen.head.layout
        head.now head.now volume.now.blocks) (D.view disk.new)) }
    ensures way { Reaches (HasPartOfHeads volume.now.geometry volume.now.chosen.head.layout head.now)
        (D.view disk.old) (D.view disk.new) }
    ensures moves { MovesHeads volume.now.geometry volume.now.chosen.head head.now volume.now.blocks
        (calls_done result (D.view disk.new).calls) (D.view disk.old) (D.view disk.new) }
    ensures counted { OnOk result (Made 4 (D.view disk.old) (D.view disk.new)) }
    ensures durable { OnOk result (IsDurable (D.view disk.new)) }
    ensures cause { Fails result (D.view disk.old) (D.view disk.new) }
{
    let _zone_blocks = volume.geometry.zone_blocks();
    let second = ZoneNo(volume.chosen.head.layout.set_zones(&volume.geometry));
    put_head(disk, &volume.geometry, second, head)?;
    put_head(disk, &volume.geometry, ZoneNo(0), head)
}
