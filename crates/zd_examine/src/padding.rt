//! The blocks that a pointer cuts, made whole by zeros.

ghost use Rattle.std.specs.Prelude.{◌≡◌, ◌≢◌, ◌*◌, ◌%◌, ◌≤◌, ℕ, List, IfOk, OnOk, OnErr, length, slice_index};
ghost use Rattle.zd_base.specs.Geometry.{zone_count, zone_sectors};
ghost use Rattle.zd_disk.specs.Told.{IsSequentialZone, WhereTold};
ghost use Rattle.zd_disk.specs.View.{Calls, Fails, IsDurable, MadeOf, ReachesBy, Turns};
ghost use Rattle.zd_examine.specs.Examined.{ArePointers};
ghost use Rattle.zd_examine.specs.Padded.{AreRoundedUp, HasPartOfPads, IsPadded, IsPadStep, PadsAscending, PadsZone, block_end, pad_count};

use zd_base::{BLOCK, Failed, Geometry, SECTOR, ZoneNo};
use zd_disk::ZonedDisk;

/// The sectors of a block.
const BLOCK_SECTORS: u32 = 8;

/// Writes zero sectors into a sequential zone, from its pointer, which stands inside a block, up to the
/// block's end. It answers the pointer then.
///
/// `Failed` may have written any of them, the first ones first.
fn pad_zone<D: ZonedDisk>(
    disk: &mut D,
    geometry: &Geometry,
    zone: ZoneNo,
    pointer: u32,
) -> Result<u32, Failed>
    requires told { (D.view disk.old).told ≡ Some geometry.now }
    requires zone { IsSequentialZone zone geometry.now }
    requires within { pointer ≤ zone_sectors geometry.now }
    requires cut { pointer % 8 ≢ 0 }
    requires pointer { WhereTold (D.view disk.old).zones (λ i. i.held zone ≡ pointer) }
    ensures value { IfOk result (λ end. end ≡ block_end pointer) }
    ensures ok { OnOk result (Turns (PadsZone zone) (D.view disk.old) (D.view disk.new)) }
    ensures err { OnErr result (Turns (λ i. IsPadStep i zone i) (D.view disk.old) (D.view disk.new)) }
    ensures call { Calls (λ i. IsPadStep i zone) (λ i _. IsPadStep i zone)
        (D.view disk.old) (D.view disk.new) }
    ensures cause { Fails result (D.view disk.old) (D.view disk.new) }
{
    let _zone_blocks = geometry.zone_blocks();
    let zeros = [0; BLOCK];
    let lacking = BLOCK_SECTORS - pointer % BLOCK_SECTORS;
    disk.write(zone, pointer, &zeros[..SECTOR * lacking as usize])?;
    Ok(pointer + lacking)
}

/// Pads the sequential zones that are named, ascending by zone: where the pointer of one, in sectors, stands
/// inside a block, one call writes zero sectors up to the block's end. There is a flag and a pointer for each
/// zone; `pointers` are those of the disk, then as before.
///
/// It doesn't flush. A stop may leave a pad in part. `Failed` comes with the first write that fails.
pub fn pad<D: ZonedDisk>(
    disk: &mut D,
    geometry: &Geometry,
    named: &[bool],
    pointers: &mut [u32],
) -> Result<(), Failed>
    requires told { (D.view disk.old).told ≡ Some geometry.now }
    requires durable { IsDurable (D.view disk.old) }
    requires flags { length named.now ≡ zone_count geometry.now }
    requires count { length pointers.old ≡ zone_count geometry.now }
    requires within { (z : ℕ) → slice_index pointers.old z ≤ zone_sectors geometry.now }
    requires pointers { WhereTold (D.view disk.old).zones (λ i. ArePointers i pointers.old) }
    ensures ok { OnOk result (Turns (IsPadded named.now (zone_count geometry.now))
        (D.view disk.old) (D.view disk.new)) }
    ensures rounded { OnOk result (AreRoundedUp geometry.now named.now (zone_count geometry.now)
        pointers.old pointers.new) }
    ensures way { ReachesBy (λ i _. HasPartOfPads named.now i) (D.view disk.old) (D.view disk.new) }
    ensures ascending { PadsAscending named.now (D.view disk.old) (D.view disk.new) }
    ensures counted { OnOk result (MadeOf (pad_count named.now) (D.view disk.old) (D.view disk.new)) }
    ensures cause { Fails result (D.view disk.old) (D.view disk.new) }
{
    for zone in geometry.conv()..geometry.zones() {
        let i = zone as usize;
        let pointer = pointers[i];
        if named[i] && pointer % BLOCK_SECTORS != 0 {
            pointers[i] = pad_zone(disk, geometry, ZoneNo(zone), pointer)?;
        }
    }
    Ok(())
}
