//! Blocks of a set, written to a disk.

ghost use Rattle.std.specs.Prelude.{◌≡◌, ◌+◌, ◌*◌, ◌/◌, ◌%◌, ◌<◌, Some, IsSomeAnd, OnOk, OnErr, length};
ghost use Rattle.zd_disk.specs.Steps.{WriteLeaves, WriteStep};
ghost use Rattle.zd_disk.specs.View.{Calls, Fails, Reaches, Turns};
ghost use Rattle.zd_model.specs.Super.{FitsVersion, block_of};
ghost use Rattle.zd_sets.specs.Writes.{IsConventionalBlock, WroteBlock, WrotePart};

use zd_base::{BLOCK, Failed, Geometry, ZoneNo};
use zd_disk::ZonedDisk;
use zd_model::Super;
use zd_super::encode;

/// Writes block `x` of a conventional zone, by one call of the disk.
fn write_at<D: ZonedDisk>(disk: &mut D, zone: ZoneNo, x: u32, bytes: &[u8]) -> Result<(), Failed>
    requires told { IsSomeAnd (D.view disk.old).told (IsConventionalBlock zone x) }
    requires place { x < 65536 }
    requires size { length bytes.now ≡ 4096 }
    ensures ok { OnOk result (Turns (WroteBlock zone x bytes.now) (D.view disk.old) (D.view disk.new)) }
    ensures err { OnErr result (Turns (λ i. WriteStep i zone (8 * x) bytes.now i)
        (D.view disk.old) (D.view disk.new)) }
    ensures way { Reaches (WrotePart zone (8 * x) bytes.now) (D.view disk.old) (D.view disk.new) }
    ensures call { Calls (λ i. WriteStep i zone (8 * x) bytes.now)
        (λ i j. WriteLeaves i j zone (8 * x) bytes.now) (D.view disk.old) (D.view disk.new) }
    ensures cause { Fails result (D.view disk.old) (D.view disk.new) }
{
    disk.write(zone, 8 * x, bytes)
}

/// Writes block `i` of the set that begins in zone `first`, where the block lies in a conventional zone,
/// by one call of the disk.
///
/// `Failed` may have put any sectors of the block.
pub fn write_block<D: ZonedDisk>(
    disk: &mut D,
    geometry: &Geometry,
    first: ZoneNo,
    i: u32,
    bytes: &[u8],
) -> Result<(), Failed>
    requires told { (D.view disk.old).told ≡ Some geometry.now }
    requires inside { first + i / geometry.now.zone_blocks < geometry.now.conv }
    requires size { length bytes.now ≡ 4096 }
    ensures ok { OnOk result (Turns (WroteBlock (first + i / geometry.now.zone_blocks)
        (i % geometry.now.zone_blocks) bytes.now) (D.view disk.old) (D.view disk.new)) }
    ensures err { OnErr result (Turns (λ old. WriteStep old (first + i / geometry.now.zone_blocks)
        (8 * (i % geometry.now.zone_blocks)) bytes.now old) (D.view disk.old) (D.view disk.new)) }
    ensures way { Reaches (WrotePart (first + i / geometry.now.zone_blocks)
        (8 * (i % geometry.now.zone_blocks)) bytes.now) (D.view disk.old) (D.view disk.new) }
    ensures call { Calls
        (λ old. WriteStep old (first + i / geometry.now.zone_blocks)
        (8 * (i % geometry.now.zone_blocks)) bytes.now)
        (λ old new. WriteLeaves old new (first + i / geometry.now.zone_blocks)
        (8 * (i % geometry.now.zone_blocks)) bytes.now)
        (D.view disk.old) (D.view disk.new) }
    ensures cause { Fails result (D.view disk.old) (D.view disk.new) }
{
    let zone_blocks = geometry.zone_blocks();
    let _conv = geometry.conv();
    let zone = ZoneNo(first.0 + i / zone_blocks);
    write_at(disk, zone, i % zone_blocks, bytes)
}

/// Writes the super block that stands for a head, in its version and with the own number that it has, as the
/// first block of a conventional zone, by one call of the disk.
///
/// `Failed` may have put any sectors of the block.
pub fn write_super<D: ZonedDisk>(disk: &mut D, first: ZoneNo, head: &Super) -> Result<(), Failed>
    requires told { IsSomeAnd (D.view disk.old).told (IsConventionalBlock first 0) }
    requires fits { FitsVersion head.now }
    ensures ok { OnOk result (Turns (WroteBlock first 0 (block_of head.now))
        (D.view disk.old) (D.view disk.new)) }
    ensures err { OnErr result (Turns (λ i. WriteStep i first 0 (block_of head.now) i)
        (D.view disk.old) (D.view disk.new)) }
    ensures way { Reaches (WrotePart first 0 (block_of head.now)) (D.view disk.old) (D.view disk.new) }
    ensures call { Calls (λ i. WriteStep i first 0 (block_of head.now))
        (λ i j. WriteLeaves i j first 0 (block_of head.now)) (D.view disk.old) (D.view disk.new) }
    ensures cause { Fails result (D.view disk.old) (D.view disk.new) }
{
    let mut block = [0; BLOCK];
    encode(head, &mut block);
    write_at(disk, first, 0, &block)
}
