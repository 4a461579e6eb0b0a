//! The pointers of a disk.

ghost use Rattle.std.specs.Prelude.{◌≡◌, ◌≤◌, ℕ, Some, Err, IfOk, length, slice_index};
ghost use Rattle.zd_base.specs.Geometry.{zone_count, zone_sectors};
ghost use Rattle.zd_disk.specs.Told.{WhereTold};
ghost use Rattle.zd_disk.specs.View.{HasFailed, OnlyReads};
ghost use Rattle.zd_examine.specs.Examined.{ArePointers};

use std::alloc::Global;
use zd_base::{Geometry, ZoneNo};
use zd_disk::ZonedDisk;
use zd_sets::ReadFault;

/// For each zone its pointer in sectors, 0 for conventional zones: one report for each sequential zone.
pub fn read_pointers<D: ZonedDisk>(
    alloc: Global,
    disk: &mut D,
    geometry: &Geometry,
) -> Result<Vec<u32>, ReadFault>
    requires told { (D.view disk.old).told ≡ Some geometry.now }
    ensures count { IfOk result (λ pointers. length pointers.items ≡ zone_count geometry.now) }
    ensures within { IfOk result (λ pointers. (z : ℕ) →
        slice_index pointers.items z ≤ zone_sectors geometry.now) }
    ensures value { IfOk result (λ pointers. WhereTold (D.view disk.old).zones (λ image.
        ArePointers image pointers.items)) }
    ensures reads { OnlyReads (D.view disk.old) (D.view disk.new) }
    ensures cause { result ≡ Err ReadFault.Device → HasFailed (D.view disk.old) (D.view disk.new) }
{
    let Ok(mut pointers) = vec![in alloc; 0u32; geometry.zones() as usize] else {
        return Err(ReadFault::Memory);
    };
    for zone in geometry.conv()..geometry.zones() {
        let Ok(pointer) = disk.report(ZoneNo(zone)) else {
            return Err(ReadFault::Device);
        };
        pointers[zone as usize] = pointer;
    }
    Ok(pointers)
}
