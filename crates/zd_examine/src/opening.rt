//! Opening a disk: examined, and both sets of metadata equal.

ghost use Rattle.std.specs.Prelude.{◌≡◌, ◌+◌, ◌≤◌, Some, Err, IfOk, IfErr, OnOk};
ghost use Rattle.zd_base.specs.Geometry.{IsShape};
ghost use Rattle.zd_disk.specs.Told.{WhereTold, next_count};
ghost use Rattle.zd_disk.specs.View.{Fails, HasFailed, IsDurable, Keeps, Reaches, ReachesBy};
ghost use Rattle.zd_model.specs.Image.{Same};
ghost use Rattle.zd_examine.specs.Examined.{ExplainsRefusal};
ghost use Rattle.zd_examine.specs.Opened.{IsFlushed, IsKept, IsLeftOrKept, IsOpening, IsRefusal, KeepsFrom};

use crate::padding::pad;
use crate::{Image, OpenFault, examine};
use std::alloc::Global;
use zd_base::{Failed, Geometry};
use zd_disk::ZonedDisk;
use zd_sets::make_equal;

/// Asks for the geometry and flushes, so that a stop leaves what the disk reads as.
pub fn settle_disk<D: ZonedDisk>(disk: &mut D) -> Result<Geometry, Failed>
    ensures told { IfOk result (λ g. (D.view disk.new).told ≡ Some g) }
    ensures shape { IfOk result IsShape }
    ensures way { Reaches Same (D.view disk.old) (D.view disk.new) }
    ensures counted { OnOk result ((D.view disk.new).calls ≡ next_count (D.view disk.old).calls) }
    ensures few { (D.view disk.new).calls ≤ (D.view disk.old).calls + 1 }
    ensures durable { OnOk result (IsDurable (D.view disk.new)) }
    ensures cause { Fails result (D.view disk.old) (D.view disk.new) }
{
    let geometry = disk.geometry()?;
    let _zone_blocks = geometry.zone_blocks();
    disk.flush()?;
    Ok(geometry)
}

/// Opens the volume on a disk: flushes, examines, makes the other set of metadata equal to the chosen one,
/// and pads.
///
/// Where the pointer of a sequential zone that the map names stands inside a block, it writes zero sectors up
/// to the block's end: one call for each such zone, ascending. The pointers that it answers are those then. No
/// flush comes after.
///
/// `NoSuperBlock`, `Layout`, `BadMap` and `BadBits` come exactly where the disk is no volume, as
/// [`examine`] tells them; the disk then had one flush and no write. After `Device` and `Memory`, too, a
/// volume is the same one as before, with the same content.
///
/// Up to Ok it makes one writing call for each used block of the other set after the first that differs,
/// four more, two more where the other super block is bad, and one for each pad.
///
/// A stop at any moment of the call leaves the same volume too, where a stop before would have left what
/// the disk read as. Where it would not have, that is so from the end of the flush on; before, a stop may also
/// leave what it could have left before the call. `Device` doesn't tell whether the flush had ended, but for
/// the number of writing calls: where there were two, it had.
///
/// After Ok a stop leaves what the disk reads as, but for sectors of pads that may lack: both sets hold the
/// chosen head and the answer's blocks, and the tables in these serve the same content.
pub fn open<D: ZonedDisk>(alloc: Global, disk: &mut D) -> Result<Image, OpenFault>
    ensures ok { IfOk result (λ v. IsOpening v (D.view disk.old) (D.view disk.new)) }
    ensures err { IfErr result (λ fault. WhereTold (D.view disk.old).zones (ExplainsRefusal fault)) }
    ensures refused { IfErr result (λ fault. IsRefusal fault → IsFlushed
        (D.view disk.old) (D.view disk.new)) }

    // What the disk reads as, and what a stop leaves, at each moment of the call.
    ensures way { ReachesBy IsLeftOrKept (D.view disk.old) (D.view disk.new) }
    ensures kept { Keeps IsKept (D.view disk.old) (D.view disk.new) }
    ensures settled { (result ≡ Err OpenFault.Device → (D.view disk.old).calls + 2 ≤ (D.view disk.new).calls) →
        KeepsFrom ((D.view disk.old).calls + 1) (D.view disk.old) (D.view disk.new) }

    ensures cause { result ≡ Err OpenFault.Device → HasFailed (D.view disk.old) (D.view disk.new) }
{
    let Ok(_geometry) = settle_disk(disk) else {
        return Err(OpenFault::Device);
    };
    let mut image = match examine(alloc, disk) {
        Ok(image) => image,
        Err(fault) => return Err(fault),
    };
    let Ok(()) = make_equal(disk, &image.geometry, &image.chosen, &image.blocks) else {
        return Err(OpenFault::Device);
    };
    match pad(disk, &image.geometry, &image.named, &mut image.pointers) {
        Ok(()) => Ok(image),
        Err(Failed) => Err(OpenFault::Device),
    }
}
