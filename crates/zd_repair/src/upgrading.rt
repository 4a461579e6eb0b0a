//! A volume of version 1 made one of version 2.

ghost use Rattle.std.specs.Prelude.{◌≡◌, ◌+◌, ◌<◌, ◌≤◌, ◌^◌, IfErr, IfOk, OnOk};
ghost use Rattle.zd_disk.specs.Told.{WhereTold};
ghost use Rattle.zd_disk.specs.View.{HasFailed, Keeps, ReachesBy};
ghost use Rattle.zd_model.specs.Super.{FitsVersion};
ghost use Rattle.zd_repair.specs.Reheaded.{HasChangedHeads, IsKeptBut, IsLeftOrBut, KeepsFromBut, disk_in};
ghost use Rattle.zd_repair.specs.Upgraded.{BlamesUpgrade, CannotUpgrade, ExplainsUpgrade, UpgradeLeaves, upgraded};

use crate::heads::write_heads;
use std::alloc::Global;
use uuid::Uuid;
use zd_base::Failed;
use zd_disk::ZonedDisk;
use zd_examine::{OpenFault, open};
use zd_format::device_of;
use zd_model::Super;
use zd_super::NAMED_VERSION;

/// Why a volume wasn't made one of version 2. The first that holds is told.
#[derive(Clone, Copy, Debug, PartialEq, Eq)]
pub enum UpgradeFault {
    /// It couldn't be opened.
    Open(OpenFault),
    /// It is of version 2 already. It was opened, and nothing else was written.
    NotOld,
    /// Its generation is the last one. It was opened, and nothing else was written.
    Generation,
    /// A call of the disk failed after the volume was opened. It is of version 1 still, or of version 2.
    Device,
}

/// The head in version 2, of the next generation, with this label, this identifier of the volume and the one of
/// its device that follows from it.
fn upgraded(head: &Super, label: [u8; 32], volume: Uuid) -> Result<Super, UpgradeFault>
    requires { FitsVersion head.now }
    ensures ok { IfOk result (λ next. next ≡ upgraded label volume head.now) }
    ensures fits { IfOk result FitsVersion }
    ensures bare { OnOk result (head.now.version ≡ 1) }
    ensures rises { OnOk result (head.now.generation + 1 < 2 ^ 64) }
    ensures err { IfErr result (CannotUpgrade head.now) }
{
    if head.version == NAMED_VERSION {
        return Err(UpgradeFault::NotOld);
    }
    match head.generation.checked_add(1) {
        Some(generation) => Ok(Super {
            version: NAMED_VERSION,
            generation,
            own: head.own,
            layout: head.layout,
            label,
            volume,
            device: device_of(&volume),
        }),
        None => Err(UpgradeFault::Generation),
    }
}

/// Makes the volume on a disk, which is of version 1, one of version 2: opens it, and writes the super blocks of set
/// 1 and set 0 in version 2, with the next generation, this label and this identifier, each followed by a flush.
///
/// `Open` comes exactly where the disk is no volume, as [`open`] tells it; `NotOld` exactly where it is one of version
/// 2; `Generation` exactly where it is one of version 1 whose generation is the last.
///
/// At any answer, and in what a stop leaves at any moment, a volume is the same one, with the same content; and it is
/// of version 1, or of version 2 with the new label and identifiers: where a stop before would have left what the
/// disk read as, and else from the end of the first flush on.
pub fn upgrade<D: ZonedDisk>(
    alloc: Global,
    mut disk: D,
    label: [u8; 32],
    volume: Uuid,
) -> Result<D, (UpgradeFault, D)>
    ensures ok { IfOk result (λ after. HasChangedHeads 1 (upgraded label volume) (D.view disk) (D.view after)) }
    ensures err { IfErr result (λ e. WhereTold (D.view disk).zones (ExplainsUpgrade e.0)) }
    ensures leaves { IfErr result (λ e. UpgradeLeaves label volume e.0 (D.view disk) (D.view e.1)) }

    // What the disk reads as, and what a stop leaves, at each moment of the call.
    ensures way { ReachesBy (IsLeftOrBut (upgraded label volume)) (D.view disk) (D.view (disk_in result)) }
    ensures kept { Keeps (IsKeptBut (upgraded label volume)) (D.view disk) (D.view (disk_in result)) }
    ensures settled { IfErr result (λ e. e.0 ≡ UpgradeFault.Open OpenFault.Device →
        (D.view disk).calls + 2 ≤ (D.view e.1).calls) →
        KeepsFromBut (upgraded label volume) ((D.view disk).calls + 1) (D.view disk) (D.view (disk_in result)) }

    ensures cause { IfErr result (λ e. BlamesUpgrade e.0 → HasFailed (D.view disk) (D.view e.1)) }
{
    let image = match open(alloc, &mut disk) {
        Ok(image) => image,
        Err(fault) => return Err((UpgradeFault::Open(fault), disk)),
    };
    let _zone_blocks = image.geometry.zone_blocks();
    let head = match upgraded(&image.chosen.head, label, volume) {
        Ok(head) => head,
        Err(fault) => return Err((fault, disk)),
    };
    match write_heads(&mut disk, &image, &head) {
        Ok(()) => Ok(disk),
        Err(Failed) => Err((UpgradeFault::Device, disk)),
    }
}
