//! A new label for a volume.

ghost use Rattle.std.specs.Prelude.{◌≡◌, ◌+◌, ◌<◌, ◌≤◌, ◌^◌, IfErr, IfOk, OnOk};
ghost use Rattle.zd_disk.specs.Told.{WhereTold};
ghost use Rattle.zd_disk.specs.View.{HasFailed, Keeps, ReachesBy};
ghost use Rattle.zd_model.specs.Super.{FitsVersion};
ghost use Rattle.zd_repair.specs.Reheaded.{HasChangedHeads, IsKeptBut, IsLeftOrBut, KeepsFromBut, disk_in};
ghost use Rattle.zd_repair.specs.Relabeled.{BlamesRelabel, CannotRelabel, ExplainsRelabel, RelabelLeaves, relabeled};

use crate::heads::write_heads;
use std::alloc::Global;
use zd_base::Failed;
use zd_disk::ZonedDisk;
use zd_examine::{OpenFault, open};
use zd_model::Super;
use zd_super::BARE_VERSION;

/// Why a volume wasn't given a new label. The first that holds is told.
#[derive(Clone, Copy, Debug, PartialEq, Eq)]
pub enum RelabelFault {
    /// It couldn't be opened.
    Open(OpenFault),
    /// It is of version 1, which has no label. It was opened, and nothing else was written.
    Old,
    /// Its generation is the last one. It was opened, and nothing else was written.
    Generation,
    /// A call of the disk failed after the volume was opened. It has the old label or the new one.
    Device,
}

/// The head with this label, of the next generation.
fn relabeled(head: &Super, label: [u8; 32]) -> Result<Super, RelabelFault>
    requires { FitsVersion head.now }
    ensures ok { IfOk result (λ next. next ≡ relabeled label head.now) }
    ensures fits { IfOk result FitsVersion }
    ensures named { OnOk result (head.now.version ≡ 2) }
    ensures rises { OnOk result (head.now.generation + 1 < 2 ^ 64) }
    ensures err { IfErr result (CannotRelabel head.now) }
{
    if head.version == BARE_VERSION {
        return Err(RelabelFault::Old);
    }
    match head.generation.checked_add(1) {
        Some(generation) => Ok(Super {
            generation,
            label,
            ..*head
        }),
        None => Err(RelabelFault::Generation),
    }
}

/// Gives the volume on a disk a new label: opens it, and writes the super blocks of set 1 and set 0 with the label
/// and the next generation, each followed by a flush.
///
/// `Open` comes exactly where the disk is no volume, as [`open`] tells it; `Old` exactly where it is one of version
/// 1; `Generation` exactly where it is one of version 2 whose generation is the last.
///
/// At any answer, and in what a stop leaves at any moment, a volume is the same one, with the same content, and its
/// label is the old or the new one: where a stop before would have left what the disk read as, and else from the
/// end of the first flush on.
pub fn relabel<D: ZonedDisk>(
    alloc: Global,
    mut disk: D,
    label: [u8; 32],
) -> Result<D, (RelabelFault, D)>
    ensures ok { IfOk result (λ after. HasChangedHeads 2 (relabeled label) (D.view disk) (D.view after)) }
    ensures err { IfErr result (λ e. WhereTold (D.view disk).zones (ExplainsRelabel e.0)) }
    ensures leaves { IfErr result (λ e. RelabelLeaves label e.0 (D.view disk) (D.view e.1)) }

    // What the disk reads as, and what a stop leaves, at each moment of the call.
    ensures way { ReachesBy (IsLeftOrBut (relabeled label)) (D.view disk) (D.view (disk_in result)) }
    ensures kept { Keeps (IsKeptBut (relabeled label)) (D.view disk) (D.view (disk_in result)) }
    ensures settled { IfErr result (λ e. e.0 ≡ RelabelFault.Open OpenFault.Device →
        (D.view disk).calls + 2 ≤ (D.view e.1).calls) →
        KeepsFromBut (relabeled label) ((D.view disk).calls + 1) (D.view disk) (D.view (disk_in result)) }

    ensures cause { IfErr result (λ e. BlamesRelabel e.0 → HasFailed (D.view disk) (D.view e.1)) }
{
    let image = match open(alloc, &mut disk) {
        Ok(image) => image,
        Err(fault) => return Err((RelabelFault::Open(fault), disk)),
    };
    let _zone_blocks = image.geometry.zone_blocks();
    let head = match relabeled(&image.chosen.head, label) {
        Ok(head) => head,
        Err(fault) => return Err((fault, disk)),
    };
    match write_heads(&mut disk, &image, &head) {
        Ok(()) => Ok(disk),
        Err(Failed) => Err((RelabelFault::Device, disk)),
    }
}
