//! A disk checked.

ghost use Rattle.std.specs.Prelude.{◌≡◌, IfErr, IfOk};
ghost use Rattle.zd_disk.specs.Told.{WhereTold};
ghost use Rattle.zd_disk.specs.View.{HasFailed, OnlyReads};
ghost use Rattle.zd_examine.specs.Examined.{ExplainsRefusal};
ghost use Rattle.zd_check.specs.Verdicts.{IsVerdict};

use crate::comparing::{Verdict, compare};
use std::alloc::Global;
use zd_disk::ZonedDisk;
use zd_examine::{OpenFault, examine};
use zd_sets::{ReadFault, read_blocks};

/// Checks a volume: examines the disk, and compares the other set of metadata with the chosen one. It makes
/// no writing call.
///
/// The other set's used blocks are read once, in calls of up to 32 blocks of one zone, and both sets are
/// in memory then. Blocks that no layout uses are never compared.
///
/// `NoSuperBlock`, `Layout`, `BadMap` and `BadBits` come exactly where the disk is no volume, as
/// [`examine`] tells them: such a disk has no verdict.
pub fn check<D: ZonedDisk>(alloc: Global, disk: &mut D) -> Result<Verdict, OpenFault>
    ensures ok { IfOk result (λ verdict. WhereTold (D.view disk.old).zones (λ image.
        IsVerdict image verdict)) }
    ensures err { IfErr result (λ fault. WhereTold (D.view disk.old).zones (ExplainsRefusal fault)) }
    ensures reads { OnlyReads (D.view disk.old) (D.view disk.new) }
    ensures cause { result ≡ Err OpenFault.Device → HasFailed (D.view disk.old) (D.view disk.new) }
{
    let image = examine(alloc, disk)?;
    let geometry = &image.geometry;
    let chosen = &image.chosen;
    let used = chosen.head.layout.used_blocks(geometry);
    match read_blocks(alloc, disk, geometry, chosen.other, used) {
        Ok(others) => Ok(compare(geometry, chosen, &image.blocks, &others)),
        Err(ReadFault::Device) => Err(OpenFault::Device),
        Err(ReadFault::Memory) => Err(OpenFault::Memory),
    }
}
