//! Opening a volume, and starting it.

ghost use Rattle.std.specs.Prelude.{◌≡◌, ◌+◌, ◌≤◌, IfOk, IfErr};
ghost use Rattle.zd_disk.specs.Told.{WhereTold};
ghost use Rattle.zd_disk.specs.View.{HasFailed, Keeps, ReachesBy};
ghost use Rattle.zd_examine.specs.Examined.{ExplainsRefusal};
ghost use Rattle.zd_examine.specs.Opened.{IsFlushed, IsKept, IsLeftOrKept, IsRefusal, KeepsFrom};
ghost use Rattle.zd_open.specs.OpenedVolume.{IsOpenedVolume, disk_of, in_blocks};

use std::alloc::Global;
use zd_base::Memory;
use zd_disk::ZonedDisk;
use zd_examine::{Image, OpenFault, open};
use zd_state::Volume;

/// The sectors of a block.
const BLOCK_SECTORS: u32 = 8;

/// Pointers in sectors as pointers in blocks, rounded up.
fn in_blocks(mut pointers: Vec<u32>) -> Vec<u32>
    ensures { result.items ≡ in_blocks pointers.items }
{
    for i in 0..pointers.len() {
        pointers[i] = pointers[i].div_ceil(BLOCK_SECTORS);
    }
    pointers
}

/// Opens the volume on a disk and starts it. See [`open`] for the calls that it makes and for its refusals;
/// starting makes none.
///
/// `NoSuperBlock`, `Layout`, `BadMap` and `BadBits` come exactly where the disk is no volume. The disk then
/// had one flush and no write. `Memory` may also come when the disk is opened already.
pub fn open_volume<D: ZonedDisk>(alloc: Global, mut disk: D) -> Result<Volume<D>, (OpenFault, D)>
    ensures ok { IfOk result (λ v. IsOpenedVolume (D.view disk) (D.view v.disk) v) }
    ensures err { IfErr result (λ e. WhereTold (D.view disk).zones (ExplainsRefusal e.0)) }
    ensures refused { IfErr result (λ e. IsRefusal e.0 → IsFlushed (D.view disk) (D.view e.1)) }

    // What the disk reads as, and what a stop leaves, at each moment of the call.
    ensures way { ReachesBy IsLeftOrKept (D.view disk) (D.view (disk_of result)) }
    ensures kept { Keeps IsKept (D.view disk) (D.view (disk_of result)) }
    ensures settled { (IfErr result (λ e. e.0 ≡ OpenFault.Device →
        (D.view disk).calls + 2 ≤ (D.view e.1).calls)) →
        KeepsFrom ((D.view disk).calls + 1) (D.view disk) (D.view (disk_of result)) }

    ensures cause { IfErr result (λ e. e.0 ≡ OpenFault.Device → HasFailed (D.view disk) (D.view e.1)) }
{
    let image = match open(alloc, &mut disk) {
        Ok(image) => image,
        Err(fault) => return Err((fault, disk)),
    };
    let _zone_blocks = image.geometry.zone_blocks();
    let pointers = in_blocks(image.pointers);
    match Volume::start(
        alloc,
        disk,
        image.geometry,
        image.chosen,
        image.blocks,
        pointers,
    ) {
        Ok(volume) => Ok(volume),
        Err((Memory, disk)) => Err((OpenFault::Memory, disk)),
    }
}
