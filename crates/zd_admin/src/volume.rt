//! A volume shown: what its super block says, and how much of it is in use.

ghost use Rattle.std.specs.Prelude.{◌≡◌, ◌+◌, ◌*◌, ◌<◌, ◌≤◌, ◌^◌, Err, IfErr, IfOk, count_by, length, not, slice_range};
ghost use Rattle.zd_disk.specs.Told.{WhereTold};
ghost use Rattle.zd_disk.specs.View.{HasFailed, OnlyReads};
ghost use Rattle.zd_examine.specs.Examined.{ExplainsRefusal, IsUsable};
ghost use Rattle.zd_tables.specs.Tables.{entries_in, tables_in};
ghost use Rattle.zd_admin.specs.Shown.{CountsUse, IsStatus, buffered_chunks, mapped_chunks};

use std::alloc::Global;
use zd_disk::ZonedDisk;
use zd_examine::{Image, OpenFault, examine};
use zd_model::{Layout, Super};
use zd_sets::SetBlocks;
use zd_tables::entry;

/// A volume, as it is shown.
#[derive(Clone, Copy, Debug, PartialEq, Eq)]
pub struct VolumeStatus {
    /// The head of the chosen set.
    pub head: Super,
    /// The chunks that have a zone.
    pub mapped: u32,
    /// The chunks that have a buffer.
    pub buffered: u32,
    /// The conventional data zones that no chunk has.
    pub free_conventional: u32,
    /// The sequential zones that no chunk has.
    pub free_sequential: u32,
}

/// How many chunks have a zone, and how many have a buffer.
fn count_chunks(layout: &Layout, blocks: &SetBlocks) -> (u32, u32)
    requires size { 4096 * (1 + layout.now.map_blocks) ≤ length blocks.now }
    requires map { layout.now.chunks ≤ layout.now.map_blocks * 512 }
    ensures mapped { result.0 ≡ mapped_chunks (entries_in layout.now blocks.now) }
    ensures buffered { result.1 ≡ buffered_chunks (entries_in layout.now blocks.now) }
{
    let (mut mapped, mut buffered) = (0, 0);
    for chunk in 0..layout.chunks {
        let entry = entry(blocks, chunk);
        mapped += u32::from(entry.zone.is_some());
        buffered += u32::from(entry.buffer.is_some());
    }
    (mapped, buffered)
}

/// How many zones no chunk has, of those from one on and before another.
fn count_free(named: &[bool], from: usize, end: usize) -> u32
    requires order { from ≤ end }
    requires inside { end ≤ length named.now }
    requires few { length named.now < 2 ^ 32 }
    ensures { result ≡ count_by not (slice_range named.now from end) }
{
    let mut free = 0;
    for is_named in &named[from..end] {
        free += u32::from(!*is_named);
    }
    free
}

/// What is shown of a volume that was examined.
fn status_of(image: &Image) -> VolumeStatus
    requires { IsUsable image.now.geometry image.now.chosen image.now.blocks
        image.now.pointers.items image.now.named.items }
    ensures head { result.head ≡ image.now.chosen.head }
    ensures counts { CountsUse image.now.geometry image.now.chosen.head.layout
        (tables_in image.now.geometry image.now.chosen.head.layout image.now.blocks) result }
{
    let head = image.chosen.head;
    let conv = image.geometry.conv() as usize;
    let first = 2 * head.layout.set_zones(&image.geometry) as usize;
    let zones = image.geometry.zones() as usize;
    let (mapped, buffered) = count_chunks(&head.layout, &image.blocks);
    VolumeStatus {
        head,
        mapped,
        buffered,
        free_conventional: count_free(&image.named, first, conv),
        free_sequential: count_free(&image.named, conv, zones),
    }
}

/// Shows a volume: the head of its chosen set, and how much of it is in use. It makes no writing call.
///
/// `NoSuperBlock`, `Layout`, `BadMap` and `BadBits` come exactly where the disk is no volume, as
/// [`examine`] tells them.
pub fn volume_status<D: ZonedDisk>(alloc: Global, disk: &mut D) -> Result<VolumeStatus, OpenFault>
    ensures ok { IfOk result (λ status. WhereTold (D.view disk.old).zones (λ image. IsStatus image status)) }
    ensures err { IfErr result (λ fault. WhereTold (D.view disk.old).zones (ExplainsRefusal fault)) }
    ensures reads { OnlyReads (D.view disk.old) (D.view disk.new) }
    ensures cause { result ≡ Err OpenFault.Device → HasFailed (D.view disk.old) (D.view disk.new) }
{
    let image = examine(alloc, disk)?;
    Ok(status_of(&image))
}
