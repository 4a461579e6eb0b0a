//! The other set made equal to the chosen one.

ghost use Rattle.std.specs.Prelude.{◌≡◌, ◌+◌, ◌-◌, ◌*◌, ◌/◌, ◌%◌, ◌<◌, ◌≤◌, ℕ, Some, IsSomeAnd, OnOk, length};
ghost use Rattle.zd_base.specs.Layout.{used_blocks};
ghost use Rattle.zd_disk.specs.Told.{WhereTold};
ghost use Rattle.zd_disk.specs.Runs.{run_count};
ghost use Rattle.zd_disk.specs.View.{Fails, Holds, IsDurable, Keeps, Made, MadeOf, MadeReads, Reaches, ReadsNone, ReadsOnce, Turns};
ghost use Rattle.zd_model.specs.Image.{set_block};
ghost use Rattle.zd_model.specs.Super.{FitsVersion, HasBlock};
ghost use Rattle.zd_sets.specs.Blocks.{AreBlocks};
ghost use Rattle.zd_sets.specs.Calls.{clear_calls, differing_from, equal_calls};
ghost use Rattle.zd_sets.specs.Choice.{IsChoice, IsPlacedChoice, chosen_of};
ghost use Rattle.zd_sets.specs.Kept.{HasPartOfBlocks, HasPartOfSuper, ChoosesSame, IsPartCleared, KeepsVolume};
ghost use Rattle.zd_sets.specs.Equal.{HasSetBlocks, HasSuper, InSet, IsCleared, IsMadeEqual, IsReady, OnlyAt, head_at};

use crate::read::read_run;
use crate::{Chosen, SetBlocks, write_block, write_super};
use zd_base::{BLOCK, Failed, Geometry, SECTOR, ZoneNo};
use zd_disk::{RUN_BLOCKS, ZonedDisk, run_length};
use zd_model::Super;

/// Makes block `i` of the set that begins in zone `first` that of these blocks, by a write where another one
/// stands there.
///
/// At any answer, and in what a stop leaves, the block begins with the magic bytes only where it did
/// before or where that of these blocks does.
fn copy_block<D: ZonedDisk>(
    disk: &mut D,
    geometry: &Geometry,
    first: ZoneNo,
    i: u32,
    blocks: &SetBlocks,
    there: &[u8],
) -> Result<(), Failed>
    requires told { (D.view disk.old).told ≡ Some geometry.now }
    requires inside { first + i / geometry.now.zone_blocks < geometry.now.conv }
    requires size { 4096 * (i + 1) ≤ length blocks.now }
    requires there { WhereTold (D.view disk.old).zones (λ image. there.now ≡ set_block image first i) }
    ensures ok { OnOk result (Turns (HasSetBlocks geometry.now first i (i + 1) blocks.now)
        (D.view disk.old) (D.view disk.new)) }
    ensures way { Reaches (HasPartOfBlocks geometry.now first i (i + 1) blocks.now)
        (D.view disk.old) (D.view disk.new) }
    ensures counted { OnOk result (MadeOf (differing_from blocks.now first i (i + 1))
        (D.view disk.old) (D.view disk.new)) }
    ensures read_calls { ReadsNone (D.view disk.old) (D.view disk.new) }
    ensures cause { Fails result (D.view disk.old) (D.view disk.new) }
{
    let _zone_blocks = geometry.zone_blocks();
    let block = blocks.block(i);
    if block == there {
        return Ok(());
    }
    write_block(disk, geometry, first, i, block)
}

/// Makes blocks of the set that begins in zone `first`, from block `i` up to block `end`, all in one zone, those
/// of these blocks: by one call that reads them into `there`, and a write for each that differs.
fn copy_run<D: ZonedDisk>(
    disk: &mut D,
    geometry: &Geometry,
    first: ZoneNo,
    i: u32,
    end: u32,
    blocks: &SetBlocks,
    there: &mut [u8],
) -> Result<(), Failed>
    requires told { (D.view disk.old).told ≡ Some geometry.now }
    requires some { i < end }
    requires zone { first + i / geometry.now.zone_blocks < geometry.now.conv }
    requires within { i % geometry.now.zone_blocks + (end - i) ≤ geometry.now.zone_blocks }
    requires size { 4096 * end ≤ length blocks.now }
    requires there { length there.old ≡ 4096 * (end - i) }
    ensures ok { OnOk result (Turns (HasSetBlocks geometry.now first i end blocks.now)
        (D.view disk.old) (D.view disk.new)) }
    ensures way { Reaches (HasPartOfBlocks geometry.now first i end blocks.now)
        (D.view disk.old) (D.view disk.new) }
    ensures counted { OnOk result (MadeOf (differing_from blocks.now first i end)
        (D.view disk.old) (D.view disk.new)) }
    ensures read_calls { OnOk result (ReadsOnce (D.view disk.old) (D.view disk.new)) }
    ensures cause { Fails result (D.view disk.old) (D.view disk.new) }
{
    let _zone_blocks = geometry.zone_blocks();
    read_run(disk, geometry, first, i, there)?;
    for k in i..end {
        let at = BLOCK * (k - i) as usize;
        copy_block(disk, geometry, first, k, blocks, &there[at..at + BLOCK])?;
    }
    Ok(())
}

/// Makes the blocks of the set that begins in zone `first` equal to these, from block 1 up to block
/// `end`, by writes of those that differ, and flushes. Each call reads up to 32 blocks of one zone.
///
/// At any answer, and in what a stop leaves, each begins with the magic bytes only where it did before
/// or where its own one does.
pub fn copy_blocks<D: ZonedDisk>(
    disk: &mut D,
    geometry: &Geometry,
    first: ZoneNo,
    end: u32,
    blocks: &SetBlocks,
) -> Result<(), Failed>
    requires told { (D.view disk.old).told ≡ Some geometry.now }
    requires some { 1 ≤ end }
    requires inside { (i : ℕ) → i < end → first + i / geometry.now.zone_blocks < geometry.now.conv }
    requires size { length blocks.now ≡ 4096 * end }
    ensures ok { OnOk result (Turns (HasSetBlocks geometry.now first 1 end blocks.now)
        (D.view disk.old) (D.view disk.new)) }
    ensures way { Reaches (HasPartOfBlocks geometry.now first 1 end blocks.now)
        (D.view disk.old) (D.view disk.new) }
    ensures counted { OnOk result (MadeOf (λ image. differing_from blocks.now first 1 end image + 1)
        (D.view disk.old) (D.view disk.new)) }
    ensures read_calls { OnOk result (MadeReads (run_count geometry.now 1 end)
        (D.view disk.old) (D.view disk.new)) }
    ensures durable { OnOk result (IsDurable (D.view disk.new)) }
    ensures cause { Fails result (D.view disk.old) (D.view disk.new) }
{
    let _zone_blocks = geometry.zone_blocks();
    let mut there = [0; BLOCK * RUN_BLOCKS as usize];
    let mut i = 1;
    while i < end {
        let count = run_length(geometry, i, end);
        let run = &mut there[..BLOCK * count as usize];
        copy_run(disk, geometry, first, i, i + count, blocks, run)?;
        i += count;
    }
    disk.flush()
}

/// Makes the first sector of a conventional zone zeros and flushes, where the super block there is bad:
/// no part of a write to it makes it good then, but the whole. At any answer, and in what a stop leaves,
/// it is as before, or bad as it was.
fn clear_bad<D: ZonedDisk>(
    disk: &mut D,
    geometry: &Geometry,
    zone: ZoneNo,
    good: bool,
) -> Result<(), Failed>
    requires told { (D.view disk.old).told ≡ Some geometry.now }
    requires zone { zone < geometry.now.conv }
    ensures ok { OnOk result (Turns (IsCleared geometry.now zone good)
        (D.view disk.old) (D.view disk.new)) }
    ensures way { Reaches (IsPartCleared geometry.now zone good) (D.view disk.old) (D.view disk.new) }
    ensures counted { OnOk result (Made (clear_calls good) (D.view disk.old) (D.view disk.new)) }
    ensures read_calls { ReadsNone (D.view disk.old) (D.view disk.new) }
    ensures durable { OnOk result (IsDurable (D.view disk.old) →
        IsDurable (D.view disk.new)) }
    ensures cause { Fails result (D.view disk.old) (D.view disk.new) }
{
    let _zone_blocks = geometry.zone_blocks();
    if good {
        return Ok(());
    }
    disk.write(zone, 0, &[0; SECTOR])?;
    disk.flush()
}

/// The head with the own number of a super block in this zone, in the version that it has.
fn head_at(geometry: &Geometry, zone: ZoneNo, head: Super) -> Super
    requires { FitsVersion head }
    ensures value { result ≡ head_at geometry.now zone head }
    ensures sizes { HasBlock result }
{
    let own = u64::from(zone.0) * u64::from(geometry.zone_blocks());
    Super { own, ..head }
}

/// Writes the other set's super block, with the chosen fields and its own number, and flushes.
///
/// A stop or a failed call may cut the write short, so the other set needs the used blocks of the chosen
/// one before, on the disk and in each image that a stop may leave. At any answer, and in what a stop
/// leaves, the super block is as before, or bad as it was, or has the chosen fields.
fn put_super<D: ZonedDisk>(disk: &mut D, geometry: &Geometry, chosen: &Chosen) -> Result<(), Failed>
    requires told { (D.view disk.old).told ≡ Some geometry.now }
    requires placed { IsPlacedChoice geometry.now chosen.now }
    requires ready { Holds (IsReady chosen.now (used_blocks geometry.now chosen.now.head.layout))
        (D.view disk.old) }
    ensures ok { OnOk result (Turns (HasSuper geometry.now chosen.now.other chosen.now.head)
        (D.view disk.old) (D.view disk.new)) }
    ensures way { Reaches (HasPartOfSuper geometry.now chosen.now) (D.view disk.old) (D.view disk.new) }
    ensures counted { OnOk result (Made 2 (D.view disk.old) (D.view disk.new)) }
    ensures read_calls { ReadsNone (D.view disk.old) (D.view disk.new) }
    ensures durable { OnOk result (IsDurable (D.view disk.new)) }
    ensures cause { Fails result (D.view disk.old) (D.view disk.new) }
{
    let _zone_blocks = geometry.zone_blocks();
    let head = head_at(geometry, chosen.other, chosen.head);
    write_super(disk, chosen.other, &head)?;
    disk.flush()
}

/// Makes the other set equal to the chosen one, whose used blocks these are.
///
/// Where the other super block is bad, its first sector is made zeros first. Then the blocks that
/// differ are written, and last the super block, with the chosen fields and its own number; each of
/// the three parts ends with a flush.
///
/// Up to Ok it makes one writing call for each used block after the first that differs, three more, and
/// two more where the other super block is bad. Each call that reads takes up to 32 blocks of one zone.
///
/// After Ok a stop leaves what the disk reads as. Before, and at any answer, a stop leaves the disk
/// changed in used blocks of the other set alone. At any answer the set that is chosen has the same head and
/// blocks, and a volume is one still, with the same content; and so is what a stop leaves at any moment, where a
/// stop before would have left what the disk read as.
pub fn make_equal<D: ZonedDisk>(
    disk: &mut D,
    geometry: &Geometry,
    chosen: &Chosen,
    blocks: &SetBlocks,
) -> Result<(), Failed>
    requires told { (D.view disk.old).told ≡ Some geometry.now }
    requires placed { IsPlacedChoice geometry.now chosen.now }
    requires chosen { WhereTold (D.view disk.old).zones (IsChoice chosen.now) }
    requires size { length blocks.now ≡ 4096 * used_blocks geometry.now chosen.now.head.layout }
    requires blocks { WhereTold (D.view disk.old).zones (λ image.
        AreBlocks image chosen.now.zone (used_blocks geometry.now chosen.now.head.layout) blocks.now) }
    ensures ok { OnOk result (Turns (IsMadeEqual geometry.now chosen.now
        (used_blocks geometry.now chosen.now.head.layout)) (D.view disk.old) (D.view disk.new)) }
    ensures way { Reaches (OnlyAt (InSet geometry.now chosen.now.other 0
        (used_blocks geometry.now chosen.now.head.layout))) (D.view disk.old) (D.view disk.new) }
    ensures kept { Keeps (KeepsVolume (chosen_of chosen.now)) (D.view disk.old) (D.view disk.new) }
    ensures kept_set { Keeps (ChoosesSame (chosen_of chosen.now)
        (used_blocks geometry.now chosen.now.head.layout)) (D.view disk.old) (D.view disk.new) }
    ensures counted { OnOk result (MadeOf (equal_calls chosen.now
        (used_blocks geometry.now chosen.now.head.layout)) (D.view disk.old) (D.view disk.new)) }
    ensures read_calls { OnOk result (MadeReads
        (run_count geometry.now 1 (used_blocks geometry.now chosen.now.head.layout))
        (D.view disk.old) (D.view disk.new)) }
    ensures durable { OnOk result (IsDurable (D.view disk.new)) }
    ensures cause { Fails result (D.view disk.old) (D.view disk.new) }
{
    let _zone_blocks = geometry.zone_blocks();
    let used = chosen.head.layout.used_blocks(geometry);
    clear_bad(disk, geometry, chosen.other, chosen.other_good)?;
    copy_blocks(disk, geometry, chosen.other, used, blocks)?;
    put_super(disk, geometry, chosen)
}
