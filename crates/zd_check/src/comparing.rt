//! Both sets of metadata compared, in memory.

ghost use Rattle.std.specs.Prelude.{◌≡◌, ◌↔◌, ◌*◌, IfNone, IfSome, IsTrue, Ok, length};
ghost use Rattle.zd_base.specs.Layout.{used_blocks};
ghost use Rattle.zd_model.specs.Image.{Image};
ghost use Rattle.zd_model.specs.Super.{decoded};
ghost use Rattle.zd_sets.specs.Choice.{IsPlacedChoice, chosen_of};
ghost use Rattle.zd_sets.specs.Equal.{head_at};
ghost use Rattle.zd_check.specs.Verdicts.{AreBothSets, DifferFirstIn, HaveSameBlocks, IsVerdictOf, block_in};

use zd_base::{Geometry, ZoneNo};
use zd_model::Super;
use zd_sets::{Chosen, SetBlocks};
use zd_super::decode;

/// How the other set of metadata compares with the chosen one.
#[derive(Clone, Copy, Debug, PartialEq, Eq)]
pub enum Verdict {
    /// Its super block and its used blocks are the same.
    Same,
    /// Its super block is bad, or differs in more than its own number and the crc that covers it: a
    /// different generation is a difference.
    Super {
        /// The other set, 0 or 1.
        set: u32,
    },
    /// The super blocks are the same, and this used block is the first that differs.
    Block {
        /// The block, counted from the super block of its set.
        block: u32,
    },
}

/// Whether a block is a super block of this zone with the fields of this head, which may stand elsewhere.
fn is_super_of(geometry: &Geometry, zone: ZoneNo, head: Super, block: &[u8]) -> bool
    requires size { length block.now ≡ 4096 }
    ensures { IsTrue result ↔ (decoded block.now ≡ Ok (head_at geometry.now zone head)) }
{
    let own = u64::from(zone.0) * u64::from(geometry.zone_blocks());
    match decode(block) {
        Ok(found) => found == Super { own, ..head },
        Err(_) => false,
    }
}

/// The first block in which two sets differ, from block 1 on, below block `end`.
fn first_difference(blocks: &SetBlocks, others: &SetBlocks, end: u32) -> Option<u32>
    requires blocks { length blocks.now ≡ 4096 * end }
    requires others { length others.now ≡ 4096 * end }
    ensures some { IfSome result (DifferFirstIn (block_in blocks.now) (block_in others.now) end) }
    ensures none { IfNone result (HaveSameBlocks (block_in blocks.now) (block_in others.now) end) }
{
    for block in 1..end {
        if blocks.block(block) != others.block(block) {
            return Some(block);
        }
    }
    None
}

/// The verdict on the sets that have these used blocks, of which the first is the chosen one.
pub fn compare(
    geometry: &Geometry,
    chosen: &Chosen,
    blocks: &SetBlocks,
    others: &SetBlocks,
) -> Verdict
    requires placed { IsPlacedChoice geometry.now chosen.now }
    requires blocks { length blocks.now ≡ 4096 * used_blocks geometry.now chosen.now.head.layout }
    requires others { length others.now ≡ 4096 * used_blocks geometry.now chosen.now.head.layout }
    ensures { (image : Image) → AreBothSets geometry.now chosen.now blocks.now others.now image →
        IsVerdictOf image (chosen_of chosen.now) result }
{
    let used = chosen.head.layout.used_blocks(geometry);
    if !is_super_of(geometry, chosen.other, chosen.head, others.block(0)) {
        return Verdict::Super {
            set: 1 - chosen.set,
        };
    }
    match first_difference(blocks, others, used) {
        Some(block) => Verdict::Block { block },
        None => Verdict::Same,
    }
}
