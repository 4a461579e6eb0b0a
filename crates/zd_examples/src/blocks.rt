//! Super blocks, blocks of the map and of the bitmaps.

ghost use Rattle.std.specs.Prelude.{◌≡◌, ◌+◌, ◌^◌, ◌++◌, [], ◌∷◌, Some, None, Ok, Err, true, false};
ghost use Rattle.std.specs.Prelude.{codes, length, map, replicate, take};
ghost use Rattle.std.specs.List.{range_with_len};
ghost use Rattle.zd_model.specs.Bytes.{u32_at, u64_at, sectors_of};
ghost use Rattle.zd_model.specs.Crc.{crc32_le};
ghost use Rattle.zd_model.specs.Super.{FitsVersion, before_crc, behind_crc, block_of, decoded};
ghost use Rattle.zd_model.specs.Tables.{entry_at, is_set, named};
ghost use Rattle.zd_examples.specs.Fresh.{bare_head, buffered, fresh_head, fresh_layout, head, only};
ghost use Rattle.zd_examples.specs.Fresh.{unmapped_entry};
ghost use Rattle.zd_examples.specs.Blocks.{fresh_front, named_head, short_block, short_with};
ghost use Rattle.zd_examples.specs.Blocks.{short_crc, with_tail, first_tail, last_tail, with_byte};
ghost use Rattle.zd_examples.specs.Blocks.{identified, labelled, map_bytes, of_version, with_device};

use zd_model::NotSuper;

/// The well-known check value, complemented; no bytes; a block of zeros.
pub fn crc_examples()
    ensures check { crc32_le 0xFFFFFFFF (codes "123456789") ≡ 0x340BC6D9 }
    ensures nothing { crc32_le 5 (codes "") ≡ 5 }
    ensures zeros { crc32_le 0 (replicate 4096 0) ≡ 0 }
{}

/// Numbers have their lowest byte first, and a block has eight sectors.
#[tactic(auto, unfolding(zd_model::specs::Bytes::u32_at, zd_model::specs::Bytes::u64_at))]
pub fn number_examples()
    ensures four { u32_at (range_with_len 0 16) 4 ≡ 0x07060504 }
    ensures eight { u64_at (range_with_len 0 16) 8 ≡ 0x0f0e0d0c0b0a0908 }
    ensures sectors { map length (sectors_of (replicate 1030 0)) ≡ 512 ∷ 512 ∷ [] }
{}

/// The super blocks of a fresh volume. The crc starts with the lower half of the generation.
#[tactic(auto, unfolding(zd_model::specs::Super::behind_crc))]
pub fn super_block_examples()
    ensures front { before_crc (fresh_head 0) ≡ fresh_front }
    ensures fields { take 64 (behind_crc named_head) ≡ range_with_len 1 64 }
    ensures behind { length (behind_crc named_head) ≡ 4048 }
    ensures first { u32_at (block_of (fresh_head 0)) 44 ≡ 0xf32eae2c }
    ensures second { u32_at (block_of (fresh_head 16)) 44 ≡ 0x4df80e4a }
    ensures late { u32_at (block_of (head (2 ^ 32 + 1) 0 fresh_layout)) 44 ≡ 0x76359c62 }
    ensures decoded { decoded (block_of (fresh_head 0)) ≡ Ok (fresh_head 0) }
{}

/// Why blocks are no super blocks: the magic is looked at first, then version, crc and tail.
pub fn refused_block_examples()
    ensures right { decoded (short_block named_head) ≡ Ok named_head }
    ensures late { decoded (short_block (head (2 ^ 33 + 5) 16 fresh_layout))
        ≡ Ok (head (2 ^ 33 + 5) 16 fresh_layout) }
    ensures nothing { decoded (replicate 120 0) ≡ Err NotSuper.Magic }
    ensures magic { decoded (with_byte 3 0) ≡ Err NotSuper.Magic }
    ensures version { decoded (with_byte 4 3) ≡ Err NotSuper.Version }
    ensures other_version { decoded (with_byte 4 1) ≡ Err NotSuper.Crc }
    ensures crc { decoded (with_byte 44 0) ≡ Err NotSuper.Crc }
    ensures label { decoded (with_byte 48 1) ≡ Err NotSuper.Crc }
    ensures unsigned { decoded (with_byte 119 1) ≡ Err NotSuper.Crc }
    ensures tail_begins { decoded (with_tail first_tail) ≡ Err NotSuper.Tail }
    ensures tail_ends { decoded (with_tail last_tail) ≡ Err NotSuper.Tail }
{}

/// Super blocks of version 1 have the same numbers and crc, and zeros after them: a byte where
/// version 2 has its label or an identifier is refused.
pub fn version_examples()
    ensures first { u32_at (block_of (bare_head 1 0)) 44 ≡ 0x206fa746 }
    ensures second { u32_at (block_of (bare_head 1 16)) 44 ≡ 0x9eb90720 }
    ensures front { take 8 (before_crc (bare_head 1 0))
        ≡ 0x44 ∷ 0x42 ∷ 0x5a ∷ 0x44 ∷ 1 ∷ 0 ∷ 0 ∷ 0 ∷ [] }
    ensures decoded { decoded (short_block (bare_head 1 0)) ≡ Ok (bare_head 1 0) }
    ensures label { decoded (short_block (labelled (bare_head 1 0))) ≡ Err NotSuper.Tail }
    ensures device { decoded (short_block (with_device (bare_head 1 0))) ≡ Err NotSuper.Tail }
    ensures named { decoded (short_block (labelled (fresh_head 0))) ≡ Ok (labelled (fresh_head 0)) }
    ensures none { decoded (short_block (of_version 0)) ≡ Err NotSuper.Version }
    ensures third { decoded (short_block (of_version 3)) ≡ Err NotSuper.Version }
{}

/// Which heads fit their version, and so have a super block.
pub fn fit_version_examples()
    ensures bare { FitsVersion (bare_head 7 16) }
    ensures named { FitsVersion named_head }
    ensures label { FitsVersion (labelled (bare_head 1 0)) → ⊥ }
    ensures volume { FitsVersion (identified (bare_head 1 0)) → ⊥ }
    ensures device { FitsVersion (with_device (bare_head 1 0)) → ⊥ }
    ensures none { FitsVersion (of_version 0) → ⊥ }
    ensures third { FitsVersion (of_version 3) → ⊥ }
{}

/// Entries of a map block, and bits of a bitmap.
#[tactic(auto, unfolding(zd_model::specs::Bytes::u32_at))]
pub fn table_examples()
    ensures buffered { entry_at map_bytes 0 ≡ buffered 6 4 }
    ensures mapped { entry_at map_bytes 1 ≡ only 5 }
    ensures unmapped { entry_at map_bytes 2 ≡ unmapped_entry }
    ensures zone_zero { named 0 ≡ Some 0 }
    ensures greatest { named 0xFFFFFFFE ≡ Some 0xFFFFFFFE }
    ensures nothing { named 0xFFFFFFFF ≡ None }
    ensures bits { map (is_set (0x0b ∷ 0x80 ∷ [])) (range_with_len 0 8)
        ≡ true ∷ true ∷ false ∷ true ∷ false ∷ false ∷ false ∷ false ∷ [] }
    ensures second_byte { map (is_set (0x0b ∷ 0x80 ∷ [])) (range_with_len 8 8)
        ≡ false ∷ false ∷ false ∷ false ∷ false ∷ false ∷ false ∷ true ∷ [] }
    ensures behind { is_set (0x0b ∷ []) 8 ≡ false }
{}
