//! Whole images: what is chosen, whether they are well-formed, and what they hold.

ghost use Rattle.std.specs.Prelude.{◌≡◌, [], ◌∷◌, ◌++◌, Some, None, ℕ, List, replicate};
ghost use Rattle.zd_model.specs.Bytes.{zero_sector};
ghost use Rattle.zd_model.specs.Image.{Image, IsImage, block_at, set_block};
ghost use Rattle.zd_model.specs.Plain.{array_after};
ghost use Rattle.zd_model.specs.Tables.{entry_at};
ghost use Rattle.zd_model.specs.Volume.{IsWellFormed, bits_in, chosen, content, entry_in};
ghost use Rattle.zd_examples.specs.Fresh.{bare_chosen, fresh_chosen, unmapped_entry};
ghost use Rattle.zd_examples.specs.Images.{buffered_image, conventional_image, fresh_image};
ghost use Rattle.zd_examples.specs.Images.{uniform_image};
ghost use Rattle.zd_examples.specs.Images.{large_image, places, sequential_image, shared_zone};
ghost use Rattle.zd_examples.specs.Blocks.{fresh_front};
ghost use Rattle.zd_examples.specs.Images.{bare_image, last_zone_image, three_first, three_second};
ghost use Rattle.zd_examples.specs.Images.{three_zones};
ghost use Rattle.zd_examples.specs.Images.{large_chosen, spare_chosen, spare_image, twice_valid};
ghost use Rattle.zd_examples.specs.Choices.{at_zone, beginning, second_at};
ghost use Rattle.zd_examples.specs.Layouts.{large, large_layout};
ghost use Rattle.zd_examples.specs.Requests.{zero_volume};

use zd_model::What;

/// Blocks are eight sectors; a set may go on into the next zone.
pub fn place_examples()
    ensures block { block_at places 3 5
        ≡ 3 ∷ 40 ∷ 3 ∷ 41 ∷ 3 ∷ 42 ∷ 3 ∷ 43 ∷ 3 ∷ 44 ∷ 3 ∷ 45 ∷ 3 ∷ 46 ∷ 3 ∷ 47 ∷ [] }
    ensures last { set_block places 1 15 ≡ block_at places 1 15 }
    ensures next_zone { set_block places 1 16 ≡ block_at places 2 0 }
    ensures behind { set_block places 1 33 ≡ block_at places 3 1 }
{}

/// Conventional zones are full, sequential ones are held up to a pointer in them, and sectors are
/// 512 bytes.
pub fn image_examples()
    ensures blank { IsImage (uniform_image 128 0 zero_sector) }
    ensures full { IsImage (uniform_image 128 128 zero_sector) }
    ensures past { IsImage (uniform_image 128 129 zero_sector) → ⊥ }
    ensures not_full { IsImage (uniform_image 127 0 zero_sector) → ⊥ }
    ensures short { IsImage (uniform_image 128 0 (replicate 511 0)) → ⊥ }
    ensures no_byte { IsImage (uniform_image 128 0 (256 ∷ replicate 511 0)) → ⊥ }
{}

/// Sets are chosen in images of whole blocks.
pub fn chosen_examples()
    ensures fresh { chosen fresh_image ≡ Some fresh_chosen }
    ensures conventional { chosen conventional_image ≡ Some fresh_chosen }
    ensures sequential { chosen (sequential_image 8) ≡ Some fresh_chosen }
    ensures buffered { chosen buffered_image ≡ Some fresh_chosen }
    ensures last_zone { chosen (last_zone_image 8) ≡ Some fresh_chosen }
{}

/// Contents are those of a plain array after the writes.
pub fn content_examples()
    ensures fresh { content fresh_image fresh_chosen ≡ zero_volume }
    ensures conventional { content conventional_image fresh_chosen
        ≡ array_after zero_volume (What.Write 1 1 4) }
    ensures sequential { content (sequential_image 8) fresh_chosen
        ≡ array_after zero_volume (What.Write 0 1 1) }
    ensures stray { content (sequential_image 11) fresh_chosen
        ≡ array_after zero_volume (What.Write 0 1 1) }
    ensures last_zone { content (last_zone_image 8) fresh_chosen
        ≡ array_after zero_volume (What.Write 0 1 1) }
    ensures bare { content bare_image bare_chosen ≡ zero_volume }
    ensures buffered { content buffered_image fresh_chosen
        ≡ array_after (array_after zero_volume (What.Write 0 1 1)) (What.Write 3 1 7) }
    ensures entry { entry_in fresh_image fresh_chosen 7 ≡ unmapped_entry }
{}

/// Images that follow all rules. A pointer may stand inside a block behind the last valid one, and
/// behind a good super block 0 any block of its set may begin with the magic bytes.
pub fn well_formed_examples()
    ensures fresh { IsWellFormed fresh_image fresh_chosen }
    ensures conventional { IsWellFormed conventional_image fresh_chosen }
    ensures sequential { IsWellFormed (sequential_image 8) fresh_chosen }
    ensures stray { IsWellFormed (sequential_image 11) fresh_chosen }
    ensures buffered { IsWellFormed buffered_image fresh_chosen }
    ensures spare_magic { IsWellFormed spare_image spare_chosen }
    ensures last_zone { IsWellFormed (last_zone_image 8) fresh_chosen }
    ensures bare { IsWellFormed bare_image bare_chosen }
{}

/// Sets of three zones. Where super block 0 is good, a block of the set may begin with the magic
/// bytes, also in the third zone; where it is bad, such a block could be taken for a super block.
pub fn three_zone_examples()
    ensures good { IsWellFormed (three_zones 0 fresh_front) three_first }
    ensures bad { IsWellFormed (three_zones 3 fresh_front) three_second → ⊥ }
    ensures clean { IsWellFormed (three_zones 3 []) three_second }
{}

/// Images that break one: a valid block that the pointer cuts, a block that is valid twice, a zone
/// that two chunks name, and a second set in whose zones another super block may begin.
pub fn ill_formed_examples()
    ensures cut { IsWellFormed (sequential_image 7) fresh_chosen → ⊥ }
    ensures cut_last { IsWellFormed (last_zone_image 7) fresh_chosen → ⊥ }
    ensures twice { IsWellFormed twice_valid fresh_chosen → ⊥ }
    ensures shared { IsWellFormed shared_zone fresh_chosen → ⊥ }
    ensures other_magic { IsWellFormed
        (beginning ([] ∷ [] ∷ at_zone 2 20 4 ∷ at_zone 3 14 9 ∷ [])) (second_at 2 20 4) → ⊥ }
{}

/// Entries and bitmaps stand in their blocks of the chosen set, in whichever zone it begins.
pub fn table_place_examples()
    ensures entry { (image : Image) →
        entry_in image fresh_chosen 600 ≡ entry_at (set_block image 0 2) 88 }
    ensures other_set { (image : Image) →
        entry_in image (second_at 3 14 1) 511 ≡ entry_at (set_block image 3 1) 511 }
    ensures bits { (sector : ℕ → ℕ → List ℕ) →
        bits_in (large_image large sector) (large_chosen 0) 1
        ≡ block_at (large_image large sector) 0 105
        ++ (block_at (large_image large sector) 0 106 ++ []) }
    ensures far_bits { (sector : ℕ → ℕ → List ℕ) →
        bits_in (large_image large sector) (large_chosen 2) 40000
        ≡ block_at (large_image large sector) 3 14567
        ++ (block_at (large_image large sector) 3 14568 ++ []) }
{}
