//! Patterns, the plain array, and the pieces of requests.

ghost use Rattle.std.specs.Prelude.{◌≡◌, ◌+◌, ◌-◌, ◌^◌, ◌++◌, [], ◌∷◌, drop, replicate, take, true};
ghost use Rattle.std.specs.Prelude.{false};
ghost use Rattle.zd_model.specs.Bytes.{overwrite, zero_sector};
ghost use Rattle.zd_model.specs.Pieces.{pieces_of};
ghost use Rattle.zd_model.specs.Requests.{block_count, first_block};
ghost use Rattle.zd_model.specs.Plain.{Answer, ends_past, pattern, plain, word};
ghost use Rattle.zd_examples.specs.Requests.{patterns, patterned, piece, piece_by, request};
ghost use Rattle.zd_examples.specs.Requests.{request_by, three_chunks_pieces, three_chunks_plan};
ghost use Rattle.zd_examples.specs.Requests.{two_blocks, two_chunks_pieces, two_chunks_plan};

use zd_model::What;

/// The words of a sector: the seed is the upper half of each, the place is the lower one, and
/// begins again at 2^32.
#[tactic(auto, unfolding(zd_model::specs::Plain::pattern))]
pub fn pattern_examples()
    ensures first { word 3 5 0 ≡ 12884902208 }
    ensures last { word 3 5 63 ≡ 12884902271 }
    ensures again { word 1 (2 ^ 26) 1 ≡ 4294967297 }
    ensures bytes { take 8 (pattern 3 5) ≡ 0x40 ∷ 1 ∷ 0 ∷ 0 ∷ 3 ∷ 0 ∷ 0 ∷ 0 ∷ [] }
    ensures last_bytes { drop 504 (pattern 3 5) ≡ 0x7f ∷ 1 ∷ 0 ∷ 0 ∷ 3 ∷ 0 ∷ 0 ∷ 0 ∷ [] }
{}

/// Which requests end past a device of 128 blocks.
pub fn range_examples()
    ensures last_block { ends_past 1024 (What.Read 127 1) ≡ false }
    ensures one_more { ends_past 1024 (What.Read 127 2) ≡ true }
    ensures behind { ends_past 1024 (What.Write 128 1 7) ≡ true }
    ensures whole { ends_past 1024 (What.Discard 0 128) ≡ false }
    ensures far { ends_past 1024 (What.Discard (2 ^ 64 - 1) 1) ≡ true }
    ensures flush { ends_past 0 What.Flush ≡ false }
    ensures discard_past { ends_past 1024 (What.Discard 127 2) ≡ true }
    ensures last_sector { ends_past 1024 (What.ReadSectors 1023 1) ≡ false }
    ensures sector_past { ends_past 1024 (What.ReadSectors 1023 2) ≡ true }
    ensures far_sector { ends_past 1024 (What.WriteSectors (2 ^ 64 - 1) 1 7) ≡ true }
{}

/// The blocks that a request touches, in part or whole: the first one, and how many.
pub fn cover_examples()
    ensures first { first_block (What.Read 9 3) ≡ 9 }
    ensures count { block_count (What.Read 9 3) ≡ 3 }
    ensures whole { block_count (What.ReadSectors 8 8) ≡ 1 }
    ensures first_inside { first_block (What.WriteSectors 11 2 5) ≡ 1 }
    ensures inside { block_count (What.WriteSectors 11 2 5) ≡ 1 }
    ensures two { block_count (What.WriteSectors 7 2 5) ≡ 2 }
    ensures three { block_count (What.ReadSectors 7 10) ≡ 3 }
    ensures flush { block_count What.Flush ≡ 0 }
{}

/// The plain array of two blocks, which the second write is after.
pub fn plain_examples()
    ensures write { plain two_blocks (What.Write 1 1 7)
        ≡ (Answer.Done, replicate 8 zero_sector ++ patterns 7 8 8) }
    ensures discard { plain (patterns 7 0 16) (What.Discard 1 1)
        ≡ (Answer.Done, patterns 7 0 8 ++ replicate 8 zero_sector) }
    ensures first { plain (patterns 7 0 16) (What.Discard 0 1)
        ≡ (Answer.Done, replicate 8 zero_sector ++ patterns 7 8 8) }
    ensures read { plain (patterns 7 0 16) (What.Read 1 1)
        ≡ (Answer.Got (patterned 7 1 1), patterns 7 0 16) }
    ensures flush { plain (patterns 7 0 16) What.Flush ≡ (Answer.Done, patterns 7 0 16) }
    ensures past { plain (patterns 7 0 16) (What.Write 1 2 3) ≡ (Answer.Range, patterns 7 0 16) }
    ensures read_past { plain two_blocks (What.Read 2 1) ≡ (Answer.Range, two_blocks) }
    ensures sectors { plain two_blocks (What.WriteSectors 3 2 5)
        ≡ (Answer.Done, replicate 3 zero_sector ++ patterns 5 3 2 ++ replicate 11 zero_sector) }
    ensures whole { plain two_blocks (What.WriteSectors 8 8 7)
        ≡ plain two_blocks (What.Write 1 1 7) }
    ensures read_sectors { plain (patterns 7 0 16) (What.ReadSectors 7 2)
        ≡ (Answer.Got (pattern 7 7 ++ (pattern 7 8 ++ [])), patterns 7 0 16) }
    ensures sectors_past { plain two_blocks (What.ReadSectors 15 2)
        ≡ (Answer.Range, two_blocks) }
{}

/// A request over two chunks, one over three, one that ends with the device, those that end past it,
/// a flush, and sectors. Requests count from 1, pieces from 0.
pub fn piece_examples()
    ensures two { pieces_of 16 128 two_chunks_plan ≡ two_chunks_pieces }
    ensures three { pieces_of 16 128 three_chunks_plan ≡ three_chunks_pieces }
    ensures whole_chunk { pieces_of 16 128 (request (What.Read 16 16) ∷ [])
        ≡ piece 1 0 (What.Read 16 16) false ∷ [] }
    ensures last { pieces_of 16 128 (request (What.Read 127 1) ∷ [])
        ≡ piece 1 0 (What.Read 127 1) false ∷ [] }
    ensures past { pieces_of 16 128
        (request (What.Read 120 9) ∷ request_by 63 (What.Write 0 129 2) ∷ [])
        ≡ piece 1 0 (What.Read 120 9) true ∷ piece_by 63 2 0 (What.Write 0 129 2) true ∷ [] }
    ensures flush { pieces_of 16 128 (request What.Flush ∷ []) ≡ piece 1 0 What.Flush false ∷ [] }
    ensures discard_past { pieces_of 16 128 (request (What.Discard 120 9) ∷ [])
        ≡ piece 1 0 (What.Discard 120 9) true ∷ [] }
    ensures sectors { pieces_of 16 128 (request (What.WriteSectors 127 2 4) ∷ [])
        ≡ piece 1 0 (What.WriteSectors 127 1 4) false
        ∷ piece 1 1 (What.WriteSectors 128 1 4) false ∷ [] }
    ensures last_sector { pieces_of 16 128 (request (What.ReadSectors 1023 1) ∷ [])
        ≡ piece 1 0 (What.ReadSectors 1023 1) false ∷ [] }
    ensures sector_past { pieces_of 16 128 (request (What.ReadSectors 1023 2) ∷ [])
        ≡ piece 1 0 (What.ReadSectors 1023 2) true ∷ [] }
{}
