//! Which maps and bitmaps are wrong, and where blocks are read from.

ghost use Rattle.std.specs.Prelude.{◌≡◌, [], ◌∷◌, ◌++◌, None, Some, length, map};
ghost use Rattle.zd_model.specs.Bytes.{zero_sector};
ghost use Rattle.zd_model.specs.Faults.{bad_bit, bad_chunk};
ghost use Rattle.zd_model.specs.Places.{spot, zone_at};
ghost use Rattle.zd_model.specs.Tables.{sector_of, served};
ghost use Rattle.zd_examples.specs.Fresh.{buffered, fresh_layout, only, small, unmapped_entry};
ghost use Rattle.zd_examples.specs.Tables.{buffer_alone, buffered_tables, place_sector, served_tables};
ghost use Rattle.zd_examples.specs.Tables.{two_unnamed, with_bits};

/// Maps whose chunks are all right.
pub fn right_map_examples()
    ensures empty { bad_chunk small fresh_layout [] 0 (unmapped_entry ∷ unmapped_entry ∷ []) ≡ None }
    ensures mixed { bad_chunk small fresh_layout [] 0
        (buffered 6 4 ∷ only 2 ∷ unmapped_entry ∷ only 11 ∷ buffered 7 5 ∷ []) ≡ None }
    ensures last_conventional { bad_chunk small fresh_layout [] 0 (buffered 6 5 ∷ []) ≡ None }
{}

/// The first chunk that is wrong.
pub fn wrong_map_examples()
    ensures metadata { bad_chunk small fresh_layout [] 0 (only 1 ∷ []) ≡ Some 0 }
    ensures behind { bad_chunk small fresh_layout [] 0 (unmapped_entry ∷ only 12 ∷ []) ≡ Some 1 }
    ensures twice { bad_chunk small fresh_layout [] 0 (only 2 ∷ only 2 ∷ []) ≡ Some 1 }
    ensures apart { bad_chunk small fresh_layout [] 0
        (unmapped_entry ∷ only 3 ∷ unmapped_entry ∷ only 3 ∷ []) ≡ Some 3 }
    ensures buffer_is_zone { bad_chunk small fresh_layout [] 0
        (buffered 6 4 ∷ only 4 ∷ []) ≡ Some 1 }
    ensures zone_is_buffer { bad_chunk small fresh_layout [] 0
        (only 4 ∷ buffered 6 4 ∷ []) ≡ Some 1 }
    ensures one_buffer { bad_chunk small fresh_layout [] 0
        (buffered 6 4 ∷ buffered 7 4 ∷ []) ≡ Some 1 }
    ensures sequential { bad_chunk small fresh_layout [] 0 (buffered 6 7 ∷ []) ≡ Some 0 }
    ensures conventional { bad_chunk small fresh_layout [] 0 (buffered 3 4 ∷ []) ≡ Some 0 }
    ensures alone { bad_chunk small fresh_layout [] 0 (buffer_alone 4 ∷ []) ≡ Some 0 }
    ensures first_sequential { bad_chunk small fresh_layout [] 0 (buffered 7 6 ∷ []) ≡ Some 0 }
    ensures in_metadata { bad_chunk small fresh_layout [] 0 (buffered 6 1 ∷ []) ≡ Some 0 }
{}

/// Bitmaps whose bits are all right.
pub fn right_bit_examples()
    ensures below { bad_bit small (λ z. 16) (with_bits (only 6 ∷ []) 6 (3 ∷ [])) ≡ None }
    ensures conventional { bad_bit small (λ z. 0)
        (with_bits (only 2 ∷ []) 2 (0 ∷ 0x80 ∷ [])) ≡ None }
    ensures beyond { bad_bit small (λ z. 0) (with_bits [] 3 (0 ∷ 0 ∷ 1 ∷ [])) ≡ None }
    ensures last_zone { bad_bit small (λ z. 8) (with_bits (only 11 ∷ []) 11 (1 ∷ [])) ≡ None }
    ensures parted { bad_bit small (λ z. 8) (buffered_tables 2 1) ≡ None }
    ensures other_chunk { bad_bit small (λ z. 8) (buffered_tables 1 0) ≡ None }
{}

/// The first bit that is wrong, as a zone and a block.
pub fn wrong_bit_examples()
    ensures unnamed { bad_bit small (λ z. 0) (with_bits (only 2 ∷ []) 3 (1 ∷ [])) ≡ Some (3, 0) }
    ensures metadata { bad_bit small (λ z. 0) (with_bits (only 2 ∷ []) 0 (4 ∷ [])) ≡ Some (0, 2) }
    ensures last { bad_bit small (λ z. 0) (with_bits [] 11 (0 ∷ 0x80 ∷ [])) ≡ Some (11, 15) }
    ensures last_above { bad_bit small (λ z. 8)
        (with_bits (only 11 ∷ []) 11 (2 ∷ [])) ≡ Some (11, 1) }
    ensures above { bad_bit small (λ z. 8) (with_bits (only 6 ∷ []) 6 (3 ∷ [])) ≡ Some (6, 1) }
    ensures cut { bad_bit small (λ z. 15) (with_bits (only 6 ∷ []) 6 (3 ∷ [])) ≡ Some (6, 1) }
    ensures both { bad_bit small (λ z. 8) (buffered_tables 1 1) ≡ Some (4, 0) }
    ensures least_zone { bad_bit small (λ z. 0) two_unnamed ≡ Some (3, 5) }
    ensures second { bad_bit small (λ z. 16) (buffered_tables 6 3) ≡ Some (4, 1) }
{}

/// Where the sectors of a logical device are read from.
pub fn served_examples()
    ensures zone { sector_of 16 served_tables place_sector 7 ≡ 6 ∷ 7 ∷ [] }
    ensures invalid { sector_of 16 served_tables place_sector 8 ≡ zero_sector }
    ensures buffer { map (sector_of 16 served_tables place_sector) (24 ∷ 31 ∷ [])
        ≡ (4 ∷ 24 ∷ []) ∷ (4 ∷ 31 ∷ []) ∷ [] }
    ensures behind { sector_of 16 served_tables place_sector 32 ≡ zero_sector }
    ensures unmapped { sector_of 16 served_tables place_sector 128 ≡ zero_sector }
    ensures next_chunk { map (sector_of 16 served_tables place_sector) (256 ∷ 383 ∷ [])
        ≡ (2 ∷ 0 ∷ []) ∷ (2 ∷ 127 ∷ []) ∷ [] }
    ensures zone_first { sector_of 16 (buffered_tables 1 1) place_sector 0 ≡ 6 ∷ 0 ∷ [] }
    ensures whole { length (served 16 served_tables place_sector) ≡ 384 }
{}

/// In which zone a sector of the logical device stands, and at which place in it.
pub fn sector_place_examples()
    ensures zones { map (zone_at 16 served_tables) (7 ∷ 8 ∷ 24 ∷ 128 ∷ 383 ∷ [])
        ≡ Some 6 ∷ None ∷ Some 4 ∷ None ∷ Some 2 ∷ [] }
    ensures zone_first { zone_at 16 (buffered_tables 1 1) 0 ≡ Some 6 }
    ensures behind { zone_at 16 served_tables 384 ≡ None }
    ensures spots { map (spot 16) (7 ∷ 8 ∷ 31 ∷ 128 ∷ 383 ∷ []) ≡ 7 ∷ 8 ∷ 31 ∷ 0 ∷ 127 ∷ [] }
{}
