//! Which set of metadata is chosen.

ghost use Rattle.std.specs.Prelude.{◌≡◌, [], ◌∷◌, None, Some};
ghost use Rattle.zd_model.specs.Volume.{chosen};
ghost use Rattle.zd_examples.specs.Choices.{at_zone, beginning, first_of, second_at, spoilt};
ghost use Rattle.zd_examples.specs.Blocks.{short_block};
ghost use Rattle.zd_examples.specs.Choices.{second_bare, without_magic};
ghost use Rattle.zd_examples.specs.Fresh.{bare_head};

/// Where super block 0 is good, the greater generation of two sets of one size is chosen, whatever
/// their versions.
pub fn two_set_examples()
    ensures tie { chosen (beginning (at_zone 0 14 3 ∷ at_zone 1 14 3 ∷ []))
        ≡ Some (first_of 14 3 1) }
    ensures newer { chosen (beginning (at_zone 0 14 3 ∷ at_zone 1 14 4 ∷ []))
        ≡ Some (second_at 1 14 4) }
    ensures older { chosen (beginning (at_zone 0 14 3 ∷ at_zone 1 14 2 ∷ []))
        ≡ Some (first_of 14 3 1) }
    ensures newer_in_2 { chosen (beginning (short_block (bare_head 3 0) ∷ at_zone 1 14 4 ∷ []))
        ≡ Some (second_at 1 14 4) }
    ensures newer_in_1 { chosen (beginning (at_zone 0 14 3 ∷ short_block (bare_head 4 16) ∷ []))
        ≡ Some (second_bare 4) }
    ensures larger { chosen (beginning (at_zone 0 14 3 ∷ at_zone 1 17 4 ∷ []))
        ≡ Some (first_of 14 3 1) }
    ensures as_large { chosen (beginning (at_zone 0 14 3 ∷ at_zone 1 16 4 ∷ []))
        ≡ Some (second_at 1 16 4) }
    ensures elsewhere { chosen (beginning (at_zone 0 14 3 ∷ at_zone 2 14 4 ∷ []))
        ≡ Some (first_of 14 3 1) }
    ensures not_behind { chosen (beginning (at_zone 0 14 3 ∷ [] ∷ at_zone 2 14 4 ∷ []))
        ≡ Some (first_of 14 3 1) }
    ensures spoilt { chosen (beginning (at_zone 0 14 3 ∷ spoilt (at_zone 1 14 4) ∷ []))
        ≡ Some (first_of 14 3 1) }
    ensures two_zones { chosen (beginning (at_zone 0 20 3 ∷ at_zone 1 20 5 ∷ at_zone 2 20 4 ∷ []))
        ≡ Some (second_at 2 20 4) }
    ensures last_zone { chosen
        (beginning (at_zone 0 80 3 ∷ [] ∷ [] ∷ [] ∷ [] ∷ at_zone 5 80 4 ∷ []))
        ≡ Some (second_at 5 80 4) }
    ensures sequential { chosen
        (beginning (at_zone 0 96 3 ∷ [] ∷ [] ∷ [] ∷ [] ∷ [] ∷ at_zone 6 96 4 ∷ []))
        ≡ Some (first_of 96 3 6) }
    ensures no_size { chosen (beginning (at_zone 0 0 3 ∷ [])) ≡ Some (first_of 0 3 0) }
{}

/// Where it is bad, the first zone behind it that begins with the magic bytes decides.
pub fn one_set_examples()
    ensures blank { chosen (beginning []) ≡ None }
    ensures next_zone { chosen (beginning (without_magic (at_zone 0 14 9) ∷ at_zone 1 14 4 ∷ []))
        ≡ Some (second_at 1 14 4) }
    ensures spoilt { chosen (beginning (spoilt (at_zone 0 14 9) ∷ at_zone 1 14 4 ∷ []))
        ≡ Some (second_at 1 14 4) }
    ensures moved { chosen (beginning (at_zone 3 14 9 ∷ at_zone 1 14 4 ∷ []))
        ≡ Some (second_at 1 14 4) }
    ensures two_zones { chosen (beginning ([] ∷ [] ∷ at_zone 2 20 4 ∷ []))
        ≡ Some (second_at 2 20 4) }
    ensures last_zone { chosen (beginning ([] ∷ [] ∷ [] ∷ [] ∷ [] ∷ at_zone 5 80 4 ∷ []))
        ≡ Some (second_at 5 80 4) }
    ensures sequential { chosen
        (beginning ([] ∷ [] ∷ [] ∷ [] ∷ [] ∷ [] ∷ at_zone 6 96 4 ∷ [])) ≡ None }
    ensures other_size { chosen (beginning ([] ∷ at_zone 1 20 4 ∷ [])) ≡ None }
    ensures first_decides { chosen
        (beginning ([] ∷ spoilt (at_zone 1 14 4) ∷ at_zone 2 20 4 ∷ [])) ≡ None }
    ensures not_its_own { chosen (beginning ([] ∷ at_zone 2 20 4 ∷ at_zone 2 20 4 ∷ [])) ≡ None }
{}
