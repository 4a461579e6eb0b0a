//! What a stop of a disk may leave: a disk of 6 conventional and 6 sequential zones that begins
//! empty, and sectors that are written with one pattern.

ghost use Rattle.std.specs.Prelude.{[], ◌∷◌};
ghost use Rattle.zd_model.specs.Image.{Same};
ghost use Rattle.zd_model.specs.Left.{IsLeft};
ghost use Rattle.zd_examples.specs.Remains.{both_zones, empty_disk, first_zone_twice, flush_and_write};
ghost use Rattle.zd_examples.specs.Remains.{half_call, mark, mark_call, marked, marked_and_reset};
ghost use Rattle.zd_examples.specs.Remains.{one_zone_more, pointer_moved, write_and_fault};
ghost use Rattle.zd_examples.specs.Remains.{write_and_flush};

/// Images are the same that hold the same. The last sector counts and the pointer counts, and what
/// stands past a pointer doesn't.
pub fn same_examples()
    ensures past { Same empty_disk marked_and_reset }
    ensures last_sector { Same empty_disk (marked (mark 5 127 ∷ [])) → ⊥ }
    ensures pointer { Same empty_disk pointer_moved → ⊥ }
    ensures pointer_back { Same pointer_moved empty_disk → ⊥ }
    ensures geometry { Same empty_disk one_zone_more → ⊥ }
{}

/// The call that is under way may have happened, whole or not; the one after it may not.
pub fn under_way_examples()
    ensures happened { IsLeft empty_disk (mark_call 2 5 ∷ []) 0 (marked (mark 2 5 ∷ [])) }
    ensures not_happened { IsLeft empty_disk (mark_call 2 5 ∷ []) 0 empty_disk }
    ensures too_early { IsLeft empty_disk flush_and_write 0 (marked (mark 2 5 ∷ [])) → ⊥ }
    ensures too_late { IsLeft empty_disk (mark_call 2 5 ∷ []) 2 empty_disk → ⊥ }
{}

/// A write that failed has done what it did, and while it is under way it may do all that was asked.
pub fn failed_write_examples()
    ensures done { IsLeft empty_disk (half_call ∷ []) 1 (marked (mark 2 5 ∷ [])) }
    ensures under_way { IsLeft empty_disk (half_call ∷ []) 0 (marked (mark 2 6 ∷ [])) }
    ensures not_done { IsLeft empty_disk (half_call ∷ []) 1 (marked (mark 2 6 ∷ [])) → ⊥ }
{}

/// Only a flush that answered Ok keeps what was written.
pub fn flushed_disk_examples()
    ensures kept { IsLeft empty_disk write_and_flush 2 (marked (mark 2 5 ∷ [])) }
    ensures not_lost { IsLeft empty_disk write_and_flush 2 empty_disk → ⊥ }
    ensures under_way { IsLeft empty_disk write_and_flush 1 empty_disk }
    ensures failed { IsLeft empty_disk write_and_fault 2 empty_disk }
{}

/// Each sequential zone is left by itself, after a first part of what was done to it.
pub fn zone_by_zone_examples()
    ensures other_zone { IsLeft empty_disk both_zones 2 (marked (mark 7 0 ∷ [])) }
    ensures first_part { IsLeft empty_disk first_zone_twice 2 (marked (mark 6 0 ∷ [])) }
    ensures not_first { IsLeft empty_disk first_zone_twice 2 (marked (mark 6 1 ∷ [])) → ⊥ }
{}

/// The last sector of a conventional zone counts, and so do its last and its first zone.
pub fn last_sector_examples()
    ensures last { IsLeft empty_disk (mark_call 2 127 ∷ []) 1 (marked (mark 2 127 ∷ [])) }
    ensures not_written { IsLeft empty_disk [] 0 (marked (mark 2 127 ∷ [])) → ⊥ }
    ensures last_zone { IsLeft empty_disk [] 0 (marked (mark 5 127 ∷ [])) → ⊥ }
    ensures first_zone { IsLeft empty_disk [] 0 (marked (mark 0 0 ∷ [])) → ⊥ }
{}

/// The first sequential zone is one of them.
pub fn first_sequential_examples()
    ensures written { IsLeft empty_disk (mark_call 6 0 ∷ []) 1 (marked (mark 6 0 ∷ [])) }
    ensures lost { IsLeft empty_disk (mark_call 6 0 ∷ []) 1 empty_disk }
    ensures not_written { IsLeft empty_disk [] 0 (marked (mark 6 0 ∷ [])) → ⊥ }
{}
