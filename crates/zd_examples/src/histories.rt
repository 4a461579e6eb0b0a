//! Which histories are those of a plain array, and which keep each caller's order.

ghost use Rattle.std.specs.Prelude.{◌≡◌};
ghost use Rattle.zd_model.specs.History.{IsLegal, IsOrdered, last_array};
ghost use Rattle.zd_model.specs.Plain.{Answer, array_after};
ghost use Rattle.zd_examples.specs.Histories.{after_faulty_write, discard_history, done_past};
ghost use Rattle.zd_examples.specs.Histories.{empty_volume_history, falling, faulty_discard};
ghost use Rattle.zd_examples.specs.Histories.{faulty_flushes, faulty_past, faulty_reads};
ghost use Rattle.zd_examples.specs.Histories.{faulty_write};
ghost use Rattle.zd_examples.specs.Histories.{flush_after_fault, last_block_history, lost_write};
ghost use Rattle.zd_examples.specs.Histories.{old_bytes, range_inside, read_after_fault, standing};
ghost use Rattle.zd_examples.specs.Histories.{sectors_history, standing_fault};
ghost use Rattle.zd_examples.specs.Histories.{two_chunks_history};
ghost use Rattle.zd_examples.specs.Orders.{as_planned, entered_twice, first_missing, one_more};
ghost use Rattle.zd_examples.specs.Orders.{other_caller, other_first, other_piece, other_seed};
ghost use Rattle.zd_examples.specs.Orders.{own_order, part_of_each, past_order, past_plan};
ghost use Rattle.zd_examples.specs.Orders.{shared_plan};
ghost use Rattle.zd_examples.specs.Requests.{two_blocks, two_chunks_plan, patterns, zero_volume};

/// Histories of 128 blocks of zeros.
pub fn legal_examples()
    ensures nothing { IsLegal zero_volume empty_volume_history }
    ensures last { IsLegal zero_volume last_block_history }
    ensures two { IsLegal zero_volume two_chunks_history }
    ensures discard { IsLegal zero_volume discard_history }
    ensures sectors { IsLegal zero_volume sectors_history }
{}

/// What may fail: reads, a write at the end, flushes at the end. The first write may have any
/// number.
pub fn fault_examples()
    ensures reads { IsLegal two_blocks faulty_reads }
    ensures write { IsLegal two_blocks faulty_write }
    ensures flushes { IsLegal two_blocks faulty_flushes }
    ensures array { last_array two_blocks faulty_reads ≡ patterns 6 0 16 }
    ensures same { last_array two_blocks faulty_write ≡ two_blocks }
{}

/// What may not fail, and what may not come after a fault.
pub fn wrong_fault_examples()
    ensures after_write { IsLegal two_blocks after_faulty_write → ⊥ }
    ensures discard { IsLegal two_blocks faulty_discard → ⊥ }
    ensures past { IsLegal two_blocks faulty_past → ⊥ }
    ensures flush { IsLegal two_blocks flush_after_fault → ⊥ }
    ensures read { IsLegal two_blocks read_after_fault → ⊥ }
{}

/// Replies that the plain array doesn't give.
pub fn wrong_reply_examples()
    ensures inside { IsLegal two_blocks range_inside → ⊥ }
    ensures past { IsLegal two_blocks done_past → ⊥ }
    ensures lost { IsLegal two_blocks lost_write → ⊥ }
    ensures old { IsLegal two_blocks old_bytes → ⊥ }
{}

/// Numbers of writing calls that can't be.
pub fn wrong_time_examples()
    ensures falls { IsLegal two_blocks falling → ⊥ }
    ensures stands { IsLegal two_blocks standing → ⊥ }
    ensures stands_at_a_fault { IsLegal two_blocks standing_fault → ⊥ }
{}

/// Each caller's pieces come in its order, whatever the others do.
pub fn order_examples()
    ensures two { IsOrdered 16 128 two_chunks_plan two_chunks_history }
    ensures planned { IsOrdered 16 128 shared_plan as_planned }
    ensures other { IsOrdered 16 128 shared_plan other_first }
    ensures part { IsOrdered 16 128 shared_plan part_of_each }
    ensures past { IsOrdered 16 128 past_plan past_order }
{}

/// Orders that aren't kept.
pub fn wrong_order_examples()
    ensures own { IsOrdered 16 128 shared_plan own_order → ⊥ }
    ensures missing { IsOrdered 16 128 shared_plan first_missing → ⊥ }
    ensures twice { IsOrdered 16 128 shared_plan entered_twice → ⊥ }
    ensures caller { IsOrdered 16 128 shared_plan other_caller → ⊥ }
    ensures piece { IsOrdered 16 128 shared_plan other_piece → ⊥ }
    ensures seed { IsOrdered 16 128 shared_plan other_seed → ⊥ }
    ensures more { IsOrdered 16 128 shared_plan one_more → ⊥ }
{}
