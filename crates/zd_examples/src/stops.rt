//! What sectors may hold after a stop.

ghost use Rattle.std.specs.Prelude.{◌≡◌, None, Some};
ghost use Rattle.zd_model.specs.Bytes.{zero_sector};
ghost use Rattle.zd_model.specs.Plain.{pattern};
ghost use Rattle.zd_model.specs.Plain.Answer.{Done, Fault};
ghost use Rattle.zd_model.specs.Stops.{AreBy, IsFlushAt, MayHold, last_flush};
ghost use Rattle.zd_model.specs.declared.requests.What.TheVariants.{Flush, Write};
ghost use Rattle.zd_examples.specs.Requests.{entry, two_blocks};
ghost use Rattle.zd_examples.specs.Stops.{discarded_history, failed_discard, failed_history};
ghost use Rattle.zd_examples.specs.Stops.{failed_write, past_history, rewritten_history, the_flush};
ghost use Rattle.zd_examples.specs.Stops.{twice_flushed, written_sectors};

/// The last flush that was acknowledged when so many calls had returned.
pub fn flush_examples()
    ensures at_it { last_flush 11 rewritten_history ≡ Some the_flush }
    ensures behind { last_flush 40 rewritten_history ≡ Some the_flush }
    ensures before { last_flush 10 rewritten_history ≡ None }
    ensures failed { last_flush 40 failed_history ≡ None }
{}

/// What was flushed, or what a later write puts there, which may be under way.
pub fn held_examples()
    ensures flushed { MayHold two_blocks rewritten_history 11 0 (pattern 1 0) }
    ensures under_way { MayHold two_blocks rewritten_history 11 0 (pattern 2 0) }
    ensures done { MayHold two_blocks rewritten_history 12 7 (pattern 2 7) }
    ensures before_flush { MayHold two_blocks rewritten_history 10 0 zero_sector }
    ensures unflushed { MayHold two_blocks rewritten_history 10 0 (pattern 1 0) }
    ensures begun { MayHold two_blocks rewritten_history 0 0 (pattern 1 0) }
    ensures first_flush { MayHold two_blocks twice_flushed 5 0 (pattern 1 0) }
    ensures discarded { MayHold two_blocks discarded_history 4 0 zero_sector }
    ensures other_block { MayHold two_blocks discarded_history 3 8 (pattern 2 8) }
    ensures failed_write { MayHold two_blocks failed_write 1 0 (pattern 1 0) }
    ensures sectors { MayHold two_blocks written_sectors 0 4 (pattern 1 4) }
    ensures failed_flush { MayHold two_blocks failed_history 9 0 zero_sector }
{}

/// What was written over before the flush, what begins two calls later, and other sectors' bytes.
pub fn not_held_examples()
    ensures too_late { MayHold two_blocks rewritten_history 10 0 (pattern 2 0) → ⊥ }
    ensures too_old { MayHold two_blocks rewritten_history 11 0 zero_sector → ⊥ }
    ensures flushed_over { MayHold two_blocks twice_flushed 6 0 (pattern 1 0) → ⊥ }
    ensures behind { MayHold two_blocks rewritten_history 0 8 (pattern 1 8) → ⊥ }
    ensures other_place { MayHold two_blocks rewritten_history 0 1 (pattern 1 0) → ⊥ }
    ensures beside { MayHold two_blocks written_sectors 1 5 (pattern 1 5) → ⊥ }
    ensures past { MayHold two_blocks past_history 5 0 (pattern 1 0) → ⊥ }
{}

/// A discard counts once it is done, and not while the next call may be under way.
pub fn discard_examples()
    ensures not_yet { MayHold two_blocks discarded_history 3 0 zero_sector → ⊥ }
    ensures kept { MayHold two_blocks discarded_history 3 0 (pattern 1 0) }
    ensures failed { MayHold two_blocks failed_discard 5 0 zero_sector → ⊥ }
{}

/// When the entries of a history were made, and which of them are flushes that were done then.
pub fn time_examples()
    ensures by { AreBy 12 rewritten_history }
    ensures later { AreBy 11 rewritten_history → ⊥ }
    ensures flush { IsFlushAt 11 the_flush }
    ensures moment { IsFlushAt 12 the_flush → ⊥ }
    ensures failed { IsFlushAt 3 (entry 2 0 Flush Fault 3) → ⊥ }
    ensures write { IsFlushAt 3 (entry 2 0 (Write 0 1 1) Done 3) → ⊥ }
{}
