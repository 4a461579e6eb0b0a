//! Which step of a session comes next.

ghost use Rattle.std.specs.Prelude.{◌≡◌, [], ◌∷◌, false, true, None, Some};
ghost use Rattle.zd_steps.specs.NextStep.{kind_of, next_step};
ghost use Rattle.zd_steps.specs.Runs.{eligible_flushes, is_eligible, is_over, is_wanted};
ghost use Rattle.zd_examples.specs.Steps.{committing, five_chunks, flush_and_read, merging, nobody_flies, one_chunk};
ghost use Rattle.zd_examples.specs.Steps.{part_flight, part_plan, part_write, only_piece, quiet, run_at, two_callers};
ghost use Rattle.zd_examples.specs.Steps.{two_reads, with_limbo, working};

use zd_base::{Prefer, StepKind};
use zd_model::What;
use zd_steps::Step;

/// Two actors: the low mark makes a job due, a write gives it up, and another one is done to its end.
pub fn job_examples()
    ensures write_1 { next_step (run_at two_callers 0 nobody_flies) (quiet 4 0) 0 Prefer.Pieces
        ≡ Some (Step.Serve (only_piece 0 1 (What.Write 0 2 1))) }
    ensures write_2 { next_step (run_at two_callers 1 nobody_flies) (quiet 3 1) 0 Prefer.Pieces
        ≡ Some (Step.Serve (only_piece 0 2 (What.Write 16 1 2))) }
    ensures write_3 { next_step (run_at two_callers 2 nobody_flies) (quiet 2 2) 0 Prefer.Pieces
        ≡ Some (Step.Serve (only_piece 0 3 (What.Write 32 1 3))) }
    ensures write_4 { next_step (run_at two_callers 3 nobody_flies) (quiet 1 3) 0 Prefer.Pieces
        ≡ Some (Step.Serve (only_piece 0 4 (What.Write 48 1 4))) }
    ensures begins { next_step (run_at two_callers 4 nobody_flies) (quiet 0 4) 1 Prefer.Jobs
        ≡ Some Step.Begin }
    ensures reads { next_step (run_at two_callers 4 nobody_flies)
        (working (Some StepKind.CopyRead) 0 4) 1 Prefer.Jobs ≡ Some (Step.Work StepKind.CopyRead) }
    ensures write_5 { next_step (run_at two_callers 4 nobody_flies)
        (working (Some StepKind.CopyWrite) 0 4) 0 Prefer.Pieces
        ≡ Some (Step.Serve (only_piece 1 5 (What.Write 0 1 9))) }
    ensures read_6 { next_step (run_at two_callers 5 nobody_flies) (quiet 0 4) 0 Prefer.Pieces
        ≡ Some (Step.Serve (only_piece 1 6 (What.Read 0 2))) }
    ensures again { next_step (run_at two_callers 6 nobody_flies) (quiet 0 4) 1 Prefer.Jobs
        ≡ Some Step.Begin }
    ensures reads_again { next_step (run_at two_callers 6 nobody_flies)
        (working (Some StepKind.CopyRead) 0 4) 1 Prefer.Jobs ≡ Some (Step.Work StepKind.CopyRead) }
    ensures copies { next_step (run_at two_callers 6 nobody_flies)
        (working (Some StepKind.CopyWrite) 0 4) 1 Prefer.Jobs
        ≡ Some (Step.Work StepKind.CopyWrite) }
    ensures ends { next_step (run_at two_callers 6 nobody_flies)
        (working (Some StepKind.Remap) 0 4) 1 Prefer.Jobs ≡ Some (Step.Work StepKind.Remap) }
    ensures read_7 { next_step (run_at two_callers 6 nobody_flies) (quiet 1 4) 0 Prefer.Pieces
        ≡ Some (Step.Serve (only_piece 1 7 (What.Read 0 2))) }
    ensures over { is_over (run_at two_callers 7 nobody_flies) ≡ true }
{}

/// A read of two runs in flight: another actor has no step, and its own goes on.
pub fn read_flight_examples()
    ensures first { next_step (run_at two_reads 0 nobody_flies) (quiet 3 1) 0 Prefer.Pieces
        ≡ Some (Step.Serve (only_piece 0 1 (What.Read 0 2))) }
    ensures idle { next_step
        (run_at two_reads 0 (Some (only_piece 0 1 (What.Read 0 2)) ∷ None ∷ []))
        (quiet 3 1) 1 Prefer.Pieces ≡ None }
    ensures next_run { next_step
        (run_at two_reads 0 (Some (only_piece 0 1 (What.Read 0 2)) ∷ None ∷ []))
        (quiet 3 1) 0 Prefer.Pieces ≡ Some (Step.Serve (only_piece 0 1 (What.Read 0 2))) }
    ensures second { next_step (run_at two_reads 1 nobody_flies) (quiet 3 1) 1 Prefer.Pieces
        ≡ Some (Step.Serve (only_piece 0 2 (What.Read 0 1))) }
    ensures over { next_step (run_at two_reads 2 nobody_flies) (quiet 3 1) 0 Prefer.Pieces ≡ None }
{}

/// One actor: a flush makes a commit due, a write that lacks a zone a job, and then a commit for the zone in
/// limbo.
pub fn commit_examples()
    ensures flush_waits { next_step (run_at five_chunks 4 (None ∷ [])) (quiet 0 4) 0 Prefer.Pieces
        ≡ Some Step.Commit }
    ensures goes_on { next_step (run_at five_chunks 4 (None ∷ [])) (committing 0 4) 0 Prefer.Pieces
        ≡ Some Step.Commit }
    ensures entered { eligible_flushes (run_at five_chunks 4 (None ∷ []))
        ≡ only_piece 0 5 What.Flush ∷ [] }
    ensures wanted { is_wanted (run_at five_chunks 5 (None ∷ [])) (quiet 0 4) ≡ true }
    ensures job { next_step (run_at five_chunks 5 (None ∷ [])) (quiet 0 4) 0 Prefer.Pieces
        ≡ Some Step.Begin }
    ensures limbo { next_step (run_at five_chunks 5 (None ∷ [])) (with_limbo 4) 0 Prefer.Pieces
        ≡ Some Step.Commit }
    ensures write { next_step (run_at five_chunks 5 (None ∷ [])) (quiet 1 4) 0 Prefer.Pieces
        ≡ Some (Step.Serve (only_piece 0 6 (What.Write 64 1 5))) }
    ensures read { next_step (run_at five_chunks 6 (None ∷ [])) (quiet 0 5) 0 Prefer.Pieces
        ≡ Some (Step.Serve (only_piece 0 7 (What.Read 0 1))) }
{}

/// Beside a commit a read goes on, and a copy; a write waits, and the end of a job.
pub fn beside_commit_examples()
    ensures due { next_step (run_at flush_and_read 1 nobody_flies) (quiet 2 2) 1 Prefer.Commits
        ≡ Some Step.Commit }
    ensures read { next_step (run_at flush_and_read 1 nobody_flies) (committing 2 2) 0 Prefer.Pieces
        ≡ Some (Step.Serve (only_piece 1 3 (What.Read 0 2))) }
    ensures write { next_step (run_at five_chunks 0 (None ∷ [])) (committing 4 0) 0 Prefer.Pieces
        ≡ Some Step.Commit }
    ensures copy { next_step (run_at five_chunks 0 (None ∷ []))
        (record (committing 4 0) { job = Some StepKind.CopyRead }) 0 Prefer.Jobs
        ≡ Some (Step.Work StepKind.CopyRead) }
    ensures remap { next_step (run_at five_chunks 0 (None ∷ []))
        (record (committing 4 0) { job = Some StepKind.Remap }) 0 Prefer.Jobs ≡ Some Step.Commit }
{}

/// A piece in flight holds its chunk for the pieces of all callers, and for no job, flush or piece past the
/// device.
pub fn held_chunk_examples()
    ensures past { next_step
        (run_at one_chunk 0 (Some (only_piece 0 1 (What.Read 0 2)) ∷ None ∷ []))
        (quiet 3 1) 1 Prefer.Pieces
        ≡ Some (Step.Serve (record (only_piece 3 4 (What.Write 127 2 5)) { range = true })) }
    ensures enter { kind_of (quiet 3 1)
        (Step.Serve (record (only_piece 3 4 (What.Write 127 2 5)) { range = true })) ≡ StepKind.Enter }
    ensures job { next_step
        (run_at one_chunk 0 (Some (only_piece 0 1 (What.Read 0 2)) ∷ None ∷ []))
        (quiet 0 4) 1 Prefer.Jobs ≡ Some Step.Begin }
    ensures flush { next_step
        (run_at one_chunk 0 (Some (only_piece 0 1 (What.Read 0 2)) ∷ None ∷ []))
        (quiet 0 4) 1 Prefer.Commits ≡ Some Step.Commit }
    ensures stopped { next_step (run_at one_chunk 0 nobody_flies)
        (record (quiet 3 1) { stopped = true }) 0 Prefer.Pieces ≡ None }
{}

/// A write that touches blocks in part reads them first. In flight it holds its chunk; it waits for a zone and
/// for the end of a commit, and its actor then does nothing else in the class of pieces.
pub fn merge_read_examples()
    ensures first { next_step (run_at part_plan 0 nobody_flies) (quiet 4 1) 0 Prefer.Pieces
        ≡ Some (Step.Serve (only_piece 0 1 part_write)) }
    ensures merges { kind_of (merging (quiet 4 1)) (Step.Serve (only_piece 0 1 part_write))
        ≡ StepKind.MergeRead }
    ensures held { is_eligible (run_at part_plan 0 part_flight) (only_piece 1 2 (What.ReadSectors 0 8))
        ≡ false }
    ensures goes_on { next_step (run_at part_plan 0 part_flight) (quiet 4 1) 0 Prefer.Pieces
        ≡ Some (Step.Serve (only_piece 0 1 part_write)) }
    ensures writes { kind_of (quiet 4 1) (Step.Serve (only_piece 0 1 part_write)) ≡ StepKind.Write }
    ensures commit { next_step (run_at part_plan 0 part_flight) (committing 4 1) 0 Prefer.Pieces
        ≡ Some Step.Commit }
    ensures wanted { is_wanted (run_at part_plan 0 part_flight) (quiet 0 0) ≡ true }
    ensures flush { next_step (run_at part_plan 0 part_flight) (quiet 0 0) 0 Prefer.Pieces
        ≡ Some Step.Commit }
    ensures limbo { next_step (run_at part_plan 0 part_flight) (with_limbo 0) 1 Prefer.Jobs
        ≡ Some Step.Commit }
    ensures job { next_step (run_at part_plan 0 part_flight) (quiet 0 0) 1 Prefer.Jobs
        ≡ Some Step.Begin }
    ensures other { next_step (run_at part_plan 0 part_flight) (quiet 0 0) 1 Prefer.Pieces
        ≡ Some (Step.Serve (only_piece 3 4 (What.Discard 16 1))) }
    ensures nothing_else { next_step (run_at part_plan 0 part_flight) (quiet 0 0) 0 Prefer.Jobs
        ≡ Some Step.Begin }
{}
