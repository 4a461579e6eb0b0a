//! Worked rows of the definitions, as theorems. The bodies are empty: each clause is a row, and a wrong definition
//! fails one of them.

ghost use Rattle.std.specs.Prelude.{◌≡◌, [], Some, None};
ghost use Rattle.zd_jobs.specs.Possible.{HasFreeSequential, kind_by};
ghost use Rattle.zd_reclaim.specs.Due.{low_mark};
ghost use Rattle.zd_reclaim.specs.Picks.{IsOnConventional, IsPick};
ghost use Rattle.zd_reclaim.specs.ReclaimRows.{HasTwoJobs, job_of, kind_beside, kind_in, one_bitmap, ordinary_disk};
ghost use Rattle.zd_reclaim.specs.ReclaimRows.{ordinary_layout, small_disk, small_layout};
ghost use Rattle.zd_volume.specs.Volumes.{PlainVolume};
ghost use Rattle.zd_volume.specs.declared.work.JobKind.{JobKind};

/// The job on a chunk: alone in a conventional or a sequential zone, with a valid block or without, and beside a buffer
/// whose first valid block is before, at or behind the pointer.
pub fn kind_rows()
    ensures unmapped { kind_by small_disk [] (one_bitmap 2 1) None None ≡ None }
    ensures moved { kind_in 2 1 ≡ Some JobKind.Move }
    ensures emptied { kind_in 2 0 ≡ Some JobKind.Empty }
    ensures stays { kind_in 6 1 ≡ None }
    ensures emptied_there { kind_in 6 0 ≡ Some JobKind.Empty }
    ensures appended { kind_beside 1 8 ≡ Some JobKind.Append }
    ensures at_pointer { kind_beside 3 8 ≡ Some JobKind.Append }
    ensures behind_pointer { kind_beside 4 8 ≡ Some JobKind.Merge }
    ensures merged { kind_beside 2 1 ≡ Some JobKind.Merge }
    ensures bare { kind_beside 2 0 ≡ Some JobKind.Append }
{}

/// Of four conventional data zones the low mark is one, of 520 it is 130.
pub fn low_mark_rows()
    ensures small { low_mark small_disk small_layout ≡ 1 }
    ensures ordinary { low_mark ordinary_disk ordinary_layout ≡ 130 }
{}

/// The pick of two jobs: the older one of a kind; a Move before an older Merge, but where no sequential zone is free; a
/// Merge before an older Empty on a sequential zone; none where there is none.
pub fn pick_rows()
    ensures older { (v : PlainVolume) → HasTwoJobs v 1 0 (Some JobKind.Append) (Some JobKind.Append)
        → IsPick v (Some (job_of JobKind.Append 1)) }
    ensures turn { (v : PlainVolume) → HasTwoJobs v 0 1 (Some JobKind.Merge) (Some JobKind.Move)
        → HasFreeSequential v.division → IsPick v (Some (job_of JobKind.Move 1)) }
    ensures full { (v : PlainVolume) → HasTwoJobs v 1 0 (Some JobKind.Merge) (Some JobKind.Move)
        → (HasFreeSequential v.division → ⊥) → IsPick v (Some (job_of JobKind.Merge 0)) }
    ensures later { (v : PlainVolume) → HasTwoJobs v 1 0 (Some JobKind.Merge) (Some JobKind.Empty)
        → (IsOnConventional v 1 → ⊥) → IsPick v (Some (job_of JobKind.Merge 0)) }
    ensures none { (v : PlainVolume) → HasTwoJobs v 0 1 None None → IsPick v None }
{}
