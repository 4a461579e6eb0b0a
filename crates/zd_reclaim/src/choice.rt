//! Which job is possible on a chunk, and which is picked.

ghost use Rattle.std.specs.Prelude.{◌≡◌, ◌↔◌, ◌<◌, IfNone, IfSome, IsTrue, None, Some};
ghost use Rattle.zd_alloc.specs.Zones.{HasNoFree};
ghost use Rattle.zd_alloc.specs.declared.job_class.JobClass.{JobClass};
ghost use Rattle.zd_base.specs.declared.geometry.Kind.TheVariants.{Conventional};
ghost use Rattle.zd_commit.specs.Closed.{HasLimbo};
ghost use Rattle.zd_jobs.specs.Possible.{HasFreeSequential, IsPossible};
ghost use Rattle.zd_reclaim.specs.Picks.{HasNoJob, IsFirstJob, IsGiving, IsPick, kind_of_class};
ghost use Rattle.zd_volume.specs.declared.work.Job.{Job};
ghost use Rattle.zd_volume.specs.declared.work.JobKind.{JobKind};

use zd_alloc::JobClass;
use zd_base::{ChunkNo, Kind};
use zd_disk::ZonedDisk;
use zd_state::{Job, JobKind, Volume};

/// Whether a sequential zone is free.
fn has_free_sequential<D: ZonedDisk>(v: &Volume<D>) -> bool
    ensures { IsTrue result ↔ HasFreeSequential v.now.plain.division }
{
    v.alloc().free(Kind::Sequential) > 0
}

/// Whether there is a zone to which a job of this class can copy, where it needs one: a Move takes a free sequential
/// zone.
fn has_target<D: ZonedDisk>(v: &Volume<D>, class: JobClass) -> bool
    ensures { IsTrue result ↔ (class ≡ JobClass.Move → HasFreeSequential v.now.plain.division) }
{
    class != JobClass::Move || has_free_sequential(v)
}

/// The kind of the job for which a chunk is a candidate. A chunk of the class of Appends that isn't buffered stands on
/// a conventional zone without a valid block.
fn kind_of(class: JobClass, buffered: bool) -> JobKind
    ensures { result ≡ kind_of_class class buffered }
{
    match class {
        JobClass::Append if buffered => JobKind::Append,
        JobClass::Append | JobClass::Empty => JobKind::Empty,
        JobClass::Move => JobKind::Move,
        JobClass::Merge => JobKind::Merge,
    }
}

/// The job that is possible on a chunk. None exactly where none is.
pub fn possible<D: ZonedDisk>(v: &Volume<D>, chunk: ChunkNo) -> Option<Job>
    requires { chunk < v.now.plain.head.layout.chunks }
    ensures some { IfSome result (λ job. (job.chunk ≡ chunk) × IsPossible v.now.plain chunk job.kind) }
    ensures none { IfNone result ((kind : JobKind) → IsPossible v.now.plain chunk kind → ⊥) }
{
    v.sound();
    let class = v.candidates().class(chunk)?;
    if !has_target(v, class) {
        return None;
    }
    let kind = kind_of(class, v.entry(chunk).buffer.is_some());
    Some(Job { kind, chunk })
}

/// The chunk of the first job in use order that gives a conventional zone back. A Move is no such job where no
/// sequential zone is free.
fn oldest_giving<D: ZonedDisk>(v: &Volume<D>) -> Option<ChunkNo>
    ensures some { IfSome result (λ chunk. (kind : JobKind)
        × IsFirstJob v.now.plain (IsGiving v.now.plain) (record { kind = kind; chunk = chunk })) }
    ensures none { IfNone result (HasNoJob v.now.plain (IsGiving v.now.plain)) }
{
    v.sound();
    let candidates = v.candidates();
    if has_free_sequential(v) {
        candidates.oldest_of_either(JobClass::Append, JobClass::Move)
    } else {
        candidates.oldest(JobClass::Append)
    }
}

/// The job that is picked: the first in use order that gives a conventional zone back, which is an Append, a Move,
/// or an Empty on a conventional zone; where there is none, the first Merge; where there is none, the first Empty.
/// None exactly where no job is possible. It looks at the index of candidates alone, and at no chunk but the one that
/// is picked.
pub fn pick<D: ZonedDisk>(v: &Volume<D>) -> Option<Job>
    ensures { IsPick v.now.plain result }
{
    v.sound();
    if let Some(chunk) = oldest_giving(v) {
        return possible(v, chunk);
    }
    let candidates = v.candidates();
    if let Some(chunk) = candidates.oldest(JobClass::Merge) {
        let kind = JobKind::Merge;
        return Some(Job { kind, chunk });
    }
    let chunk = candidates.oldest(JobClass::Empty)?;
    let kind = JobKind::Empty;
    Some(Job { kind, chunk })
}

/// Reclaim is never stuck: where no job is under way, no conventional zone is free and no zone of either kind is in
/// limbo, a job is picked.
pub fn never_stuck<D: ZonedDisk>(v: &Volume<D>)
    ensures { v.now.plain.job ≡ None → HasNoFree Conventional v.now.plain.division
        → (HasLimbo v.now.plain.division → ⊥) → (job : Job) × IsPick v.now.plain (Some job) }
{
    v.sound();
    let _job = pick(v);
}
