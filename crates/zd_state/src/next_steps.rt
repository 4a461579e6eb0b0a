//! The step of a job that comes next.

ghost use Rattle.std.specs.Prelude.{◌≡◌, ◌↔◌, Some, IfNone, IfSome, IsTrue};
ghost use Rattle.zd_jobs.specs.NextSteps.{HasGap, IsCopied, IsNextOf, IsNextRun, IsNextStep, source};
ghost use Rattle.zd_volume.specs.Jobs.{source_of};
ghost use Rattle.zd_volume.specs.Volumes.{IsFixed};

use crate::state::VolumeState;
use crate::volume::Volume;
use zd_base::{StepKind, ZoneNo};
use zd_disk::ZonedDisk;
use zd_model::MapEntry;
use zd_volume::{JobKind, Work};

/// How many blocks a step copies at most.
pub(crate) const COPY_UNIT: u32 = 32;

/// Valid blocks in a row that a job copies next.
#[derive(Clone, Copy)]
pub(crate) struct CopyRun {
    pub(crate) zone: ZoneNo,
    pub(crate) at: u32,
    pub(crate) count: u32,
}

/// The zone from which a job copies, by the entry of its chunk.
fn source_of(kind: JobKind, entry: &MapEntry) -> Option<ZoneNo>
    ensures { result ≡ source_of kind entry.now }
{
    match kind {
        JobKind::Empty => None,
        JobKind::Move | JobKind::Merge => entry.zone,
        JobKind::Append => entry.buffer,
    }
}

impl VolumeState {
    /// Of the valid blocks of its source that the job under way has yet to copy, the first and those in a row
    /// with it, at most 32. None where all are copied.
    pub(crate) fn next_run(&self, work: &Work) -> Option<CopyRun>
        requires fixed { IsFixed self.now.plain }
        requires job { self.now.plain.job ≡ Some work.now }
        ensures some { IfSome result (λ r. IsNextRun self.now.plain work.now r.at r.count
            × (source self.now.plain work.now ≡ Some r.zone)) }
        ensures none { IfNone result (IsCopied self.now.plain work.now) }
    {
        let zone = source_of(work.job.kind, &self.tables.entry(work.job.chunk))?;
        let bits = self.tables.bits(zone);
        let end = self.geometry().zone_blocks();
        let at = zd_bits::first_valid(bits, work.copied, end)?;
        let (_, count) = zd_bits::run_at(bits, at, end.min(at + COPY_UNIT));
        Some(CopyRun { zone, at, count })
    }

    /// Whether the blocks of a sequential target before this one are to be filled first.
    fn has_gap(&self, work: &Work, at: u32) -> bool
        ensures { IsTrue result ↔ HasGap self.now.plain work.now at }
    {
        match work.target {
            Some(zone) => zone.0 >= self.geometry().conv() && work.copied < at,
            None => false,
        }
    }

    /// The step that comes next of the job under way.
    fn step_of(&self, work: &Work) -> StepKind
        requires fixed { IsFixed self.now.plain }
        requires job { self.now.plain.job ≡ Some work.now }
        ensures { IsNextOf self.now.plain work.now result }
    {
        if work.read > 0 {
            return StepKind::CopyWrite;
        }
        let Some(run) = self.next_run(work) else {
            return StepKind::Remap;
        };
        if self.has_gap(work, run.at) {
            StepKind::CopyWrite
        } else {
            StepKind::CopyRead
        }
    }
}

impl<D: ZonedDisk> Volume<D> {
    /// The step that comes next of the job under way. None exactly where none is under way. It looks at the
    /// bits of one zone at most.
    pub fn next_of_job(&self) -> Option<StepKind>
        ensures { IsNextStep self.now.plain self.now.plain.job result }
    {
        let work = self.state.job?;
        Some(self.state.step_of(&work))
    }
}
