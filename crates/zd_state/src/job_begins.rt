//! How a job begins: it takes its target, and resets it where that is needed.

ghost use Rattle.std.specs.Prelude.{◌≡◌, ℕ, ◌<◌, length, set, IfErr, IfNone, IfSome, IsOk, OnOk, None, Some};
ghost use Rattle.zd_base.specs.declared.numbers.Why.TheVariants as whys;
ghost use Rattle.zd_disk.specs.Told.{next_count};
ghost use Rattle.zd_disk.specs.View.{HasFailed};
ghost use Rattle.zd_jobs.specs.JobSteps.{BeginsBy, BeginsJob, BeginsWithReset, FailsReset};
ghost use Rattle.zd_jobs.specs.Possible.{IsPossible};
ghost use Rattle.zd_model.specs.Tables.{entry_of};
ghost use Rattle.zd_state.specs.JobCalls.{HasToReset, ResetsZone, StartsWork};
ghost use Rattle.zd_state.specs.Seen.{SameSession};
ghost use Rattle.zd_volume.specs.Flights.{tables_now};
ghost use Rattle.zd_volume.specs.Volumes.{IsFixed};
ghost use Rattle.zd_volume.specs.declared.phase.Phase.TheVariants.{Idle};
ghost use Rattle.zd_volume.specs.declared.work.Work.{Work};

use crate::state::VolumeState;
use crate::volume::Volume;
use zd_base::{Kind, Why, ZoneNo};
use zd_disk::ZonedDisk;
use zd_volume::{Job, JobKind, Work};

impl VolumeState {
    /// The zone that a job has to reset before it takes it, if there is one.
    fn zone_to_reset(&self, kind: JobKind) -> Option<ZoneNo>
        requires fixed { IsFixed self.now.plain }
        ensures some { IfSome result (HasToReset self.now.plain kind) }
        ensures none { IfNone result ((zone : ℕ) → HasToReset self.now.plain kind zone → ⊥) }
    {
        if kind != JobKind::Move {
            return None;
        }
        let zone = self.alloc.least_free(Kind::Sequential)?;
        if self.pointer(zone) > 0 {
            Some(zone)
        } else {
            None
        }
    }

    /// The zone to which a job that begins copies, and from which block on. A Move takes that zone.
    fn take_target(&mut self, job: &Job) -> (Option<ZoneNo>, u32)
        requires fixed { IsFixed self.old.plain }
        requires possible { IsPossible self.old.plain job.now.chunk job.now.kind }
        ensures begins { BeginsBy self.old.plain job.now.kind (entry_of (tables_now self.old.plain) job.now.chunk)
            result.0 result.1 self.new.plain.division }
        ensures rest { self.new ≡ record self.old {
          plain = record self.old.plain { division = self.new.plain.division };
        } }
    {
        let entry = self.tables.entry(job.chunk);
        match job.kind {
            JobKind::Empty => (None, 0),
            JobKind::Move => (self.alloc.take_sequential(), 0),
            JobKind::Append => {
                let zone = entry.zone.unwrap();
                (Some(zone), self.pointer(zone))
            }
            JobKind::Merge => (entry.buffer, 0),
        }
    }

    /// A job begins. Nothing is copied yet.
    fn begin_job(&mut self, job: &Job)
        requires fixed { IsFixed self.old.plain }
        requires possible { IsPossible self.old.plain job.now.chunk job.now.kind }
        ensures begins { (w : Work) × StartsWork self.old.plain self.new.plain job.now w }
        ensures spare { self.new.spare ≡ self.old.spare }
        ensures room { self.new.room ≡ self.old.room }
    {
        let (target, copied) = self.take_target(job);
        self.job = Some(Work {
            job: *job,
            target,
            copied,
            read: 0,
        });
    }

    /// A zone was reset.
    fn count_reset(&mut self, zone: ZoneNo)
        requires zone { zone < length self.old.plain.pointers }
        ensures { self.new ≡ record self.old {
          plain = record self.old.plain {
            pointers = set self.old.plain.pointers zone 0;
            since = next_count self.old.plain.since;
          };
        } }
    {
        self.pointers[zone.0 as usize] = 0;
        self.since = self.since.saturating_add(1);
    }

    /// A writing call of the disk failed.
    pub(crate) fn stop_by_call(&mut self)
        ensures { self.new ≡ record self.old {
          plain = record self.old.plain {
            since = next_count self.old.plain.since;
            stopped = Some whys.Device;
          };
        } }
    {
        self.since = self.since.saturating_add(1);
        self.stopped = Some(Why::Device);
    }
}

impl<D: ZonedDisk> Volume<D> {
    /// Begins a job, one that is possible on its chunk. A Move takes the least free sequential zone. Where that
    /// zone's pointer isn't at its start it is reset, by one call of the disk; else no call is made.
    ///
    /// `Device` only where the disk failed: no zone is taken, no job is under way, and the volume is stopped.
    /// No other error comes.
    pub fn take_zone(&mut self, job: Job) -> Result<(), Why>
        requires running { self.old.plain.stopped ≡ None }
        requires idle { self.old.plain.phase ≡ Idle }
        requires free { self.old.plain.job ≡ None }
        requires possible { IsPossible self.old.plain job.chunk job.kind }
        ensures still { ((zone : ℕ) → HasToReset self.old.plain job.kind zone → ⊥) → IsOk result
            × (self.new.disk ≡ self.old.disk) × ((w : Work) × BeginsJob self.old.plain self.new.plain job w) }
        ensures reset { (zone : ℕ) → HasToReset self.old.plain job.kind zone →
            ResetsZone zone result (D.view self.old.disk) (D.view self.new.disk)
            × OnOk result ((w : Work) × BeginsWithReset self.old.plain self.new.plain job w zone) }
        ensures err { IfErr result (λ why. (why ≡ Why.Device) × FailsReset self.old.plain self.new.plain
            × HasFailed (D.view self.old.disk) (D.view self.new.disk)) }
        ensures same { SameSession 0 self.old self.new }
    {
        let Some(zone) = self.state.zone_to_reset(job.kind) else {
            self.state.begin_job(&job);
            return Ok(());
        };
        if self.disk.reset(zone).is_err() {
            self.state.stop_by_call();
            return Err(Why::Device);
        }
        self.state.begin_job(&job);
        self.state.count_reset(zone);
        Ok(())
    }
}
