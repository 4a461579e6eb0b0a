//! How a job ends: its chunk has the target for its zone, and a zone is given back.

ghost use Rattle.std.specs.Prelude.{◌≡◌, ◌≢◌, ℕ, ◌+◌, ◌<◌, ◌≤◌, length, None, Some};
ghost use Rattle.std.specs.Option.{ForSome};
ghost use Rattle.zd_base.specs.Geometry.{zone_count};
ghost use Rattle.zd_base.specs.declared.steps.StepKind.{StepKind};
ghost use Rattle.zd_jobs.specs.NextSteps.{IsNextStep};
ghost use Rattle.zd_jobs.specs.Remaps.{RemapsChunk, leaving};
ghost use Rattle.zd_model.specs.Tables.{entry_of};
ghost use Rattle.zd_state.specs.Joins.{JoinsBlocks, JoinsInto};
ghost use Rattle.zd_state.specs.Seen.{SameSession};
ghost use Rattle.zd_volume.specs.Flights.{tables_now};
ghost use Rattle.zd_volume.specs.Sets.{used};
ghost use Rattle.zd_volume.specs.Volumes.{IsFixed, sets_of};
ghost use Rattle.zd_volume.specs.declared.phase.Phase.TheVariants.{Idle};
ghost use Rattle.zd_volume.specs.declared.work.Work.{Work};

use crate::state::VolumeState;
use crate::volume::Volume;
use zd_base::ZoneNo;
use zd_disk::ZonedDisk;
use zd_model::MapEntry;
use zd_volume::{JobKind, Work};

/// The zone that a job gives back when it ends, by the entry of its chunk.
fn leaving(kind: JobKind, entry: &MapEntry) -> Option<ZoneNo>
    ensures { result ≡ leaving kind entry.now }
{
    match kind {
        JobKind::Empty | JobKind::Move | JobKind::Merge => entry.zone,
        JobKind::Append => entry.buffer,
    }
}

impl VolumeState {
    /// Makes those blocks of a zone valid that are valid in another one, in the run of the other's blocks from
    /// this one on. The answer is the block behind that run.
    fn join_run(&mut self, from: ZoneNo, to: ZoneNo, at: u32) -> u32
        requires flags { length self.old.plain.dirty ≡ used (sets_of self.old.plain) }
        requires from { from < zone_count self.old.plain.geometry }
        requires to { to < zone_count self.old.plain.geometry }
        requires apart { to ≢ from }
        requires some { at < self.old.plain.geometry.zone_blocks }
        ensures more { at < result }
        ensures inside { result ≤ self.old.plain.geometry.zone_blocks }
        ensures joins { JoinsBlocks self.old.plain.geometry self.old.plain.head.layout from to at result
            self.old.plain.fresh self.new.plain.fresh self.old.plain.dirty self.new.plain.dirty }
        ensures rest { self.new ≡ record self.old {
          plain = record self.old.plain {
            fresh = self.new.plain.fresh;
            dirty = self.new.plain.dirty;
          };
        } }
    {
        let _fits = self.tables.layout();
        let end = self.geometry().zone_blocks();
        let (valid, count) = self.tables.run_at(from, at, end);
        if valid {
            self.give_blocks(Some(to), at, count, true);
        }
        at + count
    }

    /// Makes those blocks of a zone valid that are valid in another one.
    fn join_blocks(&mut self, from: ZoneNo, to: ZoneNo)
        requires flags { length self.old.plain.dirty ≡ used (sets_of self.old.plain) }
        requires from { from < zone_count self.old.plain.geometry }
        requires to { to < zone_count self.old.plain.geometry }
        requires apart { to ≢ from }
        ensures joins { JoinsBlocks self.old.plain.geometry self.old.plain.head.layout from to
            0 self.old.plain.geometry.zone_blocks
            self.old.plain.fresh self.new.plain.fresh self.old.plain.dirty self.new.plain.dirty }
        ensures rest { self.new ≡ record self.old {
          plain = record self.old.plain {
            fresh = self.new.plain.fresh;
            dirty = self.new.plain.dirty;
          };
        } }
    {
        let end = self.geometry().zone_blocks();
        let mut at = 0;
        while at < end {
            at = self.join_run(from, to, at);
        }
    }

    /// The same where there is such a zone; else nothing changes.
    fn join_into(&mut self, from: ZoneNo, to: Option<ZoneNo>)
        requires flags { length self.old.plain.dirty ≡ used (sets_of self.old.plain) }
        requires from { from < zone_count self.old.plain.geometry }
        requires to { ForSome to (λ z. z < zone_count self.old.plain.geometry) }
        requires apart { ForSome to (λ z. z ≢ from) }
        ensures joins { JoinsInto self.old.plain.geometry self.old.plain.head.layout from to
            self.old.plain.fresh self.new.plain.fresh self.old.plain.dirty self.new.plain.dirty }
        ensures rest { self.new ≡ record self.old {
          plain = record self.old.plain {
            fresh = self.new.plain.fresh;
            dirty = self.new.plain.dirty;
          };
        } }
    {
        if let Some(to) = to {
            self.join_blocks(from, to);
        }
    }

    /// The zone of its chunk that the job under way gives back.
    fn zone_left(&self, work: &Work) -> ZoneNo
        requires fixed { IsFixed self.now.plain }
        requires job { self.now.plain.job ≡ Some work.now }
        ensures { leaving work.now.job.kind (entry_of (tables_now self.now.plain) work.now.job.chunk) ≡ Some result }
    {
        leaving(work.job.kind, &self.tables.entry(work.job.chunk)).unwrap()
    }

    /// No job is under way any more.
    fn drop_job(&mut self)
        ensures { self.new ≡ record self.old { plain = record self.old.plain { job = None } } }
    {
        self.job = None;
    }

    /// Ends the job under way, whose blocks are all copied.
    fn end_job(&mut self, work: &Work)
        requires fixed { IsFixed self.old.plain }
        requires job { self.old.plain.job ≡ Some work.now }
        ensures remapped { RemapsChunk self.old.plain self.new.plain work.now }
        ensures spare { self.new.spare ≡ self.old.spare }
        ensures room { self.new.room ≡ self.old.room }
    {
        let zone = self.zone_left(work);
        let blocks = self.geometry().zone_blocks();
        self.give_entry(
            work.job.chunk,
            MapEntry {
                zone: work.target,
                buffer: None,
            },
        );
        self.join_into(zone, work.target);
        self.give_blocks(Some(zone), 0, blocks, false);
        self.release(zone);
        self.drop_job();
        self.reclass(work.job.chunk);
    }
}

impl<D: ZonedDisk> Volume<D> {
    /// Ends the job under way, whose blocks are all copied: its chunk has the target for its zone, where the
    /// valid blocks of the zone that is given back are valid now; an Empty leaves its chunk unmapped. The zone
    /// goes into limbo where the committed map names it, else it is free. No call of the disk is made.
    pub fn remap(&mut self)
        requires running { self.old.plain.stopped ≡ None }
        requires idle { self.old.plain.phase ≡ Idle }
        requires next { IsNextStep self.old.plain self.old.plain.job (Some StepKind.Remap) }
        ensures remapped { (w : Work) × (self.old.plain.job ≡ Some w)
            × RemapsChunk self.old.plain self.new.plain w }
        ensures disk { self.new.disk ≡ self.old.disk }
        ensures same { SameSession 0 self.old self.new }
    {
        let work = self.state.job.unwrap();
        self.state.end_job(&work);
    }
}
