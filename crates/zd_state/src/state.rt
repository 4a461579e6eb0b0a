//! The values of a volume, without its disk.

ghost use Rattle.std.specs.Prelude.{◌≡◌, ◌+◌, ◌*◌, ◌<◌, ◌≤◌, ◌^◌, ◌-◌, ◌↔◌, length, replicate, false, IsTrue, Some};
ghost use Rattle.zd_base.specs.declared.numbers.Why.TheVariants.{Generation};
ghost use Rattle.zd_sets.specs.Blocks.{blocks_of};
ghost use Rattle.zd_disk.specs.Told.{next_count};
ghost use Rattle.zd_model.specs.Plain.{Answer as answers};
ghost use Rattle.zd_sets.specs.Equal.{head_at};
ghost use Rattle.zd_sets.specs.Stages.{next_head};
ghost use Rattle.zd_volume.specs.Commits.{EndsLimbo, after_phase, after_end, after_failed, flush_entries};
ghost use Rattle.zd_volume.specs.Uses.{IsNamedFlags};
ghost use Rattle.zd_volume.specs.Phases.{IsNextDirty, first_zone};
ghost use Rattle.zd_volume.specs.Sets.{second, used};
ghost use Rattle.zd_volume.specs.Volumes.{sets_of};

use crate::marks;
use std::marker::Model;
use std::snapshot::Snapshot;
use zd_alloc::{Alloc, Candidates};
use zd_base::{Geometry, Why, ZoneNo};
use zd_model::{Piece, Super};
use zd_plain::History;
use zd_sets::SetBlocks;
use zd_tables::VolumeTables;
use zd_volume::{Phase, Work};

/// What a volume keeps in memory.
#[derive(Drop)]
pub(crate) struct VolumeState {
    pub(crate) tables: VolumeTables,
    pub(crate) head: Super,
    pub(crate) phase: Phase,
    /// The blocks as they were committed. They stand on the disk, and only clauses read them.
    pub(crate) committed: Snapshot<SetBlocks>,
    pub(crate) dirty: Vec<bool>,
    pub(crate) alloc: Alloc,
    pub(crate) named: Vec<bool>,
    pub(crate) pointers: Vec<u32>,
    pub(crate) candidates: Candidates,
    pub(crate) job: Option<Work>,
    /// The copy buffer, 32 blocks.
    pub(crate) buffer: Vec<u8>,
    pub(crate) history: History,
    /// The write buffer.
    pub(crate) patterns: Vec<u8>,
    pub(crate) since: u64,
    pub(crate) opening_generation: u64,
    pub(crate) stopped: Option<Why>,
}

impl Model for VolumeState {
    ghost use Rattle.std.specs.Prelude.{◌≡◌, ◌/◌, length};
    ghost use Rattle.zd_state.specs.Seen.{KeptState};

    ghost Value = { KeptState };

    ghost view = { λ v. record {
      plain = record {
        geometry = v.tables.geometry;
        head = v.head;
        phase = v.phase;
        committed = v.committed.value;
        fresh = v.tables.bytes;
        dirty = v.dirty.items;
        division = v.alloc;
        named = v.named.items;
        pointers = v.pointers.items;
        standings = v.candidates;
        job = v.job;
        buffer = v.buffer.items;
        history = v.history.items;
        since = v.since;
        opening_generation = v.opening_generation;
        stopped = v.stopped;
      };
      spare = v.history.room;
      room = length v.patterns.items / 4096;
    } };

    ghost invariant = { λ v. v.tables.layout ≡ v.head.layout };
}

impl VolumeState {
    /// The geometry of the disk.
    pub(crate) fn geometry(&self) -> &Geometry
        ensures { result.now ≡ self.now.plain.geometry }
    {
        self.tables.geometry()
    }

    /// Block `k` of the set, counted from the super block, as it is now.
    pub(crate) fn block(&self, k: u32) -> &[u8]
        requires { k < used (sets_of self.now.plain) }
        ensures { result.now ≡ blocks_of self.now.plain.fresh k 1 }
    {
        self.tables.block(k)
    }

    /// The zone in which set 1 begins, or set 0, which is written in place.
    pub(crate) fn first_zone(&self, in_place: bool) -> ZoneNo
        ensures { result ≡ first_zone in_place (second (sets_of self.now.plain)) }
    {
        if in_place {
            ZoneNo(0)
        } else {
            ZoneNo(self.head.layout.set_zones(self.tables.geometry()))
        }
    }

    /// The first dirty block from this one on.
    pub(crate) fn next_dirty(&self, from: u32) -> Option<u32>
        requires { length self.now.plain.dirty < 2 ^ 32 }
        ensures { IsNextDirty self.now.plain.dirty from result }
    {
        marks::next_dirty(&self.dirty, from)
    }

    /// A call inside a commit was made.
    pub(crate) fn advance(&mut self, phase: Phase)
        ensures { self.new ≡ record self.old {
          plain = after_phase self.old.plain phase (next_count self.old.plain.since) self.old.plain.stopped;
        } }
    {
        self.phase = phase;
        self.since = self.since.saturating_add(1);
    }

    /// A call of a commit failed.
    pub(crate) fn fail(&mut self, flushes: &[Piece])
        requires spare { length flushes.now ≤ self.old.spare }
        ensures plain { self.new.plain ≡ after_failed self.old.plain flushes.now }
        ensures spare { self.old.spare ≤ self.new.spare + length flushes.now }
        ensures room { self.new.room ≡ self.old.room }
    {
        self.since = self.since.saturating_add(1);
        self.stopped = Some(Why::Device);
        marks::enter_flushes(&mut self.history, flushes, false, self.since);
    }

    /// The phase.
    pub(crate) fn phase(&self) -> Phase
        ensures { result ≡ self.now.plain.phase }
    {
        self.phase
    }

    /// The head that the next commit writes, for set 1 or for set 0, which is written in place.
    pub(crate) fn next_head(&self, in_place: bool) -> Super
        requires { self.now.plain.head.generation < 2 ^ 64 - 1 }
        ensures { result ≡ head_at self.now.plain.geometry
            (first_zone in_place (second (sets_of self.now.plain))) (next_head self.now.plain.head) }
    {
        let first = self.first_zone(in_place);
        let own = u64::from(first.0) * u64::from(self.tables.geometry().zone_blocks());
        Super {
            generation: self.head.generation + 1,
            own,
            ..self.head
        }
    }

    /// The flush that ends a commit was made: alone, or the last of many.
    pub(crate) fn end(&mut self, alone: bool, flushes: &[Piece])
        requires spare { length flushes.now ≤ self.old.spare }
        requires rises { alone ≡ false → self.old.plain.head.generation < 2 ^ 64 - 1 }
        requires zones { length self.old.plain.named ≡ length self.old.plain.division.zones }
        requires few { length self.old.plain.named < 2 ^ 32 }
        ensures plain { self.new.plain ≡ after_end self.old.plain alone
            (flush_entries answers.Done (next_count self.old.plain.since) flushes.now)
            (replicate (length self.old.plain.dirty) false) self.new.plain.named self.new.plain.division
            (next_count self.old.plain.since) }
        ensures limbo { EndsLimbo self.old.plain.division self.new.plain.division }
        ensures named { IsNamedFlags self.new.plain.division self.old.plain.job self.new.plain.named }
        ensures spare { self.old.spare ≤ self.new.spare + length flushes.now }
        ensures room { self.new.room ≡ self.old.room }
    {
        self.since = self.since.saturating_add(1);
        self.committed = Snapshot::of(self.tables.blocks());
        self.phase = Phase::Idle;
        if !alone {
            self.head.generation += 1;
        }
        marks::clear(&mut self.dirty);
        self.alloc.end_limbo();
        marks::flag_named(&mut self.named, &self.alloc, self.job);
        marks::enter_flushes(&mut self.history, flushes, true, self.since);
    }

    /// Whether there is no next generation.
    pub(crate) fn is_last_generation(&self) -> bool
        ensures { IsTrue result ↔ (self.now.plain.head.generation ≡ 2 ^ 64 - 1) }
    {
        self.head.generation == u64::MAX
    }

    /// There is no next generation.
    pub(crate) fn stop(&mut self)
        ensures { self.new ≡ record self.old { plain = record self.old.plain { stopped = Some Generation } } }
    {
        self.stopped = Some(Why::Generation);
    }
}
