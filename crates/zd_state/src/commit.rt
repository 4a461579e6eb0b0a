//! Commits, one call of the disk a step.

ghost use Rattle.std.specs.Prelude.{◌≡◌, ◌+◌, ◌≤◌, ◌<◌, None, Some, length};
ghost use Rattle.zd_state.specs.Seen.{SameSession, entries_of_commit};
ghost use Rattle.zd_volume.specs.CommitCalls.{EndsDurable, FlushesOnce, IsBlockDue, MakesCommitCall};
ghost use Rattle.zd_volume.specs.CommitCalls.{StopsByDevice, WritesBlock, WritesSuper};
ghost use Rattle.zd_volume.specs.Commits.{AreFlushes, CommitStep, IsLastCall};
ghost use Rattle.zd_volume.specs.Phases.{IsInnerFlush, after_block, after_flush, after_super};
ghost use Rattle.zd_volume.specs.Phases.{first_zone, super_phase};
ghost use Rattle.zd_volume.specs.declared.phase.Phase.TheVariants.{Idle};
ghost use Rattle.zd_volume.specs.Sets.{second};
ghost use Rattle.zd_volume.specs.Volumes.{sets_of};

use crate::volume::Volume;
use zd_base::Why;
use zd_disk::ZonedDisk;
use zd_model::Piece;
use zd_sets::{write_block, write_super};
use zd_volume::{Committed, Phase};

/// The phase after a block, by the next dirty one.
fn block_after(in_place: bool, next: Option<u32>) -> Phase
    ensures { result ≡ after_block in_place next }
{
    match (in_place, next) {
        (false, None) => Phase::LogFlush,
        (false, Some(k)) => Phase::Log(k),
        (true, None) => Phase::InPlaceFlush,
        (true, Some(k)) => Phase::InPlace(k),
    }
}

/// The phase after a super block.
fn super_after(in_place: bool) -> Phase
    ensures { result ≡ after_super in_place }
{
    if in_place {
        Phase::InPlaceSuperFlush
    } else {
        Phase::LogSuperFlush
    }
}

/// The phase after a flush inside a commit, by the first dirty block.
fn flush_after(phase: Phase, next: Option<u32>) -> Phase
    ensures { result ≡ after_flush phase next }
{
    match phase {
        Phase::LogFlush => Phase::LogSuper,
        Phase::LogSuperFlush => block_after(true, next),
        Phase::InPlaceFlush => Phase::InPlaceSuper,
        other => other,
    }
}

impl<D: ZonedDisk> Volume<D> {
    /// Writes block `k`, which is due, to set 1, or to set 0 in place.
    #[tactic(auto, using(zd_volume::proofs::CodeCalls::due_inside))]
    fn put_block(&mut self, in_place: bool, k: u32, flushes: &[Piece]) -> Committed
        requires running { self.old.plain.stopped ≡ None }
        requires due { IsBlockDue in_place self.old.plain k }
        requires flushes { AreFlushes flushes.now }
        requires spare { length flushes.now ≤ self.old.spare }
        ensures step { CommitStep self.old.plain self.new.plain flushes.now result }
        ensures call { WritesBlock self.old.plain (first_zone in_place (second (sets_of self.old.plain))) k
            (D.view self.old.disk) (D.view self.new.disk) }
        ensures durable { EndsDurable result (D.view self.new.disk) }
        ensures same { SameSession (entries_of_commit result (length flushes.now)) self.old self.new }
        ensures cause { StopsByDevice result (D.view self.old.disk) (D.view self.new.disk) }
    {
        let next = self.state.next_dirty(k + 1);
        let first = self.state.first_zone(in_place);
        let block = self.state.block(k);
        let written = write_block(&mut self.disk, self.state.geometry(), first, k, block);
        if written.is_err() {
            self.state.fail(flushes);
            return Committed::Stopped(Why::Device);
        }
        self.state.advance(block_after(in_place, next));
        Committed::More
    }

    /// Writes the super block of set 1, or of set 0 in place, with the next generation.
    fn put_super(&mut self, in_place: bool, flushes: &[Piece]) -> Committed
        requires running { self.old.plain.stopped ≡ None }
        requires phase { self.old.plain.phase ≡ super_phase in_place }
        requires flushes { AreFlushes flushes.now }
        requires spare { length flushes.now ≤ self.old.spare }
        ensures step { CommitStep self.old.plain self.new.plain flushes.now result }
        ensures call { WritesSuper self.old.plain (first_zone in_place (second (sets_of self.old.plain)))
            (D.view self.old.disk) (D.view self.new.disk) }
        ensures durable { EndsDurable result (D.view self.new.disk) }
        ensures same { SameSession (entries_of_commit result (length flushes.now)) self.old self.new }
        ensures cause { StopsByDevice result (D.view self.old.disk) (D.view self.new.disk) }
    {
        let first = self.state.first_zone(in_place);
        let head = self.state.next_head(in_place);
        let written = write_super(&mut self.disk, first, &head);
        if written.is_err() {
            self.state.fail(flushes);
            return Committed::Stopped(Why::Device);
        }
        self.state.advance(super_after(in_place));
        Committed::More
    }

    /// Makes a flush inside a commit, which isn't the last.
    fn flush_inside(&mut self, flushes: &[Piece]) -> Committed
        requires running { self.old.plain.stopped ≡ None }
        requires phase { IsInnerFlush self.old.plain.phase }
        requires flushes { AreFlushes flushes.now }
        requires spare { length flushes.now ≤ self.old.spare }
        ensures step { CommitStep self.old.plain self.new.plain flushes.now result }
        ensures call { FlushesOnce (D.view self.old.disk) (D.view self.new.disk) }
        ensures durable { EndsDurable result (D.view self.new.disk) }
        ensures same { SameSession (entries_of_commit result (length flushes.now)) self.old self.new }
        ensures cause { StopsByDevice result (D.view self.old.disk) (D.view self.new.disk) }
    {
        let next = self.state.next_dirty(1);
        let flushed = self.disk.flush();
        if flushed.is_err() {
            self.state.fail(flushes);
            return Committed::Stopped(Why::Device);
        }
        self.state.advance(flush_after(self.state.phase(), next));
        Committed::More
    }

    /// Makes the flush that ends a commit, or that is one alone.
    fn flush_last(&mut self, alone: bool, flushes: &[Piece]) -> Committed
        requires running { self.old.plain.stopped ≡ None }
        requires last { IsLastCall alone self.old.plain.phase self.old.plain.dirty }
        requires flushes { AreFlushes flushes.now }
        requires spare { length flushes.now ≤ self.old.spare }
        ensures step { CommitStep self.old.plain self.new.plain flushes.now result }
        ensures call { FlushesOnce (D.view self.old.disk) (D.view self.new.disk) }
        ensures durable { EndsDurable result (D.view self.new.disk) }
        ensures same { SameSession (entries_of_commit result (length flushes.now)) self.old self.new }
        ensures cause { StopsByDevice result (D.view self.old.disk) (D.view self.new.disk) }
    {
        let flushed = self.disk.flush();
        if flushed.is_err() {
            self.state.fail(flushes);
            return Committed::Stopped(Why::Device);
        }
        self.state.end(alone, flushes);
        Committed::Ended
    }

    /// Makes the first call of a commit: that of its first block, or one flush where nothing is dirty. At
    /// the last generation a commit with dirty blocks makes none.
    fn begin(&mut self, flushes: &[Piece]) -> Committed
        requires running { self.old.plain.stopped ≡ None }
        requires phase { self.old.plain.phase ≡ Idle }
        requires flushes { AreFlushes flushes.now }
        requires spare { length flushes.now ≤ self.old.spare }
        ensures step { CommitStep self.old.plain self.new.plain flushes.now result }
        ensures call { MakesCommitCall result self.old.plain (D.view self.old.disk) (D.view self.new.disk) }
        ensures durable { EndsDurable result (D.view self.new.disk) }
        ensures same { SameSession (entries_of_commit result (length flushes.now)) self.old self.new }
        ensures cause { StopsByDevice result (D.view self.old.disk) (D.view self.new.disk) }
    {
        let Some(k) = self.state.next_dirty(1) else {
            return self.flush_last(true, flushes);
        };
        if self.state.is_last_generation() {
            self.state.stop();
            return Committed::Stopped(Why::Generation);
        }
        self.put_block(false, k, flushes)
    }

    /// Makes the next call of a commit: of the one that is under way, else of one that begins.
    ///
    /// `flushes` are the flushes that wait, each of which is a whole request. With the last call they are
    /// entered as done, and all that was entered before outlasts a stop. `Stopped(Device)` comes only where
    /// the disk failed, and enters them as failed. `Stopped(Generation)` comes exactly where blocks are dirty
    /// at the last generation and no commit is under way: no call is made and nothing is entered. Either
    /// way the volume is stopped.
    pub fn commit_one(&mut self, flushes: &[Piece]) -> Committed
        requires running { self.old.plain.stopped ≡ None }
        requires flushes { AreFlushes flushes.now }
        requires spare { length flushes.now ≤ self.old.spare }
        ensures step { CommitStep self.old.plain self.new.plain flushes.now result }
        ensures call { MakesCommitCall result self.old.plain (D.view self.old.disk) (D.view self.new.disk) }
        ensures durable { EndsDurable result (D.view self.new.disk) }
        ensures same { SameSession (entries_of_commit result (length flushes.now)) self.old self.new }
        ensures cause { StopsByDevice result (D.view self.old.disk) (D.view self.new.disk) }
    {
        match self.state.phase() {
            Phase::Idle => self.begin(flushes),
            Phase::Log(k) => self.put_block(false, k, flushes),
            Phase::LogSuper => self.put_super(false, flushes),
            Phase::InPlace(k) => self.put_block(true, k, flushes),
            Phase::InPlaceSuper => self.put_super(true, flushes),
            Phase::InPlaceSuperFlush => self.flush_last(false, flushes),
            Phase::LogFlush | Phase::LogSuperFlush | Phase::InPlaceFlush => self.flush_inside(
                flushes,
            ),
        }
    }
}
