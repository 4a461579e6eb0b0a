//! Copies: blocks of a job's source are read ahead, and written into its target.

ghost use Rattle.std.specs.Prelude.{◌≡◌, ℕ, ◌+◌, ◌*◌, ◌<◌, ◌≤◌, length, replicate, take, IfErr, IfSome, IsSomeAnd, OnErr, OnOk, None, Some};
ghost use Rattle.zd_alloc.specs.Candidates.{GivesClass};
ghost use Rattle.zd_base.specs.Geometry.{zone_count};
ghost use Rattle.zd_base.specs.declared.steps.StepKind.{StepKind};
ghost use Rattle.zd_disk.specs.Told.{IsInside, WhereTold, next_count};
ghost use Rattle.zd_disk.specs.View.{Fails, HasFailed, OnlyReads, ReadsOnce};
ghost use Rattle.zd_jobs.specs.JobSteps.{FailsCopyRead, ReadsBlocks, WritesBlocksOn, WritesCopy};
ghost use Rattle.zd_jobs.specs.NextSteps.{IsNextOf, IsNextStep};
ghost use Rattle.zd_model.specs.Image.{run_of};
ghost use Rattle.zd_state.specs.JobCalls.{CopiesOn, WritesBytes};
ghost use Rattle.zd_state.specs.Seen.{SameSession};
ghost use Rattle.zd_volume.specs.Volumes.{IsFixed};
ghost use Rattle.zd_volume.specs.declared.work.Work.{Work};

use crate::next_steps::{COPY_UNIT, CopyRun};
use crate::state::VolumeState;
use crate::volume::Volume;
use zd_base::{BLOCK, Failed, Why, ZoneNo};
use zd_disk::ZonedDisk;
use zd_volume::Work;

/// The sectors of a block.
const BLOCK_SECTORS: u32 = 8;

/// Reads so many blocks of a zone from block `first` on, by one call of the disk, to the front of these bytes.
fn read_front<D: ZonedDisk>(disk: &mut D, run: &CopyRun, into: &mut [u8]) -> Result<(), Failed>
    requires some { 0 < run.now.count }
    requires first { run.now.at < 65536 }
    requires room { 4096 * run.now.count ≤ length into.old }
    requires inside { IsSomeAnd (D.view disk.old).told (IsInside run.now.zone (8 * run.now.at) (8 * run.now.count)) }
    requires below { WhereTold (D.view disk.old).zones (λ i. 8 * run.now.at + 8 * run.now.count ≤ i.held run.now.zone) }
    ensures value { OnOk result (IfSome (D.view disk.old).zones (λ i. take (4096 * run.now.count) into.new
        ≡ run_of (i.sector run.now.zone) (8 * run.now.at) (8 * run.now.count))) }
    ensures size { length into.new ≡ length into.old }
    ensures read_calls { ReadsOnce (D.view disk.old) (D.view disk.new) }
    ensures reads { OnlyReads (D.view disk.old) (D.view disk.new) }
    ensures cause { Fails result (D.view disk.old) (D.view disk.new) }
{
    let len = BLOCK * run.count as usize;
    disk.read(run.zone, BLOCK_SECTORS * run.at, &mut into[..len])
}

/// Reads a run of blocks, by one call of the disk, to the front of the copy buffer.
fn read_ahead<D: ZonedDisk>(
    disk: &mut D,
    state: &mut VolumeState,
    run: &CopyRun,
) -> Result<(), Failed>
    requires told { (D.view disk.old).told ≡ Some state.old.plain.geometry }
    requires size { length state.old.plain.buffer ≡ 4096 * 32 }
    requires some { 0 < run.now.count }
    requires few { run.now.count ≤ 32 }
    requires zone { run.now.zone < zone_count state.old.plain.geometry }
    requires inside { run.now.at + run.now.count ≤ state.old.plain.geometry.zone_blocks }
    requires below { WhereTold (D.view disk.old).zones (λ i. 8 * run.now.at + 8 * run.now.count ≤ i.held run.now.zone) }
    ensures value { OnOk result (WhereTold (D.view disk.old).zones (λ i. take (4096 * run.now.count)
        state.new.plain.buffer ≡ run_of (i.sector run.now.zone) (8 * run.now.at) (8 * run.now.count))) }
    ensures size { length state.new.plain.buffer ≡ length state.old.plain.buffer }
    ensures rest { state.new ≡ record state.old {
      plain = record state.old.plain { buffer = state.new.plain.buffer };
    } }
    ensures read_calls { ReadsOnce (D.view disk.old) (D.view disk.new) }
    ensures reads { OnlyReads (D.view disk.old) (D.view disk.new) }
    ensures cause { Fails result (D.view disk.old) (D.view disk.new) }
{
    let _zone_blocks = state.geometry().zone_blocks();
    read_front(disk, run, &mut state.buffer)
}

/// Writes so many blocks from the front of the copy buffer into a zone from block `first` on, by one call of the
/// disk.
fn put_copy<D: ZonedDisk>(
    disk: &mut D,
    state: &VolumeState,
    zone: ZoneNo,
    first: u32,
    count: u32,
) -> Result<(), Failed>
    requires told { (D.view disk.old).told ≡ Some state.now.plain.geometry }
    requires size { length state.now.plain.buffer ≡ 4096 * 32 }
    requires some { 0 < count }
    requires few { count ≤ 32 }
    requires zone { zone < zone_count state.now.plain.geometry }
    requires inside { first + count ≤ state.now.plain.geometry.zone_blocks }
    requires pointer { WhereTold (D.view disk.old).zones (λ i. i.geometry.conv ≤ zone → 8 * first ≡ i.held zone) }
    ensures { WritesBytes zone (8 * first) (take (4096 * count) state.now.plain.buffer) result
        (D.view disk.old) (D.view disk.new) }
{
    let _zone_blocks = state.geometry().zone_blocks();
    let len = BLOCK * count as usize;
    disk.write(zone, BLOCK_SECTORS * first, &state.buffer[..len])
}

/// So many bytes from the first on are zeros.
fn clear_front(bytes: &mut [u8], len: usize)
    requires { len ≤ length bytes.old }
    ensures value { take len bytes.new ≡ replicate len 0 }
    ensures size { length bytes.new ≡ length bytes.old }
{
    bytes[..len].fill(0);
}

impl VolumeState {
    /// A run was read.
    fn note_read(&mut self, work: &Work, run: &CopyRun)
        ensures { self.new ≡ record self.old {
          plain = record self.old.plain { job = Some (record work.now { copied = run.now.at; read = run.now.count }) };
        } }
    {
        self.job = Some(Work {
            copied: run.at,
            read: run.count,
            ..*work
        });
    }

    /// How many blocks are written into a gap next. They are zeros now in the copy buffer.
    fn fill_gap(&mut self, work: &Work) -> u32
        requires fixed { IsFixed self.old.plain }
        requires job { self.old.plain.job ≡ Some work.now }
        requires none { work.now.read ≡ 0 }
        requires next { IsNextOf self.old.plain work.now StepKind.CopyWrite }
        ensures copy { WritesCopy self.old.plain work.now result (take (4096 * result) self.new.plain.buffer) }
        ensures size { length self.new.plain.buffer ≡ length self.old.plain.buffer }
        ensures rest { self.new ≡ record self.old {
          plain = record self.old.plain { buffer = self.new.plain.buffer };
        } }
    {
        let run = self.next_run(work).unwrap();
        let count = (run.at - work.copied).min(COPY_UNIT);
        clear_front(&mut self.buffer, BLOCK * count as usize);
        count
    }

    /// How many blocks are written into the target next, from the front of the copy buffer: those that were
    /// read, or zeros for a gap.
    fn fill_copy(&mut self, work: &Work) -> u32
        requires fixed { IsFixed self.old.plain }
        requires job { self.old.plain.job ≡ Some work.now }
        requires next { IsNextOf self.old.plain work.now StepKind.CopyWrite }
        ensures copy { WritesCopy self.old.plain work.now result (take (4096 * result) self.new.plain.buffer) }
        ensures size { length self.new.plain.buffer ≡ length self.old.plain.buffer }
        ensures rest { self.new ≡ record self.old {
          plain = record self.old.plain { buffer = self.new.plain.buffer };
        } }
    {
        if work.read > 0 {
            work.read
        } else {
            self.fill_gap(work)
        }
    }

    /// So many blocks were written into the target.
    fn note_copy(&mut self, work: &Work, zone: ZoneNo, count: u32)
        requires fixed { IsFixed self.old.plain }
        requires job { self.old.plain.job ≡ Some work.now }
        requires target { work.now.target ≡ Some zone }
        requires inside { work.now.copied + count ≤ self.old.plain.geometry.zone_blocks }
        ensures copied { WritesBlocksOn self.old.plain self.new.plain work.now zone count }
        ensures spare { self.new.spare ≡ self.old.spare }
        ensures room { self.new.room ≡ self.old.room }
    {
        let end = work.copied + count;
        self.job = Some(Work {
            copied: end,
            read: 0,
            ..*work
        });
        self.since = self.since.saturating_add(1);
        self.move_pointer(zone, end);
        self.reclass(work.job.chunk);
    }
}

impl<D: ZonedDisk> Volume<D> {
    /// Reads the next run of valid blocks of the job's source, at most 32, by one call of the disk, into the copy
    /// buffer.
    ///
    /// `Device` only where the disk failed: the job is where it was, and the volume is stopped. No other error
    /// comes.
    pub fn copy_read(&mut self) -> Result<(), Why>
        requires running { self.old.plain.stopped ≡ None }
        requires next { IsNextStep self.old.plain self.old.plain.job (Some StepKind.CopyRead) }
        ensures ok { OnOk result ((w : Work) × (at count : ℕ) × (self.old.plain.job ≡ Some w)
            × ReadsBlocks self.old.plain self.new.plain w at count (D.view self.old.disk).zones) }
        ensures err { IfErr result (λ why. (why ≡ Why.Device) × FailsCopyRead self.old.plain self.new.plain
            × HasFailed (D.view self.old.disk) (D.view self.new.disk)) }
        ensures read_calls { ReadsOnce (D.view self.old.disk) (D.view self.new.disk) }
        ensures reads { OnlyReads (D.view self.old.disk) (D.view self.new.disk) }
        ensures same { SameSession 0 self.old self.new }
    {
        let work = self.state.job.unwrap();
        let run = self.state.next_run(&work).unwrap();
        if read_ahead(&mut self.disk, &mut self.state, &run).is_err() {
            self.state.stop_by_device();
            return Err(Why::Device);
        }
        self.state.note_read(&work, &run);
        Ok(())
    }

    /// Writes the blocks that the job has read into its target, or zeros into a gap before the next run, at most
    /// 32 blocks, by one call of the disk. The target's pointer moves past them, and the chunk has its class anew.
    ///
    /// `Device` only where the disk failed: the job is where it was, and the volume is stopped. No other error
    /// comes.
    pub fn copy_write(&mut self) -> Result<(), Why>
        requires running { self.old.plain.stopped ≡ None }
        requires next { IsNextStep self.old.plain self.old.plain.job (Some StepKind.CopyWrite) }
        ensures copied { (w : Work) × (self.old.plain.job ≡ Some w) × CopiesOn self.old.plain self.new.plain w result
            (D.view self.old.disk) (D.view self.new.disk) }
        ensures err { IfErr result (λ why. (why ≡ Why.Device)
            × HasFailed (D.view self.old.disk) (D.view self.new.disk)) }
        ensures same { SameSession 0 self.old self.new }
    {
        let work = self.state.job.unwrap();
        let zone = work.target.unwrap();
        let count = self.state.fill_copy(&work);
        let written = put_copy(&mut self.disk, &self.state, zone, work.copied, count);
        if written.is_err() {
            self.state.stop_by_call();
            return Err(Why::Device);
        }
        self.state.note_copy(&work, zone, count);
        Ok(())
    }
}
