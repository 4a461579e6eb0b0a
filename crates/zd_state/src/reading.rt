//! Reads, one run of blocks a step.

ghost use Rattle.std.specs.Prelude.{◌≡◌, ◌+◌, ◌*◌, ◌<◌, ◌≤◌, ◌++◌, length, take, Some, None};
ghost use Rattle.std.specs.Prelude.{IfSome, IsSomeAnd, OnOk, OnErr};
ghost use Rattle.zd_disk.specs.Told.{IsInside, WhereTold};
ghost use Rattle.zd_disk.specs.View.{Fails, OnlyReads, ReadsOnce};
ghost use Rattle.zd_model.specs.Image.{run_of};
ghost use Rattle.zd_state.specs.Seen.{SameSession, entries_of_read};
ghost use Rattle.zd_tables.specs.Rules.{AreBelow};
ghost use Rattle.zd_volume.specs.Flights.{FailsRun, IsFlight, ReadStep, ReadsRun, chunk_of};
ghost use Rattle.zd_volume.specs.Flights.{end_sector, next_sector, tables_now};
ghost use Rattle.zd_volume.specs.Sets.{AreSets};
ghost use Rattle.zd_volume.specs.Volumes.{sets_of};

use crate::state::VolumeState;
use crate::volume::Volume;
use std::mem;
use zd_base::{ChunkNo, Failed, SECTOR, ZoneNo};
use zd_disk::ZonedDisk;
use zd_model::{Bytes, Reply};
use zd_plain::{first_sector, sector_count};
use zd_volume::{Flight, Ran};

/// The sectors of a block.
const BLOCK_SECTORS: u32 = 8;

/// Reads so many sectors of a zone from sector `at` on, by one call of the disk, to the end of these
/// bytes, behind byte `start`.
fn read_tail<D: ZonedDisk>(
    disk: &mut D,
    zone: ZoneNo,
    at: u32,
    count: u32,
    into: &mut [u8],
    start: usize,
) -> Result<(), Failed>
    requires inside { IsSomeAnd (D.view disk.old).told (IsInside zone at count) }
    requires below { IfSome (D.view disk.old).zones (λ i. at + count ≤ i.held zone) }
    requires some { 0 < count }
    requires size { length into.old ≡ start + 512 * count }
    ensures value { OnOk result (IfSome (D.view disk.old).zones (λ i.
        into.new ≡ take start into.old ++ run_of (i.sector zone) at count)) }
    ensures read_calls { ReadsOnce (D.view disk.old) (D.view disk.new) }
    ensures reads { OnlyReads (D.view disk.old) (D.view disk.new) }
    ensures cause { Fails result (D.view disk.old) (D.view disk.new) }
{
    disk.read(zone, at, &mut into[start..])
}

/// Reads so many sectors of a zone from sector `at` on, by one call of the disk, behind these bytes.
pub(crate) fn read_behind<D: ZonedDisk>(
    disk: &mut D,
    zone: ZoneNo,
    at: u32,
    count: u32,
    into: &mut Bytes,
) -> Result<(), Failed>
    requires inside { IsSomeAnd (D.view disk.old).told (IsInside zone at count) }
    requires below { IfSome (D.view disk.old).zones (λ i. at + count ≤ i.held zone) }
    requires some { 0 < count }
    requires room { 512 * count ≤ into.old.room }
    ensures value { OnOk result (IfSome (D.view disk.old).zones (λ i.
        into.new.items ≡ into.old.items ++ run_of (i.sector zone) at count)) }
    ensures size { length into.new.items ≡ length into.old.items + 512 * count }
    ensures room { into.old.room ≤ into.new.room + 512 * count }
    ensures read_calls { ReadsOnce (D.view disk.old) (D.view disk.new) }
    ensures reads { OnlyReads (D.view disk.old) (D.view disk.new) }
    ensures cause { Fails result (D.view disk.old) (D.view disk.new) }
{
    let start = into.len();
    into.add_zeros(SECTOR * count as usize);
    read_tail(disk, zone, at, count, into.bytes_mut(), start)
}

impl VolumeState {
    /// The chunk of a read, and the sectors of the chunk that come next and behind the read.
    fn next_of(&self, flight: &Flight) -> (ChunkNo, u32, u32)
        requires sets { AreSets (sets_of self.now.plain) }
        requires flight { IsFlight self.now.plain None flight.now }
        ensures chunk { result.0 ≡ chunk_of self.now.plain flight.now.piece.what }
        ensures next { result.1 ≡ next_sector self.now.plain flight.now }
        ensures end { result.2 ≡ end_sector self.now.plain flight.now }
    {
        let sectors = BLOCK_SECTORS * self.geometry().zone_blocks();
        let first = first_sector(flight.piece.what);
        let from = (first % u128::from(sectors)) as u32;
        let end = from + sector_count(flight.piece.what) as u32;
        let next = from + (flight.bytes.len() / SECTOR) as u32;
        (ChunkNo((first / u128::from(sectors)) as u32), next, end)
    }
}

/// Reads the next run of a read: by one call where its blocks have a place, by none where they are
/// zeros.
fn read_next<D: ZonedDisk>(
    disk: &mut D,
    state: &VolumeState,
    flight: &mut Flight,
) -> Result<(), Failed>
    requires told { (D.view disk.old).told ≡ Some state.now.plain.geometry }
    requires sets { AreSets (sets_of state.now.plain) }
    requires below { WhereTold (D.view disk.old).zones (λ i.
        AreBelow state.now.plain.geometry i.held (tables_now state.now.plain)) }
    requires flight { IsFlight state.now.plain (D.view disk.old).zones flight.old }
    ensures ok { OnOk result (ReadsRun state.now.plain (D.view disk.old) (D.view disk.new) flight.old flight.new) }
    ensures err { OnErr result (FailsRun state.now.plain (D.view disk.old) (D.view disk.new) flight.old flight.new) }
    ensures reads { OnlyReads (D.view disk.old) (D.view disk.new) }
{
    let (chunk, at, end) = state.next_of(flight);
    let block = at / BLOCK_SECTORS;
    let (place, count) = state.run_at(chunk, block, end.div_ceil(BLOCK_SECTORS));
    let stop = end.min(BLOCK_SECTORS * (block + count));
    if let Some(zone) = place {
        read_behind(disk, zone, at, stop - at, &mut flight.bytes)?;
    } else {
        flight.bytes.add_zeros(SECTOR * (stop - at) as usize);
    }
    flight.done += count;
    Ok(())
}

impl<D: ZonedDisk> Volume<D> {
    /// Reads the next run of a read: as many blocks as have one place, up to the end of its piece.
    /// Its last run enters the piece, with the bytes of the flight; so does a call that fails, with
    /// `Fault`.
    pub fn read_run(&mut self, flight: &mut Flight) -> Ran
        requires running { self.old.plain.stopped ≡ None }
        requires flight { IsFlight self.old.plain (D.view self.old.disk).zones flight.old }
        requires spare { 0 < self.old.spare }
        ensures step { ReadStep self.old.plain self.new.plain (D.view self.old.disk) (D.view self.new.disk)
            flight.old flight.new result }
        ensures reads { OnlyReads (D.view self.old.disk) (D.view self.new.disk) }
        ensures same { SameSession (entries_of_read result) self.old self.new }
    {
        let (_, blocks) = flight.piece.cover();
        if read_next(&mut self.disk, &self.state, flight).is_err() {
            self.state.enter(&flight.piece, Reply::Fault);
            return Ran::Entered;
        }
        if flight.done < blocks {
            return Ran::More;
        }
        let bytes = mem::replace(&mut flight.bytes, self.state.no_bytes());
        self.state.enter(&flight.piece, Reply::Got(bytes));
        Ran::Entered
    }
}
