//! Runs of blocks with one place.

ghost use Rattle.std.specs.Prelude.{◌≡◌, ℕ, ◌+◌, ◌/◌, ◌%◌, ◌<◌, ◌≤◌, None, Some};
ghost use Rattle.zd_disk.specs.View.{OnlyReads};
ghost use Rattle.zd_model.specs.Tables.{NamesZone};
ghost use Rattle.zd_read.specs.Runs.{IsReadFrom, IsRunFrom};
ghost use Rattle.zd_state.specs.Seen.{SameSession, entries_of_read};
ghost use Rattle.zd_volume.specs.Flights.{IsFlight, ReadStep};

use zd_base::{ChunkNo, ZoneNo};
use zd_disk::ZonedDisk;
use zd_model::MapEntry;
use zd_state::{Flight, Place, Ran, Volume};

/// Blocks that have one place.
#[derive(Clone, Copy, Debug, PartialEq, Eq)]
pub struct Run {
    /// The chunk's zone (`Main`) or its buffer (`Buffer`). None where the blocks are zeros.
    pub place: Option<Place>,
    pub count: u32,
}

/// The place of blocks of a chunk that stand in this zone.
fn place_of(entry: &MapEntry, zone: Option<ZoneNo>) -> Option<Place>
    requires { (z : ℕ) → zone ≡ Some z → NamesZone entry.now z }
    ensures { IsReadFrom entry.now result zone }
{
    match zone {
        None => None,
        Some(zone) => {
            if entry.zone == Some(zone) {
                Some(Place::Main)
            } else {
                Some(Place::Buffer)
            }
        }
    }
}

/// The run that begins with a block of the device: the longest one among `most` blocks of one chunk.
pub fn run_of<D: ZonedDisk>(v: &Volume<D>, block: u64, most: u32) -> Run
    requires some { 1 ≤ most }
    requires device { block / v.now.plain.geometry.zone_blocks < v.now.plain.head.layout.chunks }
    requires chunk { block % v.now.plain.geometry.zone_blocks + most ≤ v.now.plain.geometry.zone_blocks }
    ensures { IsRunFrom v.now.plain block most result }
{
    let _chunks = v.layout().chunks;
    let zone_blocks = u64::from(v.geometry().zone_blocks());
    let chunk = ChunkNo((block / zone_blocks) as u32);
    let at = (block % zone_blocks) as u32;
    let (zone, count) = v.run_at(chunk, at, at + most);
    let place = place_of(&v.entry(chunk), zone);
    Run { place, count }
}

/// Reads the next run of a read: as many blocks as have one place, up to the end of its piece. Its
/// last run enters the piece, with the bytes of the flight; so does a call that fails, with `Fault`.
pub fn step<D: ZonedDisk>(v: &mut Volume<D>, flight: &mut Flight) -> Ran
    requires running { v.old.plain.stopped ≡ None }
    requires flight { IsFlight v.old.plain (D.view v.old.disk).zones flight.old }
    requires spare { 0 < v.old.spare }
    ensures step { ReadStep v.old.plain v.new.plain (D.view v.old.disk) (D.view v.new.disk)
        flight.old flight.new result }
    ensures reads { OnlyReads (D.view v.old.disk) (D.view v.new.disk) }
    ensures same { SameSession (entries_of_read result) v.old v.new }
{
    v.read_run(flight)
}
