//! Where the blocks of a chunk stand.

ghost use Rattle.std.specs.Prelude.{◌≡◌, ◌<◌, ◌≤◌};
ghost use Rattle.zd_model.specs.Places.{IsPlacedRun};
ghost use Rattle.zd_model.specs.Tables.{MapFollowsRules};
ghost use Rattle.zd_volume.specs.Flights.{place_now, tables_now};

use crate::state::VolumeState;
use crate::volume::Volume;
use zd_base::{ChunkNo, ZoneNo};
use zd_disk::ZonedDisk;

impl VolumeState {
    /// The zone in which block `at` of a chunk is valid, the chunk's or its buffer, and how many
    /// blocks from there on, below `end`, are like it. None where it is valid in neither.
    pub(crate) fn run_at(&self, chunk: ChunkNo, at: u32, end: u32) -> (Option<ZoneNo>, u32)
        requires rules { MapFollowsRules self.now.plain.geometry self.now.plain.head.layout
            (tables_now self.now.plain).entries }
        requires chunk { chunk < self.now.plain.head.layout.chunks }
        requires some { at < end }
        requires inside { end ≤ self.now.plain.geometry.zone_blocks }
        ensures { IsPlacedRun (place_now self.now.plain chunk) at end result.0 result.1 }
    {
        let entry = self.tables.entry(chunk);
        let Some(zone) = entry.zone else {
            return (None, end - at);
        };
        let (valid, count) = self.tables.run_at(zone, at, end);
        if valid {
            return (Some(zone), count);
        }
        let Some(buffer) = entry.buffer else {
            return (None, count);
        };
        let (valid, count) = self.tables.run_at(buffer, at, at + count);
        (if valid { Some(buffer) } else { None }, count)
    }
}

impl<D: ZonedDisk> Volume<D> {
    /// The zone in which block `at` of a chunk is valid, the chunk's or its buffer, and how many
    /// blocks from there on, below `end`, are like it. None where it is valid in neither: such blocks
    /// are zeros.
    pub fn run_at(&self, chunk: ChunkNo, at: u32, end: u32) -> (Option<ZoneNo>, u32)
        requires chunk { chunk < self.now.plain.head.layout.chunks }
        requires some { at < end }
        requires inside { end ≤ self.now.plain.geometry.zone_blocks }
        ensures { IsPlacedRun (place_now self.now.plain chunk) at end result.0 result.1 }
    {
        self.state.run_at(chunk, at, end)
    }
}
