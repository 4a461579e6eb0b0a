//! Writes: one call of the disk, and what it makes of the tables.

ghost use Rattle.std.specs.Prelude.{◌≡◌, ◌⊎◌, ℕ, ◌+◌, ◌-◌, ◌*◌, ◌^◌, ◌<◌, ◌≤◌, ◌++◌, ◌∷◌, [], length, set, true, IsSomeAnd, Some};
ghost use Rattle.zd_alloc.specs.Candidates.{Follows};
ghost use Rattle.zd_alloc.specs.Order.{PutsLast};
ghost use Rattle.zd_base.specs.Geometry.{zone_count};
ghost use Rattle.zd_base.specs.declared.numbers.Why.TheVariants as whys;
ghost use Rattle.zd_disk.specs.Told.{IsInside, WhereTold, next_count};
ghost use Rattle.zd_map.specs.Numbers.{NamesZones};
ghost use Rattle.zd_model.specs.Plain.{Answer as answers};
ghost use Rattle.zd_model.specs.Requests.{block_count, first_sector, operation_of, sector_count};
ghost use Rattle.zd_model.specs.Requests.Operation.{Writing};
ghost use Rattle.zd_model.specs.Tables.{entry_of};
ghost use Rattle.zd_routes.specs.Edges.{AreEdges};
ghost use Rattle.zd_routes.specs.Routes.{GivesEntry, HasPlace, IsGoal, IsRoute, WritesBlocks, WritesRange, entry_touched, entry_with, other_zone, pointers_with, uses_with};
ghost use Rattle.zd_routes.specs.Writes.{CallsOnce, WriteCause, WriteDid, WritesPiece, with_failed_write};
ghost use Rattle.zd_state.specs.Puts.{PutsBlocks};
ghost use Rattle.zd_state.specs.Seen.{SameSession};
ghost use Rattle.zd_tables.specs.Changes.{SetsEntry, entry_block};
ghost use Rattle.zd_volume.specs.Discards.{NoJobOn, chunk_touched, range_end, range_first};
ghost use Rattle.zd_volume.specs.Flights.{answered, tables_now};
ghost use Rattle.zd_volume.specs.Marks.{MarksChanged};
ghost use Rattle.zd_volume.specs.Sets.{AreSets, used};
ghost use Rattle.zd_volume.specs.Volumes.{IsFixed, sets_of};
ghost use Rattle.zd_volume.specs.declared.phase.Phase.TheVariants.{Idle};

use crate::filling::fill;
use crate::state::VolumeState;
use crate::volume::Volume;
use zd_base::{BLOCK, ChunkNo, Failed, Kind, Why, ZoneNo};
use zd_disk::ZonedDisk;
use zd_model::{MapEntry, Piece, Reply, What};
use zd_routes::Edges;
use zd_volume::{Place, Wrote};

/// The sectors of a block.
const BLOCK_SECTORS: u32 = 8;

/// The entries of a map block.
const ENTRIES: u32 = 512;

/// The chunk's other zone, in which the blocks of a write become invalid.
fn other_zone(entry: &MapEntry, place: Place) -> Option<ZoneNo>
    ensures { result ≡ other_zone entry.now place }
{
    match place {
        Place::Main => entry.buffer,
        Place::NewMain => None,
        Place::Buffer | Place::NewBuffer => entry.zone,
    }
}

/// Fills these bytes with the blocks of a write, and writes them into a zone from sector `start` on, by one
/// call of the disk.
fn put_filled<D: ZonedDisk>(
    disk: &mut D,
    out: &mut [u8],
    what: What,
    edges: &Edges,
    zone: ZoneNo,
    start: u32,
) -> Result<(), Failed>
    requires write { operation_of what ≡ Writing }
    requires some { 1 ≤ sector_count what }
    requires few { first_sector what + sector_count what < 2 ^ 64 }
    requires size { length out.old ≡ 4096 * block_count what }
    requires first { (edges.now.first.items ≡ []) ⊎ (length edges.now.first.items ≡ 4096) }
    requires last { (edges.now.last.items ≡ []) ⊎ (length edges.now.last.items ≡ 4096) }
    requires inside { IsSomeAnd (D.view disk.old).told (IsInside zone start (8 * block_count what)) }
    requires pointer { WhereTold (D.view disk.old).zones (λ i. i.geometry.conv ≤ zone → start ≡ i.held zone) }
    ensures put { PutsBlocks zone start what edges.now result (D.view disk.old) (D.view disk.new) }
    ensures size { length out.new ≡ length out.old }
{
    fill(out, what, edges);
    disk.write(zone, start, out)
}

/// Writes the blocks of a piece into a zone from block `first` on, by one call of the disk, from the write
/// buffer.
fn put_blocks<D: ZonedDisk>(
    disk: &mut D,
    state: &mut VolumeState,
    piece: &Piece,
    edges: &Edges,
    zone: ZoneNo,
    first: u32,
) -> Result<(), Failed>
    requires told { (D.view disk.old).told ≡ Some state.old.plain.geometry }
    requires sets { AreSets (sets_of state.old.plain) }
    requires piece { WritesBlocks (sets_of state.old.plain) piece.now.what }
    requires edges { AreEdges state.old.plain (D.view disk.old).zones piece.now.what edges.now }
    requires room { block_count piece.now.what ≤ state.old.room }
    requires first { first ≡ range_first state.old.plain.geometry.zone_blocks piece.now.what }
    requires zone { zone < zone_count state.old.plain.geometry }
    requires pointer { WhereTold (D.view disk.old).zones (λ i.
        i.geometry.conv ≤ zone → 8 * first ≡ i.held zone) }
    ensures put { PutsBlocks zone (8 * first) piece.now.what edges.now result (D.view disk.old) (D.view disk.new) }
    ensures same { state.new ≡ state.old }
{
    let (_, count) = piece.cover();
    let _zone_blocks = state.geometry().zone_blocks();
    let len = BLOCK * count as usize;
    put_filled(
        disk,
        &mut state.patterns[..len],
        piece.what,
        edges,
        zone,
        BLOCK_SECTORS * first,
    )
}

impl VolumeState {
    /// The chunk of a piece, its first block there, and how many blocks it touches.
    fn range_of(&self, piece: &Piece) -> (ChunkNo, u32, u32)
        requires piece { WritesBlocks (sets_of self.now.plain) piece.now.what }
        requires few { self.now.plain.head.layout.chunks < 65537 }
        ensures chunk { result.0 ≡ chunk_touched self.now.plain.geometry.zone_blocks piece.now.what }
        ensures first { result.1 ≡ range_first self.now.plain.geometry.zone_blocks piece.now.what }
        ensures count { result.2 ≡ block_count piece.now.what }
    {
        let zone_blocks = u64::from(self.geometry().zone_blocks());
        let (block, count) = piece.cover();
        (
            ChunkNo((block / zone_blocks) as u32),
            (block % zone_blocks) as u32,
            count,
        )
    }

    /// The zone that a write goes to: of a new one the one that is taken.
    fn goal(&self, entry: &MapEntry, place: Place) -> ZoneNo
        requires { (zone : ℕ) × IsGoal entry.now self.now.plain.division place zone }
        ensures { IsGoal entry.now self.now.plain.division place result }
    {
        match place {
            Place::Main => entry.zone.unwrap(),
            Place::Buffer => entry.buffer.unwrap(),
            Place::NewMain | Place::NewBuffer => {
                self.alloc.least_free(Kind::Conventional).unwrap()
            }
        }
    }

    /// The zone that a write goes to.
    fn route(&self, piece: &Piece, place: Place) -> ZoneNo
        requires fixed { IsFixed self.now.plain }
        requires piece { WritesBlocks (sets_of self.now.plain) piece.now.what }
        requires place { HasPlace self.now.plain piece.now.what place }
        ensures { IsRoute self.now.plain piece.now.what place result }
    {
        let (chunk, _, _) = self.range_of(piece);
        self.goal(&self.tables.entry(chunk), place)
    }

    /// A write failed: it is entered so, and the volume is stopped.
    fn enter_failed_write(&mut self, piece: &Piece)
        requires spare { 0 < self.old.spare }
        ensures plain { self.new.plain ≡ with_failed_write self.old.plain piece.now }
        ensures spare { self.old.spare ≤ self.new.spare + 1 }
        ensures room { self.new.room ≡ self.old.room }
    {
        self.since = self.since.saturating_add(1);
        self.stopped = Some(Why::Device);
        self.enter(piece, Reply::Fault);
    }
}

impl VolumeState {
    /// Takes the zone of a write that needs a new one.
    fn take_goal(&mut self, place: Place, zone: ZoneNo, entry: &MapEntry)
        requires { IsGoal entry.now self.old.plain.division place zone }
        ensures zones { self.new.plain.division.zones ≡ uses_with place zone self.old.plain.division.zones }
        ensures conv { self.new.plain.division.conv ≡ self.old.plain.division.conv }
        ensures order { self.new.plain.division.order ≡ self.old.plain.division.order }
        ensures rest { self.new ≡ record self.old {
          plain = record self.old.plain { division = self.new.plain.division };
        } }
    {
        match place {
            Place::Main | Place::Buffer => {}
            Place::NewMain | Place::NewBuffer => {
                let _taken = self.alloc.take_conventional();
            }
        }
    }

    /// Gives a chunk another entry. Its block of the set is dirty.
    pub(crate) fn give_entry(&mut self, chunk: ChunkNo, entry: MapEntry)
        requires flags { length self.old.plain.dirty ≡ used (sets_of self.old.plain) }
        requires chunk { chunk < self.old.plain.head.layout.chunks }
        requires zones { NamesZones entry }
        ensures sets { SetsEntry chunk entry self.old.plain.fresh self.new.plain.fresh }
        ensures marks { self.new.plain.dirty ≡ set self.old.plain.dirty (entry_block chunk) true }
        ensures rest { self.new ≡ record self.old {
          plain = record self.old.plain {
            fresh = self.new.plain.fresh;
            dirty = self.new.plain.dirty;
          };
        } }
    {
        let _fits = self.tables.layout();
        self.tables.set_entry(chunk, entry);
        self.dirty[1 + (chunk.0 / ENTRIES) as usize] = true;
    }

    /// A write into a zone ended before this block.
    pub(crate) fn move_pointer(&mut self, zone: ZoneNo, end: u32)
        requires zone { zone < length self.old.plain.pointers }
        ensures { self.new ≡ record self.old {
          plain = record self.old.plain {
            pointers = pointers_with self.old.plain.geometry self.old.plain.pointers zone end;
          };
        } }
    {
        if zone.0 >= self.geometry().conv() {
            self.pointers[zone.0 as usize] = end;
        }
    }

    /// Puts a chunk last in the use order.
    fn touch(&mut self, chunk: ChunkNo)
        requires order { chunk < length self.old.plain.division.order }
        requires classes { chunk < length self.old.plain.standings.classes }
        ensures order { PutsLast chunk self.old.plain.division.order self.new.plain.division.order }
        ensures zones { self.new.plain.division.zones ≡ self.old.plain.division.zones }
        ensures conv { self.new.plain.division.conv ≡ self.old.plain.division.conv }
        ensures numbers { Follows chunk self.old.plain.standings.numbers self.new.plain.standings.numbers }
        ensures classes { self.new.plain.standings.classes ≡ self.old.plain.standings.classes }
        ensures rest { self.new ≡ record self.old {
          plain = record self.old.plain {
            division = self.new.plain.division;
            standings = self.new.plain.standings;
          };
        } }
    {
        self.alloc.touch(chunk);
        self.candidates.touch(chunk);
    }

    /// Enters a write as done.
    fn enter_write(&mut self, piece: &Piece)
        requires spare { 0 < self.old.spare }
        ensures plain { self.new.plain ≡ record self.old.plain {
          history = self.old.plain.history ++ answered piece.now answers.Done (next_count self.old.plain.since) ∷ [];
          since = next_count self.old.plain.since;
        } }
        ensures spare { self.old.spare ≤ self.new.spare + 1 }
        ensures room { self.new.room ≡ self.old.room }
    {
        self.since = self.since.saturating_add(1);
        self.enter(piece, Reply::Done);
    }

    /// Gives a chunk its entry after a write to this place. Its block is dirty where that is another one.
    fn map_entry(&mut self, chunk: ChunkNo, entry: &MapEntry, place: Place, zone: ZoneNo)
        requires flags { length self.old.plain.dirty ≡ used (sets_of self.old.plain) }
        requires chunk { chunk < self.old.plain.head.layout.chunks }
        requires entry { NamesZones entry.now }
        requires zone { zone < 2 ^ 32 - 1 }
        ensures gives { GivesEntry place chunk (entry_with entry.now place zone) self.old.plain.fresh
            self.new.plain.fresh self.old.plain.dirty self.new.plain.dirty }
        ensures rest { self.new ≡ record self.old {
          plain = record self.old.plain {
            fresh = self.new.plain.fresh;
            dirty = self.new.plain.dirty;
          };
        } }
    {
        match place {
            Place::Main | Place::Buffer => {}
            Place::NewMain => self.give_entry(
                chunk,
                MapEntry {
                    zone: Some(zone),
                    buffer: None,
                },
            ),
            Place::NewBuffer => self.give_entry(
                chunk,
                MapEntry {
                    zone: entry.zone,
                    buffer: Some(zone),
                },
            ),
        }
    }

    /// Maps the blocks of a write: the chunk's entry, and which blocks are valid in its zones.
    fn map_blocks(&mut self, piece: &Piece, place: Place, zone: ZoneNo)
        requires fixed { IsFixed self.old.plain }
        requires piece { WritesBlocks (sets_of self.old.plain) piece.now.what }
        requires route { IsRoute self.old.plain piece.now.what place zone }
        ensures range { WritesRange (sets_of self.old.plain)
            (chunk_touched self.old.plain.geometry.zone_blocks piece.now.what)
            (range_first self.old.plain.geometry.zone_blocks piece.now.what)
            (range_end self.old.plain.geometry.zone_blocks piece.now.what)
            (entry_with (entry_touched self.old.plain piece.now.what) place zone) zone
            (other_zone (entry_touched self.old.plain piece.now.what) place) self.new.plain.fresh }
        ensures marks { MarksChanged self.old.plain.fresh self.new.plain.fresh self.old.plain.dirty
            self.new.plain.dirty }
        ensures rest { self.new ≡ record self.old {
          plain = record self.old.plain {
            fresh = self.new.plain.fresh;
            dirty = self.new.plain.dirty;
          };
        } }
    {
        let (chunk, first, count) = self.range_of(piece);
        let entry = self.tables.entry(chunk);
        self.map_entry(chunk, &entry, place, zone);
        self.give_blocks(Some(zone), first, count, true);
        self.give_blocks(other_zone(&entry, place), first, count, false);
    }

    /// A write was done: the tables, and all that goes with them.
    fn map_write(&mut self, piece: &Piece, place: Place, zone: ZoneNo)
        requires fixed { IsFixed self.old.plain }
        requires piece { WritesBlocks (sets_of self.old.plain) piece.now.what }
        requires route { IsRoute self.old.plain piece.now.what place zone }
        requires spare { 0 < self.old.spare }
        ensures wrote { WritesPiece self.old.plain self.new.plain piece.now place zone }
        ensures spare { self.old.spare ≤ self.new.spare + 1 }
        ensures room { self.new.room ≡ self.old.room }
    {
        let (chunk, first, count) = self.range_of(piece);
        let entry = self.tables.entry(chunk);
        self.map_blocks(piece, place, zone);
        self.take_goal(place, zone, &entry);
        self.move_pointer(zone, first + count);
        self.reclass(chunk);
        self.touch(chunk);
        self.enter_write(piece);
    }
}

impl<D: ZonedDisk> Volume<D> {
    /// Writes a piece to its place, by one call of the disk, and maps it: its blocks are valid there, and not
    /// in the chunk's other zone. The blocks of the set that change are dirty. It takes no memory.
    ///
    /// `Stopped` only where the disk failed: the piece is entered so, each of its sectors is as it was or as it
    /// was to be, and no table has changed.
    pub fn write_and_map(&mut self, piece: &Piece, edges: &Edges, place: Place) -> Wrote
        requires running { self.old.plain.stopped ≡ None }
        requires idle { self.old.plain.phase ≡ Idle }
        requires piece { WritesBlocks (sets_of self.old.plain) piece.now.what }
        requires job { NoJobOn self.old.plain.job
            (chunk_touched self.old.plain.geometry.zone_blocks piece.now.what) }
        requires place { HasPlace self.old.plain piece.now.what place }
        requires edges { AreEdges self.old.plain (D.view self.old.disk).zones piece.now.what edges.now }
        requires spare { (0 < self.old.spare) × (block_count piece.now.what ≤ self.old.room) }
        ensures wrote { WriteDid self.old.plain self.new.plain piece.now place result }
        ensures call { CallsOnce (D.view self.old.disk) (D.view self.new.disk) }
        ensures same { SameSession 1 self.old self.new }
        ensures cause { WriteCause result (D.view self.old.disk) (D.view self.new.disk) }
    {
        let zone = self.state.route(piece, place);
        let (_, first, _) = self.state.range_of(piece);
        let written = put_blocks(&mut self.disk, &mut self.state, piece, edges, zone, first);
        if written.is_err() {
            self.state.enter_failed_write(piece);
            return Wrote::Stopped;
        }
        self.state.map_write(piece, place, zone);
        Wrote::Entered
    }
}
