//! Discards: the blocks of a range of a chunk are invalid.

ghost use Rattle.std.specs.Prelude.{◌≡◌, ◌+◌, ◌<◌, ◌≤◌, ◌++◌, ◌∷◌, [], false, None, IsTrue, length};
ghost use Rattle.std.specs.Option.{ForSome};
ghost use Rattle.zd_alloc.specs.Candidates.{GivesClass};
ghost use Rattle.zd_base.specs.Geometry.{IsShape, per, zone_count};
ghost use Rattle.zd_base.specs.Layout.{Fits, used_blocks};
ghost use Rattle.zd_model.specs.Plain.{Answer as answers};
ghost use Rattle.zd_state.specs.Seen.{SameSession};
ghost use Rattle.zd_tables.specs.Changes.{SetsBits, TellsParts, bits_block};
ghost use Rattle.zd_tables.specs.Held.{SamePlace};
ghost use Rattle.zd_tables.specs.Rules.{FollowRules};
ghost use Rattle.zd_tables.specs.Tables.{tables_in};
ghost use Rattle.zd_volume.specs.Discards.{DiscardsBlocks, DropsRange, NoJobOn, chunk_touched};
ghost use Rattle.zd_volume.specs.Flights.{answered};
ghost use Rattle.zd_volume.specs.Jobs.{class_in};
ghost use Rattle.zd_volume.specs.Marks.{GivesBitsIn, MarksParts};
ghost use Rattle.zd_volume.specs.Sets.{used};
ghost use Rattle.zd_volume.specs.Volumes.{IsFixed, sets_of};
ghost use Rattle.zd_volume.specs.declared.phase.Phase.TheVariants.{Idle};

use crate::classes::class_of_chunk;
use crate::state::VolumeState;
use crate::volume::Volume;
use zd_base::{ChunkNo, Geometry, Layout, ZoneNo};
use zd_disk::ZonedDisk;
use zd_model::{Entry, Piece, Reply};
use zd_tables::{ChangedParts, VolumeTables};

/// Flags those of two blocks that changed, of which this is the first.
fn mark(flags: &mut [bool], block: u32, changed: ChangedParts)
    requires first { IsTrue changed.first → block < length flags.old }
    requires second { IsTrue changed.second → block + 1 < length flags.old }
    ensures { MarksParts block changed flags.old flags.new }
{
    if changed.first {
        flags[block as usize] = true;
    }
    if changed.second {
        flags[block as usize + 1] = true;
    }
}

/// Makes so many blocks of a zone, from this one on, valid or invalid. See `VolumeTables::set_range`.
fn give_range(
    tables: &mut VolumeTables,
    zone: ZoneNo,
    first: u32,
    count: u32,
    valid: bool,
) -> ChangedParts
    requires zone { zone < zone_count tables.old.geometry }
    requires inside { first + count ≤ tables.old.geometry.zone_blocks }
    ensures blocks { SetsBits valid tables.old.geometry tables.old.layout zone first (first + count)
        tables.old.bytes tables.new.bytes }
    ensures parts { TellsParts valid tables.old.geometry tables.old.layout zone first (first + count)
        tables.old.bytes tables.new.bytes result }
    ensures same { SamePlace tables.old tables.new }
{
    if valid {
        tables.set_range(zone, first, count)
    } else {
        tables.clear_range(zone, first, count)
    }
}

/// The first bitmap block of a zone.
fn bits_block(geometry: &Geometry, layout: &Layout, zone: ZoneNo) -> u32
    requires fits { Fits geometry.now layout.now }
    requires zone { zone < zone_count geometry.now }
    ensures value { result ≡ bits_block geometry.now layout.now zone }
    ensures inside { result + per geometry.now ≤ used_blocks geometry.now layout.now }
    ensures shape { IsShape geometry.now }
{
    let per = geometry.per();
    1 + layout.map_blocks + zone.0 * per
}

impl VolumeState {
    /// Makes so many blocks of a zone, from this one on, valid or invalid, where there is a zone. The blocks
    /// of the set that change are dirty.
    pub(crate) fn give_blocks(&mut self, zone: Option<ZoneNo>, first: u32, count: u32, valid: bool)
        requires flags { length self.old.plain.dirty ≡ used (sets_of self.old.plain) }
        requires zone { ForSome zone (λ z. z < zone_count self.old.plain.geometry) }
        requires inside { first + count ≤ self.old.plain.geometry.zone_blocks }
        ensures gives { GivesBitsIn valid self.old.plain.geometry self.old.plain.head.layout zone first
            (first + count) self.old.plain.fresh self.new.plain.fresh self.old.plain.dirty self.new.plain.dirty }
        ensures rest { self.new ≡ record self.old {
          plain = record self.old.plain {
            fresh = self.new.plain.fresh;
            dirty = self.new.plain.dirty;
          };
        } }
    {
        if let Some(zone) = zone {
            let block = bits_block(self.tables.geometry(), self.tables.layout(), zone);
            let changed = give_range(&mut self.tables, zone, first, count, valid);
            mark(&mut self.dirty, block, changed);
        }
    }

    /// Gives a chunk its class anew.
    pub(crate) fn reclass(&mut self, chunk: ChunkNo)
        requires rules { FollowRules self.old.plain.geometry self.old.plain.head.layout self.old.plain.fresh }
        requires pointers { length self.old.plain.pointers ≡ zone_count self.old.plain.geometry }
        requires chunk { chunk < self.old.plain.head.layout.chunks }
        requires classes { length self.old.plain.standings.classes ≡ self.old.plain.head.layout.chunks }
        ensures gives { GivesClass chunk
            (class_in self.old.plain.geometry self.old.plain.pointers
            (tables_in self.old.plain.geometry self.old.plain.head.layout self.old.plain.fresh) chunk)
            self.old.plain.standings.classes self.new.plain.standings.classes }
        ensures rest { self.new ≡ record self.old {
          plain = record self.old.plain {
            standings = record self.old.plain.standings { classes = self.new.plain.standings.classes };
          };
        } }
    {
        let class = class_of_chunk(&self.tables, &self.pointers, chunk);
        self.candidates.set(chunk, class);
    }

    /// Enters a piece as done.
    fn enter_done(&mut self, piece: &Piece)
        requires spare { 0 < self.old.spare }
        ensures plain { self.new.plain ≡ record self.old.plain {
          history = self.old.plain.history ++ answered piece.now answers.Done self.old.plain.since ∷ [];
        } }
        ensures spare { self.old.spare ≤ self.new.spare + 1 }
        ensures room { self.new.room ≡ self.old.room }
    {
        let entry = Entry {
            caller: piece.caller,
            request: piece.request,
            piece: piece.piece,
            what: piece.what,
            reply: Reply::Done,
            at: self.since,
        };
        let _entered = self.history.push(entry);
    }
}

impl VolumeState {
    /// Discards the blocks of a piece.
    fn drop_range(&mut self, piece: &Piece)
        requires fixed { IsFixed self.old.plain }
        requires piece { DiscardsBlocks (sets_of self.old.plain) piece.now.what }
        requires spare { 0 < self.old.spare }
        ensures dropped { DropsRange self.old.plain self.new.plain piece.now }
        ensures spare { self.old.spare ≤ self.new.spare + 1 }
        ensures room { self.new.room ≡ self.old.room }
    {
        let zone_blocks = u64::from(self.tables.geometry().zone_blocks());
        let (block, count) = piece.cover();
        let chunk = ChunkNo((block / zone_blocks) as u32);
        let first = (block % zone_blocks) as u32;
        let entry = self.tables.entry(chunk);
        self.give_blocks(entry.zone, first, count, false);
        self.give_blocks(entry.buffer, first, count, false);
        self.reclass(chunk);
        self.enter_done(piece);
    }
}

impl<D: ZonedDisk> Volume<D> {
    /// Discards the blocks of a piece: they are invalid in both zones of their chunk, and read as zeros. The
    /// blocks of the set that change are dirty, and the piece is entered as done. No call of the disk is made.
    pub fn unmap_range(&mut self, piece: &Piece)
        requires running { self.old.plain.stopped ≡ None }
        requires idle { self.old.plain.phase ≡ Idle }
        requires piece { DiscardsBlocks (sets_of self.old.plain) piece.now.what }
        requires job { NoJobOn self.old.plain.job
            (chunk_touched self.old.plain.geometry.zone_blocks piece.now.what) }
        requires spare { 0 < self.old.spare }
        ensures dropped { DropsRange self.old.plain self.new.plain piece.now }
        ensures disk { self.new.disk ≡ self.old.disk }
        ensures same { SameSession 1 self.old self.new }
    {
        self.state.drop_range(piece);
    }
}
