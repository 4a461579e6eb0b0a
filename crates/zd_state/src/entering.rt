//! Entries, and the memory that they and writes take.

ghost use Rattle.std.specs.Prelude.{◌≡◌, ◌+◌, ◌<◌, ◌≤◌, [], None, true, OnOk};
ghost use Rattle.zd_model.specs.Entries.{answer_of};
ghost use Rattle.zd_model.specs.Plain.Answer.{Range};
ghost use Rattle.zd_model.specs.Plain.{ends_past};
ghost use Rattle.zd_state.specs.Seen.{SameSession};
ghost use Rattle.zd_volume.specs.Flights.{with_entry};
ghost use Rattle.zd_volume.specs.Sets.{device_sectors};
ghost use Rattle.zd_volume.specs.Volumes.{sets_of};

use crate::state::VolumeState;
use crate::volume::Volume;
use std::alloc::Global;
use zd_base::{BLOCK, Memory};
use zd_disk::ZonedDisk;
use zd_model::{Bytes, Entry, Piece, Reply};

impl VolumeState {
    /// Enters a piece now.
    pub(crate) fn enter(&mut self, piece: &Piece, reply: Reply)
        requires spare { 0 < self.old.spare }
        ensures plain { self.new.plain ≡ with_entry self.old.plain piece.now (answer_of reply) }
        ensures spare { self.old.spare ≤ self.new.spare + 1 }
        ensures room { self.new.room ≡ self.old.room }
    {
        let entry = Entry {
            caller: piece.caller,
            request: piece.request,
            piece: piece.piece,
            what: piece.what,
            reply,
            at: self.since,
        };
        let _entered = self.history.push(entry);
    }

    /// No bytes. It takes no memory.
    pub(crate) fn no_bytes(&self) -> Bytes
        ensures { result.items ≡ [] }
    {
        Bytes::new(*self.patterns.allocator())
    }

    /// Makes room for so many entries, and for so many blocks of a write.
    pub(crate) fn reserve(&mut self, entries: usize, blocks: u32) -> Result<(), Memory>
        ensures ok { OnOk result ((entries ≤ self.new.spare) × (blocks ≤ self.new.room)) }
        ensures plain { self.new.plain ≡ self.old.plain }
        ensures spare { self.old.spare ≤ self.new.spare }
        ensures room { self.old.room ≤ self.new.room }
    {
        self.history.reserve(entries)?;
        let len = BLOCK * blocks as usize;
        if self.patterns.len() < len {
            self.patterns.resize(len, 0).map_err(|_| Memory)?;
        }
        Ok(())
    }
}

impl<D: ZonedDisk> Volume<D> {
    /// Makes room for at least so many entries, and a write buffer of at least so many blocks. A
    /// refusal changes nothing but the room.
    pub fn reserve(&mut self, entries: usize, blocks: u32) -> Result<(), Memory>
        ensures ok { OnOk result ((entries ≤ self.new.spare) × (blocks ≤ self.new.room)) }
        ensures plain { self.new.plain ≡ self.old.plain }
        ensures disk { (self.new.disk ≡ self.old.disk) × (self.new.opening ≡ self.old.opening) }
        ensures spare { self.old.spare ≤ self.new.spare }
        ensures room { self.old.room ≤ self.new.room }
    {
        self.state.reserve(entries, blocks)
    }

    /// Enters a piece that ends past the device, with `Range`.
    pub fn enter(&mut self, piece: &Piece)
        requires running { self.old.plain.stopped ≡ None }
        requires range { ends_past (device_sectors (sets_of self.old.plain)) piece.now.what ≡ true }
        requires spare { 0 < self.old.spare }
        ensures entry { self.new.plain ≡ with_entry self.old.plain piece.now Range }
        ensures disk { self.new.disk ≡ self.old.disk }
        ensures same { SameSession 1 self.old self.new }
    {
        self.state.enter(piece, Reply::Range);
    }
}
