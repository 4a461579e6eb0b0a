//! What can be read of a volume.

ghost use Rattle.std.specs.Prelude.{◌≡◌, ◌-◌, ◌*◌, ◌<◌, ◌≤◌, ◌^◌, length, min, None, option_map, option_and_then};
ghost use Rattle.std.specs.Prelude.{slice_index};
ghost use Rattle.zd_base.specs.Geometry.{zone_count};
ghost use Rattle.zd_base.specs.Layout.{rounded_up};
ghost use Rattle.zd_disk.specs.Told.{WhereTold};
ghost use Rattle.zd_model.specs.History.{IsLegal, last_array};
ghost use Rattle.zd_model.specs.Safe.{base_at};
ghost use Rattle.zd_model.specs.Tables.{entry_of, served};
ghost use Rattle.zd_tables.specs.Tables.{bits_in_blocks};
ghost use Rattle.zd_volume.specs.Sets.{new_tables};
ghost use Rattle.zd_volume.specs.Uses.{dirty_from};
ghost use Rattle.zd_volume.specs.Volumes.{sets_of};

use crate::marks::count_dirty;
use crate::state::VolumeState;
use crate::volume::Volume;
use zd_alloc::{Alloc, Candidates};
use zd_base::{BLOCK, ChunkNo, Geometry, Layout, Why, ZoneNo};
use zd_disk::ZonedDisk;
use zd_model::{MapEntry, Super};
use zd_plain::History;
use zd_volume::{Job, Phase};

impl VolumeState {
    /// How many blocks of the set are dirty.
    fn count_dirty(&self) -> u32
        requires { length self.now.plain.dirty < 2 ^ 32 }
        ensures { result ≡ dirty_from self.now.plain.dirty 1 }
    {
        count_dirty(&self.dirty)
    }

    /// The pointer of a zone in blocks.
    pub(crate) fn pointer(&self, zone: ZoneNo) -> u32
        requires { zone < length self.now.plain.pointers }
        ensures { result ≡ slice_index self.now.plain.pointers zone }
    {
        self.pointers[zone.0 as usize]
    }
}

impl<D: ZonedDisk> Volume<D> {
    /// The geometry of the disk.
    pub fn geometry(&self) -> &Geometry
        ensures { result.now ≡ self.now.plain.geometry }
    {
        self.state.tables.geometry()
    }

    /// The layout of the volume.
    pub fn layout(&self) -> &Layout
        ensures { result.now ≡ self.now.plain.head.layout }
    {
        &self.state.head.layout
    }

    /// The fields that its super blocks have beside their own number, with the generation of the last
    /// commit that ended.
    pub fn head(&self) -> &Super
        ensures { result.now ≡ self.now.plain.head }
    {
        &self.state.head
    }

    /// The generation of the last commit that ended.
    pub fn generation(&self) -> u64
        ensures { result ≡ self.now.plain.head.generation }
    {
        self.state.head.generation
    }

    /// The map entry of a chunk.
    pub fn entry(&self, chunk: ChunkNo) -> MapEntry
        requires { chunk < self.now.plain.head.layout.chunks }
        ensures { result ≡ entry_of (new_tables (sets_of self.now.plain)) chunk }
    {
        self.state.tables.entry(chunk)
    }

    /// The bitmap of a zone: which of its blocks are valid.
    pub fn bits(&self, zone: ZoneNo) -> &[u8]
        requires { zone < zone_count self.now.plain.geometry }
        ensures value { result.now ≡ bits_in_blocks self.now.plain.geometry self.now.plain.head.layout
            self.now.plain.fresh zone }
        ensures count { self.now.plain.geometry.zone_blocks ≤ 8 * length result.now }
    {
        self.state.tables.bits(zone)
    }

    /// What the zones are used for.
    pub fn alloc(&self) -> &Alloc
        ensures { result.now ≡ self.now.plain.division }
    {
        &self.state.alloc
    }

    /// What each chunk can be picked for, and which chunk of a class was written least recently.
    pub fn candidates(&self) -> &Candidates
        ensures { result.now ≡ self.now.plain.standings }
    {
        &self.state.candidates
    }

    /// How many blocks of the set are dirty. It goes through the flags of all of them.
    pub fn dirty(&self) -> u32
        ensures { result ≡ dirty_from self.now.plain.dirty 1 }
    {
        self.state.count_dirty()
    }

    /// What was answered since opening.
    pub fn history(&self) -> &History
        ensures items { result.now.items ≡ self.now.plain.history }
        ensures room { result.now.room ≡ self.now.spare }
    {
        &self.state.history
    }

    /// How far a commit is.
    pub fn phase(&self) -> Phase
        ensures { result ≡ self.now.plain.phase }
    {
        self.state.phase
    }

    /// Why it goes on no more. None while it goes on.
    pub fn stopped(&self) -> Option<Why>
        ensures { result ≡ self.now.plain.stopped }
    {
        self.state.stopped
    }

    /// The pointer of a zone in blocks, rounded up; of a conventional one any number.
    pub fn pointer(&self, zone: ZoneNo) -> u32
        requires running { self.now.plain.stopped ≡ None }
        requires zone { zone < zone_count self.now.plain.geometry }
        ensures value { result ≡ slice_index self.now.plain.pointers zone }
        ensures disk { self.now.plain.geometry.conv ≤ zone →
            WhereTold (D.view self.now.disk).zones (λ i. result ≡ rounded_up (i.held zone) 8) }
    {
        self.state.pointer(zone)
    }

    /// The job under way.
    pub fn job(&self) -> Option<Job>
        ensures { result ≡ option_map (λ w. w.job) self.now.plain.job }
    {
        Some(self.state.job?.job)
    }

    /// The zone to which that job copies. None exactly where no job is under way or it is an `Empty`.
    pub fn target(&self) -> Option<ZoneNo>
        ensures { result ≡ option_and_then (λ w. w.target) self.now.plain.job }
    {
        self.state.job?.target
    }

    /// How many entries it takes without memory.
    pub fn spare(&self) -> usize
        ensures { result ≡ self.now.spare }
    {
        self.state.history.room()
    }

    /// The blocks of the write buffer, as far as they can be counted.
    pub fn room(&self) -> u32
        ensures { result ≡ min self.now.room (2 ^ 32 - 1) }
    {
        let blocks = self.state.patterns.len() / BLOCK;
        blocks.min(u32::MAX as usize) as u32
    }

    /// The history is legal, and what the volume serves is what the history makes of the sectors that
    /// it served at opening.
    pub fn serves(&self)
        ensures legal { (D.view self.now.disk).calls < 2 ^ 64 - 1 → WhereTold (D.view self.now.disk).zones (λ _.
            IsLegal (base_at (D.view self.now.opening).zones) self.now.plain.history) }
        ensures served { self.now.plain.stopped ≡ None → WhereTold (D.view self.now.disk).zones (λ i.
            served self.now.plain.geometry.zone_blocks (new_tables (sets_of self.now.plain)) i.sector
            ≡ last_array (base_at (D.view self.now.opening).zones) self.now.plain.history) }
    {
        let _state = &self.state;
    }

    /// The history and the disk, as they are.
    pub fn into_parts(self) -> (History, D)
        ensures history { result.0.items ≡ self.plain.history }
        ensures disk { result.1 ≡ self.disk }
    {
        let state = self.state;
        (state.history, self.disk)
    }
}
