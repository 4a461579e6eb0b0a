//! The tables of a volume: all that callers need to know of how they are held.

ghost use Rattle.std.specs.Prelude.{◌≡◌, ℕ, ◌+◌, ◌*◌, ◌<◌, ◌≤◌, length, true, false};
ghost use Rattle.std.specs.Prelude.{Some, IfOk, option_map};
ghost use Rattle.zd_base.specs.Geometry.{IsShape, per, zone_count};
ghost use Rattle.zd_base.specs.Layout.{Fits, used_blocks};
ghost use Rattle.zd_bits.specs.Bits.{IsBitRun};
ghost use Rattle.zd_map.specs.Numbers.{NamesZones};
ghost use Rattle.zd_model.specs.Tables.{entry_of, is_valid};
ghost use Rattle.zd_sets.specs.Blocks.{blocks_of};
ghost use Rattle.zd_tables.specs.Tables.{bits_in_blocks};
ghost use Rattle.zd_tables.specs.Held.{tables_held, valid_count, first_valid_block, SamePlace};
ghost use Rattle.zd_tables.specs.Changes.{SetsEntry, SetsBits, ChangesEntry, ChangesBits};
ghost use Rattle.zd_tables.specs.Changes.{TellsParts, SetsPart};
ghost use Rattle.zd_tables.specs.Counts.{CountsValid, part_blocks};

use crate::part::{BITS, ChangedParts, NOTHING, PartCount, count_parts, give_bits};
use crate::tables;
use std::alloc::Global;
use std::marker::Model;
use zd_base::{ChunkNo, Geometry, Layout, Memory, ZoneNo};
use zd_map::{MapEntry, set};
use zd_sets::SetBlocks;

/// The entries of a map block.
const ENTRIES: u32 = 512;

/// The map and the bitmaps of a volume, in the used blocks of a set.
///
/// Beside each bitmap block stands how many of its bits are set, and the first of them, so that the
/// weight of a zone and its first valid block cost nothing. Contracts see the bytes of all blocks,
/// and the geometry and the layout by which they are tables. No call but `new` takes memory.
#[derive(Drop)]
pub struct VolumeTables {
    geometry: Geometry,
    layout: Layout,
    blocks: SetBlocks,
    counts: Vec<PartCount>,
}

impl Model for VolumeTables {
    ghost use Rattle.zd_tables.specs.Held.{HeldTables};
    ghost use Rattle.zd_tables.specs.Counts.{AreHeld};

    ghost Value = { HeldTables };

    ghost view = { λ t. record { geometry = t.geometry; layout = t.layout; bytes = t.blocks } };

    ghost invariant = { λ t. AreHeld t.geometry t.layout t.blocks t.counts.items };
}

impl VolumeTables {
    /// The tables in these blocks. Each bitmap block is counted once, in one pass. `Memory` where
    /// there is no room for the counts.
    pub fn new(
        alloc: Global,
        geometry: Geometry,
        layout: Layout,
        blocks: SetBlocks,
    ) -> Result<VolumeTables, Memory>
        requires fits { Fits geometry layout }
        requires size { length blocks ≡ 4096 * used_blocks geometry layout }
        ensures { IfOk result (λ t.
            t ≡ record { geometry = geometry; layout = layout; bytes = blocks }) }
    {
        let bits = geometry.zone_blocks().min(BITS);
        let last = layout.used_blocks(&geometry);
        let Ok(counts) = count_parts(alloc, &blocks, 1 + layout.map_blocks, last, bits) else {
            return Err(Memory);
        };
        Ok(VolumeTables {
            geometry,
            layout,
            blocks,
            counts,
        })
    }

    /// The geometry of the disk.
    pub fn geometry(&self) -> &Geometry
        ensures { result.now ≡ self.now.geometry }
    {
        &self.geometry
    }

    /// The layout of the volume.
    pub fn layout(&self) -> &Layout
        ensures value { result.now ≡ self.now.layout }
        ensures fits { Fits self.now.geometry self.now.layout }
    {
        &self.layout
    }

    /// The used blocks of a set, with these tables in them.
    pub fn blocks(&self) -> &SetBlocks
        ensures value { result.now ≡ self.now.bytes }
        ensures size { length result.now ≡ 4096 * used_blocks self.now.geometry self.now.layout }
    {
        &self.blocks
    }

    /// Block `i` of the set, counted from the super block.
    pub fn block(&self, i: u32) -> &[u8]
        requires { i < used_blocks self.now.geometry self.now.layout }
        ensures { result.now ≡ blocks_of self.now.bytes i 1 }
    {
        self.blocks.block(i)
    }

    /// The blocks of the set.
    pub fn into_blocks(self) -> SetBlocks
        ensures { result ≡ self.bytes }
    {
        self.blocks
    }

    /// The map entry of a chunk.
    pub fn entry(&self, chunk: ChunkNo) -> MapEntry
        requires { chunk < self.now.layout.chunks }
        ensures { result ≡ entry_of (tables_held self.now) chunk }
    {
        tables::entry(&self.blocks, chunk.0)
    }

    /// The bitmap of a zone: which of its blocks are valid.
    pub fn bits(&self, zone: ZoneNo) -> &[u8]
        requires { zone < zone_count self.now.geometry }
        ensures value { result.now ≡ bits_in_blocks self.now.geometry self.now.layout self.now.bytes zone }
        ensures count { self.now.geometry.zone_blocks ≤ 8 * length result.now }
    {
        tables::bits(&self.blocks, &self.geometry, &self.layout, zone)
    }

    /// Whether a block of a zone is valid.
    pub fn valid(&self, zone: ZoneNo, block: u32) -> bool
        requires zone { zone < zone_count self.now.geometry }
        requires block { block < self.now.geometry.zone_blocks }
        ensures { result ≡ is_valid (tables_held self.now) zone block }
    {
        zd_bits::valid(self.bits(zone), block)
    }

    /// Whether block `from` of a zone is valid, and how many blocks from there on, below `end`, are
    /// like it up to the first that isn't.
    pub fn run_at(&self, zone: ZoneNo, from: u32, end: u32) -> (bool, u32)
        requires zone { zone < zone_count self.now.geometry }
        requires some { from < end }
        requires inside { end ≤ self.now.geometry.zone_blocks }
        ensures { IsBitRun (bits_in_blocks self.now.geometry self.now.layout self.now.bytes zone)
            from end result.0 result.1 }
    {
        zd_bits::run_at(self.bits(zone), from, end)
    }

    /// How many blocks of a zone are valid. Nothing is counted.
    pub fn weight(&self, zone: ZoneNo) -> u32
        requires { zone < zone_count self.now.geometry }
        ensures { result ≡ valid_count self.now.geometry.zone_blocks (tables_held self.now) zone }
    {
        let (first, second) = self.counts_of(zone);
        first.weight + second.weight
    }

    /// The first valid block of a zone. None exactly where it has none. Nothing is searched.
    pub fn first_valid(&self, zone: ZoneNo) -> Option<u32>
        requires { zone < zone_count self.now.geometry }
        ensures { result ≡ first_valid_block self.now.geometry.zone_blocks (tables_held self.now) zone }
    {
        let (first, second) = self.counts_of(zone);
        match first.first {
            Some(block) => Some(block),
            None => after_first(second.first),
        }
    }

    /// Gives a chunk another entry. Its zones are below 0xFFFFFFFF.
    pub fn set_entry(&mut self, chunk: ChunkNo, entry: MapEntry)
        requires chunk { chunk < self.old.layout.chunks }
        requires zones { NamesZones entry }
        ensures blocks { SetsEntry chunk entry self.old.bytes self.new.bytes }
        ensures tables { ChangesEntry chunk entry (tables_held self.old) (tables_held self.new) }
        ensures same { SamePlace self.old self.new }
    {
        let block = self.blocks.block_mut(1 + chunk.0 / ENTRIES);
        set(block, (chunk.0 % ENTRIES) as usize, entry);
    }

    /// Makes `count` blocks of a zone, from block `from` on, valid. The answer says which parts of
    /// its bitmap had a bit that wasn't set. The work is in proportion to the range.
    pub fn set_range(&mut self, zone: ZoneNo, from: u32, count: u32) -> ChangedParts
        requires zone { zone < zone_count self.old.geometry }
        requires inside { from + count ≤ self.old.geometry.zone_blocks }
        ensures blocks { SetsBits true self.old.geometry self.old.layout zone from (from + count)
            self.old.bytes self.new.bytes }
        ensures tables { ChangesBits true zone from (from + count)
            (tables_held self.old) (tables_held self.new) }
        ensures parts { TellsParts true self.old.geometry self.old.layout zone from (from + count)
            self.old.bytes self.new.bytes result }
        ensures same { SamePlace self.old self.new }
    {
        self.give_range(zone, from, count, true)
    }

    /// Makes `count` blocks of a zone, from block `from` on, invalid. The answer says which parts of
    /// its bitmap had a bit that was set. The work is in proportion to the range; where the first
    /// valid block is made invalid, the next is looked for from the range's end on.
    pub fn clear_range(&mut self, zone: ZoneNo, from: u32, count: u32) -> ChangedParts
        requires zone { zone < zone_count self.old.geometry }
        requires inside { from + count ≤ self.old.geometry.zone_blocks }
        ensures blocks { SetsBits false self.old.geometry self.old.layout zone from (from + count)
            self.old.bytes self.new.bytes }
        ensures tables { ChangesBits false zone from (from + count)
            (tables_held self.old) (tables_held self.new) }
        ensures parts { TellsParts false self.old.geometry self.old.layout zone from (from + count)
            self.old.bytes self.new.bytes result }
        ensures same { SamePlace self.old self.new }
    {
        self.give_range(zone, from, count, false)
    }

    /// Gives `count` blocks of a zone, from block `from` on, this bit.
    fn give_range(&mut self, zone: ZoneNo, from: u32, count: u32, bit: bool) -> ChangedParts
        requires zone { zone < zone_count self.old.geometry }
        requires inside { from + count ≤ self.old.geometry.zone_blocks }
        ensures blocks { SetsBits bit self.old.geometry self.old.layout zone from (from + count)
            self.old.bytes self.new.bytes }
        ensures tables { ChangesBits bit zone from (from + count)
            (tables_held self.old) (tables_held self.new) }
        ensures parts { TellsParts bit self.old.geometry self.old.layout zone from (from + count)
            self.old.bytes self.new.bytes result }
        ensures same { SamePlace self.old self.new }
    {
        let part = self.part(zone);
        let to = from + count;
        let first = self.give_part(part, from.min(BITS), to.min(BITS), bit);
        let second = self.give_part(part + 1, from.max(BITS) - BITS, to.max(BITS) - BITS, bit);
        ChangedParts { first, second }
    }

    /// Gives the bits of a bitmap block from `from` on, below `to`, this value. Where there are none,
    /// there need be no such block.
    fn give_part(&mut self, part: u32, from: u32, to: u32, bit: bool) -> bool
        requires order { from ≤ to }
        requires inside { from < to → to ≤ part_blocks self.old.geometry }
        requires part { from < to → part < zone_count self.old.geometry * per self.old.geometry }
        ensures blocks { SetsPart bit (1 + self.old.layout.map_blocks + part) from to
            self.old.bytes self.new.bytes result }
        ensures same { SamePlace self.old self.new }
    {
        if from == to {
            return false;
        }
        let end = self.geometry.zone_blocks().min(BITS);
        let mut count = self.counts[part as usize];
        let bits = self.blocks.block_mut(1 + self.layout.map_blocks + part);
        let changed = give_bits(bits, &mut count, from, to, end, bit);
        self.counts[part as usize] = count;
        changed
    }

    /// What is counted of both parts of a zone's bitmap: nothing, where there is no second.
    fn counts_of(&self, zone: ZoneNo) -> (PartCount, PartCount)
        requires { zone < zone_count self.now.geometry }
        ensures first { CountsValid (tables_held self.now) zone 0
            (part_blocks self.now.geometry) result.0 }
        ensures second { CountsValid (tables_held self.now) zone 32768
            self.now.geometry.zone_blocks result.1 }
        ensures shape { IsShape self.now.geometry }
    {
        let part = self.part(zone) as usize;
        if self.geometry.per() == 1 {
            (self.counts[part], NOTHING)
        } else {
            (self.counts[part], self.counts[part + 1])
        }
    }

    /// The place of the first bitmap block of a zone among all bitmap blocks.
    fn part(&self, zone: ZoneNo) -> u32
        requires { zone < zone_count self.now.geometry }
        ensures value { result ≡ zone * per self.now.geometry }
        ensures few { result < 131072 }
        ensures shape { IsShape self.now.geometry }
        ensures fits { Fits self.now.geometry self.now.layout }
    {
        zone.0 * self.geometry.per()
    }
}

/// The block of a zone that has this place behind the first part's blocks.
fn after_first(place: Option<u32>) -> Option<u32>
    requires { (n : ℕ) → place ≡ Some n → n < 32768 }
    ensures { result ≡ option_map (λ n. 32768 + n) place }
{
    Some(BITS + place?)
}
