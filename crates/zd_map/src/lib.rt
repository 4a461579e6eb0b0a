//! Map blocks: which zones each chunk of a volume has.
//!
//! A map block is a block of 4096 bytes with 512 entries of 8 bytes. An entry is two numbers of four
//! bytes, little-endian: the chunk's zone, then its buffer zone. 0xFFFFFFFF is none. Every block of
//! 4096 bytes is a map block.
//!
//! # What is proved
//!
//! `get` is `entry_at`; `set` changes this entry and no other; `blank` gives a block that names
//! no zone.
#![tactic(auto)]

ghost use Rattle.std.specs.Prelude.{◌≡◌, ◌≢◌, ◌⊎◌, ◌+◌, ◌≤◌, ◌<◌, ℕ, length};
ghost use Rattle.std.specs.Int.{w32, to_le_bytes};
ghost use Rattle.zd_map.specs.Numbers.{IsZoneField, NamesZones, number_of, unmapped};
ghost use Rattle.zd_model.specs.Bytes.{overwrite, u32_at};
ghost use Rattle.zd_model.specs.Tables.{entry_at, named};

use byteorder::{ByteOrder, LittleEndian};
use zd_base::BLOCK;
pub use zd_base::ZoneNo;
pub use zd_model::MapEntry;

/// The bytes of an entry.
const ENTRY: usize = 8;

/// The number that stands for no zone.
const NONE: u32 = 0xFFFF_FFFF;

/// Entry `i` of a map block: the zones of the chunk whose place in the block is `i`.
pub fn get(block: &[u8], i: usize) -> MapEntry
    requires size { length block.now ≡ 4096 }
    requires entry { i < 512 }
    ensures { result ≡ entry_at block.now i }
{
    MapEntry {
        zone: zone_at(block, ENTRY * i),
        buffer: zone_at(block, ENTRY * i + 4),
    }
}

/// Makes entry `i` of a map block this one. Zone numbers are below 0xFFFFFFFF; all other entries stay.
pub fn set(block: &mut [u8], i: usize, entry: MapEntry)
    requires size { length block.old ≡ 4096 }
    requires entry { i < 512 }
    requires zones { NamesZones entry }
    ensures entry { entry_at block.new i ≡ entry }
    ensures others { (j : ℕ) → j ≢ i → entry_at block.new j ≡ entry_at block.old j }
    ensures size { length block.new ≡ 4096 }
{
    put_zone(block, ENTRY * i, entry.zone);
    put_zone(block, ENTRY * i + 4, entry.buffer);
}

/// Makes `out`, of 4096 bytes, a map block whose chunks have no zones.
pub fn blank(out: &mut [u8])
    requires size { length out.old ≡ 4096 }
    ensures entries { (i : ℕ) → i < 512 → entry_at out.new i ≡ unmapped }
    ensures size { length out.new ≡ 4096 }
{
    out.copy_from_slice(&[0xFF; BLOCK]);
}

/// Writes the number of a zone from byte `at` on.
fn put_zone(block: &mut [u8], at: usize, zone: Option<ZoneNo>)
    requires inside { at + 4 ≤ length block.old }
    requires zone { IsZoneField zone }
    ensures zone { named (u32_at block.new at) ≡ zone }
    ensures others { (k : ℕ) → (k + 4 ≤ at) ⊎ (at + 4 ≤ k) → u32_at block.new k ≡ u32_at block.old k }
    ensures length { length block.new ≡ length block.old }
{
    put_number(block, at, number_of(zone));
}

/// The number that stands for a zone, or for none.
fn number_of(zone: Option<ZoneNo>) -> u32
    ensures { result ≡ number_of zone }
{
    match zone {
        Some(zone) => zone.0,
        None => NONE,
    }
}

/// Writes a number from byte `at` on.
fn put_number(block: &mut [u8], at: usize, number: u32)
    requires inside { at + 4 ≤ length block.old }
    ensures { block.new ≡ overwrite block.old at (to_le_bytes w32 number) }
{
    block[at..at + 4].copy_from_slice(&number.to_le_bytes());
}

/// The zone whose number stands at byte `at`.
#[tactic(auto, unfolding(zd_model::specs::Bytes::u32_at))]
fn zone_at(block: &[u8], at: usize) -> Option<ZoneNo>
    requires { at + 4 ≤ length block.now }
    ensures { result ≡ named (u32_at block.now at) }
{
    let number = LittleEndian::read_u32(&block[at..at + 4]);
    if number == NONE {
        None
    } else {
        Some(ZoneNo(number))
    }
}

#[cfg(test)]
mod tests {
    use super::*;

    const UNMAPPED: MapEntry = MapEntry {
        zone: None,
        buffer: None,
    };

    const MAPPED: MapEntry = MapEntry {
        zone: Some(ZoneNo(6)),
        buffer: None,
    };

    const BUFFERED: MapEntry = MapEntry {
        zone: Some(ZoneNo(6)),
        buffer: Some(ZoneNo(4)),
    };

    /// A map block whose chunk 1 has zone 6, and chunk 511 zone 6 and buffer 4.
    fn map_block() -> [u8; 4096] {
        let mut block = [0xFF; 4096];
        block[8..16].copy_from_slice(&[6, 0, 0, 0, 0xFF, 0xFF, 0xFF, 0xFF]);
        block[4088..4096].copy_from_slice(&[6, 0, 0, 0, 4, 0, 0, 0]);
        block
    }

    #[test]
    fn sets_entries_and_leaves_the_others(rt: HostRuntime) {
        let mut block = [0; 4096];
        blank(&mut block);
        set(&mut block, 1, MAPPED);
        set(&mut block, 511, BUFFERED);
        assert_eq!(rt; block, map_block());
        set(&mut block, 511, UNMAPPED);
        set(&mut block, 1, UNMAPPED);
        assert_eq!(rt; block, [0xFF; 4096]);
    }

    #[test]
    fn reads_unmapped_mapped_and_buffered_entries(rt: HostRuntime) {
        let block = map_block();
        assert_eq!(rt; get(&block, 0), UNMAPPED);
        assert_eq!(rt; get(&block, 1), MAPPED);
        assert_eq!(rt; get(&block, 511), BUFFERED);
    }
}
