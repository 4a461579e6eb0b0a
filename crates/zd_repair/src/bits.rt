//! The bitmaps without what is wrong in them.

ghost use Rattle.std.specs.Prelude.{◌≡◌, ◌≢◌, ◌+◌, ◌<◌, ◌≤◌, ℕ, slice_index, slice_index_or, length};
ghost use Rattle.zd_base.specs.Geometry.{zone_count};
ghost use Rattle.zd_examine.specs.Roles.{AreRoles};
ghost use Rattle.zd_model.specs.Tables.{MapFollowsRules};
ghost use Rattle.zd_tables.specs.Tables.{entries_in, entry_in_blocks};
ghost use Rattle.zd_tables.specs.Held.{SamePlace, tables_held};
ghost use Rattle.zd_repair.specs.Repaired.{IsInRange, IsTwice, IsWrongBy, IsWrongPlace, MakesInvalid, valid_total};

use zd_base::ZoneNo;
use zd_examine::Role;
use zd_tables::VolumeTables;

/// The sectors of a block.
const BLOCK_SECTORS: u32 = 8;

/// Makes the blocks of a zone from block `from` on, below block `end`, invalid. It answers how many were valid.
fn clear_valid(tables: &mut VolumeTables, zone: ZoneNo, from: u32, end: u32) -> u32
    requires zone { zone < zone_count tables.old.geometry }
    requires order { from ≤ end }
    requires inside { end ≤ tables.old.geometry.zone_blocks }
    ensures bits { MakesInvalid (IsInRange zone from end) (tables_held tables.old) (tables_held tables.new) }
    ensures count { valid_total tables.old.geometry (tables_held tables.new) + result
        ≡ valid_total tables.old.geometry (tables_held tables.old) }
    ensures same { SamePlace tables.old tables.new }
{
    let before = tables.weight(zone);
    let _parts = tables.clear_range(zone, from, end - from);
    before - tables.weight(zone)
}

/// Makes the blocks of a zone from block `at` on invalid that are valid in the buffer beside it too, up to the first
/// that isn't like block `at` there. It answers how many blocks that are, and how many were valid.
fn clear_run(tables: &mut VolumeTables, buffer: ZoneNo, main: ZoneNo, at: u32) -> (u32, u32)
    requires buffer { buffer < zone_count tables.old.geometry }
    requires main { main < zone_count tables.old.geometry }
    requires at { at < tables.old.geometry.zone_blocks }
    ensures some { 0 < result.0 }
    ensures inside { at + result.0 ≤ tables.old.geometry.zone_blocks }
    ensures bits { MakesInvalid (IsTwice (tables_held tables.old) buffer main at (at + result.0))
        (tables_held tables.old) (tables_held tables.new) }
    ensures count { valid_total tables.old.geometry (tables_held tables.new) + result.1
        ≡ valid_total tables.old.geometry (tables_held tables.old) }
    ensures same { SamePlace tables.old tables.new }
{
    let end = tables.geometry().zone_blocks();
    let (valid, run) = tables.run_at(buffer, at, end);
    if !valid {
        return (run, 0);
    }
    let cleared = clear_valid(tables, main, at, at + run);
    (run, cleared)
}

/// Makes the blocks of a zone invalid that are valid in the buffer beside it too. It answers how many were valid.
fn clear_twice(tables: &mut VolumeTables, buffer: ZoneNo, main: ZoneNo) -> u64
    requires buffer { buffer < zone_count tables.old.geometry }
    requires main { main < zone_count tables.old.geometry }
    requires apart { main ≢ buffer }
    ensures bits { MakesInvalid (IsTwice (tables_held tables.old) buffer main 0 tables.old.geometry.zone_blocks)
        (tables_held tables.old) (tables_held tables.new) }
    ensures count { valid_total tables.old.geometry (tables_held tables.new) + result
        ≡ valid_total tables.old.geometry (tables_held tables.old) }
    ensures same { SamePlace tables.old tables.new }
{
    let end = tables.geometry().zone_blocks();
    let mut cleared = 0u64;
    let mut at = 0;
    while at < end {
        let (run, more) = clear_run(tables, buffer, main, at);
        at += run;
        cleared += u64::from(more);
    }
    cleared
}

/// Makes the blocks invalid that this zone makes wrong: its own where no chunk names it, those that don't end below
/// the pointer of a sequential zone, in sectors; and where it is a buffer, the blocks of its chunk's zone that are
/// valid in it too. It answers how many were valid.
fn repair_zone(tables: &mut VolumeTables, zone: ZoneNo, role: Role, pointer: u32) -> u64
    requires zone { zone < zone_count tables.old.geometry }
    requires role { (main : ℕ) → role ≡ Role.Buffer main → (main < zone_count tables.old.geometry) × (main ≢ zone) }
    ensures bits { MakesInvalid (IsWrongBy tables.old.geometry (tables_held tables.old) role zone pointer)
        (tables_held tables.old) (tables_held tables.new) }
    ensures count { valid_total tables.old.geometry (tables_held tables.new) + result
        ≡ valid_total tables.old.geometry (tables_held tables.old) }
    ensures same { SamePlace tables.old tables.new }
{
    let zone_blocks = tables.geometry().zone_blocks();
    let conv = tables.geometry().conv();
    match role {
        Role::Unnamed => u64::from(clear_valid(tables, zone, 0, zone_blocks)),
        Role::Main if zone.0 < conv => 0,
        Role::Main => {
            let whole = (pointer / BLOCK_SECTORS).min(zone_blocks);
            u64::from(clear_valid(tables, zone, whole, zone_blocks))
        }
        Role::Buffer(main) => clear_twice(tables, zone, main),
    }
}

/// Makes all blocks invalid that are valid against a rule, where the map has zones do this and their pointers, in
/// sectors, are these. It answers how many there were.
pub fn repair_bits(tables: &mut VolumeTables, roles: &[Role], pointers: &[u32]) -> u64
    requires map { MapFollowsRules tables.old.geometry tables.old.layout
        (entries_in tables.old.layout tables.old.bytes) }
    requires roles { AreRoles tables.old.geometry (entry_in_blocks tables.old.bytes)
        tables.old.layout.chunks roles.now }
    requires pointers { length pointers.now ≡ zone_count tables.old.geometry }
    ensures bits { MakesInvalid (IsWrongPlace tables.old.geometry (tables_held tables.old) roles.now
        (slice_index pointers.now) (zone_count tables.old.geometry))
        (tables_held tables.old) (tables_held tables.new) }
    ensures count { valid_total tables.old.geometry (tables_held tables.new) + result
        ≡ valid_total tables.old.geometry (tables_held tables.old) }
    ensures same { SamePlace tables.old tables.new }
{
    let zones = tables.geometry().zones();
    let mut cleared = 0u64;
    for zone in 0..zones {
        let i = zone as usize;
        cleared += repair_zone(tables, ZoneNo(zone), roles[i], pointers[i]);
    }
    cleared
}
