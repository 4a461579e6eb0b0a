//! The map without what is wrong in it.

ghost use Rattle.std.specs.Prelude.{◌≡◌, ◌≢◌, ◌+◌, ◌<◌, ℕ, List, not, replicate, if◌then◌else◌, None, Some};
ghost use Rattle.zd_base.specs.Geometry.{zone_count};
ghost use Rattle.zd_base.specs.Layout.{Fits};
ghost use Rattle.zd_examine.specs.Roles.{AreNamed, AreRoles};
ghost use Rattle.zd_examine.specs.declared.roles.Role.TheVariants.{Unnamed};
ghost use Rattle.zd_model.specs.Faults.{is_right_entry};
ghost use Rattle.zd_model.specs.Tables.{is_valid};
ghost use Rattle.zd_tables.specs.Held.{SamePlace, tables_held};
ghost use Rattle.zd_tables.specs.Tables.{entry_in_blocks};
ghost use Rattle.zd_repair.specs.Repaired.{IsMapLeft, left_of, named_before, wrong_entries};

use zd_base::{ChunkNo, Geometry, Layout};
use zd_examine::{Role, give_roles, is_new, is_right_buffer};
use zd_map::MapEntry;
use zd_tables::VolumeTables;

/// What is left of an entry that breaks a rule beside the earlier ones: nothing where its zone does, the zone alone
/// where its buffer does. None where the entry breaks none.
fn corrected(
    geometry: &Geometry,
    layout: &Layout,
    roles: &[Role],
    entry: &MapEntry,
) -> Option<MapEntry>
    requires fits { Fits geometry.now layout.now }
    ensures { (earlier : List ℕ) → AreNamed geometry.now earlier roles.now →
        result ≡ (if is_right_entry geometry.now layout.now earlier entry.now then None
        else Some (left_of geometry.now layout.now earlier entry.now)) }
{
    if !is_new(geometry, layout, roles, entry.zone) {
        return Some(MapEntry {
            zone: None,
            buffer: None,
        });
    }
    let is_buffer_new = is_new(geometry, layout, roles, entry.buffer);
    if is_buffer_new & is_right_buffer(geometry, entry) {
        return None;
    }
    Some(MapEntry {
        zone: entry.zone,
        buffer: None,
    })
}

/// Drops what is wrong in the entry of a chunk beside the earlier ones, by what these have zones do. The answer says
/// whether something was wrong.
fn drop_wrong(tables: &mut VolumeTables, roles: &[Role], chunk: ChunkNo) -> bool
    requires chunk { chunk < tables.old.layout.chunks }
    requires roles { AreNamed tables.old.geometry (named_before (entry_in_blocks tables.old.bytes) chunk) roles.now }
    ensures here { entry_in_blocks tables.new.bytes chunk ≡ left_of tables.old.geometry tables.old.layout
        (named_before (entry_in_blocks tables.old.bytes) chunk) (entry_in_blocks tables.old.bytes chunk) }
    ensures others { (c : ℕ) → c ≢ chunk →
        entry_in_blocks tables.new.bytes c ≡ entry_in_blocks tables.old.bytes c }
    ensures tells { result ≡ not (is_right_entry tables.old.geometry tables.old.layout
        (named_before (entry_in_blocks tables.old.bytes) chunk) (entry_in_blocks tables.old.bytes chunk)) }
    ensures bits { (z x : ℕ) → is_valid (tables_held tables.new) z x ≡ is_valid (tables_held tables.old) z x }
    ensures same { SamePlace tables.old tables.new }
{
    let geometry = *tables.geometry();
    let layout = *tables.layout();
    let _zone_blocks = geometry.zone_blocks();
    let entry = tables.entry(chunk);
    match corrected(&geometry, &layout, roles, &entry) {
        None => false,
        Some(left) => {
            tables.set_entry(chunk, left);
            true
        }
    }
}

/// Drops what is wrong in the entry of a chunk beside the earlier ones, and gives the zones that it then names their
/// roles. The answer says whether something was wrong.
fn repair_entry(tables: &mut VolumeTables, roles: &mut [Role], chunk: ChunkNo) -> bool
    requires chunk { chunk < tables.old.layout.chunks }
    requires roles { AreRoles tables.old.geometry (entry_in_blocks tables.old.bytes) chunk roles.old }
    ensures here { entry_in_blocks tables.new.bytes chunk ≡ left_of tables.old.geometry tables.old.layout
        (named_before (entry_in_blocks tables.old.bytes) chunk) (entry_in_blocks tables.old.bytes chunk) }
    ensures others { (c : ℕ) → c ≢ chunk →
        entry_in_blocks tables.new.bytes c ≡ entry_in_blocks tables.old.bytes c }
    ensures tells { result ≡ not (is_right_entry tables.old.geometry tables.old.layout
        (named_before (entry_in_blocks tables.old.bytes) chunk) (entry_in_blocks tables.old.bytes chunk)) }
    ensures roles { AreRoles tables.old.geometry (entry_in_blocks tables.new.bytes) (chunk + 1) roles.new }
    ensures bits { (z x : ℕ) → is_valid (tables_held tables.new) z x ≡ is_valid (tables_held tables.old) z x }
    ensures same { SamePlace tables.old tables.new }
{
    let was_wrong = drop_wrong(tables, roles, chunk);
    let entry = tables.entry(chunk);
    give_roles(roles, &entry);
    was_wrong
}

/// Drops what is wrong in the map: the whole entry of a chunk whose zone is no data zone or is named by an earlier
/// chunk, and a buffer that is no data zone, or named already, or not conventional, or that doesn't stand beside a
/// sequential zone. It answers how many entries had something wrong; `roles` then has what the map has zones do.
pub fn repair_map(tables: &mut VolumeTables, roles: &mut [Role]) -> u32
    requires unnamed { roles.old ≡ replicate (zone_count tables.old.geometry) Unnamed }
    ensures map { IsMapLeft tables.old.geometry tables.old.layout (entry_in_blocks tables.old.bytes)
        (entry_in_blocks tables.new.bytes) tables.old.layout.chunks }
    ensures count { result ≡ wrong_entries tables.old.geometry tables.old.layout
        (entry_in_blocks tables.old.bytes) (entry_in_blocks tables.new.bytes) tables.old.layout.chunks }
    ensures roles { AreRoles tables.old.geometry (entry_in_blocks tables.new.bytes)
        tables.old.layout.chunks roles.new }
    ensures bits { (z x : ℕ) → is_valid (tables_held tables.new) z x ≡ is_valid (tables_held tables.old) z x }
    ensures same { SamePlace tables.old tables.new }
{
    let chunks = tables.layout().chunks;
    let mut wrong = 0;
    for chunk in 0..chunks {
        wrong += u32::from(repair_entry(tables, roles, ChunkNo(chunk)));
    }
    wrong
}
