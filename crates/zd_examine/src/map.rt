//! The rules of the map.

ghost use Rattle.std.specs.Prelude.{◌≡◌, ◌*◌, ◌<◌, ◌≤◌, [], ℕ, List, length, replicate, true, None, IfNone, IfSome, IsSome};
ghost use Rattle.std.specs.Option.{option_map_or};
ghost use Rattle.zd_base.specs.Geometry.{zone_count};
ghost use Rattle.zd_base.specs.Layout.{Fits, first_data_zone, used_blocks};
ghost use Rattle.zd_model.specs.Faults.{bad_chunk, is_new_zone, is_right_entry, is_right_buffer};
ghost use Rattle.zd_model.specs.declared.metadata.MapEntry.{MapEntry as Entry};
ghost use Rattle.zd_tables.specs.Tables.{entries_in, entry_in_blocks};
ghost use Rattle.zd_examine.specs.Roles.{AreNamed, AreRoles, roles_with};
ghost use Rattle.zd_examine.specs.declared.roles.Role.TheVariants.{Unnamed};

use crate::roles::Role;
use zd_base::{ChunkNo, Geometry, Layout, ZoneNo};
use zd_map::MapEntry;
use zd_sets::SetBlocks;
use zd_tables::entry;

/// Whether a zone, where there is one, is a data zone that no earlier chunk names.
pub fn is_new(geometry: &Geometry, layout: &Layout, roles: &[Role], zone: Option<ZoneNo>) -> bool
    requires fits { Fits geometry.now layout.now }
    ensures { (earlier : List ℕ) → AreNamed geometry.now earlier roles.now →
        result ≡ option_map_or (is_new_zone geometry.now layout.now earlier) zone true }
{
    let _conv = geometry.conv();
    let first = 2 * layout.set_zones(geometry);
    match zone {
        None => true,
        Some(zone) => {
            first <= zone.0 && matches!(roles.get(zone.0 as usize), Some(Role::Unnamed))
        }
    }
}

/// Whether a buffer is conventional and stands beside a sequential zone, where there is one.
pub fn is_right_buffer(geometry: &Geometry, entry: &MapEntry) -> bool
    ensures { result ≡ option_map_or (is_right_buffer geometry.now entry.now.zone) entry.now.buffer true }
{
    let conv = geometry.conv();
    match (entry.zone, entry.buffer) {
        (_, None) => true,
        (None, Some(_)) => false,
        (Some(zone), Some(buffer)) => buffer.0 < conv && zone.0 >= conv,
    }
}

/// Whether an entry follows the rules beside the earlier ones.
fn is_right(geometry: &Geometry, layout: &Layout, roles: &[Role], entry: &MapEntry) -> bool
    requires fits { Fits geometry.now layout.now }
    ensures { (earlier : List ℕ) → AreNamed geometry.now earlier roles.now →
        result ≡ is_right_entry geometry.now layout.now earlier entry.now }
{
    let is_zone_new = is_new(geometry, layout, roles, entry.zone);
    let is_buffer_new = is_new(geometry, layout, roles, entry.buffer);
    is_zone_new & is_buffer_new & is_right_buffer(geometry, entry)
}

/// Gives the zones of an entry their roles.
pub fn give_roles(roles: &mut [Role], entry: &MapEntry)
    requires zone { IfSome entry.now.zone (λ z. z < length roles.old) }
    requires buffer { IfSome entry.now.buffer (λ b. (b < length roles.old) × IsSome entry.now.zone) }
    ensures { roles.new ≡ roles_with entry.now.zone entry.now.buffer roles.old }
{
    let Some(zone) = entry.zone else {
        return;
    };
    roles[zone.0 as usize] = Role::Main;
    if let Some(buffer) = entry.buffer {
        roles[buffer.0 as usize] = Role::Buffer(zone);
    }
}

/// The first chunk whose entry breaks a rule of the map: it names a zone that is no data zone or that an
/// earlier chunk names, or a buffer that isn't conventional or doesn't stand beside a sequential zone.
/// Where there is none, `roles` then has what the map has each zone do.
pub fn first_bad_chunk(
    geometry: &Geometry,
    layout: &Layout,
    blocks: &SetBlocks,
    roles: &mut [Role],
) -> Option<ChunkNo>
    requires fits { Fits geometry.now layout.now }
    requires size { length blocks.now ≡ 4096 * used_blocks geometry.now layout.now }
    requires unnamed { roles.old ≡ replicate (zone_count geometry.now) Unnamed }
    ensures value { result ≡ bad_chunk geometry.now layout.now [] 0 (entries_in layout.now blocks.now) }
    ensures roles { IfNone result (AreRoles geometry.now (entry_in_blocks blocks.now) layout.now.chunks roles.new) }
{
    for chunk in 0..layout.chunks {
        let entry = entry(blocks, chunk);
        if !is_right(geometry, layout, roles, &entry) {
            return Some(ChunkNo(chunk));
        }
        give_roles(roles, &entry);
    }
    None
}
