//! The rules of the bitmaps.

ghost use Rattle.std.specs.Prelude.{◌≡◌, ◌+◌, ◌*◌, ◌<◌, ◌≤◌, [], ℕ, length, None, find, slice_index, slice_get, Some};
ghost use Rattle.std.specs.List.{range_with_len};
ghost use Rattle.zd_base.specs.Geometry.{zone_count, zone_sectors};
ghost use Rattle.zd_base.specs.Layout.{Fits, used_blocks};
ghost use Rattle.zd_model.specs.Faults.{bad_bit};
ghost use Rattle.zd_model.specs.Tables.{MapFollowsRules};
ghost use Rattle.zd_examine.specs.Bits.{bad_block, in_both};
ghost use Rattle.zd_examine.specs.Roles.{AreRoles, IsRole};
ghost use Rattle.zd_tables.specs.Tables.{entries_in, entry_in_blocks, tables_in};

use crate::roles::Role;
use zd_base::{Geometry, Layout, ZoneNo};
use zd_bits::{first_valid, valid};
use zd_sets::SetBlocks;
use zd_tables::bits;

/// The first block below `end` that is valid in both bitmaps.
fn first_in_both(bits: &[u8], others: &[u8], end: u32) -> Option<u32>
    requires bits { end ≤ 8 * length bits.now }
    requires others { end ≤ 8 * length others.now }
    ensures { result ≡ find (in_both bits.now others.now) (range_with_len 0 end) }
{
    let mut at = 0;
    while let Some(block) = first_valid(bits, at, end) {
        if valid(others, block) {
            return Some(block);
        }
        at = block + 1;
    }
    None
}

/// The first block of a zone whose bit is set against a rule, where the map has the zone do this and its
/// pointer, in sectors, is this.
fn first_bad_block(
    geometry: &Geometry,
    layout: &Layout,
    blocks: &SetBlocks,
    zone: ZoneNo,
    role: Role,
    pointer: u32,
) -> Option<u32>
    requires fits { Fits geometry.now layout.now }
    requires size { length blocks.now ≡ 4096 * used_blocks geometry.now layout.now }
    requires zone { zone < zone_count geometry.now }
    requires map { MapFollowsRules geometry.now layout.now (entries_in layout.now blocks.now) }
    requires role { IsRole geometry.now (entry_in_blocks blocks.now) layout.now.chunks zone role }
    ensures { (pointers : ℕ → ℕ) → pointers zone ≡ pointer →
        result ≡ bad_block geometry.now pointers (tables_in geometry.now layout.now blocks.now) zone }
{
    let zone_blocks = geometry.zone_blocks();
    let valid = bits(blocks, geometry, layout, zone);
    match role {
        Role::Unnamed => first_valid(valid, 0, zone_blocks),
        Role::Main if zone.0 < geometry.conv() => None,
        Role::Main => first_valid(valid, (pointer / 8).min(zone_blocks), zone_blocks),
        Role::Buffer(main) => {
            let in_main = bits(blocks, geometry, layout, main);
            first_in_both(valid, in_main, zone_blocks)
        }
    }
}

/// The first zone, and in it the first block, whose bit is set against a rule: the zone is named by no
/// chunk; or it is sequential, and the block doesn't end below its pointer; or it is a buffer, and the
/// block is valid in its chunk's zone too. Pointers are in sectors, one a zone.
pub fn first_bad_bit(
    geometry: &Geometry,
    layout: &Layout,
    blocks: &SetBlocks,
    roles: &[Role],
    pointers: &[u32],
) -> Option<(ZoneNo, u32)>
    requires fits { Fits geometry.now layout.now }
    requires size { length blocks.now ≡ 4096 * used_blocks geometry.now layout.now }
    requires map { MapFollowsRules geometry.now layout.now (entries_in layout.now blocks.now) }
    requires roles { AreRoles geometry.now (entry_in_blocks blocks.now) layout.now.chunks roles.now }
    requires pointers { length pointers.now ≡ zone_count geometry.now }
    ensures { result ≡ bad_bit geometry.now (slice_index pointers.now)
        (tables_in geometry.now layout.now blocks.now) }
{
    for zone in 0..geometry.zones() {
        let i = zone as usize;
        let bad = first_bad_block(
            geometry,
            layout,
            blocks,
            ZoneNo(zone),
            roles[i],
            pointers[i],
        );
        if let Some(block) = bad {
            return Some((ZoneNo(zone), block));
        }
    }
    None
}
