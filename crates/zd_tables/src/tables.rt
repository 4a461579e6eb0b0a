//! The map and the bitmaps in the blocks of a set.

ghost use Rattle.std.specs.Prelude.{◌≡◌, ◌+◌, ◌*◌, ◌/◌, ◌<◌, ◌≤◌, length};
ghost use Rattle.zd_base.specs.Geometry.{zone_count};
ghost use Rattle.zd_base.specs.Layout.{Fits, used_blocks};
ghost use Rattle.zd_tables.specs.Tables.{entry_in_blocks, bits_in_blocks};

use zd_base::{Geometry, Layout, ZoneNo};
use zd_map::{MapEntry, get};
use zd_sets::SetBlocks;

/// The map entries of a block.
const ENTRIES: u32 = 512;

/// The map entry of a chunk.
pub fn entry(blocks: &SetBlocks, chunk: u32) -> MapEntry
    requires inside { 4096 * (2 + chunk / 512) ≤ length blocks.now }
    ensures { result ≡ entry_in_blocks blocks.now chunk }
{
    get(
        blocks.block(1 + chunk / ENTRIES),
        (chunk % ENTRIES) as usize,
    )
}

/// The bitmap of a zone: which of its blocks are valid.
pub fn bits<'a>(
    blocks: &'a SetBlocks,
    geometry: &Geometry,
    layout: &Layout,
    zone: ZoneNo,
) -> &'a [u8]
    requires fits { Fits geometry.now layout.now }
    requires size { length blocks.now ≡ 4096 * used_blocks geometry.now layout.now }
    requires zone { zone < zone_count geometry.now }
    ensures value { result.now ≡ bits_in_blocks geometry.now layout.now blocks.now zone }
    ensures count { geometry.now.zone_blocks ≤ 8 * length result.now }
{
    let per = geometry.per();
    blocks.blocks(1 + layout.map_blocks + zone.0 * per, per)
}
