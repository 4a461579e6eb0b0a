//! Runs of blocks, each moved by one call of a disk.

ghost use Rattle.std.specs.Prelude.{◌≡◌, ◌⊎◌, ◌+◌, ◌%◌, ◌<◌, ◌≤◌};

use zd_base::Geometry;

/// The most blocks that a call for metadata moves.
pub const RUN_BLOCKS: u32 = 32;

/// How many blocks the next call moves, where `block` is the next one, counted from the start of a
/// zone: as many as there are up to `end` and up to the end of the zone, at most [`RUN_BLOCKS`].
pub fn run_length(geometry: &Geometry, block: u32, end: u32) -> u32
    requires { block < end }
    ensures some { 0 < result }
    ensures most { result ≤ 32 }
    ensures end { block + result ≤ end }
    ensures within { block % geometry.now.zone_blocks + result ≤ geometry.now.zone_blocks }
    ensures longest { (result ≡ 32) ⊎ (block + result ≡ end)
        ⊎ (block % geometry.now.zone_blocks + result ≡ geometry.now.zone_blocks) }
{
    let zone_blocks = geometry.zone_blocks();
    let left = zone_blocks - block % zone_blocks;
    (end - block).min(left).min(RUN_BLOCKS)
}
