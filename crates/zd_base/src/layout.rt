//! Where the metadata and the data of a volume stand.

ghost use Rattle.std.specs.Prelude.{◌≡◌, ◌↔◌, IfNone, IfSome, IsTrue};
ghost use Rattle.zd_base.specs.Layout.{Fits, formatted, set_zones, used_blocks};

use crate::Geometry;

/// The numbers by which a volume divides its disk. Two sets of metadata come first, in conventional
/// zones; a set is a super block, map blocks and bitmap blocks.
#[derive(Clone, Copy, Debug, PartialEq, Eq)]
pub struct Layout {
    /// The blocks of a set, its super block included.
    pub meta_blocks: u32,
    /// Sequential zones that no chunk counts on, for reclaim.
    pub reserved: u32,
    /// The chunks of the logical device, of one zone's size each.
    pub chunks: u32,
    /// Blocks of the map, of 512 entries each.
    pub map_blocks: u32,
    /// Blocks of the bitmaps, of 32,768 bits each.
    pub bitmap_blocks: u32,
}

/// The entries of a map block.
const ENTRIES: u32 = 512;

impl Layout {
    /// The layout with which a disk is formatted, with so many reserved zones. Each zone has a map entry
    /// and its bitmap, and all zones that both sets and the reserve leave are chunks. None exactly where
    /// this doesn't fit.
    pub fn for_format(g: &Geometry, reserved: u32) -> Option<Layout>
        ensures some { IfSome result (λ layout. (layout ≡ formatted g.now reserved)
            × Fits g.now (formatted g.now reserved)) }
        ensures none { IfNone result (Fits g.now (formatted g.now reserved) → ⊥) }
    {
        let layout = Layout::formatted(g, reserved);
        if layout.fits(g) { Some(layout) } else { None }
    }

    fn formatted(g: &Geometry, reserved: u32) -> Layout
        ensures { result ≡ formatted g.now reserved }
    {
        let map_blocks = g.zones().div_ceil(ENTRIES);
        let bitmap_blocks = g.zones() * g.per();
        let meta_blocks = 1 + map_blocks + bitmap_blocks;
        let both_sets = 2 * meta_blocks.div_ceil(g.zone_blocks());
        Layout {
            meta_blocks,
            reserved,
            chunks: g.zones().saturating_sub(both_sets).saturating_sub(reserved),
            map_blocks,
            bitmap_blocks,
        }
    }

    /// Whether the disk has room for the chunks and for both sets.
    pub fn fits(&self, g: &Geometry) -> bool
        ensures { IsTrue result ↔ Fits g.now self.now }
    {
        let zones = u64::from(g.zones());
        let bitmaps = zones * u64::from(g.per());
        let both_sets = 2 * u64::from(self.set_zones(g));
        1 <= self.reserved
            && self.reserved <= g.seq()
            && 1 <= self.chunks
            && u64::from(self.chunks) <= u64::from(self.map_blocks) * u64::from(ENTRIES)
            && bitmaps <= u64::from(self.bitmap_blocks)
            && 1 + u64::from(self.map_blocks) + u64::from(self.bitmap_blocks)
                <= u64::from(self.meta_blocks)
            && both_sets < u64::from(g.conv())
            && u64::from(self.chunks) + u64::from(self.reserved) + both_sets <= zones
    }

    /// The zones that a set takes, for any layout.
    pub fn set_zones(&self, g: &Geometry) -> u32
        ensures { result ≡ set_zones g.now self.now }
    {
        self.meta_blocks.div_ceil(g.zone_blocks())
    }

    /// The blocks of a set that are in use: the first ones, up to the last zone's bitmap.
    pub fn used_blocks(&self, g: &Geometry) -> u32
        requires { Fits g.now self.now }
        ensures { result ≡ used_blocks g.now self.now }
    {
        1 + self.map_blocks + g.zones() * g.per()
    }
}
