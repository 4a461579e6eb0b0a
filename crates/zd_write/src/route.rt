//! Where a write goes.

ghost use Rattle.std.specs.Prelude.{◌≡◌, ◌↔◌, ◌<◌, IfNone, IfSome, IsTrue, None};
ghost use Rattle.zd_routes.specs.Routes.{GoesTo, HasPlace, LacksZone, TakesZone, WritesBlocks, entry_touched};
ghost use Rattle.zd_volume.specs.Discards.{chunk_touched, range_first};
ghost use Rattle.zd_volume.specs.Volumes.{sets_of};
ghost use Rattle.zd_volume.specs.declared.work.Place.{Place};
ghost use Rattle.zd_write.specs.Tries.{IsBufferPlace};

use zd_base::{ChunkNo, Kind};
use zd_disk::ZonedDisk;
use zd_model::Piece;
use zd_state::{Place, Volume};

/// The chunk of a piece, and its first block there.
pub(crate) fn start_of<D: ZonedDisk>(v: &Volume<D>, piece: &Piece) -> (ChunkNo, u32)
    requires { chunk_touched v.now.plain.geometry.zone_blocks piece.now.what < v.now.plain.head.layout.chunks }
    ensures chunk { result.0 ≡ chunk_touched v.now.plain.geometry.zone_blocks piece.now.what }
    ensures first { result.1 ≡ range_first v.now.plain.geometry.zone_blocks piece.now.what }
{
    let _chunks = v.layout().chunks;
    let zone_blocks = u64::from(v.geometry().zone_blocks());
    let (block, _) = piece.cover();
    (
        ChunkNo((block / zone_blocks) as u32),
        (block % zone_blocks) as u32,
    )
}

/// Where a write goes, whether there is a zone for it or not.
fn route<D: ZonedDisk>(v: &Volume<D>, piece: &Piece) -> Place
    requires running { v.now.plain.stopped ≡ None }
    requires piece { WritesBlocks (sets_of v.now.plain) piece.now.what }
    ensures { GoesTo v.now.plain.geometry v.now.plain.pointers (entry_touched v.now.plain piece.now.what)
        (range_first v.now.plain.geometry.zone_blocks piece.now.what) result }
{
    v.sound();
    let (chunk, first) = start_of(v, piece);
    let entry = v.entry(chunk);
    let Some(zone) = entry.zone else {
        return Place::NewMain;
    };
    if zone.0 < v.geometry().conv() || v.pointer(zone) == first {
        return Place::Main;
    }
    if entry.buffer.is_some() {
        Place::Buffer
    } else {
        Place::NewBuffer
    }
}

/// Whether a zone is taken for it.
fn takes_zone(place: Place) -> bool
    ensures { IsTrue result ↔ TakesZone place }
{
    matches!(place, Place::NewMain | Place::NewBuffer)
}

/// Where a write goes. None exactly where it needs a conventional zone and none is free.
pub fn place<D: ZonedDisk>(v: &Volume<D>, piece: &Piece) -> Option<Place>
    requires running { v.now.plain.stopped ≡ None }
    requires piece { WritesBlocks (sets_of v.now.plain) piece.now.what }
    ensures some { IfSome result (HasPlace v.now.plain piece.now.what) }
    ensures none { IfNone result (LacksZone v.now.plain piece.now.what) }
{
    let place = route(v, piece);
    if takes_zone(place) && v.alloc().least_free(Kind::Conventional).is_none() {
        return None;
    }
    Some(place)
}

/// Whether a write goes to its chunk's buffer, one that is there or a new one.
pub fn goes_to_buffer<D: ZonedDisk>(v: &Volume<D>, piece: &Piece) -> bool
    requires running { v.now.plain.stopped ≡ None }
    requires piece { WritesBlocks (sets_of v.now.plain) piece.now.what }
    ensures { IsTrue result ↔ ((p : Place) × GoesTo v.now.plain.geometry v.now.plain.pointers
        (entry_touched v.now.plain piece.now.what)
        (range_first v.now.plain.geometry.zone_blocks piece.now.what) p × IsBufferPlace p) }
{
    matches!(route(v, piece), Place::Buffer | Place::NewBuffer)
}
