//! A write, and a discard.

ghost use Rattle.std.specs.Prelude.{◌≡◌, ◌<◌, ◌≤◌, None};
ghost use Rattle.zd_model.specs.Requests.{block_count};
ghost use Rattle.zd_routes.specs.Edges.{AreEdges};
ghost use Rattle.zd_routes.specs.Routes.{WritesBlocks};
ghost use Rattle.zd_state.specs.Seen.{SameSession};
ghost use Rattle.zd_volume.specs.Discards.{DiscardsBlocks};
ghost use Rattle.zd_volume.specs.Volumes.{sets_of};
ghost use Rattle.zd_volume.specs.declared.phase.Phase.TheVariants.{Idle};
ghost use Rattle.zd_write.specs.Tries.{DiscardsPiece, TriesCall, TriesWrite};

use crate::route::{place, start_of};
use crate::settling::{give_up_on, settle};
use zd_disk::ZonedDisk;
use zd_model::Piece;
use zd_state::{Edges, Volume, Wrote};

/// What a step of a write did.
#[derive(Clone, Copy, Debug, PartialEq, Eq)]
pub enum Tried {
    /// It was done, and its piece is entered.
    Entered,
    /// It needs a conventional zone, and none is free. Nothing was done.
    NoZone,
    /// The disk failed: its piece is entered so, and the volume is stopped.
    Stopped,
}

/// Writes a piece, by one call of the disk, from the write buffer: each edge block that it touches in part and
/// that is valid has to be in `edges`. A job on its chunk is given up first, and the chunk is promoted in the
/// same step where its zone is left without a valid block. It takes no memory.
pub fn step<D: ZonedDisk>(v: &mut Volume<D>, piece: &Piece, edges: &Edges) -> Tried
    requires running { v.old.plain.stopped ≡ None }
    requires idle { v.old.plain.phase ≡ Idle }
    requires piece { WritesBlocks (sets_of v.old.plain) piece.now.what }
    requires edges { AreEdges v.old.plain (D.view v.old.disk).zones piece.now.what edges.now }
    requires spare { (0 < v.old.spare) × (block_count piece.now.what ≤ v.old.room) }
    ensures tries { TriesWrite v.old.plain v.new.plain piece.now result }
    ensures call { TriesCall result (D.view v.old.disk) (D.view v.new.disk) }
    ensures disk { result ≡ Tried.NoZone → v.new.disk ≡ v.old.disk }
    ensures same { SameSession 1 v.old v.new }
{
    let Some(place) = place(v, piece) else {
        return Tried::NoZone;
    };
    v.sound();
    let (chunk, _) = start_of(v, piece);
    give_up_on(v, chunk);
    match v.write_and_map(piece, edges, place) {
        Wrote::Stopped => Tried::Stopped,
        Wrote::Entered => {
            settle(v, chunk);
            Tried::Entered
        }
    }
}

/// Discards the blocks of a piece, without a call of the disk. A job on its chunk is given up first, and the
/// chunk is promoted in the same step where its zone is left without a valid block.
pub fn discard<D: ZonedDisk>(v: &mut Volume<D>, piece: &Piece)
    requires running { v.old.plain.stopped ≡ None }
    requires idle { v.old.plain.phase ≡ Idle }
    requires piece { DiscardsBlocks (sets_of v.old.plain) piece.now.what }
    requires spare { 0 < v.old.spare }
    ensures discards { DiscardsPiece v.old.plain v.new.plain piece.now }
    ensures disk { v.new.disk ≡ v.old.disk }
    ensures same { SameSession 1 v.old v.new }
{
    let (chunk, _) = start_of(v, piece);
    give_up_on(v, chunk);
    v.unmap_range(piece);
    settle(v, chunk);
}
