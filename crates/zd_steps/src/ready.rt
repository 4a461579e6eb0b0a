//! Which pieces are ready, which want a zone, and which are flushes.

ghost use Rattle.std.specs.Prelude.{◌≡◌, ⊤, false};
ghost use Rattle.zd_steps.specs.Runs.{flushes, is_ready, lacks_zone};
ghost use Rattle.zd_steps.specs.Queues.{is_first_servable, is_first_wanting};

use crate::flights::Flights;
use crate::heads::PieceTest;
use crate::standing::HasStanding;
use zd_model::{Piece, What};

/// Whether it is a write in range that needs a conventional zone where none is free.
fn lacks_zone<V: HasStanding>(volume: &V, piece: &Piece) -> bool
    requires running { (V.standing volume.now).stopped ≡ false }
    requires known { V.knows volume.now piece.now }
    ensures { result ≡ lacks_zone (V.standing volume.now) piece.now }
{
    match piece.what {
        What::Write { .. } | What::WriteSectors { .. } => !piece.range && volume.lacks_zone(piece),
        _ => false,
    }
}

/// Whether its next step may be made.
pub(crate) fn is_ready<V: HasStanding>(volume: &V, piece: &Piece) -> bool
    requires running { (V.standing volume.now).stopped ≡ false }
    requires known { V.knows volume.now piece.now }
    ensures { result ≡ is_ready (V.standing volume.now) piece.now }
{
    if piece.range {
        return true;
    }
    match piece.what {
        What::Read { .. } | What::ReadSectors { .. } => true,
        What::Discard { .. } => !volume.commits(),
        What::Write { .. } | What::WriteSectors { .. } => {
            !volume.commits() && !volume.lacks_zone(piece)
        }
        What::Flush => false,
    }
}

/// A first piece that an actor with nothing in flight serves.
#[derive_where(Clone, Copy)]
pub(crate) struct Servable<'a, V> {
    pub(crate) flights: &'a Flights,
    pub(crate) volume: &'a V,
}

impl<'a, V: HasStanding> PieceTest for Servable<'a, V> {
    ghost test = { λ s. is_first_servable s.flights.now.chunk_blocks s.flights.now.pieces.items
        (V.standing s.volume.now) };

    ghost takes = { λ s p. ((V.standing s.volume.now).stopped ≡ false) × V.knows s.volume.now p };

    fn passes(&self, piece: &Piece) -> bool {
        !self.flights.hold(piece) && is_ready(self.volume, piece)
    }
}

/// A first piece that wants a conventional zone.
#[derive_where(Clone, Copy)]
pub(crate) struct Wanting<'a, V> {
    pub(crate) flights: &'a Flights,
    pub(crate) volume: &'a V,
}

impl<'a, V: HasStanding> PieceTest for Wanting<'a, V> {
    ghost test = { λ s. is_first_wanting s.flights.now.chunk_blocks s.flights.now.pieces.items
        (V.standing s.volume.now) };

    ghost takes = { λ s p. ((V.standing s.volume.now).stopped ≡ false) × V.knows s.volume.now p };

    fn passes(&self, piece: &Piece) -> bool {
        lacks_zone(self.volume, piece) && (!self.flights.hold(piece) || self.flights.have(piece))
    }
}

/// A flush.
#[derive(Clone, Copy)]
pub(crate) struct Flushing;

impl PieceTest for Flushing {
    ghost test = { λ _. flushes };

    ghost takes = { λ _ _. ⊤ };

    fn passes(&self, piece: &Piece) -> bool {
        piece.what == What::Flush
    }
}
