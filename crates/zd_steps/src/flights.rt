//! The pieces in flight.

ghost use Rattle.std.specs.Prelude.{◌≡◌, ◌<◌, IfOk, None, Some, length, replicate, slice_get, slice_set};
ghost use Rattle.zd_steps.specs.Runs.{chunk_of, flies_in, is_flight_of, is_flight_on, is_held_in};

use std::alloc::Global;
use zd_base::Memory;
use zd_model::{Piece, What};

/// For each actor the piece that it has in flight, and the blocks of a chunk.
#[derive(Drop)]
pub(crate) struct Flights {
    chunk_blocks: u32,
    pieces: Vec<Option<Piece>>,
    ghost some: { 0 < chunk_blocks },
}

/// The chunk on which a piece stands. A flush stands on none, nor does what ends past the device.
fn chunk_of(chunk_blocks: u32, piece: &Piece) -> Option<u64>
    requires { 0 < chunk_blocks }
    ensures { result ≡ chunk_of chunk_blocks piece.now }
{
    if piece.range || piece.what == What::Flush {
        return None;
    }
    let (block, _) = piece.cover();
    Some(block / u64::from(chunk_blocks))
}

/// Whether what an actor has in flight stands on this chunk.
fn is_flight_on(chunk_blocks: u32, chunk: Option<u64>, flight: &Option<Piece>) -> bool
    requires { 0 < chunk_blocks }
    ensures { result ≡ is_flight_on chunk_blocks chunk flight.now }
{
    match flight {
        Some(other) => chunk.is_some() && chunk == chunk_of(chunk_blocks, other),
        None => false,
    }
}

/// Whether what an actor has in flight is this piece.
fn is_flight_of(piece: &Piece, flight: &Option<Piece>) -> bool
    ensures { result ≡ is_flight_of piece.now flight.now }
{
    match flight {
        Some(other) => other.request == piece.request && other.piece == piece.piece,
        None => false,
    }
}

impl Flights {
    /// Nothing is in flight.
    pub(crate) fn new(alloc: Global, chunk_blocks: u32, actors: usize) -> Result<Flights, Memory>
        requires { 0 < chunk_blocks }
        ensures blocks { IfOk result (λ f. f.chunk_blocks ≡ chunk_blocks) }
        ensures none { IfOk result (λ f. f.pieces.items ≡ replicate actors None) }
    {
        let pieces = vec![in alloc; None; actors].map_err(|_| Memory)?;
        Ok(Flights {
            chunk_blocks,
            pieces,
        })
    }

    /// What an actor has in flight.
    pub(crate) fn of(&self, actor: usize) -> Option<Piece>
        requires { actor < length self.now.pieces.items }
        ensures { slice_get self.now.pieces.items actor ≡ Some result }
    {
        self.pieces[actor]
    }

    /// An actor has this in flight from now on.
    pub(crate) fn set(&mut self, actor: usize, piece: Option<Piece>)
        requires { actor < length self.old.pieces.items }
        ensures blocks { self.new.chunk_blocks ≡ self.old.chunk_blocks }
        ensures pieces { self.new.pieces.items ≡ slice_set self.old.pieces.items actor piece }
    {
        self.pieces[actor] = piece;
    }

    /// Whether a piece is in flight on the chunk of this one.
    pub(crate) fn hold(&self, piece: &Piece) -> bool
        ensures { result ≡ is_held_in self.now.chunk_blocks self.now.pieces.items piece.now }
    {
        let chunk = chunk_of(self.chunk_blocks, piece);
        self.pieces
            .iter()
            .any(|flight| is_flight_on(self.chunk_blocks, chunk, flight))
    }

    /// Whether this piece is in flight.
    pub(crate) fn have(&self, piece: &Piece) -> bool
        ensures { result ≡ flies_in self.now.pieces.items piece.now }
    {
        self.pieces.iter().any(|flight| is_flight_of(piece, flight))
    }
}
