//! A read under way, and what the steps of reads and writes answer.

use zd_model::{Bytes, Piece};

/// A read of which some runs are read.
#[derive(Drop)]
pub struct Flight {
    pub piece: Piece,
    /// How many of the blocks that the piece touches are read.
    pub done: u32,
    /// The bytes that the read takes of them.
    pub bytes: Bytes,
}

/// What a step of a read did.
#[derive(Clone, Copy, Debug, PartialEq, Eq)]
pub enum Ran {
    /// A run was read, and another one is left.
    More,
    /// The piece is entered: its last run was read, or the disk failed.
    Entered,
}

/// What a write did. Its piece is entered either way.
#[derive(Clone, Copy, Debug, PartialEq, Eq)]
pub enum Wrote {
    /// It was done.
    Entered,
    /// The disk failed. The volume is stopped.
    Stopped,
}
