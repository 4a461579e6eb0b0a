//! Sizes, the numbers of zones and chunks, and the plain errors.

use std::marker::Model;

/// The bytes of a block, in which volumes count: eight sectors.
pub const BLOCK: usize = 4096;

/// The bytes of a sector, in which disks count.
pub const SECTOR: usize = 512;

/// The number of a zone of a disk, counted from 0. Contracts see the number.
#[derive(Clone, Copy, Debug, PartialEq, Eq, PartialOrd, Ord)]
pub struct ZoneNo(pub u32);

impl Model for ZoneNo {
    ghost use Rattle.std.specs.Prelude.{ℕ};

    ghost Value = { ℕ };

    ghost view = { λ zone. zone.0 };

    ghost inverse = { λ number. record { 0 = number } };
}

/// The number of a chunk of the logical device, counted from 0. Contracts see the number.
#[derive(Clone, Copy, Debug, PartialEq, Eq, PartialOrd, Ord)]
pub struct ChunkNo(pub u32);

impl Model for ChunkNo {
    ghost use Rattle.std.specs.Prelude.{ℕ};

    ghost Value = { ℕ };

    ghost view = { λ chunk. chunk.0 };

    ghost inverse = { λ number. record { 0 = number } };
}

/// A disk, source or sink failed, and its count of faults rose.
#[derive(Clone, Copy, Debug, PartialEq, Eq)]
pub struct Failed;

/// No memory was found.
#[derive(Clone, Copy, Debug, PartialEq, Eq)]
pub struct Memory;

/// The exit status of a program.
#[derive(Clone, Copy, Debug, PartialEq, Eq)]
pub struct Status(pub u8);

/// Why a run stopped before all was done.
#[derive(Clone, Copy, Debug, PartialEq, Eq)]
pub enum Why {
    /// A call of the disk failed.
    Device,
    /// The generation of the metadata is at its last number.
    Generation,
    /// No memory was found.
    Memory,
}
