//! Jobs, and where a piece is written.

use zd_base::{ChunkNo, ZoneNo};

/// What a job does with its chunk.
#[derive(Clone, Copy, Debug, PartialEq, Eq)]
pub enum JobKind {
    /// Its zone has no valid block, and is given back.
    Empty,
    /// Its valid blocks move from a conventional zone to a sequential one.
    Move,
    /// The buffer's valid blocks are copied to the zone, and the buffer is given back.
    Append,
    /// The zone's valid blocks are copied into the buffer, and the zone is given back.
    Merge,
}

/// A job on a chunk.
#[derive(Clone, Copy, Debug, PartialEq, Eq)]
pub struct Job {
    pub kind: JobKind,
    pub chunk: ChunkNo,
}

/// The job under way.
#[derive(Clone, Copy, Debug, PartialEq, Eq)]
pub struct Work {
    pub job: Job,
    /// The zone to which it copies. None for an `Empty`.
    pub target: Option<ZoneNo>,
    /// The valid blocks below this one are copied.
    pub copied: u32,
    /// How many blocks from there on stand in the copy buffer.
    pub read: u32,
}

/// Where a piece is written.
#[derive(Clone, Copy, Debug, PartialEq, Eq)]
pub enum Place {
    /// The chunk's zone.
    Main,
    /// A zone that is taken as the chunk's.
    NewMain,
    /// The chunk's buffer.
    Buffer,
    /// A zone that is taken as the chunk's buffer.
    NewBuffer,
}
