//! What chunks can be picked for.

/// What job is possible on a chunk, as far as it decides which chunk is picked.
#[derive(Clone, Copy, Debug, PartialEq, Eq)]
pub enum JobClass {
    /// It gives a conventional zone back and takes no zone: an Append, or an Empty of a chunk on a
    /// conventional zone.
    Append,
    /// A Move. It gives a conventional zone back and takes a sequential one.
    Move,
    /// A Merge. It gives a sequential zone back, and copies into the buffer.
    Merge,
    /// An Empty of a chunk on a sequential zone.
    Empty,
}
