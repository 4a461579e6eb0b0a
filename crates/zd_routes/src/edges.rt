//! The edges of a write.

ghost use Rattle.std.specs.Prelude.{◌≡◌, ◌≤◌, [], IfOk};

use std::alloc::Global;
use zd_base::{BLOCK, Memory};
use zd_model::Bytes;

/// One of the two edges of a write.
#[derive(Clone, Copy, Debug, PartialEq, Eq)]
pub enum Edge {
    /// The first block that is touched.
    First,
    /// The last one, where it is another.
    Last,
}

/// What was read of the blocks that a write touches in part: of each nothing, or the whole block of
/// 4096 bytes.
#[derive(Drop)]
pub struct Edges {
    /// Of the first block that is touched.
    pub first: Bytes,
    /// Of the last one, where it is another.
    pub last: Bytes,
}

impl Edges {
    /// Nothing, with room for a block each.
    pub fn new(alloc: Global) -> Result<Edges, Memory>
        ensures first { IfOk result (λ e. (e.first.items ≡ []) × (4096 ≤ e.first.room)) }
        ensures last { IfOk result (λ e. (e.last.items ≡ []) × (4096 ≤ e.last.room)) }
    {
        let first = Bytes::with_room(alloc, BLOCK)?;
        let last = Bytes::with_room(alloc, BLOCK)?;
        Ok(Edges { first, last })
    }
}
