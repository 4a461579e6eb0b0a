//! What an actor has read of its piece.

ghost use Rattle.std.specs.Prelude.{◌≤◌, ℕ, IfOk};
ghost use Rattle.zd_session.specs.Sessions.{IsFree};

use std::alloc::Global;
use zd_base::Memory;
use zd_state::{Edges, Flight};

/// What an actor has read of the piece that it has in flight.
#[derive(Drop)]
pub struct Actor {
    /// A read of which some runs are read.
    pub read: Option<Flight>,
    /// The edges of a write. Both are empty where no write is in flight.
    pub edges: Edges,
}

impl Actor {
    /// Nothing is read. It has room for two edges.
    pub(crate) fn new(alloc: Global) -> Result<Actor, Memory>
        ensures free { IfOk result IsFree }
        ensures first { IfOk result (λ a. 4096 ≤ a.edges.first.room) }
        ensures last { IfOk result (λ a. 4096 ≤ a.edges.last.room) }
    {
        let edges = Edges::new(alloc)?;
        Ok(Actor { read: None, edges })
    }
}
