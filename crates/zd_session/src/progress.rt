//! How far the requests of a session have come.

ghost use Rattle.std.specs.Prelude.{◌≡◌, ◌<◌, None, Some, length, slice_get};
ghost use Rattle.zd_session.specs.Moving.{BeginsReply, HasReplyIfNone, TakesRead};
ghost use Rattle.zd_session.specs.declared.actor.Actor.{Actor};

use crate::actor::Actor;
use zd_model::{Bytes, Piece};
use zd_state::Flight;
use zd_steps::Queue;

/// How far the requests have come.
#[derive(Drop)]
pub(crate) struct Progress {
    /// Which pieces are entered, and which are in flight.
    pub(crate) queue: Queue,
    /// For each actor what it has read of its piece.
    pub(crate) actors: Vec<Actor>,
    /// For each piece, where it is a read in range that isn't served yet, room for its bytes.
    pub(crate) replies: Vec<Option<Bytes>>,
}

impl Progress {
    /// Takes the room for the reply of a read of which nothing is read.
    fn take_reply(&mut self, piece: &Piece) -> Bytes
        requires known { piece.now.caller < 64 }
        requires space { HasReplyIfNone None self.old piece.now }
        ensures { BeginsReply self.old self.new piece.now result }
    {
        let place = self.queue.head(piece.caller);
        match self.replies[place].take() {
            Some(bytes) => bytes,
            None => unreachable!(),
        }
    }

    /// Takes the read that an actor goes on with, or one of which nothing is read, with room for all its bytes.
    pub(crate) fn take_read(&mut self, actor: usize, piece: &Piece) -> Flight
        requires known { piece.now.caller < 64 }
        requires actor { actor < length self.old.actors.items }
        requires space { (a : Actor) → slice_get self.old.actors.items actor ≡ Some a →
            HasReplyIfNone a.read self.old piece.now }
        ensures { TakesRead self.old self.new actor piece.now result }
    {
        match self.actors[actor].read.take() {
            Some(flight) => flight,
            None => Flight {
                piece: *piece,
                done: 0,
                bytes: self.take_reply(piece),
            },
        }
    }
}
