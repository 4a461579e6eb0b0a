//! A session that its first actor steps until there is no step more.

ghost use Rattle.std.specs.Prelude.{◌<◌, length};
ghost use Rattle.zd_session.specs.LoneSessions.{RunsLone};
ghost use Rattle.zd_session.specs.LoneStates.{StandsSession};

use crate::serving::known;
use crate::session::Session;
use zd_base::{Prefer, Stepped};
use zd_disk::ZonedDisk;

impl<D: ZonedDisk> Session<D> {
    /// What is always true of it.
    fn stands(&self)
        ensures { StandsSession D.view self.now }
    {
        known(&self.volume, &self.progress);
    }

    /// Makes the first actor's steps, who prefers pieces, until it has none.
    ///
    /// Where no other actor has a piece in flight, the session has ended then. One that has just begun ends in time:
    /// between two entries at most two jobs and three commits are made, and no commit lacks a generation where three for
    /// each piece have room.
    pub fn run_alone(&mut self)
        requires { 0 < length self.old.flights }
        ensures { RunsLone D.view self.old self.new }
    {
        self.stands();
        loop {
            match self.step(0, Prefer::Pieces) {
                Stepped::Did(_) => self.stands(),
                Stepped::Idle | Stepped::Over | Stepped::Stopped(_) => return,
            }
        }
    }
}
