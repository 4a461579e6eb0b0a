//! A session that says why it stopped.

ghost use Rattle.std.specs.Prelude.{◌≡◌, ◌<◌, length, true};
ghost use Rattle.zd_ports.specs.Actors.{IsLast};
ghost use Rattle.zd_session.specs.Constants.{constant_of};
ghost use Rattle.zd_session.specs.Sessions.{ended_of};
ghost use Rattle.zd_replay.specs.Run.{SaysWhy};

use zd_base::{Prefer, Stepped};
use zd_disk::ZonedDisk;
use zd_session::Session;
use zd_workers::Stepper;

/// A session that began over a volume that went on. Between threads a stepper keeps what its type says and its
/// constant alone. So this type says why the volume stopped, where it has: each step does, and a session may begin
/// over a volume that had stopped before.
#[derive(Drop)]
pub struct Caused<D: ZonedDisk> {
    pub session: Session<D>,
    ghost caused: { SaysWhy session.volume.plain },
}

impl<D: ZonedDisk + Send> Stepper for Caused<D> {
    ghost constant = { λ s. constant_of D.view s.session };

    ghost has_ended = { λ s. ended_of s.session };

    fn step(&mut self, actor: u32, prefer: Prefer) -> Stepped
        requires actor { actor < length self.old.session.flights }
        ensures constant { constant_of D.view self.new.session ≡ constant_of D.view self.old.session }
        ensures ended { IsLast result → ended_of self.new.session ≡ true }
    {
        Stepper::step(&mut self.session, actor, prefer)
    }

    fn ended(&self) -> bool {
        self.session.ended()
    }
}
