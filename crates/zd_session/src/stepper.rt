//! A session goes on step by step, for actors that may be threads.

ghost use Rattle.std.specs.Prelude.{◌≡◌, ◌≢◌, ◌<◌, length, true};
ghost use Rattle.zd_base.specs.declared.steps.Stepped.TheVariants.{Idle};
ghost use Rattle.zd_ports.specs.Actors.{IsLast};
ghost use Rattle.zd_progress.specs.Alone.{FliesAlone};
ghost use Rattle.zd_session.specs.Constants.{OneConstantIsOneSession, WaitsForOthers, constant_of};
ghost use Rattle.zd_session.specs.SessionSteps.{MakesStep};
ghost use Rattle.zd_session.specs.Sessions.{ended_of};

use crate::serving::known;
use crate::session::Session;
use zd_base::{Prefer, Stepped};
use zd_disk::ZonedDisk;
use zd_ports::Stepper;

/// A law, with nothing to run: sessions with the same constant have the same requests and as many actors, over a volume
/// that was the same when opening ended, and whose disk told the same then.
pub fn one_constant<D: ZonedDisk + Send>()
    ensures { OneConstantIsOneSession D.view ⟦<Session<D> as Stepper>⟧.constant }
{}

impl<D: ZonedDisk> Session<D> {
    /// What is always true of it: where no other actor has a piece in flight, an actor has a step, whatever it prefers,
    /// unless the session has ended.
    pub fn waits(&self)
        ensures { WaitsForOthers self.now }
    {
        known(&self.volume, &self.progress);
    }
}

/// No step changes the requests, the number of actors, or what the volume was when opening ended. `Idle` comes only
/// where another actor has a piece in flight.
impl<D: ZonedDisk + Send> Stepper for Session<D> {
    ghost constant = { constant_of D.view };

    ghost has_ended = { ended_of };

    fn step(&mut self, actor: u32, prefer: Prefer) -> Stepped
        requires actor { actor < length self.old.flights }
        ensures constant { constant_of D.view self.new ≡ constant_of D.view self.old }
        ensures ended { IsLast result → ended_of self.new ≡ true }
        ensures step { MakesStep D.view self.old self.new actor prefer result }
        ensures idle { FliesAlone self.old.flights actor → result ≢ Idle }
    {
        self.waits();
        Session::step(self, actor as usize, prefer)
    }

    fn ended(&self) -> bool {
        Session::ended(self)
    }
}
