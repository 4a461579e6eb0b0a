//! A session.

ghost use Rattle.std.specs.Prelude.{◌≡◌, ◌<◌, All, None, length};
ghost use Rattle.zd_session.specs.SessionSteps.{MakesStep, MakesTurns, answer_by};
ghost use Rattle.zd_session.specs.Sessions.{ended_of, run_seen};
ghost use Rattle.zd_steps.specs.Runs.{Standing};

use crate::asked::Asked;
use crate::making::make;
use crate::progress::Progress;
use std::marker::Model;
use zd_base::{Prefer, Stepped};
use zd_disk::ZonedDisk;
use zd_model::{Piece, Request};
use zd_state::Volume;

/// Requests of many callers over one volume, made step by step by many actors.
#[derive(Drop)]
pub struct Session<D: ZonedDisk> {
    pub(crate) volume: Volume<D>,
    pub(crate) plan: Vec<Request>,
    pub(crate) progress: Progress,
    /// Room for the flushes of a commit, one a caller.
    pub(crate) list: Vec<Piece>,
}

impl<D: ZonedDisk> Model for Session<D> {
    ghost use Rattle.std.specs.Prelude.{vec_capacity};
    ghost use Rattle.zd_session.specs.Moving.{IsKeptSession, seen_by};
    ghost use Rattle.zd_session.specs.Sessions.{SessionView};

    ghost Value = { SessionView D };

    ghost view = { λ s. seen_by s.volume s.plan.items s.progress };

    ghost invariant = { λ s. IsKeptSession D.view s.volume s.plan.items s.progress (vec_capacity s.list) };
}

impl<D: ZonedDisk> Session<D> {
    /// The volume: what it serves, what a stop leaves, and its history.
    pub fn volume(&self) -> &Volume<D>
        ensures { result.now ≡ self.now.volume }
    {
        &self.volume
    }

    /// The requests.
    pub fn plan(&self) -> &[Request]
        ensures { result.now ≡ self.now.plan }
    {
        &self.plan
    }

    /// Whether it has stopped, or all pieces are entered.
    pub fn ended(&self) -> bool
        ensures { result ≡ ended_of self.now }
    {
        self.volume.stopped().is_some() || self.progress.queue.is_over()
    }

    /// What is answered where there is no step.
    fn rest(&self) -> Stepped
        ensures { (v : Standing) → result ≡ answer_by (run_seen self.now) v None self.now.volume.plain.stopped }
    {
        match self.volume.stopped() {
            Some(why) => Stepped::Stopped(why),
            None if self.progress.queue.is_over() => Stepped::Over,
            None => Stepped::Idle,
        }
    }

    /// Makes the next step of an actor, of the class that it prefers where there is a choice. It calls the disk once at
    /// most, takes no memory, and looks at the first piece of each caller alone.
    pub fn step(&mut self, actor: usize, prefer: Prefer) -> Stepped
        requires { actor < length self.old.flights }
        ensures { MakesStep D.view self.old self.new actor prefer result }
    {
        let asked = Asked {
            volume: &self.volume,
        };
        let Some(step) = self.progress.queue.choose(&asked, actor, prefer) else {
            return self.rest();
        };
        let kind = make(
            &mut self.volume,
            &mut self.progress,
            &mut self.list,
            actor,
            step,
        );
        match self.volume.stopped() {
            Some(why) => Stepped::Stopped(why),
            None => Stepped::Did(kind),
        }
    }

    /// Makes one step for each turn, in their order.
    pub fn drive(&mut self, turns: &[(usize, Prefer)])
        requires { All (λ turn. turn.0 < length self.old.flights) turns.now }
        ensures { MakesTurns D.view self.old self.new turns.now }
    {
        for turn in turns {
            let _stepped = self.step(turn.0, turn.1);
        }
    }
}
