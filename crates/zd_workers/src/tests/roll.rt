//! A stepper that remembers who stepped.
ghost use Rattle.std.specs.Prelude.{◌≡◌};

use crate::Stepper;
use std::thread;
use zd_base::{Prefer, StepKind, Stepped, Why};

// How often it gives its last answer once more, so that no mistake keeps a test from ending.
const LATE: u64 = 1_000;

/// Takes long, so that others try for the turn meanwhile.
fn dawdle() {
    for _ in 0..1_000 {
        thread::yield_now();
    }
}

/// It has a number of steps to make, and keeps how many each of the first 64 actors made and what
/// each one preferred.
#[derive(Drop)]
pub struct Roll {
    actors: u32,
    left: u64,
    last: Stepped,
    pauses: bool,
    paused: [bool; 64],
    made: [u64; 64],
    preferred: [Option<Prefer>; 64],
    late: u64,
}

impl Roll {
    /// The last step gives this answer, and so do calls after it, where it is one that ends a run.
    pub fn new(actors: u32, left: u64, last: Stepped) -> Roll
        ensures { result.actors ≡ actors }
    {
        Roll {
            actors,
            left,
            last,
            pauses: false,
            paused: [false; 64],
            made: [0; 64],
            preferred: [None; 64],
            late: 0,
        }
    }

    /// The same, with nothing to do for an actor at every other call of its own, from the first on.
    /// Each step takes long.
    pub fn pausing(actors: u32, left: u64, last: Stepped) -> Roll
        ensures { result.actors ≡ actors }
    {
        let mut roll = Roll::new(actors, left, last);
        roll.pauses = true;
        roll
    }

    /// The steps of all actors.
    pub fn total(&self) -> u64 {
        self.made.iter().fold(0, |all, n| all.wrapping_add(*n))
    }

    /// How many actors made so many steps or more.
    pub fn active(&self, steps: u64) -> usize {
        self.made.iter().filter(|n| **n >= steps).count()
    }

    /// What an actor preferred at its last step.
    pub fn preferred(&self, actor: u32) -> Option<Prefer> {
        self.preferred[(actor % 64) as usize]
    }

    /// The calls that came after the last step.
    pub fn late(&self) -> u64 {
        self.late
    }

    /// The answer to a call after the last step: one of the two that end a run for 1,000 calls, then
    /// the other, at which a thread leaves that takes only this one for an end.
    fn over(&mut self) -> Stepped
        ensures left { self.new.left ≡ self.old.left }
        ensures actors { self.new.actors ≡ self.old.actors }
    {
        self.late = self.late.saturating_add(1);
        let stopped = matches!(self.last, Stepped::Stopped(_));
        if stopped == (self.late <= LATE) {
            Stepped::Stopped(Why::Device)
        } else {
            Stepped::Over
        }
    }
}

impl Stepper for Roll {
    ghost use Rattle.std.specs.Prelude.{[], ◌∷◌, ◌==◌};

    ghost constant = { λ s. (s.actors ∷ []) ∷ [] };

    ghost has_ended = { λ s. s.left == 0 };

    fn step(&mut self, actor: u32, prefer: Prefer) -> Stepped {
        if self.left == 0 {
            return self.over();
        }
        let place = (actor % 64) as usize;
        self.paused[place] = self.pauses && !self.paused[place];
        if self.paused[place] {
            return Stepped::Idle;
        }
        if self.pauses {
            dawdle();
        }
        self.left -= 1;
        self.made[place] = self.made[place].saturating_add(1);
        self.preferred[place] = Some(prefer);
        if self.left == 0 {
            return self.last;
        }
        Stepped::Did(StepKind::ReadRun)
    }

    fn ended(&self) -> bool {
        self.left == 0
    }
}
