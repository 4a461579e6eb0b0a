//! A benchmark of the turn: 64 actors make 300,000 steps of a stepper that only counts. It prints how
//! many steps were made.
#![tactic(auto)]

ghost use Rattle.std.specs.Prelude.{◌≡◌};

use std::process::ExitCode;
use zd_base::{Prefer, StepKind, Stepped};
use zd_workers::{FreeGate, Stepper, run_actors};

/// The actors, as many as there may be.
const ACTORS: u32 = 64;

/// The steps that they make.
const STEPS: u64 = 300_000;

/// It counts its steps, and ends after a number of them.
#[derive(Drop)]
struct Counter {
    actors: u32,
    left: u64,
    made: u64,
}

impl Counter {
    fn new(actors: u32, left: u64) -> Counter
        ensures { result.actors ≡ actors }
    {
        Counter {
            actors,
            left,
            made: 0,
        }
    }
}

impl Stepper for Counter {
    ghost use Rattle.std.specs.Prelude.{[], ◌∷◌, ◌==◌};

    ghost constant = { λ s. (s.actors ∷ []) ∷ [] };

    ghost has_ended = { λ s. s.left == 0 };

    fn step(&mut self, _actor: u32, _prefer: Prefer) -> Stepped {
        if self.left == 0 {
            return Stepped::Over;
        }
        self.left -= 1;
        self.made = self.made.saturating_add(1);
        Stepped::Did(StepKind::ReadRun)
    }

    fn ended(&self) -> bool {
        self.left == 0
    }
}

fn main(rt: HostRuntime) -> ExitCode {
    let counter = run_actors(
        &rt,
        rt.alloc(),
        Counter::new(ACTORS, STEPS),
        ACTORS,
        &FreeGate,
    );
    match println!(rt; "{} steps by {} actors", counter.made, ACTORS) {
        Ok(()) => ExitCode::SUCCESS,
        Err(_) => ExitCode::FAILURE,
    }
}
