//! A stepper that one thread drives for every actor.
ghost use Rattle.std.specs.Prelude.{◌≡◌, ◌↔◌, ◌+◌, ◌<◌, ◌≤◌, true};
ghost use Rattle.zd_ports.specs.Actors.{actors_of};
ghost use Rattle.zd_base.specs.declared.steps.Prefer.TheVariants.{Commits, Jobs};

use std::sync::Wait;
use zd_base::{Prefer, Stepped};
use zd_ports::{Gate, Stepper};

/// What an actor prefers: of two and more the last commits, of three and more the one before it has
/// the jobs, and all others have pieces.
pub fn preference(actor: u32, actors: u32) -> Prefer
    ensures commits { result ≡ Commits ↔ (2 ≤ actors) × (actor + 1 ≡ actors) }
    ensures jobs { result ≡ Jobs ↔ (3 ≤ actors) × (actor + 2 ≡ actors) }
{
    if actors >= 2 && actor == actors - 1 {
        Prefer::Commits
    } else if actors >= 3 && actor == actors - 2 {
        Prefer::Jobs
    } else {
        Prefer::Pieces
    }
}

/// Makes one step for each actor in turn, from actor 0 on and round after round, until the stepper
/// has ended, and passes the gate after each step that was made. An idle actor's turn is over too.
pub fn drive<T: Stepper, G: Gate, R: Wait>(rt: &R, mut stepper: T, actors: u32, gate: &G) -> T
    requires some { 0 < actors }
    requires actors { actors ≡ actors_of (T.constant stepper) }
    ensures constant { T.constant result ≡ T.constant stepper }
    ensures ended { T.has_ended result ≡ true }
{
    let mut actor = 0;
    for _ in rt.forever() {
        if stepper.ended() {
            return stepper;
        }
        if let Stepped::Did(kind) = stepper.step(actor, preference(actor, actors)) {
            gate.pass(actor, kind);
        }
        actor = if actor + 1 < actors { actor + 1 } else { 0 };
    }
    unreachable!()
}
