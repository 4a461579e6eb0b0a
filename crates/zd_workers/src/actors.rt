//! What one actor does in its thread.
ghost use Rattle.std.specs.Prelude.{◌≡◌, ◌<◌};
ghost use Rattle.zd_ports.specs.Actors.{actors_of};
ghost use Rattle.zd_workers.specs.Turns.{IsWaiting, constant_at};

use crate::alone::preference;
use crate::turn::{Seated, Turn};
use std::sync::Wait;
use std::thread;
use zd_base::Stepped;
use zd_ports::{Gate, Stepper};

/// An actor: its number, and its seat at the turn.
#[derive(Drop)]
pub struct Actor<T> {
    pub number: u32,
    pub seat: Seated<T>,
}

/// Makes one step, where the turn is free, and gives the turn back; the seat then waits as before.
fn hold<T: Stepper>(
    turn: &Turn<T>,
    seat: &mut Seated<T>,
    number: u32,
    actors: u32,
) -> Option<Stepped>
    requires seat { IsWaiting turn.now.table.shared.table_id (constant_at seat.old) seat.old }
    requires actors { actors ≡ actors_of (constant_at seat.old) }
    requires number { number < actors }
    ensures { IsWaiting turn.now.table.shared.table_id (constant_at seat.old) seat.new }
{
    let mut stepper = turn.try_take(seat)?;
    let stepped = stepper.step(number, preference(number, actors));
    turn.put_back(seat, stepper);
    Some(stepped)
}

/// Steps, and passes the gate after each step that was made, until nothing is left to step. A turn
/// that another has and a step that has to wait for others are tried again.
pub fn act<T: Stepper, G: Gate, R: Wait>(
    rt: &R,
    turn: &Turn<T>,
    gate: &G,
    actors: u32,
    actor: Actor<T>,
) -> Seated<T>
    requires seat { IsWaiting turn.now.table.shared.table_id (constant_at actor.seat) actor.seat }
    requires actors { actors ≡ actors_of (constant_at actor.seat) }
    requires number { actor.number < actors }
    ensures { IsWaiting turn.now.table.shared.table_id (constant_at actor.seat) result }
{
    let Actor { number, mut seat } = actor;
    for _ in rt.forever() {
        match hold(turn, &mut seat, number, actors) {
            Some(Stepped::Over | Stepped::Stopped(_)) => return seat,
            Some(Stepped::Did(kind)) => gate.pass(number, kind),
            Some(Stepped::Idle) | None => thread::yield_now(),
        }
    }
    unreachable!()
}
