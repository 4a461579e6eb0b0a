//! The actors' threads.
ghost use Rattle.std.specs.Prelude.{◌≡◌, ℕ, ◌<◌, ◌≤◌, true, IfOk, List};
ghost use Rattle.std.specs.List.{All};
ghost use Rattle.zd_ports.specs.Actors.{actors_of};
ghost use Rattle.zd_workers.specs.Turns.{IsWaiting, constant_at};

use crate::actors::{Actor, act};
use crate::alone::drive;
use crate::turn::{Seated, Turn};
use std::alloc::{AllocError, Global};
use std::sync::Wait;
use std::thread;
use std::thread::Threads;
use zd_ports::{Gate, Stepper};

/// The actors, each with a seat of its own beside the caller's.
fn actors_at<T: Stepper>(
    alloc: Global,
    turn: &Turn<T>,
    seat: &mut Seated<T>,
    actors: u32,
) -> Result<Vec<Actor<T>>, AllocError>
    requires { IsWaiting turn.now.table.shared.table_id (constant_at seat.old) seat.old }
    ensures seat { IsWaiting turn.now.table.shared.table_id (constant_at seat.old) seat.new }
    ensures seats { IfOk result (λ all. All (λ a.
        IsWaiting turn.now.table.shared.table_id (constant_at seat.old) a.seat) all.items) }
    ensures numbers { IfOk result (λ all. All (λ a. a.number < actors) all.items) }
{
    let mut all = Vec::new(alloc);
    for number in 0..actors {
        let given = turn.seat(seat);
        all.push(Actor {
            number,
            seat: given,
        })?;
    }
    Ok(all)
}

/// Ends the seats that the actors handed back.
fn join_all<T: Stepper>(turn: &Turn<T>, seat: &mut Seated<T>, mut others: Vec<Seated<T>>)
    requires own { IsWaiting turn.now.table.shared.table_id (constant_at seat.old) seat.old }
    requires others { All (IsWaiting turn.now.table.shared.table_id (constant_at seat.old)) others.items }
    ensures { IsWaiting turn.now.table.shared.table_id (constant_at seat.old) seat.new }
{
    while let Some(other) = others.pop() {
        turn.join(seat, other);
    }
}

/// Waits for the turn, and takes the stepper out for good.
fn take<T: Stepper, R: Wait>(rt: &R, turn: Turn<T>, mut seat: Seated<T>) -> T
    requires { IsWaiting turn.table.shared.table_id (constant_at seat) seat }
    ensures { T.constant result ≡ constant_at seat }
{
    for _ in rt.forever() {
        if let Some(stepper) = turn.try_take(&mut seat) {
            return stepper;
        }
        thread::yield_now();
    }
    unreachable!()
}

/// Runs the actors, each in a thread of its own where one can be started, and gives the stepper as
/// they left it. Out of memory, it may not have ended.
fn share<T: Stepper, G: Gate + Sync, R: Threads + Wait + Sync>(
    rt: &R,
    alloc: Global,
    turn: Turn<T>,
    mut seat: Seated<T>,
    actors: u32,
    gate: &G,
) -> T
    requires seat { IsWaiting turn.table.shared.table_id (constant_at seat) seat }
    requires actors { actors ≡ actors_of (constant_at seat) }
    ensures { T.constant result ≡ constant_at seat }
{
    if let Ok(all) = actors_at(alloc, &turn, &mut seat, actors) {
        let shared = &turn;
        let part = move |actor: Actor<T>| -> Seated<T>
            requires seat { IsWaiting shared.now.table.shared.table_id (constant_at actor.seat) actor.seat }
            requires actors { actors ≡ actors_of (constant_at actor.seat) }
            requires number { actor.number < actors }
            ensures { IsWaiting shared.entry.now.table.shared.table_id (constant_at actor.seat) result }
        { act(rt, shared, gate, actors, actor) };
        if let Ok(seats) = thread::map_vec(rt, all, &part) {
            join_all(&turn, &mut seat, seats);
        }
    }
    take(rt, turn, seat)
}

/// Has this many actors, 1 to 64 and the number that the stepper names, step it until it has ended,
/// and gives it back. The actors take turns, each in a thread of its own where one can be started,
/// and an actor passes the gate after each step that it made, while others may step. An actor for
/// which no thread can be started begins only when another has left, and then the stepper has ended.
///
/// Of two and more actors the last prefers commits, of three and more the one before it prefers
/// jobs; all others prefer pieces. Out of memory for the turn, the seats or the threads, the caller
/// drives what is left alone: one step for each actor in turn, from actor 0 on, round after round.
///
/// Nothing is promised of time, or that a turn comes to an actor: it waits, and may not return.
pub fn run_actors<T: Stepper, G: Gate + Sync, R: Threads + Wait + Sync>(
    rt: &R,
    alloc: Global,
    stepper: T,
    actors: u32,
    gate: &G,
) -> T
    requires range { (0 < actors) × (actors ≤ 64) }
    requires actors { actors ≡ actors_of (T.constant stepper) }
    ensures constant { T.constant result ≡ T.constant stepper }
    ensures ended { T.has_ended result ≡ true }
{
    let left = match Turn::new(alloc, stepper) {
        Ok((turn, seat)) => share(rt, alloc, turn, seat, actors, gate),
        Err(stepper) => stepper,
    };
    drive(rt, left, actors, gate)
}
