//! The turn: actors in threads of their own who step one stepper, one at a time.
//!
//! # What is proved
//!
//! `run_actors`: actors, 1 to 64, take turns at one stepper, each in a thread of its own where
//! one can be started. If the call returns, the stepper that comes back has the constant of the
//! one handed in (`constant`) and has ended (`ended`), also where no thread or no memory can be
//! had. The turn keeps one rule, and `one_turn` says in plain words what the rule gives: never do
//! two seats have the turn; where none has it, the stepper is in its slot, with the constant that
//! all seats know; the slot is out exactly where a seat has taken it.
//!
//! Not claimed: that a second thread runs, that anybody's turn comes, fairness, time, or that the
//! call returns. That actors step beside each other, that a hold is one step, that the gate is
//! passed after each step that was made, that an actor leaves once it is told of the end and not
//! before, and that the caller alone steps for every actor, is only tested: by gates at which 4
//! and 64 actors wait until all have passed, and which give up after a fixed number of turns and
//! then fail the test, and by a stepper that counts the calls after its end.
#![tactic(auto)]

mod actors;
mod alone;
mod law;
mod plays;
mod run;
#[cfg(test)]
mod tests;
mod turn;
mod view;

pub use law::one_turn;
pub use run::run_actors;
pub use zd_ports::{FreeGate, Gate, Stepper};
