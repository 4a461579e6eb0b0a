//! Anything that goes on step by step.

ghost use Rattle.std.specs.Prelude.{◌≡◌, ◌<◌, ℕ, List, Bool, true};
ghost use Rattle.zd_ports.specs.Actors.{actors_of, IsLast};

use zd_base::{Prefer, Stepped};

/// Anything that goes on by one step at a time, for a fixed number of actors, until it has ended.
/// Something in it no step changes.
pub trait Stepper: Send + Drop {
    /// What no step changes. Its first list is the number of actors, alone.
    ghost constant: { Self → List (List ℕ) };

    /// Whether it has ended.
    ghost has_ended: { Self → Bool };

    /// Makes the next step for this actor.
    fn step(&mut self, actor: u32, prefer: Prefer) -> Stepped
        requires actor { actor < actors_of (constant self.old) }
        ensures constant { constant self.new ≡ constant self.old }
        ensures ended { IsLast result → has_ended self.new ≡ true };

    /// Whether it has ended.
    fn ended(&self) -> bool
        ensures { result ≡ has_ended self.now };
}
