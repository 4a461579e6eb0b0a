//! A gate at which actors wait for each other.

use crate::Gate;
use std::sync::atomic::{AtomicU64, Ordering};
use std::thread;
use zd_base::StepKind;

// How often an actor looks for the others before it gives up.
const TURNS: u32 = 1_000_000;

/// It holds whoever passes until as many different actors have passed as are wanted, or its turns
/// are used up. A pass counts when it is called.
#[derive(Drop)]
pub struct Meeting {
    wanted: u32,
    passed: AtomicU64,
    passes: AtomicU64,
    given_up: AtomicU64,
}

impl Meeting {
    pub fn new(wanted: u32) -> Meeting {
        Meeting {
            wanted,
            passed: AtomicU64::new(0),
            passes: AtomicU64::new(0),
            given_up: AtomicU64::new(0),
        }
    }

    /// How many different actors have passed.
    pub fn met(&self) -> u32 {
        self.passed.load(Ordering::SeqCst).count_ones()
    }

    /// How many passes there were, and how many of them used up their turns.
    pub fn passes(&self) -> (u64, u64) {
        (
            self.passes.load(Ordering::SeqCst),
            self.given_up.load(Ordering::SeqCst),
        )
    }
}

impl Gate for Meeting {
    fn pass(&self, actor: u32, _kind: StepKind) {
        self.passes.fetch_add(1, Ordering::SeqCst);
        self.passed.fetch_or(1u64 << (actor % 64), Ordering::SeqCst);
        for _ in 0..TURNS {
            if self.met() >= self.wanted {
                return;
            }
            thread::yield_now();
        }
        self.given_up.fetch_add(1, Ordering::SeqCst);
    }
}
