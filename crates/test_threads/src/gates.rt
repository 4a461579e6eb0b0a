//! Gates that hold actors until others have passed.

use std::sync::atomic::{AtomicU64, Ordering};
use std::thread;
use zd_base::StepKind;
use zd_ports::Gate;

/// How often an actor that is held looks for the others before it gives up.
const TURNS: u32 = 10_000_000;

/// Passes, counted when they are called.
#[derive(Drop)]
pub struct Passes {
    reads: AtomicU64,
    commits: AtomicU64,
    remaps: AtomicU64,
    /// A bit for each actor that passed after a run of a read.
    readers: AtomicU64,
    /// How often an actor gave up.
    given_up: AtomicU64,
}

impl Passes {
    fn new() -> Passes {
        Passes {
            reads: AtomicU64::new(0),
            commits: AtomicU64::new(0),
            remaps: AtomicU64::new(0),
            readers: AtomicU64::new(0),
            given_up: AtomicU64::new(0),
        }
    }

    /// Counts a pass, and answers the number that it has among those of its kind, from 1 on.
    fn called(&self, actor: u32, kind: StepKind) -> u64 {
        let count = match kind {
            StepKind::ReadRun => {
                self.readers
                    .fetch_or(1u64 << (actor % 64), Ordering::SeqCst);
                &self.reads
            }
            StepKind::Commit => &self.commits,
            StepKind::Remap => &self.remaps,
            _ => return 0,
        };
        count.fetch_add(1, Ordering::SeqCst).saturating_add(1)
    }

    /// Whether so many passes were called: of reads by how many actors, of reads, of commits, of remaps.
    fn are(&self, least: [u64; 4]) -> bool {
        let readers = u64::from(self.readers.load(Ordering::SeqCst).count_ones());
        readers >= least[0]
            && self.reads.load(Ordering::SeqCst) >= least[1]
            && self.commits.load(Ordering::SeqCst) >= least[2]
            && self.remaps.load(Ordering::SeqCst) >= least[3]
    }

    /// Holds whoever calls it until so many passes were called, or its turns are used up.
    fn hold(&self, least: [u64; 4]) {
        for _ in 0..TURNS {
            if self.are(least) {
                return;
            }
            thread::yield_now();
        }
        self.given_up.fetch_add(1, Ordering::SeqCst);
    }

    /// Whether so many passes were called in the end, and nobody gave up.
    pub fn went_well(&self, least: [u64; 4]) -> bool {
        self.are(least) && self.given_up.load(Ordering::SeqCst) == 0
    }
}

/// Each pass after a run of a read is held until so many actors have made one; or the first alone is.
#[derive(Drop)]
pub struct Readers {
    pub passes: Passes,
    wanted: u64,
    each: bool,
}

impl Readers {
    pub fn new(wanted: u64, each: bool) -> Readers {
        Readers {
            passes: Passes::new(),
            wanted,
            each,
        }
    }
}

impl Gate for Readers {
    fn pass(&self, actor: u32, kind: StepKind) {
        let number = self.passes.called(actor, kind);
        if kind == StepKind::ReadRun && (self.each || number == 1) {
            self.passes.hold([self.wanted, 0, 0, 0]);
        }
    }
}

/// A commit and a read go on beside each other: the first pass of a commit is held until one of a read was made, that
/// one until three of a commit were, and the third of a commit until two of a read were.
#[derive(Drop)]
pub struct InTurns {
    pub passes: Passes,
}

impl InTurns {
    pub fn new() -> InTurns {
        InTurns {
            passes: Passes::new(),
        }
    }
}

impl Gate for InTurns {
    fn pass(&self, actor: u32, kind: StepKind) {
        match (kind, self.passes.called(actor, kind)) {
            (StepKind::Commit, 1) => self.passes.hold([0, 1, 0, 0]),
            (StepKind::ReadRun, 1) => self.passes.hold([0, 0, 3, 0]),
            (StepKind::Commit, 3) => self.passes.hold([0, 2, 0, 0]),
            _ => {}
        }
    }
}

/// The first pass of a read is held until a job has ended.
#[derive(Drop)]
pub struct BesideAJob {
    pub passes: Passes,
}

impl BesideAJob {
    pub fn new() -> BesideAJob {
        BesideAJob {
            passes: Passes::new(),
        }
    }
}

impl Gate for BesideAJob {
    fn pass(&self, actor: u32, kind: StepKind) {
        if self.passes.called(actor, kind) == 1 && kind == StepKind::ReadRun {
            self.passes.hold([0, 0, 0, 1]);
        }
    }
}
