//! The steps in which all work on a volume goes on, one at a time.

use crate::numbers::Why;

/// What an actor would rather do, where there is a choice.
#[derive(Clone, Copy, Debug, PartialEq, Eq)]
pub enum Prefer {
    /// Pieces first, then commits, then jobs.
    Pieces,
    /// Commits first, then jobs, then pieces.
    Commits,
    /// Jobs first, then commits, then pieces.
    Jobs,
}

/// What a step did.
#[derive(Clone, Copy, Debug, PartialEq, Eq)]
pub enum StepKind {
    /// A run of a read was read, or found to be zeros.
    ReadRun,
    /// A block that a write touches in part was read whole.
    MergeRead,
    /// A piece was written.
    Write,
    /// A piece was discarded.
    Discard,
    /// A job began, with the zone to which it copies.
    TakeZone,
    /// A job read a run of blocks that it copies.
    CopyRead,
    /// A job wrote blocks to where it copies.
    CopyWrite,
    /// A job ended: the chunk has its copy.
    Remap,
    /// A job was given up.
    Abandon,
    /// The next call of a commit was made.
    Commit,
    /// A piece past the device was answered.
    Enter,
    /// A block of metadata that a step needs was read into a frame.
    Load,
}

/// What a step answers.
#[derive(Clone, Copy, Debug, PartialEq, Eq)]
pub enum Stepped {
    /// It was made.
    Did(StepKind),
    /// There is nothing for this actor to do before another has stepped.
    Idle,
    /// All was done before.
    Over,
    /// The run has stopped, with this step or before.
    Stopped(Why),
}
