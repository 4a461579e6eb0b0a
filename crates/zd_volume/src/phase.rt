//! How far a commit is.

use zd_base::Why;

/// The phase of a commit. In `Log` and `InPlace` stands the number of the block of the set that is
/// written next.
#[derive(Clone, Copy, Debug, PartialEq, Eq)]
pub enum Phase {
    /// No commit is under way.
    Idle,
    /// Dirty blocks are written to set 1.
    Log(u32),
    /// A flush is next: set 1 has all blocks.
    LogFlush,
    /// The super block of set 1 is next.
    LogSuper,
    /// A flush is next, after which set 1 is the chosen one.
    LogSuperFlush,
    /// Dirty blocks are written to set 0.
    InPlace(u32),
    /// A flush is next: set 0 has all blocks.
    InPlaceFlush,
    /// The super block of set 0 is next.
    InPlaceSuper,
    /// The flush that ends the commit is next.
    InPlaceSuperFlush,
}

/// What a step of a commit did.
#[derive(Clone, Copy, Debug, PartialEq, Eq)]
pub enum Committed {
    /// Its call was made, and another one is left.
    More,
    /// Its last call was made.
    Ended,
    /// Its call failed, or there is no next generation. The volume is stopped.
    Stopped(Why),
}
