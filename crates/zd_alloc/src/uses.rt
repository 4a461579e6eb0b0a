//! What zones are used for.

/// The use of a zone.
#[derive(Clone, Copy, Debug, PartialEq, Eq)]
pub enum ZoneUse {
    /// It holds metadata, and is never given out.
    Meta,
    /// It can be taken.
    Free,
    /// It was taken.
    Held,
    /// It was released, and the committed map still names it: it is free once a commit has ended.
    Limbo,
}
