//! The use of each zone of a volume: which are free, which are held, which wait for a commit.
//!
//! # What is proved
//!
//! `Alloc` is seen as the list of the uses of all zones and the list of all chunks, least
//! recently written first. `take_conventional` and `take_sequential` take the least free zone of
//! their kind (`TakesLeast`), and answer None exactly where none is free; `least_free`, `free`,
//! `limbo` and `state` are exact. A released zone goes into limbo exactly where the flag says so,
//! and `end_limbo` frees all of limbo. The use order starts as 0, 1, 2, ..; `touch` puts a chunk
//! last and leaves the order of the others (`PutsLast`), `oldest` is the first, `after` is what
//! stands right after a chunk, None exactly for the last (`IsAfter`); no other call changes it.
//! No call but `new` takes memory. What is kept beside the lists stands in invariants and in no
//! clause.
#![tactic(auto)]

mod alloc;
mod candidates;
mod class_trees;
mod flags;
mod job_class;
mod least_tree;
mod links;
mod order;
mod uses;
mod words;
mod zones;

pub use alloc::Alloc;
pub use candidates::Candidates;
pub use job_class::JobClass;
pub use uses::ZoneUse;

#[cfg(test)]
mod tests;
