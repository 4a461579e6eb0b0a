//! What the benchmarks share: places round and round, writes by the bare calls of a disk, and requests of one block each
//! that one actor answers over a volume.
#![tactic(auto)]

mod bare;
mod places;
mod runs;

pub use bare::write_bare;
pub use places::{next_of, words};
pub use runs::{Asked, answer_all};
