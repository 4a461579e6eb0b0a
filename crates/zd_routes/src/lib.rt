//! Routes: where a write goes, and what a write, a promotion and the reading of edges make of a
//! volume.
//!
//! The types name the edges of a write. Everything else here is definitions and laws, over plain
//! values and over what a disk tells; no law knows how a volume is held in memory.
#![tactic(auto)]

mod edges;

pub use edges::{Edge, Edges};
