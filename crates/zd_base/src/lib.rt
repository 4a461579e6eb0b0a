//! The numbers that every layer speaks of: zones and chunks, the geometry of a disk, the layout of a
//! volume's metadata, the steps of a run, and the plain errors.
//!
//! # What is proved
//!
//! `Geometry::new` accepts exactly the right numbers, the size refused first. `Layout::fits`,
//! `for_format`, `set_zones`, `used_blocks` and the readers are exact.
#![tactic(auto)]

mod geometry;
mod layout;
mod numbers;
mod steps;

pub use geometry::{BadGeometry, Geometry, Kind};
pub use layout::Layout;
pub use numbers::{BLOCK, ChunkNo, Failed, Memory, SECTOR, Status, Why, ZoneNo};
pub use steps::{Prefer, StepKind, Stepped};

#[cfg(test)]
mod tests;
