//! Plans and the pieces that they are cut into, the patterns of sectors, and histories.
//!
//! # What is proved
//!
//! `pieces` is `pieces_of`, cut in sectors; `pattern` is the pattern. `Plan` and `History` are
//! lists, exactly, and a push with room left answers Ok.
#![tactic(auto)]

mod cut;
mod history;
mod plan;
#[cfg(test)]
mod tests;
mod what;
mod words;

pub use cut::pieces;
pub use history::History;
pub use plan::Plan;
pub use what::{at_sectors, ends_past, first_sector, sector_count};
pub use words::pattern;
pub use zd_base::{Memory, Why};
pub use zd_model::{Bytes, Ending, Entry, Piece, Reply, Request, What};
