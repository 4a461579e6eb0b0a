//! What a zoned volume is, and what its requests mean.
//!
//! # What is proved
//!
//! The laws about the definitions. Super blocks of both versions and records correspond one to
//! one, and the records that have one are those whose fields have their sizes and fit their
//! version. A request touches the blocks in which it has a sector, and pieces cut it. A script
//! has one plan, a refused text one refusal. An output has one history and one outcome. A first
//! bad chunk or bit is found exactly where the rules of maps and bitmaps are broken. What an
//! image holds decides the chosen set and its content. `Bytes` has exact calls; `What::cover` is
//! exact. `docs/DEFINITIONS.md` is a guided reading.
#![tactic(auto)]

mod bytes;
pub mod laws;
mod metadata;
mod requests;
mod texts;

pub use bytes::Bytes;
pub use metadata::{MapEntry, NotSuper, Super};
pub use requests::{Ending, Entry, Piece, Reply, Request, What};
pub use texts::{BadLine, NoVolume, Outcome};
pub use zd_base::{BLOCK, ChunkNo, Layout, SECTOR, Why, ZoneNo};
