//! The tables of a volume in the blocks of a set: the map and the bitmaps.
//!
//! A zone's bitmap is one block, or two where zones have 65,536 blocks: its parts.
//!
//! # What is proved
//!
//! `VolumeTables` is seen as the bytes of the used blocks of a set. `entry`, `bits`, `valid` and
//! `run_at` are exact, and so are `weight` and `first_valid`, which count and search nothing: what
//! they answer is kept for each bitmap block. `set_entry` changes one entry (`ChangesEntry`),
//! `set_range` and `clear_range` the bits of one range of a zone (`ChangesBits`), and nothing else:
//! also bits and entries that belong to no block and no chunk stay, and other blocks of the set do
//! (`SetsEntry`, `SetsBits`). The answer of a change of bits says exactly in which of both parts a
//! bit was changed (`TellsParts`). No call but `new` takes memory.
#![tactic(auto)]

mod part;
mod tables;
mod volume_tables;

pub use part::ChangedParts;
pub use tables::{bits, entry};
pub use volume_tables::VolumeTables;
