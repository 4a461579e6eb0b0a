//! Super blocks: the head of a set of metadata as a block of 4096 bytes, and the crc that guards it.
//!
//! # What is proved
//!
//! `decode` answers the record, or the first rule that is broken, exactly as `decoded` says, of
//! version 1 or 2. `encode` writes `block_of`, the one block of a record that fits its version
//! (`FitsVersion`, its condition). `crc32_le` is the definition by bits.
#![tactic(auto)]

mod block;
mod crc;
mod encoding;
mod offset;
mod table;

pub use block::{BARE_VERSION, NAMED_VERSION, decode};
pub use crc::crc32_le;
pub use encoding::encode;
pub use zd_model::{Layout, NotSuper, Super};

#[cfg(test)]
mod tests;
