//! Formatting: a disk becomes a volume that nobody wrote.
//!
//! # What is proved
//!
//! After Ok of `format` the disk, and every image that a stop may then leave, is a well-formed
//! volume of zeros whose two heads have version 2, generation 1, the layout that was answered,
//! the label and the identifier that were given, and the identifier of the device that follows
//! from it (`ok`, a `Holds` of `IsFresh`). Ok comes only where a layout for so many reserved
//! zones fits the geometry that was told (`layout`), `Unfit` only where none does (`unfit`).
//! After `Unfit` and `Memory` nothing was written (`same`, `OnlyReads`).
#![tactic(auto)]

mod formatting;
mod head;
mod runs;
mod sets;

pub use formatting::{FormatFault, Formatted, format, format_disk};
pub use head::device_of;
pub use zd_model::Layout;
