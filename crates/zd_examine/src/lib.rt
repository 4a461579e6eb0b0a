//! Examining a disk: what its metadata says, and whether it follows the rules; and opening it, by which both
//! sets of metadata become equal. It stands on no volume.
#![tactic(auto)]

mod bitmap;
mod examining;
mod map;
mod opening;
mod padding;
mod pointers;
mod roles;

pub use bitmap::first_bad_bit;
pub use examining::{Image, OpenFault, examine};
pub use map::{first_bad_chunk, give_roles, is_new, is_right_buffer};
pub use opening::{open, settle_disk};
pub use padding::pad;
pub use pointers::read_pointers;
pub use roles::Role;
