//! Checking a disk: whether its two sets of metadata say the same.
//!
//! # What is proved
//!
//! `check` makes no writing call (`reads`). Its verdict is that of the image that the disk reads as
//! (`ok`, `IsVerdict`), which stands in the definition's words: `Super` where the other super block is
//! bad or differs beyond its own number, else `Block` with the least used block that differs, else
//! `Same`. A disk that is no volume has none, and is refused as `zd_examine::examine` refuses it (`err`);
//! `Device` comes only where the count of faults rose (`cause`).
//!
//! `verdict_laws`: each volume has one verdict and no other, an image that is refused for what it holds
//! has none, and the verdict is `Same` exactly where making the other set equal leaves the image as it is.
#![tactic(auto)]

mod checking;
mod comparing;
mod laws;

pub use checking::check;
pub use comparing::Verdict;
pub use laws::verdict_laws;
