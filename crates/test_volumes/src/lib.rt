//! What the crates of tests share: volumes that are written block by block, image files, words and texts. In their
//! texts `;` is the line feed byte.
#![tactic(auto)]

pub mod files;
pub mod texts;
pub mod volumes;
