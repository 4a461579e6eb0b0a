//! The work of an administrator on a disk, from words to the last line and the exit status.
//!
//! # What is proved
//!
//! `admin`, over any disk and sink: status 1 exactly where the words aren't a command, and then the very disk comes
//! back (`usage`, `same`). What each other status says is one record (`status`, a `StatusSays`): at 0 and 6 what was
//! asked for was done, so a disk that was formatted is the volume that was asked for, as is every image that a stop
//! may then leave, and one that was checked is a volume with both sets the same; 3 only where what was asked for
//! needs a volume and the disk is none, 9 only where its sets differ, 10 only where there is no room, and then
//! nothing was written; 4 and 6 only where the count of the disk, of the sink rose (6 within `report`). A check, and
//! a volume that is shown, write nothing whatever the status (`kept`).
//!
//! The run ended in its words, in examining the disk, or in the work, with an outcome whose cause holds, and
//! the output is that of the outcome, whole or a prefix, or `end 7 memory` (`report`). Right words and no
//! failure give the outcome that geometry and image decide, or 7 (`complete`). `one_outcome` is the law that
//! the causes exclude each other. `paths` gives the words that stand for the files, none exactly where the
//! words aren't a command.
//!
//! `volume_status` makes no writing call, and answers the chosen head of a well-formed volume, how many of its chunks
//! have a zone and a buffer, and how many of its data zones no chunk names (`IsStatus`).
#![tactic(auto)]

mod answers;
mod laws;
mod operations;
mod outcome;
mod runs;
mod texts;
mod volume;
mod words;

pub use laws::{counts_of_rows, one_outcome};
pub use outcome::{AdminWork, Difference, Outcome};
pub use runs::admin;
pub use volume::{VolumeStatus, volume_status};
pub use words::paths;
