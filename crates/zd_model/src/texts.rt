//! What a script is refused for, and how a run ends.

use crate::Ending;
use zd_base::{ChunkNo, ZoneNo};

/// Why a line is no line of a script. The first that holds is told.
#[derive(Clone, Copy, Debug, PartialEq, Eq)]
pub enum BadLine {
    /// It has none of the six forms.
    Form,
    /// A number is out of its bounds.
    Number,
    /// The caller is greater than 63.
    Caller,
    /// With it the script passes a limit.
    TooLong,
}

/// Why an image is no volume. The first that holds is told.
#[derive(Clone, Copy, Debug, PartialEq, Eq)]
pub enum NoVolume {
    /// No set of metadata is chosen: no super block is good where it has to be.
    NoSuperBlock,
    /// The layout of the chosen set doesn't fit the disk, or another block could be taken for a super
    /// block.
    Layout,
    /// The entry of this chunk is the first that breaks a rule of the map.
    BadMap { chunk: ChunkNo },
    /// The bit of this block, counted in its zone, is the first that is set against a rule.
    BadBits { zone: ZoneNo, block: u32 },
}

/// How a run ended, as its last line tells it.
#[derive(Clone, Copy, Debug, PartialEq, Eq)]
pub enum Outcome {
    /// A session ended so.
    Ended(Ending),
    /// The words are no command.
    Usage,
    /// The bytes are no script: the first line that breaks a rule, counted from 1, and the first rule
    /// that it breaks. Line 0 stands for the whole.
    BadScript { line: u32, why: BadLine },
    /// The image is no volume.
    NoVolume(NoVolume),
    /// The script couldn't be read.
    Source,
    /// The run needs what isn't built yet.
    NotBuilt,
}
