//! What a line of a case asks for.

use uuid::Uuid;
use zd_base::{Geometry, ZoneNo};
use zd_memdisk::{Choices, Fail};

/// What stands in sectors.
#[derive(Drop)]
pub enum Filling {
    /// The same byte everywhere.
    Full(u8),
    /// The pattern of a seed, from this sector of the logical device on.
    Pattern {
        /// The seed.
        seed: u32,
        /// The first sector of the logical device.
        first: u64,
    },
}

/// Sectors of a zone, and what stands in them.
#[derive(Drop)]
pub struct Sectors {
    /// The zone.
    pub zone: u32,
    /// The first sector, counted in the zone.
    pub start: u32,
    /// How many there are.
    pub count: u32,
    /// What stands in them.
    pub filling: Filling,
}

/// A number of calls of a run.
#[derive(Clone, Copy, Debug, PartialEq, Eq)]
pub struct Count {
    /// Whether it counts from the end of opening, and not from the start of the run.
    pub opened: bool,
    /// The number.
    pub number: u64,
}

/// A stop in the last run.
#[derive(Drop)]
pub struct Stop {
    /// How many writing calls of the run had returned.
    pub at: Count,
    /// Which of the images that may be left is meant.
    pub choices: Choices,
}

/// A change of what the disk holds.
#[derive(Drop)]
pub enum Build {
    /// A new disk, of zeros.
    Blank(Geometry),
    /// A volume of zeros with so many reserved zones and this identifier.
    Format {
        /// The reserved zones.
        reserved: u32,
        /// The identifier of the volume.
        volume: Uuid,
    },
    /// Sectors written by one call.
    Put(Sectors),
    /// Bytes of a block of a conventional zone.
    Bytes {
        /// The zone.
        zone: u32,
        /// The block, counted in the zone.
        block: u32,
        /// The first byte, counted in the block.
        offset: usize,
        /// The bytes.
        bytes: Vec<u8>,
    },
    /// Bytes of the super block in front of a zone, whose crc is then made right.
    Field {
        /// The zone.
        zone: u32,
        /// The first byte.
        offset: usize,
        /// The bytes.
        bytes: Vec<u8>,
    },
    /// The entry of a chunk, in both sets of metadata.
    Entry {
        /// The chunk.
        chunk: u32,
        /// Its zone, as it stands in a map.
        zone: u32,
        /// Its buffer.
        buffer: u32,
    },
    /// The first bytes of the bitmap of a zone, in both sets of metadata.
    Bits {
        /// The zone.
        zone: u32,
        /// The bytes.
        bytes: Vec<u8>,
    },
    /// A flush.
    Flush,
}

/// What the next run is given.
#[derive(Drop)]
pub enum Order {
    /// A call of the disk that fails, counted from the start of the run.
    FailCall(Fail),
    /// A call of the source that fails.
    FailSource(u64),
    /// A call of the sink that fails.
    FailSink(u64),
    /// The most bytes that the source gives by a call.
    Gives(usize),
    /// The words, in place of `img s`.
    Words(Vec<String>),
}

/// What must be so.
#[derive(Drop)]
pub enum Ask {
    /// What the last run printed, with the status of its ending line.
    Prints(String),
    /// The status of the last run, which printed nothing.
    Silent(u8),
    /// The writing calls of the last run.
    Calls(Count),
    /// The reading calls of the last run.
    Reads(Count),
    /// The pointer of a sequential zone, in sectors.
    Pointer(ZoneNo, u32),
    /// What stands in sectors.
    Holds(Sectors),
    /// Both sets of metadata are the same, in this generation.
    Equal(u64),
    /// The disk holds what the image of this name holds.
    Same(String),
    /// The disk holds what it held when the last run began.
    Unchanged,
}

/// A line of a case.
#[derive(Drop)]
pub enum Step {
    /// Goes on with a copy of the image of this name.
    On(String),
    /// Keeps a copy of the disk as the image of this name.
    Keep(String),
    /// Changes what the disk holds.
    Build(Build),
    /// Gives the next run something.
    Order(Order),
    /// Runs a script.
    Run(String),
    /// Runs a command of administration.
    Admin(Vec<String>),
    /// Asks for something.
    Ask(Ask),
    /// Goes on with what a stop in the last run leaves.
    Stop(Stop),
    /// Goes on with the disk from which the last stop was taken.
    Back,
}
