//! What callers ask for, and what they are answered.

ghost use Rattle.std.specs.Prelude.{◌≡◌, ◌+◌, ◌/◌, ◌%◌};
ghost use Rattle.zd_base.specs.Layout.{rounded_up};

use crate::Bytes;
use zd_base::Why;

/// The sectors of a block.
const BLOCK_SECTORS: u64 = 8;

/// What a request asks for. Places are blocks of the logical device, or its sectors: eight to a block.
#[derive(Clone, Copy, Debug, PartialEq, Eq)]
pub enum What {
    Read { block: u64, count: u32 },
    /// Each sector gets its pattern under the seed.
    Write { block: u64, count: u32, seed: u32 },
    Discard { block: u64, count: u32 },
    Flush,
    /// A read that may begin and end within blocks.
    ReadSectors { sector: u64, count: u32 },
    /// A write that may begin and end within blocks. Each sector gets its pattern under the seed.
    WriteSectors { sector: u64, count: u32, seed: u32 },
}

/// A request, as a caller makes it.
#[derive(Clone, Copy, Debug, PartialEq, Eq)]
pub struct Request {
    pub caller: u8,
    pub what: What,
}

/// The part of a request that lies in one chunk. A flush is one piece, and so is a request that
/// ends past the device.
#[derive(Clone, Copy, Debug, PartialEq, Eq)]
pub struct Piece {
    pub caller: u8,
    /// The request's number, counted from 1.
    pub request: u32,
    /// The piece's number in its request, counted from 0.
    pub piece: u32,
    pub what: What,
    /// Whether the request ends past the device.
    pub range: bool,
}

/// The first block that so many sectors touch, and how many they touch.
fn blocks_of(sector: u64, count: u32) -> (u64, u32)
    ensures { result ≡ (sector / 8, rounded_up (sector % 8 + count) 8) }
{
    let touched = (sector % BLOCK_SECTORS + u64::from(count)).div_ceil(BLOCK_SECTORS);
    (sector / BLOCK_SECTORS, touched as u32)
}

impl What {
    ghost use Rattle.zd_model.specs.Requests.{first_block, block_count};

    /// The first block that is touched, in part or whole, and how many are. A flush touches none.
    pub fn cover(self) -> (u64, u32)
        ensures first { result.0 ≡ first_block self }
        ensures count { result.1 ≡ block_count self }
    {
        match self {
            What::Read { block, count }
            | What::Write { block, count, .. }
            | What::Discard { block, count } => (block, count),
            What::Flush => (0, 0),
            What::ReadSectors { sector, count } | What::WriteSectors { sector, count, .. } => {
                blocks_of(sector, count)
            }
        }
    }
}

impl Piece {
    ghost use Rattle.zd_model.specs.Requests.{first_block, block_count};

    /// The first block that the piece touches, in part or whole, and how many it touches. A flush
    /// touches none.
    pub fn cover(&self) -> (u64, u32)
        ensures first { result.0 ≡ first_block self.now.what }
        ensures count { result.1 ≡ block_count self.now.what }
    {
        self.what.cover()
    }
}

/// The answer to a piece.
#[derive(Drop)]
pub enum Reply {
    /// The bytes of a read.
    Got(Bytes),
    Done,
    /// The request ends past the device. Nothing was done.
    Range,
    /// A call of the disk failed.
    Fault,
}

/// A piece that was answered.
#[derive(Drop)]
pub struct Entry {
    pub caller: u8,
    pub request: u32,
    pub piece: u32,
    pub what: What,
    pub reply: Reply,
    /// How many writing calls had returned since opening ended.
    pub at: u64,
}

/// How a session ended.
#[derive(Clone, Copy, Debug, PartialEq, Eq)]
pub enum Ending {
    /// All was done.
    Ok,
    Stopped(Why),
}
