//! What the blocks of metadata hold.

ghost use Rattle.std.specs.Prelude.{◌↔◌, IsTrue};
ghost use Rattle.zd_model.specs.Super.{FitsVersion};

use uuid::Uuid;
use zd_base::{Layout, ZoneNo};

/// The head of a set of metadata, which stands in the set's first block, its super block.
#[derive(Clone, Copy, Debug, PartialEq, Eq)]
pub struct Super {
    /// The version of the metadata, 1 or 2. In version 1 there is no label and no identifier: the
    /// label is zeros and both identifiers are nil.
    pub version: u32,
    /// How many commits the set has seen. The greater one of two sets is the newer.
    pub generation: u64,
    /// The super block's own number among the blocks of the disk.
    pub own: u64,
    pub layout: Layout,
    /// Text with zeros after it.
    pub label: [u8; 32],
    /// The identifier of the volume.
    pub volume: Uuid,
    /// The identifier of the one device.
    pub device: Uuid,
}

impl Super {
    /// Whether there is such a version, and the label and the identifiers fit it: in version 1 the
    /// label is zeros and both identifiers are nil. Only such a head has a super block.
    pub fn fits_version(&self) -> bool
        ensures { IsTrue result ↔ FitsVersion self.now }
    {
        match self.version {
            1 => self.label == [0; 32] && self.volume.is_nil() && self.device.is_nil(),
            2 => true,
            _ => false,
        }
    }
}

/// The zones of a chunk, in the map.
#[derive(Clone, Copy, Debug, PartialEq, Eq)]
pub struct MapEntry {
    /// The chunk's zone, none where the chunk was never written.
    pub zone: Option<ZoneNo>,
    /// The conventional zone that takes what the chunk's sequential zone can't.
    pub buffer: Option<ZoneNo>,
}

/// Why a block is no super block. The first that holds is told.
#[derive(Clone, Copy, Debug, PartialEq, Eq)]
pub enum NotSuper {
    /// It doesn't begin with the magic number.
    Magic,
    /// Its version is neither 1 nor 2.
    Version,
    /// Its crc is that of another block.
    Crc,
    /// A byte after the fields of its version isn't zero.
    Tail,
}
