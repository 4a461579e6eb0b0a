//! Where the fields of a super block begin, in bytes. Numbers are little-endian.

/// The magic number, of four bytes.
pub const MAGIC: usize = 0;

/// The version, of four bytes.
pub const VERSION: usize = 4;

/// The generation, of eight bytes.
pub const GENERATION: usize = 8;

/// The super block's own number among the blocks of the disk, of eight bytes.
pub const OWN: usize = 16;

/// The blocks of the set, the first of the layout's five numbers of four bytes each.
pub const META_BLOCKS: usize = 24;

/// The reserved sequential zones.
pub const RESERVED: usize = 28;

/// The chunks.
pub const CHUNKS: usize = 32;

/// The blocks of the map.
pub const MAP_BLOCKS: usize = 36;

/// The blocks of the bitmaps.
pub const BITMAP_BLOCKS: usize = 40;

/// The crc, of four bytes.
pub const CRC: usize = 44;

/// The label, of 32 bytes.
pub const LABEL: usize = 48;

/// The identifier of the volume, of 16 bytes.
pub const VOLUME: usize = 80;

/// The identifier of the device, of 16 bytes.
pub const DEVICE: usize = 96;

/// Zeros, up to the block's end.
pub const ZEROS: usize = 112;
