//! The block that stands for a head.

ghost use Rattle.std.specs.Prelude.{◌≡◌, ◌+◌, ◌≤◌, ◌==◌, IfOk, length, slice_range};
ghost use Rattle.std.specs.List.{list_all};
ghost use Rattle.zd_model.specs.Bytes.{u32_at, u64_at};
ghost use Rattle.zd_model.specs.Super.{HasBlock, crc_of, decoded, fields_end, has_zero_tail};
ghost use Rattle.zd_model.specs.Super.{is_version, layout_at, super_at};

use crate::{crc32_le, offset};
use byteorder::{ByteOrder, LittleEndian};
use uuid::Uuid;
use zd_model::{Layout, NotSuper, Super};

pub const MAGIC: u32 = 0x445A_4244;

/// The version without a label and identifiers.
pub const BARE_VERSION: u32 = 1;

/// The version with a label and identifiers.
pub const NAMED_VERSION: u32 = 2;

/// The head for which a block of 4096 bytes stands.
///
/// In version 2 any label and any identifier are right; in version 1 they are zeros. Of the reasons
/// why a block is no super block the first one that holds is told: `Magic`, `Version`, `Crc`, `Tail`.
#[tactic(auto, unfolding(zd_model::specs::Super::decoded))]
pub fn decode(block: &[u8]) -> Result<Super, NotSuper>
    requires { length block.now ≡ 4096 }
    ensures value { result ≡ decoded block.now }
    ensures head { IfOk result HasBlock }
{
    if u32_at(block, offset::MAGIC) != MAGIC {
        return Err(NotSuper::Magic);
    }
    if !is_version(u32_at(block, offset::VERSION)) {
        return Err(NotSuper::Version);
    }
    if u32_at(block, offset::CRC) != crc_of(block) {
        return Err(NotSuper::Crc);
    }
    if !has_zero_tail(block) {
        return Err(NotSuper::Tail);
    }
    Ok(super_at(block))
}

/// Whether there is such a version.
fn is_version(version: u32) -> bool
    ensures { result ≡ is_version version }
{
    version == BARE_VERSION || version == NAMED_VERSION
}

/// Where the fields of a version end: version 1 has none after the crc.
#[tactic(auto, unfolding(zd_model::specs::Super::fields_end))]
fn fields_end(version: u32) -> usize
    ensures value { result ≡ fields_end version }
    ensures inside { result ≤ 112 }
{
    if version == BARE_VERSION {
        offset::LABEL
    } else {
        offset::ZEROS
    }
}

/// The crc that a block should have: that of the block with zeros in the place of its crc, started
/// with the lower half of the generation.
fn crc_of(block: &[u8]) -> u32
    requires { length block.now ≡ 4096 }
    ensures { result ≡ crc_of block.now }
{
    let seed = (u64_at(block, offset::GENERATION) & 0xFFFF_FFFF) as u32;
    let front = crc32_le(seed, &block[..offset::CRC]);
    let field = crc32_le(front, &[0; 4]);
    crc32_le(field, &block[offset::LABEL..])
}

/// Whether all bytes after the fields of its version are zeros.
fn has_zero_tail(block: &[u8]) -> bool
    requires { length block.now ≡ 4096 }
    ensures { result ≡ has_zero_tail block.now }
{
    are_zeros(&block[fields_end(u32_at(block, offset::VERSION))..])
}

fn are_zeros(bytes: &[u8]) -> bool
    ensures { result ≡ list_all (λ byte. byte == 0) bytes.now }
{
    bytes.iter().all(|byte| *byte == 0)
}

/// The fields of a block.
fn super_at(block: &[u8]) -> Super
    requires { length block.now ≡ 4096 }
    ensures { result ≡ super_at block.now }
{
    let mut label = [0; 32];
    label.copy_from_slice(&block[offset::LABEL..offset::VOLUME]);
    Super {
        version: u32_at(block, offset::VERSION),
        generation: u64_at(block, offset::GENERATION),
        own: u64_at(block, offset::OWN),
        layout: layout_at(block),
        label,
        volume: uuid_at(block, offset::VOLUME),
        device: uuid_at(block, offset::DEVICE),
    }
}

fn layout_at(block: &[u8]) -> Layout
    requires { length block.now ≡ 4096 }
    ensures { result ≡ layout_at block.now }
{
    Layout {
        meta_blocks: u32_at(block, offset::META_BLOCKS),
        reserved: u32_at(block, offset::RESERVED),
        chunks: u32_at(block, offset::CHUNKS),
        map_blocks: u32_at(block, offset::MAP_BLOCKS),
        bitmap_blocks: u32_at(block, offset::BITMAP_BLOCKS),
    }
}

fn uuid_at(block: &[u8], at: usize) -> Uuid
    requires { at + 16 ≤ length block.now }
    ensures { result ≡ slice_range block.now at (at + 16) }
{
    let mut bytes = [0; 16];
    bytes.copy_from_slice(&block[at..at + 16]);
    Uuid::from_bytes(bytes)
}

#[tactic(auto, unfolding(zd_model::specs::Bytes::u32_at))]
fn u32_at(block: &[u8], at: usize) -> u32
    requires { at + 4 ≤ length block.now }
    ensures { result ≡ u32_at block.now at }
{
    LittleEndian::read_u32(&block[at..at + 4])
}

#[tactic(auto, unfolding(zd_model::specs::Bytes::u64_at))]
fn u64_at(block: &[u8], at: usize) -> u64
    requires { at + 8 ≤ length block.now }
    ensures { result ≡ u64_at block.now at }
{
    LittleEndian::read_u64(&block[at..at + 8])
}
