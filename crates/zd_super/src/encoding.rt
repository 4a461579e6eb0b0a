//! The block of a head.

ghost use Rattle.std.specs.Prelude.{◌≡◌, ◌+◌, ◌≤◌, ◌++◌, ℕ, [], length, take, drop};
ghost use Rattle.std.specs.Int.{w32, w64, to_le_bytes};
ghost use Rattle.zd_model.specs.Super.{FitsVersion, before_crc, behind_crc, block_of, spelled};

use crate::block::MAGIC;
use crate::{crc32_le, offset};
use zd_base::BLOCK;
use zd_model::{Layout, Super};

/// Makes `out`, of 4096 bytes, the one super block that stands for a head that fits its version, as
/// [`Super::fits_version`] tells.
#[tactic(auto, unfolding(zd_model::specs::Super::block_of))]
pub fn encode(head: &Super, out: &mut [u8])
    requires fits { FitsVersion head.now }
    requires length { length out.old ≡ 4096 }
    ensures { out.new ≡ block_of head.now }
{
    put_fields(head, out);
    let seed = (head.generation & 0xFFFF_FFFF) as u32;
    let crc = crc32_le(seed, out);
    put(out, offset::CRC, &crc.to_le_bytes());
}

/// Writes all fields, with a crc of 0, and zeros behind them.
#[tactic(auto, unfolding(zd_model::specs::Super::behind_crc))]
fn put_fields(head: &Super, out: &mut [u8])
    requires { length out.old ≡ 4096 }
    ensures { out.new ≡ spelled head.now 0 }
{
    put_numbers(head, out);
    put(out, offset::CRC, &[0; 4]);
    put(out, offset::LABEL, &head.label);
    put(out, offset::VOLUME, head.volume.as_bytes());
    put(out, offset::DEVICE, head.device.as_bytes());
    put(out, offset::ZEROS, &[0; BLOCK - offset::ZEROS]);
}

/// Writes the numbers before the crc.
fn put_numbers(head: &Super, out: &mut [u8])
    requires { length out.old ≡ 4096 }
    ensures front { take 44 out.new ≡ before_crc head.now }
    ensures length { length out.new ≡ 4096 }
{
    put_u32(out, offset::MAGIC, MAGIC);
    put_u32(out, offset::VERSION, head.version);
    put_u64(out, offset::GENERATION, head.generation);
    put_u64(out, offset::OWN, head.own);
    put_layout(&head.layout, out);
}

/// Writes the numbers of the layout.
fn put_layout(layout: &Layout, out: &mut [u8])
    requires { length out.old ≡ 4096 }
    ensures front { take 44 out.new ≡ take 24 out.old ++ (to_le_bytes w32 layout.now.meta_blocks
        ++ (to_le_bytes w32 layout.now.reserved ++ (to_le_bytes w32 layout.now.chunks
        ++ (to_le_bytes w32 layout.now.map_blocks ++ to_le_bytes w32 layout.now.bitmap_blocks)))) }
    ensures length { length out.new ≡ 4096 }
{
    put_u32(out, offset::META_BLOCKS, layout.meta_blocks);
    put_u32(out, offset::RESERVED, layout.reserved);
    put_u32(out, offset::CHUNKS, layout.chunks);
    put_u32(out, offset::MAP_BLOCKS, layout.map_blocks);
    put_u32(out, offset::BITMAP_BLOCKS, layout.bitmap_blocks);
}

fn put_u32(out: &mut [u8], at: usize, number: u32)
    requires { at + 4 ≤ length out.old }
    ensures front { take (at + 4) out.new ≡ take at out.old ++ to_le_bytes w32 number }
    ensures length { length out.new ≡ length out.old }
{
    put(out, at, &number.to_le_bytes());
}

fn put_u64(out: &mut [u8], at: usize, number: u64)
    requires { at + 8 ≤ length out.old }
    ensures front { take (at + 8) out.new ≡ take at out.old ++ to_le_bytes w64 number }
    ensures length { length out.new ≡ length out.old }
{
    put(out, at, &number.to_le_bytes());
}

/// Writes bytes from byte `at` on.
fn put<const N: usize>(out: &mut [u8], at: usize, bytes: &[u8; N])
    requires { at + N ≤ length out.old }
    ensures value { out.new ≡ take at out.old ++ (bytes.now ++ drop (at + N) out.old) }
    ensures front { take (at + N) out.new ≡ take at out.old ++ bytes.now }
    ensures length { length out.new ≡ length out.old }
{
    out[at..at + N].copy_from_slice(bytes);
}
