//! The crc of super blocks, a byte at a time: the low byte of the crc and the next byte decide
//! together, by a table, what is added to the rest of the crc.

ghost use Rattle.std.specs.Prelude.{◌≡◌, bit_xor};
ghost use Rattle.zd_model.specs.Crc.{crc_bits, crc32_le};

use crate::table::TABLE;

/// The reflected crc of `bytes` with the polynomial 0xEDB88320, started with `seed`, with no
/// inversion before or after. So the crc of a list goes on from that of its front.
pub fn crc32_le(seed: u32, bytes: &[u8]) -> u32
    ensures { result ≡ crc32_le seed bytes.now }
{
    let mut crc = seed;
    for byte in bytes {
        crc = step(crc, *byte);
    }
    crc
}

/// The crc after one byte more.
fn step(crc: u32, byte: u8) -> u32
    ensures { result ≡ crc_bits 8 (bit_xor crc byte) }
{
    let low = ((crc ^ u32::from(byte)) & 0xFF) as u8;
    (crc >> 8) ^ eight_bits(low)
}

/// What eight bits make of a crc whose upper bytes are zero.
fn eight_bits(byte: u8) -> u32
    ensures { result ≡ crc_bits 8 byte }
{
    TABLE[usize::from(byte)]
}
