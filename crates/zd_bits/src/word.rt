//! Bits read as words of 64 blocks.

ghost use Rattle.std.specs.Prelude.{◌≡◌, ℕ, ◌+◌, ◌*◌, ◌%◌, ◌<◌, ◌≤◌, ◌^◌, length, slice_index, true};
ghost use Rattle.zd_bits.specs.Words.{IsWord, IsFirstOne};

/// The blocks of a word.
pub(crate) const WORD: u32 = 64;

/// The word of blocks `64 * i` to `64 * i + 63`: a 1 for each valid block, and 0 behind the bits.
pub(crate) fn word_at(bits: &[u8], i: usize) -> u64
    requires { 8 * i ≤ length bits.now }
    ensures { IsWord bits.now true i result }
{
    u64::from_le_bytes(bytes_at(bits, 8 * i))
}

/// The eight bytes from byte `at` on, with zeros behind the last.
fn bytes_at(bits: &[u8], at: usize) -> [u8; 8]
    requires { at ≤ length bits.now }
    ensures { (j : ℕ) → j < 8 → slice_index result j ≡ slice_index bits.now (at + j) }
{
    let rest = &bits[at..];
    match rest.first_chunk::<8>() {
        Some(bytes) => *bytes,
        None => padded(rest),
    }
}

/// Fewer than eight bytes, with zeros behind them.
fn padded(rest: &[u8]) -> [u8; 8]
    requires { length rest.now < 8 }
    ensures { (j : ℕ) → j < 8 → slice_index result j ≡ slice_index rest.now j }
{
    let mut bytes = [0; 8];
    bytes[..rest.len()].copy_from_slice(rest);
    bytes
}

/// The same word with a 1 for each block that has this bit.
pub(crate) fn word_with(bits: &[u8], i: usize, bit: bool) -> u64
    requires { 8 * i ≤ length bits.now }
    ensures { IsWord bits.now bit i result }
{
    let word = word_at(bits, i);
    if bit { word } else { !word }
}

/// The place of the first 1 of a word from bit `low` on, else 64.
pub(crate) fn first_one(word: u64, low: u32) -> u32
    requires { low < 64 }
    ensures { IsFirstOne word low result }
{
    (word & (u64::MAX << low)).trailing_zeros()
}

/// The `count` least bits of a word.
pub(crate) fn low_bits(word: u64, count: u32) -> u64
    requires { count < 64 }
    ensures { result ≡ word % 2 ^ count }
{
    word & ((1 << count) - 1)
}
