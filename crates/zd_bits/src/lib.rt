//! Bitmaps: which blocks of a zone are valid.
//!
//! Bits are a slice of whole bitmap blocks of 4096 bytes: all bitmap blocks of a zone together, or
//! some of them. Block `n` is bit `n % 8` of byte `n / 8`, the least bit first. A set bit is a
//! valid block. Blocks are counted from the slice's first bit on, and every range of blocks ends
//! inside the slice. No call needs whole bitmap blocks: all bytes are bits.
//!
//! # What is proved
//!
//! `valid`, `set_range`, `clear_range`, `first_valid`, `run_at`, `weight` and `weight_in` are exact.
#![tactic(auto)]

ghost use Rattle.std.specs.Prelude.{◌≡◌, ◌+◌, ◌*◌, ◌<◌, ◌≤◌, ◌↔◌, length, true, false, IsTrue};
ghost use Rattle.std.specs.Prelude.{IfNone, IfSome};
ghost use Rattle.zd_model.specs.Tables.{is_set};
ghost use Rattle.zd_bits.specs.Bits.{AllAre, SomeIs, GivesOnly, IsFirst, IsFirstValid, IsBitRun};
ghost use Rattle.zd_bits.specs.Bits.{weight_of, weight_between};

mod put;
mod word;

use put::put;
use word::{WORD, first_one, low_bits, word_at, word_with};

/// Whether block `block` is valid.
pub fn valid(bits: &[u8], block: u32) -> bool
    requires inside { block < 8 * length bits.now }
    ensures { result ≡ is_set bits.now block }
{
    (bits[block as usize / 8] >> (block % 8)) & 1 == 1
}

/// Makes `count` blocks from block `from` on valid. The answer says whether one wasn't.
pub fn set_range(bits: &mut [u8], from: u32, count: u32) -> bool
    requires inside { from + count ≤ 8 * length bits.old }
    ensures value { IsTrue result ↔ SomeIs false bits.old from (from + count) }
    ensures bits { GivesOnly true from (from + count) bits.old bits.new }
    ensures same { result ≡ false → bits.new ≡ bits.old }
{
    put(bits, from as usize, from as usize + count as usize, true)
}

/// Makes `count` blocks from block `from` on invalid. The answer says whether one was valid.
pub fn clear_range(bits: &mut [u8], from: u32, count: u32) -> bool
    requires inside { from + count ≤ 8 * length bits.old }
    ensures value { IsTrue result ↔ SomeIs true bits.old from (from + count) }
    ensures bits { GivesOnly false from (from + count) bits.old bits.new }
    ensures same { result ≡ false → bits.new ≡ bits.old }
{
    put(bits, from as usize, from as usize + count as usize, false)
}

/// The first valid block from block `from` on, below `end`. None exactly where none is valid there.
pub fn first_valid(bits: &[u8], from: u32, end: u32) -> Option<u32>
    requires inside { end ≤ 8 * length bits.now }
    ensures some { IfSome result (λ n. IsFirstValid bits.now from end n) }
    ensures none { IfNone result (AllAre false bits.now from end) }
{
    if from >= end {
        return None;
    }
    let n = first_with(bits, from, end, true);
    if n < end { Some(n) } else { None }
}

/// Whether block `from` is valid, and how many blocks from there on, below `end`, are like it up to
/// the first that isn't.
pub fn run_at(bits: &[u8], from: u32, end: u32) -> (bool, u32)
    requires some { from < end }
    requires inside { end ≤ 8 * length bits.now }
    ensures { IsBitRun bits.now from end result.0 result.1 }
{
    let bit = valid(bits, from);
    (bit, first_with(bits, from, end, !bit) - from)
}

/// How many blocks below `end` are valid.
pub fn weight(bits: &[u8], end: u32) -> u32
    requires inside { end ≤ 8 * length bits.now }
    ensures { result ≡ weight_of bits.now end }
{
    let mut weight = 0;
    for i in 0..end / WORD {
        weight += word_at(bits, i as usize).count_ones();
    }
    let last = word_at(bits, (end / WORD) as usize);
    weight + low_bits(last, end % WORD).count_ones()
}

/// How many blocks from block `from` on, below `end`, are valid.
pub fn weight_in(bits: &[u8], from: u32, end: u32) -> u32
    requires order { from ≤ end }
    requires inside { end ≤ 8 * length bits.now }
    ensures { result ≡ weight_between bits.now from end }
{
    let rest = &bits[from as usize / 8..];
    weight(rest, end - from / 8 * 8) - weight(rest, from % 8)
}

/// The first block from `from` below `end` that has this bit, else `end`.
fn first_with(bits: &[u8], from: u32, end: u32, bit: bool) -> u32
    requires order { from ≤ end }
    requires inside { end ≤ 8 * length bits.now }
    ensures { IsFirst bits.now from end bit result }
{
    for i in from / WORD..end.div_ceil(WORD) {
        let word = word_with(bits, i as usize, bit);
        let place = first_one(word, from.saturating_sub(WORD * i));
        if place < WORD {
            return (WORD * i + place).min(end);
        }
    }
    end
}

#[cfg(test)]
mod tests;
