//! One block of a zone's bitmap, and what is counted of it.

ghost use Rattle.std.specs.Prelude.{◌≡◌, ℕ, ◌+◌, ◌-◌, ◌*◌, ◌<◌, ◌≤◌, length, min};
ghost use Rattle.std.specs.Prelude.{false, IfOk};
ghost use Rattle.std.specs.Option.{option_map_or};
ghost use Rattle.zd_bits.specs.Bits.{GivesOnly, Tells};
ghost use Rattle.zd_sets.specs.Blocks.{blocks_of};
ghost use Rattle.zd_tables.specs.Counts.{IsCounted, IsFirstWithout, count_at};

use std::alloc::{AllocError, Global};
use zd_bits::{clear_range, first_valid, set_range, weight, weight_in};
use zd_sets::SetBlocks;

/// The bits of a bitmap block.
pub(crate) const BITS: u32 = 32_768;

/// Which parts of a zone's bitmap were changed. A part is one bitmap block.
#[derive(Clone, Copy, Debug, PartialEq, Eq)]
pub struct ChangedParts {
    /// The one with the bits of blocks 0 to 32,767.
    pub first: bool,
    /// The one with those of blocks 32,768 to 65,535.
    pub second: bool,
}

/// What is counted of a bitmap block, of the bits that belong to blocks of its zone.
#[derive(Clone, Copy, Debug, PartialEq, Eq)]
pub(crate) struct PartCount {
    /// How many are set.
    pub(crate) weight: u32,
    /// The first that is set.
    pub(crate) first: Option<u32>,
}

/// What is counted of no bits.
pub(crate) const NOTHING: PartCount = PartCount {
    weight: 0,
    first: None,
};

/// Counts the bits below `end`, in one pass over them.
pub(crate) fn counted(bits: &[u8], end: u32) -> PartCount
    requires { end ≤ 8 * length bits.now }
    ensures { IsCounted bits.now end result }
{
    PartCount {
        weight: weight(bits, end),
        first: first_valid(bits, 0, end),
    }
}

/// Counts the first bits, so many, of each block from block `first` on, below block `last`.
pub(crate) fn count_parts(
    alloc: Global,
    blocks: &SetBlocks,
    first: u32,
    last: u32,
    bits: u32,
) -> Result<Vec<PartCount>, AllocError>
    requires order { first ≤ last }
    requires inside { 4096 * last ≤ length blocks.now }
    requires few { bits ≤ 32768 }
    ensures size { IfOk result (λ v. length v.items ≡ last - first) }
    ensures each { IfOk result (λ v. (k : ℕ) → first + k < last
        → IsCounted (blocks_of blocks.now (first + k) 1) bits (count_at v.items k)) }
{
    let mut counts = Vec::with_capacity(alloc, (last - first) as usize)?;
    for i in first..last {
        counts.push(counted(blocks.block(i), bits))?;
    }
    Ok(counts)
}

/// Gives the bits from `from` on, below `to`, this value, and keeps the count of those below `end`.
/// The answer says whether one had the other.
pub(crate) fn give_bits(
    bits: &mut [u8],
    count: &mut PartCount,
    from: u32,
    to: u32,
    end: u32,
    bit: bool,
) -> bool
    requires order { from ≤ to }
    requires range { to ≤ end }
    requires inside { end ≤ 8 * length bits.old }
    requires counted { IsCounted bits.old end count.old }
    ensures value { Tells result bit bits.old from to }
    ensures bits { GivesOnly bit from to bits.old bits.new }
    ensures same { result ≡ false → bits.new ≡ bits.old }
    ensures counted { IsCounted bits.new end count.new }
    ensures size { length bits.new ≡ length bits.old }
{
    let others = count.weight - weight_in(bits, from, to);
    if bit {
        let changed = set_range(bits, from, to - from);
        if changed {
            count.weight = others + (to - from);
            count.first = Some(first_with(count.first, from));
        }
        changed
    } else {
        let changed = clear_range(bits, from, to - from);
        count.weight = others;
        count.first = first_without(bits, count.first, from, to, end);
        changed
    }
}

/// The first bit of all, once bit `from` is set.
fn first_with(first: Option<u32>, from: u32) -> u32
    ensures { result ≡ option_map_or (λ n. min n from) first from }
{
    match first {
        Some(n) => n.min(from),
        None => from,
    }
}

/// The first bit of all, once those from `from` on, below `to`, are clear. Where it was one of them,
/// it is looked for from `to` on.
fn first_without(bits: &[u8], first: Option<u32>, from: u32, to: u32, end: u32) -> Option<u32>
    requires range { to ≤ end }
    requires inside { end ≤ 8 * length bits.now }
    ensures { IsFirstWithout bits.now from to end first result }
{
    match first {
        Some(n) if from <= n && n < to => first_valid(bits, to, end),
        _ => first,
    }
}
