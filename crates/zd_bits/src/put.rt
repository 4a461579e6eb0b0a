//! Ranges of bits written, byte by byte.

ghost use Rattle.std.specs.Prelude.{◌≡◌, ◌+◌, ◌*◌, ◌/◌, ◌<◌, ◌≤◌, ◌^◌, ◌-◌, length, false};
ghost use Rattle.std.specs.Prelude.{ℕ, if◌then◌else◌};
ghost use Rattle.std.specs.Int.{bit_at};
ghost use Rattle.zd_bits.specs.Bits.{Tells, GivesOnly};

/// Gives the blocks from `from` below `end` this bit. The answer says whether one had the other.
pub(crate) fn put(bits: &mut [u8], from: usize, end: usize, bit: bool) -> bool
    requires order { from ≤ end }
    requires inside { end ≤ 8 * length bits.old }
    requires size { end < 2 ^ 34 }
    ensures value { Tells result bit bits.old from end }
    ensures bits { GivesOnly bit from end bits.old bits.new }
    ensures same { result ≡ false → bits.new ≡ bits.old }
{
    let head = from.div_ceil(8) * 8;
    if end <= head {
        return put_in_byte(bits, from, end, bit);
    }
    let tail = end / 8 * 8;
    let in_head = put_in_byte(bits, from, head, bit);
    let in_middle = put_bytes(bits, head / 8, tail / 8, bit);
    let in_tail = put_in_byte(bits, tail, end, bit);
    in_head | in_middle | in_tail
}

/// As `put`, for whole bytes, from byte `first` below byte `last`.
fn put_bytes(bits: &mut [u8], first: usize, last: usize, bit: bool) -> bool
    requires order { first ≤ last }
    requires inside { last ≤ length bits.old }
    ensures value { Tells result bit bits.old (8 * first) (8 * last) }
    ensures bits { GivesOnly bit (8 * first) (8 * last) bits.old bits.new }
    ensures same { result ≡ false → bits.new ≡ bits.old }
{
    let mut changed = false;
    for i in first..last {
        changed |= put_byte(bits, i, bit);
    }
    changed
}

/// As `put`, for the whole byte `i`.
fn put_byte(bits: &mut [u8], i: usize, bit: bool) -> bool
    requires { i < length bits.old }
    ensures value { Tells result bit bits.old (8 * i) (8 * i + 8) }
    ensures bits { GivesOnly bit (8 * i) (8 * i + 8) bits.old bits.new }
    ensures same { result ≡ false → bits.new ≡ bits.old }
{
    let old = bits[i];
    let new = whole(bit);
    bits[i] = new;
    old != new
}

/// The byte whose bits are all this bit.
fn whole(bit: bool) -> u8
    ensures { (k : ℕ) → k < 8 → bit_at result k ≡ (if bit then 1 else 0) }
{
    if bit { 0xFF } else { 0 }
}

/// As `put`, for a range inside one byte.
fn put_in_byte(bits: &mut [u8], from: usize, end: usize, bit: bool) -> bool
    requires order { from ≤ end }
    requires inside { end ≤ 8 * length bits.old }
    requires byte { end ≤ from / 8 * 8 + 8 }
    ensures value { Tells result bit bits.old from end }
    ensures bits { GivesOnly bit from end bits.old bits.new }
    ensures same { result ≡ false → bits.new ≡ bits.old }
{
    if from == end {
        return false;
    }
    let i = from / 8;
    let old = bits[i];
    let new = with_bits(old, (from % 8) as u32, (end - 8 * i) as u32, bit);
    bits[i] = new;
    old != new
}

/// A byte whose bits `low` to `high - 1` were given this bit.
fn with_bits(byte: u8, low: u32, high: u32, bit: bool) -> u8
    requires order { low ≤ high }
    requires size { high ≤ 8 }
    ensures inside { (k : ℕ) → low ≤ k → k < high → bit_at result k ≡ (if bit then 1 else 0) }
    ensures below { (k : ℕ) → k < low → bit_at result k ≡ bit_at byte k }
    ensures above { (k : ℕ) → high ≤ k → k < 8 → bit_at result k ≡ bit_at byte k }
{
    let mask = mask(low, high);
    if bit { byte | mask } else { byte & !mask }
}

/// A byte with bits `low` to `high - 1` alone set.
fn mask(low: u32, high: u32) -> u8
    requires order { low ≤ high }
    requires size { high ≤ 8 }
    ensures { result ≡ 2 ^ high - 2 ^ low }
{
    ((1u16 << high) - (1u16 << low)) as u8
}
