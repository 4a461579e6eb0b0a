//! Words of 64 flags.

ghost use Rattle.std.specs.Prelude.{◌≡◌, ◌≢◌, ℕ, ◌/◌, ◌<◌, ◌≤◌, true, false, length, slice_index, IfSome, IfNone};
ghost use Rattle.zd_alloc.specs.Flags.{GivesFlag, IsLeast, HasNone};

/// The flags of a word.
pub(crate) const WORD: u32 = 64;

/// Puts a number into the set.
pub(crate) fn raise_flag(words: &mut Vec<u64>, n: u32)
    requires { n / 64 < length words.old.items }
    ensures flag { GivesFlag true n words.old.items words.new.items }
    ensures length { length words.new.items ≡ length words.old.items }
    ensures words { (i : ℕ) → i ≢ n / 64
        → slice_index words.new.items i ≡ slice_index words.old.items i }
    ensures some { 0 < slice_index words.new.items (n / 64) }
{
    words[(n / WORD) as usize] |= 1 << (n % WORD);
}

/// Takes a number out of the set.
pub(crate) fn lower_flag(words: &mut Vec<u64>, n: u32)
    requires { n / 64 < length words.old.items }
    ensures flag { GivesFlag false n words.old.items words.new.items }
    ensures length { length words.new.items ≡ length words.old.items }
    ensures words { (i : ℕ) → i ≢ n / 64
        → slice_index words.new.items i ≡ slice_index words.old.items i }
    ensures less { slice_index words.new.items (n / 64) ≤ slice_index words.old.items (n / 64) }
{
    words[(n / WORD) as usize] &= !(1 << (n % WORD));
}

/// The least number in the set.
pub(crate) fn least(words: &[u64]) -> Option<u32>
    requires { length words.now < 1025 }
    ensures some { IfSome result (λ n. IsLeast words.now n) }
    ensures none { IfNone result (HasNone words.now) }
{
    for i in 0..words.len() {
        if words[i] != 0 {
            return Some(least_from(words, i));
        }
    }
    None
}

/// The least number in the set, which stands in word `i`.
pub(crate) fn least_from(words: &[u64], i: usize) -> u32
    requires inside { i < 65600 }
    requires some { 0 < slice_index words.now i }
    requires before { (j : ℕ) → j < i → slice_index words.now j ≡ 0 }
    ensures { IsLeast words.now result }
{
    WORD * i as u32 + words[i].trailing_zeros()
}
