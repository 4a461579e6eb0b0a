//! Sets of numbers, whose least is found by a summary.

ghost use Rattle.std.specs.Prelude.{◌≡◌, ◌/◌, ◌<◌, ◌≤◌, ◌*◌, ◌+◌, true, false, length, IfOk, IfSome, IfNone, replicate};
ghost use Rattle.zd_alloc.specs.Flags.{GivesFlag, IsLeast, HasNone};

use crate::words::{WORD, least, least_from, lower_flag, raise_flag};
use std::alloc::{AllocError, Global};
use std::marker::Model;

/// A set of numbers below a bound, with a flag for each. Contracts see the words of flags.
#[derive(Drop)]
pub(crate) struct FlagSet {
    words: Vec<u64>,
    // Number i is here where word i isn't 0.
    summary: Vec<u64>,
}

impl Model for FlagSet {
    ghost use Rattle.std.specs.Prelude.{ℕ, List};
    ghost use Rattle.zd_alloc.specs.Flags.{IsSummed};

    ghost Value = { List ℕ };

    ghost view = { λ s. s.words.items };

    ghost invariant = { λ s. IsSummed s.words.items s.summary.items };
}

fn no_flags(alloc: Global, count: u32) -> Result<Vec<u64>, AllocError>
    ensures { IfOk result (λ v. v.items ≡ replicate count 0) }
{
    vec![in alloc; 0u64; count as usize]
}

impl FlagSet {
    /// A set of numbers below `end` with none in it.
    pub(crate) fn new(alloc: Global, end: u32) -> Result<FlagSet, AllocError>
        requires { end ≤ 65536 }
        ensures room { IfOk result (λ s. end ≤ 64 * length s) }
        ensures none { IfOk result (λ s. HasNone s) }
    {
        let count = end.div_ceil(WORD);
        let words = no_flags(alloc, count)?;
        let summary = no_flags(alloc, count.div_ceil(WORD))?;
        Ok(FlagSet { words, summary })
    }

    /// Puts a number in.
    pub(crate) fn insert(&mut self, n: u32)
        requires { n < 64 * length self.old }
        ensures flag { GivesFlag true n self.old self.new }
        ensures length { length self.new ≡ length self.old }
    {
        raise_flag(&mut self.words, n);
        raise_flag(&mut self.summary, n / WORD);
    }

    /// Takes a number out.
    pub(crate) fn remove(&mut self, n: u32)
        requires { n < 64 * length self.old }
        ensures flag { GivesFlag false n self.old self.new }
        ensures length { length self.new ≡ length self.old }
    {
        lower_flag(&mut self.words, n);
        if self.words[(n / WORD) as usize] == 0 {
            lower_flag(&mut self.summary, n / WORD);
        }
    }

    /// The least number in it.
    pub(crate) fn least(&self) -> Option<u32>
        ensures some { IfSome result (λ n. IsLeast self.now n) }
        ensures none { IfNone result (HasNone self.now) }
    {
        let i = least(&self.summary)?;
        Some(least_from(&self.words, i as usize))
    }
}
