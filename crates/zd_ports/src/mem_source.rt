//! A source in memory.

ghost use Rattle.std.specs.Prelude.{◌≡◌, ◌<◌, ◌↔◌, Some, length, take, min, Contains, IsErr, IfOk, OnOk, OnErr};
ghost use Rattle.zd_base.specs.Faults.{HasCause};
ghost use Rattle.zd_ports.specs.MemSource.{CountsRead};
ghost use Rattle.zd_ports.specs.Ports.{Gives};

use crate::Source;
use crate::faults::raise;
use std::marker::Model;
use zd_base::Failed;

/// A source in memory that fails where it is told to.
///
/// Contracts see it as a `Supply`: the bytes that are left, the most that a call gives, the numbers
/// of the calls that fail, counted from 1, and the counts of calls and faults.
#[derive(Drop)]
pub struct MemSource {
    bytes: Vec<u8>,
    given: usize,
    most: usize,
    fails: Vec<u64>,
    calls: u64,
    faults: u64,
}

impl Model for MemSource {
    ghost use Rattle.std.specs.Prelude.{◌<◌, ◌≤◌, drop, length};
    ghost use Rattle.zd_ports.specs.MemSource.{Supply};

    ghost Value = { Supply };

    ghost view = { λ s. record {
      left = drop s.given s.bytes.items;
      most = s.most;
      fails = s.fails.items;
      calls = s.calls;
      faults = s.faults;
    } };

    ghost invariant = { λ s. (s.given ≤ length s.bytes.items) × (0 < s.most) };
}

impl MemSource {
    /// A source of these bytes that gives at most `most` bytes a call, and fails at the calls of
    /// these numbers, counted from 1.
    pub fn new(bytes: Vec<u8>, most: usize, fails: Vec<u64>) -> MemSource
        requires { 0 < most }
        ensures { result ≡ record {
          left = bytes.items;
          most = most;
          fails = fails.items;
          calls = 0;
          faults = 0;
        } }
    {
        MemSource {
            bytes,
            given: 0,
            most,
            fails,
            calls: 0,
            faults: 0,
        }
    }
}

// Copies a prefix of `left`, at most `most` bytes, and answers how many.
fn give(left: &[u8], most: usize, into: &mut [u8]) -> usize
    ensures value { result ≡ min most (min (length into.old) (length left.now)) }
    ensures bytes { take result into.new ≡ take result left.now }
{
    let n = most.min(into.len()).min(left.len());
    into[..n].copy_from_slice(&left[..n]);
    n
}

impl Source for MemSource {
    ghost left = { λ s. Some s.left };

    ghost faults = { λ s. s.faults };

    /// Gives as many bytes as the call, the buffer and what is left allow. It fails exactly at the
    /// calls listed.
    fn read(&mut self, into: &mut [u8]) -> Result<usize, Failed>
        requires { 0 < length into.old }
        ensures value { IfOk result (λ n.
            n ≡ min self.old.most (min (length into.old) (length self.old.left))) }
        ensures bytes { IfOk result (λ n. Gives self.old.left (Some self.new.left) n into.new) }
        ensures err { OnErr result (self.new.left ≡ self.old.left) }
        ensures listed { IsErr result ↔ Contains self.old.fails self.new.calls }
        ensures calls { CountsRead self.old self.new }
        ensures faults { OnOk result (self.new.faults ≡ self.old.faults) }
        ensures cause { HasCause self.old.faults self.new.faults result }
    {
        self.calls = self.calls.saturating_add(1);
        if self.fails.contains(&self.calls) {
            return Err(raise(&mut self.faults));
        }
        let n = give(&self.bytes[self.given..], self.most, into);
        self.given += n;
        Ok(n)
    }
}
