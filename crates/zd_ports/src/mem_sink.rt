//! A sink in memory.

ghost use Rattle.std.specs.Prelude.{◌≡◌, ◌<◌, ◌≤◌, [], Some, length, Contains, IsOk, IsErr, IfOk, OnOk, OnErr};
ghost use Rattle.zd_base.specs.Faults.{HasCause};
ghost use Rattle.zd_ports.specs.MemSink.{CountsWrite, Took, TookNothing};

use crate::Sink;
use crate::faults::raise;
use std::alloc::Global;
use std::marker::Model;
use zd_base::{Failed, Memory};

/// A sink in memory that fails where it is told to.
///
/// Contracts see it as an `Intake`: the bytes that it took, how many more it has room for, the
/// numbers of the calls that fail, counted from 1, and the counts of calls and faults.
#[derive(Drop)]
pub struct MemSink {
    bytes: Vec<u8>,
    fails: Vec<u64>,
    calls: u64,
    faults: u64,
}

impl Model for MemSink {
    ghost use Rattle.std.specs.Prelude.{◌-◌, vec_capacity, vec_len};
    ghost use Rattle.zd_ports.specs.MemSink.{Intake};

    ghost Value = { Intake };

    ghost view = { λ s. record {
      held = s.bytes.items;
      room = vec_capacity s.bytes - vec_len s.bytes;
      fails = s.fails.items;
      calls = s.calls;
      faults = s.faults;
    } };
}

impl MemSink {
    /// A sink that holds nothing, and fails at the calls of these numbers, counted from 1.
    pub fn new(alloc: Global, fails: Vec<u64>) -> MemSink
        ensures held { result.held ≡ [] }
        ensures listed { result.fails ≡ fails.items }
        ensures counts { (result.calls ≡ 0) × (result.faults ≡ 0) }
    {
        MemSink {
            bytes: Vec::new(alloc),
            fails,
            calls: 0,
            faults: 0,
        }
    }

    /// The bytes that it took.
    pub fn held(&self) -> &[u8]
        ensures { result.now ≡ self.now.held }
    {
        self.bytes.as_slice()
    }

    /// Makes room for `n` more bytes. `Memory` changes nothing.
    pub fn reserve(&mut self, n: usize) -> Result<(), Memory>
        ensures ok { OnOk result (n ≤ self.new.room) }
        ensures err { OnErr result (self.new ≡ self.old) }
        ensures room { self.old.room ≤ self.new.room }
        ensures same { self.new ≡ record self.old { room = self.new.room } }
    {
        match self.bytes.reserve(n) {
            Ok(()) => Ok(()),
            Err(_) => Err(Memory),
        }
    }
}

impl Sink for MemSink {
    ghost held = { λ s. Some s.held };

    ghost faults = { λ s. s.faults };

    /// Takes the whole piece, and fails at the calls listed. Where the room doesn't hold the piece it
    /// grows, and a growth that is refused is a fault too.
    fn write(&mut self, piece: &[u8]) -> Result<usize, Failed>
        requires { 0 < length piece.now }
        ensures value { IfOk result (λ n. n ≡ length piece.now) }
        ensures ok { OnOk result (Took piece.now self.old self.new) }
        ensures err { OnErr result (TookNothing self.old self.new) }
        ensures listed { Contains self.old.fails self.new.calls → IsErr result }
        ensures within { ¬ Contains self.old.fails self.new.calls
            → length piece.now ≤ self.old.room → IsOk result }
        ensures calls { CountsWrite self.old self.new }
        ensures cause { HasCause self.old.faults self.new.faults result }
    {
        self.calls = self.calls.saturating_add(1);
        if self.fails.contains(&self.calls) {
            return Err(raise(&mut self.faults));
        }
        match self.bytes.extend_from_slice(piece) {
            Ok(()) => Ok(piece.len()),
            Err(_) => Err(raise(&mut self.faults)),
        }
    }
}
