//! Readers and writers of std as ports.

ghost use Rattle.std.specs.Prelude.{◌≡◌, ◌<◌, ◌≤◌, ◌++◌, Some, length, take, IfOk, OnOk, OnErr, IfSome};
ghost use Rattle.zd_base.specs.Faults.{HasCause};
ghost use Rattle.zd_ports.specs.Adapter.{passed_on};
ghost use Rattle.zd_ports.specs.Ports.{Gives};

use crate::faults::raise;
use crate::{Sink, Source};
use std::io::{Read, Write};
use std::marker::Model;
use std::snapshot::Snapshot;
use zd_base::Failed;

/// A source over a reader of std. It tells the bytes that are left where the reader tells them.
///
/// Contracts see it as an `Adapter`: the reader, as it was passed and as it is, and the count of
/// faults.
#[derive(Drop)]
pub struct StdSource<R: Read> {
    reader: R,
    first: Snapshot<R>,
    faults: u64,
}

impl<R: Read> Model for StdSource<R> {
    ghost use Rattle.zd_ports.specs.Adapter.{Adapter, StaysTold};

    ghost Value = { Adapter R };

    ghost view = { λ s. record { first = s.first.value; inner = s.reader; faults = s.faults } };

    ghost invariant = { λ s. StaysTold (R.remaining s.first.value) (R.remaining s.reader) };
}

impl<R: Read + Drop> StdSource<R> {
    /// A source that gives what the reader gives.
    pub fn new(r: R) -> StdSource<R>
        ensures value { result ≡ record { first = r; inner = r; faults = 0 } }
        ensures told { ⟦<StdSource<R> as Source>⟧.left result ≡ R.remaining r }
    {
        StdSource {
            first: Snapshot::of(&r),
            reader: r,
            faults: 0,
        }
    }
}

impl<R: Read + Drop> Source for StdSource<R> {
    ghost left = { λ s. passed_on (R.remaining s.first) (R.remaining s.inner) };

    ghost faults = { λ s. s.faults };

    /// One read of the reader. Each of its errors is a fault.
    fn read(&mut self, into: &mut [u8]) -> Result<usize, Failed>
        requires { 0 < length into.old }
        ensures count { IfOk result (λ n. n ≤ length into.old) }
        ensures bytes { let left = ⟦<StdSource<R> as Source>⟧.left in IfOk result (λ n.
            IfSome (left self.old) (λ bytes. Gives bytes (left self.new) n into.new)) }
        ensures err { let left = ⟦<StdSource<R> as Source>⟧.left in
            OnErr result (left self.new ≡ left self.old) }
        ensures faults { OnOk result (self.new.faults ≡ self.old.faults) }
        ensures cause { HasCause self.old.faults self.new.faults result }
    {
        match self.reader.read(into) {
            Ok(n) => Ok(n),
            Err(_) => Err(raise(&mut self.faults)),
        }
    }
}

/// A sink over a writer of std. It tells the bytes that it took where the writer tells them.
///
/// It never flushes, so the writer is to be one without a buffer, as std's standard output is.
/// Contracts see it as an `Adapter`: the writer, as it was passed and as it is, and the count of
/// faults.
#[derive(Drop)]
pub struct StdSink<W: Write> {
    writer: W,
    first: Snapshot<W>,
    faults: u64,
}

impl<W: Write> Model for StdSink<W> {
    ghost use Rattle.zd_ports.specs.Adapter.{Adapter, StaysTold};

    ghost Value = { Adapter W };

    ghost view = { λ s. record { first = s.first.value; inner = s.writer; faults = s.faults } };

    ghost invariant = { λ s. StaysTold (W.contents s.first.value) (W.contents s.writer) };
}

impl<W: Write + Drop> StdSink<W> {
    /// A sink that hands on what it takes to the writer.
    pub fn new(w: W) -> StdSink<W>
        ensures value { result ≡ record { first = w; inner = w; faults = 0 } }
        ensures told { ⟦<StdSink<W> as Sink>⟧.held result ≡ W.contents w }
    {
        StdSink {
            first: Snapshot::of(&w),
            writer: w,
            faults: 0,
        }
    }
}

impl<W: Write + Drop> Sink for StdSink<W> {
    ghost held = { λ s. passed_on (W.contents s.first) (W.contents s.inner) };

    ghost faults = { λ s. s.faults };

    /// One write of the writer. Each of its errors is a fault, and so is a write that takes nothing.
    fn write(&mut self, piece: &[u8]) -> Result<usize, Failed>
        requires { 0 < length piece.now }
        ensures some { IfOk result (λ n. 0 < n) }
        ensures count { IfOk result (λ n. n ≤ length piece.now) }
        ensures bytes { let held = ⟦<StdSink<W> as Sink>⟧.held in IfOk result (λ n.
            IfSome (held self.old) (λ bytes. held self.new ≡ Some (bytes ++ take n piece.now))) }
        ensures err { let held = ⟦<StdSink<W> as Sink>⟧.held in
            OnErr result (held self.new ≡ held self.old) }
        ensures faults { OnOk result (self.new.faults ≡ self.old.faults) }
        ensures cause { HasCause self.old.faults self.new.faults result }
    {
        match self.writer.write(piece) {
            Ok(n) if n > 0 => Ok(n),
            _ => Err(raise(&mut self.faults)),
        }
    }
}
