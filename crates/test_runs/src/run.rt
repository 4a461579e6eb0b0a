//! Runs, and what they gave.

use std::alloc::{AllocError, Global};
use std::process::Abort;
use std::test::Fail;
use test_volumes::texts::{lines, sink, source, words};
use zd_base::Status;
use zd_disk::ZonedDisk;
use zd_ports::{Sink, Source};
use zd_replay::replay_alone;

/// A run with these words.
pub fn run<D: ZonedDisk, S: Source, K: Sink>(
    alloc: Global,
    list: &[&str],
    disk: D,
    source: &mut S,
    sink: &mut K,
) -> Result<(Status, D), AllocError> {
    let words = words(alloc, list)?;
    Ok(replay_alone(alloc, &words, disk, source, sink))
}

/// Asserts what a script over a disk prints and how it ends, where source and sink don't fail. It
/// hands the disk back.
pub fn expect<D: ZonedDisk>(
    rt: &(impl Abort + AllocGlobal),
    disk: D,
    script: &str,
    output: &str,
    status: u8,
) -> Result<D, Fail> {
    let mut source = source(rt.alloc(), script, 4096, &[])?;
    let mut sink = sink(rt.alloc(), &[])?;
    let (ended, disk) = run(rt.alloc(), &["img", "s"], disk, &mut source, &mut sink)?;
    let output = lines(rt.alloc(), output)?;
    assert_eq!(rt; sink.held(), output.as_slice(), "{script}");
    assert_eq!(rt; ended, Status(status), "{script}");
    Ok(disk)
}
