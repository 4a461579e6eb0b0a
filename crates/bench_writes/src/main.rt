//! A benchmark of writes: `bench_writes IMAGE WRITES STEP volume|bare`.
//!
//! It writes so many blocks, each so many blocks after the one before, round and round: to the volume in the image
//! file, or by the bare calls of the disk, in its conventional zones. It prints how many were written. No block is
//! flushed, and the volume isn't closed.
#![tactic(auto)]

use bench_tools::{Asked, answer_all, words, write_bare};
use std::alloc::Global;
use std::process::ExitCode;
use zd_disk::{FileDisk, ZonedDisk};
use zd_open::open_volume;

/// Writes so many blocks of a volume. The answer is how many were written.
fn write_volume<D: ZonedDisk>(alloc: Global, disk: D, writes: u32, step: u64) -> usize {
    let Ok(volume) = open_volume(alloc, disk) else {
        return 0;
    };
    match answer_all(alloc, volume, Asked::Write, writes, step) {
        Some(session) => session.volume().history().len(),
        None => 0,
    }
}

/// How many blocks were written, where the words are a command.
fn measured(rt: &HostRuntime) -> Option<usize> {
    let words = words(rt).ok()?;
    match words.as_slice() {
        [image, writes, step, how] => {
            let mut disk = FileDisk::at(rt, image);
            let writes = writes.parse().ok()?;
            let step = step.parse().ok()?;
            match how.as_str() {
                "bare" => Some(write_bare(&mut disk, writes, step, 0) as usize),
                "volume" => Some(write_volume(rt.alloc(), disk, writes, step)),
                _ => None,
            }
        }
        _ => None,
    }
}

fn main(rt: HostRuntime) -> ExitCode {
    match measured(&rt) {
        Some(done) => {
            let _ = println!(rt; "{} blocks", done);
            ExitCode::SUCCESS
        }
        None => ExitCode::from(1),
    }
}
