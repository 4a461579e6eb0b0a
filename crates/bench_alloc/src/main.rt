//! A benchmark of zones, of the use order and of candidates for jobs:
//! `bench_alloc CONV SEQ TAKES TOUCHES STORES WRITES CHANGES PICKS`.
//!
//! On a disk of so many conventional and sequential zones of 256 MiB it takes the last free
//! conventional zone and gives it back so many times, and then touches so many chunks that stand
//! far from each other. In a plain array of a number for each chunk it stores so many numbers, as
//! far from each other. Of candidates, of which each chunk is one, it touches and changes so many,
//! and so often it looks for the oldest and touches that.
#![tactic(auto)]

ghost use Rattle.std.specs.Prelude.{◌≡◌, ◌<◌, ◌≤◌, length, IfOk, IfSome, vec_len};
ghost use Rattle.zd_base.specs.Geometry.{zone_count};

use std::alloc::{AllocError, Global};
use std::process::ExitCode;
use std::{env, io};
use zd_alloc::{Alloc, Candidates, JobClass};
use zd_base::{ChunkNo, Geometry, Kind, Layout};

/// The blocks of a zone.
const ZONE_BLOCKS: u32 = 65_536;

/// How far the number of a touched chunk is from the one before.
const STRIDE: u64 = 7_919;

/// What is measured.
#[derive(Drop)]
struct Task {
    geometry: Geometry,
    takes: u32,
    touches: u32,
    stores: u32,
    writes: u32,
    changes: u32,
    picks: u32,
}

/// The numbers behind the program's name.
fn numbers(rt: &HostRuntime) -> io::Result<Vec<u32>> {
    let mut numbers = Vec::new(rt.alloc());
    for word in env::args(rt)?.skip(1) {
        if let Ok(number) = word.parse() {
            numbers.push(number)?;
        }
    }
    Ok(numbers)
}

/// The task of a command, where it has eight numbers, and the first two are a disk's.
fn asked(rt: &HostRuntime) -> Option<Task> {
    let numbers = numbers(rt).ok()?;
    match numbers.as_slice() {
        [conv, seq, takes, touches, stores, writes, changes, picks] => Some(Task {
            geometry: Geometry::new(ZONE_BLOCKS, *conv, *seq).ok()?,
            takes: *takes,
            touches: *touches,
            stores: *stores,
            writes: *writes,
            changes: *changes,
            picks: *picks,
        }),
        _ => None,
    }
}

/// A flag for each zone, none of them raised.
fn no_names(alloc: Global, g: &Geometry) -> Result<Vec<bool>, AllocError>
    ensures { IfOk result (λ named. vec_len named ≡ zone_count g.now) }
{
    vec![in alloc; false; g.zones() as usize]
}

/// A number for each chunk.
fn plain_numbers(alloc: Global, chunks: u32) -> Result<Vec<u64>, AllocError>
    ensures { IfOk result (λ plain. vec_len plain ≡ chunks) }
{
    vec![in alloc; 0u64; chunks as usize]
}

/// All zones of a disk and its chunks, of which there are so many.
#[derive(Drop)]
struct Volume {
    zones: Alloc,
    candidates: Candidates,
    plain: Vec<u64>,
    chunks: u32,
    ghost some: { 0 < chunks },
    ghost counted: { length zones.order ≡ chunks },
    ghost classed: { length candidates.classes ≡ chunks },
    ghost numbered: { vec_len plain ≡ chunks },
}

/// The disk with one reserved zone. None where it is too small, or where there is no memory.
fn begun(alloc: Global, g: &Geometry) -> Option<Volume> {
    let layout = Layout::for_format(g, 1)?;
    let Ok(named) = no_names(alloc, g) else {
        return None;
    };
    let Ok(zones) = Alloc::new(alloc, g, &layout, named.as_slice()) else {
        return None;
    };
    let Ok(candidates) = Candidates::new(alloc, layout.chunks) else {
        return None;
    };
    let Ok(plain) = plain_numbers(alloc, layout.chunks) else {
        return None;
    };
    Some(Volume {
        zones,
        candidates,
        plain,
        chunks: layout.chunks,
    })
}

/// Takes all free conventional zones but the last.
fn fill(zones: &mut Alloc)
    ensures { zones.new.order ≡ zones.old.order }
{
    for _ in 1..zones.free(Kind::Conventional) {
        let _ = zones.take_conventional();
    }
}

/// Takes the least free conventional zone and gives it back, so many times. The answer is the last
/// zone that was taken.
fn take_and_release(zones: &mut Alloc, rounds: u32) -> u32
    ensures { zones.new.order ≡ zones.old.order }
{
    let mut last = 0;
    for _ in 0..rounds {
        if let Some(zone) = zones.take_conventional() {
            zones.release(zone, false);
            last = zone.0;
        }
    }
    last
}

/// The chunk far from this one.
fn far_from(chunk: u32, chunks: u32) -> u32
    requires { 0 < chunks }
    ensures { result < chunks }
{
    ((u64::from(chunk) + STRIDE) % u64::from(chunks)) as u32
}

/// Touches so many chunks, each far from the one before. The answer is the oldest chunk then.
fn touch(volume: &mut Volume, rounds: u32) -> u32 {
    let chunks = volume.chunks;
    let mut chunk = 0;
    for _ in 0..rounds {
        volume.zones.touch(ChunkNo(chunk));
        chunk = far_from(chunk, chunks);
    }
    volume.zones.oldest().0
}

/// Stores so many numbers, each far from the one before.
fn store(volume: &mut Volume, rounds: u32) {
    let chunks = volume.chunks;
    let mut chunk = 0;
    for round in 0..rounds {
        volume.plain[chunk as usize] = u64::from(round);
        chunk = far_from(chunk, chunks);
    }
}

/// Makes each chunk a candidate.
fn enter_all(volume: &mut Volume) {
    for chunk in 0..volume.chunks {
        volume.candidates.set(ChunkNo(chunk), Some(JobClass::Merge));
    }
}

/// Touches so many candidates, each far from the one before.
fn write(volume: &mut Volume, rounds: u32) {
    let chunks = volume.chunks;
    let mut chunk = 0;
    for _ in 0..rounds {
        volume.candidates.touch(ChunkNo(chunk));
        chunk = far_from(chunk, chunks);
    }
}

/// Gives so many candidates another class, each far from the one before.
fn change(volume: &mut Volume, rounds: u32) {
    let chunks = volume.chunks;
    let mut chunk = 0;
    for round in 0..rounds {
        let class = if round % 2 == 0 {
            JobClass::Move
        } else {
            JobClass::Append
        };
        volume.candidates.set(ChunkNo(chunk), Some(class));
        chunk = far_from(chunk, chunks);
    }
}

/// Looks so often for the oldest candidate of two classes, and touches it.
fn pick(volume: &mut Volume, rounds: u32) {
    for _ in 0..rounds {
        if let Some(chunk) = volume
            .candidates
            .oldest_of_either(JobClass::Move, JobClass::Merge)
        {
            volume.candidates.touch(chunk);
        }
    }
}

/// Does all that is asked of candidates. The answer is the oldest of two classes then.
fn try_candidates(volume: &mut Volume, task: &Task) -> u32 {
    enter_all(volume);
    write(volume, task.writes);
    change(volume, task.changes);
    pick(volume, task.picks);
    match volume
        .candidates
        .oldest_of_either(JobClass::Move, JobClass::Merge)
    {
        Some(chunk) => chunk.0,
        None => 0,
    }
}

/// The sum of the numbers in the plain array.
fn sum_of(plain: &[u64]) -> u64 {
    plain
        .iter()
        .fold(0u64, |sum, number| sum.wrapping_add(*number))
}

fn main(rt: HostRuntime) -> ExitCode {
    let Some(task) = asked(&rt) else {
        return ExitCode::FAILURE;
    };
    let Some(mut volume) = begun(rt.alloc(), &task.geometry) else {
        return ExitCode::FAILURE;
    };
    fill(&mut volume.zones);
    let zone = take_and_release(&mut volume.zones, task.takes);
    let oldest = touch(&mut volume, task.touches);
    store(&mut volume, task.stores);
    let sum = sum_of(&volume.plain);
    let picked = try_candidates(&mut volume, &task);
    let chunks = volume.chunks;
    match println!(rt; "{chunks} chunks, zone {zone}, chunk {oldest}, sum {sum}, pick {picked}") {
        Ok(()) => ExitCode::SUCCESS,
        Err(_) => ExitCode::FAILURE,
    }
}
