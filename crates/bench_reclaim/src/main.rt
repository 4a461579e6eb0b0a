//! A benchmark of reclaim: `bench_reclaim IMAGE ROUNDS STEP pick|due|store|write|bare`.
//!
//! Over the volume in the image file it picks a job so often, or asks so often whether one is due, or stores so many
//! numbers in an array with one for each chunk, each so many chunks after the one before. Or it writes so many blocks,
//! each so many blocks after the one before, round and round; a write that finds no zone waits for a commit where a
//! zone is in limbo, else for a job, and at the end the volume is closed. `bare` writes as many blocks one after
//! another by the bare calls of the disk, in its conventional zones, and flushes after each STEP of them, or never
//! where that is 0. It prints how often it did so, and after writes to a volume how many writing calls it had made
//! with the last of them, and how many whole commits.
#![tactic(auto)]

ghost use Rattle.std.specs.Prelude.{◌≡◌, [], IfOk, vec_len};

use bench_tools::{Asked, answer_all, next_of, words, write_bare};
use std::alloc::{AllocError, Global};
use std::process::ExitCode;
use zd_disk::{FileDisk, ZonedDisk};
use zd_open::open_volume;
use zd_reclaim::{due, pick};
use zd_state::Volume;

/// What was done: how often, and how many writing calls and whole commits the volume had made by then.
struct Done {
    rounds: usize,
    calls: u64,
    commits: u64,
}

/// So often, with no call of a volume.
fn without_calls(rounds: u32) -> Done {
    Done {
        rounds: rounds as usize,
        calls: 0,
        commits: 0,
    }
}

/// How many writing calls had been made with the last entry.
fn calls_of<D: ZonedDisk>(volume: &Volume<D>) -> u64 {
    let history = volume.history();
    let entries = history.len();
    if entries == 0 {
        return 0;
    }
    history.get(entries - 1).at
}

/// Writes so many blocks of a volume, and closes it.
fn write_volume<D: ZonedDisk>(
    volume: Volume<D>,
    alloc: Global,
    writes: u32,
    stride: u64,
) -> Option<Done>
    requires { volume.plain.history ≡ [] }
{
    let generation = volume.generation();
    let session = answer_all(alloc, volume, Asked::Write, writes, stride)?;
    let volume = session.volume();
    let done = Done {
        rounds: volume.history().len(),
        calls: calls_of(volume),
        commits: volume.generation().saturating_sub(generation),
    };
    if session.ended() {
        let _closed = session.finish();
    }
    Some(done)
}

/// Picks a job so often. The answer is how often there was one.
fn pick_often<D: ZonedDisk>(volume: &Volume<D>, rounds: u32) -> u32 {
    let mut picked = 0u32;
    for _ in 0..rounds {
        if pick(volume).is_some() {
            picked = picked.saturating_add(1);
        }
    }
    picked
}

/// Asks so often whether a job is due, every other time for a write that lacks a zone. The answer is how often one was.
fn ask_often<D: ZonedDisk>(volume: &Volume<D>, rounds: u32) -> u32 {
    let mut asked = 0u32;
    for round in 0..rounds {
        if due(volume, round % 2 == 0) {
            asked = asked.saturating_add(1);
        }
    }
    asked
}

/// A number for each chunk.
fn plain_numbers(alloc: Global, chunks: u32) -> Result<Vec<u64>, AllocError>
    ensures { IfOk result (λ plain. vec_len plain ≡ chunks) }
{
    vec![in alloc; 0u64; chunks as usize]
}

/// Stores so many numbers, each so many places after the one before. The answer is how many were stored that aren't zero.
fn store_often(numbers: &mut [u64], rounds: u32, stride: u64) -> u32 {
    let places = numbers.len() as u64;
    let mut stored = 0u32;
    let mut place = 0;
    for round in 0..rounds {
        if place < places {
            numbers[place as usize] = u64::from(round);
            stored = stored.saturating_add(1);
        }
        place = next_of(place, stride, places);
    }
    stored
}

/// Does so over a volume what is asked.
fn measure<D: ZonedDisk>(
    volume: Volume<D>,
    alloc: Global,
    rounds: u32,
    stride: u64,
    how: &str,
) -> Option<Done>
    requires { volume.plain.history ≡ [] }
{
    match how {
        "pick" => Some(without_calls(pick_often(&volume, rounds))),
        "due" => Some(without_calls(ask_often(&volume, rounds))),
        "store" => {
            let mut numbers = plain_numbers(alloc, volume.layout().chunks).ok()?;
            Some(without_calls(store_often(&mut numbers, rounds, stride)))
        }
        "write" => write_volume(volume, alloc, rounds, stride),
        _ => None,
    }
}

/// What was done, where the words are a command.
fn measured(rt: &HostRuntime) -> Option<Done> {
    let words = words(rt).ok()?;
    match words.as_slice() {
        [image, rounds, stride, how] => {
            let mut disk = FileDisk::at(rt, image);
            let rounds = rounds.parse().ok()?;
            let stride = stride.parse().ok()?;
            if how.as_str() == "bare" {
                return Some(without_calls(write_bare(&mut disk, rounds, 1, stride)));
            }
            let Ok(volume) = open_volume(rt.alloc(), disk) else {
                return None;
            };
            measure(volume, rt.alloc(), rounds, stride, how)
        }
        _ => None,
    }
}

fn main(rt: HostRuntime) -> ExitCode {
    match measured(&rt) {
        Some(done) => {
            let Done {
                rounds,
                calls,
                commits,
            } = done;
            let _ = println!(rt; "{rounds} rounds, {calls} calls, {commits} commits");
            ExitCode::SUCCESS
        }
        None => ExitCode::from(1),
    }
}
