//! A benchmark of many callers: `bench_callers IMAGE WAITING STEPS session|bare`.
//!
//! Over the volume in the image file, 64 callers and as many actors: so many steps, by turns, with that many requests
//! more than steps, so that at least WAITING pieces wait at all times. The requests read, write, discard and flush by
//! turns, one block each, far from one another; most actors prefer pieces, one prefers commits and one jobs. `bare`
//! makes so many bare writes of a block in place of the steps. It prints how many steps were made, how many pieces were
//! entered, and how many writing calls of the disk there had been with the last one.
#![tactic(auto)]

ghost use Rattle.std.specs.Prelude.{◌≡◌, ◌<◌, [], IfSome, length};
ghost use Rattle.zd_plain.specs.Plan.{IsPlan, IsRequest};

use bench_tools::{words, write_bare};
use std::alloc::Global;
use std::process::ExitCode;
use zd_base::{Prefer, Stepped};
use zd_disk::{FileDisk, ZonedDisk};
use zd_model::{Request, What};
use zd_open::open_volume;
use zd_plain::Plan;
use zd_session::Session;
use zd_state::Volume;

/// The callers, and the actors.
const CALLERS: u32 = 64;

/// What was done: steps, entries, and writing calls with the last one.
#[derive(Clone, Copy, Debug, PartialEq, Eq)]
struct Done {
    steps: u32,
    entries: usize,
    calls: u64,
}

/// The request with this number, on a device of so many blocks. A prime far from any zone size spreads them.
fn request_of(number: u32, blocks: u64) -> Request
    ensures { IsRequest result }
{
    let block = u64::from(number) * 7919 % blocks.max(1);
    let what = match number / CALLERS % 16 {
        0..=7 => What::Write {
            block,
            count: 1,
            seed: number,
        },
        8..=13 => What::Read { block, count: 1 },
        14 => What::Discard { block, count: 1 },
        _ => What::Flush,
    };
    Request {
        caller: (number % CALLERS) as u8,
        what,
    }
}

/// So many requests, each of the next caller. None where no memory is found.
fn plan_of(alloc: Global, count: u32, blocks: u64) -> Option<Plan>
    ensures { IfSome result IsPlan }
{
    let mut plan = Plan::new(alloc);
    for number in 0..count {
        plan.push(request_of(number, blocks)).ok()?;
    }
    Some(plan)
}

/// What an actor prefers: the last two go on with commits and with jobs.
fn preference(actor: usize) -> Prefer {
    match actor {
        63 => Prefer::Commits,
        62 => Prefer::Jobs,
        _ => Prefer::Pieces,
    }
}

/// Makes so many steps, by turns. The answer is how many were made before the session ended.
fn make_steps<D: ZonedDisk>(session: &mut Session<D>, steps: u32) -> u32
    requires { length session.old.flights ≡ 64 }
{
    let mut made = 0u32;
    for number in 0..steps {
        let actor = (number % CALLERS) as usize;
        if let Stepped::Over | Stepped::Stopped(_) = session.step(actor, preference(actor)) {
            return made;
        }
        made = made.saturating_add(1);
    }
    made
}

/// How many writing calls had been made with the last entry.
fn calls_of<D: ZonedDisk>(volume: &Volume<D>) -> u64 {
    let history = volume.history();
    let entries = history.len();
    if entries == 0 {
        return 0;
    }
    history.get(entries - 1).at
}

/// Makes so many steps over a volume on which so many pieces more wait.
fn step_volume<D: ZonedDisk>(
    alloc: Global,
    volume: Volume<D>,
    waiting: u32,
    steps: u32,
) -> Option<Done>
    requires { volume.plain.history ≡ [] }
{
    let blocks = u64::from(volume.layout().chunks) * u64::from(volume.geometry().zone_blocks());
    let plan = plan_of(alloc, waiting.saturating_add(steps), blocks)?;
    let Ok(mut session) = Session::begin(alloc, volume, plan, CALLERS as usize) else {
        return None;
    };
    let steps = make_steps(&mut session, steps);
    let volume = session.volume();
    Some(Done {
        steps,
        entries: volume.history().len(),
        calls: calls_of(volume),
    })
}

/// What was done, where the words are a command.
fn measured(rt: &HostRuntime) -> Option<Done> {
    let words = words(rt).ok()?;
    match words.as_slice() {
        [image, waiting, steps, how] => {
            let mut disk = FileDisk::at(rt, image);
            let waiting = waiting.parse().ok()?;
            let steps = steps.parse().ok()?;
            match how.as_str() {
                "bare" => {
                    let written = write_bare(&mut disk, steps, 1, 0);
                    Some(Done {
                        steps: written,
                        entries: 0,
                        calls: u64::from(written),
                    })
                }
                "session" => {
                    let volume = open_volume(rt.alloc(), disk).ok()?;
                    step_volume(rt.alloc(), volume, waiting, steps)
                }
                _ => None,
            }
        }
        _ => None,
    }
}

fn main(rt: HostRuntime) -> ExitCode {
    match measured(&rt) {
        Some(done) => {
            let _ = println!(rt;
                "{} steps {} entries {} calls",
                done.steps, done.entries, done.calls
            );
            ExitCode::SUCCESS
        }
        None => ExitCode::from(1),
    }
}
