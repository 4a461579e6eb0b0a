//! A run by threads, from words and bytes to the report.

ghost use Rattle.std.specs.Prelude.{◌≡◌, ◌⊎◌, ◌<◌, ◌≤◌, ℕ, List, Option, map, string_bytes};
ghost use Rattle.zd_disk.specs.Told.{WhereTold};
ghost use Rattle.zd_examine.specs.Opened.{IsFlushed};
ghost use Rattle.zd_model.specs.Script.{IsScript};
ghost use Rattle.zd_plain.specs.Plan.{IsPlan};
ghost use Rattle.zd_tell.specs.Stages.RunStage.{Opening, Run};
ghost use Rattle.zd_replay.specs.Ends.{IsReplayCommand, ReplayEndedBefore, ReplayMayEnd};
ghost use Rattle.zd_replay.specs.Replay.{AnswersShared, ReportsShared};
ghost use Rattle.zd_replay.specs.Words.{behind_actors};

use crate::alone::open_outcome;
use crate::plan::run_shared;
use crate::report::{tell_alone, tell_run};
use crate::scripts::plan_of;
use crate::words::split_actors;
use std::alloc::Global;
use std::sync::Wait;
use std::thread::Threads;
use zd_base::Status;
use zd_disk::ZonedDisk;
use zd_open::open_volume;
use zd_plain::Plan;
use zd_ports::{Sink, Source};
use zd_workers::Gate;

/// Opens the disk, has so many actors run the plan, and tells the report. It hands the disk back.
fn shared_session<D: ZonedDisk + Send, K: Sink, G: Gate + Sync, R: Threads + Wait + Sync>(
    rt: &R,
    alloc: Global,
    disk: D,
    plan: Plan,
    actors: u32,
    out: &mut K,
    gate: &G,
) -> (Status, D)
    requires plan { IsPlan plan }
    requires range { (0 < actors) × (actors ≤ 64) }
    ensures report { (words : List (List ℕ)) (left : Option (List ℕ)) → IsReplayCommand words →
        WhereTold left (λ bytes. IsScript bytes plan) →
        ReportsShared words left (D.view disk) (D.view result.1) result.0.0
        (K.held out.old) (K.held out.new) (K.faults out.old) (K.faults out.new) }
    ensures statuses { ReplayMayEnd Opening result.0.0 ⊎ ReplayMayEnd Run result.0.0 }
    ensures refused { result.0.0 ≡ 3 → IsFlushed (D.view disk) (D.view result.1) }
{
    let volume = match open_volume(alloc, disk) {
        Ok(volume) => volume,
        Err((fault, disk)) => return (tell_alone(alloc, out, open_outcome(fault)), disk),
    };
    let (history, disk, ending) = run_shared(rt, alloc, volume, plan, actors, gate);
    tell_run(alloc, out, history, disk, ending)
}

/// Runs a script over a disk by threads, and writes the report. It hands the disk back.
///
/// The words are those of `replay_alone`, and may begin with `--actors A`: so many actors, 1 to 64 and else 4, work on
/// the requests, each in a thread of its own where one can be started. They take turns at one step after another, and an
/// actor passes the gate after each step that it made, while others may step. So requests of several callers, a commit
/// and a job go on beside each other, and in which order is up to the threads. Of two and more actors the last prefers
/// commits, of three and more the one before it jobs. Where no memory is found for the threads, the caller works alone.
///
/// The statuses are those of `replay_alone`. What a stop leaves is so too, from the moment on at which opening ended.
/// Status 8 may come earlier, since more commits may be made than one thread makes.
///
/// It waits for threads, and may not return: that it does, and that a second thread runs, is promised by nobody.
pub fn replay<D: ZonedDisk + Send, S: Source, K: Sink, G: Gate + Sync, R: Threads + Wait + Sync>(
    rt: &R,
    alloc: Global,
    words: &[String],
    disk: D,
    script: &mut S,
    out: &mut K,
    gate: &G,
) -> (Status, D)
    // What is told of a run, and what it leaves, as far as a hand-over between threads keeps it: the outcome with its
    // cause, a legal history with each caller's requests in its order, what a stop leaves at each moment since opening
    // ended, and the report's text in the sink.
    ensures report { ReportsShared (behind_actors (map string_bytes words.now)) (S.left script.old) (D.view disk)
        (D.view result.1) result.0.0 (K.held out.old) (K.held out.new) (K.faults out.old) (K.faults out.new) }

    // What the status says of words and objects. Where a cause holds, and nothing fails, the run ends so, unless
    // no memory or no generation is found.
    ensures status { AnswersShared (behind_actors (map string_bytes words.now)) (S.left script.old) (D.view disk)
        (D.view result.1) result.0.0 (S.faults script.old) (S.faults script.new) (K.faults out.old) (K.faults out.new) }

    // The disk is the very one where no call came to it, and had one flush and no write where it is no volume.
    ensures same { ReplayEndedBefore Opening result.0.0 → result.1 ≡ disk }
    ensures refused { result.0.0 ≡ 3 → IsFlushed (D.view disk) (D.view result.1) }
{
    let (actors, words) = split_actors(words);
    match plan_of(alloc, words, script) {
        Ok(plan) => shared_session(rt, alloc, disk, plan, actors, out, gate),
        Err(outcome) => (tell_alone(alloc, out, outcome), disk),
    }
}
