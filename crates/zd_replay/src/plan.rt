//! The run of a plan over a volume that was opened.

ghost use Rattle.std.specs.Prelude.{◌≡◌, ◌<◌, ◌≤◌};
ghost use Rattle.zd_model.specs.declared.texts.Outcome.TheVariants.{Ended};
ghost use Rattle.zd_plain.specs.Plan.{IsPlan};
ghost use Rattle.zd_replay.specs.Run.{RunsInTime, RunsPlan};
ghost use Rattle.zd_session.specs.SessionEnds.{IsHistoryOf};
ghost use Rattle.zd_session.specs.LoneSessions.{IsFreshVolume};

use crate::caused::Caused;
use std::alloc::Global;
use std::sync::Wait;
use std::thread::Threads;
use zd_base::{Memory, Why};
use zd_disk::ZonedDisk;
use zd_plain::{Ending, History, Plan};
use zd_session::{Session, one_constant};
use zd_state::Volume;
use zd_workers::{Gate, run_actors};

/// What a volume is left with that no session runs: what stands in its history, and its disk.
fn parts_of<D: ZonedDisk>(volume: Volume<D>) -> (History, D)
    ensures history { result.0.items ≡ volume.plain.history }
    ensures disk { result.1 ≡ volume.disk }
    ensures shown { IsHistoryOf volume.plain volume.plain.history (D.view volume.opening) (D.view volume.disk) }
{
    volume.shows();
    volume.counts();
    volume.serves();
    volume.safe();
    volume.into_parts()
}

/// Runs a plan over a volume that has answered nothing yet, by one actor, until all is done or something stops
/// it; and closes the volume where nothing has. What was answered, the disk, and how the run ended.
///
/// No memory may be found for the session, before anything is answered.
pub fn run_plan<D: ZonedDisk>(alloc: Global, volume: Volume<D>, plan: Plan) -> (History, D, Ending)
    requires plan { IsPlan plan }
    requires fresh { IsFreshVolume volume }
    ensures runs { RunsPlan plan (Ended result.2) result.0.items volume.plain
        (D.view volume.opening) (D.view result.1) }
    ensures timely { RunsInTime plan (Ended result.2) result.0.items volume.plain
        (D.view volume.opening) (D.view result.1) }
{
    volume.sound();
    let mut session = match Session::begin(alloc, volume, plan, 1) {
        Ok(session) => session,
        Err((Memory, volume)) => {
            let (history, disk) = parts_of(volume);
            return (history, disk, Ending::Stopped(Why::Memory));
        }
    };
    session.run_alone();
    session.volume().calm();
    session.finish()
}

/// The same by so many actors, each in a thread of its own where one can be started. An actor passes the gate
/// after each step that it made. Where no memory is found for the threads, the caller steps for all in turn.
pub fn run_shared<D: ZonedDisk + Send, G: Gate + Sync, R: Threads + Wait + Sync>(
    rt: &R,
    alloc: Global,
    volume: Volume<D>,
    plan: Plan,
    actors: u32,
    gate: &G,
) -> (History, D, Ending)
    requires plan { IsPlan plan }
    requires fresh { IsFreshVolume volume }
    requires range { (0 < actors) × (actors ≤ 64) }
    ensures { RunsPlan plan (Ended result.2) result.0.items volume.plain
        (D.view volume.opening) (D.view result.1) }
{
    volume.sound();
    let session = match Session::begin(alloc, volume, plan, actors as usize) {
        Ok(session) => session,
        Err((Memory, volume)) => {
            let (history, disk) = parts_of(volume);
            return (history, disk, Ending::Stopped(Why::Memory));
        }
    };
    let caused = run_actors(rt, alloc, Caused { session }, actors, gate);
    one_constant::<D>();
    let Caused { session: ended } = caused;
    ended.volume().calm();
    ended.finish()
}
