//! The steps of commits and of jobs, and the making of whichever step was chosen.

ghost use Rattle.std.specs.Prelude.{◌≡◌, ◌≢◌, ◌<◌, ◌≤◌, List, None, Some, length, true, vec_capacity};
ghost use Rattle.zd_base.specs.declared.steps.StepKind.{StepKind};
ghost use Rattle.zd_model.specs.declared.requests.Request.{Request};
ghost use Rattle.zd_session.specs.Moving.{HasMoved, IsGoing, MayMake, seen_by};
ghost use Rattle.zd_session.specs.SessionSteps.{Makes, ServesBegin, ServesCommit, ServesWork};
ghost use Rattle.zd_session.specs.Sessions.{edges_seen, pieces_on};
ghost use Rattle.zd_session.specs.Standings.{has_job, kind_next, standing_of};
ghost use Rattle.zd_steps.specs.NextStep.{kind_of};
ghost use Rattle.zd_volume.specs.declared.phase.Phase.TheVariants.{Idle};

use crate::progress::Progress;
use crate::serving::{known, serve};
use zd_base::{StepKind, Why};
use zd_disk::ZonedDisk;
use zd_model::Piece;
use zd_state::{Committed, Volume};
use zd_steps::Step;

/// Makes the next call of a commit. All flushes that are eligible wait for it; they are entered with its last call, or
/// where the disk fails.
fn commit<D: ZonedDisk>(volume: &mut Volume<D>, progress: &mut Progress, list: &mut Vec<Piece>)
    requires running { volume.old.plain.stopped ≡ None }
    requires going { IsGoing D.view volume.old progress.old }
    requires room { 64 ≤ vec_capacity list.old }
    ensures moved { HasMoved D.view volume.old volume.new progress.old progress.new }
    ensures serves { (plan : List Request) → progress.old.queue.callers.pieces ≡ pieces_on volume.old.plain plan →
        ServesCommit D.view (seen_by volume.old plan progress.old) (seen_by volume.new plan progress.new) }
    ensures room { 64 ≤ vec_capacity list.new }
{
    known(volume, progress);
    progress.queue.flushes(list);
    match zd_commit::step(volume, list) {
        Committed::More => {}
        Committed::Ended => progress.queue.enter_flushes(list),
        Committed::Stopped(why) => {
            if why == Why::Device {
                progress.queue.enter_flushes(list);
            }
        }
    }
}

/// Begins the job that is picked. Where the disk fails the volume has stopped.
fn begin_job<D: ZonedDisk>(volume: &mut Volume<D>, progress: &Progress)
    requires running { volume.old.plain.stopped ≡ None }
    requires going { IsGoing D.view volume.old progress.now }
    requires idle { volume.old.plain.phase ≡ Idle }
    requires free { volume.old.plain.job ≡ None }
    requires picks { has_job volume.old.plain ≡ true }
    ensures moved { HasMoved D.view volume.old volume.new progress.now progress.now }
    ensures serves { (plan : List Request) →
        ServesBegin D.view (seen_by volume.old plan progress.now) (seen_by volume.new plan progress.now) }
{
    known(volume, progress);
    match zd_reclaim::pick(volume) {
        Some(job) => {
            let _ = volume.take_zone(job);
        }
        None => unreachable!(),
    }
}

/// Makes the next step of the job under way. Where the disk fails the volume has stopped.
fn work<D: ZonedDisk>(volume: &mut Volume<D>, progress: &Progress)
    requires running { volume.old.plain.stopped ≡ None }
    requires going { IsGoing D.view volume.old progress.now }
    requires job { volume.old.plain.job ≢ None }
    requires idle { kind_next volume.old.plain volume.old.plain.job ≡ Some StepKind.Remap →
        volume.old.plain.phase ≡ Idle }
    ensures moved { HasMoved D.view volume.old volume.new progress.now progress.now }
    ensures serves { (plan : List Request) (kind : StepKind) →
        kind_next volume.old.plain volume.old.plain.job ≡ Some kind →
        ServesWork D.view (seen_by volume.old plan progress.now) (seen_by volume.new plan progress.now) kind }
{
    known(volume, progress);
    let _ = zd_reclaim::step(volume);
}

/// Makes a step, and answers its kind. `list` has room for the flushes that wait for a commit.
pub(crate) fn make<D: ZonedDisk>(
    volume: &mut Volume<D>,
    progress: &mut Progress,
    list: &mut Vec<Piece>,
    actor: usize,
    step: Step,
) -> StepKind
    requires running { volume.old.plain.stopped ≡ None }
    requires going { IsGoing D.view volume.old progress.old }
    requires inside { actor < length progress.old.queue.flights }
    requires may { MayMake volume.old.plain progress.old.queue actor step }
    requires room { 64 ≤ vec_capacity list.old }
    ensures moved { HasMoved D.view volume.old volume.new progress.old progress.new }
    ensures makes { (plan : List Request) → progress.old.queue.callers.pieces ≡ pieces_on volume.old.plain plan →
        Makes D.view (seen_by volume.old plan progress.old) (seen_by volume.new plan progress.new) actor (Some step) }
    ensures kind { result ≡ kind_of (standing_of volume.old.plain (edges_seen progress.old.actors.items actor)) step }
    ensures room { 64 ≤ vec_capacity list.new }
{
    match step {
        Step::Serve(piece) => serve(volume, progress, actor, &piece),
        Step::Commit => {
            commit(volume, progress, list);
            StepKind::Commit
        }
        Step::Begin => {
            begin_job(volume, progress);
            StepKind::TakeZone
        }
        Step::Work(kind) => {
            work(volume, progress);
            kind
        }
    }
}
