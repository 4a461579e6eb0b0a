//! The steps of a job.

ghost use Rattle.std.specs.Prelude.{◌≡◌, ◌≢◌, None, Ok, Some};
ghost use Rattle.zd_base.specs.declared.steps.StepKind.{StepKind};
ghost use Rattle.zd_jobs.specs.NextSteps.{IsNextStep};
ghost use Rattle.zd_reclaim.specs.Works.{MakesNextStep};
ghost use Rattle.zd_state.specs.Seen.{SameSession};
ghost use Rattle.zd_volume.specs.declared.phase.Phase.TheVariants.{Idle};

use zd_base::{StepKind, Why};
use zd_disk::ZonedDisk;
use zd_state::Volume;

/// The step that comes next of the job under way.
fn next_kind<D: ZonedDisk>(v: &Volume<D>) -> StepKind
    requires { v.now.plain.job ≢ None }
    ensures { IsNextStep v.now.plain v.now.plain.job (Some result) }
{
    v.next_of_job().unwrap()
}

/// Makes the next step of the job under way, and answers its kind: it reads the next run of blocks, writes what was
/// read or zeros into a gap, or ends the job. That makes one call of the disk, and none where the job ends. While a
/// commit is under way no job may end.
///
/// `Device` only where the disk failed: the job is where it was, and the volume is stopped. No other error comes.
pub fn step<D: ZonedDisk>(v: &mut Volume<D>) -> Result<StepKind, Why>
    requires running { v.old.plain.stopped ≡ None }
    requires job { v.old.plain.job ≢ None }
    requires idle { IsNextStep v.old.plain v.old.plain.job (Some StepKind.Remap) → v.old.plain.phase ≡ Idle }
    ensures step { MakesNextStep v.old.plain v.new.plain result (D.view v.old.disk) (D.view v.new.disk) }
    ensures disk { result ≡ Ok StepKind.Remap → v.new.disk ≡ v.old.disk }
    ensures same { SameSession 0 v.old v.new }
{
    let kind = next_kind(v);
    match kind {
        StepKind::CopyRead => v.copy_read()?,
        StepKind::CopyWrite => v.copy_write()?,
        _ => v.remap(),
    }
    Ok(kind)
}
