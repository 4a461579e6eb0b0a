//! Closing a volume.

ghost use Rattle.std.specs.Prelude.{◌≡◌, None, OnOk, IfErr};
ghost use Rattle.zd_base.specs.declared.numbers.Why.{Why};
ghost use Rattle.zd_commit.specs.Closed.{Finishes, IsClosed, StopsClosing, StopsCommitting};
ghost use Rattle.zd_commit.specs.Closed.{calls_to_close, calls_to_finish};
ghost use Rattle.zd_disk.specs.View.{HasFailed, IsDurable, Made, Stays};
ghost use Rattle.zd_state.specs.Seen.{SameSession};
ghost use Rattle.zd_volume.specs.Abandons.{IsAbandoned};

use crate::run::run_commit;
use zd_base::Why;
use zd_disk::ZonedDisk;
use zd_state::{Phase, Volume};

/// Gives up the job under way, if there is one.
fn give_up<D: ZonedDisk>(v: &mut Volume<D>)
    requires running { v.old.plain.stopped ≡ None }
    ensures given_up { IsAbandoned v.old.plain v.new.plain }
    ensures disk { v.new.disk ≡ v.old.disk }
    ensures same { SameSession 0 v.old v.new }
{
    if v.job().is_some() {
        v.abandon();
    }
}

/// Finishes the commit that is under way, if one is.
fn finish<D: ZonedDisk>(v: &mut Volume<D>) -> Result<(), Why>
    requires running { v.old.plain.stopped ≡ None }
    ensures ok { OnOk result (Finishes v.old.plain.phase v.old.plain v.new.plain) }
    ensures calls { OnOk result (Made (calls_to_finish v.old.plain.dirty v.old.plain.phase)
        (D.view v.old.disk) (D.view v.new.disk)) }
    ensures err { IfErr result (StopsCommitting v.old.plain v.new.plain) }
    ensures stays { Stays (D.view v.old.disk) (D.view v.new.disk) }
    ensures same { SameSession 0 v.old v.new }
    ensures cause { IfErr result (λ why. why ≡ Why.Device → HasFailed (D.view v.old.disk) (D.view v.new.disk)) }
{
    if v.phase() == Phase::Idle {
        Ok(())
    } else {
        run_commit(v)
    }
}

/// Closes a volume: gives up the job under way, finishes the commit under way, then makes a whole commit.
///
/// After Ok a stop leaves what the disk reads as alone: both sets have the tables of now, and all that was
/// answered outlasts a stop. An error is the cause for which the volume stopped, as for `run_commit`; what was
/// answered stays as it was.
pub fn close<D: ZonedDisk>(v: &mut Volume<D>) -> Result<(), Why>
    requires running { v.old.plain.stopped ≡ None }
    ensures ok { OnOk result (IsClosed v.old.plain v.new.plain) }
    ensures durable { OnOk result (IsDurable (D.view v.new.disk)) }
    ensures calls { OnOk result (Made (calls_to_close v.old.plain.dirty v.old.plain.phase)
        (D.view v.old.disk) (D.view v.new.disk)) }
    ensures err { IfErr result (StopsClosing v.old.plain v.new.plain) }
    ensures stays { Stays (D.view v.old.disk) (D.view v.new.disk) }
    ensures same { SameSession 0 v.old v.new }
    ensures cause { IfErr result (λ why. why ≡ Why.Device → HasFailed (D.view v.old.disk) (D.view v.new.disk)) }
{
    give_up(v);
    finish(v)?;
    run_commit(v)
}
