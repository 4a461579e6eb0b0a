//! The steps of a commit, and a whole one.

ghost use Rattle.std.specs.Prelude.{◌≡◌, ◌≤◌, None, OnOk, IfErr, length};
ghost use Rattle.zd_commit.specs.Closed.{IsCommitted, StopsCommitting};
ghost use Rattle.zd_disk.specs.View.{HasFailed, IsDurable, Made, Stays};
ghost use Rattle.zd_base.specs.declared.numbers.Why.{Why};
ghost use Rattle.zd_state.specs.Seen.{SameSession, entries_of_commit};
ghost use Rattle.zd_volume.specs.CommitCalls.{EndsDurable, MakesCommitCall, StopsByDevice};
ghost use Rattle.zd_volume.specs.Commits.{AreFlushes, CommitStep, calls_left};

use zd_base::Why;
use zd_disk::ZonedDisk;
use zd_model::Piece;
use zd_state::{Committed, Volume};

/// Makes the next call of a commit: of the one that is under way, else of one that begins. `flushes` are the
/// flushes that wait, which are entered with the last call. See `Volume::commit_one`.
pub fn step<D: ZonedDisk>(v: &mut Volume<D>, flushes: &[Piece]) -> Committed
    requires running { v.old.plain.stopped ≡ None }
    requires flushes { AreFlushes flushes.now }
    requires spare { length flushes.now ≤ v.old.spare }
    ensures step { CommitStep v.old.plain v.new.plain flushes.now result }
    ensures call { MakesCommitCall result v.old.plain (D.view v.old.disk) (D.view v.new.disk) }
    ensures durable { EndsDurable result (D.view v.new.disk) }
    ensures same { SameSession (entries_of_commit result (length flushes.now)) v.old v.new }
    ensures cause { StopsByDevice result (D.view v.old.disk) (D.view v.new.disk) }
{
    v.commit_one(flushes)
}

/// Finishes the commit that is under way, or makes a whole one. No flush is entered.
///
/// After Ok a stop leaves what the disk reads as alone. An error is the cause for which the volume stopped:
/// `Device` only where the disk failed, `Generation` exactly where blocks were dirty at the last generation,
/// and then no call was made. `Memory` doesn't come.
pub fn run_commit<D: ZonedDisk>(v: &mut Volume<D>) -> Result<(), Why>
    requires running { v.old.plain.stopped ≡ None }
    ensures ok { OnOk result (IsCommitted v.old.plain v.new.plain) }
    ensures durable { OnOk result (IsDurable (D.view v.new.disk)) }
    ensures calls { OnOk result (Made (calls_left v.old.plain.dirty v.old.plain.phase)
        (D.view v.old.disk) (D.view v.new.disk)) }
    ensures err { IfErr result (StopsCommitting v.old.plain v.new.plain) }
    ensures stays { Stays (D.view v.old.disk) (D.view v.new.disk) }
    ensures same { SameSession 0 v.old v.new }
    ensures cause { IfErr result (λ why. why ≡ Why.Device → HasFailed (D.view v.old.disk) (D.view v.new.disk)) }
{
    let none: [Piece; 0] = [];
    loop {
        v.sound();
        match v.commit_one(&none) {
            Committed::More => {}
            Committed::Ended => return Ok(()),
            Committed::Stopped(why) => return Err(why),
        }
    }
}
