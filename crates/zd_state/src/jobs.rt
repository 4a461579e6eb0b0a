//! The job under way.

ghost use Rattle.std.specs.Prelude.{◌≡◌, ◌≢◌, ◌↔◌, ℕ, None, Some, set, false};
ghost use Rattle.zd_alloc.specs.Zones.{use_after_release, use_at};
ghost use Rattle.zd_alloc.specs.declared.uses.ZoneUse.TheVariants.{Held};
ghost use Rattle.zd_state.specs.Seen.{SameSession};
ghost use Rattle.zd_volume.specs.Abandons.{IsAbandoned};
ghost use Rattle.zd_volume.specs.Uses.{IsMoved};

use crate::state::VolumeState;
use crate::volume::Volume;
use zd_alloc::Alloc;
use zd_base::ZoneNo;
use zd_disk::ZonedDisk;
use zd_volume::{JobKind, Work};

/// The zone that a job has taken, a Move: none else has taken one.
fn taken_by(job: Option<Work>) -> Option<ZoneNo>
    ensures { (z : ℕ) → (result ≡ Some z) ↔ IsMoved job z }
{
    match job {
        Some(work) if work.job.kind == JobKind::Move => work.target,
        _ => None,
    }
}

/// Gives back the zone that a job, a Move, has taken. It is free.
fn give_back(alloc: &mut Alloc, job: Option<Work>)
    requires held { (z : ℕ) → IsMoved job z → use_at alloc.old.zones z ≡ Held }
    ensures taken { (z : ℕ) → IsMoved job z → alloc.new.zones ≡ set alloc.old.zones z (use_after_release false) }
    ensures others { ((z : ℕ) → IsMoved job z → ⊥) → alloc.new.zones ≡ alloc.old.zones }
    ensures conv { alloc.new.conv ≡ alloc.old.conv }
    ensures order { alloc.new.order ≡ alloc.old.order }
{
    if let Some(zone) = taken_by(job) {
        alloc.release(zone, false);
    }
}

impl VolumeState {
    /// No job is under way any more. The zone that a Move has taken is free.
    fn give_up(&mut self)
        requires held { (z : ℕ) → IsMoved self.old.plain.job z → use_at self.old.plain.division.zones z ≡ Held }
        ensures given_up { IsAbandoned self.old.plain self.new.plain }
        ensures spare { self.new.spare ≡ self.old.spare }
        ensures room { self.new.room ≡ self.old.room }
    {
        give_back(&mut self.alloc, self.job);
        self.job = None;
    }
}

impl<D: ZonedDisk> Volume<D> {
    /// Gives up the job under way. The zone that a Move has taken is free, and no map names it; all else
    /// stays. No call of the disk is made.
    pub fn abandon(&mut self)
        requires running { self.old.plain.stopped ≡ None }
        requires job { self.old.plain.job ≢ None }
        ensures given_up { IsAbandoned self.old.plain self.new.plain }
        ensures disk { self.new.disk ≡ self.old.disk }
        ensures same { SameSession 0 self.old self.new }
    {
        self.state.give_up();
    }
}
