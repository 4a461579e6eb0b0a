//! A volume over its disk.

ghost use Rattle.std.specs.Prelude.{◌≡◌, ◌-◌, ◌<◌, ◌^◌, None, ℕ};
ghost use Rattle.zd_disk.specs.Moments.{AtEach};
ghost use Rattle.zd_disk.specs.Told.{WhereTold};
ghost use Rattle.zd_model.specs.Safe.{IsSafe, base_at};
ghost use Rattle.zd_model.specs.Image.{Image};
ghost use Rattle.zd_volume.specs.FaultCounts.{AreCalm, TellsFaults};
ghost use Rattle.zd_volume.specs.Volumes.{CountsSince, IsFixed};

use crate::state::VolumeState;
use std::marker::Model;
use std::snapshot::Snapshot;
use zd_disk::ZonedDisk;

/// A volume over a disk.
#[derive(Drop)]
pub struct Volume<D: ZonedDisk> {
    pub(crate) disk: D,
    pub(crate) opening: Snapshot<D>,
    pub(crate) state: VolumeState,
}

impl<D: ZonedDisk> Model for Volume<D> {
    ghost use Rattle.zd_state.specs.Seen.{Seen};
    ghost use Rattle.zd_volume.specs.Volumes.{IsKeptVolume};

    ghost Value = { Seen D };

    ghost view = { λ v. record {
      disk = v.disk;
      opening = v.opening.value;
      plain = v.state.plain;
      spare = v.state.spare;
      room = v.state.room;
    } };

    ghost invariant = { λ v. IsKeptVolume v.state.plain (D.view v.opening.value) (D.view v.disk) };
}

impl<D: ZonedDisk> Volume<D> {
    /// A stop at any moment since opening leaves a well-formed image, each sector of which has a value
    /// that it may hold by the history. Of moments before opening's end no more is left than was then.
    pub fn safe(&self)
        ensures safe { (D.view self.now.disk).calls < 2 ^ 64 - 1 → WhereTold (D.view self.now.disk).zones (λ _.
            AtEach (IsSafe (base_at (D.view self.now.opening).zones) self.now.plain.history)
            (D.view self.now.opening).calls (D.view self.now.disk).calls (D.view self.now.disk).left) }
        ensures earlier { (D.view self.now.disk).calls < 2 ^ 64 - 1 → WhereTold (D.view self.now.disk).zones (λ _.
            (k : ℕ) (i : Image) → k < (D.view self.now.opening).calls →
            (D.view self.now.disk).left k i → (D.view self.now.opening).left k i) }
    {
        let _state = &self.state;
    }

    /// Each entry was made when no more writing calls had returned than now, and no more faults are told
    /// than the disk had since opening; one more where it stopped the volume.
    pub fn counts(&self)
        ensures calls { CountsSince self.now.plain (D.view self.now.opening).calls (D.view self.now.disk).calls }
        ensures faults { TellsFaults self.now.plain.history self.now.plain.stopped
            (D.view self.now.opening).faults (D.view self.now.disk).faults }
    {
        let _state = &self.state;
    }

    /// While it goes on, no entry but a read's is told as a fault: a write that the disk refused has stopped it.
    pub fn calm(&self)
        ensures { self.now.plain.stopped ≡ None → AreCalm self.now.plain.history }
    {
        let _state = &self.state;
    }

    /// What is true of its values alone.
    pub fn sound(&self)
        ensures { IsFixed self.now.plain }
    {
        let _state = &self.state;
    }
}
