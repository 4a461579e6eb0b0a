//! What a volume promises of its disk once it is closed.

ghost use Rattle.std.specs.Prelude.{◌≡◌, ◌-◌, ◌<◌, ◌^◌, None, Some};
ghost use Rattle.zd_disk.specs.Told.{WhereTold};
ghost use Rattle.zd_disk.specs.View.{IsDurable};
ghost use Rattle.zd_model.specs.Image.{Image};
ghost use Rattle.zd_model.specs.Safe.{base_at};
ghost use Rattle.zd_state.specs.ClosedImages.{IsClosedImage};
ghost use Rattle.zd_volume.specs.declared.phase.Phase.TheVariants.{Idle};

use crate::volume::Volume;
use zd_disk::ZonedDisk;

impl<D: ZonedDisk> Volume<D> {
    /// The disk tells what it reads as where it did when opening ended.
    pub fn shows(&self)
        ensures { WhereTold (D.view self.now.opening).zones (λ _.
            (i : Image) × ((D.view self.now.disk).zones ≡ Some i)) }
    {
        let _state = &self.state;
    }

    /// Where no commit is under way, the tables are the committed ones, and a stop leaves what the disk
    /// reads as alone, it leaves both sets equal, and the last content.
    pub fn closed(&self)
        requires running { self.now.plain.stopped ≡ None }
        requires idle { self.now.plain.phase ≡ Idle }
        requires committed { self.now.plain.committed ≡ self.now.plain.fresh }
        requires durable { IsDurable (D.view self.now.disk) }
        ensures { (D.view self.now.disk).calls < 2 ^ 64 - 1 → WhereTold (D.view self.now.disk).zones (λ _.
            (i : Image) → (D.view self.now.disk).left (D.view self.now.disk).calls i →
            IsClosedImage (base_at (D.view self.now.opening).zones) self.now.plain.history i) }
    {
        let _state = &self.state;
    }
}
