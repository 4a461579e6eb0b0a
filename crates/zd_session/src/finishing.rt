//! How a session ends.

ghost use Rattle.std.specs.Prelude.{◌≡◌, ◌-◌, ◌<◌, ◌^◌, true};
ghost use Rattle.zd_disk.specs.Told.{WhereTold};
ghost use Rattle.zd_model.specs.Image.{Image};
ghost use Rattle.zd_model.specs.Safe.{base_at};
ghost use Rattle.zd_model.specs.declared.requests.Ending.{Ending};
ghost use Rattle.zd_session.specs.SessionEnds.{EndsVolume, FinishesSession, IsHistoryOf};
ghost use Rattle.zd_session.specs.Sessions.{ended_of};
ghost use Rattle.zd_state.specs.ClosedImages.{IsClosedImage};

use crate::serving::known;
use crate::session::Session;
use zd_commit::close;
use zd_disk::ZonedDisk;
use zd_model::Ending;
use zd_plain::History;
use zd_state::Volume;

/// Closes a volume that goes on, and answers how its session ended.
fn end<D: ZonedDisk>(volume: &mut Volume<D>) -> Ending
    ensures ends { EndsVolume volume.old.plain volume.new.plain (D.view volume.old.disk) (D.view volume.new.disk)
        result volume.old.plain.stopped }
    ensures opening { volume.new.opening ≡ volume.old.opening }
    ensures closed { result ≡ Ending.Ok → (D.view volume.new.disk).calls < 2 ^ 64 - 1 →
        WhereTold (D.view volume.new.disk).zones (λ _.
        (i : Image) → (D.view volume.new.disk).left (D.view volume.new.disk).calls i →
        IsClosedImage (base_at (D.view volume.new.opening).zones) volume.new.plain.history i) }
{
    if let Some(why) = volume.stopped() {
        return Ending::Stopped(why);
    }
    match close(volume) {
        Ok(()) => {
            volume.closed();
            Ending::Ok
        }
        Err(why) => Ending::Stopped(why),
    }
}

/// What is true of the history that a volume hands out.
fn shown<D: ZonedDisk>(volume: &Volume<D>)
    ensures { IsHistoryOf volume.now.plain volume.now.plain.history (D.view volume.now.opening)
        (D.view volume.now.disk) }
{
    volume.shows();
    volume.counts();
    volume.serves();
    volume.safe();
}

impl<D: ZonedDisk> Session<D> {
    /// Hands out the history and the disk of a session that has ended, and how it did. A volume that goes on is closed
    /// first: a job under way is given up, a commit under way is finished, and a whole commit is made.
    pub fn finish(self) -> (History, D, Ending)
        requires { ended_of self ≡ true }
        ensures { FinishesSession D.view self result.0.items result.1 result.2 }
    {
        known(&self.volume, &self.progress);
        let mut volume = self.volume;
        let ending = end(&mut volume);
        shown(&volume);
        let (history, disk) = volume.into_parts();
        (history, disk, ending)
    }
}
