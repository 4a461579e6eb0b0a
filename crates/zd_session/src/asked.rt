//! What the choice of a step asks of the volume.

use zd_base::StepKind;
use zd_disk::ZonedDisk;
use zd_model::Piece;
use zd_state::{Phase, Volume};
use zd_steps::HasStanding;

/// A volume, as the choice of a step asks it.
#[derive(Drop)]
pub(crate) struct Asked<'a, D: ZonedDisk> {
    pub(crate) volume: &'a Volume<D>,
}

impl<'a, D: ZonedDisk> HasStanding for Asked<'a, D> {
    ghost use Rattle.zd_session.specs.Sessions.{CanServe, no_edges};
    ghost use Rattle.zd_session.specs.Standings.{standing_of};

    ghost standing = { λ a. standing_of a.volume.now.plain no_edges };

    ghost knows = { λ a p. CanServe a.volume.now.plain p };

    fn stopped(&self) -> bool {
        self.volume.stopped().is_some()
    }

    fn commits(&self) -> bool {
        self.volume.phase() != Phase::Idle
    }

    fn job(&self) -> Option<StepKind> {
        self.volume.sound();
        self.volume.next_of_job()
    }

    fn lacks_zone(&self, piece: &Piece) -> bool {
        self.volume.sound();
        zd_write::place(self.volume, piece).is_none()
    }

    fn commit_due(&self, flush_waits: bool, wanted: bool) -> bool {
        zd_commit::due(self.volume, flush_waits, wanted)
    }

    fn job_due(&self, wanted: bool) -> bool {
        self.volume.sound();
        zd_reclaim::due(self.volume, wanted)
    }
}
