//! What the choice of a step asks of a volume.

ghost use Rattle.std.specs.Prelude.{◌≡◌, true, false};
ghost use Rattle.zd_model.specs.declared.requests.Piece.{Piece};
ghost use Rattle.zd_steps.specs.Runs.{Standing, lacks_zone, writes};
ghost use Rattle.zd_steps.specs.NextStep.{is_commit_due, is_job_due};

use zd_base::StepKind;
use zd_model::Piece;

/// What the choice of a step asks of a volume. No question takes memory or calls the disk.
pub trait HasStanding {
    /// What the rules look at.
    ghost standing: { Self → Standing };

    /// Whether it can be asked about a piece.
    ghost knows: { Self → Piece → Type 0 };

    /// Whether it has stopped.
    fn stopped(&self) -> bool
        ensures { result ≡ (standing self.now).stopped };

    /// Whether a commit is under way.
    fn commits(&self) -> bool
        requires { (standing self.now).stopped ≡ false }
        ensures { result ≡ (standing self.now).commits };

    /// The next step of the job under way.
    fn job(&self) -> Option<StepKind>
        requires { (standing self.now).stopped ≡ false }
        ensures { result ≡ (standing self.now).job };

    /// Whether a write in range needs a conventional zone where none is free.
    fn lacks_zone(&self, piece: &Piece) -> bool
        requires running { (standing self.now).stopped ≡ false }
        requires known { knows self.now piece.now }
        requires writes { writes piece.now ≡ true }
        requires in_range { piece.now.range ≡ false }
        ensures { result ≡ lacks_zone (standing self.now) piece.now };

    /// Whether a commit is due, where a flush is eligible or not, and a zone is wanted or not.
    fn commit_due(&self, flush_waits: bool, wanted: bool) -> bool
        requires { (standing self.now).stopped ≡ false }
        ensures { result ≡ is_commit_due (standing self.now) flush_waits wanted };

    /// Whether a job is due, where a zone is wanted or not.
    fn job_due(&self, wanted: bool) -> bool
        requires { (standing self.now).stopped ≡ false }
        ensures { result ≡ is_job_due (standing self.now) wanted };
}
