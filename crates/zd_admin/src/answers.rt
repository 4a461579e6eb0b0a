//! How a run ends, by the answer of what was asked for.

ghost use Rattle.std.specs.Prelude.{◌≡◌};
ghost use Rattle.zd_admin.specs.Answers.{check_outcome, examine_outcome, format_outcome, relabel_outcome, repair_outcome, status_outcome, upgrade_outcome};

use crate::outcome::{AdminWork, Difference, Outcome};
use crate::volume::VolumeStatus;
use zd_check::Verdict;
use zd_examine::OpenFault;
use zd_format::{FormatFault, Formatted};
use zd_model::NoVolume;
use zd_repair::{RelabelFault, RepairFault, UpgradeFault};

/// How a run ends whose disk can't be examined, or is no volume.
pub fn examine_outcome(fault: OpenFault) -> Outcome
    ensures { result ≡ examine_outcome fault }
{
    match fault {
        OpenFault::NoSuperBlock => Outcome::NoVolume(NoVolume::NoSuperBlock),
        OpenFault::Layout => Outcome::NoVolume(NoVolume::Layout),
        OpenFault::BadMap { chunk } => Outcome::NoVolume(NoVolume::BadMap { chunk }),
        OpenFault::BadBits { zone, block } => Outcome::NoVolume(NoVolume::BadBits { zone, block }),
        OpenFault::Device => Outcome::Device,
        OpenFault::Memory => Outcome::Memory,
    }
}

/// How a run ends whose formatting answered so.
pub fn format_outcome(answer: Result<Formatted, FormatFault>) -> Outcome
    ensures { result ≡ format_outcome answer }
{
    match answer {
        Ok(made) => Outcome::Done(AdminWork::Formatted {
            chunks: made.layout.chunks,
            zone_blocks: made.geometry.zone_blocks(),
        }),
        Err(FormatFault::Unfit) => Outcome::Unfit,
        Err(FormatFault::Device) => Outcome::Device,
        Err(FormatFault::Memory) => Outcome::Memory,
    }
}

/// How a run ends whose check answered so.
pub fn check_outcome(answer: Result<Verdict, OpenFault>) -> Outcome
    ensures { result ≡ check_outcome answer }
{
    match answer {
        Ok(Verdict::Same) => Outcome::Done(AdminWork::Checked),
        Ok(Verdict::Super { set }) => Outcome::Differs(Difference::Super { set }),
        Ok(Verdict::Block { block }) => Outcome::Differs(Difference::Block { block }),
        Err(fault) => examine_outcome(fault),
    }
}

/// How a run ends that shows a volume, or doesn't.
pub fn status_outcome(answer: Result<VolumeStatus, OpenFault>) -> Outcome
    ensures { result ≡ status_outcome answer }
{
    match answer {
        Ok(status) => Outcome::Done(AdminWork::Shown(status)),
        Err(fault) => examine_outcome(fault),
    }
}

/// How a run ends where no repair was made.
pub fn repair_outcome(fault: RepairFault) -> Outcome
    ensures { result ≡ repair_outcome fault }
{
    match fault {
        RepairFault::NoSuperBlock => Outcome::NoVolume(NoVolume::NoSuperBlock),
        RepairFault::Layout => Outcome::NoVolume(NoVolume::Layout),
        RepairFault::Device => Outcome::Device,
        RepairFault::Generation => Outcome::Generation,
        RepairFault::Memory => Outcome::Memory,
    }
}

/// How a run ends where no new label was given.
pub fn relabel_outcome(fault: RelabelFault) -> Outcome
    ensures { result ≡ relabel_outcome fault }
{
    match fault {
        RelabelFault::Open(fault) => examine_outcome(fault),
        RelabelFault::Old => Outcome::Old,
        RelabelFault::Generation => Outcome::Generation,
        RelabelFault::Device => Outcome::Device,
    }
}

/// How a run ends where no upgrade was made.
pub fn upgrade_outcome(fault: UpgradeFault) -> Outcome
    ensures { result ≡ upgrade_outcome fault }
{
    match fault {
        UpgradeFault::Open(fault) => examine_outcome(fault),
        UpgradeFault::NotOld => Outcome::NotOld,
        UpgradeFault::Generation => Outcome::Generation,
        UpgradeFault::Device => Outcome::Device,
    }
}
