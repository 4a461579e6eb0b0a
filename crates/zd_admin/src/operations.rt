//! What the words ask for, done over a disk.

ghost use Rattle.std.specs.Prelude.{◌≡◌, ◌+◌, ◌≤◌};
ghost use Rattle.zd_disk.specs.View.{HasFailed, OnlyReads};
ghost use Rattle.zd_admin.specs.Admin.{AskedLeaves, EndsAsked, KeepsAsked, no_label};

use crate::answers::{
    check_outcome, format_outcome, relabel_outcome, repair_outcome, status_outcome, upgrade_outcome,
};
use crate::outcome::{AdminWork, Outcome};
use crate::volume::volume_status;
use crate::words::{Asked, LABEL};
use std::alloc::Global;
use uuid::Uuid;
use zd_check::check;
use zd_disk::ZonedDisk;
use zd_format::format_disk;
use zd_repair::{relabel, repair, upgrade};

/// The label of a volume that gets none.
const NO_LABEL: [u8; LABEL] = [0; LABEL];

/// Formats a disk.
#[tactic(auto, unfolding(crate::specs::Admin::no_label))]
fn run_format<D: ZonedDisk>(alloc: Global, mut disk: D, reserved: u32, volume: Uuid) -> (Outcome, D)
    ensures ended { EndsAsked (Asked.Format reserved volume) (D.view disk) (D.view result.1) result.0 }
    ensures leaves { AskedLeaves (Asked.Format reserved volume) result.0 (D.view disk) (D.view result.1) }
    ensures cause { result.0 ≡ Outcome.Device → HasFailed (D.view disk) (D.view result.1) }
{
    let answer = format_disk(alloc, &mut disk, reserved, NO_LABEL, volume);
    (format_outcome(answer), disk)
}

/// Checks a disk.
fn run_check<D: ZonedDisk>(alloc: Global, mut disk: D) -> (Outcome, D)
    ensures ended { EndsAsked Asked.Check (D.view disk) (D.view result.1) result.0 }
    ensures leaves { AskedLeaves Asked.Check result.0 (D.view disk) (D.view result.1) }
    ensures reads { OnlyReads (D.view disk) (D.view result.1) }
    ensures cause { result.0 ≡ Outcome.Device → HasFailed (D.view disk) (D.view result.1) }
{
    let answer = check(alloc, &mut disk);
    (check_outcome(answer), disk)
}

/// Makes a volume of a disk again.
fn run_repair<D: ZonedDisk>(alloc: Global, disk: D) -> (Outcome, D)
    ensures ended { EndsAsked Asked.Repair (D.view disk) (D.view result.1) result.0 }
    ensures leaves { AskedLeaves Asked.Repair result.0 (D.view disk) (D.view result.1) }
    ensures kept { KeepsAsked Asked.Repair
        (result.0 ≡ Outcome.Device → (D.view disk).calls + 2 ≤ (D.view result.1).calls)
        (D.view disk) (D.view result.1) }
    ensures cause { result.0 ≡ Outcome.Device → HasFailed (D.view disk) (D.view result.1) }
{
    match repair(alloc, disk) {
        Ok((dropped, disk)) => (Outcome::Done(AdminWork::Repaired(dropped)), disk),
        Err((fault, disk)) => (repair_outcome(fault), disk),
    }
}

/// Shows the volume on a disk.
fn run_status<D: ZonedDisk>(alloc: Global, mut disk: D) -> (Outcome, D)
    ensures ended { EndsAsked Asked.Show (D.view disk) (D.view result.1) result.0 }
    ensures leaves { AskedLeaves Asked.Show result.0 (D.view disk) (D.view result.1) }
    ensures reads { OnlyReads (D.view disk) (D.view result.1) }
    ensures cause { result.0 ≡ Outcome.Device → HasFailed (D.view disk) (D.view result.1) }
{
    let answer = volume_status(alloc, &mut disk);
    (status_outcome(answer), disk)
}

/// Gives the volume on a disk a new label.
fn run_relabel<D: ZonedDisk>(alloc: Global, disk: D, label: [u8; LABEL]) -> (Outcome, D)
    ensures ended { EndsAsked (Asked.Relabel label) (D.view disk) (D.view result.1) result.0 }
    ensures leaves { AskedLeaves (Asked.Relabel label) result.0 (D.view disk) (D.view result.1) }
    ensures kept { KeepsAsked (Asked.Relabel label)
        (result.0 ≡ Outcome.Device → (D.view disk).calls + 2 ≤ (D.view result.1).calls)
        (D.view disk) (D.view result.1) }
    ensures cause { result.0 ≡ Outcome.Device → HasFailed (D.view disk) (D.view result.1) }
{
    match relabel(alloc, disk, label) {
        Ok(disk) => (Outcome::Done(AdminWork::Relabeled), disk),
        Err((fault, disk)) => (relabel_outcome(fault), disk),
    }
}

/// Makes the volume on a disk one of version 2, without a label.
#[tactic(auto, unfolding(crate::specs::Admin::no_label))]
fn run_upgrade<D: ZonedDisk>(alloc: Global, disk: D, volume: Uuid) -> (Outcome, D)
    ensures ended { EndsAsked (Asked.Upgrade volume) (D.view disk) (D.view result.1) result.0 }
    ensures leaves { AskedLeaves (Asked.Upgrade volume) result.0 (D.view disk) (D.view result.1) }
    ensures kept { KeepsAsked (Asked.Upgrade volume)
        (result.0 ≡ Outcome.Device → (D.view disk).calls + 2 ≤ (D.view result.1).calls)
        (D.view disk) (D.view result.1) }
    ensures cause { result.0 ≡ Outcome.Device → HasFailed (D.view disk) (D.view result.1) }
{
    match upgrade(alloc, disk, NO_LABEL, volume) {
        Ok(disk) => (Outcome::Done(AdminWork::Upgraded), disk),
        Err((fault, disk)) => (upgrade_outcome(fault), disk),
    }
}

/// Does what was asked.
pub fn run<D: ZonedDisk>(alloc: Global, disk: D, asked: Asked) -> (Outcome, D)
    ensures ended { EndsAsked asked (D.view disk) (D.view result.1) result.0 }
    ensures leaves { AskedLeaves asked result.0 (D.view disk) (D.view result.1) }
    ensures kept { KeepsAsked asked
        (result.0 ≡ Outcome.Device → (D.view disk).calls + 2 ≤ (D.view result.1).calls)
        (D.view disk) (D.view result.1) }
    ensures cause { result.0 ≡ Outcome.Device → HasFailed (D.view disk) (D.view result.1) }
{
    match asked {
        Asked::Format { reserved, volume } => run_format(alloc, disk, reserved, volume),
        Asked::Check => run_check(alloc, disk),
        Asked::Repair => run_repair(alloc, disk),
        Asked::Show => run_status(alloc, disk),
        Asked::Relabel { label } => run_relabel(alloc, disk, label),
        Asked::Upgrade { volume } => run_upgrade(alloc, disk, volume),
    }
}
