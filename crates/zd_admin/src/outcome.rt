//! How a run ends.

ghost use Rattle.std.specs.Prelude.{◌≡◌, IfNone, IfOk, IfSome};
ghost use Rattle.zd_admin.specs.Output.{IsFixedOutput, admin_status, admin_telling};

use crate::texts::{differs_text, formatted_text, refused_text, repaired_text, shown_text};
use crate::volume::VolumeStatus;
use std::alloc::Global;
use zd_base::{Memory, Status};
use zd_model::NoVolume;
use zd_repair::Repaired;
use zd_report::fixed_line;
use zd_tell::Message;

/// What was done, as it is told.
#[derive(Clone, Copy, Debug, PartialEq, Eq)]
pub enum AdminWork {
    /// The disk was formatted, with so many chunks of so many blocks.
    Formatted { chunks: u32, zone_blocks: u32 },
    /// The disk was checked, and both sets of metadata are the same.
    Checked,
    /// The disk is a volume: so much was wrong in its tables, and was dropped.
    Repaired(Repaired),
    /// The disk is this volume.
    Shown(VolumeStatus),
    /// The volume has the label that was asked for.
    Relabeled,
    /// The volume is of version 2.
    Upgraded,
}

/// What differs first between the sets of metadata of a volume.
#[derive(Clone, Copy, Debug, PartialEq, Eq)]
pub enum Difference {
    /// The super block of this set, the other one, is bad or isn't that of the chosen set.
    Super { set: u32 },
    /// This block, counted from the super block of its set.
    Block { block: u32 },
}

/// How a run ended, as its last line tells it. Each has an exit status of its own.
#[derive(Clone, Copy, Debug, PartialEq, Eq)]
pub enum Outcome {
    /// What was asked for was done.
    Done(AdminWork),
    /// The words are no command.
    Usage,
    /// The disk is no volume.
    NoVolume(NoVolume),
    /// A call of the disk failed.
    Device,
    /// No memory was found.
    Memory,
    /// A change was due, and the generation of the volume is the last one.
    Generation,
    /// The disk is a volume whose sets of metadata differ.
    Differs(Difference),
    /// The disk has no room for the volume.
    Unfit,
    /// The volume is of version 1, which has no label.
    Old,
    /// The volume that was to be upgraded is of version 2.
    NotOld,
}

impl Message for Outcome {
    ghost telling = { admin_telling };

    ghost fixed = { IsFixedOutput };

    fn status(&self) -> Status {
        Status(match self {
            Outcome::Done(_) => 0,
            Outcome::Usage => 1,
            Outcome::NoVolume(_) => 3,
            Outcome::Device => 4,
            Outcome::Memory => 7,
            Outcome::Generation => 8,
            Outcome::Differs(_) => 9,
            Outcome::Unfit => 10,
            Outcome::Old => 12,
            Outcome::NotOld => 13,
        })
    }

    fn line(&self) -> Option<&'static str> {
        match self {
            Outcome::Done(
                AdminWork::Formatted { .. } | AdminWork::Repaired(_) | AdminWork::Shown(_),
            )
            | Outcome::NoVolume(NoVolume::BadMap { .. } | NoVolume::BadBits { .. })
            | Outcome::Differs(_) => None,
            Outcome::Done(AdminWork::Checked | AdminWork::Relabeled | AdminWork::Upgraded) => {
                Some("end 0 ok\n")
            }
            Outcome::Usage => Some("end 1 usage\n"),
            Outcome::NoVolume(kind) => Some(fixed_line(&zd_model::Outcome::NoVolume(*kind))),
            Outcome::Device => Some("end 4 device\n"),
            Outcome::Memory => Some("end 7 memory\n"),
            Outcome::Generation => Some("end 8 generation\n"),
            Outcome::Unfit => Some("end 10 unfit\n"),
            Outcome::Old => Some("end 12 old-version\n"),
            Outcome::NotOld => Some("end 13 not-old\n"),
        }
    }

    fn text(&self, alloc: Global) -> Result<Vec<u8>, Memory> {
        match self {
            Outcome::Done(
                AdminWork::Formatted {
                    chunks,
                    zone_blocks,
                },
            ) => formatted_text(alloc, *chunks, *zone_blocks).map_err(|_| Memory),
            Outcome::Done(AdminWork::Repaired(dropped)) => repaired_text(alloc, dropped).map_err(
                |_| Memory,
            ),
            Outcome::Done(AdminWork::Shown(volume)) => shown_text(alloc, volume).map_err(
                |_| Memory,
            ),
            Outcome::Differs(difference) => differs_text(alloc, *difference).map_err(|_| Memory),
            Outcome::NoVolume(kind) => refused_text(alloc, *kind),
            _ => unreachable!(),
        }
    }
}
