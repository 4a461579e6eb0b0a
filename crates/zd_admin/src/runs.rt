//! A run, from words to the last line.

ghost use Rattle.std.specs.Prelude.{◌≡◌, ◌+◌, ◌≤◌, ◌↔◌, map, string_bytes};
ghost use Rattle.zd_ports.specs.Taking.{IsFaultless};
ghost use Rattle.zd_admin.specs.Words.{Asks, IsAdminCommand};
ghost use Rattle.zd_admin.specs.Admin.{AdminReports, EndsWell, KeepsAsked, StatusSays};
ghost use Rattle.zd_admin.specs.declared.words.Asked.{Asked};

use crate::operations::run;
use crate::outcome::Outcome;
use crate::words::command;
use std::alloc::Global;
use zd_base::Status;
use zd_disk::ZonedDisk;
use zd_ports::Sink;
use zd_tell::tell;

/// Does what the words ask for on a disk, and tells how it ended. It hands the disk back.
///
/// So far there are three commands. `--format --seq R --uuid U IMAGE`: the disk becomes a volume of zeros
/// with R reserved zones, no label, and the identifier U. `--check IMAGE`: whether the disk is a volume, and
/// its two sets of metadata are the same; nothing is written. `--status IMAGE`: what the volume on the disk is, and
/// how much of it is in use; nothing is written.
///
/// The status is 0 where all was done: the disk was formatted, or is such a volume. It is 1 where the words are no
/// command, 3 where a disk that is to be checked or shown is no volume, 4 where the disk failed, 6 where the sink
/// failed and nothing else was wrong, 7 where no memory was found, 9 where the sets differ, and 10 where the disk has
/// no room for the volume.
pub fn admin<D: ZonedDisk, K: Sink>(
    alloc: Global,
    words: &[String],
    disk: D,
    out: &mut K,
) -> (Status, D)
    ensures usage { (result.0.0 ≡ 1) ↔ (IsAdminCommand (map string_bytes words.now) → ⊥) }

    // How the run ended, with its cause, what the sink took of it, and that status 6 blames the sink.
    ensures report { AdminReports (map string_bytes words.now) (D.view disk).zones (D.view result.1).told
        result.0.0 (K.held out.old) (K.held out.new) (K.faults out.old) (K.faults out.new) }

    ensures status { StatusSays (map string_bytes words.now) (D.view disk) (D.view result.1) result.0.0 }

    // What is kept whatever the status. Where the words are no command, the disk is the very value.
    ensures kept { (asked : Asked) → Asks (map string_bytes words.now) asked →
        KeepsAsked asked (result.0.0 ≡ 4 → (D.view disk).calls + 2 ≤ (D.view result.1).calls)
        (D.view disk) (D.view result.1) }
    ensures same { result.0.0 ≡ 1 → result.1 ≡ disk }

    // Where nothing is wrong and nothing fails, room and image decide, unless no memory is found.
    ensures complete { IsAdminCommand (map string_bytes words.now) →
        IsFaultless (D.view disk).faults (D.view result.1).faults →
        IsFaultless (K.faults out.old) (K.faults out.new) →
        EndsWell (map string_bytes words.now) (D.view disk).zones (D.view result.1).told result.0.0 }
{
    let Some(asked) = command(words) else {
        return (tell(alloc, out, &Outcome::Usage), disk);
    };
    let (outcome, disk) = run(alloc, disk, asked);
    let status = tell(alloc, out, &outcome);
    (status, disk)
}
