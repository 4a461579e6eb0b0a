//! What goes before and after a write or a discard in its step.

ghost use Rattle.std.specs.Prelude.{◌≡◌, ◌<◌, None};
ghost use Rattle.zd_state.specs.Seen.{SameSession};
ghost use Rattle.zd_volume.specs.Discards.{NoJobOn};
ghost use Rattle.zd_volume.specs.declared.phase.Phase.TheVariants.{Idle};
ghost use Rattle.zd_write.specs.Tries.{GivesUpOn, Settles};

use zd_base::ChunkNo;
use zd_disk::ZonedDisk;
use zd_state::Volume;

/// Gives up the job under way, where it is on this chunk.
pub(crate) fn give_up_on<D: ZonedDisk>(v: &mut Volume<D>, chunk: ChunkNo)
    requires running { v.old.plain.stopped ≡ None }
    ensures gives { GivesUpOn v.old.plain v.new.plain chunk }
    ensures disk { v.new.disk ≡ v.old.disk }
    ensures same { SameSession 0 v.old v.new }
{
    if let Some(job) = v.job() {
        if job.chunk == chunk {
            v.abandon();
        }
    }
}

/// Promotes a chunk, exactly where it is buffered and its zone has no valid block.
pub fn settle<D: ZonedDisk>(v: &mut Volume<D>, chunk: ChunkNo)
    requires running { v.old.plain.stopped ≡ None }
    requires idle { v.old.plain.phase ≡ Idle }
    requires chunk { chunk < v.old.plain.head.layout.chunks }
    requires job { NoJobOn v.old.plain.job chunk }
    ensures settles { Settles v.old.plain v.new.plain chunk }
    ensures disk { v.new.disk ≡ v.old.disk }
    ensures same { SameSession 0 v.old v.new }
{
    if v.is_bare(chunk) {
        v.promote(chunk);
    }
}
