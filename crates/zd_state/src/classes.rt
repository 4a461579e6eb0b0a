//! What each chunk can be picked for.

ghost use Rattle.std.specs.Prelude.{◌≡◌, ◌<◌, length};
ghost use Rattle.zd_base.specs.Geometry.{zone_count};
ghost use Rattle.zd_tables.specs.Held.{tables_held};
ghost use Rattle.zd_tables.specs.Rules.{FollowRules};
ghost use Rattle.zd_volume.specs.Jobs.{class_alone, class_buffered, class_in};

use zd_alloc::JobClass;
use zd_base::ChunkNo;
use zd_tables::VolumeTables;

/// The class of a chunk alone in its zone, by the zone's first valid block.
fn class_alone(conventional: bool, first: Option<u32>) -> Option<JobClass>
    ensures { result ≡ class_alone conventional first }
{
    match (conventional, first) {
        (true, None) => Some(JobClass::Append),
        (false, None) => Some(JobClass::Empty),
        (true, Some(_)) => Some(JobClass::Move),
        (false, Some(_)) => None,
    }
}

/// The class of a buffered chunk, by the buffer's first valid block and the zone's pointer in blocks.
fn class_buffered(first: Option<u32>, pointer: u32) -> Option<JobClass>
    ensures { result ≡ class_buffered first pointer }
{
    match first {
        Some(block) if block < pointer => Some(JobClass::Merge),
        _ => Some(JobClass::Append),
    }
}

/// The class of a chunk, or none. `pointers` are in blocks, one for each zone.
pub(crate) fn class_of_chunk(
    tables: &VolumeTables,
    pointers: &[u32],
    chunk: ChunkNo,
) -> Option<JobClass>
    requires rules { FollowRules tables.now.geometry tables.now.layout tables.now.bytes }
    requires pointers { length pointers.now ≡ zone_count tables.now.geometry }
    requires chunk { chunk < tables.now.layout.chunks }
    ensures { result ≡ class_in tables.now.geometry pointers.now (tables_held tables.now) chunk }
{
    let entry = tables.entry(chunk);
    match (entry.zone, entry.buffer) {
        (None, _) => None,
        (Some(zone), None) => class_alone(
            zone.0 < tables.geometry().conv(),
            tables.first_valid(zone),
        ),
        (Some(zone), Some(buffer)) => {
            class_buffered(tables.first_valid(buffer), pointers[zone.0 as usize])
        }
    }
}
