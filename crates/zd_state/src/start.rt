//! How a volume starts.

ghost use Rattle.std.specs.Prelude.{◌≡◌, ℕ, ◌*◌, ◌<◌, Some, length, replicate, false, IfOk, IfErr, IfSome};
ghost use Rattle.zd_base.specs.Geometry.{zone_count};
ghost use Rattle.zd_base.specs.Layout.{Fits, used_blocks};
ghost use Rattle.zd_model.specs.Super.{FitsVersion, HasBlock};
ghost use Rattle.zd_state.specs.Started.{ClassesBelow, FlagNamedBelow, IsStarted, IsStartedVolume, raised};
ghost use Rattle.zd_tables.specs.Held.{tables_held};
ghost use Rattle.zd_tables.specs.Rules.{FollowRules};
ghost use Rattle.zd_volume.specs.Starts.{OpensAs};
ghost use Rattle.zd_volume.specs.Volumes.{StandInZones};

use crate::classes::class_of_chunk;
use crate::state::VolumeState;
use crate::volume::Volume;
use std::alloc::Global;
use std::snapshot::Snapshot;
use zd_alloc::{Alloc, Candidates};
use zd_base::{BLOCK, ChunkNo, Geometry, Memory, ZoneNo};
use zd_disk::ZonedDisk;
use zd_model::Super;
use zd_plain::History;
use zd_sets::{Chosen, SetBlocks};
use zd_tables::VolumeTables;
use zd_volume::Phase;

/// The blocks of the copy buffer.
const COPIED: usize = 32;

/// So many flags, none of which is raised.
fn flags(alloc: Global, count: u32) -> Result<Vec<bool>, Memory>
    ensures { IfOk result (λ f. f.items ≡ replicate count false) }
{
    match vec![in alloc; false; count as usize] {
        Ok(flags) => Ok(flags),
        Err(_) => Err(Memory),
    }
}

fn copy_buffer(alloc: Global) -> Result<Vec<u8>, Memory>
    ensures { IfOk result (λ b. length b.items ≡ 4096 * 32) }
{
    match vec![in alloc; 0u8; BLOCK * COPIED] {
        Ok(buffer) => Ok(buffer),
        Err(_) => Err(Memory),
    }
}

/// Raises the flag of a zone, if there is one.
fn raise(flags: &mut [bool], zone: Option<ZoneNo>)
    requires { IfSome zone (λ z. z < length flags.old) }
    ensures { flags.new ≡ raised zone flags.old }
{
    if let Some(zone) = zone {
        flags[zone.0 as usize] = true;
    }
}

/// Raises the flag of each zone that the map names.
fn raise_named(flags: &mut [bool], tables: &VolumeTables)
    requires none { flags.old ≡ replicate (zone_count tables.now.geometry) false }
    requires rules { FollowRules tables.now.geometry tables.now.layout tables.now.bytes }
    ensures { FlagNamedBelow tables.now.geometry (tables_held tables.now)
        tables.now.layout.chunks flags.new }
{
    for chunk in 0..tables.layout().chunks {
        let entry = tables.entry(ChunkNo(chunk));
        raise(flags, entry.zone);
        raise(flags, entry.buffer);
    }
}

/// For each zone whether the map names it.
fn named_flags(alloc: Global, tables: &VolumeTables) -> Result<Vec<bool>, Memory>
    requires { FollowRules tables.now.geometry tables.now.layout tables.now.bytes }
    ensures { IfOk result (λ f. FlagNamedBelow tables.now.geometry (tables_held tables.now)
        tables.now.layout.chunks f.items) }
{
    let mut named = flags(alloc, tables.geometry().zones())?;
    raise_named(&mut named, tables);
    Ok(named)
}

/// The class of each chunk, by the map and the pointers in blocks.
fn all_candidates(
    alloc: Global,
    tables: &VolumeTables,
    pointers: &[u32],
) -> Result<Candidates, Memory>
    requires rules { FollowRules tables.now.geometry tables.now.layout tables.now.bytes }
    requires pointers { length pointers.now ≡ zone_count tables.now.geometry }
    ensures { IfOk result (λ c. ClassesBelow tables.now pointers.now tables.now.layout.chunks c) }
{
    let chunks = tables.layout().chunks;
    let mut candidates = Candidates::new(alloc, chunks)?;
    for chunk in 0..chunks {
        let class = class_of_chunk(tables, pointers, ChunkNo(chunk));
        candidates.set(ChunkNo(chunk), class);
    }
    Ok(candidates)
}

/// A head has fields of their sizes.
fn sized(head: Super) -> Super
    requires { FitsVersion head }
    ensures value { result ≡ head }
    ensures sizes { HasBlock result }
{
    head
}

/// The values of a volume that starts.
fn start_values(
    alloc: Global,
    geometry: Geometry,
    head: Super,
    blocks: SetBlocks,
    pointers: Vec<u32>,
) -> Result<VolumeState, Memory>
    requires fits { Fits geometry head.layout }
    requires size { length blocks ≡ 4096 * used_blocks geometry head.layout }
    requires rules { FollowRules geometry head.layout blocks }
    requires pointers { length pointers.items ≡ zone_count geometry }
    ensures { IfOk result (λ v. IsStarted geometry head blocks pointers.items v.plain) }
{
    let tables = VolumeTables::new(alloc, geometry, head.layout, blocks)?;
    let named = named_flags(alloc, &tables)?;
    let division = Alloc::new(alloc, &geometry, &head.layout, &named)?;
    let candidates = all_candidates(alloc, &tables, &pointers)?;
    let dirty = flags(alloc, head.layout.used_blocks(&geometry))?;
    let buffer = copy_buffer(alloc)?;
    let committed = Snapshot::of(tables.blocks());
    Ok(VolumeState {
        tables,
        head,
        phase: Phase::Idle,
        committed,
        dirty,
        alloc: division,
        named,
        pointers,
        candidates,
        job: None,
        buffer,
        history: History::new(alloc),
        patterns: Vec::new(alloc),
        since: 0,
        opening_generation: head.generation,
        stopped: None,
    })
}

impl<D: ZonedDisk> Volume<D> {
    /// Starts over a disk that was opened. `pointers` are in blocks, rounded up, one for each zone.
    ///
    /// It makes no call of the disk. `Memory` gives the disk back as it was.
    pub fn start(
        alloc: Global,
        disk: D,
        geometry: Geometry,
        chosen: Chosen,
        blocks: SetBlocks,
        pointers: Vec<u32>,
    ) -> Result<Volume<D>, (Memory, D)>
        requires told { (D.view disk).told ≡ Some geometry }
        requires fits { Fits geometry chosen.head.layout }
        requires version { FitsVersion chosen.head }
        requires size { length blocks ≡ 4096 * used_blocks geometry chosen.head.layout }
        requires rules { FollowRules geometry chosen.head.layout blocks }
        requires pointers { length pointers.items ≡ zone_count geometry }
        requires in_zones { StandInZones geometry pointers.items }
        requires disk { OpensAs (record { geometry = geometry; head = chosen.head; old = blocks; new = blocks })
            pointers.items (D.view disk) }
        ensures ok { IfOk result (λ v. IsStartedVolume geometry chosen.head blocks pointers.items disk v) }
        ensures err { IfErr result (λ e. e.1 ≡ disk) }
    {
        let _zone_blocks = geometry.zone_blocks();
        let head = sized(chosen.head);
        match start_values(alloc, geometry, head, blocks, pointers) {
            Ok(state) => Ok(Volume {
                opening: Snapshot::of(&disk),
                disk,
                state,
            }),
            Err(Memory) => Err((Memory, disk)),
        }
    }
}
