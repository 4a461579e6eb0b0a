//! The edges of writes: blocks that are touched in part are read before they are written.

ghost use Rattle.std.specs.Prelude.{◌≡◌, ℕ, ◌+◌, ◌*◌, ◌/◌, ◌%◌, ◌<◌, ◌≤◌, [], length, None, Some, IfErr, IfNone, IfSome, OnErr, OnOk};
ghost use Rattle.zd_base.specs.declared.numbers.Why.TheVariants as whys;
ghost use Rattle.zd_disk.specs.Told.{WhereTold};
ghost use Rattle.zd_disk.specs.View.{HasFailed, Fails, OnlyReads, ReadsOnce};
ghost use Rattle.zd_routes.specs.Edges.{IsDue, IsNextEdge, MayBeEdges, ReadsEdge, block_served};
ghost use Rattle.zd_routes.specs.Routes.{WritesBlocks};
ghost use Rattle.zd_routes.specs.declared.edges.Edge.{Edge};
ghost use Rattle.zd_state.specs.Seen.{SameSession};
ghost use Rattle.zd_tables.specs.Rules.{AreBelow};
ghost use Rattle.zd_volume.specs.Flights.{place_now, tables_now};
ghost use Rattle.zd_volume.specs.Sets.{AreSets};
ghost use Rattle.zd_volume.specs.Volumes.{sets_of};

use crate::filling::is_in_part;
use crate::reading::read_behind;
use crate::state::VolumeState;
use crate::volume::Volume;
use zd_base::{ChunkNo, Failed, Why, ZoneNo};
use zd_disk::ZonedDisk;
use zd_model::{Bytes, Piece};
use zd_routes::{Edge, Edges};

/// The sectors of a block.
const BLOCK_SECTORS: u32 = 8;

impl VolumeState {
    /// The zone in which a block of the device is valid, if one is, and its place there.
    fn place_of(&self, block: u64) -> (Option<ZoneNo>, u32)
        requires sets { AreSets (sets_of self.now.plain) }
        requires chunk { block / self.now.plain.geometry.zone_blocks < self.now.plain.head.layout.chunks }
        ensures zone { result.0 ≡ place_now self.now.plain (block / self.now.plain.geometry.zone_blocks)
            (block % self.now.plain.geometry.zone_blocks) }
        ensures place { result.1 ≡ block % self.now.plain.geometry.zone_blocks }
    {
        let zone_blocks = u64::from(self.geometry().zone_blocks());
        let chunk = ChunkNo((block / zone_blocks) as u32);
        let place = (block % zone_blocks) as u32;
        let (zone, _) = self.run_at(chunk, place, place + 1);
        (zone, place)
    }

    /// The edge of a write that is read next: the first before the last. None where all that are needed
    /// are read.
    fn next_edge(&self, piece: &Piece, edges: &Edges) -> Option<Edge>
        requires sets { AreSets (sets_of self.now.plain) }
        requires piece { WritesBlocks (sets_of self.now.plain) piece.now.what }
        ensures some { IfSome result (IsNextEdge self.now.plain piece.now.what edges.now) }
        ensures none { IfNone result ((edge : Edge) → IsDue self.now.plain piece.now.what edges.now edge → ⊥) }
    {
        let (block, count) = piece.cover();
        let last = block + u64::from(count) - 1;
        if edges.first.is_empty()
            && is_in_part(piece.what, block)
            && self.place_of(block).0.is_some()
        {
            return Some(Edge::First);
        }
        if edges.last.is_empty()
            && count > 1
            && is_in_part(piece.what, last)
            && self.place_of(last).0.is_some()
        {
            return Some(Edge::Last);
        }
        None
    }

    /// The disk failed.
    pub(crate) fn stop_by_device(&mut self)
        ensures { self.new ≡ record self.old { plain = record self.old.plain { stopped = Some whys.Device } } }
    {
        self.stopped = Some(Why::Device);
    }
}

/// Reads a block of the device, which is valid, by one call of the disk, into the place of an edge, which is
/// empty. A refusal leaves it empty.
fn read_edge<D: ZonedDisk>(
    disk: &mut D,
    state: &VolumeState,
    block: u64,
    into: &mut Bytes,
) -> Result<(), Failed>
    requires told { (D.view disk.old).told ≡ Some state.now.plain.geometry }
    requires sets { AreSets (sets_of state.now.plain) }
    requires below { WhereTold (D.view disk.old).zones (λ i.
        AreBelow state.now.plain.geometry i.held (tables_now state.now.plain)) }
    requires chunk { block / state.now.plain.geometry.zone_blocks < state.now.plain.head.layout.chunks }
    requires valid { place_now state.now.plain (block / state.now.plain.geometry.zone_blocks)
        (block % state.now.plain.geometry.zone_blocks) ≡ None → ⊥ }
    requires empty { into.old.items ≡ [] }
    requires room { 4096 ≤ into.old.room }
    ensures size { OnOk result (length into.new.items ≡ 4096) }
    ensures value { OnOk result (WhereTold (D.view disk.old).zones (λ i.
        into.new.items ≡ block_served state.now.plain i block)) }
    ensures err { OnErr result (into.new.items ≡ []) }
    ensures room { 4096 ≤ length into.new.items + into.new.room }
    ensures read_calls { ReadsOnce (D.view disk.old) (D.view disk.new) }
    ensures reads { OnlyReads (D.view disk.old) (D.view disk.new) }
    ensures cause { Fails result (D.view disk.old) (D.view disk.new) }
{
    let (zone, place) = state.place_of(block);
    let read = read_behind(
        disk,
        zone.unwrap(),
        BLOCK_SECTORS * place,
        BLOCK_SECTORS,
        into,
    );
    if read.is_err() {
        into.clear();
    }
    read
}

/// Reads the next edge of a write that is due, by one call of the disk. A refusal leaves the edges as they were.
fn read_due<D: ZonedDisk>(
    disk: &mut D,
    state: &VolumeState,
    piece: &Piece,
    edges: &mut Edges,
) -> Result<(), Failed>
    requires told { (D.view disk.old).told ≡ Some state.now.plain.geometry }
    requires sets { AreSets (sets_of state.now.plain) }
    requires below { WhereTold (D.view disk.old).zones (λ i.
        AreBelow state.now.plain.geometry i.held (tables_now state.now.plain)) }
    requires piece { WritesBlocks (sets_of state.now.plain) piece.now.what }
    requires edges { MayBeEdges state.now.plain (D.view disk.old).zones piece.now.what edges.old }
    requires due { (edge : Edge) × IsDue state.now.plain piece.now.what edges.old edge }
    ensures ok { OnOk result (ReadsEdge state.now.plain (D.view disk.old).zones piece.now.what edges.old edges.new) }
    ensures edges { MayBeEdges state.now.plain (D.view disk.old).zones piece.now.what edges.new }
    ensures err { OnErr result ((edges.new.first.items ≡ edges.old.first.items)
        × (edges.new.last.items ≡ edges.old.last.items)) }
    ensures read_calls { ReadsOnce (D.view disk.old) (D.view disk.new) }
    ensures reads { OnlyReads (D.view disk.old) (D.view disk.new) }
    ensures cause { Fails result (D.view disk.old) (D.view disk.new) }
{
    let (block, count) = piece.cover();
    match state.next_edge(piece, edges).unwrap() {
        Edge::First => read_edge(disk, state, block, &mut edges.first),
        Edge::Last => read_edge(disk, state, block + u64::from(count) - 1, &mut edges.last),
    }
}

impl<D: ZonedDisk> Volume<D> {
    /// The edge of a write that is read next: the first before the last. None where all that are needed are
    /// read.
    pub fn next_edge(&self, piece: &Piece, edges: &Edges) -> Option<Edge>
        requires piece { WritesBlocks (sets_of self.now.plain) piece.now.what }
        ensures some { IfSome result (IsNextEdge self.now.plain piece.now.what edges.now) }
        ensures none { IfNone result ((edge : Edge) → IsDue self.now.plain piece.now.what edges.now edge → ⊥) }
    {
        self.state.next_edge(piece, edges)
    }

    /// Reads the next edge of a write that is due: a whole block, by one call of the disk, into its empty
    /// place. It takes no memory.
    ///
    /// `Device` only where the disk failed: the volume is then stopped, the edge stays empty, and nothing is
    /// entered. No other error comes.
    pub fn merge_read(&mut self, piece: &Piece, edges: &mut Edges) -> Result<(), Why>
        requires running { self.old.plain.stopped ≡ None }
        requires piece { WritesBlocks (sets_of self.old.plain) piece.now.what }
        requires edges { MayBeEdges self.old.plain (D.view self.old.disk).zones piece.now.what edges.old }
        requires due { (edge : Edge) × IsDue self.old.plain piece.now.what edges.old edge }
        ensures ok { OnOk result (ReadsEdge self.old.plain (D.view self.old.disk).zones piece.now.what
            edges.old edges.new × (self.new.plain ≡ self.old.plain)) }
        ensures edges { MayBeEdges self.old.plain (D.view self.old.disk).zones piece.now.what edges.new }
        ensures err { IfErr result (λ why. (why ≡ Why.Device)
            × (self.new.plain ≡ record self.old.plain { stopped = Some Why.Device })
            × (edges.new.first.items ≡ edges.old.first.items) × (edges.new.last.items ≡ edges.old.last.items)) }
        ensures read_calls { ReadsOnce (D.view self.old.disk) (D.view self.new.disk) }
        ensures reads { OnlyReads (D.view self.old.disk) (D.view self.new.disk) }
        ensures same { SameSession 0 self.old self.new }
        ensures cause { IfErr result (λ why. HasFailed (D.view self.old.disk) (D.view self.new.disk)) }
    {
        if read_due(&mut self.disk, &self.state, piece, edges).is_err() {
            self.state.stop_by_device();
            return Err(Why::Device);
        }
        Ok(())
    }
}
