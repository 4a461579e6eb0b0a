//! How a session begins.

ghost use Rattle.std.specs.Prelude.{◌≡◌, ◌*◌, ◌<◌, ◌≤◌, ◌↔◌, [], None, Some, IfErr, IfOk, IsTrue, false};
ghost use Rattle.std.specs.Prelude.{replicate, vec_capacity};
ghost use Rattle.zd_model.specs.Requests.{operation_of, sector_count};
ghost use Rattle.zd_model.specs.Requests.Operation.{Reading, Writing};
ghost use Rattle.zd_plain.specs.Plan.{IsPlan};
ghost use Rattle.zd_session.specs.Beginnings.{AreNewActors, AreReadyFor, IsLongestWrite, IsReadyFor, IsUnbegun};
ghost use Rattle.zd_session.specs.Moving.{IsKeptSession};
ghost use Rattle.zd_session.specs.SessionEnds.{BeginsSession, IsRoomier};
ghost use Rattle.zd_session.specs.Sessions.{pieces_on};
ghost use Rattle.zd_steps.specs.Queues.{IsScriptOf};

use crate::actor::Actor;
use crate::progress::Progress;
use crate::session::Session;
use std::alloc::Global;
use zd_base::{BLOCK, Memory, SECTOR};
use zd_disk::ZonedDisk;
use zd_model::{Bytes, Piece, What};
use zd_plain::{Plan, pieces};
use zd_state::Volume;
use zd_steps::{CALLERS, Queue};

/// Whether a piece is a read in range.
fn reads_inside(piece: &Piece) -> bool
    ensures { IsTrue result ↔ ((piece.now.range ≡ false) × (operation_of piece.now.what ≡ Reading)) }
{
    !piece.range && matches!(piece.what, What::Read { .. } | What::ReadSectors { .. })
}

/// Whether a piece is a write in range.
fn writes_inside(piece: &Piece) -> bool
    ensures { IsTrue result ↔ ((piece.now.range ≡ false) × (operation_of piece.now.what ≡ Writing)) }
{
    !piece.range && matches!(piece.what, What::Write { .. } | What::WriteSectors { .. })
}

/// The bytes of a request, none of a flush.
fn byte_count(what: What) -> usize
    ensures { result ≡ 512 * sector_count what }
{
    match what {
        What::Read { count, .. } | What::Write { count, .. } | What::Discard { count, .. } => {
            BLOCK * count as usize
        }
        What::Flush => 0,
        What::ReadSectors { count, .. } | What::WriteSectors { count, .. } => {
            SECTOR * count as usize
        }
    }
}

/// Room for the bytes of a piece, where it is a read in range.
fn reply_room(alloc: Global, piece: &Piece) -> Result<Option<Bytes>, Memory>
    ensures { IfOk result (λ reply. IsReadyFor piece.now (Some reply)) }
{
    if reads_inside(piece) {
        let bytes = Bytes::with_room(alloc, byte_count(piece.what))?;
        Ok(Some(bytes))
    } else {
        Ok(None)
    }
}

/// The same for each piece.
fn reply_rooms(alloc: Global, pieces: &[Piece]) -> Result<Vec<Option<Bytes>>, Memory>
    ensures { IfOk result (λ replies. AreReadyFor pieces.now replies.items) }
{
    let mut replies = Vec::new(alloc);
    for piece in pieces {
        let reply = reply_room(alloc, piece)?;
        replies.push(reply).map_err(|_| Memory)?;
    }
    Ok(replies)
}

/// So many actors that have read nothing.
fn free_actors(alloc: Global, count: usize) -> Result<Vec<Actor>, Memory>
    ensures { IfOk result (λ actors. AreNewActors count actors.items) }
{
    let mut actors = Vec::new(alloc);
    for _ in 0..count {
        let actor = Actor::new(alloc)?;
        actors.push(actor).map_err(|_| Memory)?;
    }
    Ok(actors)
}

/// The greatest number of blocks of a write in range.
fn longest_write(pieces: &[Piece]) -> u32
    ensures { IsLongestWrite pieces.now result }
{
    let mut longest = 0;
    for piece in pieces {
        if writes_inside(piece) {
            longest = longest.max(piece.cover().1);
        }
    }
    longest
}

impl Progress {
    /// Nothing is entered, and no actor has a piece in flight.
    fn new(
        alloc: Global,
        pieces: Vec<Piece>,
        chunk_blocks: u32,
        count: usize,
    ) -> Result<Progress, Memory>
        requires chunk { 0 < chunk_blocks }
        requires pieces { IsScriptOf 64 pieces.items }
        ensures { IfOk result (IsUnbegun pieces.items chunk_blocks count) }
    {
        let actors = free_actors(alloc, count)?;
        let replies = reply_rooms(alloc, &pieces)?;
        let queue = Queue::new(alloc, pieces, chunk_blocks, count)?;
        Ok(Progress {
            queue,
            actors,
            replies,
        })
    }
}

/// Room for the flushes of a commit, one a caller.
fn flush_room(alloc: Global) -> Result<Vec<Piece>, Memory>
    ensures { IfOk result (λ list. 64 ≤ vec_capacity list) }
{
    Vec::with_capacity(alloc, CALLERS).map_err(|_| Memory)
}

/// The pieces of a plan, cut by the chunks of a volume.
fn cut<D: ZonedDisk>(alloc: Global, volume: &Volume<D>, plan: &Plan) -> Result<Vec<Piece>, Memory>
    requires { IsPlan plan.now }
    ensures { IfOk result (λ v. v.items ≡ pieces_on volume.now.plain plan.now) }
{
    volume.sound();
    let zone_blocks = volume.geometry().zone_blocks();
    let blocks = u64::from(volume.layout().chunks) * u64::from(zone_blocks);
    pieces(alloc, plan, zone_blocks, blocks)
}

/// Cuts a plan into pieces, and makes room for all that they take, and for the flushes of a commit.
fn prepare<D: ZonedDisk>(
    alloc: Global,
    volume: &mut Volume<D>,
    plan: &Plan,
    actors: usize,
) -> Result<(Progress, Vec<Piece>), Memory>
    requires plan { IsPlan plan.now }
    requires new { volume.old.plain.history ≡ [] }
    ensures over { IsRoomier volume.old volume.new }
    ensures kept { IfOk result (λ r. IsKeptSession D.view volume.new plan.now r.0 (vec_capacity r.1)) }
    ensures flights { IfOk result (λ r. r.0.queue.flights ≡ replicate actors None) }
    ensures free { IfOk result (λ r. AreNewActors actors r.0.actors.items) }
{
    volume.sound();
    let pieces = cut(alloc, volume, plan)?;
    volume.reserve(pieces.len(), longest_write(&pieces))?;
    let list = flush_room(alloc)?;
    let progress = Progress::new(alloc, pieces, volume.geometry().zone_blocks(), actors)?;
    Ok((progress, list))
}

impl<D: ZonedDisk> Session<D> {
    /// Begins a session over a volume that has answered nothing: its pieces are cut, and all memory is taken that they
    /// need. Where none is found the volume is given back, and but for its room it is as it was.
    ///
    /// Over a volume that has stopped it has ended.
    pub fn begin(
        alloc: Global,
        mut volume: Volume<D>,
        plan: Plan,
        actors: usize,
    ) -> Result<Session<D>, (Memory, Volume<D>)>
        requires plan { IsPlan plan }
        requires new { volume.plain.history ≡ [] }
        ensures begins { IfOk result (BeginsSession volume plan actors) }
        ensures err { IfErr result (λ e. IsRoomier volume e.1) }
    {
        match prepare(alloc, &mut volume, &plan, actors) {
            Ok((progress, list)) => Ok(Session {
                volume,
                plan: Vec::from(plan),
                progress,
                list,
            }),
            Err(memory) => Err((memory, volume)),
        }
    }
}
