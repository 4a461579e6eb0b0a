//! How requests are cut into pieces at the bounds of chunks.

ghost use Rattle.std.specs.Prelude.{◌≡◌, ◌+◌, ◌*◌, ◌<◌, ◌≤◌, ◌^◌, ◌++◌, false, true, length, map, IfOk, OnOk};
ghost use Rattle.std.specs.List.{range_with_len};
ghost use Rattle.zd_base.specs.Geometry.{IsZoneSize};
ghost use Rattle.zd_model.specs.Requests.{first_sector, sector_count};
ghost use Rattle.zd_model.specs.Pieces.{part_of, chunks_touched, pieces_of_request, pieces_of};
ghost use Rattle.zd_model.specs.Plain.{ends_past};
ghost use Rattle.zd_plain.specs.Plan.{IsPlan, IsRequest};
ghost use Rattle.zd_plain.specs.Cuts.{piece_at};

use crate::what::BLOCK_SECTORS;
use crate::{Plan, at_sectors, ends_past, first_sector, sector_count};
use std::alloc::Global;
use zd_base::Memory;
use zd_model::{Piece, Request, What};

/// The sectors of a chunk, which is as large as a zone.
fn chunk_sectors(zone_blocks: u32) -> u64
    ensures { result ≡ 8 * zone_blocks }
{
    u64::from(BLOCK_SECTORS) * u64::from(zone_blocks)
}

/// How many chunks of so many blocks it touches.
fn chunks_touched(what: What, zone_blocks: u32) -> u32
    requires size { IsZoneSize zone_blocks }
    requires some { 1 ≤ sector_count what }
    requires fits { first_sector what + sector_count what < 2 ^ 64 }
    ensures { result ≡ chunks_touched zone_blocks what }
{
    let first = first_sector(what) as u64;
    let last = first + sector_count(what) - 1;
    let chunk_sectors = chunk_sectors(zone_blocks);
    (last / chunk_sectors - first / chunk_sectors + 1) as u32
}

/// The part in the i-th chunk that it touches, counted from 0.
fn part(what: What, zone_blocks: u32, i: u32) -> What
    requires size { IsZoneSize zone_blocks }
    requires fits { first_sector what + sector_count what < 2 ^ 64 }
    requires touched { i < chunks_touched zone_blocks what }
    ensures { result ≡ part_of zone_blocks what i }
{
    let chunk_sectors = chunk_sectors(zone_blocks);
    let first = first_sector(what) as u64;
    let chunk = chunk_sectors * (first / chunk_sectors + u64::from(i));
    let from = first.max(chunk);
    // The end of a device's last chunk may be 2^64.
    let end = (first + sector_count(what)).min(chunk.saturating_add(chunk_sectors));
    at_sectors(what, from, end - from)
}

/// Appends the pieces of a request that lies inside the device and is no flush.
fn add_parts(
    pieces: &mut Vec<Piece>,
    request: Request,
    number: u32,
    zone_blocks: u32,
) -> Result<(), Memory>
    requires size { IsZoneSize zone_blocks }
    requires some { 1 ≤ sector_count request.what }
    requires fits { first_sector request.what + sector_count request.what < 2 ^ 64 }
    ensures { OnOk result (pieces.new.items ≡ pieces.old.items
        ++ map (piece_at zone_blocks number request)
        (range_with_len 0 (chunks_touched zone_blocks request.what))) }
{
    for i in 0..chunks_touched(request.what, zone_blocks) {
        let piece = Piece {
            caller: request.caller,
            request: number,
            piece: i,
            what: part(request.what, zone_blocks, i),
            range: false,
        };
        pieces.push(piece).map_err(|_| Memory)?;
    }
    Ok(())
}

/// Appends the pieces of a request.
fn add_pieces(
    pieces: &mut Vec<Piece>,
    request: Request,
    number: u32,
    zone_blocks: u32,
    blocks: u64,
) -> Result<(), Memory>
    requires size { IsZoneSize zone_blocks }
    requires device { blocks < 2 ^ 61 }
    requires request { IsRequest request }
    ensures { OnOk result (pieces.new.items ≡ pieces.old.items
        ++ pieces_of_request zone_blocks blocks (number, request)) }
{
    let range = ends_past(request.what, blocks);
    if range || request.what == What::Flush {
        let piece = Piece {
            caller: request.caller,
            request: number,
            piece: 0,
            what: request.what,
            range,
        };
        return pieces.push(piece).map_err(|_| Memory);
    }
    add_parts(pieces, request, number, zone_blocks)
}

/// The pieces of a plan, in the order of its requests and ascending in each: for zones of so many
/// blocks, and a device of so many blocks, whose sectors have numbers of 64 bits.
///
/// A flush is one piece, and so is a request that ends past the device. Any other is cut at the
/// bounds of chunks, which are as large as zones.
pub fn pieces(
    alloc: Global,
    plan: &Plan,
    zone_blocks: u32,
    blocks: u64,
) -> Result<Vec<Piece>, Memory>
    requires size { IsZoneSize zone_blocks }
    requires device { blocks < 2 ^ 61 }
    requires plan { IsPlan plan.now }
    ensures { IfOk result (λ v. v.items ≡ pieces_of zone_blocks blocks plan.now) }
{
    let mut pieces = Vec::new(alloc);
    for i in 0..plan.len() {
        add_pieces(&mut pieces, *plan.get(i), i as u32 + 1, zone_blocks, blocks)?;
    }
    Ok(pieces)
}
