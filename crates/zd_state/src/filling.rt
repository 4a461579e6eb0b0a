//! The blocks of a write: its sectors, and what the edges have of the others.

ghost use Rattle.std.specs.Prelude.{◌≡◌, ◌⊎◌, ℕ, ◌+◌, ◌-◌, ◌*◌, ◌^◌, ◌<◌, ◌≤◌, [], length, Some, true};
ghost use Rattle.zd_disk.specs.Steps.{piece};
ghost use Rattle.zd_model.specs.Plain.{pattern, put_by};
ghost use Rattle.zd_model.specs.Requests.{block_count, first_block, first_sector, operation_of, sector_count};
ghost use Rattle.zd_model.specs.Requests.Operation.{Writing};
ghost use Rattle.zd_routes.specs.Edges.{FillsBlocks, edge_sector, is_in_part};

use zd_base::{BLOCK, SECTOR};
use zd_model::{Bytes, What};
use zd_plain::{first_sector, pattern, sector_count};
use zd_routes::Edges;

/// The sectors of a block.
const BLOCK_SECTORS: u128 = 8;

/// Whether a block has a sector that isn't touched.
pub(crate) fn is_in_part(what: What, block: u64) -> bool
    ensures { result ≡ is_in_part what block }
{
    let first = first_sector(what);
    let from = BLOCK_SECTORS * u128::from(block);
    !(first <= from && from + BLOCK_SECTORS <= first + u128::from(sector_count(what)))
}

/// The seed of a write.
fn seed_of(what: What) -> u32
    requires { operation_of what ≡ Writing }
    ensures { put_by what ≡ Some (pattern result) }
{
    match what {
        What::Write { seed, .. } | What::WriteSectors { seed, .. } => seed,
        _ => unreachable!(),
    }
}

/// Puts an edge into its block, or zeros where it is empty.
fn put_edge(out: &mut [u8], edge: &Bytes)
    requires size { length out.old ≡ 4096 }
    requires whole { (edge.now.items ≡ []) ⊎ (length edge.now.items ≡ 4096) }
    ensures size { length out.new ≡ 4096 }
    ensures sectors { (j : ℕ) → j < 8 → piece out.new j ≡ edge_sector edge.now.items j }
{
    if edge.is_empty() {
        out.fill(0);
    } else {
        out.copy_from_slice(edge.bytes());
    }
}

/// Puts an edge into block `at` of these bytes.
fn put_edge_at(out: &mut [u8], at: usize, edge: &Bytes)
    requires fits { 4096 * (at + 1) ≤ length out.old }
    requires whole { (edge.now.items ≡ []) ⊎ (length edge.now.items ≡ 4096) }
    ensures size { length out.new ≡ length out.old }
    ensures sectors { (j : ℕ) → j < 8 → piece out.new (8 * at + j) ≡ edge_sector edge.now.items j }
    ensures others { (j : ℕ) → (j < 8 * at) ⊎ (8 * at + 8 ≤ j) → piece out.new j ≡ piece out.old j }
{
    let place = BLOCK * at;
    put_edge(&mut out[place..place + BLOCK], edge);
}

/// Puts the edges of a write into their blocks, where these are touched in part.
fn put_edges(out: &mut [u8], what: What, edges: &Edges)
    requires some { 1 ≤ sector_count what }
    requires few { first_sector what + sector_count what < 2 ^ 64 }
    requires size { length out.old ≡ 4096 * block_count what }
    requires first { (edges.now.first.items ≡ []) ⊎ (length edges.now.first.items ≡ 4096) }
    requires last { (edges.now.last.items ≡ []) ⊎ (length edges.now.last.items ≡ 4096) }
    ensures size { length out.new ≡ length out.old }
    ensures first { is_in_part what (first_block what) ≡ true →
        (j : ℕ) → j < 8 → piece out.new j ≡ edge_sector edges.now.first.items j }
    ensures last { 2 ≤ block_count what → is_in_part what (first_block what + block_count what - 1) ≡ true →
        (j : ℕ) → j < 8 → piece out.new (8 * (block_count what - 1) + j) ≡ edge_sector edges.now.last.items j }
{
    let (block, count) = what.cover();
    if is_in_part(what, block) {
        put_edge_at(out, 0, &edges.first);
    }
    let last = count as usize - 1;
    if last > 0 && is_in_part(what, block + last as u64) {
        put_edge_at(out, last, &edges.last);
    }
}

/// Puts the pattern of a sector of the device into sector `at` of these bytes.
fn put_pattern(out: &mut [u8], at: usize, seed: u32, sector: u64)
    requires { 512 * (at + 1) ≤ length out.old }
    ensures size { length out.new ≡ length out.old }
    ensures put { piece out.new at ≡ pattern seed sector }
    ensures others { (j : ℕ) → (j < at) ⊎ (at + 1 ≤ j) → piece out.new j ≡ piece out.old j }
{
    let place = SECTOR * at;
    pattern(seed, sector, &mut out[place..place + SECTOR]);
}

/// Puts the patterns of so many sectors of the device, from this one on, into their places, of which
/// the first is sector `at`.
fn put_patterns(out: &mut [u8], seed: u32, sector: u64, at: usize, count: usize)
    requires few { sector + count < 2 ^ 64 }
    requires fits { 512 * (at + count) ≤ length out.old }
    ensures size { length out.new ≡ length out.old }
    ensures put { (j : ℕ) → j < count → piece out.new (at + j) ≡ pattern seed (sector + j) }
    ensures others { (j : ℕ) → (j < at) ⊎ (at + count ≤ j) → piece out.new j ≡ piece out.old j }
{
    for i in 0..count {
        put_pattern(out, at + i, seed, sector + i as u64);
    }
}

/// Fills the blocks of a write.
pub(crate) fn fill(out: &mut [u8], what: What, edges: &Edges)
    requires write { operation_of what ≡ Writing }
    requires some { 1 ≤ sector_count what }
    requires few { first_sector what + sector_count what < 2 ^ 64 }
    requires size { length out.old ≡ 4096 * block_count what }
    requires first { (edges.now.first.items ≡ []) ⊎ (length edges.now.first.items ≡ 4096) }
    requires last { (edges.now.last.items ≡ []) ⊎ (length edges.now.last.items ≡ 4096) }
    ensures { FillsBlocks what edges.now.first.items edges.now.last.items out.new }
{
    put_edges(out, what, edges);
    let first = first_sector(what);
    let at = (first % BLOCK_SECTORS) as usize;
    put_patterns(
        out,
        seed_of(what),
        first as u64,
        at,
        sector_count(what) as usize,
    );
}
