//! Flags of blocks and zones.

ghost use Rattle.std.specs.Prelude.{◌≡◌, ◌<◌, ◌^◌, ◌+◌, ◌≤◌, ◌++◌, length, replicate, if◌then◌else◌, false, ◌↔◌, IsTrue};
ghost use Rattle.zd_volume.specs.Uses.{IsMoved, IsNamedFlags};
ghost use Rattle.zd_model.specs.Plain.{Answer as answers};
ghost use Rattle.zd_volume.specs.Commits.{flush_entries};
ghost use Rattle.zd_volume.specs.Phases.{IsNextDirty};
ghost use Rattle.zd_volume.specs.Uses.{dirty_from};

use zd_alloc::{Alloc, ZoneUse};
use zd_base::ZoneNo;
use zd_model::{Entry, Piece, Reply};
use zd_plain::History;
use zd_volume::{JobKind, Work};

/// The first dirty block from this one on.
pub(crate) fn next_dirty(dirty: &[bool], from: u32) -> Option<u32>
    requires few { length dirty.now < 2 ^ 32 }
    ensures { IsNextDirty dirty.now from result }
{
    let mut i = from;
    while (i as usize) < dirty.len() {
        if dirty[i as usize] {
            return Some(i);
        }
        i += 1;
    }
    None
}

/// No flag is set any more.
pub(crate) fn clear(flags: &mut [bool])
    ensures { flags.new ≡ replicate (length flags.old) false }
{
    for i in 0..flags.len() {
        flags[i] = false;
    }
}

/// Whether a job, a Move, has taken this zone.
fn is_moved(job: Option<Work>, zone: ZoneNo) -> bool
    ensures { IsTrue result ↔ IsMoved job zone }
{
    match job {
        Some(work) => work.job.kind == JobKind::Move && work.target == Some(zone),
        None => false,
    }
}

/// Flags the zones that the map names: those that are held and that no Move has taken.
pub(crate) fn flag_named(named: &mut [bool], alloc: &Alloc, job: Option<Work>)
    requires count { length named.old ≡ length alloc.now.zones }
    requires few { length named.old < 2 ^ 32 }
    ensures { IsNamedFlags alloc.now job named.new }
{
    for zone in 0..named.len() {
        let number = ZoneNo(zone as u32);
        named[zone] = alloc.state(number) == ZoneUse::Held && !is_moved(job, number);
    }
}

/// Enters the flushes of these pieces, which were done or failed.
pub(crate) fn enter_flushes(history: &mut History, flushes: &[Piece], done: bool, at: u64)
    requires spare { length flushes.now ≤ history.old.room }
    ensures items { history.new.items ≡ history.old.items
        ++ flush_entries (if done then answers.Done else answers.Fault) at flushes.now }
    ensures spare { history.old.room ≤ history.new.room + length flushes.now }
{
    for i in 0..flushes.len() {
        let piece = flushes[i];
        let reply = if done { Reply::Done } else { Reply::Fault };
        let entry = Entry {
            caller: piece.caller,
            request: piece.request,
            piece: piece.piece,
            what: piece.what,
            reply,
            at,
        };
        let _entered = history.push(entry);
    }
}

/// How many flags are set, but for the first.
pub(crate) fn count_dirty(dirty: &[bool]) -> u32
    requires few { length dirty.now < 2 ^ 32 }
    ensures { result ≡ dirty_from dirty.now 1 }
{
    let mut count = 0;
    for i in 1..dirty.len() {
        if dirty[i] {
            count += 1;
        }
    }
    count
}
