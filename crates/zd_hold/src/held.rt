//! Whether a sector may hold a value, entry by entry.

ghost use Rattle.std.specs.Prelude.{◌≡◌, ◌↔◌, ◌/◌, ◌<◌, ◌++◌, ◌∷◌, [], List, ℕ, IsTrue, length};
ghost use Rattle.zd_model.specs.Bytes.{sectors_of};
ghost use Rattle.zd_model.specs.Entries.{answer_of, shown_entry};
ghost use Rattle.zd_model.specs.History.{HistoryEntry};
ghost use Rattle.zd_model.specs.Stops.{MayHold};
ghost use Rattle.zd_hold.specs.Held.{IsHeld, now_after};

use crate::puts::{is_acknowledged, may_count, put_at};
use zd_base::SECTOR;
use zd_model::{Entry, Reply};
use zd_plain::History;

/// What is asked: whether a sector of a device may hold a value when so many writing calls had returned.
#[derive(Clone, Copy)]
struct Asked<'a> {
    /// The sectors of the device.
    sectors: u64,
    calls: u64,
    sector: u64,
    value: &'a [u8],
}

/// What the entries so far say of the value.
#[derive(Clone, Copy)]
struct Held {
    /// The plain array has it in the sector.
    now: bool,
    /// The sector may hold it.
    may: bool,
}

/// Whether the plain array has the value after an entry that puts it there, or another.
fn now_after(before: bool, reply: &Reply, same: bool) -> bool
    ensures { result ≡ now_after before (answer_of reply.now) same }
{
    match reply {
        Reply::Done => same,
        Reply::Got(_) | Reply::Range | Reply::Fault => before,
    }
}

impl Held {
    /// What they say with one entry more.
    fn after(self, entry: &Entry, asked: Asked) -> Held
        ensures { (base : List (List ℕ)) (history : List HistoryEntry) →
            length base ≡ asked.entry.sectors → IsHeld base history asked.entry self →
            IsHeld base (history ++ shown_entry entry.now ∷ []) asked.entry result }
    {
        // Only the last flush counts, and what comes after it.
        if is_acknowledged(entry, asked.calls) {
            return Held {
                now: self.now,
                may: self.now,
            };
        }
        let Some(put) = put_at(asked.sectors, entry.what, asked.sector) else {
            return self;
        };
        let same = put.as_slice() == asked.value;
        let may = self.may || same && may_count(entry, asked.calls);
        Held {
            now: now_after(self.now, &entry.reply, same),
            may,
        }
    }
}

/// Whether a sector may hold a value after a stop, when `k` writing calls had returned since opening ended and
/// the next may be under way: its value at the last flush that was acknowledged then, or what a later entry put
/// there. The base is what the sectors held when opening ended.
///
/// It takes time in the length of the history.
pub fn may_hold(base: &[u8], history: &History, k: u64, sector: u64, value: &[u8]) -> bool
    requires { sector < length base.now / 512 }
    ensures { IsTrue result ↔ MayHold (sectors_of base.now) history.now.items k sector value.now }
{
    let start = SECTOR * sector as usize;
    let is_first = value == &base[start..start + SECTOR];
    let asked = Asked {
        sectors: (base.len() / SECTOR) as u64,
        calls: k,
        sector,
        value,
    };
    let mut held = Held {
        now: is_first,
        may: is_first,
    };
    for i in 0..history.len() {
        held = held.after(history.get(i), asked);
    }
    held.may
}
