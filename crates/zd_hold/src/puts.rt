//! What requests put into a sector.

ghost use Rattle.std.specs.Prelude.{◌≡◌, ◌↔◌, IsTrue};
ghost use Rattle.zd_model.specs.Entries.{shown_entry};
ghost use Rattle.zd_model.specs.Requests.{operation_of};
ghost use Rattle.zd_model.specs.Stops.{MayCount, is_acknowledged};
ghost use Rattle.zd_hold.specs.Puts.{put_at};

use zd_base::SECTOR;
use zd_model::{Entry, Reply, What};
use zd_plain::{first_sector, pattern, sector_count};

/// What a request puts into a sector of a device of so many sectors. `None` where it puts nothing there, also
/// where it ends past the device.
#[tactic(auto, unfolding(zd_model::specs::Bytes::zero_sector))]
pub fn put_at(sectors: u64, what: What, sector: u64) -> Option<[u8; SECTOR]>
    ensures { result ≡ put_at sectors what sector }
{
    let first = first_sector(what);
    let end = first + u128::from(sector_count(what));
    let number = u128::from(sector);
    if u128::from(sectors) < end || number < first || end <= number {
        return None;
    }
    let mut bytes = [0; SECTOR];
    match what {
        What::Write { seed, .. } | What::WriteSectors { seed, .. } => {
            pattern(seed, sector, &mut bytes);
            Some(bytes)
        }
        What::Discard { .. } => Some(bytes),
        What::Read { .. } | What::ReadSectors { .. } | What::Flush => None,
    }
}

/// Whether what an entry puts may have reached the disk when so many writing calls had returned, and the next
/// may be under way: that of a write whose call is done or the next one, and a discard that was done.
pub fn may_count(entry: &Entry, calls: u64) -> bool
    ensures { IsTrue result
        ↔ MayCount (operation_of entry.now.what) calls (shown_entry entry.now) }
{
    match entry.what {
        What::Write { .. } | What::WriteSectors { .. } => {
            entry.at <= calls.saturating_add(1) && matches!(entry.reply, Reply::Done | Reply::Fault)
        }
        What::Discard { .. } => entry.at <= calls && matches!(entry.reply, Reply::Done),
        What::Read { .. } | What::ReadSectors { .. } | What::Flush => false,
    }
}

/// Whether it is a flush that was acknowledged when so many writing calls had returned.
pub fn is_acknowledged(entry: &Entry, calls: u64) -> bool
    ensures { result ≡ is_acknowledged calls (shown_entry entry.now) }
{
    entry.what == What::Flush && matches!(entry.reply, Reply::Done) && entry.at <= calls
}
