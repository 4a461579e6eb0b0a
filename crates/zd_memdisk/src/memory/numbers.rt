//! The greatest numbers that the choices of a stop may name.

ghost use Rattle.std.specs.Prelude.{IfNone, IfSome};
ghost use Rattle.zd_memdisk.specs.Numbers.{HasNoPrefix, HasNoValue, HasPrefixesUpTo, HasValuesUpTo};

use super::MemDisk;
use crate::greatest::EventsOf;
use zd_base::ZoneNo;

impl MemDisk {
    /// The greatest value number of a conventional sector at a stop when `k` writing calls had returned: how often
    /// it was written since the last flush that answered Ok, by a call under way too.
    ///
    /// `None` where fewer calls have returned, or there is no such conventional sector. It takes time in the
    /// length of the record, and no memory.
    pub fn values(&self, k: u64, zone: ZoneNo, sector: u32) -> Option<u64>
        ensures some { IfSome result (HasValuesUpTo self.now k zone sector) }
        ensures none { IfNone result (HasNoValue self.now k zone sector) }
    {
        let geometry = self.recorded.store().geometry();
        if k > self.calls() || zone.0 >= geometry.conv() || sector >= 8 * geometry.zone_blocks() {
            return None;
        }
        let which = EventsOf::Sector { zone, sector };
        Some(self.recorded.event_count(&which, k))
    }

    /// The longest prefix of a sequential zone's events at a stop when `k` writing calls had returned: how many
    /// sector writes and resets there were since the last flush that answered Ok, those of a call under way too.
    ///
    /// `None` where fewer calls have returned, or there is no such sequential zone. It takes time in the length
    /// of the record, and no memory.
    pub fn prefixes(&self, k: u64, zone: ZoneNo) -> Option<u64>
        ensures some { IfSome result (HasPrefixesUpTo self.now k zone) }
        ensures none { IfNone result (HasNoPrefix self.now k zone) }
    {
        let geometry = self.recorded.store().geometry();
        if k > self.calls() || zone.0 < geometry.conv() || zone.0 >= geometry.zones() {
            return None;
        }
        let which = EventsOf::Zone { zone };
        Some(self.recorded.event_count(&which, k))
    }
}
