//! Events counted in a store's record.

ghost use Rattle.std.specs.Prelude.{◌≡◌};
ghost use Rattle.zd_memdisk.specs.Greatest.{events_by};

use super::RecordedStore;
use crate::greatest::EventsOf;

impl RecordedStore {
    ghost use Rattle.zd_memdisk.specs.RecordedStores.{calls_by};

    /// How many events of a sector or a zone there are when so many calls have returned: those since the last
    /// flush that answered Ok, and those of the call under way.
    pub fn event_count(&self, which: &EventsOf, stop: u64) -> u64
        ensures { result ≡ events_by which.now (calls_by self.now) stop }
    {
        let _blocks = self.store.geometry().zone_blocks();
        self.history.event_count(which, stop)
    }
}
