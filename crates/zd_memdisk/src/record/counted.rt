//! Events counted in a record.

ghost use Rattle.std.specs.Prelude.{◌≡◌};
ghost use Rattle.zd_memdisk.specs.Events.{AreFit};
ghost use Rattle.zd_memdisk.specs.Greatest.{events_by};

use super::Record;
use crate::greatest::EventsOf;

impl Record {
    ghost use Rattle.zd_memdisk.specs.Records.{record_calls};

    /// How many events of a sector or a zone there are when so many calls have returned: those since the last
    /// flush that answered Ok, and those of the call under way.
    pub fn event_count(&self, which: &EventsOf, stop: u64) -> u64
        requires { AreFit self.now.noted.items }
        ensures { result ≡ events_by which.now (record_calls self.now) stop }
    {
        which.up_to(&self.noted, stop)
    }
}
