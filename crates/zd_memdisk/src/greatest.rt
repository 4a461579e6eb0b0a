//! How many events of a sector or a zone there are up to a stop, without memory.

ghost use Rattle.std.specs.Prelude.{◌≡◌, ◌+◌, ◌*◌, ◌<◌, ◌≤◌, ◌^◌, ℕ, List, [], ◌∷◌, length, if◌then◌else◌};
ghost use Rattle.zd_model.specs.Left.{asked_of};
ghost use Rattle.zd_model.specs.Left.Event.{Clear};
ghost use Rattle.zd_disk.specs.Growth.{puts};
ghost use Rattle.zd_memdisk.specs.Calls.{byte_count, calls_of, total_bytes};
ghost use Rattle.zd_memdisk.specs.Events.{AreFit, Done, IsFit, after_done, call_at, done_of};

use crate::record::{Noted, WritingCall};
use zd_base::ZoneNo;

/// Whose events are counted.
#[derive(Clone, Copy)]
pub enum EventsOf {
    /// Those that put a value into a sector.
    Sector {
        /// The zone.
        zone: ZoneNo,
        /// The sector of the zone.
        sector: u32,
    },
    /// Those that are done to a zone.
    Zone {
        /// The zone.
        zone: ZoneNo,
    },
}

impl EventsOf {
    ghost use Rattle.zd_memdisk.specs.Greatest.{event_count, events_by};

    // Those of so many sectors that are written from one on.
    fn of_sectors(&self, written: ZoneNo, start: u32, count: usize) -> u64
        requires { start + count < 2 ^ 32 }
        ensures value { (bytes : List ℕ) → result ≡ event_count self.now (puts written start bytes 0 count) }
        ensures few { result ≤ count }
    {
        match *self {
            EventsOf::Sector { zone, sector } => {
                if zone != written {
                    return 0;
                }
                if sector < start {
                    return 0;
                }
                if start as usize + count <= sector as usize {
                    return 0;
                }
                1
            }
            EventsOf::Zone { zone } => {
                if zone != written {
                    return 0;
                }
                count as u64
            }
        }
    }

    // Those of a reset.
    fn of_reset(&self, reset: ZoneNo) -> u64
        ensures value { result ≡ event_count self.now (Clear reset ∷ []) }
        ensures few { result ≤ 1 }
    {
        match *self {
            EventsOf::Sector { .. } => 0,
            EventsOf::Zone { zone } => {
                if zone != reset {
                    return 0;
                }
                1
            }
        }
    }

    // Those that a call did.
    fn of_done(&self, call: &WritingCall) -> u64
        requires { IsFit call.now }
        ensures value { (bytes : List ℕ) (at : ℕ) → at + byte_count call.now ≤ length bytes →
            result ≡ event_count self.now (done_of (call_at bytes at call.now)) }
        ensures few { result ≤ byte_count call.now + 1 }
    {
        match *call {
            WritingCall::Write {
                zone,
                start,
                put,
                ..
            } => self.of_sectors(zone, start, put),
            WritingCall::Reset { zone, done: true } => self.of_reset(zone),
            WritingCall::Reset { done: false, .. } | WritingCall::Flush { .. } => 0,
        }
    }

    // Those that a call was asked for.
    fn of_asked(&self, call: &WritingCall) -> u64
        requires { IsFit call.now }
        ensures value { (bytes : List ℕ) (at : ℕ) → at + byte_count call.now ≤ length bytes →
            result ≡ event_count self.now (asked_of (call_at bytes at call.now)) }
        ensures few { result ≤ byte_count call.now + 1 }
    {
        match *call {
            WritingCall::Write {
                zone,
                start,
                count,
                ..
            } => self.of_sectors(zone, start, count),
            WritingCall::Reset { zone, .. } => self.of_reset(zone),
            WritingCall::Flush { .. } => 0,
        }
    }

    // How many there are since the last flush, where one more call has returned.
    fn after(&self, count: u64, call: &WritingCall) -> u64
        requires fit { IsFit call.now }
        requires room { count + byte_count call.now + 1 < 2 ^ 64 }
        ensures value { (bytes : List ℕ) (at : ℕ) (done : Done) → at + byte_count call.now ≤ length bytes →
            count ≡ event_count self.now done.since →
            result ≡ event_count self.now (after_done done (call_at bytes at call.now)).since }
        ensures few { result ≤ count + byte_count call.now + 1 }
    {
        if let WritingCall::Flush { ok: true } = *call {
            return 0;
        }
        count + self.of_done(call)
    }

    /// How many there are when so many calls have returned: those since the last flush that answered Ok, and
    /// those of the call under way.
    pub fn up_to(&self, noted: &[Noted], stop: u64) -> u64
        requires fit { AreFit noted.now }
        requires bytes { length noted.now + total_bytes noted.now + 1 < 2 ^ 64 }
        ensures { (bytes : List ℕ) (skipped : ℕ) → length bytes ≡ total_bytes noted.now →
            result ≡ events_by self.now (calls_of noted.now bytes skipped) stop }
    {
        let mut left = stop;
        let mut count = 0;
        for noted in noted {
            if left < noted.skipped {
                return count;
            }
            if left == noted.skipped {
                return count + self.of_asked(&noted.call);
            }
            left -= noted.skipped + 1;
            count = self.after(count, &noted.call);
        }
        count
    }
}
