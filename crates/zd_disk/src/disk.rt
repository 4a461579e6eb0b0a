//! The calls of a zoned disk, with what each needs, does and tells.

ghost use Rattle.std.specs.Prelude.{◌≡◌, ◌+◌, ◌*◌, ◌<◌, ◌≤◌, Some, length, IfOk, OnOk, OnErr};
ghost use Rattle.std.specs.Prelude.{IfSome, IsSomeAnd};
ghost use Rattle.zd_base.specs.Geometry.{zone_sectors};
ghost use Rattle.zd_model.specs.Image.{Same, run_of};
ghost use Rattle.zd_disk.specs.Steps.{count_of, Wrote, WriteStep, WriteLeaves, WasReset, ResetStep};
ghost use Rattle.zd_disk.specs.Steps.{ResetLeaves};
ghost use Rattle.zd_disk.specs.Told.{IsSequentialZone, IsInside};
ghost use Rattle.zd_disk.specs.View.{View, Calls, Fails, IsDurable, OnlyReads, ReadsNone};
ghost use Rattle.zd_disk.specs.View.{ReadsOnce, Turns};

use zd_base::{Failed, Geometry, ZoneNo};

/// A disk of conventional and sequential zones. Places are sectors of 512 bytes inside a zone.
///
/// A call fails only where the count of faults rose. Writing calls are `write`, `reset` and
/// `flush`, reading calls `read` and `report`; both are counted, also where they fail.
///
/// Where a disk tells its zones, it also tells what a stop may leave of it, at each moment of its
/// life: once so many writing calls have returned and the next may be under way. What is said of
/// stops is said while the count of writing calls is below its end.
pub trait ZonedDisk: Drop {
    /// What the disk tells now.
    ghost view: { Self → View };

    /// The geometry, the same at each answer.
    fn geometry(&mut self) -> Result<Geometry, Failed>
        ensures value { IfOk result (λ g. (view self.new).told ≡ Some g) }
        ensures read_calls { ReadsNone (view self.old) (view self.new) }
        ensures reads { OnlyReads (view self.old) (view self.new) }
        ensures cause { Fails result (view self.old) (view self.new) };

    /// The pointer of a sequential zone, in sectors; that of a full zone is the zone's size.
    fn report(&mut self, zone: ZoneNo) -> Result<u32, Failed>
        requires { IsSomeAnd (view self.old).told (IsSequentialZone zone) }
        ensures value { IfOk result (λ p. IfSome (view self.old).zones (λ i. p ≡ i.held zone)) }
        ensures within { IfOk result (λ p. IfSome (view self.old).told (λ g. p ≤ zone_sectors g)) }
        ensures read_calls { ReadsOnce (view self.old) (view self.new) }
        ensures reads { OnlyReads (view self.old) (view self.new) }
        ensures cause { Fails result (view self.old) (view self.new) };

    /// Reads sectors, in a sequential zone from below its pointer.
    ///
    /// `Failed` says nothing of what then stands in `into`.
    fn read(&mut self, zone: ZoneNo, start: u32, into: &mut [u8]) -> Result<(), Failed>
        requires whole { length into.old ≡ 512 * count_of into.old }
        requires some { 0 < count_of into.old }
        requires inside { IsSomeAnd (view self.old).told (IsInside zone start (count_of into.old)) }
        requires below { IfSome (view self.old).zones (λ i.
            start + count_of into.old ≤ i.held zone) }
        ensures value { OnOk result (IfSome (view self.old).zones (λ i.
            into.new ≡ run_of (i.sector zone) start (count_of into.old))) }
        ensures read_calls { ReadsOnce (view self.old) (view self.new) }
        ensures reads { OnlyReads (view self.old) (view self.new) }
        ensures cause { Fails result (view self.old) (view self.new) };

    /// Writes sectors, in a sequential zone at its write pointer, which moves past them.
    ///
    /// `Failed` may have put any of the sectors in a conventional zone, or a prefix of them in a
    /// sequential one.
    fn write(&mut self, zone: ZoneNo, start: u32, bytes: &[u8]) -> Result<(), Failed>
        requires whole { length bytes.now ≡ 512 * count_of bytes.now }
        requires some { 0 < count_of bytes.now }
        requires inside { IsSomeAnd (view self.old).told
            (IsInside zone start (count_of bytes.now)) }
        requires pointer { IfSome (view self.old).zones (λ i.
            i.geometry.conv ≤ zone → start ≡ i.held zone) }
        ensures ok { OnOk result (Turns (Wrote zone start bytes.now)
            (view self.old) (view self.new)) }
        ensures err { OnErr result (Turns (λ i. WriteStep i zone start bytes.now i)
            (view self.old) (view self.new)) }
        ensures call { Calls (λ i. WriteStep i zone start bytes.now)
            (λ i j. WriteLeaves i j zone start bytes.now) (view self.old) (view self.new) }
        ensures cause { Fails result (view self.old) (view self.new) };

    /// Takes the pointer of a sequential zone back to its start.
    ///
    /// `Failed` may have done it or not.
    fn reset(&mut self, zone: ZoneNo) -> Result<(), Failed>
        requires { IsSomeAnd (view self.old).told (IsSequentialZone zone) }
        ensures ok { OnOk result (Turns (WasReset zone) (view self.old) (view self.new)) }
        ensures err { OnErr result (Turns (ResetStep zone) (view self.old) (view self.new)) }
        ensures call { Calls (λ _. ResetStep zone) (λ _ j. ResetLeaves j zone)
            (view self.old) (view self.new) }
        ensures cause { Fails result (view self.old) (view self.new) };

    /// Makes all that was written outlast a stop. `Failed` may have done it or not.
    fn flush(&mut self) -> Result<(), Failed>
        requires { IsSomeAnd (view self.old).told (λ _. Unit {0}) }
        ensures same { Turns Same (view self.old) (view self.new) }
        ensures call { Calls (λ _. Same) (λ _ _. Same) (view self.old) (view self.new) }
        ensures durable { OnOk result (IsDurable (view self.new)) }
        ensures cause { Fails result (view self.old) (view self.new) };
}
