//! The disk in memory, and its calls.

ghost use Rattle.std.specs.Prelude.{◌≡◌, ◌+◌, ◌-◌, ◌*◌, ◌/◌, ◌<◌, ◌≤◌, ◌^◌, ℕ, length, take, [], Some, None, true, false, ◌&&◌, not, is_ok, IfOk, IfErr, OnOk, OnErr, IsOk, IsErr};
ghost use Rattle.zd_base.specs.Faults.{HasCause};
ghost use Rattle.zd_base.specs.Geometry.{zone_sectors};
ghost use Rattle.zd_model.specs.Image.{Image, Same, run_of};
ghost use Rattle.zd_model.specs.Left.Call.{Flushes};
ghost use Rattle.zd_disk.specs.Growth.{Grows, KeepsLeft};
ghost use Rattle.zd_disk.specs.Steps.{count_of, WriteStep, WriteLeaves, ResetStep, ResetLeaves};
ghost use Rattle.zd_disk.specs.Told.{next_count, IsSequentialZone, IsInside};
ghost use Rattle.zd_memdisk.specs.Fails.{CountsCalls, names, all_counted};
ghost use Rattle.zd_memdisk.specs.Stored.{IsBlank};
ghost use Rattle.zd_memdisk.specs.Disks.{disk_geometry, disk_image, disk_calls, disk_read_calls, disk_faults, disk_fails, disk_left};
ghost use Rattle.zd_memdisk.specs.Disks.{spare_calls, spare_sectors, HasRoom, UsesRoom, ObeysList, ObeysRoom, CountsFault, IsSameDisk};
ghost use Rattle.zd_memdisk.specs.Disks.{first_half, CountsWriting, DidWrite, DidReset, Notes, IsNew};
ghost use Rattle.zd_memdisk.specs.Calls.{write_call, reset_call};
ghost use Rattle.zd_memdisk.specs.DiskChoices.{ChoicesAreLeft, EachHasChoices, IsStopOf, IsUnused, RefusesStop};
ghost use Rattle.zd_memdisk.specs.DiskLaws.{disk_agrees, disk_shaped, disk_leaves, disk_reads};

mod numbers;

use crate::choices::{Choices, StopFault};
use crate::fails::{DeviceCall, Fail, count_call};
use crate::recorded::RecordedStore;
use std::alloc::Global;
use zd_base::{Failed, Geometry, Memory, SECTOR, ZoneNo};
use zd_disk::ZonedDisk;

/// A disk in memory. It tells its zones, and fails exactly where a list says so, or where its record of
/// writing calls can't grow.
///
/// Of its writing calls it keeps a record, by which it tells exactly which images a stop may leave.
#[derive(Drop)]
pub struct MemDisk {
    recorded: RecordedStore,
    fails: Vec<Fail>,
    read_calls: u64,
    faults: u64,
}

// How many of its sectors a write puts: half of them where it is to fail.
fn sectors_put(count: usize, fails: bool) -> usize
    ensures all { fails ≡ false → result ≡ count }
    ensures half { fails ≡ true → result ≡ count / 2 }
{
    if fails { count / 2 } else { count }
}

impl MemDisk {
    /// A disk of zeros, with all pointers 0. It has had no call, and no call is to fail.
    ///
    /// It takes the memory of all zones twice: as they were first, and as they are. `Memory` leaves
    /// nothing.
    pub fn blank(alloc: Global, geometry: Geometry) -> Result<MemDisk, Memory>
        ensures zones { IfOk result (λ d. IsBlank geometry (disk_image d)) }
        ensures left { IfOk result IsNew }
        ensures counts { IfOk result (λ d.
            (disk_calls d ≡ 0) × (disk_read_calls d ≡ 0) × (disk_faults d ≡ 0)) }
        ensures fails { IfOk result (λ d. disk_fails d ≡ []) }
    {
        let Ok(recorded) = RecordedStore::blank(alloc, geometry) else {
            return Err(Memory);
        };
        Ok(MemDisk {
            recorded,
            fails: Vec::new(alloc),
            read_calls: 0,
            faults: 0,
        })
    }

    /// Has these calls fail, and no others. They are counted from now on.
    ///
    /// Items count apart, also where several mean one call; it fails where it is the nth of one of
    /// them. A write that fails puts the first half of its sectors, rounded down. Any other call that
    /// fails does nothing.
    pub fn fail_at(&mut self, fails: Vec<Fail>)
        ensures fails { disk_fails self.new ≡ fails.items }
        ensures nth { CountsCalls fails.items }
        ensures counts { (disk_read_calls self.new ≡ disk_read_calls self.old)
            × (disk_faults self.new ≡ disk_faults self.old) }
        ensures same { IsSameDisk self.old self.new }
    {
        self.fails = fails;
    }

    /// Makes room in the record for so many further writing calls that write so many sectors in all.
    ///
    /// Within this room the record takes no memory, so a call that isn't to fail answers Ok. `Memory`
    /// leaves the disk as it was.
    pub fn reserve(&mut self, calls: usize, sectors: usize) -> Result<(), Memory>
        ensures room { OnOk result ((calls ≤ spare_calls self.new) × (sectors ≤ spare_sectors self.new)) }
        ensures fails { disk_fails self.new ≡ disk_fails self.old }
        ensures counts { (disk_read_calls self.new ≡ disk_read_calls self.old)
            × (disk_faults self.new ≡ disk_faults self.old) }
        ensures same { IsSameDisk self.old self.new }
    {
        let Some(bytes) = sectors.checked_mul(SECTOR) else {
            return Err(Memory);
        };
        self.recorded.reserve(calls, bytes)
    }

    /// How many writing calls have returned, those that failed too: `write`, `reset` and `flush`.
    pub fn calls(&self) -> u64
        ensures { result ≡ disk_calls self.now }
    {
        self.recorded.calls()
    }

    /// How many reading calls have returned, those that failed too: `read` and `report`.
    pub fn read_calls(&self) -> u64
        ensures { result ≡ disk_read_calls self.now }
    {
        self.read_calls
    }

    /// What a stop leaves when `k` writing calls have returned, those that failed too, and the next may be
    /// under way: a disk that reads so, and has had no calls.
    ///
    /// A conventional sector has the value that the choices name, one that it had at the last flush that
    /// answered Ok or that was put there since then; a sequential zone is as at that flush after the first
    /// so many of its events that the choices name. Of several items for one place the last counts.
    ///
    /// `NoStop` where fewer than `k` writing calls have returned; else `BadChoice` where an item names what
    /// isn't there. It takes time in the size of the disk, of its record and of the choices.
    pub fn stop_image(&self, alloc: Global, k: u64, choices: &Choices) -> Result<MemDisk, StopFault>
        ensures ok { IfOk result (IsStopOf self.now k choices.now) }
        ensures left { IfOk result IsUnused }
        ensures calls { disk_calls self.now < k → result ≡ Err StopFault.NoStop }
        ensures err { IfErr result (RefusesStop self.now k choices.now) }
    {
        if k > self.calls() {
            return Err(StopFault::NoStop);
        }
        let recorded = match self.recorded.stop(alloc, k, choices) {
            Ok(recorded) => recorded,
            Err(fault) => return Err(fault),
        };
        Ok(MemDisk {
            recorded,
            fails: Vec::new(alloc),
            read_calls: 0,
            faults: 0,
        })
    }

    /// What holds of the images that a stop may leave, by choices: what is chosen may be left, and each
    /// image that may be left can be chosen. It does nothing.
    pub fn choice_laws(&self)
        ensures left { ChoicesAreLeft self.now }
        ensures each { EachHasChoices self.now }
    {
        let _calls = self.calls();
    }

    // Counts a call at the list, and answers whether that says that it fails.
    fn count(&mut self, call: DeviceCall, zone: Option<ZoneNo>) -> bool
        ensures value { result ≡ names (disk_fails self.old) call zone }
        ensures fails { disk_fails self.new ≡ all_counted (disk_fails self.old) call zone }
        ensures same { (self.new.recorded ≡ self.old.recorded) × (self.new.faults ≡ self.old.faults)
            × (self.new.read_calls ≡ self.old.read_calls) }
    {
        count_call(&mut self.fails, call, zone)
    }

    // Counts a fault where the list named the call, or it wasn't noted.
    fn answer(&mut self, named: bool, noted: bool) -> Result<(), Failed>
        ensures value { is_ok result ≡ (noted && not named) }
        ensures cause { CountsFault (disk_faults self.old) (disk_faults self.new) result }
        ensures same { (self.new.recorded ≡ self.old.recorded) × (self.new.fails ≡ self.old.fails)
            × (self.new.read_calls ≡ self.old.read_calls) }
    {
        if noted && !named {
            return Ok(());
        }
        self.faults = self.faults.saturating_add(1);
        Err(Failed)
    }

    // Counts a call at the list, and answers Failed where that says so.
    fn ask(&mut self, call: DeviceCall, zone: Option<ZoneNo>) -> Result<(), Failed>
        ensures cause { ObeysList call zone self.old self.new result }
        ensures same { (self.new.recorded ≡ self.old.recorded)
            × (self.new.read_calls ≡ self.old.read_calls) }
    {
        let named = self.count(call, zone);
        self.answer(named, true)
    }
}

impl ZonedDisk for MemDisk {
    ghost view = { λ d. record {
      told = Some (disk_geometry d);
      zones = Some (disk_image d);
      calls = disk_calls d;
      read_calls = disk_read_calls d;
      left = disk_left d;
      faults = disk_faults d;
      agrees = disk_agrees d;
      shaped = disk_shaped d;
      leaves = disk_leaves d;
      reads = disk_reads d;
    } };

    fn geometry(&mut self) -> Result<Geometry, Failed>
        ensures value { IfOk result (λ g. g ≡ disk_geometry self.old) }
        ensures cause { ObeysList DeviceCall.Geometry None self.old self.new result }
        ensures counted { disk_read_calls self.new ≡ disk_read_calls self.old }
        ensures same { IsSameDisk self.old self.new }
        ensures left { KeepsLeft (disk_left self.old) (disk_left self.new) }
    {
        self.ask(DeviceCall::Geometry, None)?;
        Ok(self.recorded.store().geometry())
    }

    fn report(&mut self, zone: ZoneNo) -> Result<u32, Failed>
        requires { IsSequentialZone zone (disk_geometry self.old) }
        ensures value { IfOk result (λ p. p ≡ (disk_image self.old).held zone) }
        ensures within { IfOk result (λ p. p ≤ zone_sectors (disk_geometry self.old)) }
        ensures cause { ObeysList DeviceCall.Report (Some zone) self.old self.new result }
        ensures counted { disk_read_calls self.new ≡ next_count (disk_read_calls self.old) }
        ensures same { IsSameDisk self.old self.new }
        ensures left { KeepsLeft (disk_left self.old) (disk_left self.new) }
    {
        self.read_calls = self.read_calls.saturating_add(1);
        self.ask(DeviceCall::Report, Some(zone))?;
        Ok(self.recorded.store().pointer(zone))
    }

    fn read(&mut self, zone: ZoneNo, start: u32, into: &mut [u8]) -> Result<(), Failed>
        requires whole { length into.old ≡ 512 * count_of into.old }
        requires some { 0 < count_of into.old }
        requires inside { IsInside zone start (count_of into.old) (disk_geometry self.old) }
        requires below { start + count_of into.old ≤ (disk_image self.old).held zone }
        ensures value { OnOk result (into.new
            ≡ run_of ((disk_image self.old).sector zone) start (count_of into.old)) }
        ensures err { OnErr result (into.new ≡ into.old) }
        ensures cause { ObeysList DeviceCall.Read (Some zone) self.old self.new result }
        ensures counted { disk_read_calls self.new ≡ next_count (disk_read_calls self.old) }
        ensures same { IsSameDisk self.old self.new }
        ensures left { KeepsLeft (disk_left self.old) (disk_left self.new) }
    {
        self.read_calls = self.read_calls.saturating_add(1);
        self.ask(DeviceCall::Read, Some(zone))?;
        self.recorded.store().read(zone, start, into);
        Ok(())
    }

    fn write(&mut self, zone: ZoneNo, start: u32, bytes: &[u8]) -> Result<(), Failed>
        requires whole { length bytes.now ≡ 512 * count_of bytes.now }
        requires some { 0 < count_of bytes.now }
        requires inside { IsInside zone start (count_of bytes.now) (disk_geometry self.old) }
        requires pointer { (disk_geometry self.old).conv ≤ zone
            → start ≡ (disk_image self.old).held zone }
        ensures did { DidWrite zone start bytes.now self.old self.new result }
        ensures history { Notes DeviceCall.Write (Some zone) (count_of bytes.now)
            (write_call zone start bytes.now (count_of bytes.now))
            (write_call zone start bytes.now (count_of bytes.now / 2)) self.old self.new result }
        ensures counted { CountsWriting self.old self.new }
        ensures left { disk_calls self.new < 2 ^ 64 - 1 →
            Grows (disk_calls self.old) (disk_left self.old) (disk_left self.new)
            (WriteStep (disk_image self.old) zone start bytes.now)
            (WriteLeaves (disk_image self.old) (disk_image self.new) zone start bytes.now) }
        ensures cause { ObeysRoom DeviceCall.Write (Some zone) (count_of bytes.now) self.old self.new result }
        ensures room { UsesRoom (count_of bytes.now) self.old self.new }
    {
        let named = self.count(DeviceCall::Write, Some(zone));
        let put = sectors_put(bytes.len() / SECTOR, named);
        let noted = self.recorded.write(zone, start, bytes, put).is_ok();
        self.answer(named, noted)
    }

    fn reset(&mut self, zone: ZoneNo) -> Result<(), Failed>
        requires { IsSequentialZone zone (disk_geometry self.old) }
        ensures did { DidReset zone (disk_image self.old) (disk_image self.new) result }
        ensures history { Notes DeviceCall.Reset (Some zone) 0 (reset_call zone true) (reset_call zone false)
            self.old self.new result }
        ensures counted { CountsWriting self.old self.new }
        ensures left { disk_calls self.new < 2 ^ 64 - 1 →
            Grows (disk_calls self.old) (disk_left self.old) (disk_left self.new)
            (ResetStep zone) (ResetLeaves (disk_image self.new) zone) }
        ensures cause { ObeysRoom DeviceCall.Reset (Some zone) 0 self.old self.new result }
        ensures room { UsesRoom 0 self.old self.new }
    {
        let named = self.count(DeviceCall::Reset, Some(zone));
        let noted = self.recorded.reset(zone, !named).is_ok();
        self.answer(named, noted)
    }

    fn flush(&mut self) -> Result<(), Failed>
        ensures zones { disk_image self.new ≡ disk_image self.old }
        ensures history { Notes DeviceCall.Flush None 0 (Flushes true) (Flushes false)
            self.old self.new result }
        ensures counted { CountsWriting self.old self.new }
        ensures left { disk_calls self.new < 2 ^ 64 - 1 →
            Grows (disk_calls self.old) (disk_left self.old) (disk_left self.new) Same Same }
        ensures durable { OnOk result (disk_calls self.new < 2 ^ 64 - 1 → (c : Image)
            → disk_left self.new (disk_calls self.new) c → Same (disk_image self.old) c) }
        ensures cause { ObeysRoom DeviceCall.Flush None 0 self.old self.new result }
        ensures room { UsesRoom 0 self.old self.new }
    {
        let named = self.count(DeviceCall::Flush, None);
        let noted = self.recorded.flush(!named).is_ok();
        self.answer(named, noted)
    }
}

#[cfg(test)]
mod tests;
