//! A disk in an image file.

ghost use Rattle.std.specs.Prelude.{◌≡◌, ◌≤◌, ◌↔◌, Some, None, IsSome, IsOk, IfOk, OnOk, IfSome};
ghost use Rattle.std.specs.Prelude.{IsSomeAnd};
ghost use Rattle.std.proofs.lemmas.Option.{none-some};
ghost use Rattle.zd_base.specs.Geometry.{zone_sectors};
ghost use Rattle.zd_disk.specs.FileDisk.{EdgeAsks, CountsFaults, EdgeReads, EdgeWrites};
ghost use Rattle.zd_disk.specs.FileDisk.{IsSectorRun};
ghost use Rattle.zd_disk.specs.Told.{IsSequentialZone};

use crate::ZonedDisk;
use crate::image_file::ImageFile;
use std::fs::{Files, OpenFile};
use std::io::{Read, Seek, Write};
use std::marker::Model;
use zd_base::{Failed, Geometry, ZoneNo};

/// A disk in an image file, which tells nothing of its content.
///
/// It trusts neither the file nor its callers: `Failed` is also the answer to a call at a wrong
/// place, and to each call where the file couldn't be opened or its header is bad. Nothing is
/// promised of a stop of the machine. Contracts see it as an `Edge`: the geometry where the file
/// has a right header, and the counts of writing calls, reading calls and faults.
#[derive(Drop)]
pub struct FileDisk<F> {
    image: Option<ImageFile<F>>,
    calls: u64,
    read_calls: u64,
    faults: u64,
}

impl<F> Model for FileDisk<F> {
    ghost use Rattle.std.specs.Option.{option_map};
    ghost use Rattle.zd_disk.specs.FileDisk.{Edge};

    ghost Value = { Edge };

    ghost view = { λ d. record {
      told = option_map (λ i. i.geometry) d.image;
      calls = d.calls;
      read_calls = d.read_calls;
      faults = d.faults;
    } };
}

impl<F: Read + Write + Seek + OpenFile + Drop> FileDisk<F> {
    /// The disk in the image file at this path.
    pub fn at<R: Files<File = F>>(rt: &R, path: &str) -> FileDisk<F>
        ensures counts { (result.calls ≡ 0) × (result.read_calls ≡ 0) × (result.faults ≡ 0) }
    {
        FileDisk {
            image: ImageFile::open(rt, path),
            calls: 0,
            read_calls: 0,
            faults: 0,
        }
    }

    /// A disk that fails at every call.
    pub fn none() -> FileDisk<F>
        ensures { result ≡ record { told = None; calls = 0; read_calls = 0; faults = 0 } }
    {
        FileDisk {
            image: None,
            calls: 0,
            read_calls: 0,
            faults: 0,
        }
    }
}

// Counts a fault where the answer is one.
fn counted<T>(faults: &mut u64, answer: Result<T, Failed>) -> Result<T, Failed>
    ensures same { result ≡ answer }
    ensures faults { CountsFaults faults.old faults.new result }
{
    if answer.is_err() {
        *faults = faults.saturating_add(1);
    }
    answer
}

impl<F: Read + Write + Seek + OpenFile + Drop> ZonedDisk for FileDisk<F> {
    ghost view = { λ d. record {
      told = d.told;
      zones = None;
      calls = d.calls;
      read_calls = d.read_calls;
      left = λ k i. ⊥;
      faults = d.faults;
      agrees = λ i e. absurd (none-some i e);
      shaped = λ i e. absurd (none-some i e);
      leaves = λ k i within left. absurd left;
      reads = λ i small e. absurd (none-some i e);
    } };

    fn geometry(&mut self) -> Result<Geometry, Failed>
        ensures ok { IsOk result ↔ IsSome self.old.told }
        ensures value { IfOk result (λ g. self.old.told ≡ Some g) }
        ensures counted { EdgeAsks self.old self.new }
        ensures faults { CountsFaults self.old.faults self.new.faults result }
    {
        let answer = match &self.image {
            Some(image) => Ok(image.geometry),
            None => Err(Failed),
        };
        counted(&mut self.faults, answer)
    }

    fn report(&mut self, zone: ZoneNo) -> Result<u32, Failed>
        ensures ok { OnOk result (IsSomeAnd self.old.told (IsSequentialZone zone)) }
        ensures within { IfOk result (λ p. IfSome self.old.told (λ g. p ≤ zone_sectors g)) }
        ensures counted { EdgeReads self.old self.new }
        ensures faults { CountsFaults self.old.faults self.new.faults result }
    {
        self.read_calls = self.read_calls.saturating_add(1);
        let answer = match &mut self.image {
            Some(image) => image.report(zone),
            None => Err(Failed),
        };
        counted(&mut self.faults, answer)
    }

    fn read(&mut self, zone: ZoneNo, start: u32, into: &mut [u8]) -> Result<(), Failed>
        ensures ok { OnOk result (IsSomeAnd self.old.told (IsSectorRun zone start into.old)) }
        ensures counted { EdgeReads self.old self.new }
        ensures faults { CountsFaults self.old.faults self.new.faults result }
    {
        self.read_calls = self.read_calls.saturating_add(1);
        let answer = match &mut self.image {
            Some(image) => image.read(zone, start, into),
            None => Err(Failed),
        };
        counted(&mut self.faults, answer)
    }

    fn write(&mut self, zone: ZoneNo, start: u32, bytes: &[u8]) -> Result<(), Failed>
        ensures ok { OnOk result (IsSomeAnd self.old.told (IsSectorRun zone start bytes.now)) }
        ensures counted { EdgeWrites self.old self.new }
        ensures faults { CountsFaults self.old.faults self.new.faults result }
    {
        self.calls = self.calls.saturating_add(1);
        let answer = match &mut self.image {
            Some(image) => image.write(zone, start, bytes),
            None => Err(Failed),
        };
        counted(&mut self.faults, answer)
    }

    fn reset(&mut self, zone: ZoneNo) -> Result<(), Failed>
        ensures ok { OnOk result (IsSomeAnd self.old.told (IsSequentialZone zone)) }
        ensures counted { EdgeWrites self.old self.new }
        ensures faults { CountsFaults self.old.faults self.new.faults result }
    {
        self.calls = self.calls.saturating_add(1);
        let answer = match &mut self.image {
            Some(image) => image.reset(zone),
            None => Err(Failed),
        };
        counted(&mut self.faults, answer)
    }

    fn flush(&mut self) -> Result<(), Failed>
        ensures ok { OnOk result (IsSome self.old.told) }
        ensures counted { EdgeWrites self.old self.new }
        ensures faults { CountsFaults self.old.faults self.new.faults result }
    {
        self.calls = self.calls.saturating_add(1);
        let answer = match &self.image {
            Some(image) => image.sync(),
            None => Err(Failed),
        };
        counted(&mut self.faults, answer)
    }
}

#[cfg(test)]
mod tests;
