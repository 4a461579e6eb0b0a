//! Stops in the last run.

use crate::fault::Broken;
use crate::places::copy_at;
use crate::runs::Told;
use crate::steps::{Count, Stop};
use std::alloc::Global;
use zd_memdisk::MemDisk;
use zd_open::open;

/// How many writing and reading calls opening takes, over the disk as it was when the last run
/// began.
pub fn opening_calls(alloc: Global, disk: &MemDisk, told: &Told) -> Result<(u64, u64), Broken> {
    let mut image = copy_at(alloc, disk, told.before)?;
    match open(alloc, &mut image) {
        Ok(_) => Ok((image.calls(), image.read_calls())),
        Err(_) => Err(Broken::NotOpened),
    }
}

/// A number of writing calls, counted from the start of the last run.
pub fn from_start(alloc: Global, disk: &MemDisk, told: &Told, count: Count) -> Result<u64, Broken> {
    if !count.opened {
        return Ok(count.number);
    }
    let (calls, _) = opening_calls(alloc, disk, told)?;
    Ok(calls.saturating_add(count.number))
}

/// What a stop in the last run leaves.
pub fn stopped(alloc: Global, disk: &MemDisk, told: &Told, stop: &Stop) -> Result<MemDisk, Broken> {
    let calls = from_start(alloc, disk, told, stop.at)?;
    if calls > told.calls {
        return Err(Broken::NoStop);
    }
    let at = told.before.saturating_add(calls);
    disk.stop_image(alloc, at, &stop.choices)
        .ok()
        .ok_or(Broken::NoStop)
}
