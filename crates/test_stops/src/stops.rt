//! Images of stops of a disk in memory.

mod lister;

use lister::{Call, Small, left};
use std::process::Abort;
use std::test::Fail;
use zd_base::{Geometry, SECTOR, ZoneNo};
use zd_disk::{Failed, ZonedDisk};
use zd_memdisk::{Choices, DeviceCall, Fail as Failing, MemDisk, StopFault};

fn blank(rt: &impl AllocGlobal, blocks: u32, conv: u32, seq: u32) -> Result<MemDisk, Fail> {
    let geometry = Geometry::new(blocks, conv, seq).ok().ok_or("geometry")?;
    Ok(MemDisk::blank(rt.alloc(), geometry).ok().ok_or("memory")?)
}

/// Writes sectors, in a sequential zone at its pointer.
fn write<D: ZonedDisk>(
    rt: &impl Abort,
    disk: &mut D,
    zone: u32,
    bytes: &[u8],
) -> Result<(), Failed> {
    let geometry = disk.geometry()?;
    assert!(rt; zone < geometry.zones());
    assert!(rt; 0 < bytes.len() && bytes.len() % SECTOR == 0);
    assert!(rt; bytes.len() <= 8 * SECTOR);
    if zone < geometry.conv() {
        return disk.write(ZoneNo(zone), 0, bytes);
    }
    let pointer = disk.report(ZoneNo(zone))?;
    assert!(rt; pointer <= 32);
    disk.write(ZoneNo(zone), pointer, bytes)
}

fn reset<D: ZonedDisk>(rt: &impl Abort, disk: &mut D, zone: u32) -> Result<(), Failed> {
    let geometry = disk.geometry()?;
    assert!(rt; geometry.conv() <= zone && zone < geometry.zones());
    disk.reset(ZoneNo(zone))
}

fn flush<D: ZonedDisk>(disk: &mut D) -> Result<(), Failed> {
    let _geometry = disk.geometry()?;
    disk.flush()
}

fn pointer<D: ZonedDisk>(rt: &impl Abort, disk: &mut D, zone: u32) -> Result<u32, Failed> {
    let geometry = disk.geometry()?;
    assert!(rt; geometry.conv() <= zone && zone < geometry.zones());
    disk.report(ZoneNo(zone))
}

/// The byte of which a sector is full.
fn byte<D: ZonedDisk>(rt: &impl Abort, disk: &mut D, zone: u32, sector: u32) -> Result<u8, Failed> {
    let geometry = disk.geometry()?;
    assert!(rt; zone < geometry.zones() && sector < 8);
    let mut bytes = [0; SECTOR];
    if zone < geometry.conv() {
        disk.read(ZoneNo(zone), sector, &mut bytes)?;
    } else {
        assert!(rt; sector < disk.report(ZoneNo(zone))?);
        disk.read(ZoneNo(zone), sector, &mut bytes)?;
    }
    for byte in &bytes {
        assert!(rt; *byte == bytes[0]);
    }
    Ok(bytes[0])
}

fn choices(
    rt: &impl AllocGlobal,
    newest: bool,
    conv: &[(ZoneNo, u32, u64)],
    seq: &[(ZoneNo, u64)],
) -> Result<Choices, Fail> {
    Ok(Choices {
        newest,
        conv: conv.to_vec(rt.alloc())?,
        seq: seq.to_vec(rt.alloc())?,
    })
}

#[test]
fn a_sector_that_was_written_twice_has_three_values(rt: HostRuntime) -> Result<(), Fail> {
    let mut disk = blank(&rt, 16, 6, 6)?;
    write(&rt, &mut disk, 0, &[1; SECTOR])?;
    write(&rt, &mut disk, 0, &[2; SECTOR])?;
    let none = choices(&rt, false, &[], &[])?;
    assert!(rt;
        matches!(
            disk.stop_image(rt.alloc(), 3, &none),
            Err(StopFault::NoStop)
        )
    );
    let third = choices(&rt, false, &[(ZoneNo(0), 0, 3)], &[])?;
    assert!(rt;
        matches!(
            disk.stop_image(rt.alloc(), 2, &third),
            Err(StopFault::BadChoice)
        )
    );
    let second = choices(&rt, false, &[(ZoneNo(0), 0, 2)], &[])?;
    let mut image = disk.stop_image(rt.alloc(), 2, &second).ok().ok_or("image")?;
    assert_eq!(rt; byte(&rt, &mut image, 0, 0), Ok(2));
    assert_eq!(rt; image.calls(), 0);
    Ok(())
}

/// What the choices leave of the small disk; none where they choose what isn't there.
fn image(
    rt: &(impl Abort + AllocGlobal),
    disk: &MemDisk,
    stop: u64,
    choices: &Choices,
) -> Result<Option<Small>, Fail> {
    let mut image = match disk.stop_image(rt.alloc(), stop, choices) {
        Ok(image) => image,
        Err(StopFault::BadChoice) => return Ok(None),
        Err(_) => return Err(Fail::from("no image")),
    };
    let sectors = [
        byte(rt, &mut image, 0, 0).ok().ok_or("read")?,
        byte(rt, &mut image, 0, 1).ok().ok_or("read")?,
    ];
    let pointer = pointer(rt, &mut image, 1).ok().ok_or("report")?;
    let mut held = [0; 8];
    for (sector, held) in held.iter_mut().enumerate() {
        if sector < pointer as usize {
            *held = byte(rt, &mut image, 1, sector as u32).ok().ok_or("read")?;
        }
    }
    Ok(Some(Small {
        sectors,
        pointer: pointer as usize,
        held,
    }))
}

fn fail_next(rt: &impl AllocGlobal, disk: &mut MemDisk, call: DeviceCall) -> Result<(), Fail> {
    disk.fail_at(vec![in rt.alloc();
        Failing {
            call,
            zone: None,
            nth: 1
        },
    ]?);
    Ok(())
}

/// Makes a call of the small disk, and asserts that it fails where it is to.
fn make(rt: &(impl Abort + AllocGlobal), disk: &mut MemDisk, call: Call) -> Result<(), Fail> {
    match call {
        Call::Write(full) => {
            assert_eq!(rt; write(rt, disk, 0, &[full; 2 * SECTOR]), Ok(()));
        }
        Call::FailedWrite(full) => {
            fail_next(rt, disk, DeviceCall::Write)?;
            assert_eq!(rt; write(rt, disk, 0, &[full; 2 * SECTOR]), Err(Failed));
        }
        Call::Append(full) => {
            assert_eq!(rt; write(rt, disk, 1, &[full; 2 * SECTOR]), Ok(()));
        }
        Call::FailedAppend(full) => {
            fail_next(rt, disk, DeviceCall::Write)?;
            assert_eq!(rt; write(rt, disk, 1, &[full; 2 * SECTOR]), Err(Failed));
        }
        Call::Reset => assert_eq!(rt; reset(rt, disk, 1), Ok(())),
        Call::FailedReset => {
            fail_next(rt, disk, DeviceCall::Reset)?;
            assert_eq!(rt; reset(rt, disk, 1), Err(Failed));
        }
        Call::Flush => assert_eq!(rt; flush(disk), Ok(())),
        Call::FailedFlush => {
            fail_next(rt, disk, DeviceCall::Flush)?;
            assert_eq!(rt; flush(disk), Err(Failed));
        }
    }
    Ok(())
}

fn small_disk(rt: &(impl Abort + AllocGlobal), calls: &[Call]) -> Result<MemDisk, Fail> {
    let mut disk = blank(rt, 8, 1, 1)?;
    for call in calls {
        make(rt, &mut disk, *call)?;
    }
    Ok(disk)
}

/// What a stop may leave: the values of sectors 0 and 1, and the sequential zone by the number of its
/// events, as the byte below its pointer and the pointer.
struct Row {
    stop: u64,
    values: [&'static [u8]; 2],
    zones: &'static [(u8, usize)],
    newest: ([u8; 2], usize),
}

const CALLS: [Call; 7] = [
    Call::Write(1),
    Call::Append(2),
    Call::Reset,
    Call::Flush,
    Call::Write(3),
    Call::FailedAppend(4),
    Call::FailedFlush,
];

/// Listed by hand: a call under way counts with all that it was asked to do, and one that has returned
/// with what it did.
const ROWS: [Row; 8] = [
    Row {
        stop: 0,
        values: [&[0, 1], &[0, 1]],
        zones: &[(0, 0)],
        newest: ([0, 0], 0),
    },
    Row {
        stop: 1,
        values: [&[0, 1], &[0, 1]],
        zones: &[(0, 0), (2, 1), (2, 2)],
        newest: ([1, 1], 0),
    },
    Row {
        stop: 2,
        values: [&[0, 1], &[0, 1]],
        zones: &[(0, 0), (2, 1), (2, 2), (0, 0)],
        newest: ([1, 1], 2),
    },
    Row {
        stop: 3,
        values: [&[0, 1], &[0, 1]],
        zones: &[(0, 0), (2, 1), (2, 2), (0, 0)],
        newest: ([1, 1], 0),
    },
    Row {
        stop: 4,
        values: [&[1, 3], &[1, 3]],
        zones: &[(0, 0)],
        newest: ([1, 1], 0),
    },
    Row {
        stop: 5,
        values: [&[1, 3], &[1, 3]],
        zones: &[(0, 0), (4, 1), (4, 2)],
        newest: ([3, 3], 0),
    },
    Row {
        stop: 6,
        values: [&[1, 3], &[1, 3]],
        zones: &[(0, 0), (4, 1)],
        newest: ([3, 3], 1),
    },
    Row {
        stop: 7,
        values: [&[1, 3], &[1, 3]],
        zones: &[(0, 0), (4, 1)],
        newest: ([3, 3], 1),
    },
];

/// The choice of a value for each sector, and of a number of events.
fn choose(rt: &impl AllocGlobal, first: u64, second: u64, front: u64) -> Result<Choices, Fail> {
    choices(
        rt,
        false,
        &[(ZoneNo(0), 0, first), (ZoneNo(0), 1, second)],
        &[(ZoneNo(1), front)],
    )
}

/// Asserts what one choice gives, where the row has it, and that it is refused elsewhere.
fn expect(
    rt: &(impl Abort + AllocGlobal),
    disk: &MemDisk,
    row: &Row,
    first: usize,
    front: usize,
) -> Result<(), Fail> {
    let choice = choose(rt, first as u64, 0, front as u64)?;
    let image = image(rt, disk, row.stop, &choice)?;
    let [firsts, seconds] = row.values;
    match (
        firsts.get(first),
        seconds.first(),
        row.zones.get(front),
        image,
    ) {
        (Some(first), Some(second), Some((full, pointer)), Some(image)) => {
            assert_eq!(rt; image.sectors, [*first, *second], "at {0}", row.stop);
            assert_eq!(rt; image.pointer, *pointer, "at {0}", row.stop);
            assert_eq!(rt; image.held[0], *full, "at {0}", row.stop);
        }
        (_, _, _, image) => assert!(rt; image.is_none(), "at {0}", row.stop),
    }
    Ok(())
}

#[test]
fn each_choice_gives_the_image_that_was_listed_by_hand(rt: HostRuntime) -> Result<(), Fail> {
    let disk = small_disk(&rt, &CALLS)?;
    for row in &ROWS {
        for first in 0..3 {
            for front in 0..5 {
                expect(&rt, &disk, row, first, front)?;
            }
        }
    }
    let none = choices(&rt, false, &[], &[])?;
    assert!(rt;
        matches!(
            disk.stop_image(rt.alloc(), 8, &none),
            Err(StopFault::NoStop)
        )
    );
    Ok(())
}

#[test]
fn what_is_not_named_is_flushed_or_newest(rt: HostRuntime) -> Result<(), Fail> {
    let disk = small_disk(&rt, &CALLS)?;
    for row in &ROWS {
        let newest = image(&rt, &disk, row.stop, &choices(&rt, true, &[], &[])?)?;
        let newest = newest.ok_or("newest")?;
        assert_eq!(rt;
            (newest.sectors, newest.pointer),
            row.newest,
            "at {0}",
            row.stop
        );
        let flushed = image(&rt, &disk, row.stop, &choices(&rt, false, &[], &[])?)?;
        assert_eq!(rt;
            flushed,
            image(&rt, &disk, row.stop, &choose(&rt, 0, 0, 0)?)?
        );
    }
    Ok(())
}

/// All images that choices give.
fn chosen(rt: &(impl Abort + AllocGlobal), disk: &MemDisk, stop: u64) -> Result<Vec<Small>, Fail> {
    let mut images = Vec::new(rt.alloc());
    for front in 0..8 {
        for first in 0..5 {
            for second in 0..5 {
                let choice = choose(rt, first, second, front)?;
                if let Some(image) = image(rt, disk, stop, &choice)? {
                    images.push(image)?;
                }
            }
        }
    }
    Ok(images)
}

/// Asserts that choices give the images of the list, each as often as it stands there.
fn compare(rt: &(impl Abort + AllocGlobal), calls: &[Call], stop: u8) -> Result<(), Fail> {
    let disk = small_disk(rt, calls)?;
    let chosen = chosen(rt, &disk, u64::from(stop))?;
    let listed = left(rt.alloc(), calls, usize::from(stop))?;
    assert_eq!(rt; chosen, listed, "{calls:?} at {stop}");
    Ok(())
}

const EACH: [Call; 8] = [
    Call::Write(1),
    Call::FailedWrite(2),
    Call::Append(3),
    Call::FailedAppend(4),
    Call::Reset,
    Call::FailedReset,
    Call::Flush,
    Call::FailedFlush,
];

#[test]
fn choices_give_what_the_definition_lists(rt: HostRuntime) -> Result<(), Fail> {
    for first in EACH {
        for second in EACH {
            compare(&rt, &[first, second], 1)?;
            compare(&rt, &[first, second], 2)?;
            compare(&rt, &[Call::Append(5), first, second, Call::Write(6)], 3)?;
        }
    }
    Ok(())
}
