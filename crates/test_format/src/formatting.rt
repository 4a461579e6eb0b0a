//! Disks that are formatted by words, in memory and in files.

use std::fs;
use std::process::Abort;
use std::rt::Files;
use std::test::Fail;
use test_volumes::files::{HEADER, fresh_file};
use test_volumes::texts::{lines, sink, words};
use zd_admin::{admin, paths};
use zd_base::{Geometry, Status, ZoneNo};
use zd_disk::{Failed, FileDisk, ZonedDisk};
use zd_memdisk::{DeviceCall, Fail as Failing, MemDisk};
use zd_ports::Paths;

/// The identifier of the volumes.
const ID: &str = "00000000-0000-4000-8000-000000000001";

/// The first 48 bytes of the super block of the first set, as an independent program made them.
const FIRST_HEAD: [u8; 48] = [
    0x44, 0x42, 0x5a, 0x44, 2, 0, 0, 0, 1, 0, 0, 0, 0, 0, 0, 0, 0, 0, 0, 0, 0, 0, 0, 0, 14, 0, 0,
    0, 2, 0, 0, 0, 8, 0, 0, 0, 1, 0, 0, 0, 12, 0, 0, 0, 0x2c, 0xae, 0x2e, 0xf3,
];

/// The crc of the super block of the second set.
const SECOND_CRC: [u8; 4] = [0x4a, 0x0e, 0xf8, 0x4d];

/// The first 20 bytes of an image file: its zones are 4 conventional and 4 sequential ones of
/// 65,536 blocks.
const LARGE_HEADER: [u8; 20] = [
    b'Z', b'D', b'I', b'M', b'A', b'G', b'E', b'1', 0, 0, 1, 0, 4, 0, 0, 0, 4, 0, 0, 0,
];

/// A blank disk of 6 conventional and 6 sequential zones of 16 blocks.
fn blank(rt: &impl AllocGlobal) -> Result<MemDisk, Fail> {
    Ok(MemDisk::blank(rt.alloc(), Geometry::new(16, 6, 6)?)?)
}

/// A blank disk of which one call fails.
fn failing(
    rt: &impl AllocGlobal,
    call: DeviceCall,
    zone: Option<ZoneNo>,
    nth: u64,
) -> Result<MemDisk, Fail> {
    let mut disk = blank(rt)?;
    disk.fail_at(vec![in rt.alloc(); Failing { call, zone, nth }]?);
    Ok(disk)
}

/// Asserts what a run with these words over a disk prints and how it ends. It hands the disk back.
fn expect_admin<D: ZonedDisk>(
    rt: &(impl Abort + AllocGlobal),
    disk: D,
    list: &[&str],
    output: &str,
    status: u8,
) -> Result<D, Fail> {
    let words = words(rt.alloc(), list)?;
    let mut sink = sink(rt.alloc(), &[])?;
    let (ended, disk) = admin(rt.alloc(), &words, disk, &mut sink);
    let output = lines(rt.alloc(), output)?;
    assert_eq!(rt; sink.held(), output.as_slice(), "{list:?}");
    assert_eq!(rt; ended, Status(status), "{list:?}");
    Ok(disk)
}

/// Asserts it of words that ask for so many reserved zones.
fn expect_format<D: ZonedDisk>(
    rt: &(impl Abort + AllocGlobal),
    disk: D,
    reserved: &str,
    output: &str,
    status: u8,
) -> Result<D, Fail> {
    let list = ["--format", "--seq", reserved, "--uuid", ID, "img"];
    expect_admin(rt, disk, &list, output, status)
}

fn asked<D: ZonedDisk>(disk: &mut D) -> Result<(), Failed> {
    let _geometry = disk.geometry()?;
    Ok(())
}

/// The disk fails at its first call, which comes only after the run.
fn refuse_words(rt: &(impl Abort + AllocGlobal), list: &[&str]) -> Result<(), Fail> {
    let disk = failing(rt, DeviceCall::Geometry, None, 1)?;
    let mut disk = expect_admin(rt, disk, list, "end 1 usage;", 1)?;
    assert_eq!(rt; asked(&mut disk), Err(Failed), "{list:?}");
    let words = words(rt.alloc(), list)?;
    assert!(rt; paths(&words)? == Paths::default(), "{list:?}");
    Ok(())
}

#[test]
fn other_words_name_no_image(rt: HostRuntime) -> Result<(), Fail> {
    refuse_words(&rt, &[])?;
    refuse_words(&rt, &["--format", "--seq", "2", "--uuid", ID, "-img"])?;
    refuse_words(&rt, &["--format", "--seq", "2 ", "--uuid", ID, "img"])?;
    Ok(())
}

#[test]
fn a_command_names_its_image(rt: HostRuntime) -> Result<(), Fail> {
    for image in ["img", "-", ""] {
        let list = ["--format", "--seq", "0", "--uuid", ID, image];
        let words = words(rt.alloc(), &list)?;
        let paths = paths(&words)?;
        assert_eq!(rt; paths.image, Some(image));
        assert!(rt; paths.script.is_none() && paths.front.is_none());
    }
    Ok(())
}

/// The file is that of the volume that is written block by block.
#[test]
fn a_file_of_the_header_alone_is_formatted(rt: HostRuntime) -> Result<(), Fail> {
    fs::write(&rt, "blank.img", HEADER.as_slice())?;
    let disk = FileDisk::at(&rt, "blank.img");
    expect_format(
        &rt,
        disk,
        "2",
        "formatted 8 chunks of 16 blocks;end 0 ok;",
        0,
    )?;
    let file = fs::read(&rt, "blank.img")?;
    rt.remove_file("blank.img")?;
    assert!(rt; file == fresh_file(rt.alloc())?);
    assert!(rt; file.get(8192..8240) == Some(FIRST_HEAD.as_slice()));
    assert!(rt; file.get(73_772..73_776) == Some(SECOND_CRC.as_slice()));
    Ok(())
}

#[test]
fn zones_with_two_bitmap_blocks_are_formatted(rt: HostRuntime) -> Result<(), Fail> {
    fs::write(&rt, "large.img", LARGE_HEADER.as_slice())?;
    let disk = FileDisk::at(&rt, "large.img");
    let output = "formatted 4 chunks of 65536 blocks;end 0 ok;";
    expect_format(&rt, disk, "2", output, 0)?;
    rt.remove_file("large.img")?;
    Ok(())
}
