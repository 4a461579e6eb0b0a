//! Runs over disks in image files.

use crate::reads::{SIX_READS, SIX_REPORTED};
use crate::run::{expect, run};
use std::fs;
use std::fs::File;
use std::rt::Files;
use std::test::Fail;
use test_volumes::files::{HEADER, fresh_file};
use test_volumes::texts::lines;
use zd_base::Status;
use zd_disk::FileDisk;
use zd_ports::{StdSink, StdSource};

/// Disk, script and report are files, as those of a command are.
#[test]
fn a_fresh_volume_in_a_file_reads_as_zeros(rt: HostRuntime) -> Result<(), Fail> {
    let image = fresh_file(rt.alloc())?;
    let script = lines(rt.alloc(), SIX_READS)?;
    fs::write(&rt, "fresh.img", image.as_slice())?;
    fs::write(&rt, "fresh.script", script.as_slice())?;
    let disk = FileDisk::at(&rt, "fresh.img");
    let mut source = StdSource::new(fs::open(&rt, "fresh.script")?);
    let mut sink = StdSink::new(fs::create(&rt, "fresh.report")?);
    let words = ["fresh.img", "fresh.script"];
    let (ended, _) = run(rt.alloc(), &words, disk, &mut source, &mut sink)?;
    assert_eq!(rt; ended, Status(0));
    assert!(rt; fs::read(&rt, "fresh.report")? == lines(rt.alloc(), SIX_REPORTED)?);
    assert!(rt; fs::read(&rt, "fresh.img")? == image);
    for path in ["fresh.img", "fresh.script", "fresh.report"] {
        rt.remove_file(path)?;
    }
    Ok(())
}

#[test]
fn a_file_of_the_header_alone_is_no_volume(rt: HostRuntime) -> Result<(), Fail> {
    fs::write(&rt, "blank.img", HEADER.as_slice())?;
    let disk = FileDisk::at(&rt, "blank.img");
    expect(&rt, disk, "", "end 3 volume no-super-block;", 3)?;
    rt.remove_file("blank.img")?;
    Ok(())
}

#[test]
fn a_file_that_is_missing_is_a_device_that_fails(rt: HostRuntime) -> Result<(), Fail> {
    let missing = FileDisk::at(&rt, "missing.img");
    expect(&rt, missing, "r 0 0 1;", "end 4 device;", 4)?;
    expect(
        &rt,
        FileDisk::<File>::none(),
        "r 0 0 1;",
        "end 4 device;",
        4,
    )?;
    Ok(())
}
