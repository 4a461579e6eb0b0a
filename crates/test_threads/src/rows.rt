//! What runs at gates report.

use crate::gates::{BesideAJob, InTurns, Readers};
use std::alloc::AllocError;
use std::process::Abort;
use std::sync::Wait;
use std::test::Fail;
use std::thread::Threads;
use test_volumes::texts::{lines, sink, source, words};
use test_volumes::volumes::fresh;
use zd_base::Status;
use zd_memdisk::MemDisk;
use zd_ports::{FreeGate, Gate, MemSink};
use zd_replay::{replay, replay_alone};

/// A fresh volume after a script that one thread ran.
fn after(rt: &impl AllocGlobal, script: &str) -> Result<MemDisk, Fail> {
    let mut source = source(rt.alloc(), script, 4096, &[])?;
    let mut sink = sink(rt.alloc(), &[])?;
    let words = words(rt.alloc(), &["img", "s"])?;
    let disk = fresh(rt.alloc())?;
    let (_, disk) = replay_alone(rt.alloc(), &words, disk, &mut source, &mut sink);
    Ok(disk)
}

/// Runs a script by so many actors at a gate.
fn run<G: Gate + Sync, R: Threads + Wait + Sync + AllocGlobal>(
    rt: &R,
    disk: MemDisk,
    actors: &str,
    script: &str,
    gate: &G,
) -> Result<(Status, MemSink), AllocError> {
    let mut source = source(rt.alloc(), script, 4096, &[])?;
    let mut sink = sink(rt.alloc(), &[])?;
    let words = words(rt.alloc(), &["--actors", actors, "img", "s"])?;
    let (status, _) = replay(rt, rt.alloc(), &words, disk, &mut source, &mut sink, gate);
    Ok((status, sink))
}

/// Whether a text is these lines in any order, and a last one.
fn has_lines(text: &[u8], all: &[&str], last: &str) -> bool {
    let mut length = last.len().saturating_add(1);
    for line in all {
        length = length.saturating_add(line.len()).saturating_add(1);
        if !text
            .split(|byte| *byte == b'\n')
            .any(|it| it == line.as_bytes())
        {
            return false;
        }
    }
    text.len() == length
        && text
            .strip_suffix(b"\n")
            .is_some_and(|it| it.ends_with(last.as_bytes()))
}

#[test]
fn two_actors_read_at_the_same_time(rt: HostRuntime) -> Result<(), Fail> {
    let gate = Readers::new(2, false);
    let disk = after(&rt, "w 0 0 1 1;w 0 16 1 1;f 0;")?;
    let (status, sink) = run(&rt, disk, "2", "r 0 0 2;r 1 16 2;", &gate)?;
    let both = [
        "0 1 0 r 0 2 data p1x8,z8 @0",
        "1 2 0 r 16 2 data p1x8,z8 @0",
    ];
    assert!(rt; gate.passes.went_well([2, 2, 0, 0]));
    assert!(rt; status == Status(0) && has_lines(sink.held(), &both, "end 0 ok"));
    Ok(())
}

#[test]
fn a_read_and_a_commit_go_on_beside_each_other(rt: HostRuntime) -> Result<(), Fail> {
    let gate = InTurns::new();
    let disk = after(&rt, "w 0 0 1 1;f 0;")?;
    let (status, sink) = run(&rt, disk, "2", "w 0 16 1 2;f 0;r 1 0 2;", &gate)?;
    let output = lines(
        rt.alloc(),
        "0 1 0 w 16 1 2 done @1;1 3 0 r 0 2 data p1x8,z8 @4;0 2 0 f done @11;end 0 ok;",
    )?;
    assert!(rt; gate.passes.went_well([0, 2, 3, 0]));
    assert_eq!(rt; sink.held(), output.as_slice());
    assert_eq!(rt; status, Status(0));
    Ok(())
}

#[test]
fn a_job_is_done_while_a_reader_is_held(rt: HostRuntime) -> Result<(), Fail> {
    let gate = BesideAJob::new();
    let script = "w 0 0 1 1;w 0 16 1 2;w 0 32 1 3;w 0 48 1 4;r 0 0 2;";
    let (status, sink) = run(&rt, fresh(rt.alloc())?, "3", script, &gate)?;
    let output = lines(
        rt.alloc(),
        "0 1 0 w 0 1 1 done @1;0 2 0 w 16 1 2 done @2;0 3 0 w 32 1 3 done @3;0 4 0 w 48 1 4 done @4;\
         0 5 0 r 0 2 data p1x8,z8 @5;end 0 ok;",
    )?;
    assert!(rt; gate.passes.went_well([1, 1, 0, 1]));
    assert_eq!(rt; sink.held(), output.as_slice());
    assert_eq!(rt; status, Status(0));
    Ok(())
}

#[test]
fn four_actors_read_at_the_same_time(rt: HostRuntime) -> Result<(), Fail> {
    let gate = Readers::new(4, true);
    let script = "r 0 0 1;r 1 16 1;r 2 32 1;r 3 48 1;";
    let (status, sink) = run(&rt, fresh(rt.alloc())?, "4", script, &gate)?;
    let all = [
        "0 1 0 r 0 1 data z8 @0",
        "1 2 0 r 16 1 data z8 @0",
        "2 3 0 r 32 1 data z8 @0",
        "3 4 0 r 48 1 data z8 @0",
    ];
    assert!(rt; gate.passes.went_well([4, 4, 0, 0]));
    assert!(rt; status == Status(0) && has_lines(sink.held(), &all, "end 0 ok"));
    Ok(())
}

/// Words that are no command, and the number of actors where none is said.
#[test]
fn words_ask_for_actors(rt: HostRuntime) -> Result<(), Fail> {
    for actors in ["0", "65", "01", "", "4x", "-1"] {
        let (status, sink) = run(&rt, fresh(rt.alloc())?, actors, "", &FreeGate)?;
        assert_eq!(rt; sink.held(), b"end 1 usage\n".as_slice(), "{actors}");
        assert_eq!(rt; status, Status(1), "{actors}");
    }
    for actors in ["1", "4", "64"] {
        let (status, sink) = run(&rt, fresh(rt.alloc())?, actors, "", &FreeGate)?;
        assert_eq!(rt; sink.held(), b"end 0 ok\n".as_slice(), "{actors}");
        assert_eq!(rt; status, Status(0), "{actors}");
    }
    Ok(())
}
