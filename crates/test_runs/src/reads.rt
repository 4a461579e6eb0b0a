//! Reads of a volume that nobody wrote.

use crate::run::run;
use std::process::Abort;
use std::test::Fail;
use test_volumes::texts::{sink, source};
use test_volumes::volumes::fresh;
use zd_base::Status;
use zd_ports::MemSink;

/// Reads inside the device, across chunks, and past its end.
pub const SIX_READS: &str =
    "r 0 0 1;r 0 0 128;r 0 127 1;r 0 127 2;r 0 14 4;r 0 18446744073709551615 1;";

/// What they print.
pub const SIX_REPORTED: &str = "0 1 0 r 0 1 data z8 @0;\
    0 2 0 r 0 16 data z128 @0;\
    0 2 1 r 16 16 data z128 @0;\
    0 2 2 r 32 16 data z128 @0;\
    0 2 3 r 48 16 data z128 @0;\
    0 2 4 r 64 16 data z128 @0;\
    0 2 5 r 80 16 data z128 @0;\
    0 2 6 r 96 16 data z128 @0;\
    0 2 7 r 112 16 data z128 @0;\
    0 3 0 r 127 1 data z8 @0;\
    0 4 0 r 127 2 range @0;\
    0 5 0 r 14 2 data z16 @0;\
    0 5 1 r 16 2 data z16 @0;\
    0 6 0 r 18446744073709551615 1 range @0;\
    end 0 ok;";

/// Runs a script of 256 reads of the whole device, and some more lines.
fn run_long(rt: &(impl Abort + AllocGlobal), more: &str) -> Result<(Status, MemSink), Fail> {
    let mut script = "r 0 0 128;".repeat(rt.alloc(), 256)?;
    script.push_str(more)?;
    let mut source = source(rt.alloc(), &script, 1000, &[])?;
    let mut sink = sink(rt.alloc(), &[])?;
    let (ended, _) = run(
        rt.alloc(),
        &["img", "s"],
        fresh(rt.alloc())?,
        &mut source,
        &mut sink,
    )?;
    Ok((ended, sink))
}

#[test]
fn as_many_blocks_are_read_as_a_script_may_have(rt: HostRuntime) -> Result<(), Fail> {
    let (ended, sink) = run_long(&rt, "")?;
    assert_eq!(rt; ended, Status(0));
    assert_eq!(rt;
        sink.held().iter().filter(|byte| **byte == b'\n').count(),
        2049
    );
    let end = b"0 256 7 r 112 16 data z128 @0\nend 0 ok\n".as_slice();
    assert!(rt; sink.held().ends_with(end));
    let (ended, sink) = run_long(&rt, "r 0 0 1;")?;
    assert_eq!(rt; ended, Status(2));
    assert_eq!(rt; sink.held(), b"end 2 script 257 long\n".as_slice());
    Ok(())
}
