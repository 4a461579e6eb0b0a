//! Summaries of each kind of entry, with each ending.

use crate::{summary, summary_output};
use std::test::Fail;
use zd_base::{Memory, Why};
use zd_model::{Ending, Entry, Outcome, Reply, What};
use zd_plain::History;

/// Appends the entry of a request.
fn add(history: &mut History, request: u32, what: What, reply: Reply) -> Result<(), Memory> {
    history.push(Entry {
        caller: 0,
        request,
        piece: 0,
        what,
        reply,
        at: 0,
    })
}

fn write(block: u64, count: u32, seed: u32) -> What {
    What::Write { block, count, seed }
}

#[test]
fn sums_up_three_requests(rt: HostRuntime) -> Result<(), Fail> {
    let mut history = History::new(rt.alloc());
    add(&mut history, 1, write(117, 4, 1), Reply::Done)?;
    add(&mut history, 2, write(1, 6, 2), Reply::Done)?;
    let discard = What::Discard {
        block: 76,
        count: 3,
    };
    add(&mut history, 3, discard, Reply::Done)?;
    let wanted = "made 3\nread 0\nwrite 2\ndiscard 1\nflush 0\nfault 0\nend 0 ok\n";
    assert_eq!(rt;
        summary(rt.alloc(), &history, 3, &Ending::Ok)?.as_slice(),
        wanted.as_bytes()
    );
    Ok(())
}

#[test]
fn counts_each_operation_with_any_reply(rt: HostRuntime) -> Result<(), Fail> {
    let mut history = History::new(rt.alloc());
    let read = What::Read { block: 0, count: 1 };
    let read_sectors = What::ReadSectors {
        sector: 9,
        count: 1,
    };
    let write_sectors = What::WriteSectors {
        sector: 9,
        count: 1,
        seed: 3,
    };
    add(&mut history, 1, read, Reply::Fault)?;
    add(&mut history, 2, read_sectors, Reply::Range)?;
    add(&mut history, 3, read, Reply::Fault)?;
    add(&mut history, 4, write_sectors, Reply::Done)?;
    add(&mut history, 5, What::Flush, Reply::Done)?;
    add(&mut history, 6, What::Flush, Reply::Fault)?;
    let wanted = "made 4096\nread 3\nwrite 1\ndiscard 0\nflush 2\nfault 3\nend 4 device\n";
    let ending = Ending::Stopped(Why::Device);
    assert_eq!(rt;
        summary(rt.alloc(), &history, 4096, &ending)?.as_slice(),
        wanted.as_bytes()
    );
    Ok(())
}

#[test]
fn sums_up_no_entries(rt: HostRuntime) -> Result<(), Fail> {
    let history = History::new(rt.alloc());
    let wanted = "made 7\nread 0\nwrite 0\ndiscard 0\nflush 0\nfault 0\nend 11 not-built\n";
    assert_eq!(rt;
        summary_output(rt.alloc(), &history, 7, &Outcome::NotBuilt)?.as_slice(),
        wanted.as_bytes()
    );
    Ok(())
}
