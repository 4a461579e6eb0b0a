//! Worked examples, and each call with ample memory.

ghost use Rattle.std.specs.Prelude.{◌≡◌};

use crate::{
    Bytes, Entry, History, Piece, Plan, Reply, Request, What, at_sectors, ends_past, first_sector,
    pattern, pieces, sector_count,
};
use std::test::Fail;

fn read(block: u64, count: u32) -> What
    ensures { result ≡ What.Read block count }
{
    What::Read { block, count }
}

fn read_sectors(sector: u64, count: u32) -> What
    ensures { result ≡ What.ReadSectors sector count }
{
    What::ReadSectors { sector, count }
}

fn write_sectors(sector: u64, count: u32) -> What
    ensures { result ≡ What.WriteSectors sector count 4 }
{
    What::WriteSectors {
        sector,
        count,
        seed: 4,
    }
}

fn piece(request: u32, piece: u32, what: What, range: bool) -> Piece {
    Piece {
        caller: 0,
        request,
        piece,
        what,
        range,
    }
}

#[test]
fn cuts_at_the_bounds_of_chunks(rt: HostRuntime) -> Result<(), Fail> {
    let write = What::Write {
        block: 14,
        count: 4,
        seed: 3,
    };
    let requests = vec![in rt.alloc();
        Request {
            caller: 0,
            what: write
        },
        Request {
            caller: 0,
            what: read(14, 4)
        },
    ]?;
    let cut = pieces(rt.alloc(), &Plan::from(requests), 16, 128)?;
    let wanted = [
        piece(1, 0, at_sectors(write, 112, 16), false),
        piece(1, 1, at_sectors(write, 128, 16), false),
        piece(2, 0, read(14, 2), false),
        piece(2, 1, read(16, 2), false),
    ];
    assert_eq!(rt; cut.as_slice(), wanted.as_slice());
    Ok(())
}

#[test]
fn cuts_sectors_at_the_bounds_of_chunks(rt: HostRuntime) -> Result<(), Fail> {
    let requests = vec![in rt.alloc();
        Request {
            caller: 0,
            what: write_sectors(127, 2)
        },
        Request {
            caller: 0,
            what: write_sectors(120, 8)
        },
        Request {
            caller: 0,
            what: read_sectors(1023, 1)
        },
        Request {
            caller: 0,
            what: read_sectors(1023, 2)
        },
    ]?;
    let cut = pieces(rt.alloc(), &Plan::from(requests), 16, 128)?;
    let wanted = [
        piece(1, 0, write_sectors(127, 1), false),
        piece(1, 1, write_sectors(128, 1), false),
        piece(2, 0, write_sectors(120, 8), false),
        piece(3, 0, read_sectors(1023, 1), false),
        piece(4, 0, read_sectors(1023, 2), true),
    ];
    assert_eq!(rt; cut.as_slice(), wanted.as_slice());
    Ok(())
}

#[test]
fn keeps_whole_what_ends_past_the_device(rt: HostRuntime) -> Result<(), Fail> {
    let requests = vec![in rt.alloc();
        Request {
            caller: 0,
            what: read(127, 2)
        },
        Request {
            caller: 0,
            what: read(u64::MAX, 1)
        },
        Request {
            caller: 0,
            what: read_sectors(u64::MAX, u32::MAX)
        },
        Request {
            caller: 0,
            what: What::Flush
        },
    ]?;
    let cut = pieces(rt.alloc(), &Plan::from(requests), 16, 128)?;
    let wanted = [
        piece(1, 0, read(127, 2), true),
        piece(2, 0, read(u64::MAX, 1), true),
        piece(3, 0, read_sectors(u64::MAX, u32::MAX), true),
        piece(4, 0, What::Flush, false),
    ];
    assert_eq!(rt; cut.as_slice(), wanted.as_slice());
    Ok(())
}

#[test]
fn cuts_no_plan_into_nothing(rt: HostRuntime) -> Result<(), Fail> {
    let cut = pieces(rt.alloc(), &Plan::new(rt.alloc()), 8, 0)?;
    assert_eq!(rt; cut.len(), 0);
    Ok(())
}

#[test]
fn reads_what_a_request_asks_for(rt: HostRuntime) {
    let write = What::Write {
        block: 126,
        count: 2,
        seed: 9,
    };
    assert_eq!(rt; first_sector(write), 1008);
    assert_eq!(rt; sector_count(write), 16);
    assert!(rt; !ends_past(write, 128));
    assert!(rt; ends_past(write, 127));
    assert!(rt; ends_past(read(u64::MAX, 1), u64::MAX));
    assert!(rt; ends_past(read_sectors(u64::MAX, 1), 1 << 60));
    assert!(rt; !ends_past(What::Flush, 0));
}

#[test]
fn pieces_cover_blocks(rt: HostRuntime) {
    let covers = [
        (read(9, 3), (9, 3)),
        (read(u64::MAX, u32::MAX), (u64::MAX, u32::MAX)),
        (read_sectors(8, 8), (1, 1)),
        (read_sectors(7, 1), (0, 1)),
        (read_sectors(7, 2), (0, 2)),
        (write_sectors(7, 10), (0, 3)),
        (
            write_sectors(u64::MAX, u32::MAX),
            (u64::MAX / 8, 536_870_913),
        ),
        (What::Flush, (0, 0)),
    ];
    for (what, cover) in covers {
        assert_eq!(rt; piece(1, 0, what, false).cover(), cover, "of {what:?}");
    }
}

#[test]
fn fills_a_sector_with_its_pattern(rt: HostRuntime) {
    let mut sector = [0; 512];
    pattern(3, 5, &mut sector);
    assert_eq!(rt; &sector[..8], [0x40, 1, 0, 0, 3, 0, 0, 0].as_slice());
    assert_eq!(rt; &sector[504..], [0x7f, 1, 0, 0, 3, 0, 0, 0].as_slice());
}

#[test]
fn plans_keep_their_requests(rt: HostRuntime) -> Result<(), Fail> {
    let flush = Request {
        caller: 63,
        what: What::Flush,
    };
    let mut plan = Plan::new(rt.alloc());
    assert!(rt; plan.is_empty());
    plan.push(flush)?;
    assert_eq!(rt; plan.len(), 1);
    assert_eq!(rt; *plan.get(0), flush);
    let requests: Vec<Request> = plan.into();
    assert_eq!(rt; requests.as_slice(), [flush].as_slice());
    Ok(())
}

#[test]
fn bytes_grow_and_are_written(rt: HostRuntime) -> Result<(), Fail> {
    let mut bytes = Bytes::with_room(rt.alloc(), 4)?;
    assert!(rt; bytes.is_empty());
    assert!(rt; 4 <= bytes.room());
    bytes.push(7)?;
    assert!(rt; 3 <= bytes.room());
    bytes.add_zeros(3);
    bytes.bytes_mut()[1..3].fill(5);
    assert_eq!(rt; bytes.len(), 4);
    assert_eq!(rt; *bytes.get(0), 7);
    assert_eq!(rt; bytes.bytes(), [7, 5, 5, 0].as_slice());
    let room = bytes.room();
    bytes.clear();
    assert!(rt; bytes.is_empty());
    assert_eq!(rt; bytes.room(), room + 4);
    bytes.push(9)?;
    let inner: Vec<u8> = bytes.into();
    assert_eq!(rt; Bytes::from(inner).len(), 1);
    Ok(())
}

#[test]
fn histories_keep_their_entries(rt: HostRuntime) -> Result<(), Fail> {
    let mut history = History::new(rt.alloc());
    assert!(rt; history.is_empty());
    history.reserve(2)?;
    assert!(rt; 2 <= history.room());
    history.push(Entry {
        caller: 1,
        request: 2,
        piece: 3,
        what: What::Flush,
        reply: Reply::Done,
        at: 4,
    })?;
    assert_eq!(rt; history.len(), 1);
    assert!(rt; 1 <= history.room());
    assert_eq!(rt; history.get(0).at, 4);
    let entries: Vec<Entry> = history.into();
    assert_eq!(rt; History::from(entries).len(), 1);
    Ok(())
}
