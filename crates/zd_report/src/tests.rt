//! Worked examples, a sample report that another implementation made, and each call with ample
//! memory.

ghost use Rattle.std.specs.Prelude.{◌≡◌, IfOk};
ghost use Rattle.std.specs.List.{AllByRecursion};
ghost use Rattle.zd_model.specs.Entries.{answer_of, shown_entry};
ghost use Rattle.zd_model.specs.Report.{HasReply, IsReported};

use crate::{ending_line, fixed_line, output_text, text};
use std::alloc::{AllocError, Global};
use std::test::Fail;
use zd_base::{BLOCK, ChunkNo, Memory, SECTOR, Why, ZoneNo};
use zd_model::{BadLine, Bytes, Ending, Entry, NoVolume, Outcome, Reply, What};
use zd_plain::{History, pattern};

/// What a sector holds.
#[derive(Clone, Copy)]
enum Fill {
    Zeros,
    Seed(u32),
    /// The pattern of seed 1, but for one byte.
    Odd,
}

/// Sector 26 of the sample, which has no pattern.
const ODD: &str = "80060000015a0000810600000100000082060000010000008306000001000000\
     8406000001000000850600000100000086060000010000008706000001000000\
     880600000100000089060000010000008a060000010000008b06000001000000\
     8c060000010000008d060000010000008e060000010000008f06000001000000\
     9006000001000000910600000100000092060000010000009306000001000000\
     9406000001000000950600000100000096060000010000009706000001000000\
     980600000100000099060000010000009a060000010000009b06000001000000\
     9c060000010000009d060000010000009e060000010000009f06000001000000\
     a006000001000000a106000001000000a206000001000000a306000001000000\
     a406000001000000a506000001000000a606000001000000a706000001000000\
     a806000001000000a906000001000000aa06000001000000ab06000001000000\
     ac06000001000000ad06000001000000ae06000001000000af06000001000000\
     b006000001000000b106000001000000b206000001000000b306000001000000\
     b406000001000000b506000001000000b606000001000000b706000001000000\
     b806000001000000b906000001000000ba06000001000000bb06000001000000\
     bc06000001000000bd06000001000000be06000001000000bf06000001000000";

/// What stands after it in the second line of the sample, and the other lines.
const LATER: &str = ",p1x5,z96 @0\n\
    0 3 0 r 14 2 data z16 @0\n\
    0 3 1 r 16 2 data p7x16 @0\n\
    0 4 0 r 16 16 data p7x128 @0\n\
    0 5 0 r 30 2 data p7x16 @0\n\
    0 5 1 r 32 16 data z64,p0x8,z48,p4294967295x8 @0\n\
    0 5 2 r 48 2 data p4294967295x8,z8 @0\n\
    0 6 0 r 40 1 data p0x8 @0\n\
    0 7 0 r 47 1 data p4294967295x8 @0\n\
    0 7 1 r 48 1 data p4294967295x8 @0\n\
    0 8 0 r 126 2 data z16 @0\n\
    0 9 0 r 127 2 range @0\n\
    end 0 ok\n";

fn sector_of(fill: Fill, number: u64) -> [u8; SECTOR] {
    let mut sector = [0; SECTOR];
    match fill {
        Fill::Zeros => {}
        Fill::Seed(seed) => pattern(seed, number, &mut sector),
        Fill::Odd => {
            pattern(1, number, &mut sector);
            sector[5] = 0x5a;
        }
    }
    sector
}

/// The bytes of rows of sectors, from a block on.
fn bytes_of(alloc: Global, block: u32, rows: &[(Fill, u64)]) -> Result<Vec<u8>, AllocError> {
    let mut bytes = Vec::new(alloc);
    let mut number = 8 * u64::from(block);
    for (fill, count) in rows {
        for _ in 0..*count {
            bytes.extend_from_slice(&sector_of(*fill, number))?;
            number = number.wrapping_add(1);
        }
    }
    Ok(bytes)
}

/// An entry of caller 0.
fn entry(request: u32, piece: u32, what: What, reply: Reply, at: u64) -> Entry
    requires { HasReply what (answer_of reply) }
    ensures { IsReported (shown_entry result) }
{
    Entry {
        caller: 0,
        request,
        piece,
        what,
        reply,
        at,
    }
}

/// The entry of a read that got these bytes, in whole blocks.
fn got(
    alloc: Global,
    numbers: (u32, u32),
    block: u32,
    bytes: &[u8],
    at: u64,
) -> Result<Entry, Memory>
    ensures { IfOk result (λ e. IsReported (shown_entry e)) }
{
    let Ok(count) = u32::try_from(bytes.len() / BLOCK) else {
        return Err(Memory);
    };
    if bytes.len() != BLOCK * count as usize {
        return Err(Memory);
    }
    let Ok(copy) = Vec::from_slice(alloc, bytes) else {
        return Err(Memory);
    };
    let what = What::Read {
        block: u64::from(block),
        count,
    };
    let reply = Reply::Got(Bytes::from(copy));
    Ok(entry(numbers.0, numbers.1, what, reply, at))
}

/// The entry of a request of sectors that got these bytes, in whole sectors.
fn got_sectors(
    alloc: Global,
    request: u32,
    sector: u64,
    bytes: &[u8],
    at: u64,
) -> Result<Entry, Memory>
    ensures { IfOk result (λ e. IsReported (shown_entry e)) }
{
    let Ok(count) = u32::try_from(bytes.len() / SECTOR) else {
        return Err(Memory);
    };
    if bytes.len() != SECTOR * count as usize {
        return Err(Memory);
    }
    let Ok(copy) = Vec::from_slice(alloc, bytes) else {
        return Err(Memory);
    };
    let what = What::ReadSectors { sector, count };
    let reply = Reply::Got(Bytes::from(copy));
    Ok(entry(request, 0, what, reply, at))
}

/// The entry of a read that got rows of sectors.
fn read(
    alloc: Global,
    numbers: (u32, u32),
    block: u32,
    rows: &[(Fill, u64)],
    at: u64,
) -> Result<Entry, Memory>
    ensures { IfOk result (λ e. IsReported (shown_entry e)) }
{
    let bytes = bytes_of(alloc, block, rows).map_err(|_| Memory)?;
    got(alloc, numbers, block, &bytes, at)
}

/// One entry more.
fn add(history: &mut History, item: Entry) -> Result<(), Memory>
    requires before { AllByRecursion IsReported history.old.items }
    requires item { IsReported (shown_entry item) }
    ensures { AllByRecursion IsReported history.new.items }
{
    history.push(item)
}

fn write(block: u64, count: u32, seed: u32) -> What
    ensures { result ≡ What.Write block count seed }
{
    What::Write { block, count, seed }
}

#[test]
fn tells_reads_of_an_empty_volume(rt: HostRuntime) -> Result<(), Fail> {
    let alloc = rt.alloc();
    let mut history = History::new(alloc);
    assert_eq!(rt;
        text(alloc, &history, &Ending::Ok)?.as_slice(),
        "end 0 ok\n".as_bytes()
    );
    add(
        &mut history,
        read(alloc, (1, 0), 0, &[(Fill::Zeros, 8)], 0)?,
    )?;
    let wanted = "0 1 0 r 0 1 data z8 @0\nend 0 ok\n";
    assert_eq!(rt;
        text(alloc, &history, &Ending::Ok)?.as_slice(),
        wanted.as_bytes()
    );
    Ok(())
}

#[test]
fn tells_a_read_past_the_device(rt: HostRuntime) -> Result<(), Fail> {
    let alloc = rt.alloc();
    let mut history = History::new(alloc);
    let past = What::Read {
        block: 127,
        count: 2,
    };
    add(&mut history, entry(1, 0, write(127, 1, 7), Reply::Done, 1))?;
    add(
        &mut history,
        read(alloc, (2, 0), 127, &[(Fill::Seed(7), 8)], 1)?,
    )?;
    add(&mut history, entry(3, 0, past, Reply::Range, 1))?;
    let wanted = "0 1 0 w 127 1 7 done @1\n0 2 0 r 127 1 data p7x8 @1\n0 3 0 r 127 2 range @1\n\
        end 0 ok\n";
    assert_eq!(rt;
        text(alloc, &history, &Ending::Ok)?.as_slice(),
        wanted.as_bytes()
    );
    Ok(())
}

#[test]
fn tells_the_pieces_of_two_chunks(rt: HostRuntime) -> Result<(), Fail> {
    let alloc = rt.alloc();
    let mut history = History::new(alloc);
    add(&mut history, entry(1, 0, write(14, 2, 3), Reply::Done, 1))?;
    add(&mut history, entry(1, 1, write(16, 2, 3), Reply::Done, 2))?;
    add(
        &mut history,
        read(alloc, (2, 0), 14, &[(Fill::Seed(3), 16)], 2)?,
    )?;
    add(
        &mut history,
        read(alloc, (2, 1), 16, &[(Fill::Seed(3), 16)], 2)?,
    )?;
    let wanted = "0 1 0 w 14 2 3 done @1\n0 1 1 w 16 2 3 done @2\n\
        0 2 0 r 14 2 data p3x16 @2\n0 2 1 r 16 2 data p3x16 @2\nend 0 ok\n";
    assert_eq!(rt;
        text(alloc, &history, &Ending::Ok)?.as_slice(),
        wanted.as_bytes()
    );
    Ok(())
}

#[test]
fn tells_zeros_between_patterns(rt: HostRuntime) -> Result<(), Fail> {
    let alloc = rt.alloc();
    let mut history = History::new(alloc);
    let rows = [(Fill::Seed(1), 8), (Fill::Zeros, 16), (Fill::Seed(1), 8)];
    add(&mut history, entry(1, 0, write(0, 4, 1), Reply::Done, 1))?;
    let discard = What::Discard { block: 1, count: 2 };
    add(&mut history, entry(2, 0, discard, Reply::Done, 1))?;
    add(&mut history, read(alloc, (3, 0), 0, &rows, 1)?)?;
    let wanted = "0 1 0 w 0 4 1 done @1\n0 2 0 d 1 2 done @1\n\
        0 3 0 r 0 4 data p1x8,z16,p1x8 @1\nend 0 ok\n";
    assert_eq!(rt;
        text(alloc, &history, &Ending::Ok)?.as_slice(),
        wanted.as_bytes()
    );
    Ok(())
}

#[test]
fn tells_faults(rt: HostRuntime) -> Result<(), Fail> {
    let alloc = rt.alloc();
    let mut history = History::new(alloc);
    let ending = Ending::Stopped(Why::Device);
    add(&mut history, entry(1, 0, write(0, 1, 1), Reply::Fault, 1))?;
    let wanted = "0 1 0 w 0 1 1 fault @1\nend 4 device\n";
    assert_eq!(rt;
        text(alloc, &history, &ending)?.as_slice(),
        wanted.as_bytes()
    );

    let mut history = History::new(alloc);
    let one = What::Read { block: 0, count: 1 };
    add(&mut history, entry(1, 0, write(0, 1, 1), Reply::Done, 1))?;
    add(&mut history, entry(2, 0, one, Reply::Fault, 1))?;
    add(
        &mut history,
        read(alloc, (3, 0), 0, &[(Fill::Seed(1), 8)], 1)?,
    )?;
    add(&mut history, entry(4, 0, What::Flush, Reply::Done, 20))?;
    let wanted = "0 1 0 w 0 1 1 done @1\n0 2 0 r 0 1 fault @1\n0 3 0 r 0 1 data p1x8 @1\n\
        0 4 0 f done @20\nend 0 ok\n";
    assert_eq!(rt;
        text(alloc, &history, &Ending::Ok)?.as_slice(),
        wanted.as_bytes()
    );
    Ok(())
}

#[test]
fn tells_sectors(rt: HostRuntime) -> Result<(), Fail> {
    let alloc = rt.alloc();
    let mut history = History::new(alloc);
    let mut bytes = Vec::new(alloc);
    for number in 3..5 {
        bytes.extend_from_slice(&sector_of(Fill::Seed(5), number))?;
    }
    let write = What::WriteSectors {
        sector: 3,
        count: 2,
        seed: 5,
    };
    let past = What::ReadSectors {
        sector: u64::MAX,
        count: 2,
    };
    add(&mut history, entry(1, 0, write, Reply::Done, 1))?;
    add(&mut history, got_sectors(alloc, 2, 3, &bytes, 1)?)?;
    let second = sector_of(Fill::Seed(5), 4);
    add(&mut history, got_sectors(alloc, 3, 4, &second, 1)?)?;
    add(&mut history, entry(4, 0, past, Reply::Range, 1))?;
    let wanted = "0 1 0 ws 3 2 5 done @1\n0 2 0 rs 3 2 data p5x2 @1\n\
        0 3 0 rs 4 1 data p5x1 @1\n0 4 0 rs 18446744073709551615 2 range @1\nend 0 ok\n";
    assert_eq!(rt;
        text(alloc, &history, &Ending::Ok)?.as_slice(),
        wanted.as_bytes()
    );
    Ok(())
}

/// The history of the sample's reads, from the fifth line on.
fn add_later_reads(alloc: Global, history: &mut History) -> Result<(), Memory>
    requires { AllByRecursion IsReported history.old.items }
    ensures { AllByRecursion IsReported history.new.items }
{
    let last = Fill::Seed(u32::MAX);
    add(
        history,
        read(alloc, (4, 0), 16, &[(Fill::Seed(7), 128)], 0)?,
    )?;
    add(history, read(alloc, (5, 0), 30, &[(Fill::Seed(7), 16)], 0)?)?;
    let rows = [
        (Fill::Zeros, 64),
        (Fill::Seed(0), 8),
        (Fill::Zeros, 48),
        (last, 8),
    ];
    add(history, read(alloc, (5, 1), 32, &rows, 0)?)?;
    add(
        history,
        read(alloc, (5, 2), 48, &[(last, 8), (Fill::Zeros, 8)], 0)?,
    )?;
    add(history, read(alloc, (6, 0), 40, &[(Fill::Seed(0), 8)], 0)?)?;
    add(history, read(alloc, (7, 0), 47, &[(last, 8)], 0)?)?;
    add(history, read(alloc, (7, 1), 48, &[(last, 8)], 0)?)?;
    add(history, read(alloc, (8, 0), 126, &[(Fill::Zeros, 16)], 0)?)?;
    let past = What::Read {
        block: 127,
        count: 2,
    };
    add(history, entry(9, 0, past, Reply::Range, 0))
}

/// The history of the sample's reads.
fn sample(alloc: Global) -> Result<History, Memory>
    ensures { IfOk result (λ history. AllByRecursion IsReported history.items) }
{
    let mut history = History::new(alloc);
    let row = Fill::Seed(1);
    let rows = [
        (row, 8),
        (Fill::Zeros, 16),
        (row, 2),
        (Fill::Odd, 1),
        (row, 5),
        (Fill::Zeros, 96),
    ];
    add(&mut history, read(alloc, (1, 0), 0, &rows[..5], 0)?)?;
    add(&mut history, read(alloc, (2, 0), 0, &rows, 0)?)?;
    add(
        &mut history,
        read(alloc, (3, 0), 14, &[(Fill::Zeros, 16)], 0)?,
    )?;
    add(
        &mut history,
        read(alloc, (3, 1), 16, &[(Fill::Seed(7), 16)], 0)?,
    )?;
    add_later_reads(alloc, &mut history)?;
    Ok(history)
}

#[test]
fn tells_the_reads_of_a_sample(rt: HostRuntime) -> Result<(), Fail> {
    let alloc = rt.alloc();
    let history = sample(alloc)?;
    let mut wanted = String::new(alloc);
    wanted.push_str("0 1 0 r 0 4 data p1x8,z16,p1x2,h")?;
    wanted.push_str(ODD)?;
    wanted.push_str(",p1x5 @0\n0 2 0 r 0 16 data p1x8,z16,p1x2,h")?;
    wanted.push_str(ODD)?;
    wanted.push_str(LATER)?;
    assert_eq!(rt;
        text(alloc, &history, &Ending::Ok)?.as_slice(),
        wanted.as_bytes()
    );
    Ok(())
}

#[test]
fn tells_each_end(rt: HostRuntime) -> Result<(), Fail> {
    for (outcome, wanted) in [
        (Outcome::Ended(Ending::Ok), "end 0 ok\n"),
        (Outcome::Usage, "end 1 usage\n"),
        (
            Outcome::NoVolume(NoVolume::NoSuperBlock),
            "end 3 volume no-super-block\n",
        ),
        (Outcome::NoVolume(NoVolume::Layout), "end 3 volume layout\n"),
        (
            Outcome::NoVolume(NoVolume::BadMap { chunk: ChunkNo(70) }),
            "end 3 volume map 70\n",
        ),
        (
            Outcome::NoVolume(NoVolume::BadBits {
                zone: ZoneNo(7),
                block: 15,
            }),
            "end 3 volume bits 7 15\n",
        ),
        (
            Outcome::Ended(Ending::Stopped(Why::Device)),
            "end 4 device\n",
        ),
        (Outcome::Source, "end 5 source\n"),
        (
            Outcome::Ended(Ending::Stopped(Why::Memory)),
            "end 7 memory\n",
        ),
        (
            Outcome::Ended(Ending::Stopped(Why::Generation)),
            "end 8 generation\n",
        ),
        (Outcome::NotBuilt, "end 11 not-built\n"),
        (
            Outcome::BadScript {
                line: 12,
                why: BadLine::Caller,
            },
            "end 2 script 12 caller\n",
        ),
        (
            Outcome::BadScript {
                line: 0,
                why: BadLine::TooLong,
            },
            "end 2 script 0 long\n",
        ),
    ] {
        let history = History::new(rt.alloc());
        assert_eq!(rt;
            output_text(rt.alloc(), &history, &outcome)?.as_slice(),
            wanted.as_bytes()
        );
    }
    assert_eq!(rt; ending_line(Ending::Ok), "end 0 ok\n");
    assert_eq!(rt; fixed_line(&Outcome::NotBuilt), "end 11 not-built\n");
    Ok(())
}
