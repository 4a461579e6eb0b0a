//! Scripts that are read and parsed, and bytes that are refused.

use crate::{BadLine, Request, ScriptFault, What, make, parse, read_all};
use std::alloc::{AllocError, Global};
use std::test::Fail;
use zd_ports::{MemSource, Source};

const ONE_OF_EACH: &[u8] =
    b"r 0 18446744073709551615 1\nw 63 5 32763 4294967295\nd 10 0 4194304\nf 7\nrs 1 5 4\nws 2 15 2 8\n";

/// Scripts at the edges of the rules, and how many requests they have.
const ACCEPTED: &[(&[u8], usize)] = &[
    (b"", 0),
    (b"f 63\n", 1),
    (b"r 0 0 1\n", 1),
    (b"r 10 100 1000\n", 1),
    (b"r 0 0 32768\n", 1),
    (b"w 0 0 32768 0\n", 1),
    (b"d 0 0 4194304\n", 1),
    (b"w 0 18446744073709551615 1 4294967295\n", 1),
    (b"d 63 18446744073709551615 1\n", 1),
    (b"r 0 0 32767\nw 0 0 1 1\n", 2),
    (b"d 0 0 4194303\nd 0 0 1\n", 2),
    (b"r 0 0 32768\nd 0 0 4194304\nf 0\n", 3),
    (b"rs 0 18446744073709551615 1\n", 1),
    (b"ws 63 18446744073709551615 1 4294967295\n", 1),
    (b"rs 0 0 262144\n", 1),
    (b"rs 0 7 262137\n", 1),
    (b"ws 0 7 262137 1\n", 1),
    (b"rs 0 7 2\nr 0 0 32766\n", 2),
    (b"rs 0 8 8\nws 0 3 1 1\nr 0 0 32766\n", 3),
];

/// Bytes that are no script, the line that is refused, and why.
const REFUSED: &[(&[u8], u32, BadLine)] = &[
    (b"\n", 1, BadLine::Form),
    (b"\n\n", 1, BadLine::Form),
    (b" r 0 0 1\n", 1, BadLine::Form),
    (b"r  0 0 1\n", 1, BadLine::Form),
    (b"r 0  0 1\n", 1, BadLine::Form),
    (b"r 0 0  1\n", 1, BadLine::Form),
    (b"r 0 0 1 \n", 1, BadLine::Form),
    (b"r\t0 0 1\n", 1, BadLine::Form),
    (b"r 0\t0 1\n", 1, BadLine::Form),
    (b"r 0 0 1\r\n", 1, BadLine::Form),
    (b"r 0 0 +1\n", 1, BadLine::Form),
    (b"r 0 0 -1\n", 1, BadLine::Form),
    (b"r +0 0 1\n", 1, BadLine::Form),
    (b"r 0 -0 1\n", 1, BadLine::Form),
    (b"r 00 0 1\n", 1, BadLine::Form),
    (b"r 0 01 1\n", 1, BadLine::Form),
    (b"r 0 0 01\n", 1, BadLine::Form),
    (b"w 0 0 1 00\n", 1, BadLine::Form),
    (b"d 0 0 00\n", 1, BadLine::Form),
    (b"f 00\n", 1, BadLine::Form),
    (b"r 0 0 1", 1, BadLine::Form),
    (b"w 0 0 1 1", 1, BadLine::Form),
    (b"d 0 0 1", 1, BadLine::Form),
    (b"f 0", 1, BadLine::Form),
    (b"f", 1, BadLine::Form),
    (b"f ", 1, BadLine::Form),
    (b"f\n", 1, BadLine::Form),
    (b"f \n", 1, BadLine::Form),
    (b"r\n", 1, BadLine::Form),
    (b"r 0\n", 1, BadLine::Form),
    (b"r 0 0\n", 1, BadLine::Form),
    (b"r 0 0 \n", 1, BadLine::Form),
    (b"r 0 0 1 1\n", 1, BadLine::Form),
    (b"w 0 0 1\n", 1, BadLine::Form),
    (b"w 0 0 1 1 1\n", 1, BadLine::Form),
    (b"d 0 0\n", 1, BadLine::Form),
    (b"d 0 0 1 1\n", 1, BadLine::Form),
    (b"f 0 0\n", 1, BadLine::Form),
    (b"f0\n", 1, BadLine::Form),
    (b"R 0 0 1\n", 1, BadLine::Form),
    (b"x 0 0 1\n", 1, BadLine::Form),
    (b"0 0 0 1\n", 1, BadLine::Form),
    (b"r0 0 1\n", 1, BadLine::Form),
    (b"rr 0 0 1\n", 1, BadLine::Form),
    (b"r 0 0 0x1\n", 1, BadLine::Form),
    (b"r 0 a 1\n", 1, BadLine::Form),
    (b"r 0 0 1;f 0\n", 1, BadLine::Form),
    (b"# f 0\n", 1, BadLine::Form),
    (b"f 0\0\n", 1, BadLine::Form),
    (b"f 0\nr 0 00 1\n", 2, BadLine::Form),
    (b"f 0\n\n", 2, BadLine::Form),
    (b"f 0\nf 0", 2, BadLine::Form),
    (b"f 0\nf 0\nr 0 0 1 \nf 64\n", 3, BadLine::Form),
    (b"r 0 18446744073709551616 1 \n", 1, BadLine::Form),
    (b"r 64 0 0", 1, BadLine::Form),
    (b"r 0 18446744073709551616 1\n", 1, BadLine::Number),
    (b"w 0 18446744073709551616 1 1\n", 1, BadLine::Number),
    (b"d 0 18446744073709551616 1\n", 1, BadLine::Number),
    (b"r 0 0 0\n", 1, BadLine::Number),
    (b"w 0 0 0 1\n", 1, BadLine::Number),
    (b"d 0 0 0\n", 1, BadLine::Number),
    (b"r 0 0 4294967296\n", 1, BadLine::Number),
    (b"w 0 0 4294967296 1\n", 1, BadLine::Number),
    (b"d 0 0 4294967296\n", 1, BadLine::Number),
    (b"w 0 0 1 4294967296\n", 1, BadLine::Number),
    (b"r 0 0 18446744073709551615\n", 1, BadLine::Number),
    (b"r 0 0 18446744073709551616\n", 1, BadLine::Number),
    (b"r 64 0 0\n", 1, BadLine::Number),
    (b"w 64 0 0 0\n", 1, BadLine::Number),
    (b"f 0\nf 1\nr 0 0 0\n", 3, BadLine::Number),
    (b"r 64 0 1\n", 1, BadLine::Caller),
    (b"w 64 0 1 1\n", 1, BadLine::Caller),
    (b"d 64 0 1\n", 1, BadLine::Caller),
    (b"f 64\n", 1, BadLine::Caller),
    (b"f 256\n", 1, BadLine::Caller),
    (b"f 18446744073709551616\n", 1, BadLine::Caller),
    (b"r 64 0 32769\n", 1, BadLine::Caller),
    (b"f 63\nf 64\n", 2, BadLine::Caller),
    (b"r 0 0 32769\n", 1, BadLine::TooLong),
    (b"w 0 0 32769 1\n", 1, BadLine::TooLong),
    (b"d 0 0 4194305\n", 1, BadLine::TooLong),
    (b"r 0 0 4294967295\n", 1, BadLine::TooLong),
    (b"w 0 0 4294967295 1\n", 1, BadLine::TooLong),
    (b"d 0 0 4294967295\n", 1, BadLine::TooLong),
    (b"r 0 0 32768\nr 0 0 1\n", 2, BadLine::TooLong),
    (b"r 0 0 32768\nw 0 0 1 1\n", 2, BadLine::TooLong),
    (b"d 0 0 4194304\nd 0 0 1\n", 2, BadLine::TooLong),
    (b"r 0 0 32768\nd 0 0 4194305\n", 2, BadLine::TooLong),
    (b"rs\n", 1, BadLine::Form),
    (b"rs 0 0\n", 1, BadLine::Form),
    (b"rs 0 0 1", 1, BadLine::Form),
    (b"rs 0 0 1 1\n", 1, BadLine::Form),
    (b"rs 0 00 1\n", 1, BadLine::Form),
    (b"rs  0 0 1\n", 1, BadLine::Form),
    (b"r s 0 0 1\n", 1, BadLine::Form),
    (b"rss 0 0 1\n", 1, BadLine::Form),
    (b"sr 0 0 1\n", 1, BadLine::Form),
    (b"rw 0 0 1\n", 1, BadLine::Form),
    (b"Rs 0 0 1\n", 1, BadLine::Form),
    (b"rS 0 0 1\n", 1, BadLine::Form),
    (b"rs0 0 1\n", 1, BadLine::Form),
    (b"s 0 0 1\n", 1, BadLine::Form),
    (b"ws\n", 1, BadLine::Form),
    (b"ws 0 0 1\n", 1, BadLine::Form),
    (b"ws 0 0 1 1", 1, BadLine::Form),
    (b"ws 0 0 1 1 1\n", 1, BadLine::Form),
    (b"ws 0 0 01 1\n", 1, BadLine::Form),
    (b"ds 0 0 1\n", 1, BadLine::Form),
    (b"fs 0\n", 1, BadLine::Form),
    (b"rs 0 0 0\n", 1, BadLine::Number),
    (b"ws 0 0 0 1\n", 1, BadLine::Number),
    (b"rs 0 0 4294967296\n", 1, BadLine::Number),
    (b"ws 0 0 4294967296 1\n", 1, BadLine::Number),
    (b"ws 0 0 1 4294967296\n", 1, BadLine::Number),
    (b"rs 0 18446744073709551616 1\n", 1, BadLine::Number),
    (b"ws 0 18446744073709551616 1 1\n", 1, BadLine::Number),
    (b"rs 64 0 0\n", 1, BadLine::Number),
    (b"rs 64 0 1\n", 1, BadLine::Caller),
    (b"ws 64 0 1 1\n", 1, BadLine::Caller),
    (b"rs 64 0 262145\n", 1, BadLine::Caller),
    (b"rs 0 0 262145\n", 1, BadLine::TooLong),
    (b"rs 0 7 262138\n", 1, BadLine::TooLong),
    (b"ws 0 7 262138 1\n", 1, BadLine::TooLong),
    (
        b"rs 0 18446744073709551615 4294967295\n",
        1,
        BadLine::TooLong,
    ),
    (b"ws 0 0 4294967295 1\n", 1, BadLine::TooLong),
    (b"r 0 0 32767\nrs 0 7 2\n", 2, BadLine::TooLong),
    (b"r 0 0 32768\nws 0 7 1 1\n", 2, BadLine::TooLong),
];

const HUNDRED_DIGITS: &[u8] =
    b"1234567890123456789012345678901234567890123456789012345678901234567890123456789012345678901234567890";

/// What stands before and after a hundred digits, and why the line is refused.
const AROUND_HUNDRED_DIGITS: &[(&[u8], &[u8], BadLine)] = &[
    (b"r 0 ", b" 1\n", BadLine::Number),
    (b"r 0 0 ", b"\n", BadLine::Number),
    (b"w 0 ", b" 1 1\n", BadLine::Number),
    (b"w 0 0 ", b" 1\n", BadLine::Number),
    (b"w 0 0 1 ", b"\n", BadLine::Number),
    (b"d 0 ", b" 1\n", BadLine::Number),
    (b"d 0 0 ", b"\n", BadLine::Number),
    (b"r ", b" 0 0\n", BadLine::Number),
    (b"rs 0 ", b" 1\n", BadLine::Number),
    (b"rs 0 0 ", b"\n", BadLine::Number),
    (b"ws 0 ", b" 1 1\n", BadLine::Number),
    (b"ws 0 0 ", b" 1\n", BadLine::Number),
    (b"ws 0 0 1 ", b"\n", BadLine::Number),
    (b"rs ", b" 0 1\n", BadLine::Caller),
    (b"ws ", b" 0 1 1\n", BadLine::Caller),
    (b"r ", b" 0 1\n", BadLine::Caller),
    (b"w ", b" 0 1 1\n", BadLine::Caller),
    (b"d ", b" 0 1\n", BadLine::Caller),
    (b"f ", b"\n", BadLine::Caller),
    (b"f ", b"", BadLine::Form),
    (b"r 0 0", b" 1\n", BadLine::Form),
];

/// So many lines of flushes.
fn flushes(alloc: Global, count: usize) -> Result<Vec<u8>, AllocError> {
    let mut script = Vec::new(alloc);
    for _ in 0..count {
        script.extend_from_slice(b"f 0\n")?;
    }
    Ok(script)
}

fn refusal(alloc: Global, script: &[u8]) -> Option<ScriptFault> {
    parse(alloc, script).err()
}

#[test]
fn lines_are_their_plan(rt: HostRuntime) -> Result<(), Fail> {
    let requests: Vec<Request> = parse(rt.alloc(), ONE_OF_EACH)?.into();
    let wanted = [
        Request {
            caller: 0,
            what: What::Read {
                block: 18_446_744_073_709_551_615,
                count: 1,
            },
        },
        Request {
            caller: 63,
            what: What::Write {
                block: 5,
                count: 32_763,
                seed: 4_294_967_295,
            },
        },
        Request {
            caller: 10,
            what: What::Discard {
                block: 0,
                count: 4_194_304,
            },
        },
        Request {
            caller: 7,
            what: What::Flush,
        },
        Request {
            caller: 1,
            what: What::ReadSectors {
                sector: 5,
                count: 4,
            },
        },
        Request {
            caller: 2,
            what: What::WriteSectors {
                sector: 15,
                count: 2,
                seed: 8,
            },
        },
    ];
    assert_eq!(rt; requests.as_slice(), wanted.as_slice());
    for (script, count) in ACCEPTED {
        assert_eq!(rt; parse(rt.alloc(), script)?.len(), *count, "at {script:?}");
    }
    Ok(())
}

#[test]
fn other_bytes_are_refused(rt: HostRuntime) {
    for (script, line, why) in REFUSED {
        let wanted = ScriptFault::Bad {
            line: *line,
            why: *why,
        };
        assert_eq!(rt; refusal(rt.alloc(), script), Some(wanted), "at {script:?}");
    }
}

#[test]
fn a_hundred_digits_are_a_number(rt: HostRuntime) -> Result<(), Fail> {
    for (before, after, why) in AROUND_HUNDRED_DIGITS {
        let mut script = before.to_vec(rt.alloc())?;
        script.extend_from_slice(HUNDRED_DIGITS)?;
        script.extend_from_slice(after)?;
        let wanted = ScriptFault::Bad { line: 1, why: *why };
        assert_eq!(rt;
            refusal(rt.alloc(), &script),
            Some(wanted),
            "after {before:?}"
        );
    }
    Ok(())
}

#[test]
fn a_script_has_a_million_requests_at_most(rt: HostRuntime) -> Result<(), Fail> {
    let script = flushes(rt.alloc(), 1_000_001)?;
    let wanted = ScriptFault::Bad {
        line: 1_000_001,
        why: BadLine::TooLong,
    };
    assert_eq!(rt; refusal(rt.alloc(), &script), Some(wanted));
    Ok(())
}

#[test]
fn bytes_are_read_to_their_end(rt: HostRuntime) -> Result<(), Fail> {
    let bytes = ONE_OF_EACH.to_vec(rt.alloc())?;
    let mut source = MemSource::new(bytes, 1, Vec::new(rt.alloc()));
    let read = read_all(rt.alloc(), &mut source)?;
    assert_eq!(rt; read.as_slice(), ONE_OF_EACH);
    Ok(())
}

#[test]
fn a_source_fails_in_the_middle(rt: HostRuntime) -> Result<(), Fail> {
    let bytes = ONE_OF_EACH.to_vec(rt.alloc())?;
    let mut source = MemSource::new(bytes, 3, vec![in rt.alloc(); 4]?);
    let fault = read_all(rt.alloc(), &mut source).err();
    assert_eq!(rt; fault, Some(ScriptFault::Source));
    Ok(())
}

#[test]
fn reading_stops_past_the_last_byte(rt: HostRuntime) -> Result<(), Fail> {
    let bytes = flushes(rt.alloc(), 16_777_217)?;
    let too_long = ScriptFault::Bad {
        line: 0,
        why: BadLine::TooLong,
    };
    assert_eq!(rt; refusal(rt.alloc(), &bytes), Some(too_long));
    let mut source = MemSource::new(bytes, 1_000_000, Vec::new(rt.alloc()));
    assert_eq!(rt; read_all(rt.alloc(), &mut source).err(), Some(too_long));
    let mut rest = [0; 8];
    assert_eq!(rt; source.read(&mut rest).ok(), Some(3));
    Ok(())
}

fn request(caller: u8, what: What) -> Request {
    Request { caller, what }
}

#[test]
fn a_seed_makes_its_requests(rt: HostRuntime) -> Result<(), Fail> {
    let wanted = [
        request(
            1,
            What::Write {
                block: 117,
                count: 4,
                seed: 1,
            },
        ),
        request(
            3,
            What::Write {
                block: 1,
                count: 6,
                seed: 2,
            },
        ),
        request(
            0,
            What::Discard {
                block: 76,
                count: 3,
            },
        ),
        request(
            0,
            What::Read {
                block: 124,
                count: 4,
            },
        ),
    ];
    let requests: Vec<Request> = make(rt.alloc(), 1, 4, 128)?.into();
    assert_eq!(rt; requests.as_slice(), wanted.as_slice());
    assert!(rt; make(rt.alloc(), 1, 0, 128)?.is_empty());
    Ok(())
}
