//! Worked examples: what a sector may hold before and after a flush.

use crate::may_hold;
use std::test::Fail;
use zd_base::{Memory, SECTOR};
use zd_model::{Entry, Reply, What};
use zd_plain::{History, pattern};

/// Two blocks of zeros.
const BASE: [u8; 16 * SECTOR] = [0; 16 * SECTOR];

const ZEROS: [u8; SECTOR] = [0; SECTOR];

/// What a write with this seed puts into a sector.
fn value(seed: u32, sector: u64) -> [u8; SECTOR] {
    let mut bytes = [0; SECTOR];
    pattern(seed, sector, &mut bytes);
    bytes
}

/// Appends the entry of a request.
fn add(history: &mut History, what: What, reply: Reply, at: u64) -> Result<(), Memory> {
    history.push(Entry {
        caller: 0,
        request: 1,
        piece: 0,
        what,
        reply,
        at,
    })
}

fn write(block: u64, count: u32, seed: u32) -> What {
    What::Write { block, count, seed }
}

#[test]
fn a_flush_decides_what_was_written_before_it(rt: HostRuntime) -> Result<(), Fail> {
    let mut history = History::new(rt.alloc());
    add(&mut history, write(0, 1, 1), Reply::Done, 1)?;
    add(&mut history, What::Flush, Reply::Done, 11)?;
    add(&mut history, write(0, 1, 2), Reply::Done, 12)?;
    let first = value(1, 0);
    let second = value(2, 0);
    // The moment, and whether zeros, the first and the second write may be there.
    let moments = [
        (0, true, true, false),
        (10, true, true, false),
        (11, false, true, true),
        (12, false, true, true),
    ];
    for (k, zeros_there, first_there, second_there) in moments {
        assert_eq!(rt;
            may_hold(&BASE, &history, k, 0, &ZEROS),
            zeros_there,
            "zeros at {k}"
        );
        assert_eq!(rt;
            may_hold(&BASE, &history, k, 0, &first),
            first_there,
            "the first at {k}"
        );
        assert_eq!(rt;
            may_hold(&BASE, &history, k, 0, &second),
            second_there,
            "the second at {k}"
        );
    }
    assert!(rt; !may_hold(&BASE, &history, 12, 8, &value(1, 8)));
    assert!(rt; may_hold(&BASE, &history, 12, 8, &ZEROS));
    Ok(())
}

#[test]
fn a_discard_counts_once_it_is_done(rt: HostRuntime) -> Result<(), Fail> {
    let mut history = History::new(rt.alloc());
    add(&mut history, write(0, 2, 1), Reply::Done, 1)?;
    add(&mut history, What::Flush, Reply::Done, 3)?;
    let discard = What::Discard { block: 0, count: 1 };
    add(&mut history, discard, Reply::Done, 4)?;
    assert!(rt; !may_hold(&BASE, &history, 3, 0, &ZEROS));
    assert!(rt; may_hold(&BASE, &history, 3, 0, &value(1, 0)));
    assert!(rt; may_hold(&BASE, &history, 4, 0, &ZEROS));
    assert!(rt; may_hold(&BASE, &history, 4, 0, &value(1, 0)));
    Ok(())
}

#[test]
fn what_failed_may_be_there(rt: HostRuntime) -> Result<(), Fail> {
    let mut history = History::new(rt.alloc());
    let sectors = What::WriteSectors {
        sector: 3,
        count: 2,
        seed: 5,
    };
    add(&mut history, sectors, Reply::Fault, 1)?;
    add(&mut history, What::Flush, Reply::Fault, 2)?;
    add(&mut history, write(1, 2, 7), Reply::Range, 2)?;
    assert!(rt; may_hold(&BASE, &history, 0, 3, &value(5, 3)));
    assert!(rt; may_hold(&BASE, &history, 9, 4, &value(5, 4)));
    assert!(rt; may_hold(&BASE, &history, 9, 4, &ZEROS));
    assert!(rt; !may_hold(&BASE, &history, 9, 5, &value(5, 5)));
    assert!(rt; !may_hold(&BASE, &history, 9, 8, &value(7, 8)));
    assert!(rt; !may_hold(&BASE, &history, 9, 3, b"short"));
    Ok(())
}
