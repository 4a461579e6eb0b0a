//! How many values a sector had at each stop of a run.

use crate::run::expect;
use std::test::Fail;
use test_volumes::volumes::fresh;
use zd_base::ZoneNo;

/// The writing calls of opening a volume whose sets are equal: three flushes and a super block.
const OPENING: u64 = 4;

#[test]
fn a_sector_has_values_until_the_next_flush(rt: HostRuntime) -> Result<(), Fail> {
    let disk = fresh(rt.alloc())?;
    let opened = disk.calls().saturating_add(OPENING);
    let disk = expect(
        &rt,
        disk,
        "w 0 0 1 1;f 0;w 0 0 1 2;",
        "0 1 0 w 0 1 1 done @1;0 2 0 f done @11;0 3 0 w 0 1 2 done @12;end 0 ok;",
        0,
    )?;
    // The second write is call 12, and call 13 is the flush with which the run closes its volume.
    for (stop, last) in [(11, Some(1)), (12, Some(1)), (13, Some(0)), (1000, None)] {
        let values = disk.values(opened.saturating_add(stop), ZoneNo(2), 0);
        assert_eq!(rt; values, last, "at {stop}");
    }
    Ok(())
}
