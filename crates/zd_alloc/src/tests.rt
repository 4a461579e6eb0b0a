//! Takes, releases and the end of limbo, with the answers by hand.

ghost use Rattle.std.specs.Prelude.{◌≡◌, IfOk, length};

mod candidates;
mod order;

use super::*;
use std::alloc::Global;
use std::test::Fail;
use zd_base::{Geometry, Kind, Layout, ZoneNo};

/// The layout of 6 conventional and 6 sequential zones of 16 blocks.
const SMALL: Layout = Layout {
    meta_blocks: 14,
    reserved: 2,
    chunks: 8,
    map_blocks: 1,
    bitmap_blocks: 12,
};

/// The small disk, of whose zones an entry names 3 and 6.
fn small(alloc: Global) -> Result<Alloc, Fail>
    ensures { IfOk result (λ zones. length zones.order ≡ 8) }
{
    let mut named = [false; 12];
    named[3] = true;
    named[6] = true;
    let zones = Alloc::new(alloc, &Geometry::new(16, 6, 6)?, &SMALL, &named)?;
    Ok(zones)
}

#[test]
fn zones_at_the_start(rt: HostRuntime) -> Result<(), Fail> {
    let zones = small(rt.alloc())?;
    assert_eq!(rt; zones.free(Kind::Conventional), 3);
    assert_eq!(rt; zones.free(Kind::Sequential), 5);
    assert_eq!(rt; zones.least_free(Kind::Conventional), Some(ZoneNo(2)));
    assert_eq!(rt; zones.least_free(Kind::Sequential), Some(ZoneNo(7)));
    Ok(())
}

#[test]
fn takes_go_up_to_the_last_free_zone(rt: HostRuntime) -> Result<(), Fail> {
    let mut zones = small(rt.alloc())?;
    assert_eq!(rt; zones.take_conventional(), Some(ZoneNo(2)));
    assert_eq!(rt; zones.take_conventional(), Some(ZoneNo(4)));
    assert_eq!(rt; zones.take_conventional(), Some(ZoneNo(5)));
    assert_eq!(rt; zones.take_conventional(), None);
    assert_eq!(rt; zones.free(Kind::Conventional), 0);
    assert_eq!(rt; zones.take_sequential(), Some(ZoneNo(7)));
    assert_eq!(rt; zones.free(Kind::Sequential), 4);
    Ok(())
}

/// Takes a conventional zone and gives it back, `named` or not.
fn take_and_release(zones: &mut Alloc, named: bool) -> Option<ZoneNo> {
    let zone = zones.take_conventional()?;
    zones.release(zone, named);
    Some(zone)
}

#[test]
fn a_zone_in_limbo_is_free_once_limbo_has_ended(rt: HostRuntime) -> Result<(), Fail> {
    let mut zones = small(rt.alloc())?;
    assert_eq!(rt; take_and_release(&mut zones, false), Some(ZoneNo(2)));
    assert_eq!(rt; take_and_release(&mut zones, true), Some(ZoneNo(2)));
    assert_eq!(rt; zones.limbo(Kind::Conventional), 1);
    assert_eq!(rt; zones.least_free(Kind::Conventional), Some(ZoneNo(4)));
    zones.end_limbo();
    assert_eq!(rt; zones.limbo(Kind::Conventional), 0);
    assert_eq!(rt; zones.least_free(Kind::Conventional), Some(ZoneNo(2)));
    Ok(())
}

/// The layout of the most zones that a disk has: 65,535 conventional and one sequential.
const GREATEST: Layout = Layout {
    meta_blocks: 65_538,
    reserved: 1,
    chunks: 1,
    map_blocks: 1,
    bitmap_blocks: 65_536,
};

#[test]
fn all_zones_of_the_greatest_disk(rt: HostRuntime) -> Result<(), Fail> {
    let named = [false; 65_536];
    let geometry = Geometry::new(8, 65_535, 1)?;
    let mut zones = Alloc::new(rt.alloc(), &geometry, &GREATEST, &named)?;
    for zone in 16_386..65_535 {
        assert_eq!(rt; take_and_release(&mut zones, false), Some(ZoneNo(zone)));
        assert_eq!(rt; zones.take_conventional(), Some(ZoneNo(zone)));
    }
    assert_eq!(rt; zones.least_free(Kind::Conventional), None);
    assert_eq!(rt; zones.take_sequential(), Some(ZoneNo(65_535)));
    Ok(())
}
