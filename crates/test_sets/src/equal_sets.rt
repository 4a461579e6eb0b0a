//! Sets of metadata read, written, and made equal.

use std::alloc::Global;
use std::process::Abort;
use std::test::Fail;
use test_volumes::volumes::{fresh, put};
use zd_disk::ZonedDisk;
use zd_examine::examine;
use zd_model::Super;
use zd_sets::{Chosen, choose, make_equal, read_set, write_block, write_super};

/// Makes the sets of a disk equal, and answers what was chosen.
fn make_sets_equal<D: ZonedDisk>(alloc: Global, disk: &mut D) -> Result<Chosen, Fail> {
    let geometry = disk.geometry()?;
    let chosen = choose(disk, &geometry)?;
    let blocks = read_set(alloc, disk, &geometry, &chosen)?;
    make_equal(disk, &geometry, &chosen, &blocks)?;
    Ok(chosen)
}

/// Writes other bytes over the super block of the other set, and lends that of the chosen one.
fn spoil_super<D: ZonedDisk>(rt: &(impl Abort + AllocGlobal), disk: &mut D) -> Result<(), Fail> {
    let geometry = disk.geometry()?;
    let _zone_blocks = geometry.zone_blocks();
    let chosen = choose(disk, &geometry)?;
    let mut blocks = read_set(rt.alloc(), disk, &geometry, &chosen)?;
    write_block(disk, &geometry, chosen.other, 0, &[0x5A; 4096])?;
    assert_eq!(rt; blocks.block(0).first().copied(), Some(0x44));
    assert_eq!(rt; blocks.block_mut(0).first().copied(), Some(0x44));
    Ok(())
}

/// Writes the super block of the second set, where the first is chosen, in a later generation.
fn raise<D: ZonedDisk>(disk: &mut D, generation: u64) -> Result<(), Fail> {
    let geometry = disk.geometry()?;
    let _zone_blocks = geometry.zone_blocks();
    let chosen = choose(disk, &geometry)?;
    let head = Super {
        generation,
        own: 16,
        ..chosen.head
    };
    write_super(disk, chosen.other, &head)?;
    Ok(())
}

/// The other super block is bad, and a block of its set differs: zeros and a flush, the block and a flush,
/// the super block and a flush. The second time nothing differs, and three calls are left.
#[test]
fn the_other_set_is_made_equal(rt: HostRuntime) -> Result<(), Fail> {
    let mut disk = fresh(rt.alloc())?;
    put(&mut disk, 1, 0, &[0xAB; 4096])?;
    put(&mut disk, 1, 13, &[1; 4096])?;
    let calls = disk.calls();
    assert!(rt; !make_sets_equal(rt.alloc(), &mut disk)?.other_good);
    assert_eq!(rt; disk.calls().checked_sub(calls), Some(6));
    assert!(rt; make_sets_equal(rt.alloc(), &mut disk)?.other_good);
    assert_eq!(rt; disk.calls().checked_sub(calls), Some(9));
    put(&mut disk, 0, 0, &[0; 4096])?;
    let image = examine(rt.alloc(), &mut disk)?;
    assert_eq!(rt; image.chosen.set, 1);
    assert!(rt; !image.chosen.other_good);
    Ok(())
}

#[test]
fn super_blocks_are_written(rt: HostRuntime) -> Result<(), Fail> {
    let mut disk = fresh(rt.alloc())?;
    spoil_super(&rt, &mut disk)?;
    let image = examine(rt.alloc(), &mut disk)?;
    assert_eq!(rt; image.chosen.set, 0);
    assert!(rt; !image.chosen.other_good);
    raise(&mut disk, 9)?;
    let image = examine(rt.alloc(), &mut disk)?;
    assert_eq!(rt; image.chosen.set, 1);
    assert_eq!(rt; image.chosen.head.generation, 9);
    Ok(())
}
