//! New labels, and the upgrade.

use std::process::Abort;
use std::test::Fail;
use test_volumes::volumes::{SMALL, VOLUME, flush, fresh, put, set_block, write_at};
use uuid::Uuid;
use zd_examine::examine;
use zd_memdisk::MemDisk;
use zd_repair::{RelabelFault, UpgradeFault, relabel, upgrade};
use zd_super::crc32_le;

/// The label `tank`.
fn tank() -> [u8; 32] {
    let mut label = [0; 32];
    label[0..4].copy_from_slice(&[b't', b'a', b'n', b'k']);
    label
}

/// The volume of the rows in version 1.
fn bare(rt: &impl AllocGlobal) -> Result<MemDisk, Fail> {
    let mut disk = fresh(rt.alloc())?;
    for zone in 0..2u32 {
        let mut block = set_block(&SMALL, 16 * u64::from(zone), 0);
        write_at(&mut block, 4, &1u32.to_le_bytes());
        write_at(&mut block, 44, &[0; 4]);
        write_at(&mut block, 80, &[0; 32]);
        let crc = crc32_le(1, &block);
        write_at(&mut block, 44, &crc.to_le_bytes());
        put(&mut disk, zone, 0, &block)?;
    }
    flush(&mut disk)?;
    Ok(disk)
}

#[test]
fn a_volume_gets_a_label(rt: HostRuntime) -> Result<(), Fail> {
    let disk = fresh(rt.alloc())?;
    let calls = disk.calls();
    let mut disk = relabel(rt.alloc(), disk, tank()).ok().ok_or("relabel")?;
    assert_eq!(rt; disk.calls().checked_sub(calls), Some(4 + 4));
    let head = examine(rt.alloc(), &mut disk)?.chosen.head;
    assert_eq!(rt; head.generation, 2);
    assert_eq!(rt; head.label, tank());
    Ok(())
}

#[test]
fn a_volume_is_upgraded_once(rt: HostRuntime) -> Result<(), Fail> {
    let Err((RelabelFault::Old, disk)) = relabel(rt.alloc(), bare(&rt)?, tank()) else {
        return Err("relabel".into());
    };
    let volume = Uuid::from_bytes(VOLUME);
    let mut disk = upgrade(rt.alloc(), disk, tank(), volume)
        .ok()
        .ok_or("upgrade")?;
    let head = examine(rt.alloc(), &mut disk)?.chosen.head;
    assert_eq!(rt; head.version, 2);
    assert_eq!(rt; head.generation, 2);
    assert_eq!(rt; head.label, tank());
    assert_eq!(rt; head.volume, volume);
    assert!(rt;
        matches!(
            upgrade(rt.alloc(), disk, tank(), volume),
            Err((UpgradeFault::NotOld, _))
        )
    );
    Ok(())
}
