//! Volumes in files whose zones have two bitmap blocks.

use crate::run::expect;
use std::alloc::{AllocError, Global};
use std::fs;
use std::rt::Files;
use std::test::Fail;
use test_volumes::volumes::{NONE, VOLUME, bitmap_of, format, map_block, patterned, put};
use uuid::Uuid;
use zd_base::Layout;
use zd_disk::FileDisk;
use zd_examine::examine;

/// The layout on 4 conventional and 2 sequential zones of 65,536 blocks, with two bitmap blocks a zone.
const WIDE: Layout = Layout {
    meta_blocks: 14,
    reserved: 2,
    chunks: 2,
    map_blocks: 1,
    bitmap_blocks: 12,
};

/// The first 20 bytes of its image file.
const HEADER: [u8; 20] = [
    b'Z', b'D', b'I', b'M', b'A', b'G', b'E', b'1', 0, 0, 1, 0, 4, 0, 0, 0, 2, 0, 0, 0,
];

/// The file has holes where nobody wrote.
#[test]
fn a_zone_may_have_two_bitmap_blocks(rt: HostRuntime) -> Result<(), Fail> {
    fs::write(&rt, "wide.img", HEADER.as_slice())?;
    let mut disk = FileDisk::at(&rt, "wide.img");
    format(&mut disk, &WIDE)?;
    put(&mut disk, 0, 1, &map_block(0, 2, NONE))?;
    let mut bits = [0; 4096];
    bits[4095] = 0x80;
    put(&mut disk, 0, 6, &bits)?;
    bits[0] = 1;
    put(&mut disk, 0, 7, &bits)?;
    for (block, seed) in [(32_767, 5), (32_768, 5), (65_535, 6)] {
        put(&mut disk, 2, block, &patterned(seed, block))?;
    }
    assert_eq!(rt; examine(rt.alloc(), &mut disk)?.chosen.set, 0);
    let output = "0 1 0 r 32766 4 data z8,p5x16,z8 @0;\
        0 2 0 r 65534 2 data z8,p6x8 @0;\
        0 2 1 r 65536 2 data z16 @0;\
        end 0 ok;";
    expect(&rt, disk, "r 0 32766 4;r 0 65534 4;", output, 0)?;
    rt.remove_file("wide.img")?;
    Ok(())
}

/// The wide volume in a file whose zone 4 is written up to block 32,767.
fn wide_file(alloc: Global) -> Result<Vec<u8>, AllocError> {
    let mut file = HEADER.to_vec(alloc)?;
    file.resize(4112, 0)?;
    file.extend_from_slice(&262_136u32.to_le_bytes())?;
    Ok(file)
}

/// Of chunk 0 two blocks are valid in zone 4, on both sides of the bound between its bitmap blocks, and
/// two in its buffer, zone 2.
#[test]
fn both_bitmap_blocks_of_a_buffered_chunk_count(rt: HostRuntime) -> Result<(), Fail> {
    fs::write(&rt, "buffered.img", wide_file(rt.alloc())?.as_slice())?;
    let mut disk = FileDisk::at(&rt, "buffered.img");
    format(&mut disk, &WIDE)?;
    put(&mut disk, 0, 1, &map_block(0, 4, 2))?;
    let mut last = [0; 4096];
    last[4095] = 0x80;
    for (block, bits) in [(10, &last), (11, &bitmap_of(1)), (7, &bitmap_of(2))] {
        put(&mut disk, 0, block, bits)?;
    }
    for (zone, block, seed) in [(4, 32_767, 5), (4, 32_768, 5), (2, 32_769, 6)] {
        put(&mut disk, zone, block, &patterned(seed, block))?;
    }
    let output = "0 1 0 r 32766 5 data z8,p5x16,p6x8,z8 @0;end 0 ok;";
    let mut disk = expect(&rt, disk, "r 0 32766 5;", output, 0)?;
    put(&mut disk, 0, 7, &bitmap_of(1))?;
    expect(&rt, disk, "", "end 3 volume bits 2 32768;", 3)?;
    rt.remove_file("buffered.img")?;
    Ok(())
}

#[test]
fn a_formatted_volume_of_such_zones_reads_as_zeros(rt: HostRuntime) -> Result<(), Fail> {
    fs::write(&rt, "formatted.img", HEADER.as_slice())?;
    let mut disk = FileDisk::at(&rt, "formatted.img");
    let volume = Uuid::from_bytes(VOLUME);
    let layout = zd_format::format(rt.alloc(), &mut disk, 2, [0; 32], volume)?;
    assert_eq!(rt; layout, WIDE);
    let output = "0 1 0 r 131071 1 data z8 @0;end 0 ok;";
    expect(&rt, disk, "r 0 131071 1;", output, 0)?;
    rt.remove_file("formatted.img")?;
    Ok(())
}
