//! Values from outside: those of the crc's definition, and the super blocks of a fresh volume on a
//! disk of 6 conventional and 6 sequential zones of 16 blocks.

ghost use Rattle.std.specs.Prelude.{◌<◌};

use super::*;
use std::process::Abort;
use uuid::Uuid;

/// The 16 bytes 705d13ab-1a26-52ae-a1fa-3108df8326ab.
const DEVICE: [u8; 16] = [
    0x70, 0x5d, 0x13, 0xab, 0x1a, 0x26, 0x52, 0xae, 0xa1, 0xfa, 0x31, 0x08, 0xdf, 0x83, 0x26, 0xab,
];

/// The crc of the super block of the first set.
const FIRST_CRC: [u8; 4] = [0x2c, 0xae, 0x2e, 0xf3];

/// The crc of the super block of the first set in version 1.
const BARE_CRC: [u8; 4] = [0x46, 0xa7, 0x6f, 0x20];

/// A super block of the volume in version 1, with its own number and its crc.
fn bare_block(own: u8, crc: [u8; 4]) -> [u8; 4096] {
    let mut block = [0; 4096];
    block[0..4].copy_from_slice(&[0x44, 0x42, 0x5a, 0x44]);
    block[4] = 1;
    block[8] = 1;
    block[16] = own;
    block[24] = 14;
    block[28] = 2;
    block[32] = 8;
    block[36] = 1;
    block[40] = 12;
    block[44..48].copy_from_slice(&crc);
    block
}

/// A super block of the volume in version 2, with its own number and its crc.
fn super_block(own: u8, crc: [u8; 4]) -> [u8; 4096] {
    let mut block = bare_block(own, crc);
    block[4] = 2;
    block[86] = 0x40;
    block[88] = 0x80;
    block[95] = 1;
    block[96..112].copy_from_slice(&DEVICE);
    block
}

/// The block with one byte changed.
fn changed(mut block: [u8; 4096], at: usize, byte: u8) -> [u8; 4096]
    requires { at < 4096 }
{
    block[at] = byte;
    block
}

/// The head of a set of the volume in version 1.
fn bare_head(own: u64) -> Super {
    Super {
        version: 1,
        generation: 1,
        own,
        layout: Layout {
            meta_blocks: 14,
            reserved: 2,
            chunks: 8,
            map_blocks: 1,
            bitmap_blocks: 12,
        },
        label: [0; 32],
        volume: Uuid::nil(),
        device: Uuid::nil(),
    }
}

/// The head of a set of the volume in version 2.
fn head(own: u64) -> Super {
    let mut volume = [0; 16];
    volume[6] = 0x40;
    volume[8] = 0x80;
    volume[15] = 1;
    Super {
        version: 2,
        volume: Uuid::from_bytes(volume),
        device: Uuid::from_bytes(DEVICE),
        ..bare_head(own)
    }
}

/// The complement of the well-known check value, zeros, and no bytes.
#[test]
fn crc_of_known_bytes(rt: HostRuntime) {
    assert_eq!(rt; crc32_le(0xFFFF_FFFF, b"123456789"), 0x340B_C6D9);
    assert_eq!(rt; crc32_le(0, &[0; 4096]), 0);
    assert_eq!(rt; crc32_le(5, &[]), 5);
}

#[test]
fn decodes_both_super_blocks_of_a_fresh_volume(rt: HostRuntime) {
    let first = super_block(0, FIRST_CRC);
    let second = super_block(16, [0x4a, 0x0e, 0xf8, 0x4d]);
    assert_eq!(rt; decode(&first), Ok(head(0)));
    assert_eq!(rt; decode(&second), Ok(head(16)));
}

#[test]
fn decodes_both_super_blocks_of_version_1(rt: HostRuntime) {
    let first = bare_block(0, BARE_CRC);
    let second = bare_block(16, [0x20, 0x07, 0xb9, 0x9e]);
    assert_eq!(rt; decode(&first), Ok(bare_head(0)));
    assert_eq!(rt; decode(&second), Ok(bare_head(16)));
}

/// The crc is made right only for the last block, so the order of the tests shows too.
#[test]
fn refuses_changed_blocks(rt: HostRuntime) {
    let magic = changed(super_block(0, FIRST_CRC), 3, 0x45);
    let version = changed(super_block(0, FIRST_CRC), 4, 3);
    let crc = changed(super_block(0, FIRST_CRC), 200, 1);
    let tail = changed(super_block(0, [0x06, 0xe3, 0xfc, 0x73]), 200, 1);
    assert_eq!(rt; decode(&magic), Err(NotSuper::Magic));
    assert_eq!(rt; decode(&version), Err(NotSuper::Version));
    assert_eq!(rt; decode(&crc), Err(NotSuper::Crc));
    assert_eq!(rt; decode(&tail), Err(NotSuper::Tail));
}

/// There is no version 3, whatever its crc. Byte 48 is a label's first byte in version 2, and after
/// the fields in version 1.
#[test]
fn the_version_tells_where_the_fields_end(rt: HostRuntime) {
    let third = changed(bare_block(0, [0x7a, 0xf5, 0x96, 0x07]), 4, 3);
    let bare = changed(bare_block(0, [0x2d, 0x8f, 0x69, 0x3f]), 48, 1);
    let named = changed(super_block(0, [0x47, 0x86, 0x28, 0xec]), 48, 1);
    let mut labelled = head(0);
    labelled.label[0] = 1;
    assert_eq!(rt; decode(&third), Err(NotSuper::Version));
    assert_eq!(rt; decode(&bare), Err(NotSuper::Tail));
    assert_eq!(rt; decode(&named), Ok(labelled));
}

#[test]
fn only_some_heads_fit_their_version(rt: HostRuntime) {
    let mut labelled = bare_head(0);
    labelled.label[31] = 1;
    let mut third = bare_head(0);
    third.version = 3;
    assert!(rt; bare_head(0).fits_version() && head(0).fits_version());
    assert!(rt; !labelled.fits_version() && !third.fits_version());
}

/// The block of a head, which must fit its version.
fn block_of(rt: &impl Abort, head: &Super) -> [u8; 4096] {
    let mut block = [0x5A; 4096];
    assert!(rt; head.fits_version());
    encode(head, &mut block);
    block
}

/// Asserts the crc of the block of a head, and that the block stands for it.
fn assert_crc(rt: &impl Abort, head: &Super, crc: u32) {
    let block = block_of(rt, head);
    assert_eq!(rt; &block[44..48], crc.to_le_bytes().as_slice());
    assert_eq!(rt; decode(&block), Ok(*head));
}

#[test]
fn encodes_heads_of_a_fresh_volume(rt: HostRuntime) {
    assert_eq!(rt; block_of(&rt, &head(0)), super_block(0, FIRST_CRC));
    assert_crc(&rt, &head(16), 0x4df8_0e4a);
}

#[test]
fn encodes_heads_of_version_1(rt: HostRuntime) {
    assert_eq!(rt; block_of(&rt, &bare_head(0)), bare_block(0, BARE_CRC));
    assert_crc(&rt, &bare_head(16), 0x9eb9_0720);
    let mut late = bare_head(0);
    late.generation = 1 << 32;
    assert_crc(&rt, &late, 0x976c_9ee1);
    late.generation = u64::MAX;
    assert_crc(&rt, &late, 0x8631_c9f7);
}

#[test]
fn the_crc_begins_with_the_lower_half_of_the_generation(rt: HostRuntime) {
    let mut late = head(0);
    late.generation = 1 << 32;
    assert_crc(&rt, &late, 0x442d_978b);
    late.generation = u64::MAX;
    assert_crc(&rt, &late, 0x5570_c09d);
    let mut named = head(0);
    named.generation = 2;
    named.label[..4].copy_from_slice(b"tank");
    assert_crc(&rt, &named, 0x1199_e226);
}
