//! Bits with known blocks, and ranges over the bounds of bytes and of bitmap blocks.

ghost use Rattle.std.specs.Prelude.{◌≤◌, ◌*◌, length};

use super::*;

/// A bitmap block whose blocks 0, 1 and 3 are valid.
fn block_of_three() -> [u8; 4096] {
    let mut bits = [0; 4096];
    bits[0] = 0x0b;
    bits
}

#[test]
fn blocks_0_1_and_3(rt: HostRuntime) {
    let bits = block_of_three();
    assert!(rt; valid(&bits, 0) && valid(&bits, 1) && !valid(&bits, 2) && valid(&bits, 3));
    assert_eq!(rt; weight(&bits, 16), 3);
    assert_eq!(rt; weight(&bits, 3), 2);
    assert_eq!(rt; weight_in(&bits, 1, 16), 2);
    assert_eq!(rt; weight_in(&bits, 1, 3), 1);
    assert_eq!(rt; first_valid(&bits, 2, 16), Some(3));
    assert_eq!(rt; first_valid(&bits, 4, 16), None);
    assert_eq!(rt; run_at(&bits, 0, 16), (true, 2));
    assert_eq!(rt; run_at(&bits, 2, 16), (false, 1));
    assert_eq!(rt; run_at(&bits, 4, 16), (false, 12));
}

#[test]
fn ranges_over_the_bounds_of_bytes(rt: HostRuntime) {
    let mut bits = block_of_three();
    assert!(rt; set_range(&mut bits, 2, 21));
    assert_eq!(rt; bits[0], 0xff);
    assert_eq!(rt; bits[1], 0xff);
    assert_eq!(rt; bits[2], 0x7f);
    assert_eq!(rt; bits[3], 0);
    assert!(rt; !set_range(&mut bits, 7, 16));
    assert!(rt; clear_range(&mut bits, 7, 10));
    assert_eq!(rt; bits[0], 0x7f);
    assert_eq!(rt; bits[1], 0);
    assert_eq!(rt; bits[2], 0x7e);
    assert!(rt; !clear_range(&mut bits, 7, 10));
    assert!(rt; !clear_range(&mut bits, 3, 0));
}

#[test]
fn bytes_that_fill_no_word(rt: HostRuntime) {
    let mut bits = [0xff, 0x01, 0x80];
    assert_eq!(rt; weight(&bits, 24), 10);
    assert_eq!(rt; weight_in(&bits, 7, 24), 3);
    assert_eq!(rt; weight_in(&bits, 24, 24), 0);
    assert_eq!(rt; run_at(&bits, 1, 24), (true, 8));
    assert_eq!(rt; first_valid(&bits, 9, 24), Some(23));
    assert!(rt; set_range(&mut bits, 0, 24));
    assert_eq!(rt; bits, [0xff, 0xff, 0xff]);
}

/// The bits of a zone of 65,536 blocks, of which those from 32,760 on but the last are valid.
fn two_blocks() -> [u8; 8192] {
    let mut bits = [0; 8192];
    set_range(&mut bits, 32_760, 32_776);
    clear_range(&mut bits, 65_535, 1);
    bits
}

#[test]
fn weights_of_two_bitmap_blocks(rt: HostRuntime) {
    let bits = two_blocks();
    assert_eq!(rt; weight(&bits, 65_536), 32_775);
    assert_eq!(rt; weight(&bits, 65_534), 32_774);
}

#[test]
fn first_blocks_of_two_bitmap_blocks(rt: HostRuntime) {
    let bits = two_blocks();
    assert_eq!(rt; first_valid(&bits, 0, 65_536), Some(32_760));
    assert_eq!(rt; first_valid(&bits, 65_535, 65_536), None);
}

#[test]
fn runs_of_two_bitmap_blocks(rt: HostRuntime) {
    let bits = two_blocks();
    assert_eq!(rt; run_at(&bits, 0, 65_536), (false, 32_760));
    assert_eq!(rt; run_at(&bits, 32_760, 65_536), (true, 32_775));
    assert_eq!(rt; run_at(&bits, 65_535, 65_536), (false, 1));
}
