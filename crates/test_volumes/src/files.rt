//! Image files that the tests write byte by byte.

use crate::volumes::{SMALL, set_block};
use std::alloc::{AllocError, Global};

/// The first 20 bytes of an image file: its zones are 6 conventional and 6 sequential ones of 16
/// blocks.
pub const HEADER: [u8; 20] = [
    b'Z', b'D', b'I', b'M', b'A', b'G', b'E', b'1', 16, 0, 0, 0, 6, 0, 0, 0, 6, 0, 0, 0,
];

/// The file of the volume of the rows, up to the last block of its second set.
pub fn fresh_file(alloc: Global) -> Result<Vec<u8>, AllocError> {
    let mut file = HEADER.to_vec(alloc)?;
    for (own, zone) in [(0, 8192), (16, 73_728)] {
        file.resize(zone, 0)?;
        for i in 0..SMALL.meta_blocks {
            file.extend_from_slice(&set_block(&SMALL, own, i))?;
        }
    }
    Ok(file)
}
