//! The use order, with the answers by hand, and beside a plain list.

ghost use Rattle.std.specs.Prelude.{◌≡◌, ◌<◌, IfOk, length};
ghost use Rattle.std.specs.List.{range_with_len};

use super::small;
use crate::Alloc;
use std::alloc::{AllocError, Global};
use std::test::Fail;
use zd_base::{ChunkNo, Geometry, Layout};

/// The chunks as they follow each other, nine at most, as the digits of a number.
fn listed(zones: &Alloc) -> u64 {
    let mut digits = 0u64;
    let mut next = Some(zones.oldest());
    for _ in 0..9 {
        let Some(chunk) = next else {
            return digits;
        };
        digits = digits.wrapping_mul(10).wrapping_add(u64::from(chunk.0));
        next = zones.after(chunk);
    }
    digits
}

#[test]
fn a_touched_chunk_stands_last(rt: HostRuntime) -> Result<(), Fail> {
    let mut zones = small(rt.alloc())?;
    assert_eq!(rt; listed(&zones), 1_234_567);
    zones.touch(ChunkNo(0));
    assert_eq!(rt; listed(&zones), 12_345_670);
    zones.touch(ChunkNo(4));
    assert_eq!(rt; listed(&zones), 12_356_704);
    zones.touch(ChunkNo(4));
    assert_eq!(rt; listed(&zones), 12_356_704);
    assert_eq!(rt; zones.oldest(), ChunkNo(1));
    assert_eq!(rt; zones.after(ChunkNo(3)), Some(ChunkNo(5)));
    assert_eq!(rt; zones.after(ChunkNo(4)), None);
    Ok(())
}

/// The layout of the small disk with four chunks.
const FOUR: Layout = Layout {
    meta_blocks: 14,
    reserved: 2,
    chunks: 4,
    map_blocks: 1,
    bitmap_blocks: 12,
};

/// The small disk with four chunks.
pub(super) fn four(alloc: Global) -> Result<Alloc, Fail>
    ensures { IfOk result (λ zones. zones.order ≡ range_with_len 0 4) }
{
    let zones = Alloc::new(alloc, &Geometry::new(16, 6, 6)?, &FOUR, &[false; 12])?;
    Ok(zones)
}

/// Touches a chunk, and puts it last in a plain list too.
fn touch_both(zones: &mut Alloc, plain: &mut Vec<u32>, chunk: u32) -> Result<(), AllocError>
    requires { chunk < length zones.old.order }
    ensures { length zones.new.order ≡ length zones.old.order }
{
    zones.touch(ChunkNo(chunk));
    plain.retain(|other| *other != chunk);
    plain.push(chunk)?;
    Ok(())
}

/// The plain list as `listed` gives it.
fn digits_of(plain: &[u32]) -> u64 {
    let mut digits = 0u64;
    for chunk in plain {
        digits = digits.wrapping_mul(10).wrapping_add(u64::from(*chunk));
    }
    digits
}

/// Whether four touches, whose chunks are the digits of `turn` in base four, leave the order that
/// the plain list has.
fn agree(alloc: Global, turn: u32) -> Result<bool, Fail> {
    let mut zones = four(alloc)?;
    let mut plain = [0, 1, 2, 3].to_vec(alloc)?;
    let mut rest = turn;
    for _ in 0..4 {
        touch_both(&mut zones, &mut plain, rest % 4)?;
        rest /= 4;
    }
    Ok(listed(&zones) == digits_of(&plain))
}

#[test]
fn all_touches_of_four_chunks(rt: HostRuntime) -> Result<(), Fail> {
    for turn in 0..256 {
        assert!(rt; agree(rt.alloc(), turn)?, "at {turn}");
    }
    Ok(())
}
