//! The bytes of a script, from a source.

ghost use Rattle.std.specs.Prelude.{◌≡◌, ◌<◌, ◌≤◌, length, vec_len, IfOk};
ghost use Rattle.zd_base.specs.Faults.{Rose};
ghost use Rattle.zd_script.specs.Fault.{IfBad};
ghost use Rattle.zd_script.specs.Read.{ReadsAll, ReadsOn, ReadsTooMany};

use crate::ScriptFault;
use std::alloc::{AllocError, Global};
use zd_ports::Source;

/// The most bytes of a script.
pub const MOST_BYTES: usize = 67_108_864;

/// The bytes that are asked of a source at once.
const PIECE: usize = 65_536;

fn zeros(alloc: Global, len: usize) -> Result<Vec<u8>, AllocError>
    ensures { IfOk result (λ v. vec_len v ≡ len) }
{
    vec![in alloc; 0u8; len]
}

/// Appends what one call of the source reads, at most `most` bytes, and answers how many; 0 is the
/// end of input.
fn read_piece<S: Source>(
    from: &mut S,
    piece: &mut [u8],
    most: usize,
    all: &mut Vec<u8>,
) -> Result<usize, ScriptFault>
    requires { (0 < length piece.old) × (0 < most) }
    ensures ok { IfOk result (λ n.
        ReadsOn (S.left from.old) (S.left from.new) n all.old.items all.new.items) }
    ensures most { IfOk result (λ n. n ≤ most) }
    ensures source { result ≡ Err ScriptFault.Source → Rose (S.faults from.old) (S.faults from.new) }
    ensures bad { IfBad result (λ line why. ⊥) }
    ensures later { S.faults from.old ≤ S.faults from.new }
{
    let asked = piece.len().min(most);
    let piece = &mut piece[..asked];
    let Ok(count) = from.read(piece) else {
        return Err(ScriptFault::Source);
    };
    all.extend_from_slice(&piece[..count])?;
    Ok(count)
}

/// All bytes up to the end of input. A script that is too long is bad in line 0, and reading stops at
/// the byte that shows it.
pub fn read_all<S: Source>(alloc: Global, from: &mut S) -> Result<Vec<u8>, ScriptFault>
    ensures ok { IfOk result (λ v. ReadsAll (S.left from.old) (S.left from.new) v.items) }
    ensures bad { IfBad result (ReadsTooMany (S.left from.old) (S.left from.new)) }
    ensures source { result ≡ Err ScriptFault.Source → Rose (S.faults from.old) (S.faults from.new) }
    ensures later { S.faults from.old ≤ S.faults from.new }
{
    let mut all = Vec::new(alloc);
    let mut piece = zeros(alloc, PIECE)?;
    while all.len() <= MOST_BYTES {
        let most = MOST_BYTES + 1 - all.len();
        if read_piece(from, &mut piece, most, &mut all)? == 0 {
            return Ok(all);
        }
    }
    Err(ScriptFault::TOO_LONG)
}
