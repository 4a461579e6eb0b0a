//! What a write puts into a sector.

ghost use Rattle.std.specs.Prelude.{◌≡◌, ◌+◌, ◌*◌, ◌≤◌, ◌++◌, length, take};
ghost use Rattle.std.specs.Int.{w64, to_le_bytes};
ghost use Rattle.zd_model.specs.Plain.{word, pattern};

/// The words of a sector, eight bytes each.
const WORDS: usize = 64;

/// Word j of a logical sector under a seed: the seed above, the word's place below.
fn word(seed: u32, sector: u64, j: u32) -> u64
    ensures { result ≡ word seed sector j }
{
    let place = (64 * (sector % (1 << 32)) + u64::from(j)) % (1 << 32);
    u64::from(seed) * (1 << 32) + place
}

/// Puts word j into its place.
#[tactic(auto, using(std::proofs::lemmas::Slice::overwrites))]
fn put_word(out: &mut [u8], j: usize, word: u64)
    requires { 8 * (j + 1) ≤ length out.old }
    ensures { take (8 * (j + 1)) out.new ≡ take (8 * j) out.old ++ to_le_bytes w64 word }
{
    out[8 * j..8 * (j + 1)].copy_from_slice(&word.to_le_bytes());
}

/// Fills a sector of 512 bytes with its pattern: the words of the logical sector under a seed, the
/// lowest byte of each first.
pub fn pattern(seed: u32, sector: u64, out: &mut [u8])
    requires { length out.old ≡ 512 }
    ensures { out.new ≡ pattern seed sector }
{
    for j in 0..WORDS {
        put_word(out, j, word(seed, sector, j as u32));
    }
}
