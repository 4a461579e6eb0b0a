//! Numbers in texts.

ghost use Rattle.std.specs.Prelude.{◌≡◌, ◌≢◌, ◌∷◌, ◌++◌, ℕ, List, All, IfNone, IfSome, IsTrue};
ghost use Rattle.std.specs.Prelude.{length, map, not, position};
ghost use Rattle.std.specs.Char.{is_ascii_digit, IsAsciiDigit};
ghost use Rattle.zd_model.specs.Text.{numeral};
ghost use Rattle.zd_script.specs.Number.{HasField, HasNumber, fields, told, value_after};

/// A number that no field of a text may have: one more than the largest block.
const BEYOND: u128 = 1 << 64;

/// How many digits stand before another byte; `None` where all bytes are digits.
fn digit_count(text: &[u8]) -> Option<usize>
    ensures { result ≡ position (λ byte. not (is_ascii_digit byte)) text.now }
{
    text.iter().position(|byte| !byte.is_ascii_digit())
}

/// Whether digits are a number's text: there is one, and no zero before others.
fn is_numeral(digits: &[u8]) -> bool
    requires { All IsAsciiDigit digits.now }
    ensures right { IsTrue result → numeral (value_after 0 digits.now) ≡ digits.now }
    ensures wrong { (n : ℕ) → numeral n ≡ digits.now → IsTrue result }
{
    match digits {
        [] => false,
        [_] => true,
        [first, ..] => *first != b'0',
    }
}

/// The number that digits write, at most `BEYOND`.
fn value_of(digits: &[u8]) -> u128
    requires { All IsAsciiDigit digits.now }
    ensures { result ≡ told (value_after 0 digits.now) }
{
    let mut value = 0;
    for digit in digits {
        value = (value * 10 + u128::from(digit - b'0')).min(BEYOND);
    }
    value
}

/// The number that begins a text, and what stands after it, beginning with no digit. The number has
/// no leading zeros, and it may have any size: from `BEYOND` on the answer is `BEYOND`.
fn number(text: &[u8]) -> Option<(u128, &[u8])>
    ensures found { IfSome result (λ found.
        (n : ℕ) × HasNumber text.now n found.1.now × (found.0 ≡ told n)) }
    ensures none { IfNone result ((n : ℕ) (rest : List ℕ) → HasNumber text.now n rest → ⊥) }
{
    let (digits, rest) = text.split_at(digit_count(text)?);
    if !is_numeral(digits) {
        return None;
    }
    Some((value_of(digits), rest))
}

/// The number after the space that begins a text, and what stands after it, as `number` answers.
fn field(text: &[u8]) -> Option<(u128, &[u8])>
    ensures found { IfSome result (λ found.
        (n : ℕ) × HasField text.now n found.1.now × (found.0 ≡ told n)) }
    ensures none { IfNone result ((n : ℕ) (rest : List ℕ) → HasField text.now n rest → ⊥) }
{
    number(text.strip_prefix(b" ")?)
}

/// The `N` numbers of a line after its letter, as `number` answers each, and what stands after the
/// line.
pub fn numbers<const N: usize>(text: &[u8]) -> Option<([u128; N], &[u8])>
    ensures found { IfSome result (λ found. (ns : List ℕ) × (length ns ≡ N)
        × (text.now ≡ fields ns ++ 10 ∷ found.1.now) × (found.0 ≡ map told ns)) }
    ensures none { IfNone result ((ns : List ℕ) (rest : List ℕ) →
        length ns ≡ N → text.now ≢ fields ns ++ 10 ∷ rest) }
{
    let mut values = [0; N];
    let mut rest = text;
    for value in &mut values {
        let (number, after) = field(rest)?;
        *value = number;
        rest = after;
    }
    Some((values, rest.strip_prefix(b"\n")?))
}
