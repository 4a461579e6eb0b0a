//! Values of options.

ghost use Rattle.std.specs.Prelude.{◌≡◌, ◌≢◌, ◌↔◌, ◌≤◌, ℕ, List, All, length, option_and_then, IfNone, IfSome, IsTrue};
ghost use Rattle.std.specs.Option.{option_copied};
ghost use Rattle.uuid.specs.Text.{parsed};
ghost use Rattle.zd_model.specs.Text.{numeral};
ghost use Rattle.zd_commands.specs.Admins.{GivesLabel, GivesReserved, SpellsLabel};

use crate::admins::LABEL_BYTES;
use itoa::Buffer;
use uuid::Uuid;

/// The most reserved zones that a command may ask for.
const MOST_RESERVED: u64 = 65_536;

/// The reserved zones where a command doesn't say how many.
const RESERVED: u32 = 2;

/// The number from `least` to `most` that a word writes, without leading zeros.
pub(crate) fn number_between(word: &str, least: u64, most: u64) -> Option<u64>
    ensures some { IfSome result (λ n. (word.now ≡ numeral n) × (least ≤ n) × (n ≤ most)) }
    ensures none { IfNone result ((n : ℕ) → word.now ≡ numeral n → least ≤ n → n ≤ most → ⊥) }
{
    let Ok(number) = word.parse::<u64>() else {
        return None;
    };
    if number < least {
        return None;
    }
    if number > most {
        return None;
    }
    let mut buffer = Buffer::new();
    if buffer.format(number) != word {
        return None;
    }
    Some(number)
}

/// Whether bytes are a label: at most 32, and none of them zero.
fn are_label(bytes: &[u8]) -> bool
    ensures { IsTrue result ↔ ((length bytes.now ≤ 32) × All (λ byte. byte ≢ 0) bytes.now) }
{
    bytes.len() <= LABEL_BYTES && bytes.iter().all(|byte| *byte != 0)
}

/// The label that a word spells.
pub(crate) fn spelled_label(word: &str) -> Option<[u8; LABEL_BYTES]>
    ensures some { IfSome result (SpellsLabel word.now) }
    ensures none { IfNone result ((label : List ℕ) → SpellsLabel word.now label → ⊥) }
{
    let bytes = word.as_bytes();
    if !are_label(bytes) {
        return None;
    }
    let mut label = [0; LABEL_BYTES];
    label[..bytes.len()].copy_from_slice(bytes);
    Some(label)
}

/// The label of a command, the empty one where no word gives it.
pub(crate) fn label_given(word: Option<&str>) -> Option<[u8; LABEL_BYTES]>
    ensures some { IfSome result (GivesLabel (option_copied word.entry)) }
    ensures none { IfNone result ((label : List ℕ) → GivesLabel (option_copied word.entry) label → ⊥) }
{
    match word {
        Some(word) => spelled_label(word),
        None => spelled_label(""),
    }
}

/// The reserved zones of a command.
pub(crate) fn reserved_given(word: Option<&str>) -> Option<u32>
    ensures some { IfSome result (GivesReserved (option_copied word.entry)) }
    ensures none { IfNone result ((reserved : ℕ) → GivesReserved (option_copied word.entry) reserved → ⊥) }
{
    match word {
        Some(word) => match number_between(word, 0, MOST_RESERVED) {
            Some(number) => Some(number as u32),
            None => None,
        },
        None => Some(RESERVED),
    }
}

/// The identifier of a volume.
pub(crate) fn volume_given(word: Option<&str>) -> Option<Uuid>
    ensures { result ≡ option_and_then parsed (option_copied word.entry) }
{
    match word {
        Some(word) => Uuid::try_parse(word).ok(),
        None => None,
    }
}
