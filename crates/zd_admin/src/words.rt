//! The words of a command.

ghost use Rattle.std.specs.Prelude.{◌≡◌, ◌≢◌, ◌↔◌, ◌≤◌, ℕ, List, All, length, map, string_bytes, IfNone, IfOk, IfSome, IsTrue, None, false};
ghost use Rattle.std.specs.Option.{option_copied};
ghost use Rattle.uuid.specs.Text.{parsed};
ghost use Rattle.zd_model.specs.Text.{numeral};
ghost use Rattle.zd_ports.specs.Words.{is_option};
ghost use Rattle.zd_admin.specs.Words.{Asks, AsksAlone, AsksRelabel, AsksUpgrade, AsksWith, IsAdminCommand, IsFormatCommand, IsLabel, NamesImage};

use itoa::Buffer;
use uuid::Uuid;
use zd_base::Memory;
use zd_ports::{Paths, is_option};

/// The most reserved zones that a command may ask for.
const MOST: u32 = 65_536;

/// The bytes of a label.
pub const LABEL: usize = 32;

/// What a command asks for.
#[derive(Clone, Copy, Debug, PartialEq, Eq)]
pub enum Asked {
    /// The disk is to become a volume of zeros.
    Format {
        /// The reserved zones.
        reserved: u32,
        /// The identifier of the volume.
        volume: Uuid,
    },
    /// Whether both sets of metadata are the same.
    Check,
    /// The disk is to become a volume again, without what is wrong in its tables.
    Repair,
    /// What the volume is, and how much of it is in use.
    Show,
    /// The volume is to have this label.
    Relabel {
        /// The label, with zeros after it.
        label: [u8; LABEL],
    },
    /// The volume is to be one of version 2.
    Upgrade {
        /// The identifier that it gets.
        volume: Uuid,
    },
}

/// The number of reserved zones that a word writes, without leading zeros.
#[tactic(auto, using(crate::proofs::WordLaws::reads_numeral))]
fn number(word: &str) -> Option<u32>
    ensures some { IfSome result (λ n. word.now ≡ numeral n) }
    ensures most { IfSome result (λ n. n ≤ 65536) }
    ensures none { IfNone result ((n : ℕ) → n ≤ 65536 → word.now ≡ numeral n → ⊥) }
{
    let Ok(number) = word.parse::<u32>() else {
        return None;
    };
    if number > MOST {
        return None;
    }
    let mut buffer = Buffer::new();
    if buffer.format(number) != word {
        return None;
    }
    Some(number)
}

/// The identifier that a word writes.
fn identifier(word: &str) -> Option<Uuid>
    ensures { result ≡ parsed word.now }
{
    Uuid::try_parse(word).ok()
}

/// Whether bytes are a label: at most 32, and none of them zero.
fn is_label(bytes: &[u8]) -> bool
    ensures { IsTrue result ↔ ((length bytes.now ≤ 32) × All (λ byte. byte ≢ 0) bytes.now) }
{
    bytes.len() <= LABEL && bytes.iter().all(|byte| *byte != 0)
}

/// The label that a word writes.
fn label_of(word: &str) -> Option<[u8; LABEL]>
    ensures some { IfSome result (IsLabel word.now) }
    ensures none { IfNone result ((label : List ℕ) → IsLabel word.now label → ⊥) }
{
    let bytes = word.as_bytes();
    if !is_label(bytes) {
        return None;
    }
    let mut label = [0; LABEL];
    label[..bytes.len()].copy_from_slice(bytes);
    Some(label)
}

/// What the words ask for, where they are a command that formats.
fn asked_format(words: &[String]) -> Option<Asked>
    ensures some { IfSome result (Asks (map string_bytes words.now)) }
    ensures none { IfNone result (IsFormatCommand (map string_bytes words.now) → ⊥) }
{
    let [format, seq, reserved, uuid, volume, image] = words else {
        return None;
    };
    if format.as_str() != "--format"
        || seq.as_str() != "--seq"
        || uuid.as_str() != "--uuid"
        || is_option(image)
    {
        return None;
    }
    let reserved = number(reserved)?;
    let volume = identifier(volume)?;
    Some(Asked::Format { reserved, volume })
}

/// Whether the words are this option and an image.
fn asks_alone(option: &str, words: &[String]) -> bool
    ensures { IsTrue result ↔ AsksAlone option.now (map string_bytes words.now) }
{
    match words {
        [first, image] => first.as_str() == option && !is_option(image),
        _ => false,
    }
}

/// Whether two words are these options, and a third is no option.
fn are_options(one: &str, first: &str, two: &str, second: &str, image: &str) -> bool
    ensures { IsTrue result
        ↔ ((one.now ≡ first.now) × (two.now ≡ second.now) × (is_option image.now ≡ false)) }
{
    let same = one == first && two == second;
    same && !is_option(image)
}

/// The value of an option, where the words are a first option, this one with its value, and an image.
fn value_of<'a>(first: &str, option: &str, words: &'a [String]) -> Option<&'a str>
    ensures some { IfSome result (λ value. AsksWith first.now option.now value.now (map string_bytes words.now)) }
    ensures none { IfNone result ((value : List ℕ) →
        AsksWith first.now option.now value (map string_bytes words.now) → ⊥) }
{
    let [one, two, value, image] = words else {
        return None;
    };
    if !are_options(one, first, two, option, image) {
        return None;
    }
    Some(value.as_str())
}

/// What the words ask for, where they are a command that gives a new label.
fn asked_relabel(words: &[String]) -> Option<Asked>
    ensures some { IfSome result (Asks (map string_bytes words.now)) }
    ensures none { IfNone result ((label : List ℕ) → AsksRelabel (map string_bytes words.now) label → ⊥) }
{
    let Some(word) = value_of("--relabel", "--label", words) else {
        return None;
    };
    let label = label_of(word)?;
    Some(Asked::Relabel { label })
}

/// What the words ask for, where they are a command that upgrades.
fn asked_upgrade(words: &[String]) -> Option<Asked>
    ensures some { IfSome result (Asks (map string_bytes words.now)) }
    ensures none { IfNone result ((volume : List ℕ) → AsksUpgrade (map string_bytes words.now) volume → ⊥) }
{
    let Some(word) = value_of("--upgrade", "--uuid", words) else {
        return None;
    };
    let volume = identifier(word)?;
    Some(Asked::Upgrade { volume })
}

/// What the words ask for, where they are a command.
pub fn command(words: &[String]) -> Option<Asked>
    ensures some { IfSome result (Asks (map string_bytes words.now)) }
    ensures none { IfNone result (IsAdminCommand (map string_bytes words.now) → ⊥) }
{
    if asks_alone("--check", words) {
        return Some(Asked::Check);
    }
    if asks_alone("--repair", words) {
        return Some(Asked::Repair);
    }
    if asks_alone("--status", words) {
        return Some(Asked::Show);
    }
    if let Some(asked) = asked_relabel(words) {
        return Some(asked);
    }
    if let Some(asked) = asked_upgrade(words) {
        return Some(asked);
    }
    asked_format(words)
}

/// The word that stands for the image of a command; none where the words are no command.
///
/// It takes no memory yet: `Memory` is kept for the commands whose words come in any order.
pub fn paths<'a>(words: &'a [String]) -> Result<Paths<'a>, Memory>
    ensures value { IfOk result (λ paths.
        NamesImage (map string_bytes words.now) (option_copied paths.image)) }
    ensures script { IfOk result (λ paths. paths.script ≡ None) }
    ensures front { IfOk result (λ paths. paths.front ≡ None) }
{
    match words {
        [.., image] if command(words).is_some() => Ok(Paths {
            image: Some(image.as_str()),
            script: None,
            front: None,
        }),
        _ => Ok(Paths {
            image: None,
            script: None,
            front: None,
        }),
    }
}
