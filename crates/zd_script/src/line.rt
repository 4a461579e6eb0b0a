//! One line of a script, with numbers of any size, and the request that it writes.

ghost use Rattle.std.specs.Prelude.{◌≡◌, ◌≢◌, ◌≤◌, ◌^◌, ◌++◌, ◌∷◌, List, ℕ, length};
ghost use Rattle.std.specs.Prelude.{IfErr, IfNone, IfOk, IfSome};
ghost use Rattle.zd_model.specs.Script.{HasNumbers, letters_of, line_text};
ghost use Rattle.zd_script.specs.Line.{HasBounds, IsRightRequest, BreaksRequestRule, asks_of, line_of};

use crate::number::numbers;
use zd_model::{BadLine, Request, What};

/// The last of the 64 callers.
const LAST_CALLER: u128 = 63;

/// What a line asks for. A number of more than 64 bits is told as 2^64.
#[derive(Clone, Copy)]
pub enum Asks {
    Read {
        block: u128,
        count: u128,
    },
    Write {
        block: u128,
        count: u128,
        seed: u128,
    },
    Discard {
        block: u128,
        count: u128,
    },
    Flush,
    ReadSectors {
        sector: u128,
        count: u128,
    },
    WriteSectors {
        sector: u128,
        count: u128,
        seed: u128,
    },
}

/// A line of one of the six forms. A number of more than 64 bits is told as 2^64.
#[derive(Clone, Copy)]
pub struct Line {
    pub caller: u128,
    pub asks: Asks,
}

/// The line that begins a text, and what stands after it; `None` where no line stands there.
pub fn first_line(text: &[u8]) -> Option<(Line, &[u8])>
    ensures found { IfSome result (λ found. (r : Request)
        × (text.now ≡ line_text r ++ found.1.now) × (found.0 ≡ line_of r)) }
    ensures none { IfNone result ((r : Request) (rest : List ℕ) → text.now ≢ line_text r ++ rest) }
{
    let (letter, rest) = text.split_first()?;
    match rest.strip_prefix(b"s") {
        Some(fields) => line_in_sectors(*letter, fields),
        None => line_in_blocks(*letter, rest),
    }
}

/// A line whose form has one letter, this one, and what stands after it.
fn line_in_blocks(letter: u8, fields: &[u8]) -> Option<(Line, &[u8])>
    ensures found { IfSome result (λ found. (r : Request)
        × (letter ∷ fields.now ≡ line_text r ++ found.1.now) × (found.0 ≡ line_of r)) }
    ensures none { IfNone result ((r : Request) (rest : List ℕ) →
        length (letters_of r.what) ≡ 1 → letter ∷ fields.now ≢ line_text r ++ rest) }
{
    match letter {
        b'r' => {
            let ([caller, block, count], rest) = numbers::<3>(fields)?;
            let asks = Asks::Read { block, count };
            Some((Line { caller, asks }, rest))
        }
        b'w' => {
            let ([caller, block, count, seed], rest) = numbers::<4>(fields)?;
            let asks = Asks::Write { block, count, seed };
            Some((Line { caller, asks }, rest))
        }
        b'd' => {
            let ([caller, block, count], rest) = numbers::<3>(fields)?;
            let asks = Asks::Discard { block, count };
            Some((Line { caller, asks }, rest))
        }
        b'f' => {
            let ([caller], rest) = numbers::<1>(fields)?;
            let asks = Asks::Flush;
            Some((Line { caller, asks }, rest))
        }
        _ => None,
    }
}

/// A line whose form has two letters, this one and an `s`, and what stands after it.
fn line_in_sectors(letter: u8, fields: &[u8]) -> Option<(Line, &[u8])>
    ensures found { IfSome result (λ found. (r : Request)
        × (letter ∷ 115 ∷ fields.now ≡ line_text r ++ found.1.now) × (found.0 ≡ line_of r)) }
    ensures none { IfNone result ((r : Request) (rest : List ℕ) →
        length (letters_of r.what) ≡ 2 → letter ∷ 115 ∷ fields.now ≢ line_text r ++ rest) }
{
    match letter {
        b'r' => {
            let ([caller, sector, count], rest) = numbers::<3>(fields)?;
            let asks = Asks::ReadSectors { sector, count };
            Some((Line { caller, asks }, rest))
        }
        b'w' => {
            let ([caller, sector, count, seed], rest) = numbers::<4>(fields)?;
            let asks = Asks::WriteSectors {
                sector,
                count,
                seed,
            };
            Some((Line { caller, asks }, rest))
        }
        _ => None,
    }
}

/// A block's or a sector's number.
fn place_of(number: u128) -> Option<u64>
    ensures some { IfSome result (λ place. place ≡ number) }
    ensures none { IfNone result (2 ^ 64 ≤ number) }
{
    u64::try_from(number).ok()
}

/// How many blocks or sectors: at least one.
fn count_of(number: u128) -> Option<u32>
    ensures some { IfSome result (λ count. (count ≡ number) × (1 ≤ count)) }
    ensures none { IfNone result (1 ≤ number → 2 ^ 32 ≤ number) }
{
    match u32::try_from(number) {
        Ok(0) | Err(_) => None,
        Ok(count) => Some(count),
    }
}

/// A pattern's seed.
fn seed_of(number: u128) -> Option<u32>
    ensures some { IfSome result (λ seed. seed ≡ number) }
    ensures none { IfNone result (2 ^ 32 ≤ number) }
{
    u32::try_from(number).ok()
}

impl Asks {
    /// The same, where each number is within its bounds.
    fn what(self) -> Option<What>
        ensures some { IfSome result (λ what. HasNumbers what × (self ≡ asks_of what)) }
        ensures none { IfNone result (HasBounds self → ⊥) }
    {
        match self {
            Asks::Read { block, count } => Some(What::Read {
                block: place_of(block)?,
                count: count_of(count)?,
            }),
            Asks::Write { block, count, seed } => Some(What::Write {
                block: place_of(block)?,
                count: count_of(count)?,
                seed: seed_of(seed)?,
            }),
            Asks::Discard { block, count } => Some(What::Discard {
                block: place_of(block)?,
                count: count_of(count)?,
            }),
            Asks::Flush => Some(What::Flush),
            Asks::ReadSectors { sector, count } => Some(What::ReadSectors {
                sector: place_of(sector)?,
                count: count_of(count)?,
            }),
            Asks::WriteSectors {
                sector,
                count,
                seed,
            } => Some(What::WriteSectors {
                sector: place_of(sector)?,
                count: count_of(count)?,
                seed: seed_of(seed)?,
            }),
        }
    }
}

impl Line {
    /// The request of a line; `Number` comes before `Caller`.
    pub fn request(self) -> Result<Request, BadLine>
        ensures ok { IfOk result (λ r. IsRightRequest r × (self ≡ line_of r)) }
        ensures err { IfErr result (λ why. (r : Request) → self ≡ line_of r → BreaksRequestRule r why) }
    {
        let Some(what) = self.asks.what() else {
            return Err(BadLine::Number);
        };
        if self.caller > LAST_CALLER {
            return Err(BadLine::Caller);
        }
        Ok(Request {
            caller: self.caller as u8,
            what,
        })
    }
}
