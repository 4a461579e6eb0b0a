//! How long a script may be.

ghost use Rattle.std.specs.Prelude.{IfNone, IfSome};
ghost use Rattle.zd_script.specs.Limits.{Spends};

use zd_model::What;

/// How many more requests a script may have, and how many more blocks these may read or write, and
/// discard.
#[derive(Clone, Copy)]
pub struct Limits {
    pub requests: u32,
    pub moved: u32,
    pub discarded: u32,
}

impl Limits {
    /// Those of a whole script.
    pub const WHOLE: Limits = Limits {
        requests: 1_000_000,
        moved: 32_768,
        discarded: 4_194_304,
    };

    /// What is left after one more request; `None` where there is too little.
    pub fn after(self, what: What) -> Option<Limits>
        ensures some { IfSome result (λ left. Spends self left what) }
        ensures none { IfNone result ((left : Limits) → Spends self left what → ⊥) }
    {
        let (_, touched) = what.cover();
        let (moved, discarded) = match what {
            What::Read { .. } | What::Write { .. } => (touched, 0),
            What::ReadSectors { .. } | What::WriteSectors { .. } => (touched, 0),
            What::Discard { .. } => (0, touched),
            What::Flush => (0, 0),
        };
        Some(Limits {
            requests: self.requests.checked_sub(1)?,
            moved: self.moved.checked_sub(moved)?,
            discarded: self.discarded.checked_sub(discarded)?,
        })
    }
}
