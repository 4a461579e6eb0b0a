//! Why there is no plan.

ghost use Rattle.std.specs.Prelude.{◌≡◌};
ghost use Rattle.zd_script.specs.declared.fault.ScriptFault.TheVariants.{Memory as OutOfMemory};

use std::alloc::AllocError;
use zd_base::Memory;
use zd_model::BadLine;

/// Why a script can't be run.
#[derive(Clone, Copy, Debug, PartialEq, Eq)]
pub enum ScriptFault {
    /// The bytes are no script. Lines count from 1; line 0 is the whole.
    Bad { line: u32, why: BadLine },
    /// The source failed. What was read is lost.
    Source,
    /// No memory was found.
    Memory,
}

impl ScriptFault {
    /// That of bytes that are too many for a script.
    pub(crate) const TOO_LONG: ScriptFault = ScriptFault::Bad {
        line: 0,
        why: BadLine::TooLong,
    };
}

impl From<Memory> for ScriptFault {
    ghost from_gives = { λ _ fault. fault ≡ OutOfMemory };

    fn from(_error: Memory) -> ScriptFault {
        ScriptFault::Memory
    }
}

impl From<AllocError> for ScriptFault {
    ghost from_gives = { λ _ fault. fault ≡ OutOfMemory };

    fn from(_error: AllocError) -> ScriptFault {
        ScriptFault::Memory
    }
}
