//! What a run tells at its end.

ghost use Rattle.std.specs.Prelude.{◌≡◌, IfNone, IfOk, IfSome};
ghost use Rattle.zd_tell.specs.Telling.{Telling};

use std::alloc::Global;
use zd_base::{Memory, Status};

/// How a run ended, as it is told: all that the run prints, and its exit status.
///
/// The status 0 says that all was done.
pub trait Message {
    /// All that is printed, and the exit status.
    ghost telling: { Self → Telling };

    /// The output is fixed, so no memory is needed for it.
    ghost fixed: { Self → Type 0 };

    /// The exit status. It is not 6, which stands for a sink that failed.
    fn status(&self) -> Status
        ensures value { result.0 ≡ (telling self.now).status }
        ensures own { result.0 ≡ 6 → ⊥ };

    /// The output where it is fixed.
    fn line(&self) -> Option<&'static str>
        ensures some { IfSome result (λ line. line.now ≡ (telling self.now).text) }
        ensures none { IfNone result (fixed self.now → ⊥) };

    /// The output where it isn't fixed; `Memory` where none is found for it.
    fn text(&self, alloc: Global) -> Result<Vec<u8>, Memory>
        requires { fixed self.now → ⊥ }
        ensures { IfOk result (λ text. text.items ≡ (telling self.now).text) };
}
