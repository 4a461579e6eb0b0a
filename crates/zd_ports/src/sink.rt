//! Where bytes go.

ghost use Rattle.std.specs.Prelude.{◌≡◌, ◌<◌, ◌≤◌, ◌++◌, ℕ, List, Option, Some, length, take, IfOk, IfSome, OnErr};
ghost use Rattle.zd_base.specs.Faults.{HasCause};

use zd_base::Failed;

/// Where bytes go, in pieces of any length.
pub trait Sink: Drop {
    /// The bytes that it took, where the sink tells them.
    ghost held: { Self → Option (List ℕ) };

    /// How often the sink has failed.
    ghost faults: { Self → ℕ };

    /// Takes a prefix of `piece`, at least one byte, and answers how many bytes.
    ///
    /// `Failed` has taken none.
    fn write(&mut self, piece: &[u8]) -> Result<usize, Failed>
        requires { 0 < length piece.now }
        ensures some { IfOk result (λ n. 0 < n) }
        ensures count { IfOk result (λ n. n ≤ length piece.now) }
        ensures bytes { IfOk result (λ n.
            IfSome (held self.old) (λ bytes. held self.new ≡ Some (bytes ++ take n piece.now))) }
        ensures err { OnErr result (held self.new ≡ held self.old) }
        ensures cause { HasCause (faults self.old) (faults self.new) result };
}
