//! Where bytes come from.

ghost use Rattle.std.specs.Prelude.{◌≡◌, ◌<◌, ◌≤◌, ℕ, List, Option, length, IfOk, IfSome, OnErr};
ghost use Rattle.zd_base.specs.Faults.{HasCause};
ghost use Rattle.zd_ports.specs.Ports.{Gives};

use zd_base::Failed;

/// Where bytes come from, in pieces of any length.
pub trait Source: Drop {
    /// The bytes that are left, where the source tells them.
    ghost left: { Self → Option (List ℕ) };

    /// How often the source has failed.
    ghost faults: { Self → ℕ };

    /// Reads bytes into the first places of `into`, and answers how many; 0 is the end of input.
    ///
    /// `Failed` leaves all bytes to be read.
    fn read(&mut self, into: &mut [u8]) -> Result<usize, Failed>
        requires { 0 < length into.old }
        ensures count { IfOk result (λ n. n ≤ length into.old) }
        ensures bytes { IfOk result (λ n.
            IfSome (left self.old) (λ bytes. Gives bytes (left self.new) n into.new)) }
        ensures err { OnErr result (left self.new ≡ left self.old) }
        ensures cause { HasCause (faults self.old) (faults self.new) result };
}
