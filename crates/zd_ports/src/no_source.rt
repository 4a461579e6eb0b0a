//! A source that isn't there.

ghost use Rattle.std.specs.Prelude.{◌≡◌, None, IsErr};
ghost use Rattle.zd_base.specs.Faults.{HasCause};
ghost use Rattle.zd_ports.specs.Ports.{next_call};

use crate::Source;
use crate::faults::raise;
use std::marker::Model;
use zd_base::Failed;

/// A source that fails at each read. Contracts see its count of faults.
#[derive(Debug, Drop)]
pub struct NoSource {
    faults: u64,
}

impl Model for NoSource {
    ghost use Rattle.std.specs.Prelude.{ℕ};

    ghost Value = { ℕ };

    ghost view = { λ s. s.faults };
}

impl NoSource {
    /// A source that gives nothing.
    pub fn new() -> NoSource
        ensures { result ≡ 0 }
    {
        NoSource { faults: 0 }
    }
}

impl Source for NoSource {
    ghost left = { λ s. None };

    ghost faults = { λ s. s };

    /// Always `Failed`.
    fn read(&mut self, _into: &mut [u8]) -> Result<usize, Failed>
        ensures err { IsErr result }
        ensures faults { self.new ≡ next_call self.old }
        ensures cause { HasCause self.old self.new result }
    {
        Err(raise(&mut self.faults))
    }
}
