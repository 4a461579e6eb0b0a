//! Counts of faults.

ghost use Rattle.std.specs.Prelude.{◌≡◌, ◌≤◌};
ghost use Rattle.zd_ports.specs.Ports.{next_call};

use zd_base::Failed;

// One more fault, and the answer that tells of it.
pub(crate) fn raise(faults: &mut u64) -> Failed
    ensures value { faults.new ≡ next_call faults.old }
    ensures later { faults.old ≤ faults.new }
{
    *faults = faults.saturating_add(1);
    Failed
}
