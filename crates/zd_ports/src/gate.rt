//! What an actor passes between two holds.

use zd_base::StepKind;

/// What an actor passes between two holds of what it steps. Tests make gates of their own, at which
/// actors wait for each other.
pub trait Gate {
    /// Called by an actor that holds nothing, with what its last step did.
    fn pass(&self, actor: u32, kind: StepKind);
}

/// A gate that lets everyone through.
#[derive(Drop)]
pub struct FreeGate;

impl Gate for FreeGate {
    fn pass(&self, _actor: u32, _kind: StepKind) {}
}
