//! Sessions: requests of many callers over one volume, one step at a time.
#![tactic(auto)]

mod actor;
mod asked;
mod beginning;
mod finishing;
mod lone;
mod making;
mod progress;
mod serving;
mod session;
mod stepper;

pub use actor::Actor;
pub use session::Session;
pub use stepper::one_constant;
