//! The steps of a session: which one comes next, and how far its requests have come.
//!
//! A session makes the requests of many callers over one volume, step by step, for many actors. This crate stands
//! on no volume and no disk: it asks what it needs by `HasStanding`, and says what is to be done by `Step`.
//!
//! # What is proved
//!
//! - `Queue::choose` gives the one step that the rules name (`next_step`), or none. What it serves is its caller's
//!   first piece that isn't entered, and no other actor has a piece of its caller or on its chunk in flight. It
//!   looks at 64 callers at most, whatever the script's length, and takes no memory.
//! - `Queue::flushes` lists the flushes that a commit enters, in the order of the script.
//! - As pieces are entered (`enter`, `enter_flushes`), each caller's entries stay the first of its pieces, in their
//!   order (`HasEntered`, and `laws::heads_keep_order`).
#![tactic(auto)]

mod flights;
mod heads;
pub mod laws;
mod queue;
mod ready;
mod standing;
mod step;

pub use heads::CALLERS;
pub use queue::Queue;
pub use standing::HasStanding;
pub use step::Step;
