//! One room for telling how a run ended: what it prints, and its exit status.
//!
//! # What is proved
//!
//! `tell`, over any sink and any `Message`: the sink took the message's text, whole where it
//! didn't fail and where the status is 0, else a prefix; or `end 7 memory` so, where no memory was
//! found for a text that isn't fixed. The status is the message's, 7 where memory was missing, or 6
//! in place of 0, which comes only where the sink's count of faults rose. That count never falls.
//! `specs` says by stages how runs end, and `proofs` that causes exclude each other.
#![tactic(auto)]

mod message;
mod telling;

pub use message::Message;
pub use telling::tell;
