//! Scripts: their bytes from a source, the plan that their lines write, and plans that a seed makes.
//!
//! # What is proved
//!
//! `parse` answers the plan of a script, and else the first line that breaks a rule with the
//! first rule that it breaks (`RefusesScript`). `read_all` answers all bytes of a source, and
//! `TooLong` only past the limit. `make` answers the plan that a sequence of numbers makes (`made`); the
//! plan lies in the device, and up to 4,096 of its requests are a script.
#![tactic(auto)]

mod fault;
mod generator;
mod limits;
mod line;
mod number;
mod plan;
mod read;
#[cfg(test)]
mod tests;

pub use fault::ScriptFault;
pub use generator::make;
pub use plan::parse;
pub use read::read_all;
pub use zd_model::{BadLine, Request, What};
pub use zd_plain::Plan;
