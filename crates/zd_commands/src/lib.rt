//! The words of the commands of `dmzadm`, `zreplay_one` and `zreplay`.
//!
//! # What is proved
//!
//! `admin_command`, `alone_command` and `replay_command` give a command exactly where the words are one, and then what
//! they ask for (`some`, `none`: `AsksAdmin`, `AsksAloneReplay`, `AsksReplay`). Which words those are is said without
//! clap, which reads them: the words are a row of flags, options with a value and plain words (`IsReading`), in any
//! order and none twice, and each program has its own rules on which stand together. An answer of no memory says
//! nothing of the words.
#![tactic(auto)]

mod admins;
mod readers;
mod reading;
mod replays;
#[cfg(test)]
mod tests;

pub use admins::{AdminCommand, AdminTask, LABEL_BYTES, admin_command};
pub use replays::{AloneCommand, ReplayCommand, ReplayTask, alone_command, replay_command};
