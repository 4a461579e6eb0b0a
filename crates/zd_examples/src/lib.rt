//! Worked examples of the definitions, as theorems. The bodies are empty: each clause is an
//! example, and a wrong definition fails one of them.
#![tactic(auto)]

pub mod blocks;
pub mod choices;
pub mod cuts;
pub mod histories;
pub mod images;
pub mod layouts;
pub mod remains;
pub mod reports;
pub mod requests;
pub mod runs;
pub mod scripts;
pub mod steps;
pub mod stops;
pub mod tables;
