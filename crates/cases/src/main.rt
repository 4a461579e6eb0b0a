//! Runs the cases of the texts that are named, one after the other: `cases TEXT..`.
//!
//! It tells each case that failed, and last how many were run and how many of them failed; the exit
//! status is 1 where one failed, or a text can't be read.
#![tactic(auto)]

use anyhow::{Context, Result};
use std::process::ExitCode;
use std::{env, fs};
use zd_cases::{Bench, Tally};

/// Runs the cases of all texts that are named.
fn run(rt: &HostRuntime) -> Result<Tally> {
    let mut bench = Bench::new(rt.alloc());
    let mut tally = Tally::new(rt.alloc());
    for path in env::args(rt)?.skip(1) {
        let text = fs::read_to_string(rt, path.as_str()).context(format_args!("reading {path}"))?;
        bench.run_text(rt.alloc(), path.as_str(), text.as_str(), &mut tally)?;
    }
    Ok(tally)
}

fn main(rt: HostRuntime) -> Result<ExitCode> {
    let tally = run(&rt)?;
    let (cases, failed) = (tally.cases, tally.failed);
    print!(rt; "{}", tally.lines)?;
    println!(rt; "{cases} cases, {failed} failed")?;
    Ok(ExitCode::from(u8::from(failed > 0)))
}
