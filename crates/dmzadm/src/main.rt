//! Work on the volume in an image file: `dmzadm` makes one (`--format`), checks it (`--check`), repairs it
//! (`--repair`), shows it (`--status`), gives it a new label (`--relabel`), and makes one of version 1 one of version 2
//! (`--upgrade`). `docs/USAGE.md` has the words.
//!
//! What was done goes to standard output, and the exit status is that of the last line.
#![tactic(auto)]

use std::fs::File;
use std::process::ExitCode;
use std::{env, io};
use zd_admin::{admin, paths};
use zd_disk::FileDisk;
use zd_ports::StdSink;

/// The disk in the image file of a command; one that fails at every call where there is none.
fn disk_at(rt: &HostRuntime, image: Option<&str>) -> FileDisk<File> {
    match image {
        Some(path) => FileDisk::at(rt, path),
        None => FileDisk::none(),
    }
}

/// The words behind the program's name.
fn words(rt: &HostRuntime) -> io::Result<Vec<String>> {
    let mut words = Vec::new(rt.alloc());
    for word in env::args(rt)?.skip(1) {
        words.push(word)?;
    }
    Ok(words)
}

/// Says that no memory was found for the words.
fn no_memory(rt: &HostRuntime) -> ExitCode {
    let _ = println!(rt; "end 7 memory");
    ExitCode::from(7)
}

fn main(rt: HostRuntime) -> ExitCode {
    let words = match words(&rt) {
        Ok(words) => words,
        Err(error) if error.kind() == io::ErrorKind::OutOfMemory => return no_memory(&rt),
        // A word that is no text is no command, as no words are none.
        Err(_) => Vec::new(rt.alloc()),
    };
    let Ok(paths) = paths(&words) else {
        return no_memory(&rt);
    };
    let disk = disk_at(&rt, paths.image);
    let mut out = StdSink::new(io::writer(&rt));
    let (status, _) = admin(rt.alloc(), &words, disk, &mut out);
    ExitCode::from(status.0)
}
