//! Places round and round, and the words of a command.

use std::{env, io};

/// The next place, so many places on, round and round among so many.
pub fn next_of(at: u64, step: u64, count: u64) -> u64 {
    if count == 0 {
        return 0;
    }
    let step = step % count;
    let room = count - at % count;
    if step < room {
        at % count + step
    } else {
        step - room
    }
}

/// The words behind the program's name.
pub fn words(rt: &HostRuntime) -> io::Result<Vec<String>> {
    let mut words = Vec::new(rt.alloc());
    for word in env::args(rt)?.skip(1) {
        words.push(word)?;
    }
    Ok(words)
}
