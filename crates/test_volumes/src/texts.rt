//! Words, texts, and what reads and takes them.

ghost use Rattle.std.specs.Prelude.{◌<◌};

use std::alloc::{AllocError, Global};
use zd_ports::{MemSink, MemSource};

/// A list of words.
pub fn words(alloc: Global, list: &[&str]) -> Result<Vec<String>, AllocError> {
    let mut words = Vec::new(alloc);
    for word in list {
        let word = String::from_str(alloc, word)?;
        words.push(word)?;
    }
    Ok(words)
}

/// The bytes of a text in which `;` stands for the line feed.
pub fn lines(alloc: Global, text: &str) -> Result<Vec<u8>, AllocError> {
    let mut bytes = text.as_bytes().to_vec(alloc)?;
    for byte in bytes.iter_mut() {
        if *byte == b';' {
            *byte = b'\n';
        }
    }
    Ok(bytes)
}

/// A source of a text. It gives at most `most` bytes a call, and fails at the calls of these numbers,
/// counted from 1.
pub fn source(
    alloc: Global,
    text: &str,
    most: usize,
    fails: &[u64],
) -> Result<MemSource, AllocError>
    requires { 0 < most }
{
    Ok(MemSource::new(lines(alloc, text)?, most, fails.to_vec(alloc)?))
}

/// A sink that fails at the calls of these numbers.
pub fn sink(alloc: Global, fails: &[u64]) -> Result<MemSink, AllocError> {
    Ok(MemSink::new(alloc, fails.to_vec(alloc)?))
}
