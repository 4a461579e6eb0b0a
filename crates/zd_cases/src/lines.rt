//! Texts in which `;` stands for the line feed.

use crate::fault::Broken;
use std::alloc::{AllocError, Global};

/// The bytes of a text in which `;` stands for the line feed.
pub fn with_line_feeds(alloc: Global, text: &str) -> Result<Vec<u8>, AllocError> {
    let mut bytes = text.as_bytes().to_vec(alloc)?;
    for byte in bytes.iter_mut() {
        if *byte == b';' {
            *byte = b'\n';
        }
    }
    Ok(bytes)
}

/// That something differs.
pub fn differs(alloc: Global, wanted: &str, got: &str) -> Result<(), Broken> {
    Err(Broken::Differs {
        wanted: String::from_str(alloc, wanted)?,
        got: String::from_str(alloc, got)?,
    })
}

/// Whether two numbers are the same, with what they count.
pub fn same_number(alloc: Global, what: &str, wanted: u64, got: u64) -> Result<(), Broken> {
    if wanted == got {
        return Ok(());
    }
    Err(Broken::Differs {
        wanted: format!(in alloc; "{what} {wanted}")?,
        got: format!(in alloc; "{what} {got}")?,
    })
}

/// Whether an output has the lines of a text; else the first line that differs.
pub fn same_lines(alloc: Global, wanted: &str, output: &[u8]) -> Result<(), Broken> {
    let Ok(output) = str::from_utf8(output) else {
        return differs(alloc, wanted, "bytes that are no text");
    };
    let mut lines = output.split('\n');
    for line in wanted.split(';') {
        let got = lines.next().unwrap_or("");
        if line != got {
            return differs(alloc, line, got);
        }
    }
    match lines.next() {
        Some(more) => differs(alloc, "", more),
        None => Ok(()),
    }
}

/// The status that an ending line names; where there is none, that of a report that wasn't written.
pub fn ending_status(text: &str) -> u8 {
    let mut status = 6;
    for line in text.split(';') {
        if let Some(ending) = line.strip_prefix("end ") {
            let (number, _) = ending.split_once(' ').unwrap_or((ending, ""));
            status = number.parse::<u8>().unwrap_or(255);
        }
    }
    status
}
