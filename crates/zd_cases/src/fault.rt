//! Why a text can't be read, and why a case failed.

use std::alloc::{AllocError, AllocFailed};
use std::fmt;

/// What is wrong with a line.
#[derive(Clone, Copy, Debug, PartialEq, Eq)]
pub enum Unread {
    /// It stands before the first case.
    NoCase,
    /// There is no such line, or not with so many words.
    Form,
    /// A word is no such number, or no bytes, or no geometry.
    Number,
    /// No memory was found.
    Memory,
}

impl fmt::Display for Unread {
    fn fmt<W: fmt::Write>(&self, f: &mut fmt::Formatter<W>) -> fmt::Result {
        f.write_str(match self {
            Unread::NoCase => "it stands before the first case",
            Unread::Form => "there is no such line",
            Unread::Number => "a word is no such number",
            Unread::Memory => "no memory",
        })
    }
}

impl From<AllocError> for Unread {
    fn from(_error: AllocError) -> Unread {
        Unread::Memory
    }
}

impl<T: Drop> From<AllocFailed<T>> for Unread {
    fn from(_error: AllocFailed<T>) -> Unread {
        Unread::Memory
    }
}

/// A text that can't be read.
#[derive(Clone, Copy, Debug, PartialEq, Eq)]
pub struct TextFault {
    /// The line, counted from 1.
    pub line: u32,
    /// What is wrong with it.
    pub why: Unread,
}

/// Why a line of a case failed.
#[derive(Debug, Drop)]
pub enum Broken {
    /// Something isn't as the line asks.
    Differs {
        /// What it asks for.
        wanted: String,
        /// What there is.
        got: String,
    },
    /// A call of the disk failed that the line made itself.
    Device,
    /// There is no such zone, sector or byte, or it can't be written there.
    Place,
    /// No super block stands in front of zone 0.
    NoSet,
    /// The disk can't be formatted so.
    Unfit,
    /// No image has this name.
    NoImage,
    /// The disk as it was when the run began can't be opened.
    NotOpened,
    /// There is no such stop.
    NoStop,
    /// No stop was taken.
    NoBack,
    /// No memory was found.
    Memory,
}

impl fmt::Display for Broken {
    fn fmt<W: fmt::Write>(&self, f: &mut fmt::Formatter<W>) -> fmt::Result {
        let text = match self {
            Broken::Differs { wanted, got } => {
                return write!(f, "expected `{wanted}`, got `{got}`");
            }
            Broken::Device => "the disk failed",
            Broken::Place => "there is no such place",
            Broken::NoSet => "no super block stands in zone 0",
            Broken::Unfit => "the disk can't be formatted so",
            Broken::NoImage => "no image has this name",
            Broken::NotOpened => "the disk could not be opened",
            Broken::NoStop => "there is no such stop",
            Broken::NoBack => "no stop was taken",
            Broken::Memory => "no memory",
        };
        f.write_str(text)
    }
}

impl From<AllocError> for Broken {
    fn from(_error: AllocError) -> Broken {
        Broken::Memory
    }
}

impl<T: Drop> From<AllocFailed<T>> for Broken {
    fn from(_error: AllocFailed<T>) -> Broken {
        Broken::Memory
    }
}
