//! The files that a command names.

/// The files that the words of a command name, each where they name one.
#[derive(Clone, Copy, Debug, Default, PartialEq, Eq)]
pub struct Paths<'a> {
    /// The image of a zoned disk.
    pub image: Option<&'a str>,
    /// The script of requests; `-` is standard input.
    pub script: Option<&'a str>,
    /// The image of a front disk.
    pub front: Option<&'a str>,
}
