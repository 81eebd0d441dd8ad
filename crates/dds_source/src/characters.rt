//! The characters of keywords, and where they stand.

/// A character of a text that may go over several lines.
#[derive(Clone, Copy)]
pub(crate) struct SourceCharacter {
    pub(crate) byte: u8,
    pub(crate) column: u8,
    pub(crate) line: u32,
}

/// Where a character stands: inside apostrophes or not, and inside how many parentheses.
#[derive(Clone, Copy)]
pub(crate) struct Place {
    pub(crate) quoted: bool,
    pub(crate) depth: usize,
}
