//! Where a keyword of a logical file stands.

/// A level of the data description.
#[derive(Clone, Copy, PartialEq)]
pub enum KeywordPlace {
    File,
    Record,
    Join,
    Field,
    Key,
    /// A select, an omit, or a further condition of one.
    Selection,
}
