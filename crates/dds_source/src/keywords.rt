//! Keywords with their places.

use crate::arguments::Arguments;
use text_lines::field_types::lists::ListOf;
use text_lines::field_types::names::Name;

/// A keyword as it stands in a source.
#[derive(Drop)]
pub struct Keyword {
    pub name: Name,
    /// The line of its first character, counted from 1.
    pub line: u32,
    /// The position of its first character, counted from 1.
    pub column: u32,
    /// `None` where it has no parentheses.
    pub arguments: Option<Arguments>,
}

/// Keywords in order.
pub type Keywords = ListOf<Keyword>;
