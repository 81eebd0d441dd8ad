//! What stands in the parentheses of a keyword.

use text_lines::field_types::byte_lists::ByteList;
use text_lines::field_types::lists::ListOf;
use text_lines::field_types::names::Name;
use text_lines::field_types::texts::Text;
use text_lines::field_types::values::Dec;

/// The use of [`Characters`].
#[derive(Clone, Copy)]
pub struct OfCharacters;

/// Characters as the source has them, one byte each.
pub type Characters = ByteList<OfCharacters>;

/// One argument of a keyword.
#[derive(Drop)]
pub enum Argument {
    /// A word that is a system name.
    Name(Name),
    /// A number literal.
    Number(Dec),
    /// A word that begins with an asterisk, as `*SRC`, with the asterisk.
    Special(Characters),
    /// Any other word.
    Word(Characters),
    /// A literal in apostrophes, without them, and one for each two within.
    Quoted(Characters),
    /// The bytes that a literal `X'..'` stands for.
    Hexadecimal(Text),
}

/// The arguments of a keyword in order.
pub type Arguments = ListOf<Argument>;
