//! The kinds of fields and their types, as a data description names them.

/// The data type of a field (DDS for Physical and Logical Files, position 35).
#[derive(Clone, Copy, PartialEq)]
pub enum Kind {
    /// `A`: characters, one byte each.
    Char,
    /// `S`: zoned decimal, one byte a digit.
    Zoned,
    /// `P`: packed decimal, two digits a byte and the sign in the last half byte.
    Packed,
    /// `B`: binary, two's complement, high byte first.
    Binary,
    /// `L`: a date, `yyyy-mm-dd`.
    Date,
    /// `T`: a time, `hh.mm.ss`.
    Time,
    /// `Z`: a timestamp, `yyyy-mm-dd-hh.mm.ss.mmmmmm`.
    Stamp,
}

/// A field's type: its kind, its length in positions or digits, and its decimal positions.
#[derive(Clone, Copy, PartialEq)]
pub struct FieldType {
    pub kind: Kind,
    /// Characters of a text, digits of a number; 10, 8 and 26 for dates, times and timestamps.
    pub length: u16,
    /// Digits behind the decimal point; 0 for all but numbers.
    pub decimals: u8,
}
