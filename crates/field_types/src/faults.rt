//! Why a value can't stand in a field, and where an image stands for none.

/// Why a value doesn't fit its field.
#[derive(Clone, Copy, PartialEq)]
pub enum ValueFault {
    /// A text for a numeric field, or a number for another one.
    WrongKind,
    /// A digit other than 0 behind the last decimal position.
    TooManyDecimals,
    /// More whole digits, or more characters, than the field has.
    TooWide,
    /// No date, time or timestamp of the calendar in *ISO form.
    BadDate,
    /// The field is read only.
    ReadOnlyField,
}

/// Why a list of values makes no record.
#[derive(Clone, Copy, PartialEq)]
pub enum RecordFault {
    /// There are more or fewer values than fields.
    Count,
    /// The first field, numbered from 1, that refuses its value.
    BadField { field: u16, cause: ValueFault },
}

/// The first byte, counted from 0, with which no image of a value begins.
#[derive(Clone, Copy, PartialEq)]
pub struct BadImage {
    pub at: usize,
}
