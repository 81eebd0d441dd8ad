//! The fields of a logical file, by what they show of the record of its base file. `specs/Views.antt` has the images.
use decimal_order::field_types::kinds::FieldType;
use decimal_order::field_types::lists::ListOf;

/// Some bytes of a record.
#[derive(Clone, Copy, PartialEq)]
pub struct Piece {
    /// Where the first one lies in the record, counted from 0.
    pub offset: u32,
    pub length: u32,
}

/// What a field shows of the record of the base file.
#[derive(Drop)]
pub enum FieldSource {
    /// The bytes of a field of the same type, under its name or another one (RENAME).
    Copied { offset: u32 },
    /// The value of a field of this other type.
    Converted { from: FieldType, offset: u32 },
    /// Character fields, one after another (CONCAT).
    Concatenated(ListOf<Piece>),
    /// Part of a character field (SST).
    Substring(Piece),
}

/// A field of a file, as its format shows it.
#[derive(Drop)]
pub struct ViewField {
    /// The field's own type.
    pub ty: FieldType,
    pub source: FieldSource,
}

/// A field of a logical format.
#[derive(Drop)]
pub struct LogicalField {
    pub field: ViewField,
    /// It takes no value.
    pub read_only: bool,
}
