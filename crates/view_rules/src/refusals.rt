//! Why a logical field refuses a value. No memory is taken.
ghost use Rattle.std.specs.Prelude.{◌≡◌, ◌+◌, ◌<◌, ℕ, length};
ghost use Rattle.std.specs.List.{AllByRecursion};
ghost use Rattle.field_values.specs.FieldTypes.{IsFieldType};
ghost use Rattle.file_model.specs.Views.{stored_type, character, pieces_length, refusal};
ghost use Rattle.view_rules.specs.Stored.{IsAllowed, refused_by, first_refused};

use field_types::faults::{RecordFault, ValueFault};
use field_types::kinds::{FieldType, Kind};
use field_types::values::Value;
use field_values::fields;
use file_model::views::{FieldSource, LogicalField, Piece, ViewField};

/// The first field that refuses its value.
pub(crate) fn first_refused(fields: &[LogicalField], given: &[Option<Value>]) -> Option<RecordFault>
    requires allowed { AllByRecursion IsAllowed fields.now }
    requires same { length given.now ≡ length fields.now }
    requires few { length fields.now < 65536 }
    ensures { result ≡ first_refused 1 fields.now given.now }
{
    for i in 0..fields.len() {
        if let Some(cause) = refused_by(&fields[i], &given[i]) {
            return Some(RecordFault::BadField {
                field: (i + 1) as u16,
                cause,
            });
        }
    }
    None
}

/// Why a field refuses what is given for it.
fn refused_by(field: &LogicalField, given: &Option<Value>) -> Option<ValueFault>
    requires { IsAllowed field.now }
    ensures { result ≡ refused_by field.now given.now }
{
    match given {
        Some(value) => refusal(field, value),
        None => None,
    }
}

/// Why a field refuses a value: it takes none, or the value fits the field or the one under it no more.
fn refusal(field: &LogicalField, value: &Value) -> Option<ValueFault>
    requires { IsAllowed field.now }
    ensures { result ≡ refusal field.now value.now }
{
    if field.read_only {
        return Some(ValueFault::ReadOnlyField);
    }
    match fields::fault(&field.field.ty, value) {
        Some(cause) => Some(cause),
        None => fields::fault(&stored_type(&field.field), value),
    }
}

/// The type under which a field's value is stored.
fn stored_type(field: &ViewField) -> FieldType
    requires { IsFieldType (stored_type field.now.ty field.now.source) }
    ensures { result ≡ stored_type field.now.ty field.now.source }
{
    match &field.source {
        FieldSource::Copied { .. } => field.ty,
        FieldSource::Converted { from, .. } => *from,
        FieldSource::Concatenated(pieces) => concatenated(pieces.as_slice()),
        FieldSource::Substring(piece) => character(piece.length),
    }
}

/// The character field that some pieces are together.
fn concatenated(pieces: &[Piece]) -> FieldType
    requires { IsFieldType (character (pieces_length pieces.now)) }
    ensures { result ≡ character (pieces_length pieces.now) }
{
    let mut length = 0;
    for piece in pieces {
        length += piece.length;
    }
    character(length)
}

/// A character field of this length.
fn character(length: u32) -> FieldType
    requires { IsFieldType (character length) }
    ensures { result ≡ character length }
{
    FieldType {
        kind: Kind::Char,
        length: length as u16,
        decimals: 0,
    }
}
