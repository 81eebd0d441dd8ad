//! A member's records of three fields, and the paths over them. `followed.rt` keeps both.
ghost use Rattle.std.specs.Prelude.{◌≡◌, IfOk, IsTrue};
ghost use Rattle.file_model.specs.FilePaths.{every_record};
ghost use Rattle.index_tests.specs.MemberRecords.{HasRecords, HaveRecords, IsRecord, format_by};

use crate::images::has_field;
use field_types::kinds::{FieldType, Kind};
use field_types::lists::ListOf;
use file_model::paths::{PathFormat, PathSpec};
use file_model::rules::Rules;
use file_model::views::{FieldSource, ViewField};
use key_spec::{KeyPart, KeyParts, Ties};
use std::alloc::{AllocError, Global};

/// The number of the member.
pub(crate) const MEMBER: u32 = 1;

/// The bytes of a record: its name, its amount and its number.
pub(crate) const RECORD_BYTES: usize = 6;

const NAME: FieldType = FieldType {
    kind: Kind::Char,
    length: 2,
    decimals: 0,
};

const AMOUNT: FieldType = FieldType {
    kind: Kind::Packed,
    length: 3,
    decimals: 0,
};

const NUMBER: FieldType = FieldType {
    kind: Kind::Binary,
    length: 4,
    decimals: 0,
};

/// Whether an image is of a record.
pub(crate) fn is_record(image: &[u8]) -> bool
    ensures { IsTrue result → IsRecord image.now }
{
    if image.len() != RECORD_BYTES || !has_field(&NAME, 0, image) {
        return false;
    }
    has_field(&AMOUNT, 2, image) && has_field(&NUMBER, 4, image)
}

/// A field of the record, as a path shows it.
fn shown(ty: FieldType, offset: u32) -> ViewField
    ensures { result ≡ record { ty = ty; source = FieldSource.Copied offset } }
{
    let source = FieldSource::Copied { offset };
    ViewField { ty, source }
}

/// Without select and omit statements.
fn every_record(alloc: Global) -> Rules
    ensures { result ≡ every_record }
{
    Rules {
        statements: ListOf::new(alloc),
        all: None,
    }
}

/// A path over the member with all its records.
fn path_by(
    alloc: Global,
    fields: ListOf<ViewField>,
    key: KeyParts,
    unique: bool,
    ties: Ties,
) -> Result<PathSpec, AllocError>
    requires { HasRecords (format_by fields key) }
    ensures { IfOk result (λ spec. HaveRecords spec.formats) }
{
    let rules = every_record(alloc);
    let mut formats = ListOf::new(alloc);
    formats.push(PathFormat {
        member: MEMBER,
        rules,
        fields,
        key,
    })?;
    Ok(PathSpec {
        formats,
        unique,
        ties,
    })
}

/// By name, then by amount from the greatest on.
pub(crate) fn by_name(alloc: Global) -> Result<PathSpec, AllocError>
    ensures { IfOk result (λ spec. HaveRecords spec.formats) }
{
    let mut fields = ListOf::new(alloc);
    fields.push(shown(NAME, 0))?;
    fields.push(shown(AMOUNT, 2))?;
    let mut key = KeyParts::new(alloc);
    key.push(KeyPart::Field {
        ty: NAME,
        offset: 0,
        descend: false,
        absval: false,
    })?;
    key.push(KeyPart::Field {
        ty: AMOUNT,
        offset: 2,
        descend: true,
        absval: false,
    })?;
    path_by(alloc, fields, key, false, Ties::Rising)
}

/// By amount without its sign, from the greatest on, and equal keys by the last record first.
pub(crate) fn by_size(alloc: Global) -> Result<PathSpec, AllocError>
    ensures { IfOk result (λ spec. HaveRecords spec.formats) }
{
    let mut fields = ListOf::new(alloc);
    fields.push(shown(AMOUNT, 2))?;
    let mut key = KeyParts::new(alloc);
    key.push(KeyPart::Field {
        ty: AMOUNT,
        offset: 0,
        descend: true,
        absval: true,
    })?;
    path_by(alloc, fields, key, false, Ties::Falling)
}

/// By number, of which no two records may have one.
pub(crate) fn by_number(alloc: Global) -> Result<PathSpec, AllocError>
    ensures { IfOk result (λ spec. HaveRecords spec.formats) }
{
    let mut fields = ListOf::new(alloc);
    fields.push(shown(NUMBER, 4))?;
    let mut key = KeyParts::new(alloc);
    key.push(KeyPart::Field {
        ty: NUMBER,
        offset: 0,
        descend: false,
        absval: false,
    })?;
    path_by(alloc, fields, key, true, Ties::Rising)
}
