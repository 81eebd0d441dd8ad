//! The access path of a physical file's member, built.
#![tactic(auto)]

ghost use Rattle.std.specs.Prelude.{◌≡◌, ◌==◌, ◌+◌, ◌∷◌, ◌++◌, List, IfOk, OnOk};
ghost use Rattle.std.specs.Option.{option_copied, option_to_list};
ghost use Rattle.std.specs.List.{find};
ghost use Rattle.field_values.specs.FieldTypes.{width};
ghost use Rattle.key_spec.specs.declared.KeyPart.{KeyPart};
ghost use Rattle.record_fmt.specs.Layout.{IsLaidOut};
ghost use Rattle.file_model.specs.FilePaths.{field_from, field_of_part, key_fields, key_parts, own_fields, every_record, path_format, physical_path};

use field_types::kinds::FieldType;
use field_types::lists::ListOf;
use field_values::fields;
use file_model::paths::{PathFormat, PathSpec};
use file_model::rules::Rules;
use file_model::views::{FieldSource, ViewField};
use key_spec::{KeyPart, KeyParts, KeySpec};
use record_fmt::formats::{Field, Format};
use std::alloc::{AllocError, Global};

/// The path over a member of a file with a key.
pub fn member_path(
    alloc: Global,
    number: u32,
    format: &Format,
    keys: &KeySpec,
) -> Result<PathSpec, AllocError>
    ensures { IfOk result (λ spec. spec ≡ physical_path number format.now.fields keys.now) }
{
    let only = path_format(alloc, number, format.fields.as_slice(), keys)?;
    let mut formats = ListOf::new(alloc);
    formats.push(only)?;
    Ok(PathSpec {
        formats,
        unique: keys.unique,
        ties: keys.ties,
    })
}

/// The positions of a file's key as they are in its path, where the key fields alone stand one behind another.
pub fn path_positions(alloc: Global, keys: &KeySpec) -> Result<KeyParts, AllocError>
    ensures { IfOk result (λ parts. parts ≡ key_parts 0 keys.now.parts) }
{
    let mut parts = KeyParts::new(alloc);
    let mut at = 0;
    let own = keys.parts.as_slice();
    for part in own {
        at = add_position(at, *part, &mut parts)?;
    }
    Ok(parts)
}

/// Adds a position as it is in the path, where its field begins at this byte, and answers where the next one begins.
#[tactic(auto, using(crate::proofs::PathLemmas::joined))]
fn add_position(at: u32, part: KeyPart, parts: &mut KeyParts) -> Result<u32, AllocError>
    ensures { IfOk result (λ next. (rest : List KeyPart) → parts.new ++ key_parts next rest ≡ parts.old ++ key_parts at (part ∷ rest)) }
{
    match part {
        KeyPart::Field {
            ty,
            descend,
            absval,
            ..
        } => {
            let next = behind(at, &ty)?;
            parts.push(KeyPart::Field {
                ty,
                offset: at,
                descend,
                absval,
            })?;
            Ok(next)
        }
        KeyPart::Absent => {
            parts.push(KeyPart::Absent)?;
            Ok(at)
        }
    }
}

/// The byte behind a field of this type that begins here. Where it can't be counted, memory counts as exhausted.
fn behind(at: u32, ty: &FieldType) -> Result<u32, AllocError>
    ensures { IfOk result (λ next. next ≡ at + width ty.now) }
{
    let Ok(width) = u32::try_from(fields::width(ty)) else {
        return Err(AllocError);
    };
    match at.checked_add(width) {
        Some(next) => Ok(next),
        None => Err(AllocError),
    }
}

/// The format of the path: over the member, with all its records.
fn path_format(
    alloc: Global,
    number: u32,
    fields: &[Field],
    keys: &KeySpec,
) -> Result<PathFormat, AllocError>
    requires { IsLaidOut fields.now }
    ensures { IfOk result (λ format. format ≡ path_format number every_record (own_fields fields.now) keys.now.parts) }
{
    let key = path_positions(alloc, keys)?;
    let shown = key_fields(alloc, fields, keys.parts.as_slice())?;
    Ok(PathFormat {
        member: number,
        rules: every_record(alloc),
        fields: shown,
        key,
    })
}

/// Without select and omit statements.
fn every_record(alloc: Global) -> Rules
    ensures { result ≡ every_record }
{
    Rules {
        statements: ListOf::new(alloc),
        all: None,
    }
}

/// The key fields, in the order of the key.
#[tactic(auto, using(crate::proofs::PathLemmas::joined, crate::proofs::PathLemmas::cons_option_is))]
fn key_fields(
    alloc: Global,
    fields: &[Field],
    parts: &[KeyPart],
) -> Result<ListOf<ViewField>, AllocError>
    requires { IsLaidOut fields.now }
    ensures { IfOk result (λ shown. shown ≡ key_fields (own_fields fields.now) parts.now) }
{
    let mut shown = ListOf::new(alloc);
    for part in parts {
        add_field(fields, part, &mut shown)?;
    }
    Ok(shown)
}

/// Adds the field of a position, where there is one.
fn add_field(
    fields: &[Field],
    part: &KeyPart,
    shown: &mut ListOf<ViewField>,
) -> Result<(), AllocError>
    requires { IsLaidOut fields.now }
    ensures { OnOk result (shown.new ≡ shown.old ++ option_to_list (field_of_part (own_fields fields.now) part.now)) }
{
    match field_of_part(fields, *part) {
        Some(field) => {
            shown.push(field)?;
            Ok(())
        }
        None => Ok(()),
    }
}

/// The field of a position, as it is shown.
fn field_of_part(fields: &[Field], part: KeyPart) -> Option<ViewField>
    requires { IsLaidOut fields.now }
    ensures { result ≡ field_of_part (own_fields fields.now) part }
{
    match part {
        KeyPart::Field { offset, .. } => field_from(fields, offset),
        KeyPart::Absent => None,
    }
}

/// The field that begins at this byte, as it is shown.
fn field_from(fields: &[Field], at: u32) -> Option<ViewField>
    requires { IsLaidOut fields.now }
    ensures { result ≡ field_from at 0 (own_fields fields.now) }
{
    match field_at(fields, at) {
        Some(field) => Some(ViewField {
            ty: field.ty,
            source: FieldSource::Copied {
                offset: field.offset,
            },
        }),
        None => None,
    }
}

/// The field that begins at this byte.
fn field_at(fields: &[Field], at: u32) -> Option<&Field>
    ensures { option_copied result ≡ find (λ field. field.offset == at) fields.now }
{
    let mut rest = fields;
    while let [field, more @ ..] = rest {
        if field.offset == at {
            return Some(field);
        }
        rest = more;
    }
    None
}
