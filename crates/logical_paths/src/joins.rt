//! The paths that a join keeps over its secondary files.
ghost use Rattle.std.specs.Prelude.{◌≡◌, ◌+◌, ◌∷◌, ◌++◌, [], List, IfOk, OnOk};
ghost use Rattle.field_values.specs.FieldTypes.{width};
ghost use Rattle.key_spec.specs.declared.KeyPart.{KeyPart};
ghost use Rattle.file_model.specs.declared.views.ViewField.{ViewField};
ghost use Rattle.file_model.specs.FilePaths.{every_record};
ghost use Rattle.file_model.specs.Joins.{sequence_field};
ghost use Rattle.logical_paths.specs.Steps.{joined_to, parts_behind, secondary_fields, path_over_secondary};

use crate::copies::copied_field;
use dds_logical::join_views::JoinedFile;
use field_types::kinds::FieldType;
use field_types::lists::ListOf;
use field_values::fields;
use file_model::joins::JoinPair;
use file_model::paths::{PathFormat, PathSpec};
use file_model::rules::Rules;
use file_model::views::{FieldSource, ViewField};
use key_spec::{KeyPart, KeyParts, Ties};
use std::alloc::{AllocError, Global};

/// Without select and omit statements.
pub(crate) fn every_record(alloc: Global) -> Rules
    ensures { result ≡ every_record }
{
    Rules {
        statements: ListOf::new(alloc),
        all: None,
    }
}

/// The path over a member of a secondary file: by the fields of JFLD, then by that of JDUPSEQ.
pub(crate) fn secondary_path(
    alloc: Global,
    member: u32,
    joined: &JoinedFile,
) -> Result<PathSpec, AllocError>
    ensures { IfOk result (λ path. path ≡ path_over_secondary member joined.now) }
{
    let fields = secondary_fields(alloc, joined.pairs.as_slice(), joined.sequence)?;
    let key = secondary_key(alloc, joined.pairs.as_slice(), joined.sequence)?;
    let mut formats = ListOf::new(alloc);
    formats.push(PathFormat {
        member,
        rules: every_record(alloc),
        fields,
        key,
    })?;
    Ok(PathSpec {
        formats,
        unique: false,
        ties: Ties::Rising,
    })
}

/// The fields of its key.
fn secondary_fields(
    alloc: Global,
    pairs: &[JoinPair],
    sequence: KeyPart,
) -> Result<ListOf<ViewField>, AllocError>
    ensures { IfOk result (λ shown. shown ≡ secondary_fields pairs.now sequence) }
{
    let mut shown = joined_to(alloc, pairs)?;
    add_sequence(sequence, &mut shown)?;
    Ok(shown)
}

/// The fields of the secondary file that JFLD names.
#[tactic(auto, using(crate::proofs::PathLemmas::joined))]
fn joined_to(alloc: Global, pairs: &[JoinPair]) -> Result<ListOf<ViewField>, AllocError>
    ensures { IfOk result (λ shown. shown ≡ joined_to pairs.now) }
{
    let mut shown = ListOf::new(alloc);
    for pair in pairs {
        shown.push(copied_field(alloc, &pair.to)?)?;
    }
    Ok(shown)
}

/// Adds the field of JDUPSEQ, where there is one.
fn add_sequence(sequence: KeyPart, shown: &mut ListOf<ViewField>) -> Result<(), AllocError>
    ensures { OnOk result (shown.new ≡ shown.old ++ sequence_field sequence) }
{
    match sequence {
        KeyPart::Field { ty, offset, .. } => {
            shown.push(ViewField {
                ty,
                source: FieldSource::Copied { offset },
            })?;
            Ok(())
        }
        KeyPart::Absent => Ok(()),
    }
}

/// The positions of its key, one behind another.
fn secondary_key(
    alloc: Global,
    pairs: &[JoinPair],
    sequence: KeyPart,
) -> Result<KeyParts, AllocError>
    ensures { IfOk result (λ parts. parts ≡ parts_behind 0 (joined_to pairs.now) sequence) }
{
    let mut parts = KeyParts::new(alloc);
    let mut at = 0;
    for pair in pairs {
        at = add_position(at, &pair.to, &mut parts)?;
    }
    add_last(at, sequence, &mut parts)?;
    Ok(parts)
}

/// Adds the position of a field of JFLD that begins at this byte, and answers where the next one begins.
fn add_position(at: u32, field: &ViewField, parts: &mut KeyParts) -> Result<u32, AllocError>
    ensures { IfOk result (λ next. (rest : List ViewField) (sequence : KeyPart) → parts.new ++ parts_behind next rest sequence ≡ parts.old ++ parts_behind at (field.now ∷ rest) sequence) }
{
    let next = behind(at, &field.ty)?;
    parts.push(KeyPart::Field {
        ty: field.ty,
        offset: at,
        descend: false,
        absval: false,
    })?;
    Ok(next)
}

/// Adds the position of the field of JDUPSEQ, where there is one, at this byte.
fn add_last(at: u32, sequence: KeyPart, parts: &mut KeyParts) -> Result<(), AllocError>
    ensures { OnOk result (parts.new ≡ parts.old ++ parts_behind at [] sequence) }
{
    match sequence {
        KeyPart::Field {
            ty,
            descend,
            absval,
            ..
        } => {
            parts.push(KeyPart::Field {
                ty,
                offset: at,
                descend,
                absval,
            })?;
            Ok(())
        }
        KeyPart::Absent => Ok(()),
    }
}

/// The byte behind a field of this type that begins here. Where it can't be counted, memory counts as exhausted.
fn behind(at: u32, ty: &FieldType) -> Result<u32, AllocError>
    ensures { IfOk result (λ next. next ≡ at + width ty.now) }
{
    let Ok(width) = u32::try_from(fields::width(ty)) else {
        return Err(AllocError);
    };
    match at.checked_add(width) {
        Some(next) => Ok(next),
        None => Err(AllocError),
    }
}
