//! The fields that selects and omits test: of the format or, failing that, of its base file.
ghost use Rattle.std.specs.Prelude.{◌≡◌, Option, IfOk};
ghost use Rattle.dds_logical.specs.Selections.{field_itself, field_to_test, tested_field};
ghost use Rattle.dds_physical.specs.Names.{field_named};
ghost use Rattle.dds_logical.specs.Tested.{type_of_field};

use crate::keys::named_of;
use crate::named_fields::NamedField;
use crate::names::field_named;
use field_types::kinds::FieldType;
use field_types::lists::ListOf;
use field_types::names::Name;
use file_model::views::{FieldSource, Piece, ViewField};
use record_fmt::formats::Field;
use std::alloc::{AllocError, Global};

/// The type of the field of a name, if there are both.
#[tactic(auto, using(crate::proofs::TestedLemmas::shown_is))]
pub(crate) fn type_to_test(
    named: &[NamedField],
    base: &[Field],
    name: Option<Name>,
) -> Option<FieldType>
    ensures { result ≡ type_of_field (tested_field (field_to_test named.now base.now) name) }
{
    let Some(name) = name else {
        return None;
    };
    match named_of(&name, named) {
        Some(field) => Some(field.shown.field.ty),
        None => type_in(base, &name),
    }
}

fn type_in(base: &[Field], name: &Name) -> Option<FieldType>
    ensures { result ≡ type_of_field (field_itself (field_named name.now base.now)) }
{
    match field_named(name, base) {
        Some(field) => Some(field.ty),
        None => None,
    }
}

/// A copy of what a field shows.
fn copied_source(alloc: Global, source: &FieldSource) -> Result<FieldSource, AllocError>
    ensures { IfOk result (λ s. s ≡ source.now) }
{
    match source {
        FieldSource::Copied { offset } => Ok(FieldSource::Copied { offset: *offset }),
        FieldSource::Converted { from, offset } => Ok(FieldSource::Converted {
            from: *from,
            offset: *offset,
        }),
        FieldSource::Concatenated(pieces) => {
            Ok(FieldSource::Concatenated(copied_pieces(alloc, pieces)?))
        }
        FieldSource::Substring(piece) => Ok(FieldSource::Substring(*piece)),
    }
}

fn copied_pieces(alloc: Global, pieces: &ListOf<Piece>) -> Result<ListOf<Piece>, AllocError>
    ensures { IfOk result (λ copy. copy ≡ pieces.now) }
{
    Ok(ListOf::from_vec(Vec::from_slice(alloc, pieces.as_slice())?))
}

/// A copy of a field in memory of its own.
pub(crate) fn copied_field(alloc: Global, field: &ViewField) -> Result<ViewField, AllocError>
    ensures { IfOk result (λ copy. copy ≡ field.now) }
{
    let source = copied_source(alloc, &field.source)?;
    Ok(ViewField {
        ty: field.ty,
        source,
    })
}

/// The field of a name in memory of its own, if there are both.
#[tactic(auto, using(crate::proofs::TestedLemmas::shown_is))]
pub(crate) fn field_to_test(
    alloc: Global,
    named: &[NamedField],
    base: &[Field],
    name: Option<Name>,
) -> Result<Option<ViewField>, AllocError>
    ensures { IfOk result (λ field. field ≡ tested_field (field_to_test named.now base.now) name) }
{
    let Some(name) = name else {
        return Ok(None);
    };
    match named_of(&name, named) {
        Some(field) => Ok(Some(copied_field(alloc, &field.shown.field)?)),
        None => Ok(field_in(base, &name)),
    }
}

fn field_in(base: &[Field], name: &Name) -> Option<ViewField>
    ensures { result ≡ field_itself (field_named name.now base.now) }
{
    match field_named(name, base) {
        Some(field) => Some(ViewField {
            ty: field.ty,
            source: FieldSource::Copied {
                offset: field.offset,
            },
        }),
        None => None,
    }
}
