//! The key fields of a format, found among the fields that it shows.
ghost use Rattle.std.specs.Prelude.{◌≡◌, ◌==◌, ◌∷◌, ◌++◌, false, List, IfOk, OnOk};
ghost use Rattle.std.specs.Option.{option_copied, option_to_list};
ghost use Rattle.file_model.specs.FilePaths.{field_from, field_of_part, key_fields};
ghost use Rattle.logical_paths.specs.Steps.{field_left, shown_of, shown_in_join};

use crate::copies::copied_field;
use dds_logical::join_views::JoinedField;
use field_types::lists::ListOf;
use field_values::fields;
use file_model::views::{LogicalField, ViewField};
use key_spec::KeyPart;
use std::alloc::{AllocError, Global};

/// What the fields of a format show.
#[tactic(auto, using(crate::proofs::PathLemmas::joined))]
pub(crate) fn shown_of(
    alloc: Global,
    fields: &[LogicalField],
) -> Result<ListOf<ViewField>, AllocError>
    ensures { IfOk result (λ shown. shown ≡ shown_of fields.now) }
{
    let mut shown = ListOf::new(alloc);
    for field in fields {
        shown.push(copied_field(alloc, &field.field)?)?;
    }
    Ok(shown)
}

/// What the fields of a join format show.
#[tactic(auto, using(crate::proofs::PathLemmas::joined))]
pub(crate) fn shown_in_join(
    alloc: Global,
    fields: &[JoinedField],
) -> Result<ListOf<ViewField>, AllocError>
    ensures { IfOk result (λ shown. shown ≡ shown_in_join fields.now) }
{
    let mut shown = ListOf::new(alloc);
    for field in fields {
        shown.push(copied_field(alloc, &field.field.field)?)?;
    }
    Ok(shown)
}

/// The key fields, in the order of the key.
#[tactic(auto, using(crate::proofs::PathLemmas::joined, crate::proofs::PathLemmas::cons_option_is))]
pub(crate) fn key_fields(
    alloc: Global,
    fields: &[ViewField],
    parts: &[KeyPart],
) -> Result<ListOf<ViewField>, AllocError>
    ensures { IfOk result (λ shown. shown ≡ key_fields fields.now parts.now) }
{
    let mut shown = ListOf::new(alloc);
    for part in parts {
        add_field(alloc, fields, part, &mut shown)?;
    }
    Ok(shown)
}

/// Adds the field of a position, where there is one.
fn add_field(
    alloc: Global,
    fields: &[ViewField],
    part: &KeyPart,
    shown: &mut ListOf<ViewField>,
) -> Result<(), AllocError>
    ensures { OnOk result (shown.new ≡ shown.old ++ option_to_list (field_of_part fields.now part.now)) }
{
    match field_of_part(fields, *part) {
        Some(field) => {
            shown.push(copied_field(alloc, field)?)?;
            Ok(())
        }
        None => Ok(()),
    }
}

/// The field of a position.
fn field_of_part(fields: &[ViewField], part: KeyPart) -> Option<&ViewField>
    ensures { option_copied result ≡ field_of_part fields.now part }
{
    match part {
        KeyPart::Field { offset, .. } => field_from(fields, offset),
        KeyPart::Absent => None,
    }
}

/// The field that begins at this byte of the format.
fn field_from(fields: &[ViewField], at: u32) -> Option<&ViewField>
    ensures { option_copied result ≡ field_from at 0 fields.now }
{
    let mut rest = fields;
    let mut left = at as usize;
    while let [field, more @ ..] = rest {
        if 0 == left {
            return Some(field);
        }
        let Some(next) = left_behind(field, left) else {
            return None;
        };
        left = next;
        rest = more;
    }
    None
}

/// How many bytes are left behind a field on the way to a byte that it doesn't begin at; none where the byte lies within it.
fn left_behind(field: &ViewField, left: usize) -> Option<usize>
    requires { (0 == left) ≡ false }
    ensures { (more : List ViewField) → field_left result more ≡ field_from left 0 (field.now ∷ more) }
{
    let wide = fields::width(&field.ty);
    if left < wide { None } else { Some(left - wide) }
}
