//! What a join shows of a row.
ghost use Rattle.std.specs.Prelude.{◌≡◌, ◌∷◌, ◌++◌, Some, List, map, IfOk, OnOk};
ghost use Rattle.std.specs.List.{AllByRecursion};
ghost use Rattle.dds_logical.specs.declared.join_views.JoinedField.{JoinedField};
ghost use Rattle.file_model.specs.Joins.{JoinRow, image_in, row_image};
ghost use Rattle.logical_model.specs.Bases.{Bases};
ghost use Rattle.logical_model.specs.FilePaths.{join_of};
ghost use Rattle.logical_model.specs.Formats.{values_shown, visible};
ghost use Rattle.join_records.specs.Shown.{HasValueIn, IsShownBy, visible_in};

use dds_logical::join_views::{JoinView, JoinedField};
use field_types::values::Value;
use logical_paths::view_rules::viewing;
use std::alloc::{AllocError, Global};

/// The values that a join shows of a row of these records, the primary's first, in the order of JFILE: one for each field that is
/// shown.
pub fn values_shown(
    alloc: Global,
    view: &JoinView,
    images: &[&[u8]],
) -> Result<Vec<Value>, AllocError>
    requires { IsShownBy view.now (map (λ image. image.now) images.now) }
    ensures { (bases : Bases) (row : JoinRow) → row.images ≡ map (λ image. image.now) images.now
        → IfOk result (λ values. values.items ≡ visible view.now.fields (values_shown view.now.format.fields (row_image (join_of bases view.now) row))) }
{
    let values = values_of(alloc, view.fields.as_slice(), images)?;
    Ok(values)
}

/// The values that a row has in those of some fields that are shown.
fn values_of(
    alloc: Global,
    fields: &[JoinedField],
    images: &[&[u8]],
) -> Result<Vec<Value>, AllocError>
    requires { AllByRecursion (HasValueIn (map (λ image. image.now) images.now)) fields.now }
    ensures { IfOk result (λ values. map Some values.items ≡ visible_in (map (λ image. image.now) images.now) fields.now) }
{
    let mut values = Vec::new(alloc);
    for field in fields {
        add_value(alloc, field, images, &mut values)?;
    }
    Ok(values)
}

/// Adds the value of a field, where it is shown.
fn add_value(
    alloc: Global,
    field: &JoinedField,
    images: &[&[u8]],
    values: &mut Vec<Value>,
) -> Result<(), AllocError>
    requires { HasValueIn (map (λ image. image.now) images.now) field.now }
    ensures { OnOk result ((rest : List JoinedField) → map Some values.new.items ++ visible_in (map (λ image. image.now) images.now) rest
        ≡ map Some values.old.items ++ visible_in (map (λ image. image.now) images.now) (field.now ∷ rest)) }
{
    if field.shown {
        let image = image_in(images, field.field.file);
        values.push(viewing::value(alloc, &field.field.field, image)?)?;
        Ok(())
    } else {
        Ok(())
    }
}

/// The record of a file in a row, by its place in JFILE.
fn image_in<'a>(images: &[&'a [u8]], file: u32) -> &'a [u8]
    ensures { result.now ≡ image_in file (map (λ image. image.now) images.now) }
{
    match images.get(file as usize) {
        Some(image) => *image,
        None => &[],
    }
}
