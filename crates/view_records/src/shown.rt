//! What a format shows of a record of its base file.
ghost use Rattle.std.specs.Prelude.{◌≡◌, Some, map, IfOk};
ghost use Rattle.std.specs.List.{AllByRecursion};
ghost use Rattle.logical_model.specs.Formats.{shown_through};
ghost use Rattle.view_records.specs.Through.{HasValueIn, IsFormatOf, IsReadThrough, value_in};

use field_types::values::Value;
use file_model::views::LogicalField;
use logical_model::dds_logical::views::View;
use logical_paths::view_rules::viewing;
use std::alloc::{AllocError, Global};

/// The values that a format shows of a record of its base file, one for each of its fields. Memory is taken for them alone.
pub fn values_shown(alloc: Global, view: &View, image: &[u8]) -> Result<Vec<Value>, AllocError>
    requires read { IsReadThrough view.now image.now }
    requires format { IsFormatOf view.now }
    ensures { IfOk result (λ values. values.items ≡ (shown_through view.now image.now).values) }
{
    let values = values_of(alloc, view.mapping.as_slice(), image)?;
    Ok(values)
}

/// The values that a record shows in some fields, one for each.
fn values_of(alloc: Global, fields: &[LogicalField], image: &[u8]) -> Result<Vec<Value>, AllocError>
    requires { AllByRecursion (HasValueIn image.now) fields.now }
    ensures { IfOk result (λ values. map Some values.items ≡ map (value_in image.now) fields.now) }
{
    let mut values = Vec::with_capacity(alloc, fields.len())?;
    for logical in fields {
        values.push(viewing::value(alloc, &logical.field, image)?)?;
    }
    Ok(values)
}
