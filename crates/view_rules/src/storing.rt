//! The record that values make which are given through a logical format.
ghost use Rattle.std.specs.Prelude.{◌≡◌, ◌<◌, ◌≤◌, None, Ok, length, IfOk};
ghost use Rattle.std.specs.Option.{ForSome, option_copied};
ghost use Rattle.std.specs.List.{AllByRecursion};
ghost use Rattle.file_model.specs.Layout.{record_length, IsLaidOut};
ghost use Rattle.file_model.specs.Records.{Packs};
ghost use Rattle.file_model.specs.Views.{base_image, default_image, old_or_default};
ghost use Rattle.view_rules.specs.Stored.{HasDefault, IsStored, first_refused, with_values, with_value, refused_by};

use crate::placing::put_value;
use crate::refusals::first_refused;
use crate::viewing::show_value;
use field_types::faults::RecordFault;
use field_types::values::Value;
use file_model::record_fmt::formats::{Field, Format, PackFault};
use file_model::views::LogicalField;
use std::alloc::{AllocError, Global};

/// The record of the base file that values make which are given through a logical format, over the old record where one
/// is changed. They are put in order, so that of two over one place the later one counts.
pub fn base(
    alloc: Global,
    format: &Format,
    fields: &[LogicalField],
    given: &[Option<Value>],
    old: Option<&[u8]>,
) -> Result<Vec<u8>, PackFault>
    requires old { ForSome old (λ image. length image.now ≡ record_length format.now.fields) }
    requires defaults { AllByRecursion HasDefault format.now.fields }
    requires stored { AllByRecursion (IsStored (record_length format.now.fields)) fields.now }
    requires few { length fields.now < 65536 }
    ensures packed { Packs (base_image format.now.fields fields.now given.now (option_copied old.entry)) result }
    ensures length { IfOk result (λ image. length image.items ≡ record_length format.now.fields) }
{
    if given.len() != fields.len() {
        return Err(PackFault::Refused(RecordFault::Count));
    }
    if let Some(fault) = first_refused(fields, given) {
        return Err(PackFault::Refused(fault));
    }
    let Ok(mut image) = start(alloc, format.fields.as_slice(), old) else {
        return Err(PackFault::NoMemory);
    };
    put_given(fields, given, image.as_mut_slice());
    Ok(image)
}

/// The old record, or one of default values.
fn start(alloc: Global, fields: &[Field], old: Option<&[u8]>) -> Result<Vec<u8>, AllocError>
    requires old { ForSome old (λ image. length image.now ≡ record_length fields.now) }
    requires laid { IsLaidOut fields.now }
    requires defaults { AllByRecursion HasDefault fields.now }
    ensures image { IfOk result (λ v. v.items ≡ old_or_default fields.now (option_copied old.entry)) }
    ensures length { IfOk result (λ v. length v.items ≡ record_length fields.now) }
{
    match old {
        Some(image) => Vec::from_slice(alloc, image),
        None => defaults(alloc, fields),
    }
}

/// A record of default values.
fn defaults(alloc: Global, fields: &[Field]) -> Result<Vec<u8>, AllocError>
    requires laid { IsLaidOut fields.now }
    requires defaults { AllByRecursion HasDefault fields.now }
    ensures image { IfOk result (λ v. v.items ≡ default_image fields.now) }
    ensures length { IfOk result (λ v. length v.items ≡ record_length fields.now) }
{
    let mut image = Vec::new(alloc);
    for field in fields {
        show_value(&field.ty, &field.default, &mut image)?;
    }
    Ok(image)
}

/// Puts the given values into their places, in order.
fn put_given(fields: &[LogicalField], given: &[Option<Value>], image: &mut [u8])
    requires same { length given.now ≡ length fields.now }
    requires stored { AllByRecursion (IsStored (length image.old)) fields.now }
    requires accepted { first_refused 1 fields.now given.now ≡ None }
    ensures { image.new ≡ with_values fields.now given.now image.old }
{
    for i in 0..fields.len() {
        put(&fields[i], &given[i], image);
    }
}

/// Puts a value into its place, where it is given.
fn put(field: &LogicalField, given: &Option<Value>, image: &mut [u8])
    requires stored { IsStored (length image.old) field.now }
    requires accepted { refused_by field.now given.now ≡ None }
    ensures { image.new ≡ with_value field.now given.now image.old }
{
    if let Some(value) = given {
        put_value(&field.field, value, image);
    }
}
