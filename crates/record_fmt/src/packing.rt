//! The bytes of a record, packed from the values of its fields. Their meaning stands in `specs/Records.antt`; `records.rt` unpacks them.
ghost use Rattle.std.specs.Prelude.{◌≡◌, ◌≢◌, ◌↔◌, ◌+◌, ◌<◌, ◌≤◌, ◌++◌, None, slice_index_or, length, take, drop, IfOk, OnOk, MatchResult, IsErrOf};
ghost use Rattle.std.specs.Option.{ForSome, option_copied};
ghost use Rattle.std.specs.Result.{result_err};
ghost use Rattle.field_values.specs.FieldTypes.{IsFieldType, width};
ghost use Rattle.field_values.specs.FieldBytes.{written, fault_of};
ghost use Rattle.record_fmt.specs.Layout.{record_length, IsLaidOut};
ghost use Rattle.record_fmt.specs.Records.{record_written, record_given, fields_given, Packs};
ghost use Rattle.record_fmt.specs.Choice.{given_of, chosen, refused_by, put_over, kept, StartsAs};

use crate::formats::{Field, Format, PackFault};
use field_types::faults::{RecordFault, ValueFault};
use field_types::values::Value;
use field_values::fields;
use std::alloc::{AllocError, Global};

impl Format {
    /// The image of a record with these values, one for each field. It takes memory once, for the image.
    pub fn pack(&self, alloc: Global, values: &[Value]) -> Result<Vec<u8>, PackFault>
        ensures packed { Packs (record_written self.now.fields values.now) result }
        ensures count { IsErrOf result (PackFault.Refused RecordFault.Count) ↔ (length values.now ≢ length self.now.fields) }
        ensures length { IfOk result (λ image. length image.items ≡ record_length self.now.fields) }
    {
        self.pack_values(alloc, Values::All(values), None)
    }

    /// The image of a record with the given values. A field whose value isn't given keeps what stands in the old image, or takes its default
    /// value where there is none. It takes memory once, for the image.
    pub fn pack_given(
        &self,
        alloc: Global,
        given: &[Option<Value>],
        old: Option<&[u8]>,
    ) -> Result<Vec<u8>, PackFault>
        requires { ForSome old (λ image. length image.now ≡ record_length self.now.fields) }
        ensures packed { Packs (record_given self.now.fields given.now (option_copied old.entry)) result }
        ensures count { IsErrOf result (PackFault.Refused RecordFault.Count) ↔ (length given.now ≢ length self.now.fields) }
        ensures length { IfOk result (λ image. length image.items ≡ record_length self.now.fields) }
    {
        self.pack_values(alloc, Values::Given(given), old)
    }

    /// Why the given values make no record, as `pack_given` answers it; `None` where they make one.
    pub fn first_refused(&self, given: &[Option<Value>], old: Option<&[u8]>) -> Option<RecordFault>
        ensures { result ≡ result_err (record_given self.now.fields given.now (option_copied old.entry)) }
    {
        let fields = self.fields.as_slice();
        if given.len() != fields.len() {
            return Some(RecordFault::Count);
        }
        first_refused(fields, Values::Given(given), old)
    }

    fn pack_values(
        &self,
        alloc: Global,
        values: Values,
        old: Option<&[u8]>,
    ) -> Result<Vec<u8>, PackFault>
        requires { ForSome old (λ image. length image.now ≡ record_length self.now.fields) }
        ensures packed { Packs (record_given self.now.fields (given_of values.entry) (option_copied old.entry)) result }
        ensures count { IsErrOf result (PackFault.Refused RecordFault.Count) ↔ (length (given_of values.entry) ≢ length self.now.fields) }
        ensures length { IfOk result (λ image. length image.items ≡ record_length self.now.fields) }
    {
        let fields = self.fields.as_slice();
        if values.len() != fields.len() {
            return Err(PackFault::Refused(RecordFault::Count));
        }
        let Ok(mut image) = start(alloc, old, self.length() as usize) else {
            return Err(without_image(fields, values, old));
        };
        match fill(fields, values, old.is_some(), image.as_mut_slice()) {
            Ok(()) => Ok(image),
            Err(fault) => Err(PackFault::Refused(fault)),
        }
    }
}

/// The values that a record is made of: one for each field, all of them or some.
#[derive(Clone, Copy)]
enum Values<'a> {
    All(&'a [Value]),
    Given(&'a [Option<Value>]),
}

impl<'a> Values<'a> {
    ghost use Rattle.std.specs.Prelude.{◌≡◌, ◌<◌, length};
    ghost use Rattle.record_fmt.specs.Choice.{given_of};

    fn len(self) -> usize
        ensures { result ≡ length (given_of self.entry) }
    {
        match self {
            Values::All(values) => values.len(),
            Values::Given(given) => given.len(),
        }
    }

    fn get(self, i: usize) -> Option<&'a Value>
        requires { i < length (given_of self) }
        ensures { option_copied result ≡ slice_index_or (given_of self.entry) i None }
    {
        match self {
            Values::All(values) => Some(&values[i]),
            Values::Given(given) => given[i].as_ref(),
        }
    }
}

/// The value that a field gets: the given one, or in a new record its default; `None` where it keeps its bytes.
fn chosen<'a>(field: &'a Field, given: Option<&'a Value>, keeps: bool) -> Option<&'a Value>
    ensures { option_copied result ≡ chosen field.now (option_copied given.entry) keeps }
{
    match given {
        Some(value) => Some(value),
        None if keeps => None,
        None => Some(&field.default),
    }
}

/// The bytes that an image begins with: those of the old one, or as many.
fn start(alloc: Global, old: Option<&[u8]>, length: usize) -> Result<Vec<u8>, AllocError>
    ensures { IfOk result (λ image. StartsAs (option_copied old.entry) length image.items) }
{
    match old {
        Some(bytes) => Vec::from_slice(alloc, bytes),
        None => vec![in alloc; 0; length],
    }
}

/// The answer where there is no memory for the image: it hides no refusal.
fn without_image(fields: &[Field], values: Values, old: Option<&[u8]>) -> PackFault
    requires laid { IsLaidOut fields.now }
    requires same { length (given_of values) ≡ length fields.now }
    ensures packed { Packs (fields_given 1 fields.now (given_of values.entry) (option_copied old.entry)) (Err result) }
    ensures count { result ≢ PackFault.Refused RecordFault.Count }
{
    match first_refused(fields, values, old) {
        Some(fault) => PackFault::Refused(fault),
        None => PackFault::NoMemory,
    }
}

/// The first field that refuses its value.
fn first_refused(fields: &[Field], values: Values, old: Option<&[u8]>) -> Option<RecordFault>
    requires laid { IsLaidOut fields.now }
    requires same { length (given_of values) ≡ length fields.now }
    ensures { result ≡ result_err (fields_given 1 fields.now (given_of values.entry) (option_copied old.entry)) }
{
    let keeps = old.is_some();
    for i in 0..fields.len() {
        if let Some(cause) = refused(&fields[i], values.get(i), keeps) {
            return Some(bad_field(i, cause));
        }
    }
    None
}

/// Puts the values into their places, up to the first field that refuses its own.
fn fill(fields: &[Field], values: Values, keeps: bool, image: &mut [u8]) -> Result<(), RecordFault>
    requires laid { IsLaidOut fields.now }
    requires same { length (given_of values) ≡ length fields.now }
    requires room { length image.old ≡ record_length fields.now }
    ensures { let wanted = fields_given 1 fields.now (given_of values.entry) (kept keeps image.old) in MatchResult result (λ _. wanted ≡ Ok image.new) (λ fault. wanted ≡ Err fault) }
{
    for i in 0..fields.len() {
        if let Err(cause) = put_given(&fields[i], values.get(i), keeps, image) {
            return Err(bad_field(i, cause));
        }
    }
    Ok(())
}

fn bad_field(i: usize, cause: ValueFault) -> RecordFault
    requires { i < 65535 }
    ensures { result ≡ RecordFault.BadField (i + 1) cause }
{
    RecordFault::BadField {
        field: i as u16 + 1,
        cause,
    }
}

/// Why a field refuses the value that it gets.
fn refused(field: &Field, given: Option<&Value>, keeps: bool) -> Option<ValueFault>
    requires { IsFieldType field.now.ty }
    ensures { result ≡ refused_by field.now (chosen field.now (option_copied given.entry) keeps) }
{
    match chosen(field, given, keeps) {
        Some(value) => fields::fault(&field.ty, value),
        None => None,
    }
}

/// Puts the value that a field gets into its place.
fn put_given(
    field: &Field,
    given: Option<&Value>,
    keeps: bool,
    image: &mut [u8],
) -> Result<(), ValueFault>
    requires allowed { IsFieldType field.now.ty }
    requires room { field.now.offset + width field.now.ty ≤ length image.old }
    ensures put { OnOk result (image.new ≡ put_over field.now (chosen field.now (option_copied given.entry) keeps) image.old) }
    ensures refused { result_err result ≡ refused_by field.now (chosen field.now (option_copied given.entry) keeps) }
{
    match chosen(field, given, keeps) {
        Some(value) => put_field(field, value, image),
        None => Ok(()),
    }
}

/// Puts a value into its field of a record.
fn put_field(field: &Field, value: &Value, image: &mut [u8]) -> Result<(), ValueFault>
    requires allowed { IsFieldType field.now.ty }
    requires room { field.now.offset + width field.now.ty ≤ length image.old }
    ensures written { OnOk result (image.new ≡ take field.now.offset image.old ++ written field.now.ty value.now ++ drop (field.now.offset + width field.now.ty) image.old) }
    ensures refused { result_err result ≡ fault_of field.now.ty value.now }
{
    let from = field.offset as usize;
    let end = from + fields::width(&field.ty);
    fields::put(&field.ty, value, &mut image[from..end])
}
