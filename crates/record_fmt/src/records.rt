//! The values of a record, unpacked from its bytes. Their meaning stands in `specs/Records.antt`; `packing.rt` packs them.
ghost use Rattle.std.specs.Prelude.{◌≡◌, ◌↔◌, ℕ, ◌+◌, ◌≤◌, true, Some, is_some, length, IfOk, IsErrOf};
ghost use Rattle.field_values.specs.FieldTypes.{width};
ghost use Rattle.field_values.specs.FirstBad.{TellsFirstBad, part};
ghost use Rattle.record_fmt.specs.Layout.{record_length};
ghost use Rattle.record_fmt.specs.Records.{record_held, IsRecordBadAt};

use crate::formats::{Field, Format};
use field_types::faults::BadImage;
use field_types::values::Value;
use field_values::fields::{self, ImageFault};
use std::alloc::{AllocError, Global};

impl Format {
    /// The first byte with which no record of the format begins; `None` where the image is a record's.
    pub fn first_bad(&self, image: &[u8]) -> Option<usize>
        requires { length image.now ≡ record_length self.now.fields }
        ensures { TellsFirstBad (λ bytes. is_some (record_held self.now.fields bytes)) image.now result }
    {
        let fields = self.fields.as_slice();
        for field in fields {
            if let Some(at) = fields::first_bad(&field.ty, bytes_of(field, image)) {
                return Some(field.offset as usize + at);
            }
        }
        None
    }

    /// The values that stand in a record's image, one for each field.
    pub fn unpack(&self, alloc: Global, image: &[u8]) -> Result<Vec<Value>, ImageFault>
        requires { length image.now ≡ record_length self.now.fields }
        ensures values { IfOk result (λ v. record_held self.now.fields image.now ≡ Some v.items) }
        ensures bad { (at : ℕ) → IsErrOf result (ImageFault.BadImage (record { at = at })) ↔ IsRecordBadAt self.now.fields image.now at }
    {
        match self.first_bad(image) {
            Some(at) => Err(ImageFault::BadImage(BadImage { at })),
            None => Ok(self.values(alloc, image)?),
        }
    }

    /// The values that stand in an image in which one stands in each field, as `first_bad` tells.
    fn values(&self, alloc: Global, image: &[u8]) -> Result<Vec<Value>, AllocError>
        requires room { length image.now ≡ record_length self.now.fields }
        requires there { is_some (record_held self.now.fields image.now) ≡ true }
        ensures { IfOk result (λ v. record_held self.now.fields image.now ≡ Some v.items) }
    {
        let fields = self.fields.as_slice();
        let mut values = Vec::with_capacity(alloc, fields.len())?;
        for field in fields {
            values.push(fields::value(alloc, &field.ty, bytes_of(field, image))?)?;
        }
        Ok(values)
    }
}

/// The bytes of a field in a record.
fn bytes_of<'a>(field: &Field, image: &'a [u8]) -> &'a [u8]
    requires { field.now.offset + width field.now.ty ≤ length image.now }
    ensures { result.now ≡ part field.now.offset (width field.now.ty) image.now }
{
    let from = field.offset as usize;
    &image[from..from + fields::width(&field.ty)]
}
