//! Whether bytes are a record of a format.
ghost use Rattle.std.specs.Prelude.{◌≡◌};
ghost use Rattle.named_bases.specs.Sources.{is_record_of};

use record_fmt::formats::Format;

/// Whether the bytes are a record of the format: as long, with a value in each field.
pub(crate) fn is_record_of(format: &Format, image: &[u8]) -> bool
    ensures { result ≡ is_record_of format.now.fields image.now }
{
    image.len() == format.length() as usize && format.first_bad(image).is_none()
}
