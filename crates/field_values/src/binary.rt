//! Binary: two's complement, the high byte first, within the digits of its field. Its rule stands in `specs/Binary.antt`.
ghost use Rattle.std.specs.Prelude.{◌≡◌, ℕ, ◌*◌, ◌<◌, ◌≤◌, ◌^◌, ◌&&◌, ◌==◌, is_some, length, unsigned_abs};
ghost use Rattle.field_values.specs.FieldTypes.{binary_width};
ghost use Rattle.field_values.specs.Digits.{number_in};
ghost use Rattle.field_values.specs.Binary.{twos_complement, binary_number, binary_bytes};
ghost use Rattle.field_values.specs.FirstBad.{TellsFirstBad};

use crate::bounds;
use byteorder::{BigEndian, ByteOrder};

/// The bytes of a field of so many digits.
pub fn width(digits: usize) -> usize
    ensures { result ≡ binary_width digits }
{
    match digits {
        0..=4 => 2,
        5..=9 => 4,
        _ => 8,
    }
}

/// The first byte that no number of so many digits has there.
pub fn first_bad(digits: u32, image: &[u8]) -> Option<usize>
    requires digits { digits ≤ 18 }
    requires room { length image.now ≡ binary_width digits }
    ensures { TellsFirstBad (λ bytes. (length bytes == length image.now) && is_some (binary_number digits bytes)) image.now result }
{
    // With the sign's bit turned the bytes count from the least number up to the greatest.
    let mut turned = [0; 8];
    turned[..image.len()].copy_from_slice(image);
    turned[0] = turned[0].wrapping_add(0x80);
    let middle = 1 << (8 * image.len() - 1);
    let most = 10u64.pow(digits) - 1;
    bounds::first_outside(256, middle - most, middle + most, 0, &turned[..image.len()])
}

/// The number that stands there.
pub fn number(image: &[u8]) -> i64
    requires least { 1 ≤ length image.now }
    requires most { length image.now ≤ 8 }
    ensures { result ≡ twos_complement (length image.now) (number_in 256 image.now) }
{
    BigEndian::read_int(image, image.len())
}

/// Writes a number that fits.
pub fn write(units: i128, into: &mut [u8])
    requires least { 2 ≤ length into.old }
    requires most { length into.old ≤ 8 }
    requires fits { 2 * unsigned_abs units < 256 ^ length into.old }
    ensures { into.new ≡ binary_bytes (length into.old) units }
{
    let width = into.len();
    BigEndian::write_int(into, units as i64, width);
}
