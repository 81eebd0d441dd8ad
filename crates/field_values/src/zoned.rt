//! Zoned decimal: one byte a digit. Its rule stands in `specs/Zoned.antt`; `packed.rt` is built alike.
ghost use Rattle.std.specs.Prelude.{◌≡◌, ◌<◌, ◌≤◌, ◌&&◌, ◌==◌, not, map, position, length, unsigned_abs};
ghost use Rattle.field_values.specs.Digits.{number_in, digits_in, high_half, low_half, last_byte, is_minus, signed, sign_of, is_negative};
ghost use Rattle.field_values.specs.Zoned.{is_zone_digit, is_signed_digit, is_zoned, zoned_bytes};
ghost use Rattle.field_values.specs.FirstBad.{TellsFirstBad};

use crate::decimals::{self, divided, high_half, is_minus, is_sign, low_half, sign_of, signed};

/// The first byte that no zoned number of this length has there.
pub fn first_bad(image: &[u8]) -> Option<usize>
    requires { 0 < length image.now }
    ensures { TellsFirstBad (λ bytes. (length bytes == length image.now) && is_zoned bytes) image.now result }
{
    let (last, front) = image.split_last()?;
    first_failing(front).or((!is_signed_digit(*last)).then_some(front.len()))
}

/// The number that stands there.
pub fn number(image: &[u8]) -> i128
    requires some { 0 < length image.now }
    requires few { length image.now ≤ 31 }
    ensures { result ≡ signed (is_minus (high_half (last_byte image.now))) (number_in 10 (map low_half image.now)) }
{
    let last = image[image.len() - 1];
    signed(is_minus(high_half(last)), decimals::number(image))
}

/// Writes a number that fits.
pub fn write(units: i128, into: &mut [u8])
    ensures { into.new ≡ zoned_bytes (digits_in 10 (length into.old) (unsigned_abs units)) (sign_of (is_negative units)) }
{
    let mut rest = units.unsigned_abs();
    let mut zone = sign_of(units);
    let mut at = into.len();
    while at > 0 {
        at -= 1;
        let (more, digit) = divided(rest, 10);
        into[at] = 16 * zone + digit as u8;
        rest = more;
        zone = 15;
    }
}

fn first_failing(front: &[u8]) -> Option<usize>
    ensures { result ≡ position (λ byte. not (is_zone_digit byte)) front.now }
{
    front.iter().position(|&byte| !is_zone_digit(byte))
}

fn is_zone_digit(byte: u8) -> bool
    ensures { result ≡ is_zone_digit byte }
{
    low_half(byte) < 10 && high_half(byte) == 15
}

fn is_signed_digit(byte: u8) -> bool
    ensures { result ≡ is_signed_digit byte }
{
    low_half(byte) < 10 && is_sign(high_half(byte))
}
