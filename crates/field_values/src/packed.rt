//! Packed decimal: two digits a byte, and the sign in the last half byte. Its rule stands in `specs/Packed.antt`.
ghost use Rattle.std.specs.Prelude.{◌≡◌, ℕ, ◌*◌, ◌-◌, ◌<◌, ◌≤◌, ◌&&◌, ◌==◌, not, position, length, unsigned_abs};
ghost use Rattle.field_values.specs.FieldTypes.{packed_width};
ghost use Rattle.field_values.specs.Digits.{number_in, digits_in, low_half, last_byte, is_minus, signed, sign_of, is_negative};
ghost use Rattle.field_values.specs.Packed.{is_digit_pair, is_digit_sign, is_packed, is_spare_clear, packed_digits, packed_bytes};
ghost use Rattle.field_values.specs.FirstBad.{TellsFirstBad};

use crate::decimals::{divided, high_half, is_minus, is_sign, low_half, sign_of, signed};

/// The first byte that no packed number of so many digits has there.
pub fn first_bad(digits: usize, image: &[u8]) -> Option<usize>
    requires some { 1 ≤ digits }
    requires room { length image.now ≡ packed_width digits }
    ensures { TellsFirstBad (λ bytes. (length bytes == length image.now) && (is_packed bytes && is_spare_clear digits bytes)) image.now result }
{
    if !is_spare_clear(digits, image) {
        return Some(0);
    }
    let (last, front) = image.split_last()?;
    first_failing(front).or((!is_digit_sign(*last)).then_some(front.len()))
}

/// The number that stands there.
pub fn number(image: &[u8]) -> i128
    requires some { 0 < length image.now }
    requires few { length image.now ≤ 16 }
    ensures { result ≡ signed (is_minus (low_half (last_byte image.now))) (number_in 10 (packed_digits image.now)) }
{
    let at_last = image.len() - 1;
    let last = image[at_last];
    let front = &image[..at_last];
    let mut magnitude = 0;
    for &byte in front {
        magnitude = magnitude * 100 + u128::from(10 * high_half(byte) + low_half(byte));
    }
    magnitude = magnitude * 10 + u128::from(high_half(last));
    signed(is_minus(low_half(last)), magnitude)
}

/// Writes a number that fits.
pub fn write(units: i128, into: &mut [u8])
    requires { 0 < length into.old }
    ensures { into.new ≡ packed_bytes (digits_in 10 (2 * length into.old - 1) (unsigned_abs units)) (sign_of (is_negative units)) }
{
    let (mut rest, digit) = divided(units.unsigned_abs(), 10);
    let mut at = into.len() - 1;
    into[at] = 16 * digit as u8 + sign_of(units);
    while at > 0 {
        at -= 1;
        let (more, pair) = divided(rest, 100);
        into[at] = 16 * (pair as u8 / 10) + pair as u8 % 10;
        rest = more;
    }
}

fn is_spare_clear(digits: usize, image: &[u8]) -> bool
    requires { 0 < length image.now }
    ensures { result ≡ is_spare_clear digits image.now }
{
    digits % 2 == 1 || high_half(image[0]) == 0
}

fn first_failing(front: &[u8]) -> Option<usize>
    ensures { result ≡ position (λ byte. not (is_digit_pair byte)) front.now }
{
    front.iter().position(|&byte| !is_digit_pair(byte))
}

fn is_digit_pair(byte: u8) -> bool
    ensures { result ≡ is_digit_pair byte }
{
    high_half(byte) < 10 && low_half(byte) < 10
}

fn is_digit_sign(byte: u8) -> bool
    ensures { result ≡ is_digit_sign byte }
{
    high_half(byte) < 10 && is_sign(low_half(byte))
}
