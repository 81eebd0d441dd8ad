//! Digits, half bytes and signs, of which zoned and packed numbers are made, and the scaling of a number.
ghost use Rattle.std.specs.Prelude.{◌≡◌, ℕ, ◌*◌, ◌<◌, ◌≤◌, ◌^◌, map, length, ◌%◌, ◌/◌, nat_le, IfOk, unsigned_abs};
ghost use Rattle.std.specs.Option.{SomeIff};
ghost use Rattle.std.specs.Result.{result_err};
ghost use Rattle.field_values.specs.Digits.{number_in, high_half, low_half, is_minus, is_sign, sign_of, signed, is_negative};
ghost use Rattle.field_values.specs.FieldBytes.{units_at, number_fault, Rescaled};

use decimal_order::field_types::faults::ValueFault;
use decimal_order::field_types::values::Dec;
use decimal_order::powers::{power_of_ten, widened};

/// The most digits that a number has.
pub const MOST_DIGITS: u32 = 31;

/// The greatest number of 64 bits.
const NARROW: u128 = u64::MAX as u128;

pub fn high_half(byte: u8) -> u8
    ensures value { result ≡ high_half byte }
    ensures bound { result < 16 }
{
    byte / 16
}

pub fn low_half(byte: u8) -> u8
    ensures value { result ≡ low_half byte }
    ensures bound { result < 16 }
{
    byte % 16
}

/// Whether the half byte is the sign of a number below 0.
pub fn is_minus(sign: u8) -> bool
    ensures { result ≡ is_minus sign }
{
    sign == 0xB || sign == 0xD
}

/// Whether the half byte is a sign.
pub fn is_sign(sign: u8) -> bool
    ensures { result ≡ is_sign sign }
{
    matches!(sign, 0xA | 0xC | 0xE | 0xF) || is_minus(sign)
}

/// The sign that is written for a number.
pub fn sign_of(units: i128) -> u8
    ensures value { result ≡ sign_of (is_negative units) }
    ensures bound { result < 16 }
{
    if is_negative(units) { 0xD } else { 0xF }
}

fn is_negative(units: i128) -> bool
    ensures { result ≡ is_negative units }
{
    units < 0
}

/// The number with its sign.
pub fn signed(negative: bool, magnitude: u128) -> i128
    requires { magnitude < 2 ^ 127 }
    ensures { result ≡ signed negative magnitude }
{
    let number = magnitude as i128;
    if negative { -number } else { number }
}

/// The number that the low half bytes are, the highest digit first.
pub fn number(digits: &[u8]) -> u128
    requires { length digits.now ≤ MOST_DIGITS }
    ensures value { result ≡ number_in 10 (map low_half digits.now) }
    ensures bound { result ≤ 2 * 10 ^ length digits.now }
{
    let mut number = 0;
    for &byte in digits {
        number = number * 10 + u128::from(low_half(byte));
    }
    number
}

/// The number in units of a field's last decimal position.
pub fn units_at(number: Dec, digits: u32, decimals: u8) -> Result<i128, ValueFault>
    requires digits { digits ≤ MOST_DIGITS }
    requires decimals { decimals ≤ MOST_DIGITS }
    ensures units { IfOk result (λ units. units ≡ units_at decimals number) }
    ensures small { IfOk result (λ units. unsigned_abs units < 10 ^ digits) }
    ensures refused { result_err result ≡ number_fault digits decimals number }
{
    let magnitude = scaled(number.units.unsigned_abs(), number.scale, decimals)?;
    if is_too_wide(magnitude, digits as u8) {
        return Err(ValueFault::TooWide);
    }
    Ok(signed(is_negative(number.units), magnitude))
}

/// Whether the magnitude has more digits.
fn is_too_wide(magnitude: u128, digits: u8) -> bool
    ensures { result ≡ nat_le (10 ^ digits) magnitude }
{
    match power_of_ten(digits) {
        Some(power) => power <= magnitude,
        None => false,
    }
}

/// The magnitude with `decimals` digits behind the point in place of `scale`.
fn scaled(magnitude: u128, scale: u8, decimals: u8) -> Result<u128, ValueFault>
    requires { decimals ≤ MOST_DIGITS }
    ensures { Rescaled magnitude scale decimals result }
{
    if scale <= decimals {
        widened(magnitude, decimals - scale).ok_or(ValueFault::TooWide)
    } else {
        narrowed(magnitude, scale - decimals).ok_or(ValueFault::TooManyDecimals)
    }
}

/// The magnitude with so many digits less; `None` where one of them isn't 0.
fn narrowed(magnitude: u128, digits: u8) -> Option<u128>
    ensures { SomeIff result (magnitude % 10 ^ digits ≡ 0) (magnitude / 10 ^ digits) }
{
    let Some(power) = power_of_ten(digits) else {
        return (magnitude == 0).then_some(0);
    };
    let (quotient, rest) = divided(magnitude, power);
    (rest == 0).then_some(quotient)
}

/// The quotient and the rest: in 64 bits where both numbers fit, as most do.
#[inline]
pub fn divided(number: u128, by: u128) -> (u128, u128)
    requires { 0 < by }
    ensures quotient { result.0 ≡ number / by }
    ensures rest { result.1 ≡ number % by }
{
    if number <= NARROW && by <= NARROW {
        let (number, by) = (number as u64, by as u64);
        (u128::from(number / by), u128::from(number % by))
    } else {
        (number / by, number % by)
    }
}
