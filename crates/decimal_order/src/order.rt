//! Which of two decimal numbers is the less, by value. Its rule stands in `specs/DecimalOrder.antt`.
ghost use Rattle.std.specs.Prelude.{◌≡◌, ◌*◌, ◌^◌, unsigned_abs};
ghost use Rattle.std.specs.Ordering.{nat_cmp};
ghost use Rattle.decimal_order.specs.DecimalOrder.{compare_numbers, is_below_zero};

use crate::powers::widened;
use field_types::values::Dec;
use std::cmp::Ordering;

/// Compares two numbers by value: 1.50 and 1.5 are equal. Any units and scales will do.
pub fn compare(a: Dec, b: Dec) -> Ordering
    ensures { result ≡ compare_numbers a b }
{
    match (is_below_zero(a), is_below_zero(b)) {
        (false, false) => compare_magnitudes(a, b),
        (false, true) => Ordering::Greater,
        (true, false) => Ordering::Less,
        (true, true) => compare_magnitudes(b, a),
    }
}

fn is_below_zero(number: Dec) -> bool
    ensures { result ≡ is_below_zero number.units }
{
    number.units < 0
}

/// Compares two numbers without their signs.
fn compare_magnitudes(a: Dec, b: Dec) -> Ordering
    ensures { result ≡ nat_cmp (unsigned_abs a.units * 10 ^ b.scale) (unsigned_abs b.units * 10 ^ a.scale) }
{
    let left = a.units.unsigned_abs();
    let right = b.units.unsigned_abs();
    if a.scale <= b.scale {
        compare_widened(left, b.scale - a.scale, right)
    } else {
        compare_widened(right, a.scale - b.scale, left).reverse()
    }
}

/// Compares the left magnitude with so many zeros behind it to the right one.
fn compare_widened(left: u128, digits: u8, right: u128) -> Ordering
    ensures { result ≡ nat_cmp (left * 10 ^ digits) right }
{
    match widened(left, digits) {
        Some(left) => left.cmp(&right),
        // It has more than 128 bits, and the other one has not.
        None => Ordering::Greater,
    }
}
