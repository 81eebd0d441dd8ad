//! The order of two values: numbers by value, texts with blanks behind the shorter.
ghost use Rattle.std.specs.Prelude.{◌≡◌, ◌≤◌, ◌-◌, ◌^◌, pos, ◌*ℤ◌, slice_index_or};
ghost use Rattle.std.specs.Ordering.{int_cmp};
ghost use Rattle.script_numbers.specs.Order.{number_order, text_order, order_of};

use crate::splits::Split;
use field_types::values::{Dec, Value};
use std::cmp::Ordering;

/// The blank of code page 037.
pub const BLANK: u8 = 0x40;

/// How two values compare; `None` for a number and a text.
pub fn order(left: &Value, right: &Value) -> Option<Ordering>
    ensures { result ≡ order_of left.now right.now }
{
    match (left, right) {
        (Value::Number(left), Value::Number(right)) => Some(number_order(*left, *right)),
        (Value::Chars(left), Value::Chars(right)) => {
            Some(text_order(left.as_bytes(), right.as_bytes()))
        }
        (Value::Number(_), Value::Chars(_)) | (Value::Chars(_), Value::Number(_)) => None,
    }
}

fn number_order(left: Dec, right: Dec) -> Ordering
    ensures { result ≡ number_order left right }
{
    if left.scale <= right.scale {
        order_with_finer(left, right)
    } else {
        order_with_finer(right, left).reverse()
    }
}

fn order_with_finer(coarse: Dec, fine: Dec) -> Ordering
    requires { coarse.scale ≤ fine.scale }
    ensures { result ≡ int_cmp (coarse.units *ℤ pos (10 ^ (fine.scale - coarse.scale))) fine.units }
{
    let Split { whole, rest } = Split::new(fine.units, fine.scale - coarse.scale);
    coarse.units.cmp(&whole).then(0.cmp(&rest))
}

fn text_order(left: &[u8], right: &[u8]) -> Ordering
    ensures { result ≡ text_order left.now right.now }
{
    for place in 0..left.len().max(right.len()) {
        let order = byte_at(left, place).cmp(&byte_at(right, place));
        if order.is_ne() {
            return order;
        }
    }
    Ordering::Equal
}

fn byte_at(text: &[u8], place: usize) -> u8
    ensures { result ≡ slice_index_or text.now place BLANK }
{
    text.get(place).copied().unwrap_or(BLANK)
}
