//! Sums and differences.
ghost use Rattle.std.specs.Prelude.{◌≡◌, ◌≤◌};
ghost use Rattle.script_numbers.specs.Arithmetic.{sum_of, difference_of};

use crate::splits::Split;
use crate::units::MOST_DIGITS;
use field_types::values::Dec;

/// The sum, where it isn't too long.
pub fn sum(left: Dec, right: Dec) -> Option<Dec>
    ensures { result ≡ sum_of left right }
{
    if left.scale <= right.scale {
        sum_with_finer(left, right)
    } else {
        sum_with_finer(right, left)
    }
}

fn sum_with_finer(coarse: Dec, fine: Dec) -> Option<Dec>
    requires { coarse.scale ≤ fine.scale }
    ensures { result ≡ sum_of coarse fine }
{
    if u32::from(fine.scale) >= MOST_DIGITS {
        return None;
    }
    let places = fine.scale - coarse.scale;
    let Split { whole, rest } = Split::new(fine.units, places);
    let Some(whole) = coarse.units.checked_add(whole) else {
        return None;
    };
    Split { whole, rest }.joined(places, fine.scale)
}

/// The difference, where it isn't too long.
pub fn difference(left: Dec, right: Dec) -> Option<Dec>
    ensures { result ≡ difference_of left right }
{
    if left.scale <= right.scale {
        difference_with_finer(left, right)
    } else {
        difference_with_coarser(left, right)
    }
}

fn difference_with_finer(left: Dec, right: Dec) -> Option<Dec>
    requires { left.scale ≤ right.scale }
    ensures { result ≡ difference_of left right }
{
    if u32::from(right.scale) >= MOST_DIGITS {
        return None;
    }
    let places = right.scale - left.scale;
    let Split { whole, rest } = Split::new(right.units, places);
    let Some(whole) = left.units.checked_sub(whole) else {
        return None;
    };
    let rest = -rest;
    Split { whole, rest }.joined(places, right.scale)
}

fn difference_with_coarser(left: Dec, right: Dec) -> Option<Dec>
    requires { right.scale ≤ left.scale }
    ensures { result ≡ difference_of left right }
{
    if u32::from(left.scale) >= MOST_DIGITS {
        return None;
    }
    let places = left.scale - right.scale;
    let Split { whole, rest } = Split::new(left.units, places);
    let Some(whole) = whole.checked_sub(right.units) else {
        return None;
    };
    Split { whole, rest }.joined(places, left.scale)
}
