//! Products.
ghost use Rattle.std.specs.Prelude.{◌≡◌};
ghost use Rattle.script_numbers.specs.Arithmetic.{product_of};

use crate::units::number_of;
use crate::zeros::without_zeros;
use field_types::values::Dec;

/// The product, where it isn't too long.
pub fn product(left: Dec, right: Dec) -> Option<Dec>
    ensures { result ≡ product_of left right }
{
    let left = without_zeros(left);
    let right = without_zeros(right);
    let units = left.units.checked_mul(right.units)?;
    let scale = u32::from(left.scale) + u32::from(right.scale);
    number_of(scale, units).map(without_zeros)
}
