//! Numbers without the zeros that end their decimals, and whole numbers.
ghost use Rattle.std.specs.Prelude.{◌≡◌};
ghost use Rattle.script_numbers.specs.Arithmetic.{without_zeros, whole_of};

use field_types::values::Dec;

/// The number without the zeros that end its decimals.
pub(crate) fn without_zeros(number: Dec) -> Dec
    ensures { result ≡ without_zeros number }
{
    let mut units = number.units;
    let mut scale = number.scale;
    while scale > 0 && units % 10 == 0 {
        units /= 10;
        scale -= 1;
    }
    Dec { units, scale }
}

/// The whole number from 0 on that this number is; `None` where it is none.
pub fn whole(number: Dec) -> Option<u128>
    ensures { result ≡ whole_of number }
{
    let Dec { units, scale } = without_zeros(number);
    if scale == 0 && units >= 0 {
        Some(units as u128)
    } else {
        None
    }
}
