//! The bound on the digits of a result.
ghost use Rattle.std.specs.Prelude.{◌≡◌};
ghost use Rattle.script_numbers.specs.Arithmetic.{number_of};

use field_types::values::Dec;

/// The most digits of a result, as it is printed.
pub const MOST_DIGITS: u32 = 31;

/// The number, where it isn't too long.
pub(crate) fn number_of(scale: u32, units: i128) -> Option<Dec>
    ensures { result ≡ number_of scale units }
{
    if units.unsigned_abs() < 10u128.pow(MOST_DIGITS) && scale < MOST_DIGITS {
        Some(Dec {
            units,
            scale: scale as u8,
        })
    } else {
        None
    }
}
