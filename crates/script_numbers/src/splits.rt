//! A number of units as a whole number of powers of ten, and the units that are left.
ghost use Rattle.std.specs.Prelude.{◌≡◌, ◌≤◌, ◌<◌, ◌^◌, pos, ◌+ℤ◌, ◌*ℤ◌, unsigned_abs};
ghost use Rattle.std.specs.Option.{SomeIff};
ghost use Rattle.script_numbers.specs.Arithmetic.{number_of};

use crate::units::number_of;
use field_types::values::Dec;

/// The most decimal places whose power of ten the type holds.
pub(crate) const MOST_PLACES: u8 = 38;

/// Units: `whole` times a power of ten, and `rest`.
#[derive(Clone, Copy)]
pub(crate) struct Split {
    pub whole: i128,
    pub rest: i128,
}

/// Ten to the power of the places, as far as the type goes.
fn power(places: u8) -> Option<i128>
    ensures { SomeIff result (places ≤ MOST_PLACES) (pos (10 ^ places)) }
{
    if places > MOST_PLACES {
        return None;
    }
    Some(10u128.pow(u32::from(places)) as i128)
}

impl Split {
    /// The parts of these units for this power of ten.
    pub fn new(units: i128, places: u8) -> Split
        ensures whole { result.whole *ℤ pos (10 ^ places) +ℤ result.rest ≡ units }
        ensures rest { unsigned_abs result.rest < 10 ^ places }
    {
        match power(places) {
            Some(power) => Split {
                whole: units / power,
                rest: units % power,
            },
            None => Split {
                whole: 0,
                rest: units,
            },
        }
    }

    /// The number that the parts make, where it isn't too long.
    pub fn joined(self, places: u8, scale: u8) -> Option<Dec>
        requires places { places ≤ 30 }
        requires rest { unsigned_abs self.rest < 10 ^ places }
        ensures { result ≡ number_of scale (self.whole *ℤ pos (10 ^ places) +ℤ self.rest) }
    {
        let Some(wholes) = self.whole.checked_mul(power(places)?) else {
            return None;
        };
        let units = wholes.checked_add(self.rest)?;
        number_of(u32::from(scale), units)
    }
}
