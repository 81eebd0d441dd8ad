//! The powers of ten, by a table, and a magnitude with digits more.
ghost use Rattle.std.specs.Prelude.{◌*◌, ◌<◌, ◌^◌};
ghost use Rattle.std.specs.Option.{SomeIff};

/// The powers of ten that fit 128 bits, from 1 on.
static POWERS_OF_TEN: [u128; 39] = [
    1,
    10,
    100,
    1_000,
    10_000,
    100_000,
    1_000_000,
    10_000_000,
    100_000_000,
    1_000_000_000,
    10_000_000_000,
    100_000_000_000,
    1_000_000_000_000,
    10_000_000_000_000,
    100_000_000_000_000,
    1_000_000_000_000_000,
    10_000_000_000_000_000,
    100_000_000_000_000_000,
    1_000_000_000_000_000_000,
    10_000_000_000_000_000_000,
    100_000_000_000_000_000_000,
    1_000_000_000_000_000_000_000,
    10_000_000_000_000_000_000_000,
    100_000_000_000_000_000_000_000,
    1_000_000_000_000_000_000_000_000,
    10_000_000_000_000_000_000_000_000,
    100_000_000_000_000_000_000_000_000,
    1_000_000_000_000_000_000_000_000_000,
    10_000_000_000_000_000_000_000_000_000,
    100_000_000_000_000_000_000_000_000_000,
    1_000_000_000_000_000_000_000_000_000_000,
    10_000_000_000_000_000_000_000_000_000_000,
    100_000_000_000_000_000_000_000_000_000_000,
    1_000_000_000_000_000_000_000_000_000_000_000,
    10_000_000_000_000_000_000_000_000_000_000_000,
    100_000_000_000_000_000_000_000_000_000_000_000,
    1_000_000_000_000_000_000_000_000_000_000_000_000,
    10_000_000_000_000_000_000_000_000_000_000_000_000,
    100_000_000_000_000_000_000_000_000_000_000_000_000,
];

/// Ten to the power of so many digits; `None` where that has more than 128 bits.
pub fn power_of_ten(digits: u8) -> Option<u128>
    ensures { SomeIff result (10 ^ digits < 2 ^ 128) (10 ^ digits) }
{
    let digits = usize::from(digits);
    if digits < POWERS_OF_TEN.len() {
        Some(POWERS_OF_TEN[digits])
    } else {
        None
    }
}

/// The magnitude with so many zeros behind it; `None` where that has more than 128 bits.
pub fn widened(magnitude: u128, digits: u8) -> Option<u128>
    ensures { SomeIff result (magnitude * 10 ^ digits < 2 ^ 128) (magnitude * 10 ^ digits) }
{
    match power_of_ten(digits) {
        Some(power) => magnitude.checked_mul(power),
        None => (magnitude == 0).then_some(0),
    }
}
