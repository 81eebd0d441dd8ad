//! Where the digits of a number leave a range: of a year, a month or an hour, and of a binary number.
ghost use Rattle.std.specs.Prelude.{◌≡◌, ℕ, ◌<◌, ◌≤◌, ◌^◌, ◌+◌, ◌&&◌, nat_le, nat_lt, map, length};
ghost use Rattle.field_values.specs.Bounds.{spells_between, digit_from};
ghost use Rattle.field_values.specs.FirstBad.{TellsFirstBad};

/// The first byte with which no number from `low` to `high` begins, of as many digits as there are bytes.
/// A digit is a byte less `zero`.
pub fn first_outside(base: u64, low: u64, high: u64, zero: u8, bytes: &[u8]) -> Option<usize>
    requires base { 2 ≤ base }
    requires order { low ≤ high }
    requires reached { high < base ^ length bytes.now }
    requires few { length bytes.now ≤ 8 }
    requires fits { base ^ length bytes.now ≤ 2 ^ 64 }
    ensures { TellsFirstBad (spells_between base low high (length bytes.now)) (map (digit_from zero) bytes.now) result }
{
    let mut worth = u128::from(base).pow(bytes.len() as u32);
    let mut least = 0;
    for (at, byte) in bytes.iter().enumerate() {
        let digit = byte.wrapping_sub(zero);
        worth /= u128::from(base);
        least += u128::from(digit) * worth;
        if u64::from(digit) >= base || !meets(least, worth, low, high) {
            return Some(at);
        }
    }
    None
}

/// Whether one of the numbers from `least` on, `worth` in number, is from `low` to `high`.
fn meets(least: u128, worth: u128, low: u64, high: u64) -> bool
    requires { least + worth < 2 ^ 128 }
    ensures { result ≡ (nat_le least high && nat_lt low (least + worth)) }
{
    least <= u128::from(high) && u128::from(low) < least + worth
}
