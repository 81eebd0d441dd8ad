//! Numbers in positions: pushed to the right, perhaps with a sign.
ghost use Rattle.std.specs.Prelude.{◌≡◌, ℕ, ◌+◌, ◌*◌, ◌^◌, ◌<◌, ◌≤◌, Bool, length, IsTrue, IfSome};
ghost use Rattle.std.specs.Option.{option_map};
ghost use Rattle.std.specs.List.{list_all};
ghost use Rattle.text_lines.specs.Decimal.{is_digit};
ghost use Rattle.dds_source.specs.Numbers.{decimal, decimal_after, from_first, are_digits, unsigned_entry, after_sign, signed_entry};

use crate::specifications::LengthEntry;
use text_lines::decimals::is_digit;
use text_lines::lines::is_blank;

/// The number that digits spell.
pub(crate) fn decimal(digits: &[u8]) -> u128
    requires digits { IsTrue (list_all is_digit digits.now) }
    requires short { length digits.now ≤ 31 }
    ensures value { result ≡ decimal digits.now }
    ensures bound { result < 10 ^ length digits.now }
{
    decimal_after(0, 0, digits)
}

/// The number that digits spell behind a number that has at most so many places.
pub(crate) fn decimal_after(number: u128, places: usize, digits: &[u8]) -> u128
    requires digits { IsTrue (list_all is_digit digits.now) }
    requires places { number < 10 ^ places }
    requires short { places + length digits.now ≤ 31 }
    ensures value { result ≡ decimal_after number digits.now }
    ensures bound { result < 10 ^ (places + length digits.now) }
{
    let mut number = number;
    for &digit in digits {
        number = number * 10 + u128::from(digit - b'0');
    }
    number
}

pub(crate) fn are_digits(text: &[u8]) -> bool
    ensures { result ≡ are_digits text.now }
{
    !text.is_empty() && all_digits(text)
}

pub(crate) fn all_digits(text: &[u8]) -> bool
    ensures { result ≡ list_all is_digit text.now }
{
    text.iter().all(|&c| is_digit(c))
}

/// From the first character on that isn't blank.
pub(crate) fn from_first(text: &[u8]) -> &[u8]
    ensures shorter { length result.now ≤ length text.now }
    ensures value { result.now ≡ from_first text.now }
{
    let mut rest = text;
    while let [first, more @ ..] = rest {
        if !is_blank(*first) {
            return rest;
        }
        rest = more;
    }
    rest
}

/// Blanks, and digits to the last position.
pub(crate) fn unsigned_entry(text: &[u8]) -> Option<u32>
    requires { length text.now ≤ 5 }
    ensures bound { IfSome result (λ number. number < 10 ^ length text.now) }
    ensures value { result ≡ unsigned_entry text.now }
{
    let digits = from_first(text);
    if are_digits(digits) {
        Some(decimal(digits) as u32)
    } else {
        None
    }
}

/// The same with a sign ahead, where one is allowed.
pub(crate) fn signed_entry(signs: bool, text: &[u8]) -> Option<LengthEntry>
    requires { length text.now ≤ 5 }
    ensures { result ≡ signed_entry signs text.now }
{
    match from_first(text) {
        [b'+', rest @ ..] if signs => unsigned_entry(rest).map(LengthEntry::Longer),
        [b'-', rest @ ..] if signs => unsigned_entry(rest).map(LengthEntry::Shorter),
        [] => None,
        digits => unsigned_entry(digits).map(LengthEntry::Exactly),
    }
}
