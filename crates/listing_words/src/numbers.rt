//! Numbers, by `specs/Values.antt`.
ghost use Rattle.std.specs.Prelude.{◌≡◌, ℕ, List, ◌≤◌, ◌∷◌, ◌==◌, length, IfSome};
ghost use Rattle.std.specs.List.{position_or_len};
ghost use Rattle.statement_reader.specs.Lists.{let_some};
ghost use Rattle.statement_reader.specs.Words.{words};
ghost use Rattle.listing_words.specs.Values.{units_after, units, number_in, long_in, decimals, positive, negative, unsigned, number_of};

use crate::words::{behind, given};
use field_types::values::Dec;
use text_lines::decimals::is_digit;

/// The largest number of 31 digits.
pub const MOST_UNITS: u128 = 9_999_999_999_999_999_999_999_999_999_999;

/// The largest number of four bytes.
pub const MOST_NUMBER: u128 = 4_294_967_295;

/// The largest number of eight bytes.
pub const MOST_LONG: u128 = 18_446_744_073_709_551_615;

/// A number with one more digit, where it passes no limit; a point leaves it as it is.
fn next_number(number: u128, digit: u8, limit: u128) -> Option<u128>
    requires within { number ≤ limit }
    requires small { limit ≤ MOST_UNITS }
    ensures step { (rest : List ℕ) → units_after limit number (digit ∷ rest) ≡ let_some result (λ next. units_after limit next rest) }
    ensures small { IfSome result (λ next. next ≤ limit) }
{
    if digit == b'.' {
        return Some(number);
    }
    if !is_digit(digit) {
        return None;
    }
    let next = 10 * number + u128::from(digit - b'0');
    if next <= limit { Some(next) } else { None }
}

/// The number that digits spell, where it passes no limit; a point among them counts for nothing.
#[tactic(auto, unfolding(crate::specs::Values::units))]
pub fn units(text: &[u8], limit: u128) -> Option<u128>
    requires { limit ≤ MOST_UNITS }
    ensures spelled { result ≡ units limit text.now }
    ensures small { IfSome result (λ n. n ≤ limit) }
{
    let mut number = 0;
    for &digit in text {
        let Some(next) = next_number(number, digit, limit) else {
            return None;
        };
        number = next;
    }
    Some(number)
}

/// A number of four bytes.
pub fn number(word: &[u8]) -> Option<u32>
    ensures { result ≡ units MOST_NUMBER word.now }
{
    let Some(number) = units(word, MOST_NUMBER) else {
        return None;
    };
    Some(number as u32)
}

/// A number of eight bytes.
pub fn long(word: &[u8]) -> Option<u64>
    ensures { result ≡ units MOST_LONG word.now }
{
    let Some(number) = units(word, MOST_LONG) else {
        return None;
    };
    Some(number as u64)
}

/// A number of four bytes as a parameter.
#[tactic(auto, unfolding(crate::specs::Values::number_in))]
pub fn number_in(text: &[u8], keyword: &[u8]) -> Option<u32>
    ensures { result ≡ number_in keyword.now (words text.now) }
{
    let Some(word) = given(text, keyword) else {
        return None;
    };
    number(word)
}

/// A number of eight bytes as a parameter.
#[tactic(auto, unfolding(crate::specs::Values::long_in))]
pub fn long_in(text: &[u8], keyword: &[u8]) -> Option<u64>
    ensures { result ≡ long_in keyword.now (words text.now) }
{
    let Some(word) = given(text, keyword) else {
        return None;
    };
    long(word)
}

/// How many characters stand before the point.
#[tactic(auto, using(crate::proofs::NumberLemmas::counted))]
fn before_point(text: &[u8]) -> usize
    ensures count { result ≡ position_or_len (λ c. c == 46) text.now }
    ensures within { result ≤ length text.now }
{
    text.iter().take_while(|&&byte| byte != b'.').count()
}

/// How many digits stand behind the point.
fn decimals(text: &[u8]) -> usize
    ensures { result ≡ decimals text.now }
{
    text.len().saturating_sub(before_point(text) + 1)
}

/// The number that is not below 0.
#[tactic(auto, unfolding(crate::specs::Values::unsigned))]
fn from_zero(text: &[u8]) -> Option<Dec>
    ensures { result ≡ unsigned positive text.now }
{
    let Some(number) = units(text, MOST_UNITS) else {
        return None;
    };
    let scale = decimals(text);
    if scale <= 255 {
        Some(Dec {
            units: number as i128,
            scale: scale as u8,
        })
    } else {
        None
    }
}

/// The number below 0 whose digits these are.
#[tactic(auto, unfolding(crate::specs::Values::unsigned))]
fn below_zero(text: &[u8]) -> Option<Dec>
    ensures { result ≡ unsigned negative text.now }
{
    let Some(number) = units(text, MOST_UNITS) else {
        return None;
    };
    let scale = decimals(text);
    if scale <= 255 {
        Some(Dec {
            units: -(number as i128),
            scale: scale as u8,
        })
    } else {
        None
    }
}

/// The number that a word is.
#[tactic(auto, unfolding(crate::specs::Values::number_of))]
pub fn number_of(word: &[u8]) -> Option<Dec>
    ensures { result ≡ number_of word.now }
{
    if let Some(number) = from_zero(word) {
        return Some(number);
    }
    let Some(digits) = behind(word, b"-") else {
        return None;
    };
    below_zero(digits)
}
