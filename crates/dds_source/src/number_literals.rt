//! Number literals: perhaps a minus sign, digits, and perhaps a point and more digits.
ghost use Rattle.std.specs.Prelude.{◌≡◌, ℕ, ◌+◌, ◌<◌, ◌≤◌, ◌++◌, ◌==◌, ◌^◌, length, position, IsTrue, Option};
ghost use Rattle.std.specs.List.{before_first, after_first, list_any, list_all};
ghost use Rattle.text_lines.specs.Decimal.{is_digit};
ghost use Rattle.dds_source.specs.Numbers.{decimal};
ghost use Rattle.dds_source.specs.ArgumentTexts.{is_unsigned, number_of, number, signed};

use crate::numbers::{all_digits, are_digits, decimal, decimal_after};
use text_lines::field_types::values::Dec;

/// The number of a literal; `None` where the word is none.
pub(crate) fn number(word: &[u8]) -> Option<Dec>
    ensures { result ≡ number word.now }
{
    match word {
        [b'-', digits @ ..] => number_of(true, digits),
        [_, ..] => number_of(false, word),
        [] => None,
    }
}

fn number_of(negative: bool, word: &[u8]) -> Option<Dec>
    ensures { result ≡ number_of negative word.now }
{
    if !is_unsigned(word) {
        return None;
    }
    let whole = whole_part(word);
    let fraction = fraction_part(word);
    let number = decimal_after(decimal(whole), whole.len(), fraction);
    Some(Dec {
        units: signed(negative, number),
        scale: fraction.len() as u8,
    })
}

fn signed(negative: bool, number: u128) -> i128
    requires { number < 10 ^ 31 }
    ensures { result ≡ signed negative number }
{
    let number = number as i128;
    if negative { -number } else { number }
}

/// Whether it is digits and perhaps a point and digits, at most 31 in all.
fn is_unsigned(word: &[u8]) -> bool
    ensures value { result ≡ is_unsigned word.now }
{
    let whole = whole_part(word);
    let fraction = fraction_part(word);
    are_digits(whole)
        && all_digits(fraction)
        && (!has_point(word) || !fraction.is_empty())
        && whole.len() + fraction.len() <= 31
}

fn has_point(word: &[u8]) -> bool
    ensures { result ≡ list_any (λ c. c == 46) word.now }
{
    word.iter().any(|&c| c == b'.')
}

/// What stands before the point.
fn whole_part(word: &[u8]) -> &[u8]
    ensures { result.now ≡ before_first (λ c. c == 46) word.now }
{
    match point(word) {
        Some(end) => &word[..end],
        None => word,
    }
}

/// What stands behind it.
fn fraction_part(word: &[u8]) -> &[u8]
    ensures { result.now ≡ after_first (λ c. c == 46) word.now }
{
    match point(word) {
        Some(end) => &word[end + 1..],
        None => &word[word.len()..],
    }
}

fn point(word: &[u8]) -> Option<usize>
    ensures { result ≡ position (λ c. c == 46) word.now }
{
    word.iter().position(|&c| c == b'.')
}
