//! Numbers, by `specs/Literals.antt`.
ghost use Rattle.std.specs.Prelude.{◌≡◌, ◌≤◌, length, IfSome};
ghost use Rattle.std.specs.List.{prefix_len};
ghost use Rattle.text_lines.specs.Decimal.{is_digit, digits_from};
ghost use Rattle.statement_reader.specs.Literals.{scaled, pointed, unsigned, number_of};
ghost use Rattle.statement_reader.specs.Operands.{whole_up_to};

use crate::parameters::behind;
use field_types::values::Dec;
use script_numbers::zeros::whole;
use text_lines::decimals::is_digit;

/// The most digits that a number has.
pub const MOST_DIGITS: usize = 31;

/// The largest number of that many digits.
pub const MOST_UNITS: u128 = 9_999_999_999_999_999_999_999_999_999_999;

/// The digits of a number, as a number without the point, and how many stand behind it.
#[derive(Clone, Copy)]
struct Digits {
    units: u128,
    scale: u8,
}

/// The number that a word is.
#[tactic(auto, unfolding(crate::specs::Literals::number_of))]
pub fn number_of(word: &[u8]) -> Option<Dec>
    ensures { result ≡ number_of word.now }
{
    if let Some(digits) = behind(word, b"-") {
        return match unsigned(digits) {
            Some(digits) => Some(Dec {
                units: -(digits.units as i128),
                scale: digits.scale,
            }),
            None => None,
        };
    }
    match unsigned(word) {
        Some(digits) => Some(Dec {
            units: digits.units as i128,
            scale: digits.scale,
        }),
        None => None,
    }
}

#[tactic(auto, unfolding(crate::specs::Literals::unsigned))]
fn unsigned(text: &[u8]) -> Option<Digits>
    ensures digits { result ≡ unsigned text.now }
    ensures small { IfSome result (λ digits. digits.units ≤ MOST_UNITS) }
{
    let (whole, rest) = text.split_at(digits_before(text));
    pointed(whole, rest)
}

#[tactic(auto, using(crate::proofs::NumberLemmas::counted))]
fn digits_before(text: &[u8]) -> usize
    ensures digits { result ≡ prefix_len is_digit text.now }
    ensures within { result ≤ length text.now }
{
    text.iter().take_while(|&&byte| is_digit(byte)).count()
}

fn pointed(whole: &[u8], rest: &[u8]) -> Option<Digits>
    ensures digits { result ≡ pointed whole.now rest.now }
    ensures small { IfSome result (λ digits. digits.units ≤ MOST_UNITS) }
{
    match rest {
        [] => scaled(whole, rest),
        [point, fraction @ ..] => {
            if *point == b'.' && !fraction.is_empty() {
                scaled(whole, fraction)
            } else {
                None
            }
        }
    }
}

fn scaled(whole: &[u8], fraction: &[u8]) -> Option<Digits>
    ensures digits { result ≡ scaled whole.now fraction.now }
    ensures small { IfSome result (λ digits. digits.units ≤ MOST_UNITS) }
{
    if whole.is_empty() || whole.len() + fraction.len() > MOST_DIGITS {
        return None;
    }
    let Some(units) = digits_after(0, whole) else {
        return None;
    };
    let Some(units) = digits_after(units, fraction) else {
        return None;
    };
    Some(Digits {
        units,
        scale: fraction.len() as u8,
    })
}

/// The number of these digits behind those of another.
fn digits_after(front: u128, digits: &[u8]) -> Option<u128>
    requires { front ≤ MOST_UNITS }
    ensures spelled { result ≡ digits_from MOST_UNITS front digits.now }
    ensures small { IfSome result (λ n. n ≤ MOST_UNITS) }
{
    let mut number = front;
    for &digit in digits {
        if !is_digit(digit) {
            return None;
        }
        number = 10 * number + u128::from(digit - b'0');
        if number > MOST_UNITS {
            return None;
        }
    }
    Some(number)
}

/// The whole number from 0 up to this one that a word is.
#[tactic(auto, unfolding(crate::specs::Operands::whole_up_to))]
pub fn whole_up_to(word: &[u8], most: u128) -> Option<u128>
    ensures value { result ≡ whole_up_to most word.now }
    ensures small { IfSome result (λ n. n ≤ most) }
{
    let Some(number) = number_of(word) else {
        return None;
    };
    let Some(whole) = whole(number) else {
        return None;
    };
    if whole <= most { Some(whole) } else { None }
}
