//! Dates, times and timestamps in *ISO form. Their rule stands in `specs/Moments.antt`.
ghost use Rattle.std.specs.Prelude.{◌≡◌, ◌≢◌, ℕ, ◌+◌, ◌<◌, ◌≤◌, ◌^◌, true, length, slice_index, IfOk, IfErr, OnOk};
ghost use Rattle.std.specs.Result.{result_err};
ghost use Rattle.field_values.specs.Moments.{spelled, spells, spells_in, is_date, is_time, is_timestamp, is_moment, days_in_month, is_leap_year};
ghost use Rattle.field_values.specs.FirstBad.{part, TellsFirstBad, IsBadPart};

use crate::{bounds, decimals};
use decimal_order::field_types::kinds::Kind;

const HYPHEN: u8 = 0x60;

const PERIOD: u8 = 0x4B;

const ZERO: u8 = 0xF0;

/// Whether the text is a date, a time or a timestamp, as the kind says.
pub fn is_moment(kind: Kind, text: &[u8]) -> bool
    ensures { result ≡ is_moment kind text.now }
{
    match kind {
        Kind::Date => text.len() == 10 && date(text).is_ok(),
        Kind::Time => text.len() == 8 && time(text).is_ok(),
        Kind::Stamp => text.len() == 26 && timestamp(text).is_ok(),
        Kind::Char | Kind::Zoned | Kind::Packed | Kind::Binary => false,
    }
}

/// Whether the text is a date, or else the first byte with which none begins.
pub fn date(text: &[u8]) -> Result<(), usize>
    requires { length text.now ≡ 10 }
    ensures { TellsFirstBad is_date text.now (result_err result) }
{
    let year = number(text, 0, 4, 1, 9999)?;
    mark(text, 4, HYPHEN)?;
    let month = number(text, 5, 2, 1, 12)?;
    mark(text, 7, HYPHEN)?;
    number(text, 8, 2, 1, days_in_month(year, month))?;
    Ok(())
}

/// Whether the text is a time, or else the first byte with which none begins.
pub fn time(text: &[u8]) -> Result<(), usize>
    requires { length text.now ≡ 8 }
    ensures { TellsFirstBad is_time text.now (result_err result) }
{
    number(text, 0, 2, 0, 23)?;
    mark(text, 2, PERIOD)?;
    number(text, 3, 2, 0, 59)?;
    mark(text, 5, PERIOD)?;
    number(text, 6, 2, 0, 59)?;
    Ok(())
}

/// Whether the text is a timestamp, or else the first byte with which none begins.
pub fn timestamp(text: &[u8]) -> Result<(), usize>
    requires { length text.now ≡ 26 }
    ensures { TellsFirstBad is_timestamp text.now (result_err result) }
{
    date(&text[..10])?;
    mark(text, 10, HYPHEN)?;
    time_at(text, 11)?;
    mark(text, 19, PERIOD)?;
    number(text, 20, 6, 0, 999_999)?;
    Ok(())
}

/// Whether a time stands from `from` on, or else the first byte with which none begins there.
fn time_at(text: &[u8], from: usize) -> Result<(), usize>
    requires { from + 8 ≤ length text.now }
    ensures there { OnOk result (is_time (part from 8 text.now) ≡ true) }
    ensures bad { IfErr result (IsBadPart is_time from 8 text.now) }
{
    match time(&text[from..from + 8]) {
        Ok(()) => Ok(()),
        Err(at) => Err(from + at),
    }
}

/// The number in the `width` characters from `from` on, or else the first of them with which none from `low` to
/// `high` begins.
fn number(text: &[u8], from: usize, width: usize, low: u64, high: u64) -> Result<u64, usize>
    requires room { from + width ≤ length text.now }
    requires few { width ≤ 6 }
    requires order { low ≤ high }
    requires reached { high < 10 ^ width }
    ensures number { IfOk result (λ n. (spells low high (part from width text.now) ≡ true) × (n ≡ spelled (part from width text.now))) }
    ensures bad { IfErr result (IsBadPart (spells_in low high width) from width text.now) }
{
    let digits = &text[from..from + width];
    match bounds::first_outside(10, low, high, ZERO, digits) {
        Some(at) => Err(from + at),
        None => Ok(decimals::number(digits) as u64),
    }
}

/// Whether the character stands there.
fn mark(text: &[u8], at: usize, mark: u8) -> Result<(), usize>
    requires { at < length text.now }
    ensures there { OnOk result (slice_index text.now at ≡ mark) }
    ensures bad { IfErr result (λ place. (place ≡ at) × (slice_index text.now at ≢ mark)) }
{
    if text[at] == mark { Ok(()) } else { Err(at) }
}

fn days_in_month(year: u64, month: u64) -> u64
    ensures { result ≡ days_in_month year month }
{
    match month {
        2 if is_leap_year(year) => 29,
        2 => 28,
        4 | 6 | 9 | 11 => 30,
        _ => 31,
    }
}

fn is_leap_year(year: u64) -> bool
    ensures { result ≡ is_leap_year year }
{
    year % 4 == 0 && (year % 100 != 0 || year % 400 == 0)
}
