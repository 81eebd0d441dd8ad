//! The records of a secondary file that a read tries for a row so far, one after another. No search here needs memory.
ghost use Rattle.std.specs.Prelude.{◌≡◌, Some, IfOk};
ghost use Rattle.std.specs.Option.{option_map, option_copied};
ghost use Rattle.std.specs.Ordering.{nat_cmp, ordering_then, is_eq};
ghost use Rattle.key_pages.specs.Order.{key_cmp};
ghost use Rattle.member_slots.specs.Members.{member_of};
ghost use Rattle.join_rows.specs.Numbers.{image_at, matched_number};
ghost use Rattle.join_rows.specs.Reading.{left_list};
ghost use Rattle.join_rows.specs.Trials.{BeginsKey, IsBegun, tried, number_of, first_trial, missing, missing_from, record_or_missing, first_from, next_first, last_until, prior_first, next_trial, next_number, key_in, is_at, left_at};

use crate::matches::{last_match, next_match, prior_match};
use crate::positions::{Left, MatchPlace, place, rest};
use access_path::path::Path;
use file_model::joins::Secondary;
use key_pages::{Entry, Key};
use member_slots::members::Members;
use member_slots::slot::Slot;
use std::alloc::{AllocError, Global};

/// A record that may be joined, or the defaults that stand for a missing one.
#[derive(Clone, Copy)]
pub(crate) enum Trial<'a> {
    Missing,
    Record(&'a Entry),
}

/// What a read tries first, from what is left of a position on, or before it.
pub(crate) fn first_trial<'a>(
    back: bool,
    keeps_missing: bool,
    path: &'a Path,
    wanted: &Option<Key>,
    left: Option<MatchPlace<'_>>,
    key: &[u8],
) -> Option<Trial<'a>>
    requires { BeginsKey wanted.now left key.now }
    ensures { option_map tried result ≡ first_trial back keeps_missing wanted.now left.entry key.now path.now }
{
    if back {
        prior_first(keeps_missing, path, wanted, left, key)
    } else {
        next_first(keeps_missing, path, wanted, left, key)
    }
}

fn next_first<'a>(
    keeps_missing: bool,
    path: &'a Path,
    wanted: &Option<Key>,
    left: Option<MatchPlace<'_>>,
    key: &[u8],
) -> Option<Trial<'a>>
    requires { BeginsKey wanted.now left key.now }
    ensures { option_map tried result ≡ next_first keeps_missing wanted.now left.entry key.now path.now }
{
    let Some(part) = wanted else {
        return missing_from(keeps_missing, left);
    };
    first_from(keeps_missing, path, part.as_bytes(), left, key)
}

fn first_from<'a>(
    keeps_missing: bool,
    path: &'a Path,
    part: &[u8],
    left: Option<MatchPlace<'_>>,
    key: &[u8],
) -> Option<Trial<'a>>
    requires { BeginsKey (Some part.now) left key.now }
    ensures { option_map tried result ≡ first_from keeps_missing part.now left.entry key.now path.now }
{
    match left {
        None => record_or_missing(keeps_missing, next_match(path, part, part, 0)),
        Some(MatchPlace::Missing) => {
            record_or_missing(keeps_missing, next_match(path, part, part, 0))
        }
        Some(MatchPlace::Record { rrn, .. }) => {
            record(next_match(path, part, key, rrn.saturating_sub(1)))
        }
    }
}

fn prior_first<'a>(
    keeps_missing: bool,
    path: &'a Path,
    wanted: &Option<Key>,
    left: Option<MatchPlace<'_>>,
    key: &[u8],
) -> Option<Trial<'a>>
    requires { BeginsKey wanted.now left key.now }
    ensures { option_map tried result ≡ prior_first keeps_missing wanted.now left.entry key.now path.now }
{
    let Some(part) = wanted else {
        return missing(keeps_missing);
    };
    let Some(last) = last_match(path, part.as_bytes()) else {
        return missing(keeps_missing);
    };
    last_until(last, path, part.as_bytes(), left, key)
}

fn last_until<'a>(
    last: &'a Entry,
    path: &'a Path,
    part: &[u8],
    left: Option<MatchPlace<'_>>,
    key: &[u8],
) -> Option<Trial<'a>>
    requires { BeginsKey (Some part.now) left key.now }
    ensures { option_map tried result ≡ last_until last.now part.now left.entry key.now path.now }
{
    match left {
        None => Some(Trial::Record(last)),
        Some(MatchPlace::Missing) => None,
        Some(MatchPlace::Record { rrn, .. }) => {
            record(prior_match(path, part, key, next_number(rrn)))
        }
    }
}

/// What is tried after that.
pub(crate) fn next_trial<'a>(
    back: bool,
    path: &'a Path,
    wanted: &Option<Key>,
    trial: Trial<'_>,
) -> Option<Trial<'a>>
    requires { IsBegun wanted.now (tried trial) }
    ensures { option_map tried result ≡ next_trial back wanted.now (tried trial.entry) path.now }
{
    match trial {
        Trial::Missing => None,
        Trial::Record(entry) => match wanted {
            None => None,
            Some(part) => {
                if back {
                    record(prior_match(path, part.as_bytes(), entry.key.as_bytes(), entry.rrn))
                } else {
                    record(next_match(path, part.as_bytes(), entry.key.as_bytes(), entry.rrn))
                }
            }
        },
    }
}

fn missing<'a>(keeps_missing: bool) -> Option<Trial<'a>>
    ensures { option_map tried result ≡ missing keeps_missing }
{
    if keeps_missing {
        Some(Trial::Missing)
    } else {
        None
    }
}

// A missing record comes before all others.
fn missing_from<'a>(keeps_missing: bool, left: Option<MatchPlace<'_>>) -> Option<Trial<'a>>
    ensures { option_map tried result ≡ missing_from keeps_missing left.entry }
{
    match left {
        None => missing(keeps_missing),
        Some(MatchPlace::Missing) => missing(keeps_missing),
        Some(MatchPlace::Record { .. }) => None,
    }
}

fn record<'a>(found: Option<&'a Entry>) -> Option<Trial<'a>>
    ensures { option_map tried result ≡ option_map Some (option_copied found.entry) }
{
    match found {
        Some(entry) => Some(Trial::Record(entry)),
        None => None,
    }
}

fn record_or_missing<'a>(keeps_missing: bool, found: Option<&'a Entry>) -> Option<Trial<'a>>
    ensures { option_map tried result ≡ record_or_missing keeps_missing (option_copied found.entry) }
{
    match found {
        Some(entry) => Some(Trial::Record(entry)),
        None => missing(keeps_missing),
    }
}

/// The number after this one, where there is one.
pub(crate) fn next_number(rrn: u32) -> u32
    ensures { result ≡ next_number rrn }
{
    if rrn < u32::MAX { rrn + 1 } else { rrn }
}

/// The key at which the records of a position stand.
pub(crate) fn key_in(
    alloc: Global,
    wanted: &Option<Key>,
    left: Option<MatchPlace<'_>>,
) -> Result<Vec<u8>, AllocError>
    ensures { IfOk result (λ key. key.items ≡ key_in wanted.now left.entry) }
{
    let Some(part) = wanted else {
        return Ok(Vec::new(alloc));
    };
    match left {
        None => Ok(Vec::new(alloc)),
        Some(MatchPlace::Missing) => Ok(Vec::new(alloc)),
        Some(MatchPlace::Record { sequence, .. }) => {
            let mut key = Vec::from_slice(alloc, part.as_bytes())?;
            key.extend_from_slice(sequence)?;
            Ok(key)
        }
    }
}

/// What is left of a position below a trial.
pub(crate) fn left_below<'a>(left: Left<'a>, key: &[u8], trial: Trial<'_>) -> Left<'a>
    ensures { left_list result ≡ left_at (left_list left.entry) key.now (tried trial.entry) }
{
    if is_at(place(left), key, trial) {
        rest(left)
    } else {
        Left::Nothing
    }
}

// Whether the trial is the position's own.
fn is_at(left: Option<MatchPlace<'_>>, key: &[u8], trial: Trial<'_>) -> bool
    ensures { result ≡ is_at left.entry key.now (tried trial.entry) }
{
    match left {
        None => false,
        Some(MatchPlace::Missing) => match trial {
            Trial::Missing => true,
            Trial::Record(_) => false,
        },
        Some(MatchPlace::Record { rrn, .. }) => match trial {
            Trial::Missing => false,
            Trial::Record(entry) => is_entry(entry, key, rrn),
        },
    }
}

/// Whether an entry has this key and number.
pub(crate) fn is_entry(entry: &Entry, key: &[u8], rrn: u32) -> bool
    ensures { result ≡ is_eq (ordering_then (key_cmp entry.now.key key.now) (nat_cmp entry.now.rrn rrn)) }
{
    entry
        .key
        .as_bytes()
        .cmp(&key)
        .then(entry.rrn.cmp(&rrn))
        .is_eq()
}

/// The number of the record that is tried.
pub(crate) fn number(trial: Trial<'_>) -> Option<u32>
    ensures { result ≡ number_of (tried trial.entry) }
{
    match trial {
        Trial::Missing => None,
        Trial::Record(entry) => Some(entry.rrn),
    }
}

/// Its image, or the defaults.
pub(crate) fn image<'a>(members: &'a Members, file: &'a Secondary, trial: Trial<'_>) -> &'a [u8]
    ensures { result.now ≡ (matched_number file.now members.now.members (number_of (tried trial.entry))).image }
{
    match trial {
        Trial::Missing => file.default.as_bytes(),
        Trial::Record(entry) => image_at(members, file.member, entry.rrn),
    }
}

/// The image of a record; none where there is no such record.
pub fn image_at<'a>(members: &'a Members, member: u32, rrn: u32) -> &'a [u8]
    ensures { result.now ≡ image_at (member_of member members.now.members) rrn }
{
    let Some(member) = members.at(member) else {
        return &[];
    };
    if rrn == 0 || rrn > member.slots() {
        return &[];
    }
    match member.slot(rrn) {
        Slot::Live(image) => image.as_bytes(),
        Slot::Deleted => &[],
    }
}
