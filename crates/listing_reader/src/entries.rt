//! Entries of the journal, by `specs/Entries.antt`. What each holds is read in `entry_bodies.rt`.
ghost use Rattle.std.specs.Prelude.{◌≡◌, ◌<◌, ◌∷◌, length, Some, [], IfOk, IfSome, MatchOption};
ghost use Rattle.std.specs.List.{All};
ghost use Rattle.entry_codec.specs.Spelling.{HasSpelling};
ghost use Rattle.statement_reader.specs.Lists.{onto_others};
ghost use Rattle.statement_reader.specs.Words.{words};
ghost use Rattle.listing_reader.specs.Entries.{typed_entry, entry_of, entries_in};

use crate::entry_bodies::body_of;
use crate::entry_fields::origin_in;
use crate::spelled_entries::spelled;
use entry_codec::Entry;
use library_model::replies::Entries;
use listing_words::entry_types::entry_named;
use listing_words::numbers::long;
use listing_words::words::behind_given;
use statement_reader::words::next_word;
use std::alloc::{AllocError, Global};

/// The entries of a text, each behind a stroke.
pub fn entries_in(alloc: Global, text: &[u8]) -> Result<Option<Entries>, AllocError>
    ensures { IfOk result (λ entries. entries ≡ entries_in (words text.now)) }
{
    let mut entries = Vec::new(alloc);
    let mut rest = text;
    while let Some(others) = behind_stroke(rest) {
        let Some(entry) = entry_of(alloc, others)? else {
            return Ok(None);
        };
        entries.push(entry)?;
        rest = others;
    }
    let entries = Entries::from_vec(entries);
    Ok(Some(entries))
}

/// The text behind the next stroke.
fn behind_stroke(text: &[u8]) -> Option<&[u8]>
    ensures { MatchOption result (entries_in (words text.now) ≡ Some []) (λ rest. (entries_in (words text.now) ≡ onto_others (entry_of (words rest.now)) (entries_in (words rest.now))) × (length rest.now < length text.now)) }
{
    let mut rest = text;
    while let Some((word, others)) = next_word(rest) {
        if word == b"/".as_slice() {
            return Some(others);
        }
        rest = others;
    }
    None
}

/// The entry behind a stroke: ENT, its sequence, its code and its type, and the rest.
#[tactic(auto, unfolding(crate::specs::Entries::entry_of))]
fn entry_of(alloc: Global, text: &[u8]) -> Result<Option<Entry>, AllocError>
    ensures entry { IfOk result (λ entry. entry ≡ entry_of (words text.now)) }
    ensures spelled { IfOk result (λ entry. IfSome entry HasSpelling) }
{
    let Some((_, rest)) = next_word(text) else {
        return Ok(None);
    };
    let Some((number, rest)) = next_word(rest) else {
        return Ok(None);
    };
    let Some((_, rest)) = next_word(rest) else {
        return Ok(None);
    };
    let Some((letters, rest)) = next_word(rest) else {
        return Ok(None);
    };
    typed_entry(alloc, number, letters, rest)
}

#[tactic(auto, unfolding(crate::specs::Entries::typed_entry))]
fn typed_entry(
    alloc: Global,
    number: &[u8],
    letters: &[u8],
    text: &[u8],
) -> Result<Option<Entry>, AllocError>
    ensures entry { IfOk result (λ entry. entry ≡ typed_entry number.now letters.now (words text.now)) }
    ensures spelled { IfOk result (λ entry. IfSome entry HasSpelling) }
{
    let Some(sequence) = long(number) else {
        return Ok(None);
    };
    let Some(entry_type) = entry_named(letters) else {
        return Ok(None);
    };
    let Some(origin) = origin_in(text) else {
        return Ok(None);
    };
    let Some(body) = behind_given(text, b"RRN") else {
        return Ok(None);
    };
    let Some(kind) = body_of(alloc, entry_type, body)? else {
        return Ok(None);
    };
    Ok(spelled(Entry {
        sequence,
        job: origin.job,
        moment: origin.moment,
        group: origin.group,
        member: origin.member,
        rrn: origin.rrn,
        kind,
    }))
}
