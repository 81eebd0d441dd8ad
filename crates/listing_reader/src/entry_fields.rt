//! The fields of an entry, by `specs/Entries.antt`.
ghost use Rattle.std.specs.Prelude.{◌≡◌, IfOk, option_map};
ghost use Rattle.statement_reader.specs.Words.{words};
ghost use Rattle.listing_reader.specs.Entries.{two, image_of, image_in, optional_image_of, optional_image_in, flag_of, flag_in, file_kind_in, ends_of, changes_in, optional_name_of, optional_name_in, counted, origin_in};

use entry_codec::FileKind;
use field_types::names::Name;
use field_types::texts::Image;
use listing_words::choices::file_kind_of;
use listing_words::numbers::{long, long_in, number_in};
use listing_words::values::text_of;
use listing_words::words::{given, name_of};
use statement_reader::words::next_word;
use std::alloc::{AllocError, Global};

/// What an entry belongs to: the job that caused it, when it was, the commit cycle, the member and the record.
#[derive(Clone, Copy)]
pub struct Origin {
    pub job: Option<Name>,
    pub moment: u64,
    pub group: Option<u64>,
    pub member: Option<u32>,
    pub rrn: Option<u32>,
}

/// A range of sequences, and how many changes were made.
#[derive(Clone, Copy)]
pub struct Changes {
    pub first: u64,
    pub last: u64,
    pub changes: u32,
}

/// The first two words of a text.
fn two(text: &[u8]) -> Option<(&[u8], &[u8])>
    ensures { option_map (λ parts. (parts.0.now, parts.1.now)) result ≡ two (words text.now) }
{
    let Some((first, rest)) = next_word(text) else {
        return None;
    };
    let Some((second, _)) = next_word(rest) else {
        return None;
    };
    Some((first, second))
}

#[tactic(auto, unfolding(crate::specs::Entries::image_of))]
fn image_of(alloc: Global, text: &[u8]) -> Result<Option<Image>, AllocError>
    ensures { IfOk result (λ image. image ≡ image_of text.now) }
{
    let Some((_, literal)) = two(text) else {
        return Ok(None);
    };
    match text_of(alloc, literal)? {
        Some(bytes) => Ok(Some(Image::from_vec(bytes))),
        None => Ok(None),
    }
}

/// An image behind its flag.
#[tactic(auto, unfolding(crate::specs::Entries::image_in))]
pub fn image_in(alloc: Global, text: &[u8]) -> Result<Option<Image>, AllocError>
    ensures { IfOk result (λ image. image ≡ image_in (words text.now)) }
{
    let Some(inner) = given(text, b"IMG") else {
        return Ok(None);
    };
    image_of(alloc, inner)
}

#[tactic(auto, unfolding(crate::specs::Entries::optional_image_of))]
fn optional_image_of(alloc: Global, text: &[u8]) -> Result<Option<Option<Image>>, AllocError>
    ensures { IfOk result (λ image. image ≡ optional_image_of text.now) }
{
    let Some((_, literal)) = two(text) else {
        return Ok(Some(None));
    };
    match text_of(alloc, literal)? {
        Some(bytes) => Ok(Some(Some(Image::from_vec(bytes)))),
        None => Ok(None),
    }
}

/// An image behind its flag, or the flag alone.
#[tactic(auto, unfolding(crate::specs::Entries::optional_image_in))]
pub fn optional_image_in(alloc: Global, text: &[u8]) -> Result<Option<Option<Image>>, AllocError>
    ensures { IfOk result (λ image. image ≡ optional_image_in (words text.now)) }
{
    let Some(inner) = given(text, b"IMG") else {
        return Ok(None);
    };
    optional_image_of(alloc, inner)
}

#[tactic(auto, unfolding(crate::specs::Entries::flag_of))]
fn flag_of(text: &[u8]) -> Option<bool>
    ensures { result ≡ flag_of text.now }
{
    let Some((flag, _)) = two(text) else {
        return None;
    };
    Some(flag == b"2".as_slice())
}

/// Whether an after image has its before image in the entry before it.
#[tactic(auto, unfolding(crate::specs::Entries::flag_in))]
pub fn flag_in(text: &[u8]) -> Option<bool>
    ensures { result ≡ flag_in (words text.now) }
{
    let Some(inner) = given(text, b"IMG") else {
        return None;
    };
    flag_of(inner)
}

/// The kind of a file.
#[tactic(auto, unfolding(crate::specs::Entries::file_kind_in))]
pub fn file_kind_in(text: &[u8]) -> Option<FileKind>
    ensures { result ≡ file_kind_in (words text.now) }
{
    let Some(word) = given(text, b"KIND") else {
        return None;
    };
    file_kind_of(word)
}

#[tactic(auto, unfolding(crate::specs::Entries::ends_of))]
fn ends_of(text: &[u8]) -> Option<(u64, u64)>
    ensures { result ≡ ends_of text.now }
{
    let Some((first, last)) = two(text) else {
        return None;
    };
    let Some(first) = long(first) else {
        return None;
    };
    let Some(last) = long(last) else {
        return None;
    };
    Some((first, last))
}

/// The range of a command on journaled changes, and how many there were.
#[tactic(auto, unfolding(crate::specs::Entries::changes_in))]
pub fn changes_in(text: &[u8]) -> Option<Changes>
    ensures { result ≡ changes_in (words text.now) }
{
    let Some(inner) = given(text, b"ENT") else {
        return None;
    };
    let Some((first, last)) = ends_of(inner) else {
        return None;
    };
    let Some(changes) = number_in(text, b"CHG") else {
        return None;
    };
    Some(Changes {
        first,
        last,
        changes,
    })
}

#[tactic(auto, unfolding(crate::specs::Entries::optional_name_of))]
fn optional_name_of(word: &[u8]) -> Option<Option<Name>>
    ensures { result ≡ optional_name_of word.now }
{
    match word {
        [] => Some(None),
        [_first, _rest @ ..] => match name_of(word) {
            Some(name) => Some(Some(name)),
            None => None,
        },
    }
}

#[tactic(auto, unfolding(crate::specs::Entries::optional_name_in))]
fn optional_name_in(text: &[u8], keyword: &[u8]) -> Option<Option<Name>>
    ensures { result ≡ optional_name_in keyword.now (words text.now) }
{
    let Some(word) = given(text, keyword) else {
        return None;
    };
    optional_name_of(word)
}

fn counted64(number: u64) -> Option<u64>
    ensures { result ≡ counted number }
{
    if number == 0 { None } else { Some(number) }
}

fn counted32(number: u32) -> Option<u32>
    ensures { result ≡ counted number }
{
    if number == 0 { None } else { Some(number) }
}

/// The job, the timestamp, the commit cycle, the member and the relative record number; 0 is none.
#[tactic(auto, unfolding(crate::specs::Entries::origin_in))]
pub fn origin_in(text: &[u8]) -> Option<Origin>
    ensures { result ≡ origin_in (words text.now) }
{
    let Some(job) = optional_name_in(text, b"JOB") else {
        return None;
    };
    let Some(moment) = long_in(text, b"AT") else {
        return None;
    };
    let Some(group) = long_in(text, b"GRP") else {
        return None;
    };
    let Some(member) = number_in(text, b"MBR") else {
        return None;
    };
    let Some(rrn) = number_in(text, b"RRN") else {
        return None;
    };
    Some(Origin {
        job,
        moment,
        group: counted64(group),
        member: counted32(member),
        rrn: counted32(rrn),
    })
}
