//! The rows of a join file, by position.
ghost use Rattle.std.specs.Prelude.{◌≡◌, Bool, map, IfOk};
ghost use Rattle.std.specs.Option.{option_copied};
ghost use Rattle.access_path.specs.PathBytes.{is_falling};
ghost use Rattle.file_cursor.specs.CursorPosition.{On};
ghost use Rattle.file_cursor.specs.Finding.{side_of};
ghost use Rattle.file_model.specs.Joins.{RowPlace};
ghost use Rattle.file_model.specs.KeyOrder.{key_value};
ghost use Rattle.file_model.specs.Positions as model;
ghost use Rattle.key_pages.specs.declared.entries.Entry.{Entry};
ghost use Rattle.key_pages.specs.Position as pages;
ghost use Rattle.access_path.specs.KeyFields.{HasPosition};
ghost use Rattle.join_rows.specs.Places.{sequence_bytes};
ghost use Rattle.join_rows.specs.NextRow.{next_row, prior_row};
ghost use Rattle.join_rows.specs.Reading.{left_list};
ghost use Rattle.join_rows.specs.Rows.{CanBeRead, IsAt, IsFound, found_row, number_low, number_high, next_place, prior_place, place_by, found_entry, first_member, left_where, left_of_entry};

use crate::levels::{Numbers, Walk, found_below};
use crate::positions::{Left, MatchPlace, RowPosition};
use crate::trials::{image_at, is_entry, next_number};
use access_path::key_order::encoding::encode;
use access_path::path::Path;
use file_model::joins::{JoinSpec, Secondary};
use file_model::paths::PathFormat;
use key_pages::{Entry, Key, Position};
use key_spec::{KeyPart, Ties};
use member_slots::members::Members;
use std::alloc::{AllocError, Global};

/// A join file with its paths, and the members that they are over.
#[derive(Clone, Copy)]
pub struct JoinFile<'a> {
    pub spec: &'a JoinSpec,
    /// The path of the primary file.
    pub primary: &'a Path,
    /// Those of the secondary files, in the order of JFILE.
    pub secondaries: &'a [&'a Path],
    pub members: &'a Members,
}

/// A row of a join file.
#[derive(Drop)]
pub struct Row<'a> {
    /// The primary's entry.
    pub primary: &'a Entry,
    /// The number of each secondary file's record, in the order of JFILE; none where defaults stand for it.
    pub numbers: Numbers,
}

/// The first row after a position.
pub fn next_row<'a>(
    alloc: Global,
    join: JoinFile<'a>,
    from: RowPosition<'_>,
) -> Result<Option<Row<'a>>, AllocError>
    requires { CanBeRead join.spec.now join.members.now.members join.primary.now (map (λ path. path.now) join.secondaries.now) }
    ensures { (position : model.Position RowPlace) → IsAt join.entry.spec.now from.entry position
        → IfOk result (λ found. IsFound join.entry.spec.now join.entry.members.now.members found (next_row join.entry.spec.now join.entry.members.now.members position)) }
{
    found_row(alloc, join, false, from)
}

/// The last row before it.
pub fn prior_row<'a>(
    alloc: Global,
    join: JoinFile<'a>,
    from: RowPosition<'_>,
) -> Result<Option<Row<'a>>, AllocError>
    requires { CanBeRead join.spec.now join.members.now.members join.primary.now (map (λ path. path.now) join.secondaries.now) }
    ensures { (position : model.Position RowPlace) → IsAt join.entry.spec.now from.entry position
        → IfOk result (λ found. IsFound join.entry.spec.now join.entry.members.now.members found (prior_row join.entry.spec.now join.entry.members.now.members position)) }
{
    found_row(alloc, join, true, from)
}

/// The bytes of the value that a record has under JDUPSEQ, which a position on its row keeps.
pub fn sequence_of(alloc: Global, file: &Secondary, image: &[u8]) -> Result<Key, AllocError>
    requires { HasPosition file.now.sequence image.now }
    ensures { IfOk result (λ key. key ≡ sequence_bytes file.now.sequence (key_value file.now.sequence image.now)) }
{
    match &file.sequence {
        KeyPart::Absent => Ok(Key::new(alloc)),
        KeyPart::Field { .. } => encode(alloc, std::slice::from_ref(&file.sequence), image),
    }
}

fn found_row<'a>(
    alloc: Global,
    join: JoinFile<'a>,
    back: bool,
    from: RowPosition<'_>,
) -> Result<Option<Row<'a>>, AllocError>
    requires { CanBeRead join.spec.now join.members.now.members join.primary.now (map (λ path. path.now) join.secondaries.now) }
    ensures { (position : model.Position RowPlace) → IsAt join.entry.spec.now from.entry position
        → IfOk result (λ found. IsFound join.entry.spec.now join.entry.members.now.members found (found_row back join.entry.spec.now join.entry.members.now.members position)) }
{
    join.primary.pages().in_order();
    let walk = Walk {
        members: join.members,
        keeps_missing: join.spec.keeps_missing,
        back,
    };
    let member = first_member(join.spec.primary.formats.as_slice());
    let files = join.spec.secondaries.as_slice();
    let mut at = first_entry(back, falls(join.spec.primary.ties), join.primary, from);
    while let Some(entry) = at {
        let image = image_at(join.members, member, entry.rrn);
        let left = left_of_entry(entry, from);
        let images = std::slice::from_ref(&image);
        let found = found_below(alloc, walk, files, join.secondaries, left, images)?;
        if let Some(numbers) = found {
            return Ok(Some(Row {
                primary: entry,
                numbers,
            }));
        }
        at = next_entry(back, join.primary, entry);
    }
    Ok(None)
}

// The member of the primary file.
fn first_member(formats: &[PathFormat]) -> u32
    ensures { result ≡ first_member formats.now }
{
    let [format, ..] = formats else {
        return 0;
    };
    format.member
}

fn falls(ties: Ties) -> bool
    ensures { result ≡ is_falling ties }
{
    match ties {
        Ties::Rising => false,
        Ties::Falling => true,
    }
}

/// The first entry of the primary's path that may have a row after a position, or the last that may have one before it.
fn first_entry<'a>(
    back: bool,
    falling: bool,
    path: &'a Path,
    from: RowPosition<'_>,
) -> Option<&'a Entry>
    ensures { option_copied result ≡ found_entry back path.now (place_by back falling from.entry) }
{
    if back {
        path.pages().prior_entry(&prior_place(falling, from))
    } else {
        path.pages().next_entry(&next_place(falling, from))
    }
}

/// The entry after this one, or before it.
fn next_entry<'a>(back: bool, path: &'a Path, entry: &Entry) -> Option<&'a Entry>
    ensures { option_copied result ≡ found_entry back path.now (On entry.now) }
{
    if back {
        path.pages().prior_entry(&place_on(entry))
    } else {
        path.pages().next_entry(&place_on(entry))
    }
}

fn place_on(entry: &Entry) -> Position<'_>
    ensures { (f : Bool) (other : Entry) → pages.side_of f result other ≡ side_of f (On entry.now) other }
{
    Position::On {
        key: entry.key.as_bytes(),
        format: entry.format,
        rrn: entry.rrn,
    }
}

// A place before the entry of the position.
fn next_place<'a>(falling: bool, from: RowPosition<'a>) -> Position<'a>
    ensures { (f : Bool) (entry : Entry) → pages.side_of f result entry ≡ side_of f (next_place falling from.entry) entry }
{
    match from {
        RowPosition::Start => Position::Start,
        RowPosition::End => Position::End,
        RowPosition::On { key, rrn, .. } => Position::On {
            key,
            format: 0,
            rrn: number_low(falling, rrn),
        },
        RowPosition::Before(part) => Position::Before(part),
        RowPosition::Past(part) => Position::Past(part),
    }
}

// A place behind the entry of the position.
fn prior_place<'a>(falling: bool, from: RowPosition<'a>) -> Position<'a>
    ensures { (f : Bool) (entry : Entry) → pages.side_of f result entry ≡ side_of f (prior_place falling from.entry) entry }
{
    match from {
        RowPosition::Start => Position::Start,
        RowPosition::End => Position::End,
        RowPosition::On { key, rrn, .. } => Position::On {
            key,
            format: 0,
            rrn: number_high(falling, rrn),
        },
        RowPosition::Before(part) => Position::Before(part),
        RowPosition::Past(part) => Position::Past(part),
    }
}

// The number that stands before this one.
fn number_low(falling: bool, rrn: u32) -> u32
    ensures { result ≡ number_low falling rrn }
{
    if falling {
        next_number(rrn)
    } else {
        rrn.saturating_sub(1)
    }
}

// The number that stands behind it.
fn number_high(falling: bool, rrn: u32) -> u32
    ensures { result ≡ number_high falling rrn }
{
    if falling {
        rrn.saturating_sub(1)
    } else {
        next_number(rrn)
    }
}

/// What is left of a position below an entry of the primary's path.
fn left_of_entry<'a>(entry: &Entry, from: RowPosition<'a>) -> Left<'a>
    ensures { left_list result ≡ left_of_entry entry.now from.entry }
{
    match from {
        RowPosition::Start => Left::Nothing,
        RowPosition::End => Left::Nothing,
        RowPosition::On { key, rrn, matches } => left_where(is_entry(entry, key, rrn), matches),
        RowPosition::Before(_) => Left::Nothing,
        RowPosition::Past(_) => Left::Nothing,
    }
}

fn left_where<'a>(is_there: bool, matches: &'a [MatchPlace<'a>]) -> Left<'a>
    ensures { left_list result ≡ left_where is_there matches.now }
{
    if is_there {
        Left::Places(matches)
    } else {
        Left::Nothing
    }
}
