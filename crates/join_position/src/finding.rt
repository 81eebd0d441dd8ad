//! What a read of a join file finds from a position in bytes.
ghost use Rattle.std.specs.Prelude.{◌≡◌, length, map, IfOk};
ghost use Rattle.std.specs.Ordering.{is_eq};
ghost use Rattle.file_model.specs.Joins.{RowPlace, rows_of};
ghost use Rattle.file_model.specs.Positions as model;
ghost use Rattle.join_rows.specs.Finding.{compare_part};
ghost use Rattle.member_slots.specs.Members.{AreMembers};
ghost use Rattle.join_rows.specs.Rows.{CanBeRead, IsAt, IsFound, parts_in};
ghost use Rattle.open_position.specs.KeyValues.{values_in};
ghost use Rattle.open_position.specs.OpenStand.{AreGivenBytes};
ghost use Rattle.join_position.specs.RowReads.{IsAskedOf, asked_row, first_row, where_bytes};

use join_rows::laws::found_rows_are_stood_on;
use join_rows::positions::RowPosition;
use join_rows::rows::{JoinFile, Row, next_row, prior_row};
use member_slots::members::Members;
use open_position::reads::ReadBy;
use std::alloc::{AllocError, Global};

/// The row that is asked for, from a position.
pub(crate) fn found<'a>(
    alloc: Global,
    join: JoinFile<'a>,
    from: RowPosition<'_>,
    by: ReadBy<'_>,
) -> Result<Option<Row<'a>>, AllocError>
    requires read { CanBeRead join.spec.now join.members.now.members join.primary.now (map (λ path. path.now) join.secondaries.now) }
    requires asked { IsAskedOf (parts_in join.spec.now.primary.formats) by }
    ensures { (position : model.Position RowPlace) → IsAt join.entry.spec.now from.entry position
        → IfOk result (λ found. IsFound join.entry.spec.now join.entry.members.now.members found
        (asked_row by.entry (parts_in join.entry.spec.now.primary.formats) join.entry.spec.now join.entry.members.now.members position)) }
{
    are_members(join.members);
    found_rows_are_stood_on();
    match by {
        ReadBy::Next => next_row(alloc, join, from),
        ReadBy::Prior => prior_row(alloc, join, from),
        ReadBy::NextEqual(key) => {
            let row = next_row(alloc, join, from)?;
            Ok(where_equal(row, key))
        }
        ReadBy::PriorEqual(key) => {
            let row = prior_row(alloc, join, from)?;
            Ok(where_equal(row, key))
        }
        ReadBy::FirstEqual(key) => first_equal(alloc, join, key),
        ReadBy::Number(_) => unreachable!(),
    }
}

/// The first row whose primary's key begins with these bytes.
fn first_equal<'a>(
    alloc: Global,
    join: JoinFile<'a>,
    key: &[u8],
) -> Result<Option<Row<'a>>, AllocError>
    requires read { CanBeRead join.spec.now join.members.now.members join.primary.now (map (λ path. path.now) join.secondaries.now) }
    requires given { AreGivenBytes (parts_in join.spec.now.primary.formats) key.now }
    ensures { IfOk result (λ found. IsFound join.entry.spec.now join.entry.members.now.members found
        (first_row (values_in (parts_in join.entry.spec.now.primary.formats) key.now) (rows_of join.entry.spec.now join.entry.members.now.members))) }
{
    are_members(join.members);
    found_rows_are_stood_on();
    join.primary.pages().in_order();
    let row = next_row(alloc, join, RowPosition::Before(key))?;
    Ok(where_equal(row, key))
}

/// The row, where its primary's key begins with these bytes.
fn where_equal<'a>(row: Option<Row<'a>>, key: &[u8]) -> Option<Row<'a>>
    ensures { result ≡ where_bytes key.now row.entry }
{
    match row {
        None => None,
        Some(row) => {
            if begins_with(row.primary.key.as_bytes(), key) {
                Some(row)
            } else {
                None
            }
        }
    }
}

fn begins_with(key: &[u8], part: &[u8]) -> bool
    ensures { result ≡ is_eq (compare_part part.now key.now) }
{
    let length = key.len().min(part.len());
    (&key[..length]).cmp(&part).is_eq()
}

/// The members are numbered in order, and each is one.
pub(crate) fn are_members(members: &Members)
    ensures { AreMembers members.now.members }
{
    let _member = members.at(0);
}
