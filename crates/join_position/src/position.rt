//! The position of an open of a join file. What sets it takes no memory.
ghost use Rattle.std.specs.Prelude.{◌≡◌, ◌≤◌, List, map, length, IfOk, IfSome};
ghost use Rattle.std.specs.Option.{option_map};
ghost use Rattle.key_spec.specs.declared.KeyPart.{KeyPart};
ghost use Rattle.file_model.specs.declared.joins.JoinSpec.{JoinSpec};
ghost use Rattle.file_model.specs.Positions.{Start, On};
ghost use Rattle.access_path.below.key_order.specs.declared.widths.TheConstants.{MOST_POSITIONS};
ghost use Rattle.access_path.specs.KeyFields.{ArePositions};
ghost use Rattle.join_rows.specs.NextRow.{rows_reading};
ghost use Rattle.join_rows.specs.Rows.{IsAt, IsFound};
ghost use Rattle.join_position.specs.Kept.{MatchKept, IsStandFor, IsStandIn, ArePlaced, position_by, at_side};
ghost use Rattle.join_position.specs.RowStand.{stood, IsStandAt};
ghost use Rattle.join_position.specs.RowReads.{IsAskedOf, IsJoinOf, CanBeKept, asked_of, asked_row, place_of};

use crate::finding::{are_members, found};
use crate::given::{copy_key, write_given};
use crate::matches::{KeptMatch, keep_all, none_of, places};
use access_path::key_order::widths::bound;
use file_model::joins::Secondary;
use join_rows::laws::found_rows_are_stood_on;
use join_rows::positions::{MatchPlace, RowPosition};
use join_rows::rows::{JoinFile, Row};
use key_spec::{KeyPart, KeyParts};
use open_position::position::{Side, StandAt};
use open_position::reads::ReadBy;
use std::alloc::{AllocError, Global};
use std::marker::Model;

/// How a position stands to its key.
#[derive(Clone, Copy)]
pub(crate) enum Stand {
    Start,
    End,
    /// On the row of the primary's record with this number.
    On(u32),
    Before,
    Past,
}

/// Where an open of a join file stands.
#[derive(Drop)]
pub struct JoinPosition {
    /// The positions of the primary's key.
    parts: KeyParts,
    stand: Stand,
    /// The bytes of a record's key, or of values that were given.
    key: Vec<u8>,
    /// One of each secondary file.
    matches: Vec<KeptMatch>,
}

impl Model for JoinPosition {
    ghost use Rattle.std.specs.Prelude.{vec_capacity};
    ghost use Rattle.join_position.specs.RowStand.{JoinStand};
    ghost use Rattle.join_position.specs.Kept.{stand_of, IsKeptStand};

    ghost Value = { JoinStand };

    ghost view = { λ p. stand_of p.parts p.stand p.key.items p.matches.items };

    ghost invariant = { λ p. IsKeptStand p.parts p.stand p.key.items (vec_capacity p.key) };
}

impl JoinPosition {
    /// The start, of an open that reads by a key of the primary file with these positions, and these secondary files.
    pub fn new(
        alloc: Global,
        parts: KeyParts,
        files: &[Secondary],
    ) -> Result<JoinPosition, AllocError>
        requires few { length parts ≤ MOST_POSITIONS }
        requires allowed { ArePositions parts }
        ensures { IfOk result (λ p. p ≡ record { position = Start; parts = parts; sequences = map (λ file. file.sequence) files.now }) }
    {
        let key = Vec::with_capacity(alloc, bound(parts.as_slice()))?;
        let matches = none_of(alloc, files)?;
        Ok(JoinPosition {
            parts,
            stand: Stand::Start,
            key,
            matches,
        })
    }

    /// The positions of the primary's key. They can be compared with given values.
    pub fn parts(&self) -> &[KeyPart]
        ensures parts { result.now ≡ self.now.parts }
        ensures few { length result.now ≤ MOST_POSITIONS }
        ensures allowed { ArePositions result.now }
    {
        self.parts.as_slice()
    }

    /// Stands at this side of a place. It takes no memory.
    pub fn stand(&mut self, side: Side, at: StandAt<'_>)
        requires { IsStandAt self.old.parts at }
        ensures { self.new ≡ record self.old { position = stood side self.old.parts at.entry } }
    {
        match at {
            StandAt::Low => self.stand = Stand::Start,
            StandAt::High => self.stand = Stand::End,
            StandAt::Values(values) => {
                write_given(self.parts.as_slice(), values, &mut self.key);
                self.stand = at_side(side);
            }
            StandAt::Number(_) => unreachable!(),
        }
    }

    /// What a read finds among the rows: the definition's row, as its entry and the numbers of its records. It leaves the
    /// position.
    pub fn find<'a>(
        &self,
        alloc: Global,
        join: JoinFile<'a>,
        by: ReadBy<'_>,
    ) -> Result<Option<Row<'a>>, AllocError>
        requires join { IsJoinOf self.now join.spec.now join.members.now.members join.primary.now (map (λ path. path.now) join.secondaries.now) }
        requires asked { IsAskedOf self.now.parts by }
        ensures place { IfOk result (λ found. option_map (place_of self.now.parts join.entry.spec.now join.entry.members.now.members) found
            ≡ asked_of by.entry self.now.parts (rows_reading join.entry.spec.now join.entry.members.now.members) self.now.position) }
        ensures row { IfOk result (λ found. IsFound join.entry.spec.now join.entry.members.now.members found
            (asked_row by.entry self.now.parts join.entry.spec.now join.entry.members.now.members self.now.position)) }
        ensures kept { IfOk result (λ found. IfSome found (λ row. CanBeKept self.now.parts join.entry.spec.now join.entry.members.now.members row)) }
    {
        are_members(join.members);
        found_rows_are_stood_on();
        join.primary.pages().in_order();
        let places = places(alloc, self.matches.as_slice())?;
        let from = place_from(self.stand, self.key.as_slice(), places.as_slice());
        found(alloc, join, from, by)
    }

    /// Stands on the row that a read found. It takes no memory.
    pub fn settle(&mut self, join: JoinFile<'_>, row: &Row<'_>)
        requires sequences { map (λ file. file.sequence) join.spec.now.secondaries ≡ self.old.sequences }
        requires row { CanBeKept self.old.parts join.spec.now join.members.now.members row.now }
        ensures { self.new ≡ record self.old { position = On (place_of self.old.parts join.entry.spec.now join.entry.members.now.members row.now) } }
    {
        copy_key(row.primary.key.as_bytes(), &mut self.key);
        keep_all(
            join.spec.secondaries.as_slice(),
            join.members,
            row.numbers.as_slice(),
            self.matches.as_mut_slice(),
        );
        self.stand = Stand::On(row.primary.rrn);
    }
}

/// Before the values of a key, or past them.
fn at_side(side: Side) -> Stand
    ensures { result ≡ at_side side }
{
    match side {
        Side::Before => Stand::Before,
        Side::Past => Stand::Past,
    }
}

/// Where a read begins.
fn place_from<'a>(stand: Stand, key: &'a [u8], places: &'a [MatchPlace<'a>]) -> RowPosition<'a>
    ensures { (spec : JoinSpec) (parts : List KeyPart) (matches : List MatchKept) → IsStandFor spec parts matches → ArePlaced matches places.now → IsStandIn parts stand key.now
        → IsAt spec result (position_by parts stand key.now matches) }
{
    match stand {
        Stand::Start => RowPosition::Start,
        Stand::End => RowPosition::End,
        Stand::On(rrn) => RowPosition::On {
            key,
            rrn,
            matches: places,
        },
        Stand::Before => RowPosition::Before(key),
        Stand::Past => RowPosition::Past(key),
    }
}
