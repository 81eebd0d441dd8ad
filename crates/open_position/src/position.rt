//! The position of an open. What sets it takes no memory.
ghost use Rattle.std.specs.Prelude.{◌≡◌, ◌≤◌, ℕ, [], ◌∷◌, length, map, IfOk, IfSome, IsTrue};
ghost use Rattle.std.specs.Option.{option_map};
ghost use Rattle.member_slots.specs.Members.{NumberedMembers};
ghost use Rattle.file_model.specs.declared.paths.PathSpec.{PathSpec};
ghost use Rattle.file_model.specs.KeyOrder.{merged_parts};
ghost use Rattle.file_model.specs.Paths.{path};
ghost use Rattle.file_model.specs.Positions.{Start, On, path_reading, arrival_reading};
ghost use Rattle.access_path.below.key_order.specs.declared.widths.TheConstants.{MOST_POSITIONS};
ghost use Rattle.access_path.specs.KeyFields.{ArePositions};
ghost use Rattle.file_cursor.specs.CursorPosition.{entry_of, key_in, moved_to};
ghost use Rattle.file_cursor.specs.Finding.{chain_key};
ghost use Rattle.file_cursor.specs.Reading.{Suits, falls, entries_in};
ghost use Rattle.open_position.specs.OpenStand.{AreFormatKeys, IsEntryIn};
ghost use Rattle.open_position.specs.Kept.{side_in};
ghost use Rattle.open_position.specs.Reads.{stood, IsStandAt, asked_of, IsAskedOf, IsOrderOf, IsByPath, IsLookedUp, CanFind, found_of, IfPath, IfArrival, IsPathOver, entry_hit};

use crate::formats::{keys_of, merged_parts};
use crate::given::GivenKey;
use crate::reads::ReadBy;
use access_path::key_order::widths::bound;
use field_types::values::Value;
use file_cursor::cursor::{Cursor, chain_key, chain_number};
use file_cursor::places::{Hit, Order, Place};
use file_model::paths::PathFormat;
use key_spec::{KeyPart, KeyParts};
use key_values::laws::{given_keys_are_read_back, keys_are_read_back};
use std::alloc::{AllocError, Global};
use std::marker::Model;

/// To which side of a place a position is set: before it (SETLL), or past it (SETGT).
#[derive(Clone, Copy)]
pub enum Side {
    Before,
    Past,
}

/// A place to which a position is set.
#[derive(Clone, Copy)]
pub enum StandAt<'a> {
    /// Before all records (*LOVAL).
    Low,
    /// Past all records (*HIVAL).
    High,
    /// Before or past the values of the first positions of the key.
    Values(&'a [Value]),
    /// Before or past a relative record number.
    Number(u32),
}

/// Where an open stands, and where it stood at the last boundary.
#[derive(Drop)]
pub struct OpenPosition {
    /// The positions of the key in each format that is read. One that has none is read by relative record numbers.
    formats: Vec<KeyParts>,
    /// The positions of all formats together.
    keys: GivenKey,
    cursor: Cursor,
    /// Whether there is room for the position at a boundary.
    marks: bool,
}

impl Model for OpenPosition {
    ghost use Rattle.open_position.specs.OpenStand.{OpenStand};
    ghost use Rattle.open_position.specs.Kept.{stand_of, IsKeptStand};

    ghost Value = { OpenStand };

    ghost view = { λ p. stand_of p.formats.items p.cursor p.marks };

    ghost invariant = { λ p. IsKeptStand p.formats.items p.keys.parts p.cursor p.marks };
}

impl OpenPosition {
    /// The start, of an open that reads by relative record numbers, with `marks` of one under commitment control.
    pub fn by_number(alloc: Global, marks: bool) -> Result<OpenPosition, AllocError>
        ensures { IfOk result (λ p. p ≡ record { position = Start; boundary = Start; formats = [] ∷ []; marks = marks }) }
    {
        let mut formats = Vec::new(alloc);
        formats.push(KeyParts::new(alloc))?;
        OpenPosition::at_start(alloc, formats, KeyParts::new(alloc), marks)
    }

    /// The start, of an open that reads by a path with these formats.
    pub fn by_path(
        alloc: Global,
        formats: &[PathFormat],
        marks: bool,
    ) -> Result<OpenPosition, AllocError>
        requires { AreFormatKeys (map (λ format. format.key) formats.now) }
        ensures { IfOk result (λ p. p ≡ record { position = Start; boundary = Start; formats = map (λ format. format.key) formats.now; marks = marks }) }
    {
        let keys = keys_of(alloc, formats)?;
        let merged = merged_parts(alloc, formats)?;
        OpenPosition::at_start(alloc, keys, merged, marks)
    }

    /// The start, with these formats and their positions together.
    fn at_start(
        alloc: Global,
        formats: Vec<KeyParts>,
        merged: KeyParts,
        marks: bool,
    ) -> Result<OpenPosition, AllocError>
        requires keys { AreFormatKeys formats.items }
        requires merged { merged ≡ merged_parts formats.items }
        ensures { IfOk result (λ p. p ≡ record { position = Start; boundary = Start; formats = formats.items; marks = marks }) }
    {
        let keys = GivenKey::new(alloc, merged)?;
        let cursor = Cursor::with_room(alloc, bound(keys.parts()), marks)?;
        Ok(OpenPosition {
            formats,
            keys,
            cursor,
            marks,
        })
    }

    /// The positions of the key by which it reads, of all its formats together. They can be compared with given values.
    pub fn parts(&self) -> &[KeyPart]
        ensures parts { result.now ≡ merged_parts self.now.formats }
        ensures few { length result.now ≤ MOST_POSITIONS }
        ensures allowed { ArePositions result.now }
    {
        self.keys.parts()
    }

    /// Stands at this side of a place. It takes no memory.
    pub fn stand(&mut self, side: Side, at: StandAt<'_>)
        requires { IsStandAt self.old.formats at }
        ensures { self.new ≡ record self.old { position = stood side (merged_parts self.old.formats) at.entry } }
    {
        match at {
            StandAt::Low => set(&mut self.cursor, side, Place::Low),
            StandAt::High => set(&mut self.cursor, side, Place::High),
            StandAt::Values(values) => {
                self.keys.give(values);
                set(&mut self.cursor, side, Place::Key(self.keys.bytes()));
            }
            StandAt::Number(rrn) => set(&mut self.cursor, side, Place::Rrn(rrn)),
        }
    }

    /// Stands on what a read found.
    pub fn settle(&mut self, hit: &Hit<'_>)
        requires { IsEntryIn self.old.formats (entry_of hit.now) }
        ensures { self.new ≡ record self.old { position = On (entry_hit (merged_parts self.old.formats) hit.now) } }
    {
        self.cursor.settle(hit);
    }

    /// Keeps the position for the next `go_back`.
    pub fn mark(&mut self)
        requires { IsTrue self.old.marks }
        ensures { self.new ≡ record self.old { boundary = self.old.position } }
    {
        self.cursor.mark();
    }

    /// Stands where it stood at the last `mark`, and at the start before the first.
    pub fn go_back(&mut self)
        ensures { self.new ≡ record self.old { position = self.old.boundary } }
    {
        self.cursor.go_back();
    }

    /// What a read finds among the records in an order: the definition's entry, whose key is in bytes. It leaves the position.
    pub fn find<'a>(&self, over: Order<'a>, by: ReadBy<'_>) -> Option<Hit<'a>>
        requires order { IsOrderOf self.now.formats over }
        requires asked { IsAskedOf self.now.formats by }
        requires looked { IsLookedUp by over }
        ensures by_path { (spec : PathSpec) (members : NumberedMembers) → IfPath over.entry (λ list. IsPathOver self.now.formats spec members list
            → option_map (entry_hit (merged_parts self.now.formats)) result ≡ asked_of by.entry (merged_parts self.now.formats) (path_reading spec.ties (path spec members)) self.now.position) }
        ensures by_number { IfArrival over.entry (λ member. option_map (entry_hit (merged_parts self.now.formats)) result ≡ asked_of by.entry (merged_parts self.now.formats) (arrival_reading member) self.now.position) }
        ensures bytes { (spec : PathSpec) (members : NumberedMembers) → IfPath over.entry (λ list. IsPathOver self.now.formats spec members list → IfSome result (λ hit. IsEntryIn self.now.formats (entry_of hit))) }
        ensures bytes_by_number { IfArrival over.entry (λ member. IfSome result (λ hit. IsEntryIn self.now.formats (entry_of hit))) }
    {
        keys_are_read_back();
        given_keys_are_read_back();
        found(&self.cursor, over, by)
    }
}

/// Stands at this side of a place in bytes.
fn set(cursor: &mut Cursor, side: Side, to: Place<'_>)
    requires { length (key_in to) ≤ cursor.old.room }
    ensures { cursor.new ≡ moved_to (side_in side to.entry) cursor.old }
{
    match side {
        Side::Before => cursor.setll(to),
        Side::Past => cursor.setgt(to),
    }
}

/// What a read finds from where a cursor stands.
fn found<'a>(cursor: &Cursor, over: Order<'a>, by: ReadBy<'_>) -> Option<Hit<'a>>
    requires suits { Suits over cursor.now.position }
    requires can { CanFind by over }
    ensures { option_map entry_of result ≡ found_of by.entry (falls over.entry) (entries_in over.entry) cursor.now.position }
{
    match by {
        ReadBy::Next => cursor.read(over),
        ReadBy::Prior => cursor.readp(over),
        ReadBy::NextEqual(key) => cursor.reade(over, key),
        ReadBy::PriorEqual(key) => cursor.readpe(over, key),
        ReadBy::FirstEqual(key) => first_equal(over, key),
        ReadBy::Number(rrn) => chain_number(over, rrn),
    }
}

/// The first entry of a path whose key begins with these bytes.
fn first_equal<'a>(over: Order<'a>, key: &[u8]) -> Option<Hit<'a>>
    requires { IsByPath over }
    ensures { option_map entry_of result ≡ chain_key key.now (entries_in over.entry) }
{
    match over {
        Order::Path(path) => chain_key(path, key),
        Order::Arrival(_) => unreachable!(),
    }
}
