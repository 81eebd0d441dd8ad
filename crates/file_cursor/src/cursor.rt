//! The cursor of an open.
ghost use Rattle.std.specs.Prelude.{◌≡◌, ◌≤◌, Some, length, IfOk, if◌then◌else◌};
ghost use Rattle.file_cursor.specs.CursorPosition.{Start, On, key_in, lower_limit, greater_than, entry_of, moved_to, marked};
ghost use Rattle.std.specs.Option.{option_map};
ghost use Rattle.std.specs.Ordering.{is_eq};
ghost use Rattle.file_cursor.specs.Finding.{compare_part, where_equal, next_from, prior_from, next_equal, prior_equal, chain_key, chain_number};
ghost use Rattle.file_cursor.specs.Reading.{Suits, falls, entries_in, IsByNumber};

use crate::places::{Hit, Order, Place};
use crate::spot::{Spot, Stand};
use crate::{arrival, keyed};
use access_path::path::Path;
use std::alloc::{AllocError, Global};
use std::marker::Model;

/// Where an open stands, and a position that it keeps beside.
#[derive(Drop)]
pub struct Cursor {
    current: Spot,
    kept: Spot,
}

impl Model for Cursor {
    ghost use Rattle.std.specs.Prelude.{◌≤◌};
    ghost use Rattle.file_cursor.specs.CursorPosition.{CursorState};

    ghost Value = { CursorState };

    ghost view = { λ c. record { position = c.current.position; kept = c.kept.position; room = c.current.room; kept_room = c.kept.room } };

    ghost invariant = { λ c. c.kept.room ≤ c.current.room };
}

impl Cursor {
    /// A cursor at the start, with room for a key of that many bytes, and with `twice` for two positions.
    pub fn with_room(alloc: Global, bytes: usize, twice: bool) -> Result<Cursor, AllocError>
        ensures { IfOk result (λ cursor. cursor ≡ record { position = Start; kept = Start; room = bytes; kept_room = (if twice then bytes else 0) }) }
    {
        let current = Spot::with_room(alloc, bytes)?;
        let kept = Spot::with_room(alloc, if twice { bytes } else { 0 })?;
        Ok(Cursor { current, kept })
    }

    /// Stands before the first entry that isn't less than a place. It takes no memory.
    pub fn setll(&mut self, to: Place<'_>)
        requires { length (key_in to) ≤ self.old.room }
        ensures { self.new ≡ moved_to (lower_limit to.entry) self.old }
    {
        match to {
            Place::Low => self.current.set(Stand::Start, &[]),
            Place::High => self.current.set(Stand::End, &[]),
            Place::Key(key) => self.current.set(Stand::BeforeKey, key),
            Place::Rrn(rrn) => self.current.set(Stand::BeforeNumber(rrn), &[]),
        }
    }

    /// Stands past the last entry that isn't greater than a place. It takes no memory.
    pub fn setgt(&mut self, to: Place<'_>)
        requires { length (key_in to) ≤ self.old.room }
        ensures { self.new ≡ moved_to (greater_than to.entry) self.old }
    {
        match to {
            Place::Low => self.current.set(Stand::Start, &[]),
            Place::High => self.current.set(Stand::End, &[]),
            Place::Key(key) => self.current.set(Stand::PastKey, key),
            Place::Rrn(rrn) => self.current.set(Stand::PastNumber(rrn), &[]),
        }
    }

    /// Stands on what a read found. It takes no memory.
    pub fn settle(&mut self, hit: &Hit<'_>)
        requires { length hit.now.key.now ≤ self.old.room }
        ensures { self.new ≡ moved_to (On (entry_of hit.now)) self.old }
    {
        let Hit { format, rrn, key } = *hit;
        self.current.set(Stand::On { format, rrn }, key);
    }

    /// Keeps the position beside. It takes no memory.
    pub fn mark(&mut self)
        requires { self.old.room ≤ self.old.kept_room }
        ensures { self.new ≡ marked self.old }
    {
        self.kept.set_as(&self.current);
    }

    /// Stands at the position that is kept, which is the start before the first `mark`. It takes no memory.
    pub fn go_back(&mut self)
        ensures { self.new ≡ moved_to self.old.kept self.old }
    {
        self.current.set_as(&self.kept);
    }

    /// What READ finds: the first entry after the position.
    pub fn read<'a>(&self, over: Order<'a>) -> Option<Hit<'a>>
        requires { Suits over self.now.position }
        ensures { option_map entry_of result ≡ next_from (falls over.entry) (entries_in over.entry) self.now.position }
    {
        match over {
            Order::Arrival(member) => arrival::next(&self.current, member),
            Order::Path(path) => keyed::next(&self.current, path),
        }
    }

    /// What READP finds: the last entry before the position.
    pub fn readp<'a>(&self, over: Order<'a>) -> Option<Hit<'a>>
        requires { Suits over self.now.position }
        ensures { option_map entry_of result ≡ prior_from (falls over.entry) (entries_in over.entry) self.now.position }
    {
        match over {
            Order::Arrival(member) => arrival::prior(&self.current, member),
            Order::Path(path) => keyed::prior(&self.current, path),
        }
    }

    /// What READE finds: the first entry after the position, where its key begins with these bytes.
    pub fn reade<'a>(&self, over: Order<'a>, key: &[u8]) -> Option<Hit<'a>>
        requires { Suits over self.now.position }
        ensures { option_map entry_of result ≡ next_equal (falls over.entry) (entries_in over.entry) key.now self.now.position }
    {
        let hit = self.read(over)?;
        where_equal(hit, key)
    }

    /// What READPE finds: the last entry before the position, where its key begins with these bytes.
    pub fn readpe<'a>(&self, over: Order<'a>, key: &[u8]) -> Option<Hit<'a>>
        requires { Suits over self.now.position }
        ensures { option_map entry_of result ≡ prior_equal (falls over.entry) (entries_in over.entry) key.now self.now.position }
    {
        let hit = self.readp(over)?;
        where_equal(hit, key)
    }
}

/// What CHAIN finds by key: the first entry whose key begins with these bytes.
pub fn chain_key<'a>(path: &'a Path, key: &[u8]) -> Option<Hit<'a>>
    ensures { option_map entry_of result ≡ chain_key key.now path.now.entries }
{
    let hit = keyed::first_upto(path, key)?;
    where_equal(hit, key)
}

/// What CHAIN finds by relative record number: the record of this number.
pub fn chain_number<'a>(over: Order<'a>, rrn: u32) -> Option<Hit<'a>>
    requires { IsByNumber over }
    ensures { option_map entry_of result ≡ chain_number rrn (entries_in over.entry) }
{
    match over {
        Order::Arrival(member) => arrival::record(member, rrn),
        Order::Path(path) => keyed::record(path, rrn),
    }
}

/// A hit, where its key begins with these bytes.
fn where_equal<'a>(hit: Hit<'a>, key: &[u8]) -> Option<Hit<'a>>
    ensures { option_map entry_of result ≡ where_equal key.now (Some (entry_of hit.entry)) }
{
    if begins_with(hit.key, key) {
        Some(hit)
    } else {
        None
    }
}

fn begins_with(key: &[u8], part: &[u8]) -> bool
    ensures { result ≡ is_eq (compare_part part.now key.now) }
{
    let length = key.len().min(part.len());
    (&key[..length]).cmp(&part).is_eq()
}
