//! One position, with the bytes of its key.
ghost use Rattle.std.specs.Prelude.{◌≡◌, ◌≤◌, ℕ, Bool, true, false, length, IfOk};
ghost use Rattle.key_pages.specs.declared.entries.Entry.{Entry};
ghost use Rattle.key_pages.specs.EntryList.{EntryList};
ghost use Rattle.key_pages.specs.Position as pages;
ghost use Rattle.file_cursor.specs.CursorPosition.{Start, position_of};
ghost use Rattle.file_cursor.specs.Finding.{side_of};
ghost use Rattle.file_cursor.specs.Reading.{IsByKey, ByNumbers, SuitsPath, AreNumbered};

use key_pages::Position;
use std::alloc::{AllocError, Global};
use std::marker::Model;

/// How a position stands to its key, or to a number.
#[derive(Clone, Copy)]
pub(crate) enum Stand {
    Start,
    End,
    On { format: u16, rrn: u32 },
    BeforeKey,
    PastKey,
    BeforeNumber(u32),
    PastNumber(u32),
}

/// What a position is among relative record numbers: those below one are before it, and those from the other on after it.
#[derive(Clone, Copy)]
pub(crate) struct Gap {
    pub(crate) until: u64,
    pub(crate) from: u64,
}

/// A position. Contracts see it with the room for its key.
#[derive(Drop)]
pub(crate) struct Spot {
    stand: Stand,
    key: Vec<u8>,
    room: usize,
}

impl Model for Spot {
    ghost use Rattle.std.specs.Prelude.{◌≤◌, length, vec_capacity};
    ghost use Rattle.file_cursor.specs.CursorPosition.{SpotState, position_of};

    ghost Value = { SpotState };

    ghost view = { λ s. record { position = position_of s.stand s.key.items; room = s.room } };

    ghost invariant = { λ s. (s.room ≤ vec_capacity s.key) × (length s.key.items ≤ s.room) };
}

impl Spot {
    /// The start, with room for a key of that many bytes.
    pub(crate) fn with_room(alloc: Global, bytes: usize) -> Result<Spot, AllocError>
        ensures { IfOk result (λ spot. spot ≡ record { position = Start; room = bytes }) }
    {
        let key = Vec::with_capacity(alloc, bytes)?;
        Ok(Spot {
            stand: Stand::Start,
            key,
            room: bytes,
        })
    }

    /// Stands elsewhere. It takes no memory.
    pub(crate) fn set(&mut self, stand: Stand, key: &[u8])
        requires { length key.now ≤ self.old.room }
        ensures position { self.new.position ≡ position_of stand key.now }
        ensures room { self.new.room ≡ self.old.room }
    {
        self.stand = stand;
        self.key.clear();
        self.key.extend_from_slice(key).unwrap();
    }

    /// Stands where the other does. It takes no memory.
    pub(crate) fn set_as(&mut self, other: &Spot)
        requires { other.now.room ≤ self.old.room }
        ensures position { self.new.position ≡ other.now.position }
        ensures room { self.new.room ≡ self.old.room }
    {
        self.stand = other.stand;
        self.key.clear();
        self.key.extend_from_slice(other.key.as_slice()).unwrap();
    }

    /// Whether a number set the position.
    pub(crate) fn is_by_number(&self) -> bool
        ensures by_key { result ≡ false → IsByKey self.now.position }
        ensures by_number { result ≡ true → (list : EntryList) → SuitsPath list self.now.position → AreNumbered list }
    {
        match self.stand {
            Stand::BeforeNumber(_) | Stand::PastNumber(_) => true,
            Stand::Start | Stand::End | Stand::On { .. } | Stand::BeforeKey | Stand::PastKey => {
                false
            }
        }
    }

    /// The position among the entries of a path.
    pub(crate) fn in_path(&self) -> Position<'_>
        requires { IsByKey self.now.position }
        ensures { (falling : Bool) (entry : Entry) → pages.side_of falling result entry ≡ side_of falling self.now.position entry }
    {
        let key = self.key.as_slice();
        match self.stand {
            Stand::Start => Position::Start,
            Stand::End => Position::End,
            Stand::On { format, rrn } => Position::On { key, format, rrn },
            Stand::BeforeKey => Position::Before(key),
            Stand::PastKey => Position::Past(key),
            Stand::BeforeNumber(_) | Stand::PastNumber(_) => unreachable!(),
        }
    }

    /// The gap between relative record numbers, or none where all numbers are before the position.
    pub(crate) fn by_numbers(&self) -> Option<Gap>
        ensures { ByNumbers self.now.position result }
    {
        match self.stand {
            Stand::Start => Some(Gap { until: 0, from: 0 }),
            Stand::On { format: 0, rrn } if self.key.is_empty() => Some(Gap {
                until: u64::from(rrn),
                from: u64::from(rrn) + 1,
            }),
            Stand::BeforeKey if self.key.is_empty() => Some(Gap { until: 0, from: 0 }),
            Stand::BeforeNumber(rrn) => Some(Gap {
                until: u64::from(rrn),
                from: u64::from(rrn),
            }),
            Stand::PastNumber(rrn) => Some(Gap {
                until: u64::from(rrn) + 1,
                from: u64::from(rrn) + 1,
            }),
            Stand::End | Stand::On { .. } | Stand::BeforeKey | Stand::PastKey => None,
        }
    }
}
