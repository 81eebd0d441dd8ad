//! The opens of a job in order, found by their names.
ghost use Rattle.std.specs.Prelude.{◌≡◌, ℕ, ◌+◌, ◌<◌, ◌≤◌, ◌==◌, not, [], ◌∷◌, ◌++◌, length, map, filter, All, IfOk, option_copied};
ghost use Rattle.std.specs.List.{list_any};
ghost use Rattle.library_model.specs.declared.limits.TheConstants.{MOST_OPENS};
ghost use Rattle.library_model.specs.Named.{named, same_name};
ghost use Rattle.job_table.specs.OpenChanges.{CanMake, open_after};
ghost use Rattle.job_table.specs.Opens.{state_in, states_of, is_committed_in, has_committed, is_of, is_over};

use crate::open::Open;
use field_types::names::Name;
use file_cursor::places::Hit;
use join_position::join_rows::rows::{JoinFile, Row};
use join_position::open_position::position::{Side, StandAt};
use library_model::limits::MOST_OPENS;
use lock_table::Call;
use std::alloc::{AllocError, Global};
use std::marker::Model;

/// A row of a join file that was read.
#[derive(Clone, Copy)]
pub struct RowRead<'a> {
    pub join: JoinFile<'a>,
    pub row: &'a Row<'a>,
}

/// What a call makes of the opens of its job: of the one with a number, of those on a record, or of those under commitment.
#[derive(Clone, Copy)]
pub enum OpenChange<'a> {
    Positioned(u32, Side, StandAt<'a>),
    HasRead(u32, Call, Hit<'a>),
    HasReadRow(u32, Call, RowRead<'a>),
    WithoutCurrent(u32),
    WithoutRecord(u32, u32),
    Committed,
    RolledBack,
}

/// Numbers of opens of a job.
#[derive(Drop)]
pub struct OpenNumbers {
    numbers: [u32; MOST_OPENS],
    count: usize,
}

impl Model for OpenNumbers {
    ghost use Rattle.std.specs.Prelude.{List, ℕ, ◌≤◌, take};
    ghost use Rattle.library_model.specs.declared.limits.TheConstants.{MOST_OPENS};

    ghost Value = { List ℕ };

    ghost view = { λ n. take n.count n.numbers };

    ghost invariant = { λ n. n.count ≤ MOST_OPENS };
}

impl OpenNumbers {
    fn new() -> OpenNumbers
        ensures { result ≡ [] }
    {
        OpenNumbers {
            numbers: [0; MOST_OPENS],
            count: 0,
        }
    }

    fn add(&mut self, number: u32)
        requires { length self.old < MOST_OPENS }
        ensures { self.new ≡ self.old ++ number ∷ [] }
    {
        self.numbers[self.count] = number;
        self.count += 1;
    }

    /// The numbers in order.
    pub fn as_slice(&self) -> &[u32]
        ensures { result.now ≡ self.now }
    {
        &self.numbers[..self.count]
    }
}

/// The opens of a job with their names. There is room for as many as a job may have, and closing one gives its room back.
#[derive(Drop)]
pub struct Opens {
    opens: Vec<(Name, Open)>,
}

impl Model for Opens {
    ghost use Rattle.std.specs.Prelude.{vec_len, vec_capacity};
    ghost use Rattle.library_model.specs.Named.{Named};
    ghost use Rattle.job_table.specs.Opens.{KeptOpen, HasRoomForAll};

    ghost Value = { Named KeptOpen };

    ghost view = { λ o. o.opens.items };

    ghost invariant = { λ o. HasRoomForAll (vec_len o.opens) (vec_capacity o.opens) };
}

impl Opens {
    /// No opens.
    pub fn new(alloc: Global) -> Result<Opens, AllocError>
        ensures { IfOk result (λ opens. opens ≡ []) }
    {
        Ok(Opens {
            opens: Vec::with_capacity(alloc, MOST_OPENS)?,
        })
    }

    /// How many there are.
    pub fn len(&self) -> usize
        ensures count { result ≡ length self.now }
        ensures few { result ≤ MOST_OPENS }
    {
        self.opens.len()
    }

    /// The open of that name.
    pub fn named(&self, name: &Name) -> Option<&Open>
        ensures { option_copied result ≡ named name.now self.now }
    {
        for entry in &self.opens {
            if *name == entry.0 {
                return Some(&entry.1);
            }
        }
        None
    }

    /// Whether one of them is over the member.
    pub fn are_over(&self, member: u32) -> bool
        ensures { result ≡ list_any (is_over member) (states_of self.now) }
    {
        for entry in &self.opens {
            if entry.1.is_over(member) {
                return true;
            }
        }
        false
    }

    /// Whether one of them is of the file.
    pub fn are_of(&self, file: &Name) -> bool
        ensures { result ≡ list_any (is_of file.now) (states_of self.now) }
    {
        for entry in &self.opens {
            if *file == entry.1.file() {
                return true;
            }
        }
        false
    }

    /// Whether one of them is under commitment control.
    pub fn have_committed(&self) -> bool
        ensures { result ≡ list_any has_committed (states_of self.now) }
    {
        for entry in &self.opens {
            if entry.1.commit() {
                return true;
            }
        }
        false
    }

    /// The numbers of those under commitment control.
    pub fn committed(&self) -> OpenNumbers
        ensures { (number : ℕ) → list_any (λ n. n == number) result ≡ list_any (λ entry. is_committed_in number (state_in entry)) self.now }
    {
        let mut numbers = OpenNumbers::new();
        for entry in &self.opens {
            if entry.1.commit() {
                numbers.add(entry.1.number());
            }
        }
        numbers
    }

    /// One open more.
    pub fn add(&mut self, name: Name, opened: Open)
        requires { length self.old < MOST_OPENS }
        ensures { self.new ≡ self.old ++ (name, opened) ∷ [] }
    {
        self.opens.push_reserved((name, opened));
    }

    /// Closes the open of that name.
    pub fn remove(&mut self, name: &Name)
        ensures { self.new ≡ filter (λ entry. not (same_name name.now entry.0)) self.old }
    {
        self.opens.retain(|entry| *name != entry.0);
    }

    /// Closes every open.
    pub fn clear(&mut self)
        ensures { self.new ≡ [] }
    {
        self.opens.clear();
    }

    /// What the change makes of each.
    pub fn change_each(&mut self, change: &OpenChange<'_>)
        requires { All (λ entry. CanMake change.now entry.1.order) self.old }
        ensures { self.new ≡ map (λ entry. (entry.0, open_after change.now entry.1)) self.old }
    {
        for entry in self.opens.iter_mut() {
            entry.1.make(change);
        }
    }
}
