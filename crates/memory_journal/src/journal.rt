//! The journal in memory: what of it isn't on the disk yet, and how much is.
ghost use Rattle.std.specs.Prelude.{◌≡◌, ◌≤◌, ◌<◌, ◌+◌, ◌^◌, [], ◌∷◌, ◌++◌, length, drop, vec_capacity, vec_len, OnOk};
ghost use Rattle.lawful_states.below.library_steps.specs.declared.limits.TheConstants.{LAST_RECEIVER};
ghost use Rattle.lawful_states.specs.Receivers.{last_in};
ghost use Rattle.journal_model.specs.Journal.{AreNumbered};
ghost use Rattle.memory_journal.specs.declared.journal.TheConstants.{LAST_NUMBER};
ghost use Rattle.memory_journal.specs.Blanks.{in_memory};
ghost use Rattle.memory_journal.specs.Journal.{empty_journal, restarted_journal, last_entry, deposited, forgotten, attached, given_up, dropped};

use crate::ends::next_receiver;
use entry_codec::{Draft, Entry};
use lawful_states::library_steps::limits::LAST_RECEIVER;
use std::alloc::{AllocError, Global};
use std::marker::Model;

/// The greatest last sequence behind which entries may be deposited.
pub const LAST_BEFORE_DEPOSIT: u64 = 9_223_372_036_854_775_808;

/// The greatest sequence of an entry.
pub const LAST_NUMBER: u64 = 9_223_372_036_854_775_810;

/// The entries that aren't on the disk yet, how many stand before them, the receivers, and the last checkpoint. Contracts see a blank for each entry that
/// stands on the disk alone.
#[derive(Drop)]
pub struct MemoryJournal {
    gone: u64,
    /// How many entries that are kept stand on the disk alone.
    passed: u64,
    entries: Vec<Entry>,
    first: u32,
    attached: u32,
    checkpoint: u64,
}

impl Model for MemoryJournal {
    ghost use Rattle.std.specs.Prelude.{◌≡◌, ◌≤◌, ◌+◌, ◌-◌, ◌++◌, length, vec_capacity, vec_len};
    ghost use Rattle.journal_model.specs.Journal.{AreNumbered};
    ghost use Rattle.memory_journal.specs.declared.journal.TheConstants.{LAST_NUMBER};
    ghost use Rattle.memory_journal.specs.Blanks.{blanks, in_memory};
    ghost use Rattle.memory_journal.specs.Journal.{Held, room_of};

    ghost Value = { Held };

    ghost view = { λ j. record {
      journal = record {
        gone = j.gone;
        entries = blanks (j.gone + 1) j.passed ++ j.entries.items;
        receivers = record { first = j.first; attached = j.attached };
        checkpoint = j.checkpoint;
      };
      room = room_of (vec_capacity j.entries - vec_len j.entries) (j.gone + (j.passed + length j.entries.items));
    } };

    ghost invariant = { λ j.
        (j.gone + (j.passed + length j.entries.items) ≤ LAST_NUMBER) × AreNumbered (j.gone + 1 + j.passed) j.entries.items
        × (in_memory j.entries.items ≡ j.entries.items) };
}

impl MemoryJournal {
    /// That of a library with nothing in it.
    pub fn new(alloc: Global) -> MemoryJournal
        ensures { result.journal ≡ empty_journal }
    {
        MemoryJournal {
            gone: 0,
            passed: 0,
            entries: Vec::new(alloc),
            first: 1,
            attached: 1,
            checkpoint: 0,
        }
    }

    /// So many entries on the disk, from the first one on. No receiver is gone, and this one is attached.
    pub fn restarted(alloc: Global, count: u64, attached: u32) -> MemoryJournal
        requires { count ≤ LAST_NUMBER }
        ensures { result.journal ≡ restarted_journal count attached }
    {
        MemoryJournal {
            gone: 0,
            passed: count,
            entries: Vec::new(alloc),
            first: 1,
            attached,
            checkpoint: 0,
        }
    }

    /// The first sequence that is kept, or would be, and the last.
    pub fn bounds(&self) -> (u64, u64)
        ensures first { result.0 ≡ self.now.journal.gone + 1 }
        ensures last { result.1 ≡ last_entry self.now.journal }
        ensures fits { last_entry self.now.journal ≤ LAST_NUMBER }
        ensures room { self.now.room ≤ LAST_NUMBER }
        ensures numbered { AreNumbered (self.now.journal.gone + 1) self.now.journal.entries }
    {
        (
            self.gone + 1,
            self.gone + (self.passed + self.entries.len() as u64),
        )
    }

    /// Makes room for so many entries more, where so many sequences are left. Their bytes count where the journal is on a disk.
    #[tactic(auto, using(crate::proofs::BlankLemmas::length_behind))]
    pub fn reserve(&mut self, entries: u64, _bytes: u64) -> Result<(), AllocError>
        ensures unchanged { self.new.journal ≡ self.old.journal }
        ensures room { OnOk result (entries ≤ self.new.room) }
        ensures kept { self.old.room ≤ self.new.room }
    {
        let (_, last) = self.bounds();
        if entries > LAST_NUMBER - last {
            return Err(AllocError);
        }
        self.entries.reserve(entries as usize)
    }

    /// Gives the draft the next sequence, and answers it.
    pub fn deposit(&mut self, draft: Draft) -> u64
        requires { 1 ≤ self.old.room }
        ensures sequence { result ≡ last_entry self.old.journal + 1 }
        ensures deposited { self.new.journal ≡ deposited (draft ∷ []) self.old.journal }
        ensures room { self.old.room ≤ self.new.room + 1 }
    {
        self.push(draft)
    }

    fn push(&mut self, draft: Draft) -> u64
        requires { 1 ≤ self.old.room }
        ensures sequence { result ≡ last_entry self.old.journal + 1 }
        ensures deposited { self.new.journal ≡ deposited (draft ∷ []) self.old.journal }
        ensures room { self.old.room ≤ self.new.room + 1 }
    {
        let (_, last) = self.bounds();
        let sequence = last + 1;
        self.entries.push_reserved(draft.numbered(sequence));
        sequence
    }

    /// The entries that are in memory: those that were deposited since the others were forgotten.
    pub fn in_memory(&self) -> &[Entry]
        ensures { result.now ≡ in_memory self.now.journal.entries }
    {
        self.entries.as_slice()
    }

    /// The entries stand on the disk, and are no longer in memory. Their room stays.
    pub fn forget(&mut self)
        ensures journal { self.new.journal ≡ forgotten self.old.journal }
        ensures room { self.old.room ≤ self.new.room }
    {
        self.passed += self.entries.len() as u64;
        self.entries.clear();
    }

    /// The number of the first receiver that is kept.
    pub fn first_receiver(&self) -> u32
        ensures { result ≡ self.now.journal.receivers.first }
    {
        self.first
    }

    /// The number of the receiver that is attached.
    pub fn attached(&self) -> u32
        ensures { result ≡ self.now.journal.receivers.attached }
    {
        self.attached
    }

    /// The sequence of the last entry of a receiver that isn't attached, where that one is in memory.
    pub fn last_in(&self, receiver: u32) -> Option<u64>
        ensures { result ≡ last_in receiver self.now.journal.entries }
    {
        last_among(self.entries.as_slice(), receiver)
    }

    /// Deposits the entry that ends the receiver and the one that begins the next, attaches that one, and answers its number.
    pub fn switch(&mut self, next: Draft, previous: Draft) -> u32
        requires few { self.old.journal.receivers.attached < LAST_RECEIVER }
        requires room { 2 ≤ self.old.room }
        ensures number { result ≡ self.old.journal.receivers.attached + 1 }
        ensures switched { self.new.journal ≡ attached (self.old.journal.receivers.attached + 1) (deposited (next ∷ previous ∷ []) self.old.journal) }
        ensures room { self.old.room ≤ self.new.room + 2 }
    {
        let _sequence = self.push(next);
        let _sequence = self.push(previous);
        self.attached += 1;
        self.attached
    }

    /// The receivers up to this one are gone, and their entries with them.
    pub fn drop_before(&mut self, receiver: u32)
        requires { receiver < self.old.journal.receivers.attached }
        ensures journal { self.new.journal ≡ dropped receiver self.old.journal }
        ensures room { self.old.room ≤ self.new.room }
    {
        let last = self.last_in(receiver).unwrap_or(self.gone);
        self.give_up(receiver, last);
    }

    #[tactic(auto, using(crate::proofs::BlankLemmas::length_behind))]
    fn give_up(&mut self, receiver: u32, last: u64)
        requires kept { self.old.journal.gone ≤ last }
        requires there { last ≤ last_entry self.old.journal }
        requires below { receiver < self.old.journal.receivers.attached }
        ensures journal { self.new.journal ≡ given_up receiver last self.old.journal }
        ensures room { self.old.room ≤ self.new.room }
    {
        let count = last - self.gone;
        let in_memory = count.saturating_sub(self.passed);
        self.passed = self.passed.saturating_sub(count);
        drop_front(&mut self.entries, in_memory as usize);
        self.gone = last;
        self.first = receiver + 1;
    }

    /// The sequence of the last checkpoint, 0 where there is none.
    pub fn checkpoint(&self) -> u64
        ensures { result ≡ self.now.journal.checkpoint }
    {
        self.checkpoint
    }

    /// The state of that sequence was saved.
    pub fn save(&mut self, sequence: u64)
        ensures journal { self.new.journal ≡ record self.old.journal { checkpoint = sequence } }
        ensures room { self.new.room ≡ self.old.room }
    {
        self.checkpoint = sequence;
    }
}

/// The sequence of the last entry of a receiver among these.
fn last_among(entries: &[Entry], receiver: u32) -> Option<u64>
    ensures { result ≡ last_in receiver entries.now }
{
    for entry in entries {
        if let Some(next) = next_receiver(&entry.kind) {
            if u64::from(next) == u64::from(receiver) + 1 {
                return Some(entry.sequence);
            }
        }
    }
    None
}

/// The first entries are gone; the others keep their order, and the memory stays.
fn drop_front(entries: &mut Vec<Entry>, count: usize)
    requires { count ≤ length entries.old.items }
    ensures items { entries.new.items ≡ drop count entries.old.items }
    ensures capacity { vec_capacity entries.new ≡ vec_capacity entries.old }
    ensures len { vec_len entries.new + count ≡ vec_len entries.old }
{
    let left = entries.len() - count;
    entries.rotate_left(count);
    entries.truncate(left);
}
