//! The kept path itself.
ghost use Rattle.std.specs.Prelude.{◌≡◌, ◌+◌, ◌*◌, ◌≤◌, [], Some, None, IfOk, OnOk, OnErr, IfSome, IsSome, Contains, length, is_some, if◌then◌else◌};
ghost use Rattle.std.specs.Option.{option_copied};
ghost use Rattle.member_slots.specs.Members.{member_at, with_member};
ghost use Rattle.access_path.specs.KeptEntries.{entry_with, image_key, kept};
ghost use Rattle.access_path.specs.Rebuilding.{member_slots, TakesAll};
ghost use Rattle.access_path.specs.Clash.{least_other};
ghost use Rattle.access_path.specs.Moves.{opposite, without_key, with_key, moved, FitsIn};

use crate::clash;
use crate::entrant::Entrant;
use crate::prepared::Prepared;
use crate::rebuilding::{add_formats, add_formats_with};
use key_order::key_pages::{Entry, EntryRef, Key, Pages};
use member_slots::member::Member;
use member_slots::members::Members;
use std::alloc::{AllocError, Global};
use std::marker::Model;

/// The entries of an access path. Contracts see it as its pages.
#[derive(Drop)]
pub struct Path {
    pages: Pages,
    falling: bool,
    alloc: Global,
}

impl Model for Path {
    ghost use Rattle.std.specs.Prelude.{◌≡◌};
    ghost use Rattle.key_order.specs.EntryList.{EntryList};

    ghost Value = { EntryList };

    ghost view = { λ p. p.pages };

    ghost invariant = { λ p. p.pages.falling ≡ p.falling };
}

impl Path {
    /// A path without entries. Equal keys go by rising relative record number, or with `falling` by falling.
    pub fn new(alloc: Global, falling: bool) -> Path
        ensures { result ≡ record { entries = []; falling = falling; spare = 0; pages = [] } }
    {
        Path {
            pages: Pages::new(alloc, falling),
            falling,
            alloc,
        }
    }

    /// The entries, for whoever reads by them.
    pub fn pages(&self) -> &Pages
        ensures { result.now ≡ self.now }
    {
        &self.pages
    }

    /// The least number of another record that has the key. It takes no memory.
    pub fn clash(&self, key: &Key, rrn: u32) -> Option<u32>
        ensures { result ≡ least_other key.now rrn self.now.entries }
    {
        clash::least_other(&self.pages, key.as_bytes(), rrn)
    }

    /// Makes the path anew from the members. Only want of memory is an error; the path then stays as it was.
    pub fn rebuild<E: Entrant>(&mut self, by: &E, members: &Members) -> Result<(), AllocError>
        requires { TakesAll (E.takes by.now) 0 (member_slots (E.members by.now) members.now.members) }
        ensures entries { OnOk result (self.new.entries ≡ kept (E.keys by.now) self.old.falling (member_slots (E.members by.now) members.now.members)) }
        ensures falling { self.new.falling ≡ self.old.falling }
        ensures unchanged { OnErr result (self.new ≡ self.old) }
    {
        let mut pages = Pages::new(self.alloc, self.falling);
        add_formats(self.alloc, &mut pages, by, members)?;
        self.pages = pages;
        Ok(())
    }

    /// Makes the path anew, as `rebuild` does, of the members with this one in the place of the member of the number.
    pub fn rebuild_with<E: Entrant>(
        &mut self,
        by: &E,
        members: &Members,
        number: u32,
        member: &Member,
    ) -> Result<(), AllocError>
        requires there { IsSome (member_at number members.now.members) }
        requires taken { TakesAll (E.takes by.now) 0 (member_slots (E.members by.now) (with_member number member.now.state members.now.members)) }
        ensures entries { OnOk result (self.new.entries ≡ kept (E.keys by.now) self.old.falling (member_slots (E.members by.now) (with_member number member.now.state members.now.members))) }
        ensures falling { self.new.falling ≡ self.old.falling }
        ensures unchanged { OnErr result (self.new ≡ self.old) }
    {
        let mut pages = Pages::new(self.alloc, self.falling);
        add_formats_with(self.alloc, &mut pages, by, members, number, member)?;
        self.pages = pages;
        Ok(())
    }

    /// Sets memory aside for at least so many inserts. Only want of memory is an error.
    pub fn reserve(&mut self, more: u32) -> Result<(), AllocError>
        ensures entries { self.new.entries ≡ self.old.entries }
        ensures falling { self.new.falling ≡ self.old.falling }
        ensures room { OnOk result (more ≤ self.new.spare) }
        ensures kept { self.old.spare ≤ self.new.spare }
    {
        self.pages.reserve(more)
    }

    /// Prepares a change of the record of this number, and its undoing, and sets memory aside for as many inserts as
    /// the undos that are held, this one and one more need in all formats. Only want of memory is an error.
    pub fn prepare<E: Entrant>(
        &mut self,
        by: &E,
        format: u16,
        rrn: u32,
        old: Option<&[u8]>,
        new: Option<&[u8]>,
        held: u32,
    ) -> Result<Prepared, AllocError>
        requires old { IfSome (option_copied old) (λ image. E.takes by.now format image) }
        requires new { IfSome (option_copied new) (λ image. E.takes by.now format image) }
        ensures prepared { IfOk result (λ p. p ≡ record { format = format; rrn = rrn; old = image_key (E.keys by.now format) (option_copied old.entry); new = image_key (E.keys by.now format) (option_copied new.entry) }) }
        ensures room { OnOk result ((held + 2) * length (E.members by.now) ≤ self.new.spare) }
        ensures entries { self.new.entries ≡ self.old.entries }
        ensures falling { self.new.falling ≡ self.old.falling }
        ensures kept { self.old.spare ≤ self.new.spare }
    {
        let old = key_of(self.alloc, by, format, old)?;
        let new = key_of(self.alloc, by, format, new)?;
        let copy = copied(self.alloc, &new)?;
        self.pages.reserve(inserts(held, by.formats())?)?;
        Ok(Prepared {
            format,
            rrn,
            old,
            new,
            copy,
        })
    }

    /// Does a prepared change and gives its opposite. It takes no memory.
    pub fn change(&mut self, change: Prepared) -> Prepared
        requires fits { FitsIn self.old.falling change self.old.entries }
        requires spare { 1 ≤ self.old.spare }
        ensures entries { self.new.entries ≡ moved self.old.falling change self.old.entries }
        ensures falling { self.new.falling ≡ self.old.falling }
        ensures spare { self.new.spare + (if is_some change.new then 1 else 0) ≡ self.old.spare + (if is_some change.old then 1 else 0) }
        ensures opposite { result ≡ opposite change }
    {
        let Prepared {
            format,
            rrn,
            old,
            new,
            copy,
        } = change;
        let removed = take_entry(&mut self.pages, format, rrn, &old);
        put_entry(&mut self.pages, format, rrn, copy);
        Prepared {
            format,
            rrn,
            old: new,
            new: removed,
            copy: old,
        }
    }
}

/// The key that a format has of an image, where there is one.
fn key_of<E: Entrant>(
    alloc: Global,
    by: &E,
    format: u16,
    image: Option<&[u8]>,
) -> Result<Option<Key>, AllocError>
    requires { IfSome (option_copied image) (λ image. E.takes by.now format image) }
    ensures { IfOk result (λ key. key ≡ image_key (E.keys by.now format) (option_copied image.entry)) }
{
    match image {
        Some(image) => by.key(alloc, format, image),
        None => Ok(None),
    }
}

fn copied(alloc: Global, key: &Option<Key>) -> Result<Option<Key>, AllocError>
    ensures { IfOk result (λ copy. copy ≡ key.now) }
{
    match key {
        Some(key) => Ok(Some(key.copied(alloc)?)),
        None => Ok(None),
    }
}

/// The inserts that so many undos, the change and one more make in so many formats.
fn inserts(held: u32, formats: u16) -> Result<u32, AllocError>
    ensures { IfOk result (λ more. more ≡ (held + 2) * formats) }
{
    let Some(changes) = held.checked_add(2) else {
        return Err(AllocError);
    };
    match changes.checked_mul(u32::from(formats)) {
        Some(more) => Ok(more),
        None => Err(AllocError),
    }
}

/// Takes the entry of a key away, where there is one, and gives its key.
fn take_entry(pages: &mut Pages, format: u16, rrn: u32, key: &Option<Key>) -> Option<Key>
    requires { IfSome key.now (λ key. Contains pages.old.entries (entry_with format rrn key)) }
    ensures entries { pages.new.entries ≡ without_key pages.old.falling format rrn key.now pages.old.entries }
    ensures falling { pages.new.falling ≡ pages.old.falling }
    ensures spare { pages.new.spare ≡ pages.old.spare + (if is_some key.now then 1 else 0) }
    ensures key { result ≡ key.now }
{
    let Some(key) = key else {
        return None;
    };
    let entry = EntryRef {
        key: key.as_bytes(),
        format,
        rrn,
    };
    match pages.remove(&entry) {
        Some(entry) => Some(entry.key),
        None => None,
    }
}

/// Puts the entry of a key in, where there is one.
fn put_entry(pages: &mut Pages, format: u16, rrn: u32, key: Option<Key>)
    requires absent { IfSome key (λ key. ¬ Contains pages.old.entries (entry_with format rrn key)) }
    requires spare { 1 ≤ pages.old.spare }
    ensures entries { pages.new.entries ≡ with_key pages.old.falling format rrn key pages.old.entries }
    ensures falling { pages.new.falling ≡ pages.old.falling }
    ensures spare { pages.new.spare + (if is_some key then 1 else 0) ≡ pages.old.spare }
{
    if let Some(key) = key {
        pages.insert_reserved(Entry { key, format, rrn });
    }
}
