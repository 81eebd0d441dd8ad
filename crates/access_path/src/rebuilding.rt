//! The entries of members, put into a path one after another.
ghost use Rattle.std.specs.Prelude.{◌≡◌, ◌+◌, ◌≤◌, [], All, Contains, IsSome, OnOk, length, slice_index, ◌<◌};
ghost use Rattle.member_slots.specs.Members.{member_at, member_of, with_member};
ghost use Rattle.key_order.specs.EntryList.{with_entry};
ghost use Rattle.access_path.specs.KeptEntries.{slot_key, entries_at, entries_in, entries_from, entry_with};
ghost use Rattle.access_path.specs.Rebuilding.{member_slots, TakesSlot, TakesAll, added, IsBefore};

use crate::entrant::Entrant;
use key_order::key_pages::{Entry, Pages};
use member_slots::member::Member;
use member_slots::members::Members;
use member_slots::slot::Slot;
use std::alloc::{AllocError, Global};

/// Adds the entries of all formats.
pub(crate) fn add_formats<E: Entrant>(
    alloc: Global,
    pages: &mut Pages,
    by: &E,
    members: &Members,
) -> Result<(), AllocError>
    requires empty { pages.old.entries ≡ [] }
    requires taken { TakesAll (E.takes by.now) 0 (member_slots (E.members by.now) members.now.members) }
    ensures entries { OnOk result (pages.new.entries ≡ added pages.old.falling (entries_from (E.keys by.now) 0 (member_slots (E.members by.now) members.now.members)) []) }
    ensures falling { pages.new.falling ≡ pages.old.falling }
{
    for format in 0..by.formats() {
        add_format(alloc, pages, by, format, members)?;
    }
    Ok(())
}

/// Adds the entries of all formats, with another state of the member of a number.
pub(crate) fn add_formats_with<E: Entrant>(
    alloc: Global,
    pages: &mut Pages,
    by: &E,
    members: &Members,
    number: u32,
    member: &Member,
) -> Result<(), AllocError>
    requires empty { pages.old.entries ≡ [] }
    requires there { IsSome (member_at number members.now.members) }
    requires taken { TakesAll (E.takes by.now) 0 (member_slots (E.members by.now) (with_member number member.now.state members.now.members)) }
    ensures entries { OnOk result (pages.new.entries ≡ added pages.old.falling (entries_from (E.keys by.now) 0 (member_slots (E.members by.now) (with_member number member.now.state members.now.members))) []) }
    ensures falling { pages.new.falling ≡ pages.old.falling }
{
    for format in 0..by.formats() {
        add_format_with(alloc, pages, by, format, members, number, member)?;
    }
    Ok(())
}

/// Adds the entries of a format, with another state of the member of a number.
fn add_format_with<E: Entrant>(
    alloc: Global,
    pages: &mut Pages,
    by: &E,
    format: u16,
    members: &Members,
    number: u32,
    member: &Member,
) -> Result<(), AllocError>
    requires format { format < length (E.members by.now) }
    requires before { All (IsBefore format 1) pages.old.entries }
    requires there { IsSome (member_at number members.now.members) }
    requires taken { All (TakesSlot (E.takes by.now format)) (member_of (slice_index (E.members by.now) format) (with_member number member.now.state members.now.members)).slots }
    ensures entries { OnOk result (pages.new.entries ≡ added pages.old.falling (entries_in (E.keys by.now) format 1 (member_of (slice_index (E.members by.now) format) (with_member number member.now.state members.now.members)).slots) pages.old.entries) }
    ensures before { OnOk result (All (IsBefore (format + 1) 1) pages.new.entries) }
    ensures falling { pages.new.falling ≡ pages.old.falling }
{
    if by.member(format) == number {
        add_slots(alloc, pages, by, format, member)
    } else {
        add_format(alloc, pages, by, format, members)
    }
}

/// Adds the entries of a format.
fn add_format<E: Entrant>(
    alloc: Global,
    pages: &mut Pages,
    by: &E,
    format: u16,
    members: &Members,
) -> Result<(), AllocError>
    requires format { format < length (E.members by.now) }
    requires before { All (IsBefore format 1) pages.old.entries }
    requires taken { All (TakesSlot (E.takes by.now format)) (member_of (slice_index (E.members by.now) format) members.now.members).slots }
    ensures entries { OnOk result (pages.new.entries ≡ added pages.old.falling (entries_in (E.keys by.now) format 1 (member_of (slice_index (E.members by.now) format) members.now.members).slots) pages.old.entries) }
    ensures before { OnOk result (All (IsBefore (format + 1) 1) pages.new.entries) }
    ensures falling { pages.new.falling ≡ pages.old.falling }
{
    match members.at(by.member(format)) {
        Some(member) => add_slots(alloc, pages, by, format, member),
        None => Ok(()),
    }
}

/// Adds the entries that a format has of a member's slots.
fn add_slots<E: Entrant>(
    alloc: Global,
    pages: &mut Pages,
    by: &E,
    format: u16,
    member: &Member,
) -> Result<(), AllocError>
    requires before { All (IsBefore format 1) pages.old.entries }
    requires taken { All (TakesSlot (E.takes by.now format)) member.now.state.slots }
    ensures entries { OnOk result (pages.new.entries ≡ added pages.old.falling (entries_in (E.keys by.now) format 1 member.now.state.slots) pages.old.entries) }
    ensures before { OnOk result (All (IsBefore (format + 1) 1) pages.new.entries) }
    ensures falling { pages.new.falling ≡ pages.old.falling }
{
    for i in 0..member.slots() {
        add_slot(alloc, pages, by, format, i + 1, member.slot(i + 1))?;
    }
    Ok(())
}

/// Adds the entry that a format has of a slot, where it has one.
fn add_slot<E: Entrant>(
    alloc: Global,
    pages: &mut Pages,
    by: &E,
    format: u16,
    rrn: u32,
    slot: &Slot,
) -> Result<(), AllocError>
    requires before { All (IsBefore format rrn) pages.old.entries }
    requires taken { TakesSlot (E.takes by.now format) slot.now }
    ensures entries { OnOk result (pages.new.entries ≡ added pages.old.falling (entries_at format rrn (slot_key (E.keys by.now format) slot.now)) pages.old.entries) }
    ensures before { OnOk result (All (IsBefore format (rrn + 1)) pages.new.entries) }
    ensures falling { pages.new.falling ≡ pages.old.falling }
{
    let Slot::Live(image) = slot else {
        return Ok(());
    };
    match by.key(alloc, format, image.as_bytes())? {
        Some(key) => add_entry(pages, Entry { key, format, rrn }),
        None => Ok(()),
    }
}

/// Adds an entry behind which none stands in arrival order.
fn add_entry(pages: &mut Pages, entry: Entry) -> Result<(), AllocError>
    requires { All (IsBefore entry.format entry.rrn) pages.old.entries }
    ensures entries { OnOk result (pages.new.entries ≡ with_entry pages.old.falling entry pages.old.entries) }
    ensures before { OnOk result (All (IsBefore entry.format (entry.rrn + 1)) pages.new.entries) }
    ensures falling { pages.new.falling ≡ pages.old.falling }
{
    pages.reserve(1)?;
    pages.insert_reserved(entry);
    Ok(())
}
