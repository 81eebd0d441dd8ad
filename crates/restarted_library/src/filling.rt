//! A member that was added gets its slots and its journaling.
ghost use Rattle.std.specs.Prelude.{◌≡◌, ◌+◌, ◌*◌, ◌≤◌, None, true, length, IfOk, IsSome, OnOk};
ghost use Rattle.std.specs.List.{AllByRecursion};
ghost use Rattle.key_order.specs.KeyFields.{AreBytes};
ghost use Rattle.std.specs.Option.{is_some};
ghost use Rattle.record_fmt.specs.Records.{record_held};
ghost use Rattle.member_slots.specs.Members.{member_at, member_of};
ghost use Rattle.lawful_states.specs.Lawful.{HoldsValues};
ghost use Rattle.lawful_states.specs.Members.{HasMember};
ghost use Rattle.lawful_states.specs.Slots.{MayStand};
ghost use Rattle.library_steps.specs.declared.limits.TheConstants.{MOST_LIBRARY_BYTES};
ghost use Rattle.library_steps.specs.MemberCommands.{with_slots};
ghost use Rattle.library_steps.specs.Ranges.{library_bytes};
ghost use Rattle.library_steps.specs.State.{fields_of, memory_of, with_status};
ghost use Rattle.library_steps.specs.Uses.{user_of};
ghost use Rattle.library_parts.specs.Filled.{MayFill};
ghost use Rattle.library_parts.specs.Indexed.{HasBytes};
ghost use Rattle.replay_members.specs.Bodies.{held};
ghost use Rattle.restarted_library.specs.Steps.{Fills, filled_by, status_by};

use crate::copies::{copied, record_count};
use file_catalogue::File;
use library_parts::{Contents, MemberFound, Stop};
use library_steps::limits::MOST_LIBRARY_BYTES;
use member_slots::member::MOST_SLOTS;
use member_slots::slot::Slot;
use record_fmt::formats::Format;
use replay_members::Member;
use std::alloc::AllocError;

/// The member of this number gets the slots of that one, and its journaling.
pub(crate) fn finish(
    contents: &mut Contents,
    number: u32,
    member: &Member,
) -> Result<(), AllocError>
    ensures { OnOk result (Fills contents.old.state contents.new.state (held (number, member.now))) }
{
    fill(contents, number, member)?;
    set_status(contents, number, member)?;
    Ok(())
}

// ---- slots

fn fill(contents: &mut Contents, number: u32, member: &Member) -> Result<(), AllocError>
    ensures memory { OnOk result (memory_of contents.new.state ≡ with_slots number (λ _. filled_by contents.old.state number member.now.slots) (memory_of contents.old.state)) }
    ensures entries { contents.new.state.entries ≡ contents.old.state.entries }
{
    may_fill(contents, number, member)?;
    let length = contents.record_length(number);
    let new = copied(contents.alloc(), length, member.slots())?;
    let paths = contents.paths_filled(number, &new)?;
    contents.fill(number, new, paths);
    Ok(())
}

/// The member of this number is one of that file and name, which no job uses, the slots are records of the file, and the library has room for them.
fn may_fill(contents: &Contents, number: u32, member: &Member) -> Result<(), AllocError>
    ensures { OnOk result (MayFill contents.now.state number (filled_by contents.now.state number member.now.slots)) }
{
    are_of_bytes(member.slots());
    has_records(contents, number, member)?;
    is_unused(contents, number)?;
    has_room(contents, number, member.slots())?;
    Ok(())
}

fn has_records(contents: &Contents, number: u32, member: &Member) -> Result<(), AllocError>
    ensures there { OnOk result (IsSome (member_at number contents.now.state.members)) }
    ensures values { OnOk result (AllByRecursion (λ slot. MayStand contents.now.state number slot) member.now.slots) }
{
    // No two files have one member.
    let _counts = contents.counts();
    let file = file_of_member(contents, number, member)?;
    hold_values(file, member.slots())?;
    Ok(())
}

/// The file that has the member.
fn file_of_member<'a>(
    contents: &'a Contents,
    number: u32,
    member: &Member,
) -> Result<&'a File, AllocError>
    ensures { IfOk result (λ file. HasMember contents.now.state member.now.file file.now number) }
{
    match file_found(contents, number, member) {
        Ok(file) => Ok(file),
        Err(_) => Err(AllocError),
    }
}

/// The file of which the member of this number has that name.
fn file_found<'a>(contents: &'a Contents, number: u32, member: &Member) -> Result<&'a File, Stop>
    ensures { IfOk result (λ file. HasMember contents.now.state member.now.file file.now number) }
{
    let MemberFound { file, status } = contents.member_of_file(&member.file(), &member.name())?;
    if status.number() != number {
        return Err(Stop::NoMemory);
    }
    Ok(file)
}

/// The slots are records of the file.
fn hold_values(file: &File, slots: &[Slot]) -> Result<(), AllocError>
    ensures { OnOk result (AllByRecursion (HoldsValues (fields_of file.now)) slots.now) }
{
    match file.format() {
        Some(format) => {
            are_records(format, slots)?;
            Ok(())
        }
        None => Err(AllocError),
    }
}

fn are_records(format: &Format, slots: &[Slot]) -> Result<(), AllocError>
    ensures { OnOk result (AllByRecursion (HoldsValues format.now.fields) slots.now) }
{
    let mut rest = slots;
    while let [first, more @ ..] = rest {
        if !is_record(format, first) {
            return Err(AllocError);
        }
        rest = more;
    }
    Ok(())
}

fn is_record(format: &Format, slot: &Slot) -> bool
    ensures { result ≡ true → HoldsValues format.now.fields slot.now }
{
    match slot {
        Slot::Live(image) => is_image(format, image.as_bytes()),
        Slot::Deleted => true,
    }
}

fn is_image(format: &Format, image: &[u8]) -> bool
    ensures { result ≡ true → is_some (record_held format.now.fields image.now) ≡ true }
{
    image.len() == format.length() as usize && format.first_bad(image).is_none()
}

fn is_unused(contents: &Contents, number: u32) -> Result<(), AllocError>
    ensures { OnOk result (user_of number (memory_of contents.now.state) ≡ None) }
{
    if let Some(_) = contents.user_of(number) {
        return Err(AllocError);
    }
    Ok(())
}

/// The library may have these slots too.
fn has_room(contents: &Contents, number: u32, slots: &[Slot]) -> Result<(), AllocError>
    ensures { OnOk result (library_bytes contents.now.state.members + length slots.now * (member_of number contents.now.state.members).record_length ≤ MOST_LIBRARY_BYTES) }
{
    let count = slots.len() as u64;
    let length = u64::from(contents.record_length(number));
    if count > MOST_SLOTS {
        return Err(AllocError);
    }
    if contents.member_bytes() + count * length > MOST_LIBRARY_BYTES {
        return Err(AllocError);
    }
    Ok(())
}

/// What the slots hold is of bytes.
fn are_of_bytes(slots: &[Slot])
    ensures { AllByRecursion HasBytes slots.now }
{
    let mut rest = slots;
    while let [first, more @ ..] = rest {
        of_bytes(first);
        rest = more;
    }
}

fn of_bytes(slot: &Slot)
    ensures { HasBytes slot.now }
{
    match slot {
        Slot::Live(image) => are_bytes(image.as_bytes()),
        Slot::Deleted => {}
    }
}

fn are_bytes(image: &[u8])
    ensures { AreBytes image.now }
{}

// ---- journaling

fn set_status(contents: &mut Contents, number: u32, member: &Member) -> Result<(), AllocError>
    ensures memory { OnOk result (memory_of contents.new.state ≡ with_status number (status_by member.now) (memory_of contents.old.state)) }
    ensures entries { contents.new.state.entries ≡ contents.old.state.entries }
{
    let count = record_count(member.slots())?;
    let last = member.last_break();
    match member.images() {
        Some(images) => {
            contents.start_journaling(number, last, images);
            Ok(())
        }
        None => {
            contents.end_journaling(number, last, count);
            Ok(())
        }
    }
}
