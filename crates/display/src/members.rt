//! Members and their records as they are shown.
ghost use Rattle.std.specs.Prelude.{◌≡◌, ◌≤◌, ◌++◌, OnOk, length};
ghost use Rattle.std.specs.List.{flat_map};
ghost use Rattle.member_slots.specs.Member.{records};
ghost use Rattle.display.specs.Display.{journaled_text, member_line, record_line, shown_member, member_text};
ghost use Rattle.display.specs.Slots.{live_in, slot_text};

use crate::parameters::{push_number_parameter, push_parameter};
use entry_codec::Images;
use field_types::names::Name;
use file_catalogue::MemberStatus;
use listing::requests::images_text;
use listing::texts::{push_number, push_text};
use member_slots::member::Member;
use member_slots::members::Members;
use member_slots::slot::Slot;
use std::alloc::AllocError;

/// Appends the members of a file in order of creation, each with its records.
pub(crate) fn push_members(
    out: &mut Vec<u8>,
    members: &Members,
    listed: &[(Name, MemberStatus)],
) -> Result<(), AllocError>
    ensures { OnOk result (out.new.items ≡ out.old.items ++ flat_map (member_text members.now.members) listed.now) }
{
    for (name, status) in listed {
        push_member(out, members, name, status)?;
    }
    Ok(())
}

/// Appends a member with its records; one that isn't there has none.
fn push_member(
    out: &mut Vec<u8>,
    members: &Members,
    name: &Name,
    status: &MemberStatus,
) -> Result<(), AllocError>
    ensures { OnOk result (out.new.items ≡ out.old.items ++ member_text members.now.members (name.now, status.now)) }
{
    match members.at(status.number()) {
        None => {
            push_member_line(out, name, status, 0, 0)?;
            Ok(())
        }
        Some(member) => {
            push_shown(out, name, status, member)?;
            Ok(())
        }
    }
}

#[tactic(auto, unfolding(crate::specs::Display::shown_member))]
fn push_shown(
    out: &mut Vec<u8>,
    name: &Name,
    status: &MemberStatus,
    member: &Member,
) -> Result<(), AllocError>
    ensures { OnOk result (out.new.items ≡ out.old.items ++ shown_member name.now status.now member.now.state) }
{
    push_member_line(out, name, status, member.slots(), live_records(member))?;
    push_records(out, member)
}

#[tactic(auto, unfolding(crate::specs::Display::member_line))]
fn push_member_line(
    out: &mut Vec<u8>,
    name: &Name,
    status: &MemberStatus,
    slots: u32,
    live: u32,
) -> Result<(), AllocError>
    ensures { OnOk result (out.new.items ≡ out.old.items ++ member_line name.now status.now slots live) }
{
    out.extend_from_slice(b"MBR ")?;
    out.extend_from_slice(name.as_bytes())?;
    push_number_parameter(out, b"NBR", u64::from(status.number()))?;
    push_number_parameter(out, b"SLOTS", u64::from(slots))?;
    push_number_parameter(out, b"LIVE", u64::from(live))?;
    push_parameter(out, b"JRN", journaled_text(status.images()))?;
    out.push(b'\n')?;
    Ok(())
}

fn journaled_text(images: Option<Images>) -> &'static [u8]
    ensures { result.now ≡ journaled_text images }
{
    match images {
        None => b"*NONE",
        Some(images) => images_text(images),
    }
}

/// How many records the member has.
fn live_records(member: &Member) -> u32
    ensures { result ≡ length (records member.now.state) }
{
    let mut live = 0;
    for place in 0..member.slots() {
        live += live_in(member.slot(place + 1));
    }
    live
}

/// 1 where a record stands in the slot, else 0.
fn live_in(slot: &Slot) -> u32
    ensures count { result ≡ live_in slot.now }
    ensures few { result ≤ 1 }
{
    match slot {
        Slot::Live(_) => 1,
        Slot::Deleted => 0,
    }
}

/// Appends the records of a member in the order of their relative record numbers.
fn push_records(out: &mut Vec<u8>, member: &Member) -> Result<(), AllocError>
    ensures { OnOk result (out.new.items ≡ out.old.items ++ flat_map record_line (records member.now.state)) }
{
    for place in 0..member.slots() {
        push_slot(out, place + 1, member.slot(place + 1))?;
    }
    Ok(())
}

fn push_slot(out: &mut Vec<u8>, rrn: u32, slot: &Slot) -> Result<(), AllocError>
    ensures { OnOk result (out.new.items ≡ out.old.items ++ slot_text rrn slot.now) }
{
    match slot {
        Slot::Live(image) => push_record(out, rrn, image.as_bytes()),
        Slot::Deleted => Ok(()),
    }
}

#[tactic(auto, unfolding(crate::specs::Display::record_line))]
fn push_record(out: &mut Vec<u8>, rrn: u32, image: &[u8]) -> Result<(), AllocError>
    ensures { OnOk result (out.new.items ≡ out.old.items ++ record_line (rrn, image.now)) }
{
    out.extend_from_slice(b"RCD ")?;
    push_number(out, u64::from(rrn))?;
    out.push(b' ')?;
    push_text(out, image)?;
    out.push(b'\n')?;
    Ok(())
}
