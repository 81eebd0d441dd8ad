//! The slots of a member that a journal leaves: copied, and their records counted.
ghost use Rattle.std.specs.Prelude.{◌≡◌, ◌≤◌, length, IfOk, OnOk};
ghost use Rattle.member_slots.specs.declared.slot.Slot.TheVariants.{Deleted, Live};
ghost use Rattle.member_slots.specs.Member.{records};
ghost use Rattle.restarted_library.specs.Copies.{live_count, one_live, with_all, with_behind};

use field_types::texts::Image;
use member_slots::member::{MOST_SLOTS, Member};
use member_slots::slot::Slot;
use std::alloc::{AllocError, Global};

/// A member with copies of these slots, and records of so many bytes. More than a member may have count as want of memory.
pub(crate) fn copied(alloc: Global, long: u32, slots: &[Slot]) -> Result<Member, AllocError>
    ensures { IfOk result (λ member. member.state ≡ record { record_length = long; slots = slots.now }) }
{
    let mut member = Member::new(alloc, long);
    add_all(alloc, slots, &mut member)?;
    Ok(member)
}

fn add_all(alloc: Global, slots: &[Slot], member: &mut Member) -> Result<(), AllocError>
    ensures { OnOk result (member.new.state ≡ with_all slots.now member.old.state) }
{
    let mut rest = slots;
    while let [first, more @ ..] = rest {
        add_slot(alloc, first, member)?;
        rest = more;
    }
    Ok(())
}

fn add_slot(alloc: Global, slot: &Slot, member: &mut Member) -> Result<(), AllocError>
    ensures { OnOk result (member.new.state ≡ with_behind slot.now member.old.state) }
{
    match slot {
        Slot::Live(image) => {
            let image = image.copied(alloc)?;
            add_record(image, member)?;
            Ok(())
        }
        Slot::Deleted => {
            add_deleted(alloc, member)?;
            Ok(())
        }
    }
}

fn add_record(image: Image, member: &mut Member) -> Result<(), AllocError>
    ensures { OnOk result (member.new.state ≡ with_behind (Live image) member.old.state) }
{
    if image.as_bytes().len() != member.length() as usize {
        return Err(AllocError);
    }
    member.reserve(1)?;
    match member.append(image) {
        Ok(_) => Ok(()),
        Err(_) => Err(AllocError),
    }
}

/// A record is added, and taken out again.
fn add_deleted(alloc: Global, member: &mut Member) -> Result<(), AllocError>
    ensures { OnOk result (member.new.state ≡ with_behind Deleted member.old.state) }
{
    let image = blank(alloc, member.length())?;
    add_record(image, member)?;
    let last = member.slots();
    let _record = member.set(last, Slot::Deleted);
    Ok(())
}

/// So many bytes.
fn blank(alloc: Global, long: u32) -> Result<Image, AllocError> {
    let mut bytes = Vec::new(alloc);
    bytes.resize(long as usize, 0)?;
    Ok(Image::from_vec(bytes))
}

/// How many records stand in the slots. More slots than a member may have count as want of memory.
pub(crate) fn record_count(slots: &[Slot]) -> Result<u32, AllocError>
    ensures { IfOk result (λ count. count ≡ length (records (record { record_length = 0; slots = slots.now }))) }
{
    if slots.len() as u64 > MOST_SLOTS {
        return Err(AllocError);
    }
    Ok(live_count(slots))
}

fn live_count(slots: &[Slot]) -> u32
    requires { length slots.now ≤ 1000000 }
    ensures { result ≡ live_count slots.now }
{
    let mut count = 0;
    let mut rest = slots;
    while let [first, more @ ..] = rest {
        count += one_live(first);
        rest = more;
    }
    count
}

/// 1 where a record stands in the slot, else 0.
fn one_live(slot: &Slot) -> u32
    ensures count { result ≡ one_live slot.now }
    ensures few { result ≤ 1 }
{
    match slot {
        Slot::Live(_) => 1,
        Slot::Deleted => 0,
    }
}
