//! A member as the journal leaves it. The members by their numbers are in `members.rt`.
ghost use Rattle.std.specs.Prelude.{◌≡◌, ◌++◌, replicate, None, Some, IfOk, OnOk};
ghost use Rattle.std.specs.List.{filter};
ghost use Rattle.member_slots.specs.declared.slot.Slot.TheVariants.{Deleted};
ghost use Rattle.member_slots.specs.Member.{is_live};
ghost use Rattle.journal_model.specs.Places.{put_slot};
ghost use Rattle.replay_members.specs.Bodies.{new_body, body_by};
ghost use Rattle.journal_replay.specs.MemberActs.{act_of};

use crate::slots::is_record;
use entry_codec::Images;
use field_types::names::Name;
use journal_replay::{MemberAct, SlotChange};
use member_slots::slot::Slot;
use std::alloc::{AllocError, Global};
use std::marker::Model;

/// A member of a file: which images the journal keeps, the sequence of its last break, 0 for none, and its slots.
#[derive(Drop)]
pub struct Member {
    file: Name,
    name: Name,
    images: Option<Images>,
    last_break: u64,
    slots: Vec<Slot>,
}

impl Model for Member {
    ghost use Rattle.replay_members.specs.Bodies.{Body};

    ghost Value = { Body };

    ghost view = { λ m. record { file = m.file; name = m.name; images = m.images; last_break = m.last_break; slots = m.slots.items } };
}

impl Member {
    /// A member without slots, which isn't journaled.
    pub fn new(alloc: Global, file: Name, name: Name) -> Member
        ensures { result ≡ new_body file name }
    {
        Member {
            file,
            name,
            images: None,
            last_break: 0,
            slots: Vec::new(alloc),
        }
    }

    /// A member that a checkpoint saved.
    pub fn saved(
        file: Name,
        name: Name,
        images: Option<Images>,
        last_break: u64,
        slots: Vec<Slot>,
    ) -> Member
        ensures { result ≡ record { file = file; name = name; images = images; last_break = last_break; slots = slots.items } }
    {
        Member {
            file,
            name,
            images,
            last_break,
            slots,
        }
    }

    /// The name of its file.
    pub fn file(&self) -> Name
        ensures { result ≡ self.now.file }
    {
        self.file
    }

    /// Its name.
    pub fn name(&self) -> Name
        ensures { result ≡ self.now.name }
    {
        self.name
    }

    /// Which images the journal keeps, `None` where it isn't journaled.
    pub fn images(&self) -> Option<Images>
        ensures { result ≡ self.now.images }
    {
        self.images
    }

    /// The sequence of the entry that last began or ended journaling or took the records' numbers, 0 for none.
    pub fn last_break(&self) -> u64
        ensures { result ≡ self.now.last_break }
    {
        self.last_break
    }

    /// Its slots.
    pub fn slots(&self) -> &[Slot]
        ensures { result.now ≡ self.now.slots }
    {
        self.slots.as_slice()
    }

    /// What the act makes of it. Where memory runs out, the member is not to be used again.
    pub fn take(&mut self, alloc: Global, act: MemberAct, sequence: u64) -> Result<(), AllocError>
        ensures { OnOk result (self.new ≡ body_by (act_of act) sequence self.old) }
    {
        match act {
            MemberAct::ChangeSlot(change) => self.change(change),
            MemberAct::Journal { images, slots } => {
                self.slots = deleted_slots(alloc, slots)?;
                self.images = Some(images);
                self.last_break = sequence;
                Ok(())
            }
            MemberAct::Stand { place, image } => {
                self.last_break = sequence;
                put_slot(&mut self.slots, place, Slot::Live(image))
            }
            MemberAct::Clear => {
                self.slots.clear();
                self.last_break = sequence;
                Ok(())
            }
            MemberAct::Reorganize => {
                keep_records(&mut self.slots);
                self.last_break = sequence;
                Ok(())
            }
            MemberAct::EndJournaling => {
                self.images = None;
                self.last_break = sequence;
                Ok(())
            }
            MemberAct::Pass => Ok(()),
        }
    }

    fn change(&mut self, change: SlotChange) -> Result<(), AllocError>
        ensures { OnOk result (self.new ≡ record self.old { slots = put_slot self.old.slots change.place change.after }) }
    {
        let SlotChange { place, after, .. } = change;
        put_slot(&mut self.slots, place, after)
    }
}

/// Puts the slot at the place. The places between the last slot and that one become deleted ones.
fn put_slot(slots: &mut Vec<Slot>, place: u32, slot: Slot) -> Result<(), AllocError>
    ensures { OnOk result (slots.new.items ≡ put_slot slots.old.items place slot) }
{
    let place = place as usize;
    let missing = (place + 1).saturating_sub(slots.len());
    fill(slots, missing)?;
    slots[place] = slot;
    Ok(())
}

/// The deleted slots are removed.
fn keep_records(slots: &mut Vec<Slot>)
    ensures { slots.new.items ≡ filter is_live slots.old.items }
{
    slots.retain(|slot| is_record(slot));
}

/// So many deleted slots.
fn deleted_slots(alloc: Global, number: u32) -> Result<Vec<Slot>, AllocError>
    ensures { IfOk result (λ slots. slots.items ≡ replicate number Deleted) }
{
    let mut slots = Vec::new(alloc);
    fill(&mut slots, number as usize)?;
    Ok(slots)
}

/// Adds so many deleted slots.
fn fill(slots: &mut Vec<Slot>, missing: usize) -> Result<(), AllocError>
    ensures { OnOk result (slots.new.items ≡ slots.old.items ++ replicate missing Deleted) }
{
    for added in 0..missing {
        slots.push(Slot::Deleted)?;
    }
    Ok(())
}
