//! All memory that a change wants, taken before anything changes.
ghost use Rattle.std.specs.Prelude.{◌≡◌, ◌≤◌, IfOk, IsSome, IsTrue, OnOk};
ghost use Rattle.member_slots.specs.Members.{member_at};
ghost use Rattle.library_steps.specs.declared.limits.TheConstants.{LAST_SEQUENCE};
ghost use Rattle.library_steps.specs.State.{job_at, job_of, memory_of};
ghost use Rattle.library_steps.specs.History.{is_running};
ghost use Rattle.library_steps.specs.Records.{slot_there};
ghost use Rattle.library_steps.specs.SlotChange.{images_of};
ghost use Rattle.library_parts.specs.Locks.{HasLockRoom};
ghost use Rattle.record_changes.specs.Places.{AreFewChanges, HasEntryRoom, HasPlaceRoom, HasUndoRoomIf, IsReady, MayChange, undo_slots};
ghost use Rattle.record_changes.specs.Plans.{new_slot};

use crate::cycles::cycle_of;
use crate::planned::{PlannedSlot, Prepared, UndoSlots};
use library_parts::Contents;
use member_slots::slot::Slot;
use std::alloc::AllocError;

/// The most entries of a changed slot.
const SLOT_ENTRIES: u32 = 2;

/// The most entries of a change under commitment control: the start of its cycle, those of the slot, and three that would take
/// it back and end the cycle.
const COMMITTED_ENTRIES: u32 = 6;

/// No change more than those that are prepared: this one, and those that open commit cycles hold.
const NO_MORE: u32 = 0;

/// The bytes of an entry with an image, beside those of the image.
const ENTRY_BYTES: u64 = 50;

/// Takes all the memory that the change wants.
pub(crate) fn prepare_change(
    contents: &mut Contents,
    job: u32,
    planned: &PlannedSlot,
) -> Result<Prepared, AllocError>
    requires running { IsTrue (is_running (job_at job contents.old.state.jobs)) }
    requires left { (memory_of contents.old.state).last_entry ≤ LAST_SEQUENCE }
    requires few { AreFewChanges planned.now (memory_of contents.old.state) }
    requires may { MayChange contents.old.state planned.now }
    ensures state { contents.new.state ≡ contents.old.state }
    ensures locks { OnOk result (HasLockRoom contents.new.state contents.new.room) }
    ensures ready { IfOk result (λ prepared. IsReady contents.new job planned.now prepared) }
{
    let member = planned.opened.member();
    contents.reserve_lock()?;
    reserve_place(contents, member, planned.rrn)?;
    let moves = contents.prepare_moves(member, planned.rrn, &planned.slot, NO_MORE)?;
    reserve_entries(contents, planned)?;
    reserve_undo(contents, job, planned)?;
    let again = copy_for_entry(contents, planned)?;
    let undo = copy_for_cycle(contents, job, planned)?;
    Ok(Prepared { again, undo, moves })
}

/// Makes room for a slot more, where the place is behind the last.
fn reserve_place(contents: &mut Contents, member: u32, rrn: u32) -> Result<(), AllocError>
    requires { IsSome (member_at member contents.old.state.members) }
    ensures state { contents.new.state ≡ contents.old.state }
    ensures others { contents.new.room ≡ record contents.old.room { spares = contents.new.room.spares } }
    ensures room { OnOk result (HasPlaceRoom contents.new member rrn) }
{
    if !contents.is_behind_last(member, rrn) {
        return Ok(());
    }
    contents.reserve_slot(member)
}

/// Makes room for the entries of the change, if it has any.
fn reserve_entries(contents: &mut Contents, planned: &PlannedSlot) -> Result<(), AllocError>
    ensures state { contents.new.state ≡ contents.old.state }
    ensures others { contents.new.room ≡ record contents.old.room { entries = contents.new.room.entries } }
    ensures room { OnOk result (HasEntryRoom contents.new planned.now.opened.commit planned.now.opened.member) }
{
    let member = planned.opened.member();
    let bytes = ENTRY_BYTES + u64::from(contents.record_length(member));
    if planned.opened.commit() {
        return contents.reserve_entries(COMMITTED_ENTRIES, u64::from(COMMITTED_ENTRIES) * bytes);
    }
    if contents.images_of(member).is_none() {
        return Ok(());
    }
    contents.reserve_entries(SLOT_ENTRIES, u64::from(SLOT_ENTRIES) * bytes)
}

/// Makes room for the change in the job's commit cycle, if it belongs to one.
fn reserve_undo(contents: &mut Contents, job: u32, planned: &PlannedSlot) -> Result<(), AllocError>
    requires { IsTrue (is_running (job_at job contents.old.state.jobs)) }
    ensures state { contents.new.state ≡ contents.old.state }
    ensures others { contents.new.room ≡ record contents.old.room { undos = contents.new.room.undos } }
    ensures room { OnOk result (HasUndoRoomIf planned.now.opened.commit job contents.new) }
{
    if !planned.opened.commit() {
        return Ok(());
    }
    contents.reserve_undo(job)
}

/// The new slot once more, for its entry, where the member is journaled.
fn copy_for_entry(contents: &Contents, planned: &PlannedSlot) -> Result<Slot, AllocError>
    ensures { IfOk result (λ again. IsSome (images_of planned.now.opened.member (memory_of contents.now.state)) → again ≡ planned.now.slot) }
{
    if contents.images_of(planned.opened.member()).is_none() {
        // No entry tells of it.
        return Ok(Slot::Deleted);
    }
    planned.slot.copied(contents.alloc())
}

/// The slots of the change as the job's commit cycle keeps it, if it belongs to one.
fn copy_for_cycle(
    contents: &Contents,
    job: u32,
    planned: &PlannedSlot,
) -> Result<Option<UndoSlots>, AllocError>
    requires running { IsTrue (is_running (job_at job contents.now.state.jobs)) }
    requires left { (memory_of contents.now.state).last_entry ≤ LAST_SEQUENCE }
    ensures { IfOk result (λ undo. undo ≡ undo_slots planned.now.opened.commit (memory_of contents.now.state) (job_of job (memory_of contents.now.state)) (new_slot planned.now)) }
{
    let Some(cycle) = cycle_of(contents, job, &planned.opened) else {
        return Ok(None);
    };
    let before = slot_copied(contents, planned.opened.member(), planned.rrn)?;
    let again = before.copied(contents.alloc())?;
    let after = planned.slot.copied(contents.alloc())?;
    Ok(Some(UndoSlots {
        cycle,
        before,
        again,
        after,
    }))
}

/// A copy of the slot that stands at the place.
fn slot_copied(contents: &Contents, member: u32, rrn: u32) -> Result<Slot, AllocError>
    ensures { IfOk result (λ slot. slot ≡ slot_there member rrn (memory_of contents.now.state)) }
{
    match contents.slot(member, rrn) {
        Some(slot) => slot.copied(contents.alloc()),
        None => Ok(Slot::Deleted),
    }
}
