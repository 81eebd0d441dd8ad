//! The effect of a changed slot: the slot itself, the job's commit cycle, the status of its member, and its entries. It takes no
//! memory.
ghost use Rattle.std.specs.Prelude.{◌≡◌, ◌+◌, ◌≤◌, ◌||◌, length, IfSome, IsSome, IsTrue, option_map};
ghost use Rattle.member_slots.specs.declared.slot.Slot.TheVariants.{Deleted};
ghost use Rattle.member_slots.specs.Members.{member_of};
ghost use Rattle.path_set.specs.RecordChanges.{moves_in};
ghost use Rattle.path_set.specs.MemberSteps.{slot_replaced};
ghost use Rattle.library_parts.specs.Moved.{AreMovesOf, HasMovesRoom};
ghost use Rattle.library_parts.specs.Rooms.{HasSlotRoom};
ghost use Rattle.library_steps.specs.State.{job_at, memory_of};
ghost use Rattle.library_steps.specs.History.{is_running};
ghost use Rattle.library_steps.specs.Records.{slot_there};
ghost use Rattle.library_steps.specs.SlotChange.{are_both, images_of, slot_changed, with_slot};
ghost use Rattle.record_changes.specs.Changes.{HasChanged, MayKeep, entries_kept, entries_left, kept_by, with_kept};
ghost use Rattle.record_changes.specs.Places.{HasPlaceRoom, IsReady, MayPut, MayReturn};
ghost use Rattle.record_changes.specs.Plans.{new_slot};

use crate::cycles::{cycle_begun, cycle_of};
use crate::entries::ChangeEntries;
use crate::planned::{PlannedSlot, Prepared, UndoSlots};
use entry_codec::Images;
use library_parts::job_table::Undo;
use library_parts::{Author, Contents, SlotTaken};
use member_slots::slot::Slot;
use path_set::moves::Moves;

/// The slots of a change that its entries tell of.
#[derive(Drop)]
struct ToldSlots {
    old: Slot,
    new: Slot,
}

/// Gives a slot another content.
pub(crate) fn change_slot(
    contents: &mut Contents,
    job: u32,
    timestamp: u64,
    planned: PlannedSlot,
    prepared: Prepared,
)
    requires running { IsTrue (is_running (job_at job contents.old.state.jobs)) }
    requires ready { IsReady contents.old job planned prepared }
    ensures { HasChanged job timestamp (new_slot planned) contents.old.state contents.new.state }
{
    let author = Author::of(contents, job, timestamp);
    let member = planned.opened.member();
    let rrn = planned.rrn;
    let commit = planned.opened.commit();
    let start = cycle_begun(contents, job, &planned.opened);
    let cycle = cycle_of(contents, job, &planned.opened);
    let behind_last = contents.is_behind_last(member, rrn);
    let images = contents.images_of(member);
    let told = put_kept(contents, job, planned, prepared);
    let Some(images) = images else {
        return;
    };
    let entries = ChangeEntries {
        author,
        start,
        cycle,
        member,
        rrn,
        both: are_both(commit, images),
        behind_last,
    };
    entries.deposit(contents, told.old, told.new);
}

/// Whether the entries have the images before changes too.
fn are_both(commit: bool, images: Images) -> bool
    ensures { result ≡ (commit || are_both images) }
{
    commit || images == Images::Both
}

/// Puts the slot at its place, and keeps the change in the job's commit cycle if it belongs to one.
fn put_kept(
    contents: &mut Contents,
    job: u32,
    planned: PlannedSlot,
    prepared: Prepared,
) -> ToldSlots
    requires running { IsTrue (is_running (job_at job contents.old.state.jobs)) }
    requires ready { IsReady contents.old job planned prepared }
    ensures old { result.old ≡ slot_there planned.opened.member planned.rrn (memory_of contents.old.state) }
    ensures new { result.new ≡ prepared.again }
    ensures memory { memory_of contents.new.state ≡ slot_changed job (new_slot planned) (memory_of contents.old.state) }
    ensures entries { contents.new.state.entries ≡ contents.old.state.entries }
    ensures left { IsSome (images_of planned.opened.member (memory_of contents.old.state)) → entries_left planned.opened.commit ≤ contents.new.room.entries }
{
    let PlannedSlot { opened, rrn, slot } = planned;
    let Prepared { again, undo, moves } = prepared;
    let member = opened.member();
    let taken = put_slot(contents, member, rrn, slot, moves);
    let kept = undo_by(member, rrn, undo, taken.back);
    keep_change(contents, job, kept);
    contents.touch(member);
    ToldSlots {
        old: taken.slot,
        new: again,
    }
}

/// The change of these slots with the moves that take it back, where there are slots to keep.
fn undo_by(member: u32, rrn: u32, slots: Option<UndoSlots>, back: Moves) -> Option<Undo>
    requires first { 1 ≤ rrn }
    requires alike { IfSome slots (λ s. s.again ≡ s.before) }
    ensures { result ≡ option_map (kept_by member rrn back) slots }
{
    match slots {
        Some(s) => Some(Undo::new(member, rrn, s.cycle, s.before, s.again, s.after, back)),
        None => None,
    }
}

/// Keeps the change in the job's commit cycle, if there is one to keep.
fn keep_change(contents: &mut Contents, job: u32, undo: Option<Undo>)
    requires running { IsTrue (is_running (job_at job contents.old.state.jobs)) }
    requires may { IfSome undo (MayKeep job contents.old) }
    ensures memory { memory_of contents.new.state ≡ with_kept job undo (memory_of contents.old.state) }
    ensures entries { contents.new.state.entries ≡ contents.old.state.entries }
    ensures room { contents.old.room.entries ≤ contents.new.room.entries + entries_kept undo }
{
    if let Some(undo) = undo {
        contents.note_undo(job, undo);
    }
}

/// Puts the slot at its place, and hands back the one that stood there with the moves that take it back.
fn put_slot(contents: &mut Contents, member: u32, rrn: u32, slot: Slot, moves: Moves) -> SlotTaken
    requires may { MayPut contents.old.state.files contents.old.state.members member rrn slot }
    requires room { HasPlaceRoom contents.old member rrn }
    requires moves { AreMovesOf contents.old member rrn slot moves }
    requires moves_room { HasMovesRoom contents.old member 2 }
    ensures before { result.slot ≡ slot_there member rrn (memory_of contents.old.state) }
    ensures back { MayReturn contents.new.state member rrn result.slot }
    ensures moves { result.back ≡ moves_in (slot_replaced member rrn slot result.slot) contents.new.room.paths.paths }
    ensures moves_room { HasMovesRoom contents.new member 1 }
    ensures memory { memory_of contents.new.state ≡ with_slot member rrn slot (memory_of contents.old.state) }
    ensures entries { contents.new.state.entries ≡ contents.old.state.entries }
    ensures room { contents.new.room ≡ record contents.old.room { spares = contents.new.room.spares; paths = contents.new.room.paths } }
{
    if !contents.is_behind_last(member, rrn) {
        return replace(contents, member, rrn, slot, moves);
    }
    let back = append(contents, member, rrn, slot, moves);
    SlotTaken {
        slot: Slot::Deleted,
        back,
    }
}

/// Puts the slot at a place that the member has.
fn replace(contents: &mut Contents, member: u32, rrn: u32, slot: Slot, moves: Moves) -> SlotTaken
    requires may { MayPut contents.old.state.files contents.old.state.members member rrn slot }
    requires within { rrn ≤ length (member_of member contents.old.state.members).slots }
    requires moves { AreMovesOf contents.old member rrn slot moves }
    requires moves_room { HasMovesRoom contents.old member 2 }
    ensures before { result.slot ≡ slot_there member rrn (memory_of contents.old.state) }
    ensures back { MayReturn contents.new.state member rrn result.slot }
    ensures moves { result.back ≡ moves_in (slot_replaced member rrn slot result.slot) contents.new.room.paths.paths }
    ensures moves_room { HasMovesRoom contents.new member 1 }
    ensures memory { memory_of contents.new.state ≡ with_slot member rrn slot (memory_of contents.old.state) }
    ensures entries { contents.new.state.entries ≡ contents.old.state.entries }
    ensures room { contents.new.room ≡ record contents.old.room { spares = contents.new.room.spares; paths = contents.new.room.paths } }
{
    contents.set_slot(member, rrn, slot, moves)
}

/// Puts the slot behind the last of the member, and hands back the moves that take it back. Only a record is put there.
fn append(contents: &mut Contents, member: u32, rrn: u32, slot: Slot, moves: Moves) -> Moves
    requires may { MayPut contents.old.state.files contents.old.state.members member rrn slot }
    requires behind { rrn ≡ length (member_of member contents.old.state.members).slots + 1 }
    requires room { HasSlotRoom contents.old.room member }
    requires moves { AreMovesOf contents.old member rrn slot moves }
    requires moves_room { HasMovesRoom contents.old member 2 }
    ensures before { slot_there member rrn (memory_of contents.old.state) ≡ Deleted }
    ensures back { MayReturn contents.new.state member rrn Deleted }
    ensures moves { result ≡ moves_in (slot_replaced member rrn slot Deleted) contents.new.room.paths.paths }
    ensures moves_room { HasMovesRoom contents.new member 1 }
    ensures memory { memory_of contents.new.state ≡ with_slot member rrn slot (memory_of contents.old.state) }
    ensures entries { contents.new.state.entries ≡ contents.old.state.entries }
    ensures room { contents.new.room ≡ record contents.old.room { spares = contents.new.room.spares; paths = contents.new.room.paths } }
{
    match slot {
        Slot::Live(image) => contents.append_record(member, image, moves),
        Slot::Deleted => moves,
    }
}
