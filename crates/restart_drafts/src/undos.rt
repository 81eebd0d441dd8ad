//! What takes back one change of an open commit cycle.
ghost use Rattle.std.specs.Prelude.{◌≡◌, ◌++◌, ◌+◌, ◌∷◌, [], List, Option, Some, None, IfOk, IfSome, OnOk};
ghost use Rattle.std.specs.Option.{option_to_list};
ghost use Rattle.member_slots.specs.declared.slot.Slot.TheVariants.{Deleted};
ghost use Rattle.journal_model.specs.Replay.{before_of};
ghost use Rattle.journal_model.specs.Rollback.{change_drafts, undo_drafts, undo_kinds};
ghost use Rattle.open_cycles.specs.Kept.{live};
ghost use Rattle.restart_drafts.specs.Undos.{of_cycle};

use crate::drafts::By;
use entry_codec::{Draft, EntryKind};
use field_types::texts::Image;
use member_slots::slot::Slot;
use open_cycles::OpenChange;
use std::alloc::{AllocError, Global};

/// Puts the drafts that take the change back behind the others, where there is one, and it is of the commit cycle.
pub(crate) fn put_undo(
    alloc: Global,
    drafts: &mut Vec<Draft>,
    change: &Option<OpenChange>,
    cycle: u64,
    by: &By,
) -> Result<(), AllocError>
    ensures { OnOk result (drafts.new.items ≡ drafts.old.items ++ undo_drafts by.now.job by.now.moment (of_cycle cycle (live (change.now ∷ [])))) }
{
    match change {
        None => Ok(()),
        Some(change) => put_if(alloc, drafts, change, cycle, by),
    }
}

/// The same of a change.
fn put_if(
    alloc: Global,
    drafts: &mut Vec<Draft>,
    change: &OpenChange,
    cycle: u64,
    by: &By,
) -> Result<(), AllocError>
    ensures { OnOk result (drafts.new.items ≡ drafts.old.items ++ undo_drafts by.now.job by.now.moment (of_cycle cycle (change.now ∷ []))) }
{
    if change.is_of(cycle) {
        put_change(alloc, drafts, change, by)
    } else {
        Ok(())
    }
}

/// The same of a change of that commit cycle.
fn put_change(
    alloc: Global,
    drafts: &mut Vec<Draft>,
    change: &OpenChange,
    by: &By,
) -> Result<(), AllocError>
    ensures { OnOk result (drafts.new.items ≡ drafts.old.items ++ change_drafts by.now.job by.now.moment change.now (undo_kinds (before_of change.now.change) change.now.change.after)) }
{
    match &change.before {
        None => put_kinds(alloc, drafts, change, &Slot::Deleted, by),
        Some(before) => put_kinds(alloc, drafts, change, before, by),
    }
}

/// The drafts that tell of a record that is given this slot in the place of the one after the change.
fn put_kinds(
    alloc: Global,
    drafts: &mut Vec<Draft>,
    change: &OpenChange,
    given: &Slot,
    by: &By,
) -> Result<(), AllocError>
    ensures { OnOk result (drafts.new.items ≡ drafts.old.items ++ change_drafts by.now.job by.now.moment change.now (undo_kinds given.now change.now.change.after)) }
{
    match given {
        Slot::Live(before) => match &change.after {
            Slot::Live(after) => {
                let image = after.copied(alloc)?;
                put(drafts, change, EntryKind::UndoBeforeImage { image }, by)?;
                let image = before.copied(alloc)?;
                put(
                    drafts,
                    change,
                    EntryKind::UndoAfterImage {
                        has_before: true,
                        image,
                    },
                    by,
                )
            }
            Slot::Deleted => {
                let image = before.copied(alloc)?;
                put(
                    drafts,
                    change,
                    EntryKind::UndoAfterImage {
                        has_before: false,
                        image,
                    },
                    by,
                )
            }
        },
        Slot::Deleted => match &change.after {
            Slot::Live(after) => {
                let image = after.copied(alloc)?;
                put(drafts, change, EntryKind::UndoDelete { image }, by)
            }
            Slot::Deleted => Ok(()),
        },
    }
}

/// The draft of one kind. A place without a number after it, which no member has, counts as want of memory.
fn put(
    drafts: &mut Vec<Draft>,
    change: &OpenChange,
    kind: EntryKind,
    by: &By,
) -> Result<(), AllocError>
    ensures { OnOk result (drafts.new.items ≡ drafts.old.items ++ change_drafts by.now.job by.now.moment change.now (kind ∷ [])) }
{
    let Some(rrn) = change.place.checked_add(1) else {
        return Err(AllocError);
    };
    drafts.push(Draft {
        job: by.job,
        moment: by.moment,
        group: Some(change.cycle),
        member: Some(change.member),
        rrn: Some(rrn),
        kind,
    })?;
    Ok(())
}
