//! The drafts of a restart: one that tells of the abnormal end, and for each open commit cycle those that take its changes back and the
//! one that ends it. What takes back one change is in `undos.rt`.
ghost use Rattle.std.specs.Prelude.{◌≡◌, ◌++◌, [], ℕ, List, Option, IfOk, OnOk};
ghost use Rattle.journal_model.specs.Rollback.{all_rollback_drafts, cycle_draft, library_draft, restart_drafts, rollback_drafts, undo_drafts};
ghost use Rattle.open_cycles.specs.Kept.{live};
ghost use Rattle.restart_drafts.specs.Undos.{of_cycle};

use crate::undos::put_undo;
use entry_codec::{Draft, EntryKind};
use field_types::names::Name;
use open_cycles::{OpenChange, OpenCycles};
use std::alloc::{AllocError, Global};

/// Who deposits the entries, and when.
#[derive(Clone, Copy)]
pub struct By {
    pub job: Option<Name>,
    pub moment: u64,
}

/// What a restart deposits for these open commit cycles: nothing where none is open.
pub fn restart_drafts(alloc: Global, those: &OpenCycles, by: &By) -> Result<Vec<Draft>, AllocError>
    ensures { IfOk result (λ drafts. drafts.items ≡ restart_drafts by.now.job by.now.moment those.now.cycles those.now.undos) }
{
    let mut drafts = Vec::new(alloc);
    let cycles = those.cycles();
    match cycles {
        [] => Ok(drafts),
        [_, ..] => {
            drafts.push(library_draft(by, EntryKind::AbnormalEnd))?;
            put_cycles(alloc, &mut drafts, those, cycles, by)?;
            Ok(drafts)
        }
    }
}

/// Puts the drafts of these commit cycles behind the others.
fn put_cycles(
    alloc: Global,
    drafts: &mut Vec<Draft>,
    those: &OpenCycles,
    cycles: &[u64],
    by: &By,
) -> Result<(), AllocError>
    ensures { OnOk result (drafts.new.items ≡ drafts.old.items ++ all_rollback_drafts by.now.job by.now.moment cycles.now those.now.undos) }
{
    for cycle in cycles {
        put_rollback(alloc, drafts, those.changes(), *cycle, by)?;
    }
    Ok(())
}

/// Puts those of one commit cycle.
fn put_rollback(
    alloc: Global,
    drafts: &mut Vec<Draft>,
    changes: &[Option<OpenChange>],
    cycle: u64,
    by: &By,
) -> Result<(), AllocError>
    ensures { OnOk result (drafts.new.items ≡ drafts.old.items ++ rollback_drafts by.now.job by.now.moment cycle (live changes.now)) }
{
    put_undos(alloc, drafts, changes, cycle, by)?;
    drafts.push(cycle_draft(by, cycle, EntryKind::CommitCycleRolledBack))?;
    Ok(())
}

/// Puts those that take its changes back, the last one first.
fn put_undos(
    alloc: Global,
    drafts: &mut Vec<Draft>,
    changes: &[Option<OpenChange>],
    cycle: u64,
    by: &By,
) -> Result<(), AllocError>
    ensures { OnOk result (drafts.new.items ≡ drafts.old.items ++ undo_drafts by.now.job by.now.moment (of_cycle cycle (live changes.now))) }
{
    let mut left = changes.len();
    while left > 0 {
        left -= 1;
        put_undo(alloc, drafts, &changes[left], cycle, by)?;
    }
    Ok(())
}

/// A draft of the library.
fn library_draft(by: &By, kind: EntryKind) -> Draft
    ensures { result ≡ library_draft by.now.job by.now.moment kind }
{
    Draft {
        job: by.job,
        moment: by.moment,
        group: None,
        member: None,
        rrn: None,
        kind,
    }
}

/// A draft of a commit cycle.
fn cycle_draft(by: &By, cycle: u64, kind: EntryKind) -> Draft
    ensures { result ≡ cycle_draft by.now.job by.now.moment cycle kind }
{
    Draft {
        job: by.job,
        moment: by.moment,
        group: Some(cycle),
        member: None,
        rrn: None,
        kind,
    }
}
