//! The entries that tell of a range: what was done, and then each change, as a commit cycle of its own.
ghost use Rattle.std.specs.Prelude.{◌≡◌, [], ◌∷◌, ◌++◌, true, Some, unwrap_or, map, IfOk, OnOk};
ghost use Rattle.std.specs.Option.{option_copied};
ghost use Rattle.member_slots.specs.declared.slot.Slot.TheVariants.{Deleted};
ghost use Rattle.library_steps.specs.Drafts.{record_draft, slot_drafts};
ghost use Rattle.library_steps.specs.Ranges.{given_drafts, told};
ghost use Rattle.range_images.specs.Given.{AreInPlace};
ghost use Rattle.range_requests.specs.Kinds.{kind_of};
ghost use Rattle.range_requests.specs.Walks.{as_given};

use entry_codec::{Draft, EntryKind};
use given_changes::stood;
use library_parts::Author;
use member_slots::member::Member;
use member_slots::slot::Slot;
use range_images::SlotGiven;
use std::alloc::{AllocError, Global};
use std::collections::HashMap;

/// Which way the changes are gone through.
#[derive(Clone, Copy)]
pub(crate) enum Way {
    /// They are applied.
    Forward,
    /// They are removed.
    Back,
}

/// What was done with a range: its closed part, and how many changes it has.
#[derive(Clone, Copy)]
pub(crate) struct Deed {
    pub(crate) way: Way,
    pub(crate) first: u64,
    pub(crate) last: u64,
    pub(crate) changes: u32,
}

/// Who deposits the entries, in which commit cycle, and of which member.
#[derive(Drop)]
pub(crate) struct Teller {
    pub(crate) author: Author,
    pub(crate) cycle: u64,
    pub(crate) member: u32,
}

fn kind(deed: Deed) -> EntryKind
    ensures { result ≡ kind_of deed.way deed.first deed.last deed.changes }
{
    let Deed {
        way,
        first,
        last,
        changes,
    } = deed;
    match way {
        Way::Forward => EntryKind::ChangesApplied {
            first,
            last,
            changes,
        },
        Way::Back => EntryKind::ChangesRemoved {
            first,
            last,
            changes,
        },
    }
}

/// The entries of what was done, and of the slots that were given to the member.
pub(crate) fn told(
    teller: &Teller,
    alloc: Global,
    member: &Member,
    deed: Deed,
    given: &[SlotGiven],
) -> Result<Vec<Draft>, AllocError>
    requires { AreInPlace 1 given.now member.now.state.slots }
    ensures { IfOk result (λ drafts. drafts.items ≡ told teller.now.author teller.now.cycle teller.now.member (kind_of deed.way deed.first deed.last deed.changes) member.now.state.slots (map as_given given.now)) }
{
    let mut drafts = Vec::new(alloc);
    drafts.push(teller.author.member_draft(teller.member, kind(deed)))?;
    if given.is_empty() {
        return Ok(drafts);
    }
    drafts.push(
        teller
            .author
            .cycle_draft(teller.cycle, EntryKind::CommitCycleStarted),
    )?;
    tell_changes(teller, alloc, member, given, &mut drafts)?;
    drafts.push(
        teller
            .author
            .cycle_draft(teller.cycle, EntryKind::CommitCycleCommitted),
    )?;
    Ok(drafts)
}

fn tell_changes(
    teller: &Teller,
    alloc: Global,
    member: &Member,
    given: &[SlotGiven],
    drafts: &mut Vec<Draft>,
) -> Result<(), AllocError>
    requires { AreInPlace 1 given.now member.now.state.slots }
    ensures { OnOk result (drafts.new.items ≡ drafts.old.items ++ given_drafts teller.now.author teller.now.cycle teller.now.member member.now.state.slots (map as_given given.now)) }
{
    let mut latest = HashMap::new(alloc);
    let mut count = member.slots();
    let mut index = 0;
    while index < given.len() {
        let new = &given[index];
        let place = new.rrn - 1;
        let old = stood(&latest, &given[..index], member, place);
        tell_change(teller, alloc, place == count, old, new, drafts)?;
        let _earlier = latest.insert(place, index)?;
        count = count.max(new.rrn);
        index += 1;
    }
    Ok(())
}

/// The entries of one slot that becomes another: a place behind the last slot, or one that the member has.
fn tell_change(
    teller: &Teller,
    alloc: Global,
    behind: bool,
    old: Option<&Slot>,
    new: &SlotGiven,
    drafts: &mut Vec<Draft>,
) -> Result<(), AllocError>
    ensures { OnOk result (drafts.new.items ≡ drafts.old.items ++ slot_drafts teller.now.author (Some teller.now.cycle) true behind teller.now.member new.now.rrn (unwrap_or (option_copied old.entry) Deleted) new.now.slot) }
{
    match (old, &new.slot) {
        (Some(Slot::Live(before)), Slot::Live(after)) => {
            let image = before.copied(alloc)?;
            tell(teller, new.rrn, EntryKind::BeforeImage { image }, drafts)?;
            let image = after.copied(alloc)?;
            let kind = EntryKind::AfterImage {
                has_before: true,
                image,
            };
            tell(teller, new.rrn, kind, drafts)
        }
        (Some(Slot::Live(before)), Slot::Deleted) => {
            let before = Some(before.copied(alloc)?);
            tell(teller, new.rrn, EntryKind::RecordDeleted { before }, drafts)
        }
        (Some(Slot::Deleted) | None, Slot::Live(after)) => {
            let image = after.copied(alloc)?;
            let kind = if behind {
                EntryKind::RecordAdded { image }
            } else {
                EntryKind::RecordAddedAtNumber { image }
            };
            tell(teller, new.rrn, kind, drafts)
        }
        (Some(Slot::Deleted) | None, Slot::Deleted) => Ok(()),
    }
}

fn tell(
    teller: &Teller,
    rrn: u32,
    kind: EntryKind,
    drafts: &mut Vec<Draft>,
) -> Result<(), AllocError>
    ensures { OnOk result (drafts.new.items ≡ drafts.old.items ++ record_draft teller.now.author (Some teller.now.cycle) teller.now.member rrn kind ∷ []) }
{
    let draft = teller
        .author
        .record_draft(Some(teller.cycle), teller.member, rrn, kind);
    drafts.push(draft)?;
    Ok(())
}
