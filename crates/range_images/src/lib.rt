//! The slot changes that APYJRNCHG and RMVJRNCHG make to a member, or why they make none.
#![tactic(auto)]

ghost use Rattle.std.specs.Prelude.{◌≡◌, IfOk};
ghost use Rattle.std.specs.Option.{option_copied};
ghost use Rattle.journal_model.specs.Acts.{acts};
ghost use Rattle.journal_model.specs.Walks.{numbered};
ghost use Rattle.journal_model.specs.Journal.{AreNumbered};
ghost use Rattle.range_images.specs.Sides.{first_sequence};
ghost use Rattle.range_images.specs.Faults.{TellsFault};
ghost use Rattle.range_images.specs.Given.{given_slots, given_forward, given_back, AreInPlace};
ghost use Rattle.range_images.specs.Images.{applied_answer, removed_answer, range_done};

mod breaks;
mod change;
mod changes;
mod fault;
pub mod laws;
mod overlay;
mod reading;
mod slot_given;
mod walks;

use crate::reading::slot_changes;
use crate::walks::{last_lacking, redone, undone};
pub use changes::Changes;
use entry_codec::Entry;
pub use fault::{ImagesFault, RangeFault};
use member_slots::member::Member;
pub use slot_given::SlotGiven;
use std::alloc::Global;

/// The changes of a closed range, made again in the member of that number. `prior` is the entry before
/// the range, where it is kept.
pub fn apply(
    alloc: Global,
    member: &Member,
    number: u32,
    prior: Option<&Entry>,
    entries: &[Entry],
) -> Result<Changes, ImagesFault>
    requires { AreNumbered (first_sequence entries.now) entries.now }
    ensures given { let part = acts number (option_copied prior.entry) entries.now in
        IfOk result (λ changes. changes ≡ given_forward (numbered (first_sequence entries.now) part)) }
    ensures done { let part = acts number (option_copied prior.entry) entries.now in
        let slots = member.now.state.slots in
        IfOk result (λ changes. applied_answer (first_sequence entries.now) part slots ≡ Ok (range_done (first_sequence entries.now) part (given_slots changes slots))) }
    ensures places { IfOk result (λ changes. AreInPlace 1 changes member.now.state.slots) }
    ensures fault { TellsFault result (applied_answer (first_sequence entries.now) (acts number (option_copied prior.entry) entries.now) member.now.state.slots) }
{
    if let Some(fault) = breaks::break_forward(entries, number) {
        return Err(ImagesFault::Refused(fault));
    }
    let changes = slot_changes(alloc, entries, prior, number)?;
    let overlay = redone(alloc, member, changes.as_slice())?;
    Ok(Changes::new(overlay.into_given()))
}

/// The changes of a closed range, taken out of the member of that number, from the last back. `prior` is
/// the entry before the range, where it is kept.
pub fn remove(
    alloc: Global,
    member: &Member,
    number: u32,
    prior: Option<&Entry>,
    entries: &[Entry],
) -> Result<Changes, ImagesFault>
    requires { AreNumbered (first_sequence entries.now) entries.now }
    ensures given { let part = acts number (option_copied prior.entry) entries.now in
        IfOk result (λ changes. changes ≡ given_back (numbered (first_sequence entries.now) part)) }
    ensures done { let part = acts number (option_copied prior.entry) entries.now in
        let slots = member.now.state.slots in
        IfOk result (λ changes. removed_answer (first_sequence entries.now) part slots ≡ Ok (range_done (first_sequence entries.now) part (given_slots changes slots))) }
    ensures places { IfOk result (λ changes. AreInPlace 0 changes member.now.state.slots) }
    ensures fault { TellsFault result (removed_answer (first_sequence entries.now) (acts number (option_copied prior.entry) entries.now) member.now.state.slots) }
{
    if let Some(fault) = breaks::break_back(entries, number) {
        return Err(ImagesFault::Refused(fault));
    }
    let changes = slot_changes(alloc, entries, prior, number)?;
    if let Some(sequence) = last_lacking(changes.as_slice()) {
        return Err(ImagesFault::Refused(RangeFault::NeedsBoth { sequence }));
    }
    let overlay = undone(alloc, member, changes.as_slice())?;
    Ok(Changes::new(overlay.into_given()))
}
