//! The way through a range of entries: its closed part, and the slots that this gives to the member.
ghost use Rattle.std.specs.Prelude.{◌≡◌, ◌+◌, ◌-◌, ◌<◌, ◌≤◌, length, IfOk};
ghost use Rattle.std.specs.Option.{option_copied};
ghost use Rattle.journal_model.specs.Acts.{acts};
ghost use Rattle.journal_model.specs.Journal.{AreNumbered};
ghost use Rattle.journal_model.specs.Ranges.{apply_range, remove_range};
ghost use Rattle.library_steps.specs.Ranges.{fault_reply, given_forward, given_back};
ghost use Rattle.range_images.specs.Faults.{range_fault};
ghost use Rattle.range_images.specs.Sides.{first_sequence};
ghost use Rattle.range_requests.specs.Stops.{bound_stop, images_stop};
ghost use Rattle.library_parts.specs.Given.{AddRecords};
ghost use Rattle.range_requests.specs.Walks.{Walks};

use crate::kept::entry_before;
use entry_codec::Entry;
use group_bounds::{BoundFault, Part, closed_prefix, closed_suffix};
use library_model::replies::Reply;
use library_parts::Stop;
use member_slots::member::Member;
use range_images::laws::commands_answer_by_parts;
use range_images::{ImagesFault, RangeFault, SlotGiven, apply, remove};
use std::alloc::Global;

/// The closed part of a range, by its sequences, and the slots that it gives to the member in their order.
#[derive(Drop)]
pub(crate) struct Walk {
    pub(crate) first: u64,
    pub(crate) last: u64,
    pub(crate) given: Vec<SlotGiven>,
}

/// From the first entry on, as far as the range is closed.
pub(crate) fn forward(
    alloc: Global,
    member: &Member,
    number: u32,
    prior: Option<&Entry>,
    entries: &[Entry],
) -> Result<Walk, Stop>
    requires numbered { AreNumbered (first_sequence entries.now) entries.now }
    requires some { 0 < length entries.now }
    ensures walked { Walks result (apply_range (first_sequence entries.now) (acts number (option_copied prior.entry) entries.now) member.now.state.slots) member.now.state.slots given_forward }
    ensures records { IfOk result (λ walk. AddRecords walk.given.items member.now.state.slots) }
{
    commands_answer_by_parts();
    let part = match closed_prefix(alloc, entries, number) {
        Ok(part) => part,
        Err(fault) => return Err(bound_stop(fault)),
    };
    let count = length_of(part, entries.len());
    match apply(alloc, member, number, prior, &entries[..count]) {
        Ok(changes) => Ok(Walk {
            first: part.lo,
            last: part.hi,
            given: changes.into_vec(),
        }),
        Err(fault) => Err(images_stop(fault)),
    }
}

/// From the last entry back, as far as the range is closed.
pub(crate) fn backward(
    alloc: Global,
    member: &Member,
    number: u32,
    prior: Option<&Entry>,
    entries: &[Entry],
) -> Result<Walk, Stop>
    requires numbered { AreNumbered (first_sequence entries.now) entries.now }
    requires some { 0 < length entries.now }
    ensures walked { Walks result (remove_range (first_sequence entries.now) (acts number (option_copied prior.entry) entries.now) member.now.state.slots) member.now.state.slots given_back }
    ensures records { IfOk result (λ walk. AddRecords walk.given.items member.now.state.slots) }
{
    commands_answer_by_parts();
    let part = match closed_suffix(alloc, entries, number) {
        Ok(part) => part,
        Err(fault) => return Err(bound_stop(fault)),
    };
    let count = length_of(part, entries.len());
    let left = entries.len() - count;
    let before = entry_before(prior, entries, left);
    match remove(alloc, member, number, before, &entries[left..]) {
        Ok(changes) => Ok(Walk {
            first: part.lo,
            last: part.hi,
            given: changes.into_vec(),
        }),
        Err(fault) => Err(images_stop(fault)),
    }
}

/// How many entries the part of so many has.
fn length_of(part: Part, most: usize) -> usize
    requires { (part.lo ≤ part.hi) × (part.hi - part.lo + 1 ≤ most) }
    ensures { result ≡ part.hi - part.lo + 1 }
{
    let _ = most;
    (part.hi - part.lo) as usize + 1
}

fn bound_stop(fault: BoundFault) -> Stop
    ensures { result ≡ bound_stop fault }
{
    match fault {
        BoundFault::NoMemory => Stop::NoMemory,
        BoundFault::Straddled { group } => Stop::Refused(Reply::Straddled { group }),
    }
}

fn images_stop(fault: ImagesFault) -> Stop
    ensures { result ≡ images_stop fault }
{
    match fault {
        ImagesFault::NoMemory => Stop::NoMemory,
        ImagesFault::Refused(fault) => Stop::Refused(fault_reply(fault)),
    }
}

fn fault_reply(fault: RangeFault) -> Reply
    ensures { result ≡ fault_reply (range_fault fault) }
{
    match fault {
        RangeFault::Gap { sequence } => Reply::Gap { sequence },
        RangeFault::NotRemovable { sequence } => Reply::NotRemovable { sequence },
        RangeFault::NeedsBoth { sequence } => Reply::NeedsBoth { sequence },
        RangeFault::DoesNotFit { sequence, rrn } => Reply::DoesNotFit { sequence, rrn },
    }
}
