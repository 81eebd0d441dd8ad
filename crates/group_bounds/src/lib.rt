//! Which part of a range of journal entries holds whole commit cycles, as far as one member is concerned.
#![tactic(auto)]

ghost use Rattle.std.specs.Prelude.{◌≡◌, ◌+◌, ◌<◌, length, Option, IfOk};
ghost use Rattle.entry_codec.specs.declared.entries.Entry.{Entry};
ghost use Rattle.journal_model.specs.Acts.{acts};
ghost use Rattle.journal_model.specs.Closed.{closed_prefix, closed_suffix};
ghost use Rattle.journal_model.specs.Journal.{AreNumbered};
ghost use Rattle.group_bounds.specs.declared.BoundFault.TheVariants.{NoMemory};
ghost use Rattle.group_bounds.specs.Bounds.{first_sequence, prefix_part, prefix_cut, suffix_part, suffix_cut, TellsCut};

mod marks;
mod roles;
mod walk;

use crate::walk::{walk_back, walk_forward};
use entry_codec::Entry;
use std::alloc::{AllocError, Global};

/// A part of a range, by the sequences of its first and its last entry.
#[derive(Clone, Copy, Debug, PartialEq)]
pub struct Part {
    pub lo: u64,
    pub hi: u64,
}

/// Why a range has no closed part to go through.
#[derive(Clone, Copy, Debug, PartialEq, Drop)]
pub enum BoundFault {
    /// Out of memory: try again with more.
    NoMemory,
    /// The range changes the member, and its closed part doesn't: it cuts the commit cycle of the
    /// first change on the way, which began with the entry of this sequence.
    Straddled { group: u64 },
}

impl From<AllocError> for BoundFault {
    ghost from_gives = { λ _ e. e ≡ NoMemory };

    fn from(_e: AllocError) -> BoundFault {
        BoundFault::NoMemory
    }
}

/// The longest closed part at the beginning of the range, as APYJRNCHG goes through it.
pub fn closed_prefix(alloc: Global, entries: &[Entry], member: u32) -> Result<Part, BoundFault>
    requires some { 0 < length entries.now }
    requires numbered { AreNumbered (first_sequence entries.now) entries.now }
    ensures part { (prior : Option Entry) → IfOk result (λ part. part ≡ prefix_part (first_sequence entries.now) (acts member prior entries.now)) }
    ensures nonempty { (prior : Option Entry) → IfOk result (λ part. 0 < closed_prefix (acts member prior entries.now)) }
    ensures straddled { (prior : Option Entry) → TellsCut result (prefix_cut (first_sequence entries.now) (acts member prior entries.now)) }
{
    let closed = walk_forward(alloc, entries, member)?.closed()?;
    Ok(Part {
        lo: sequence_at(entries, 0),
        hi: sequence_at(entries, closed - 1),
    })
}

/// The longest closed part at the end of the range, as RMVJRNCHG goes back through it.
pub fn closed_suffix(alloc: Global, entries: &[Entry], member: u32) -> Result<Part, BoundFault>
    requires some { 0 < length entries.now }
    requires numbered { AreNumbered (first_sequence entries.now) entries.now }
    ensures part { (prior : Option Entry) → IfOk result (λ part. part ≡ suffix_part (first_sequence entries.now) (acts member prior entries.now)) }
    ensures nonempty { (prior : Option Entry) → IfOk result (λ part. 0 < closed_suffix (acts member prior entries.now)) }
    ensures straddled { (prior : Option Entry) → TellsCut result (suffix_cut (first_sequence entries.now) (acts member prior entries.now)) }
{
    let closed = walk_back(alloc, entries, member)?.closed()?;
    Ok(Part {
        lo: sequence_at(entries, entries.len() - closed),
        hi: sequence_at(entries, entries.len() - 1),
    })
}

fn sequence_at(entries: &[Entry], index: usize) -> u64
    requires there { index < length entries.now }
    requires numbered { AreNumbered (first_sequence entries.now) entries.now }
    ensures { result ≡ first_sequence entries.now + index }
{
    entries[index].sequence
}
