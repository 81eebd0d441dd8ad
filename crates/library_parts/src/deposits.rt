//! Depositing a list of drafts: whether sequences are left, room for all of them, and then one after the other.
ghost use Rattle.std.specs.Prelude.{◌≡◌, ◌+◌, ◌≤◌, ◌++◌, Bool, List, IfOk, OnOk, length};
ghost use Rattle.entry_codec.specs.declared.entries.Draft.{Draft};
ghost use Rattle.parts_model.below.memory_journal.specs.declared.journal.TheConstants.{LAST_BEFORE_DEPOSIT};
ghost use Rattle.library_model.specs.declared.replies.Reply.{Reply};
ghost use Rattle.library_steps.specs.declared.limits.TheConstants.{LAST_SEQUENCE};
ghost use Rattle.library_steps.specs.State.{Memory, State, memory_of};
ghost use Rattle.library_steps.specs.Change.{deposited, journaled};
ghost use Rattle.library_steps.specs.Refusals.{sequences_left};
ghost use Rattle.parts_model.specs.Answers.{Allows};
ghost use Rattle.parts_model.specs.Deposits.{Leaves, with_drafts};

use crate::contents::Contents;
use crate::sizes::{bytes_of, draft_size};
use entry_codec::Draft;
use parts_model::Stop;
use std::alloc::AllocError;

/// The refusal where too few sequences are left for a request that deposits entries.
pub fn may_deposit(contents: &Contents) -> Result<(), Stop>
    ensures allowed { Allows result (sequences_left (memory_of contents.now.state)) }
    ensures left { OnOk result ((memory_of contents.now.state).last_entry ≤ LAST_SEQUENCE) }
{
    contents.sequences_left()?;
    Ok(())
}

/// Makes room for the draft, and hands it back.
pub fn with_room(contents: &mut Contents, draft: Draft) -> Result<Draft, AllocError>
    ensures state { contents.new.state ≡ contents.old.state }
    ensures others { contents.new.room ≡ record contents.old.room { entries = contents.new.room.entries } }
    ensures room { OnOk result (1 ≤ contents.new.room.entries) }
    ensures draft { IfOk result (λ kept. kept ≡ draft) }
{
    contents.reserve_entries(1, draft_size(&draft))?;
    Ok(draft)
}

/// Makes room for these drafts.
pub fn reserve_all(contents: &mut Contents, drafts: &[Draft]) -> Result<(), AllocError>
    requires { length drafts.now ≤ 4294967295 }
    ensures state { contents.new.state ≡ contents.old.state }
    ensures others { contents.new.room ≡ record contents.old.room { entries = contents.new.room.entries } }
    ensures room { OnOk result (length drafts.now ≤ contents.new.room.entries) }
{
    contents.reserve_entries(drafts.len() as u32, bytes_of(drafts))
}

/// Deposits the drafts in their order. It takes no memory.
pub fn deposit_all(contents: &mut Contents, drafts: Vec<Draft>)
    requires room { length drafts.items ≤ contents.old.room.entries }
    requires left { (memory_of contents.old.state).last_entry + length drafts.items ≤ LAST_BEFORE_DEPOSIT }
    ensures state { contents.new.state ≡ record contents.old.state { entries = contents.old.state.entries ++ deposited (memory_of contents.old.state) drafts.items } }
    ensures room { contents.old.room.entries ≤ contents.new.room.entries + length drafts.items }
    ensures others { contents.new.room ≡ record contents.old.room { entries = contents.new.room.entries } }
{
    for draft in drafts {
        let _sequence = contents.deposit(draft);
    }
}

/// A state in which a change's drafts were deposited behind its effect is what the change leaves.
pub fn deposits_leave()
    ensures { (old mid new : State) (drafts : List Draft) (forced : Bool) (reply : Reply) (m : Memory) → memory_of mid ≡ m → m.gone ≡ old.gone → mid.entries ≡ old.entries → new ≡ with_drafts mid drafts → Leaves old new (journaled drafts forced reply m) }
{}
