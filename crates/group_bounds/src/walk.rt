//! The way over the entries of a range, forwards or back, and the longest closed part on it.
ghost use Rattle.std.specs.Prelude.{◌≡◌, ℕ, ◌<◌, reverse, Option, IfOk, OnOk};
ghost use Rattle.entry_codec.specs.declared.entries.Entry.{Entry};
ghost use Rattle.journal_model.specs.Acts.{acts};
ghost use Rattle.group_bounds.specs.Bounds.{TellsCut, prefix_cut, suffix_cut};
ghost use Rattle.group_bounds.specs.Walk.{start, first_or, changed, noted, counted, passed, verdict, IsWalked};

use crate::BoundFault;
use crate::marks::{Cycles, Mark};
use crate::roles::{Role, entry_role};
use entry_codec::Entry;
use std::alloc::{AllocError, Global};
use std::marker::Model;

/// What was seen on the way.
#[derive(Drop)]
pub(crate) struct Walk {
    cycles: Cycles,
    /// The commit cycle of the first change; 0 for a change without one.
    first: Option<u64>,
    seen: usize,
    /// How many entries the longest closed part has, and whether it changes the member.
    closed: usize,
    closed_changes: bool,
}

impl Model for Walk {
    ghost use Rattle.group_bounds.specs.Walk.{WalkState};

    ghost Value = { WalkState };

    ghost view = { λ w. record { cycles = w.cycles; first = w.first; seen = w.seen; closed = w.closed; closed_changes = w.closed_changes } };
}

impl Walk {
    fn new(alloc: Global) -> Walk
        ensures { result ≡ start }
    {
        Walk {
            cycles: Cycles::new(alloc),
            first: None,
            seen: 0,
            closed: 0,
            closed_changes: false,
        }
    }

    fn change(&mut self, cycle: Option<u64>) -> Result<(), AllocError>
        ensures { OnOk result (self.new ≡ changed cycle self.old) }
    {
        self.first = Some(self.first.unwrap_or(cycle.unwrap_or(0)));
        match cycle {
            Some(number) => self.cycles.mark(number, Mark::Change),
            None => Ok(()),
        }
    }

    fn note(&mut self, role: Role) -> Result<(), AllocError>
        ensures { OnOk result (self.new ≡ noted role self.old) }
    {
        match role {
            Role::Changes(cycle) => self.change(cycle),
            Role::Begins(cycle) => self.cycles.mark(cycle, Mark::Begin),
            Role::Ends(cycle) => self.cycles.mark(cycle, Mark::End),
            Role::Other => Ok(()),
        }
    }

    fn count(&mut self)
        requires { self.old.seen < usize.MAX }
        ensures { self.new ≡ counted self.old }
    {
        self.seen += 1;
        if self.cycles.are_whole() {
            self.closed = self.seen;
            self.closed_changes = self.first.is_some();
        }
    }

    fn pass(&mut self, role: Role) -> Result<(), AllocError>
        requires { self.old.seen < usize.MAX }
        ensures { OnOk result (self.new ≡ passed role self.old) }
    {
        self.note(role)?;
        self.count();
        Ok(())
    }

    /// How many entries the closed part has, unless a commit cycle is cut.
    pub(crate) fn closed(&self) -> Result<usize, BoundFault>
        ensures count { IfOk result (λ count. count ≡ self.now.closed) }
        ensures cut { TellsCut result (verdict self.now) }
    {
        match self.first {
            Some(group) if !self.closed_changes => Err(BoundFault::Straddled { group }),
            _ => Ok(self.closed),
        }
    }
}

/// The way from the first entry to the last.
pub(crate) fn walk_forward(
    alloc: Global,
    entries: &[Entry],
    member: u32,
) -> Result<Walk, AllocError>
    ensures walked { IfOk result (λ walk. (prior : Option Entry) → IsWalked (acts member prior entries.now) walk) }
    ensures cut { IfOk result (λ walk. (prior : Option Entry) (first : ℕ) → prefix_cut first (acts member prior entries.now) ≡ verdict walk) }
{
    let mut walk = Walk::new(alloc);
    for entry in entries {
        walk.pass(entry_role(entry, member))?;
    }
    Ok(walk)
}

/// The way from the last entry back to the first.
pub(crate) fn walk_back(alloc: Global, entries: &[Entry], member: u32) -> Result<Walk, AllocError>
    ensures walked { IfOk result (λ walk. (prior : Option Entry) → IsWalked (reverse (acts member prior entries.now)) walk) }
    ensures cut { IfOk result (λ walk. (prior : Option Entry) (first : ℕ) → suffix_cut first (acts member prior entries.now) ≡ verdict walk) }
{
    let mut walk = Walk::new(alloc);
    let mut left = entries.len();
    while left > 0 {
        left -= 1;
        walk.pass(entry_role(&entries[left], member))?;
    }
    Ok(walk)
}
