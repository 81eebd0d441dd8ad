//! The members of a file.
ghost use Rattle.std.specs.Prelude.{◌≡◌, ◌<◌, ◌≤◌, [], ◌∷◌, ◌++◌, length, map, IfOk, if◌then◌else◌, ◌==◌};
ghost use Rattle.library_model.specs.Named.{named};
ghost use Rattle.lawful_states.below.library_steps.specs.declared.limits.TheConstants.{MOST_MEMBERS};
ghost use Rattle.lawful_states.specs.CreatePhysicalFile.{new_status};
ghost use Rattle.lawful_states.specs.SlotChange.{status_in};
ghost use Rattle.lawful_states.specs.Statuses.{after};

use crate::status::MemberStatus;
use field_types::names::Name;
use lawful_states::changes::StatusChange;
use lawful_states::library_steps::limits::MOST_MEMBERS;
use std::alloc::{AllocError, Global};
use std::marker::Model;

/// The members of a file in order of creation, with memory for `MOST_MEMBERS` where there is one.
#[derive(Drop)]
pub struct Members {
    members: Vec<(Name, MemberStatus)>,
}

impl Model for Members {
    ghost use Rattle.std.specs.Prelude.{vec_capacity};
    ghost use Rattle.library_model.specs.Named.{Named};
    ghost use Rattle.lawful_states.specs.State as state;
    ghost use Rattle.file_catalogue.specs.OwnMembers.{HaveRoom};

    ghost Value = { Named state.MemberStatus };

    ghost view = { λ m. m.members.items };

    ghost invariant = { λ m. HaveRoom m.members.items (vec_capacity m.members) };
}

impl Members {
    /// A file's first member alone.
    pub fn first(alloc: Global, name: Name, number: u32) -> Result<Members, AllocError>
        ensures { IfOk result (λ m. m ≡ (name, new_status number) ∷ []) }
    {
        let mut members = Vec::with_capacity(alloc, MOST_MEMBERS)?;
        members.push_reserved((name, MemberStatus::new(number)));
        Ok(Members { members })
    }

    /// No members, which take no memory.
    pub(crate) fn none(alloc: Global) -> Members
        ensures { result ≡ [] }
    {
        Members {
            members: Vec::new(alloc),
        }
    }

    /// How many there are.
    pub fn len(&self) -> usize
        ensures { result ≡ length self.now }
    {
        self.members.len()
    }

    /// The members in order of creation.
    pub fn as_slice(&self) -> &[(Name, MemberStatus)]
        ensures { result.now ≡ self.now }
    {
        self.members.as_slice()
    }

    /// The status of the member of that name.
    pub fn named(&self, name: &Name) -> Option<MemberStatus>
        ensures { result ≡ named name.now self.now }
    {
        for (member, status) in self.members.iter() {
            if *name == *member {
                return Some(*status);
            }
        }
        None
    }

    /// The status of the member with that number.
    pub fn numbered(&self, number: u32) -> Option<MemberStatus>
        ensures { result ≡ status_in number self.now }
    {
        for (_, status) in self.members.iter() {
            if status.number() == number {
                return Some(*status);
            }
        }
        None
    }

    /// One member more, where there are members.
    pub(crate) fn push(&mut self, name: Name, number: u32)
        requires few { length self.old < MOST_MEMBERS }
        requires some { 1 ≤ length self.old }
        ensures { self.new ≡ self.old ++ (name, new_status number) ∷ [] }
    {
        self.members
            .push_reserved((name, MemberStatus::new(number)));
    }

    /// Changes the status of the member with that number.
    pub(crate) fn change(&mut self, number: u32, change: StatusChange)
        ensures { self.new ≡ map (λ entry. (entry.0, if entry.1.number == number then after change entry.1 else entry.1)) self.old }
    {
        for (_, status) in self.members.iter_mut() {
            if status.number() == number {
                *status = status.after(change);
            }
        }
    }
}
