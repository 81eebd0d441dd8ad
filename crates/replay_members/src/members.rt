//! The members as the journal leaves them, in order of creation, found by their numbers.
ghost use Rattle.std.specs.Prelude.{◌≡◌, ◌+◌, ◌≤◌, [], ◌∷◌, ◌++◌, length, map, not, None, Some, false, true, slice_get, OnOk};
ghost use Rattle.std.specs.List.{filter, find, list_any};
ghost use Rattle.std.specs.Option.{is_some, option_copied, option_map, option_map_or};
ghost use Rattle.std.specs.Str.{bytes_eq};
ghost use Rattle.journal_model.specs.declared.limits.TheConstants.{LAST_MEMBER};
ghost use Rattle.journal_model.specs.Catalogue.{has_number, is_in_file};
ghost use Rattle.journal_replay.specs.Standing.{catalog_member, slots_at, new_member};
ghost use Rattle.journal_replay.specs.Left.{is_held};
ghost use Rattle.replay_members.specs.Bodies.{held, member_shown, with_act};
ghost use Rattle.journal_replay.specs.MemberActs.{act_of};
ghost use Rattle.journal_replay.specs.Tests.{is_touched};

use crate::member::Member;
use crate::slots::is_slot_at;
use field_types::names::Name;
use indexmap::IndexMap;
use journal_replay::MemberAct;
use member_slots::slot::Slot;
use open_cycles::{HasSlots, OpenCycles};
use std::alloc::{AllocError, Global};
use std::marker::Model;

/// The members in order of creation, and the number of the next one, which is above all of theirs.
#[derive(Drop)]
pub struct Members {
    members: IndexMap<u32, Member>,
    next: u32,
}

impl Model for Members {
    ghost use Rattle.std.specs.Prelude.{map};
    ghost use Rattle.replay_members.specs.Bodies.{MemberList, held, AreBelow};

    ghost Value = { MemberList };

    ghost view = { λ m. record { members = map held m.members.entries; next = m.next } };

    ghost invariant = { λ m. AreBelow m.next (map held m.members.entries) };
}

impl Members {
    /// No members; the next one has this number.
    pub fn new(alloc: Global, next: u32) -> Members
        ensures members { result.members ≡ [] }
        ensures next { result.next ≡ next }
    {
        Members {
            members: IndexMap::new(alloc),
            next,
        }
    }

    /// The number of the next member.
    pub fn next(&self) -> u32
        ensures { result ≡ self.now.next }
    {
        self.next
    }

    /// How many members there are.
    pub fn len(&self) -> usize
        ensures { result ≡ length self.now.members }
    {
        self.members.len()
    }

    /// The member at a place in the order of creation, counted from 0, with its number.
    pub fn at(&self, place: usize) -> Option<(&u32, &Member)>
        ensures { slice_get self.now.members place ≡ option_map member_shown result }
    {
        self.members.get_index(place)
    }

    /// The member of that number.
    pub fn numbered(&self, number: u32) -> Option<&Member>
        ensures there { is_held number self.now.members ≡ is_some (option_copied result) }
        ensures slots { slots_at number self.now.members ≡ option_map_or (λ body. body.slots) (option_copied result) [] }
        ensures catalogued { find (has_number (Some number)) (map catalog_member self.now.members) ≡ option_map (λ body. catalog_member (held (number, body))) (option_copied result) }
    {
        self.members.get(&number)
    }

    /// The slots of the member of that number, none where there is no such member.
    pub fn slots_of(&self, number: u32) -> &[Slot]
        ensures { result.now ≡ slots_at number self.now.members }
    {
        match self.numbered(number) {
            None => &[],
            Some(member) => member.slots(),
        }
    }

    /// Whether an open commit cycle has changed a member of the file. It looks at each member.
    pub fn have_open(&self, file: &Name, cycles: &OpenCycles) -> bool
        ensures { result ≡ list_any (λ member. is_touched member.number cycles.now.undos) (filter (is_in_file file.now) (map catalog_member self.now.members)) }
    {
        for (number, member) in self.members.iter() {
            if member.file() == *file && cycles.has_member(*number) {
                return true;
            }
        }
        false
    }

    /// Whether the file has a member of that name. It looks at each member.
    pub fn has_name(&self, file: &Name, name: &Name) -> bool
        ensures { result ≡ list_any (λ member. bytes_eq member.name name.now) (filter (is_in_file file.now) (map catalog_member self.now.members)) }
    {
        for (_, member) in self.members.iter() {
            if member.file() == *file && member.name() == *name {
                return true;
            }
        }
        false
    }

    /// What the act makes of the member of that number. Where memory runs out, the members are not to be used again.
    pub fn take(
        &mut self,
        alloc: Global,
        number: u32,
        act: MemberAct,
        sequence: u64,
    ) -> Result<(), AllocError>
        ensures members { OnOk result (self.new.members ≡ with_act number (act_of act) sequence self.old.members) }
        ensures next { self.new.next ≡ self.old.next }
    {
        let Some(member) = self.members.get_mut(&number) else {
            return Ok(());
        };
        member.take(alloc, act, sequence)?;
        Ok(())
    }

    /// One member more, with the next number.
    pub fn add(&mut self, alloc: Global, file: Name, name: Name) -> Result<(), AllocError>
        requires { self.old.next ≤ LAST_MEMBER }
        ensures members { OnOk result (self.new.members ≡ self.old.members ++ new_member self.old.next file name ∷ []) }
        ensures next { OnOk result (self.new.next ≡ self.old.next + 1) }
    {
        let number = self.next;
        self.restore(number, Member::new(alloc, file, name))?;
        Ok(())
    }

    /// One member more with its own number, as a checkpoint saved it. They are restored in order of creation.
    pub fn restore(&mut self, number: u32, member: Member) -> Result<(), AllocError>
        requires above { self.old.next ≤ number }
        requires fits { number ≤ LAST_MEMBER }
        ensures members { OnOk result (self.new.members ≡ self.old.members ++ held (number, member) ∷ []) }
        ensures next { OnOk result (self.new.next ≡ number + 1) }
    {
        let _replaced = self.members.insert(number, member)?;
        self.next = number + 1;
        Ok(())
    }

    /// The numbers below this one are no longer free, as a checkpoint saved it.
    pub fn skip_to(&mut self, next: u32)
        requires { self.old.next ≤ next }
        ensures members { self.new.members ≡ self.old.members }
        ensures next { self.new.next ≡ next }
    {
        self.next = next;
    }

    /// Takes the members of the file out; the others keep their order.
    pub fn remove_of(&mut self, file: &Name)
        ensures members { self.new.members ≡ filter (λ member. not (bytes_eq member.file file.now)) self.old.members }
        ensures next { self.new.next ≡ self.old.next }
    {
        self.members.retain(|_, member| member.file() != *file);
    }
}

impl HasSlots for Members {
    ghost slots = { λ m number. slots_at number m.members };

    fn has_slot(&self, member: u32, place: u32, slot: &Slot) -> bool {
        is_slot_at(self.slots_of(member), place, slot)
    }
}
