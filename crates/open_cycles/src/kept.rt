//! The changes of all open commit cycles at their places. The commit cycles themselves are in `cycles.rt`.
ghost use Rattle.std.specs.Prelude.{◌≡◌, ◌<◌, ◌^◌, [], ◌∷◌, ◌++◌, None, true, false, length, OnOk};
ghost use Rattle.std.specs.List.{filter, list_all};
ghost use Rattle.std.specs.Option.{is_some, option_copied, option_map};
ghost use Rattle.journal_model.specs.Replay.{is_not_in, before_of};
ghost use Rattle.journal_replay.specs.Tests.{is_touched, is_apart, first_before};
ghost use Rattle.open_cycles.specs.Kept.{first_change, got, is_restored_by, last_of, live, without_last};

use crate::changes::OpenChange;
use crate::restored::{HasSlots, are_back};
use crate::tables::{
    Places, add_first, add_place, count_less, count_more, count_of, forget_first, take_at,
    take_place,
};
use indexmap::IndexMap;
use journal_replay::is_same_cycle;
use std::alloc::{AllocError, Global};
use std::marker::Model;

/// The changes, each at its place. Where a commit cycle has ended, the places of its changes are empty.
#[derive(Drop)]
pub(crate) struct Changes {
    kept: Vec<Option<OpenChange>>,
    /// The places of each commit cycle's changes.
    places: IndexMap<u64, Places>,
    /// The place of the first change of each record, which is named by its member and its place there.
    firsts: IndexMap<(u32, u32), usize>,
    /// How many changes each member has.
    counts: IndexMap<u32, usize>,
}

impl Model for Changes {
    ghost use Rattle.std.specs.Prelude.{List, nat_eq};
    ghost use Rattle.journal_model.specs.Rollback.{MemberChange};
    ghost use Rattle.indexmap.specs.IndexMap.{get};
    ghost use Rattle.open_cycles.specs.Kept.{live, same_record, AreFound};

    ghost Value = { List MemberChange };

    ghost view = { λ c. live c.kept.items };

    ghost invariant = { λ c. AreFound c.kept.items (get nat_eq c.places) (get same_record c.firsts) (get nat_eq c.counts) };
}

impl Changes {
    /// None.
    pub(crate) fn new(alloc: Global) -> Changes
        ensures { result ≡ [] }
    {
        Changes {
            kept: Vec::new(alloc),
            places: IndexMap::new(alloc),
            firsts: IndexMap::new(alloc),
            counts: IndexMap::new(alloc),
        }
    }

    /// All, each at its place.
    pub(crate) fn kept(&self) -> &[Option<OpenChange>]
        ensures { live result.now ≡ self.now }
    {
        self.kept.as_slice()
    }

    /// Whether one is of the member.
    pub(crate) fn has_member(&self, member: u32) -> bool
        ensures { result ≡ is_touched member self.now }
    {
        count_of(&self.counts, member) != 0
    }

    /// The first one of the record.
    fn first_at(&self, member: u32, place: u32) -> Option<&OpenChange>
        ensures { option_copied result ≡ first_change (member, place) self.now }
    {
        match self.firsts.get(&(member, place)) {
            None => None,
            Some(first) => at(self.kept.as_slice(), *first),
        }
    }

    /// Whether no other commit cycle has changed the record.
    pub(crate) fn are_apart(&self, member: u32, place: u32, cycle: Option<u64>) -> bool
        ensures { result ≡ list_all (is_apart member place cycle) self.now }
    {
        let _kept = &self.kept;
        match self.first_at(member, place) {
            None => true,
            Some(first) => is_same_cycle(Some(first.cycle), cycle),
        }
    }

    /// The first change of the record by the commit cycle.
    pub(crate) fn first_of(&self, cycle: u64, member: u32, place: u32) -> Option<&OpenChange>
        ensures { option_map (λ change. before_of change.change) (option_copied result) ≡ first_before cycle member place self.now None }
    {
        let _kept = &self.kept;
        match self.first_at(member, place) {
            None => None,
            Some(first) => {
                if first.is_of(cycle) {
                    Some(first)
                } else {
                    None
                }
            }
        }
    }

    /// Whether each record that the commit cycle changed is as before its first change of it.
    pub(crate) fn are_restored<M: HasSlots>(&self, cycle: u64, members: &M) -> bool
        ensures { result ≡ list_all (is_restored_by cycle self.now (M.slots members.now)) self.now }
    {
        match self.places.get(&cycle) {
            None => true,
            Some(places) => are_back(
                self,
                self.kept.as_slice(),
                places.as_slice(),
                cycle,
                members,
            ),
        }
    }

    /// One more, which is the last one.
    pub(crate) fn note(&mut self, alloc: Global, change: OpenChange) -> Result<(), AllocError>
        requires { list_all (is_apart change.member change.change.place change.change.cycle) self.old ≡ true }
        ensures { OnOk result (self.new ≡ change ∷ self.old) }
    {
        self.kept.reserve(1)?;
        self.firsts.reserve(1)?;
        self.counts.reserve(1)?;
        let place = count(self.kept.as_slice());
        add_place(&mut self.places, alloc, change.cycle, place)?;
        add_first(&mut self.firsts, (change.member, change.place), place);
        count_more(&mut self.counts, change.member);
        self.kept.push_reserved(Some(change));
        Ok(())
    }

    /// Takes the last one of the commit cycle out.
    pub(crate) fn take_last(&mut self, cycle: u64) -> Option<OpenChange>
        ensures change { result ≡ last_of cycle self.old }
        ensures left { self.new ≡ without_last cycle self.old }
    {
        let Some(place) = take_place(&mut self.places, cycle) else {
            return None;
        };
        let Some(change) = take_at(&mut self.kept, place) else {
            return None;
        };
        forget_first(&mut self.firsts, (change.member, change.place), place);
        count_less(&mut self.counts, change.member);
        Some(change)
    }

    fn drop_last(&mut self, cycle: u64) -> bool
        ensures dropped { result ≡ is_some (last_of cycle self.old) }
        ensures left { self.new ≡ without_last cycle self.old }
    {
        self.take_last(cycle).is_some()
    }

    /// Takes all of the commit cycle out.
    pub(crate) fn end(&mut self, cycle: u64)
        ensures { self.new ≡ filter (λ c. is_not_in cycle c.change) self.old }
    {
        self.drop_all(cycle);
        self.forget(cycle);
        self.trim();
    }

    fn drop_all(&mut self, cycle: u64)
        ensures left { self.new ≡ filter (λ c. is_not_in cycle c.change) self.old }
        ensures none { is_some (last_of cycle self.new) ≡ false }
    {
        while self.drop_last(cycle) {}
    }

    /// The places of a commit cycle that has no changes are no longer kept.
    fn forget(&mut self, cycle: u64)
        requires { is_some (last_of cycle self.old) ≡ false }
        ensures { self.new ≡ self.old }
    {
        let _own = self.places.swap_remove(&cycle);
    }

    /// The empty places behind all changes go.
    fn trim(&mut self)
        ensures { self.new ≡ self.old }
    {
        let places = count(self.kept.as_slice());
        for trimmed in 0..places {
            if !self.trim_last() {
                return;
            }
        }
    }

    /// The last place goes, if it is empty.
    fn trim_last(&mut self) -> bool
        ensures { self.new ≡ self.old }
    {
        take_empty(&mut self.kept)
    }
}

/// Takes the last place out, if it is empty.
fn take_empty(kept: &mut Vec<Option<OpenChange>>) -> bool
    ensures taken { result ≡ true → kept.old.items ≡ kept.new.items ++ None ∷ [] }
    ensures same { result ≡ false → kept.new.items ≡ kept.old.items }
{
    match kept.pop() {
        None => false,
        Some(None) => true,
        Some(Some(change)) => {
            kept.push_reserved(Some(change));
            false
        }
    }
}

fn count(kept: &[Option<OpenChange>]) -> usize
    ensures value { result ≡ length kept.now }
    ensures few { length kept.now < 2 ^ 63 }
{
    kept.len()
}

pub(crate) fn at(kept: &[Option<OpenChange>], place: usize) -> Option<&OpenChange>
    ensures { option_copied result ≡ got kept.now place }
{
    match kept.get(place) {
        None => None,
        Some(change) => change.as_ref(),
    }
}
