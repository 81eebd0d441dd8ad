//! Tables of places and counts: the places of each commit cycle's changes, the first change of each record, and how many
//! changes each member has. What they are tables of is in `kept.rt`.
ghost use Rattle.std.specs.Prelude.{◌≡◌, ℕ, ◌+◌, ◌-◌, ◌<◌, ◌^◌, ◌&&◌, [], ◌∷◌, ◌++◌, None, Some, nat_eq, unwrap_or, if◌then◌else◌, set, IfOk, OnOk, OnErr, IfSome, IfNone, length};
ghost use Rattle.indexmap.specs.IndexMap.{get, spare};
ghost use Rattle.open_cycles.specs.Kept.{same_record, first_after, is_at, got};

use crate::changes::OpenChange;
use indexmap::IndexMap;
use std::alloc::{AllocError, Global};
use std::marker::Model;

/// Places, the last one last.
#[derive(Drop)]
pub(crate) struct Places {
    items: Vec<usize>,
}

impl Model for Places {
    ghost use Rattle.std.specs.Prelude.{List, ℕ};

    ghost Value = { List ℕ };

    ghost view = { λ p. p.items.items };
}

impl Places {
    /// One place.
    fn of(alloc: Global, place: usize) -> Result<Places, AllocError>
        ensures { IfOk result (λ places. places ≡ place ∷ []) }
    {
        let mut items = Vec::new(alloc);
        items.push(place)?;
        Ok(Places { items })
    }

    fn push(&mut self, place: usize) -> Result<(), AllocError>
        ensures pushed { OnOk result (self.new ≡ self.old ++ place ∷ []) }
        ensures same { OnErr result (self.new ≡ self.old) }
    {
        self.items.push(place)?;
        Ok(())
    }

    fn pop(&mut self) -> Option<usize>
        ensures popped { IfSome result (λ place. self.old ≡ self.new ++ place ∷ []) }
        ensures none { IfNone result (self.old ≡ []) }
        ensures same { IfNone result (self.new ≡ self.old) }
    {
        self.items.pop()
    }

    pub(crate) fn as_slice(&self) -> &[usize]
        ensures { result.now ≡ self.now }
    {
        self.items.as_slice()
    }
}

/// One place more of the commit cycle's changes.
pub(crate) fn add_place(
    places: &mut IndexMap<u64, Places>,
    alloc: Global,
    cycle: u64,
    place: usize,
) -> Result<(), AllocError>
    ensures added { OnOk result ((n : ℕ) → unwrap_or (get nat_eq places.new n) [] ≡ (if nat_eq cycle n then unwrap_or (get nat_eq places.old n) [] ++ place ∷ [] else unwrap_or (get nat_eq places.old n) [])) }
    ensures same { OnErr result ((n : ℕ) → unwrap_or (get nat_eq places.new n) [] ≡ unwrap_or (get nat_eq places.old n) []) }
{
    if places.contains_key(&cycle) {
        return push_place(places, cycle, place);
    }
    let own = Places::of(alloc, place)?;
    let _replaced = places.insert(cycle, own)?;
    Ok(())
}

fn push_place(
    places: &mut IndexMap<u64, Places>,
    cycle: u64,
    place: usize,
) -> Result<(), AllocError>
    requires { get nat_eq places.old cycle ≡ None → ⊥ }
    ensures added { OnOk result ((n : ℕ) → unwrap_or (get nat_eq places.new n) [] ≡ (if nat_eq cycle n then unwrap_or (get nat_eq places.old n) [] ++ place ∷ [] else unwrap_or (get nat_eq places.old n) [])) }
    ensures same { OnErr result ((n : ℕ) → unwrap_or (get nat_eq places.new n) [] ≡ unwrap_or (get nat_eq places.old n) []) }
{
    let own = places.get_mut(&cycle).unwrap();
    own.push(place)
}

/// Takes the last place of the commit cycle's changes out.
pub(crate) fn take_place(places: &mut IndexMap<u64, Places>, cycle: u64) -> Option<usize>
    ensures taken { IfSome result (λ place. unwrap_or (get nat_eq places.old cycle) [] ≡ unwrap_or (get nat_eq places.new cycle) [] ++ place ∷ []) }
    ensures none { IfNone result (unwrap_or (get nat_eq places.old cycle) [] ≡ []) }
    ensures same { IfNone result ((n : ℕ) → unwrap_or (get nat_eq places.new n) [] ≡ unwrap_or (get nat_eq places.old n) []) }
    ensures others { (n : ℕ) → unwrap_or (get nat_eq places.new n) [] ≡ (if nat_eq cycle n then unwrap_or (get nat_eq places.new cycle) [] else unwrap_or (get nat_eq places.old n) []) }
{
    let Some(own) = places.get_mut(&cycle) else {
        return None;
    };
    own.pop()
}

/// Takes the change at the place out.
pub(crate) fn take_at(kept: &mut Vec<Option<OpenChange>>, place: usize) -> Option<OpenChange>
    requires { place < length kept.old.items }
    ensures taken { result ≡ got kept.old.items place }
    ensures left { kept.new.items ≡ set kept.old.items place None }
{
    std::mem::replace(&mut kept[place], None)
}

/// A change of the record at this place is the first, unless there is one before.
pub(crate) fn add_first(firsts: &mut IndexMap<(u32, u32), usize>, key: (u32, u32), place: usize)
    requires { 0 < spare firsts.old }
    ensures { (r : ℕ × ℕ) → get same_record firsts.new r ≡ first_after (get same_record firsts.old r) (if same_record key r then Some place else None) }
{
    if firsts.contains_key(&key) {
        return;
    }
    let _replaced = firsts.insert(key, place).unwrap();
}

/// The change of the record at this place goes: it may have been the first.
pub(crate) fn forget_first(firsts: &mut IndexMap<(u32, u32), usize>, key: (u32, u32), place: usize)
    ensures { (r : ℕ × ℕ) → get same_record firsts.new r ≡ (if same_record key r && is_at place (get same_record firsts.old key) then None else get same_record firsts.old r) }
{
    if is_first(firsts, key, place) {
        let _first = firsts.swap_remove(&key);
    }
}

fn is_first(firsts: &IndexMap<(u32, u32), usize>, key: (u32, u32), place: usize) -> bool
    ensures { result ≡ is_at place (get same_record firsts.now key) }
{
    match firsts.get(&key) {
        None => false,
        Some(first) => *first == place,
    }
}

/// How many changes the member has.
pub(crate) fn count_of(counts: &IndexMap<u32, usize>, member: u32) -> usize
    ensures { result ≡ unwrap_or (get nat_eq counts.now member) 0 }
{
    counts.get(&member).copied().unwrap_or(0)
}

/// One change of the member more.
pub(crate) fn count_more(counts: &mut IndexMap<u32, usize>, member: u32)
    requires room { 0 < spare counts.old }
    requires fits { unwrap_or (get nat_eq counts.old member) 0 < 2 ^ 63 }
    ensures { (m : ℕ) → unwrap_or (get nat_eq counts.new m) 0 ≡ (if nat_eq member m then unwrap_or (get nat_eq counts.old m) 0 + 1 else unwrap_or (get nat_eq counts.old m) 0) }
{
    let count = count_of(counts, member);
    let _replaced = counts.insert(member, count + 1).unwrap();
}

/// One change of the member less.
pub(crate) fn count_less(counts: &mut IndexMap<u32, usize>, member: u32)
    ensures { (m : ℕ) → unwrap_or (get nat_eq counts.new m) 0 ≡ (if nat_eq member m then unwrap_or (get nat_eq counts.old m) 0 - 1 else unwrap_or (get nat_eq counts.old m) 0) }
{
    let Some(count) = counts.get_mut(&member) else {
        return;
    };
    *count = count.saturating_sub(1);
}
