//! What a store in memory has come through: every change, and what each area holds now. `memory_store.rt` puts the
//! failures round it.
ghost use Rattle.std.specs.Prelude.{◌≡◌, ◌≢◌, ◌↔◌, ◌+◌, ◌^◌, ◌<◌, ◌≤◌, ◌++◌, [], ◌∷◌, ℕ, length, max, take, IsTrue, OnOk, OnErr};
ghost use Rattle.store_model.specs.Disk.{written};
ghost use Rattle.store_model.specs.Past.{held, blank, changed, seen_after, HasRoom};
ghost use Rattle.store_model.specs.Synced.{IsWritten, WritesTo};

use std::alloc::{AllocError, Global};

/// The longest an area may be.
const MAX_SIZE: u64 = 1 << 62;

/// What a call did.
#[derive(Drop)]
pub enum Change {
    /// These bytes were written to the area, from a place on.
    Wrote(u32, u64, Vec<u8>),
    /// The area was cut to a length.
    Shortened(u32, u64),
    /// The area was synced.
    Synced(u32),
}

/// Areas by number, and the changes that led to them, oldest first.
#[derive(Drop)]
pub struct Past {
    pub areas: Vec<Vec<u8>>,
    pub changes: Vec<Change>,
    ghost agrees: { (area : ℕ) → held areas.items area ≡ seen_after blank changes.items area },
    ghost fits: { (area : ℕ) → length (held areas.items area) ≤ 2 ^ 62 },
    ghost few: { length areas.items ≤ 2 ^ 32 },
    ghost reached: { (area : ℕ) → IsWritten changes.items area → area < length areas.items },
}

impl Past {
    /// Nothing was written yet.
    pub fn new(alloc: Global) -> Past
        ensures { result.changes.items ≡ [] }
    {
        Past {
            areas: Vec::new(alloc),
            changes: Vec::new(alloc),
        }
    }

    /// What a read of the area gives.
    pub fn bytes(&self, area: u32) -> &[u8]
        ensures { result.now ≡ seen_after blank self.now.changes.items area }
    {
        let place = area as usize;
        if place < self.areas.len() {
            &self.areas[place]
        } else {
            &[]
        }
    }

    /// Adds a change. After an `Err`, for want of room, nothing has changed.
    pub fn add(&mut self, alloc: Global, change: Change) -> Result<(), AllocError>
        ensures pushed { OnOk result (self.new.changes.items ≡ self.old.changes.items ++ change ∷ []) }
        ensures room { OnOk result (HasRoom change) }
        ensures unchanged { OnErr result (self.new.changes.items ≡ self.old.changes.items) }
    {
        if !has_room(&change) {
            return Err(AllocError);
        }
        let before = self.changes.len();
        self.changes.push(change)?;
        match apply(alloc, &mut self.areas, &self.changes[before]) {
            Ok(()) => Ok(()),
            Err(error) => {
                self.changes.truncate(before);
                Err(error)
            }
        }
    }
}

/// Whether no area gets longer than an area may be.
fn has_room(change: &Change) -> bool
    ensures { IsTrue result ↔ HasRoom change.now }
{
    match change {
        Change::Wrote(_, at, bytes) => { *at <= MAX_SIZE && bytes.len() as u64 <= MAX_SIZE - *at }
        Change::Shortened(_, _) => true,
        Change::Synced(_) => true,
    }
}

/// Does to the areas what the change does. After an `Err` they hold what they held.
pub fn apply(alloc: Global, areas: &mut Vec<Vec<u8>>, change: &Change) -> Result<(), AllocError>
    ensures done { OnOk result ((area : ℕ) → held areas.new.items area ≡ changed change.now (held areas.old.items) area) }
    ensures unchanged { OnErr result ((area : ℕ) → held areas.new.items area ≡ held areas.old.items area) }
    ensures few { length areas.old.items ≤ 2 ^ 32 → length areas.new.items ≤ 2 ^ 32 }
    ensures reached { OnOk result ((area : ℕ) → WritesTo area change.now → area < length areas.new.items) }
    ensures no_fewer { length areas.old.items ≤ length areas.new.items }
{
    match change {
        Change::Wrote(area, at, bytes) => {
            let place = *area as usize;
            reach(alloc, areas, place + 1)?;
            overwrite(&mut areas[place], *at as usize, bytes)?;
            Ok(())
        }
        Change::Shortened(area, length) => {
            shorten(areas, *area as usize, *length as usize);
            Ok(())
        }
        Change::Synced(_) => Ok(()),
    }
}

/// Cuts an area, if it is held.
fn shorten(areas: &mut Vec<Vec<u8>>, place: usize, end: usize)
    ensures here { held areas.new.items place ≡ take end (held areas.old.items place) }
    ensures others { (other : ℕ) → other ≢ place → held areas.new.items other ≡ held areas.old.items other }
    ensures count { length areas.new.items ≡ length areas.old.items }
{
    if place < areas.len() {
        areas[place].truncate(end);
    }
}

/// Makes empty areas up to a count.
pub fn reach(alloc: Global, areas: &mut Vec<Vec<u8>>, count: usize) -> Result<(), AllocError>
    ensures reached { OnOk result (count ≤ length areas.new.items) }
    ensures same { (area : ℕ) → held areas.new.items area ≡ held areas.old.items area }
    ensures few { length areas.new.items ≤ max (length areas.old.items) count }
    ensures no_fewer { length areas.old.items ≤ length areas.new.items }
{
    while areas.len() < count {
        areas.push(Vec::new(alloc))?;
    }
    Ok(())
}

/// Writes over what is there, and past the end.
pub fn overwrite(old: &mut Vec<u8>, at: usize, bytes: &[u8]) -> Result<(), AllocError>
    ensures written { OnOk result (old.new.items ≡ written at bytes.now old.old.items) }
    ensures unchanged { OnErr result (old.new.items ≡ old.old.items) }
{
    let start = at.min(old.len());
    let inside = bytes.len().min(old.len() - start);
    old.extend_from_slice(&bytes[inside..])?;
    old[start..start + inside].copy_from_slice(&bytes[..inside]);
    Ok(())
}
