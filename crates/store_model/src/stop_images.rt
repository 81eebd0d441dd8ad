//! What a stop may leave of a store in memory, as stores for a test to try. `replay.rt` has each area by itself.
ghost use Rattle.std.specs.Prelude.{◌≡◌, ◌+◌, ◌^◌, ◌<◌, ◌≤◌, ◌++◌, ◌∷◌, ℕ, List, length, IfOk, OnOk};
ghost use Rattle.std.specs.List.{All, AllByRecursion};
ghost use Rattle.store_model.specs.Disk.{Areas, May};
ghost use Rattle.store_model.specs.Past.{held, blank, seen_after, MayLeave};
ghost use Rattle.store_model.specs.MemoryStore.{disk_of, changes_of, HasImage, HasTorn, IsLeft, IsUntouched};
ghost use Rattle.store_model.specs.Replayed.{IsFree, put};
ghost use Rattle.store_model.specs.Synced.{last_synced};

use crate::MemoryStore;
use crate::calls::Calls;
use crate::past::{Change, Past};
use crate::replay::replay;
use std::alloc::{AllocError, Global};

impl MemoryStore {
    /// Stores that a stop now may leave: the areas as they were last synced, the areas as they read, and for each
    /// write since its area's last sync the areas as last synced with that write alone, whole and cut after half of
    /// its bytes, a gap before it being zeros.
    pub fn stop_images(&self, alloc: Global) -> Result<Vec<MemoryStore>, AllocError>
        ensures possible { IfOk result (λ images. All (λ image. May (disk_of self.now) (disk_of image).seen) images.items) }
        ensures untouched { IfOk result (λ images. All IsUntouched images.items) }
        ensures synced { IfOk result (λ images. HasImage (last_synced (changes_of self.now)) images.items) }
        ensures now { IfOk result (λ images. HasImage (disk_of self.now).seen images.items) }
        ensures torn { IfOk result (λ images. (area : ℕ) → HasTorn (changes_of self.now) area images.items) }
    {
        let changes = self.past.changes.as_slice();
        let now = self.past.areas.as_slice();
        let areas = synced_areas(alloc, changes, now.len())?;
        let synced = areas.as_slice();
        let mut images = Vec::new(alloc);
        images.push(image(alloc, synced)?)?;
        images.push(image(alloc, now)?)?;
        add_all_torn(alloc, changes, synced, &mut images)?;
        Ok(images)
    }
}

/// What each of so many areas held when it was last synced.
fn synced_areas(alloc: Global, changes: &[Change], count: usize) -> Result<Vec<Vec<u8>>, AllocError>
    requires { count ≤ 2 ^ 32 }
    ensures free { IfOk result (λ areas. (area : ℕ) → area < count → IsFree changes.now area (held areas.items area)) }
    ensures synced { IfOk result (λ areas. (area : ℕ) → area < count → held areas.items area ≡ last_synced changes.now area) }
    ensures count { IfOk result (λ areas. length areas.items ≡ count) }
{
    let mut areas = Vec::new(alloc);
    for area in 0..count {
        let replayed = replay(alloc, changes, area as u32)?;
        areas.push(replayed.synced)?;
    }
    Ok(areas)
}

/// Adds the images of each write to each area since it was last synced.
fn add_all_torn(
    alloc: Global,
    changes: &[Change],
    synced: &[Vec<u8>],
    images: &mut Vec<MemoryStore>,
) -> Result<(), AllocError>
    requires few { length synced.now ≤ 2 ^ 32 }
    requires may { MayLeave changes.now (held synced.now) }
    requires synced { (area : ℕ) → held synced.now area ≡ last_synced changes.now area }
    ensures left { AllByRecursion (IsLeft changes.now) images.old.items → OnOk result (AllByRecursion (IsLeft changes.now) images.new.items) }
    ensures kept { OnOk result ((areas : Areas) → HasImage areas images.old.items → HasImage areas images.new.items) }
    ensures torn { OnOk result ((area : ℕ) → area < length synced.now → HasTorn changes.now area images.new.items) }
{
    for area in 0..synced.len() {
        add_torn(alloc, changes, synced, area as u32, images)?;
    }
    Ok(())
}

/// Adds the images of each write to an area since it was last synced.
fn add_torn(
    alloc: Global,
    changes: &[Change],
    synced: &[Vec<u8>],
    area: u32,
    images: &mut Vec<MemoryStore>,
) -> Result<(), AllocError>
    requires few { length synced.now ≤ 2 ^ 32 }
    requires may { MayLeave changes.now (held synced.now) }
    requires synced { (area : ℕ) → held synced.now area ≡ last_synced changes.now area }
    ensures left { AllByRecursion (IsLeft changes.now) images.old.items → OnOk result (AllByRecursion (IsLeft changes.now) images.new.items) }
    ensures kept { OnOk result ((areas : Areas) → HasImage areas images.old.items → HasImage areas images.new.items) }
    ensures torn { OnOk result (HasTorn changes.now area images.new.items) }
{
    let replayed = replay(alloc, changes, area)?;
    for bytes in &replayed.torn {
        let image = image_with(alloc, synced, area, bytes)?;
        images.push(image)?;
    }
    Ok(())
}

/// A store with these areas, but for one of them.
fn image_with(
    alloc: Global,
    areas: &[Vec<u8>],
    area: u32,
    bytes: &[u8],
) -> Result<MemoryStore, AllocError>
    requires { length areas.now ≤ 2 ^ 32 }
    ensures areas { IfOk result (λ image. (other : ℕ) → (disk_of image).seen other ≡ put area bytes.now (held areas.now) other) }
    ensures untouched { IfOk result IsUntouched }
{
    let mut image = image(alloc, areas)?;
    replace(&mut image.past, alloc, area, bytes)?;
    Ok(image)
}

/// A store with these areas.
fn image(alloc: Global, areas: &[Vec<u8>]) -> Result<MemoryStore, AllocError>
    requires { length areas.now ≤ 2 ^ 32 }
    ensures areas { IfOk result (λ image. (area : ℕ) → (disk_of image).seen area ≡ held areas.now area) }
    ensures untouched { IfOk result IsUntouched }
{
    let mut past = Past::new(alloc);
    for (place, bytes) in areas.iter().enumerate() {
        replace(&mut past, alloc, place as u32, bytes)?;
    }
    Ok(MemoryStore {
        alloc,
        past,
        calls: Calls::NONE,
        stop: None,
    })
}

/// Puts these bytes in place of what the area has.
fn replace(past: &mut Past, alloc: Global, area: u32, bytes: &[u8]) -> Result<(), AllocError>
    ensures { OnOk result ((other : ℕ) → seen_after blank past.new.changes.items other ≡ put area bytes.now (seen_after blank past.old.changes.items) other) }
{
    let copy = Vec::from_slice(alloc, bytes)?;
    past.add(alloc, Change::Shortened(area, 0))?;
    past.add(alloc, Change::Wrote(area, 0, copy))?;
    past.add(alloc, Change::Synced(area))?;
    Ok(())
}
