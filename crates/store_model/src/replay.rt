//! One area of a store in memory, change by change: what it held when it was last synced, and what a stop may leave
//! of each write since. `stop_images.rt` makes stores of it.
ghost use Rattle.std.specs.Prelude.{◌≡◌, ◌≤◌, ◌++◌, [], ◌∷◌, List, ℕ, length, IfOk, OnOk};
ghost use Rattle.store_model.specs.declared.past.Change.{Change};
ghost use Rattle.store_model.specs.Replayed.{IsReplayed, changed_area, written_alone};

use crate::past::{Change, overwrite};
use std::alloc::{AllocError, Global};

/// One area: as it reads, as it was last synced, and that with each write since, whole and cut short.
#[derive(Drop)]
pub struct Replayed {
    pub now: Vec<u8>,
    pub synced: Vec<u8>,
    pub torn: Vec<Vec<u8>>,
}

/// Replays the changes to an area.
pub fn replay(alloc: Global, changes: &[Change], area: u32) -> Result<Replayed, AllocError>
    ensures { IfOk result (λ replayed. IsReplayed changes.now area replayed) }
{
    let mut replayed = Replayed {
        now: Vec::new(alloc),
        synced: Vec::new(alloc),
        torn: Vec::new(alloc),
    };
    for change in changes {
        replayed.step(alloc, area, change)?;
    }
    Ok(replayed)
}

/// The area that a change was made to.
fn area_of(change: &Change) -> u32
    ensures { result ≡ changed_area change.now }
{
    match change {
        Change::Wrote(area, _, _) => *area,
        Change::Shortened(area, _) => *area,
        Change::Synced(area) => *area,
    }
}

impl Replayed {
    /// One change more, to this area or another.
    fn step(&mut self, alloc: Global, area: u32, change: &Change) -> Result<(), AllocError>
        ensures { OnOk result ((changes : List Change) → IsReplayed changes area self.old → IsReplayed (changes ++ change.now ∷ []) area self.new) }
    {
        if area_of(change) == area {
            self.apply(alloc, change)?;
        }
        Ok(())
    }

    /// One change to the area more.
    fn apply(&mut self, alloc: Global, change: &Change) -> Result<(), AllocError>
        ensures { OnOk result ((changes : List Change) → IsReplayed changes (changed_area change.now) self.old → IsReplayed (changes ++ change.now ∷ []) (changed_area change.now) self.new) }
    {
        match change {
            Change::Wrote(_, at, bytes) => {
                let place = *at as usize;
                let whole = patched(alloc, &self.synced, place, bytes)?;
                let half = patched(alloc, &self.synced, place, &bytes[..bytes.len() / 2])?;
                self.torn.push(whole)?;
                self.torn.push(half)?;
                overwrite(&mut self.now, place, bytes)?;
            }
            Change::Shortened(_, length) => self.now.truncate(*length as usize),
            Change::Synced(_) => {
                self.synced = Vec::from_slice(alloc, &self.now)?;
                self.torn.clear();
            }
        }
        Ok(())
    }
}

/// An area with a piece written to it alone; a gap before the piece holds zeros.
fn patched(alloc: Global, old: &[u8], at: usize, piece: &[u8]) -> Result<Vec<u8>, AllocError>
    ensures { IfOk result (λ new. new.items ≡ written_alone at piece.now old.now) }
{
    let mut new = Vec::from_slice(alloc, &old[..at.min(old.len())])?;
    new.resize(at, 0)?;
    new.extend_from_slice(piece)?;
    if piece.len() < old.len().saturating_sub(at) {
        new.extend_from_slice(&old[at + piece.len()..])?;
    }
    Ok(new)
}
