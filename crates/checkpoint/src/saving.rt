//! How a state is saved beside the one that the last root names. `loading.rt` has how it is loaded again.
ghost use Rattle.std.specs.Prelude.{◌≡◌, ◌+◌, ◌<◌, ◌≤◌, ◌++◌, ℕ, List, [], ◌∷◌, All, length, IfOk, OnOk, OnErr, IsErr, IsErrOf};
ghost use Rattle.store_model.specs.Disk.{Does, IsDurable, Leaves, Stays};
ghost use Rattle.store_model.specs.Faults.{Rose};
ghost use Rattle.entry_codec.specs.declared.entries.Entry.{Entry};
ghost use Rattle.entry_codec.specs.Spelling.{HasSpelling};
ghost use Rattle.gated_log.specs.Blocks.{IsFramed, Spells, frame};
ghost use Rattle.gated_log.specs.Log.{Anything};
ghost use Rattle.checkpoint.specs.declared.layout.TheConstants.{VERSION};
ghost use Rattle.checkpoint.specs.declared.root.Root.{Root};
ghost use Rattle.checkpoint.specs.Roots.{IsRoot};
ghost use Rattle.checkpoint.specs.States.{spelled};
ghost use Rattle.checkpoint.specs.Holding.{HasMoreRoom, Holds, IsBlank, IsHeld, IsKept, IsSaving, LeavesReceivers, other_area, root_beside, root_of_state};

use crate::blank::{blank_log, make};
use crate::fault::SaveFault;
use crate::root::{FIRST_MEMBER, LAST_STATE_AREA, MAX_NEXT_MEMBER, Root};
use crate::roots::Roots;
use crate::state::{MAX_STATE, framed_state};
use entry_codec::Entry;
use gated_log::{FRAME, Log, MAX_BLOCK, StoreFault};
use std::alloc::Global;
use store_model::Store;

impl Roots {
    /// Saves the state of a sequence in the area that the last root doesn't name, and then puts the root that names it. After
    /// a store fault the old root counts or the new one, each with its state: open the roots again.
    pub fn write<S: Store>(
        &mut self,
        alloc: Global,
        store: &mut S,
        state: &[Entry],
        sequence: u64,
        next_member: u32,
    ) -> Result<(), SaveFault>
        requires held { S.tells → IsHeld self.old (S.disk store.old) }
        requires spelled { All HasSpelling state.now }
        requires small { length (spelled state.now) ≤ MAX_STATE }
        requires members_from { FIRST_MEMBER ≤ next_member }
        requires members_to { next_member ≤ MAX_NEXT_MEMBER }
        ensures last { OnOk result (self.new.last ≡ root_of_state self.old.last state.now sequence next_member) }
        ensures written { OnOk result (S.tells → (earlier : List Root) → Holds self.old earlier (S.disk store.old) → Holds self.new (earlier ++ self.old.last ∷ []) (S.disk store.new)) }
        ensures saved { OnOk result (S.tells → IsKept self.new.last state.now (S.disk store.new)) }
        ensures moments { S.tells → (earlier : List Root) (old : List Entry) → Holds self.old earlier (S.disk store.old) → IsKept self.old.last old (S.disk store.old) → Leaves (S.disk store.old) (S.disk store.new) (IsSaving earlier self.old.last old (root_of_state self.old.last state.now sequence next_member) state.now) }
        ensures apart { LeavesReceivers (S.disk store.old) (S.disk store.new) }
        ensures no_memory { IsErrOf result SaveFault.NoMemory → Stays (S.disk store.old) (S.disk store.new) × HasMoreRoom self.old self.new }
        ensures cause { IsErrOf result SaveFault.StoreFault → Rose (S.disk store.old).faults (S.disk store.new).faults }
        ensures same_last { OnErr result (self.new.last ≡ self.old.last) }
    {
        let last = self.last();
        let framed = framed_state(alloc, state)?;
        let bytes = framed.as_slice();
        let root = root_beside(last, block_size(bytes), sequence, next_member);
        let mut log = blank_log(alloc, root.area)?;
        self.reserve(1)?;
        save(store, root.area, &mut log, bytes)?;
        self.put_root(store, root)?;
        Ok(())
    }
}

/// The root of a state of so many bytes that is saved beside the one that the last root names.
fn root_beside(last: Root, size: u64, sequence: u64, next_member: u32) -> Root
    requires ranges { IsRoot last }
    requires members_from { FIRST_MEMBER ≤ next_member }
    requires members_to { next_member ≤ MAX_NEXT_MEMBER }
    ensures root { result ≡ root_beside last size sequence next_member }
    ensures ranges { IsRoot result }
{
    Root {
        area: other_area(last.area),
        sequence,
        length: size,
        first_receiver: last.first_receiver,
        next_member,
    }
}

/// How many bytes the block in a frame has.
fn block_size(framed: &[u8]) -> u64
    requires { IsFramed framed.now }
    ensures { (block : List ℕ) → framed.now ≡ frame block → result ≡ length block }
{
    (framed.len() - FRAME) as u64
}

/// The area of the two that isn't this one.
fn other_area(area: u32) -> u32
    ensures { result ≡ other_area area }
{
    if area == 1 { 2 } else { 1 }
}

/// Makes the area a log of this block, whatever it held. The block comes in its frame.
fn save<S: Store>(store: &mut S, area: u32, log: &mut Log, framed: &[u8]) -> Result<(), StoreFault>
    requires blank { IsBlank area log.old }
    requires below { area ≤ LAST_STATE_AREA }
    requires room { 0 < log.old.room }
    requires framed { IsFramed framed.now }
    requires small { length framed.now ≤ MAX_BLOCK + FRAME }
    ensures spells { OnOk result (S.tells → (block : List ℕ) → framed.now ≡ frame block → Spells area 0 VERSION (block ∷ []) ((S.disk store.new).seen area)) }
    ensures durable { OnOk result (S.tells → IsDurable area (S.disk store.new)) }
    ensures apart { Does area Anything (S.disk store.old) (S.disk store.new) }
    ensures cause { IsErr result → Rose (S.disk store.old).faults (S.disk store.new).faults }
{
    make(store, area, log)?;
    log.append(store, framed)?;
    Ok(())
}
