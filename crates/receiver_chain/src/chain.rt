//! The chain: its looks, its room, and the block that is deposited. `opening.rt` has how it is opened, `link.rt` what
//! ties a receiver to the next one.
ghost use Rattle.std.specs.Prelude.{◌≡◌, ◌+◌, ◌<◌, ◌≤◌, ℕ, List, [], ◌∷◌, ◌++◌, length, OnOk, OnErr, IsOk, IsErr};
ghost use Rattle.store_model.specs.Disk.{Does, Leaves};
ghost use Rattle.store_model.specs.Faults.{Rose};
ghost use Rattle.gated_log.specs.Blocks.{IsFramed, frame};
ghost use Rattle.gated_log.specs.Log.{Anything};
ghost use Rattle.receiver_chain.specs.declared.numbers.TheConstants.{FIRST_RECEIVER, MAX_RECEIVER};
ghost use Rattle.receiver_chain.specs.Links.{IsNoLink};
ghost use Rattle.receiver_chain.specs.Receivers.{Kept, deposited};
ghost use Rattle.receiver_chain.specs.Chain.{Holds, IsHeld, IsWithOrWithout, attached_of};
ghost use Rattle.receiver_chain.specs.Others.{LeavesRoots};

use gated_log::{FRAME, Log, MAX_BLOCK, StoreFault};
use std::alloc::AllocError;
use std::marker::Model;
use store_model::Store;

/// The logs of the receivers that are kept.
#[derive(Drop)]
pub struct Chain {
    /// The number of the first one.
    pub(crate) first: u32,
    /// Those before the attached one.
    pub(crate) earlier: Vec<Log>,
    pub(crate) attached: Log,
    /// For how many blocks room was made.
    pub(crate) room: u32,
}

impl Model for Chain {
    ghost use Rattle.std.specs.Prelude.{◌≡◌, ◌+◌, ◌≤◌, length};
    ghost use Rattle.receiver_chain.specs.declared.numbers.TheConstants.{MAX_RECEIVER};
    ghost use Rattle.receiver_chain.specs.Receivers.{area_of};
    ghost use Rattle.receiver_chain.specs.Chain.{ChainState};

    ghost Value = { ChainState };

    ghost view = { λ c. record { first = c.first; earlier = c.earlier.items; attached = c.attached; room = c.room } };

    ghost invariant = { λ c. (1 ≤ c.first) × (c.first + length c.earlier.items ≤ MAX_RECEIVER) × (c.attached.area ≡ area_of (c.first + length c.earlier.items)) × (c.room ≤ c.attached.room) };
}

impl Chain {
    /// The number of the first receiver that is kept.
    pub fn first(&self) -> u32
        ensures number { result ≡ self.now.first }
        ensures least { FIRST_RECEIVER ≤ result }
        ensures most { attached_of self.now ≤ MAX_RECEIVER }
    {
        self.first
    }

    /// The number of the attached receiver.
    pub fn attached(&self) -> u32
        ensures number { result ≡ attached_of self.now }
        ensures most { result ≤ MAX_RECEIVER }
        ensures above { self.now.first ≤ result }
    {
        self.first + self.earlier.as_slice().len() as u32
    }

    /// Makes room for that many blocks. It takes memory only where less room is there.
    pub fn reserve(&mut self, blocks: u32) -> Result<(), AllocError>
        ensures room { OnOk result (blocks ≤ self.new.room) }
        ensures enough { blocks ≤ self.old.room → IsOk result }
        ensures kept { self.old.room ≤ self.new.room }
        ensures same_first { self.new.first ≡ self.old.first }
        ensures same_earlier { self.new.earlier ≡ self.old.earlier }
        ensures same_area { self.new.attached.area ≡ self.old.attached.area }
        ensures same_attached { self.new.attached.first ≡ self.old.attached.first }
        ensures same_version { self.new.attached.version ≡ self.old.attached.version }
        ensures same_lengths { self.new.attached.lengths ≡ self.old.attached.lengths }
    {
        if blocks <= self.room {
            return Ok(());
        }
        self.attached.reserve(blocks)?;
        self.room = blocks;
        Ok(())
    }

    /// Appends a block to the attached receiver. It comes in its frame, as `gated_log::put_frame` puts it. After an `Err`
    /// the chain has it or hasn't: open it again.
    pub fn deposit_block<S: Store>(
        &mut self,
        store: &mut S,
        framed: &[u8],
    ) -> Result<(), StoreFault>
        requires held { S.tells → IsHeld self.old (S.disk store.old) }
        requires room { 0 < self.old.room }
        requires framed { IsFramed framed.now }
        requires small { length framed.now ≤ MAX_BLOCK + FRAME }
        requires no_link { (block : List ℕ) → framed.now ≡ frame block → IsNoLink (attached_of self.old + 1) block }
        ensures deposited { OnOk result (S.tells → (kept : Kept) (block : List ℕ) → framed.now ≡ frame block → Holds self.old kept (S.disk store.old) → Holds self.new (deposited block kept) (S.disk store.new)) }
        ensures any_moment { S.tells → (kept : Kept) (block : List ℕ) → framed.now ≡ frame block → Holds self.old kept (S.disk store.old) → Leaves (S.disk store.old) (S.disk store.new) (IsWithOrWithout self.old.first kept block) }
        ensures apart { Does self.old.attached.area Anything (S.disk store.old) (S.disk store.new) }
        ensures roots { LeavesRoots (S.disk store.old) (S.disk store.new) }
        ensures cause { IsErr result → Rose (S.disk store.old).faults (S.disk store.new).faults }
        ensures same_first { self.new.first ≡ self.old.first }
        ensures same_earlier { self.new.earlier ≡ self.old.earlier }
        ensures same_area { self.new.attached.area ≡ self.old.attached.area }
        ensures same_attached { self.new.attached.first ≡ self.old.attached.first }
        ensures same_version { self.new.attached.version ≡ self.old.attached.version }
        ensures lengths { OnOk result ((block : List ℕ) → framed.now ≡ frame block → self.new.attached.lengths ≡ self.old.attached.lengths ++ length block ∷ []) }
        ensures same_lengths { OnErr result (self.new.attached.lengths ≡ self.old.attached.lengths) }
        ensures less_room { OnOk result (self.new.room + 1 ≡ self.old.room) }
        ensures same_room { OnErr result (self.new.room ≡ self.old.room) }
    {
        self.attached.append(store, framed)?;
        self.room -= 1;
        Ok(())
    }
}
