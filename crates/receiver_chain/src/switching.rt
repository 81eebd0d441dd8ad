//! How the next receiver is made and attached. `chain.rt` has the chain.
ghost use Rattle.std.specs.Prelude.{◌≡◌, ◌+◌, ◌<◌, ◌≤◌, ℕ, List, [], ◌∷◌, ◌++◌, length, IfOk, OnOk, OnErr, IsErrOf};
ghost use Rattle.store_model.specs.Disk.{Does, Leaves};
ghost use Rattle.store_model.specs.Faults.{Rose};
ghost use Rattle.gated_log.specs.Log.{Settled, Anything};
ghost use Rattle.receiver_chain.specs.Receivers.{AreChained, Kept, area_of, deposited, switched};
ghost use Rattle.receiver_chain.specs.Chain.{Holds, IsHeld, IsSwitch, IsSwitching, attached_of, firsts, lengths_in, logs_of};
ghost use Rattle.receiver_chain.specs.Others.{LeavesRoots};

use crate::chain::Chain;
use crate::fault::ChainFault;
use crate::numbers::{FIRST_RECEIVER, MAX_RECEIVER, VERSION, area_of};
use byteorder::{BigEndian, ByteOrder};
use gated_log::{Log, create};
use std::alloc::Global;
use std::mem;
use store_model::Store;

/// Where the sequence of the one entry of a block stands in the block's frame, behind two lengths.
const SEQUENCE_AT: usize = 8;

impl Chain {
    /// Makes the next receiver, ends the attached one by the block that names it, and begins the next one. Both blocks
    /// come in their frames. Gives the next one's number.
    pub fn attach_next<S: Store>(
        &mut self,
        alloc: Global,
        store: &mut S,
        nr: &[u8],
        pr: &[u8],
    ) -> Result<u32, ChainFault>
        requires held { S.tells → IsHeld self.old (S.disk store.old) }
        requires below { attached_of self.old < MAX_RECEIVER }
        requires blocks { IsSwitch (attached_of self.old) nr.now pr.now }
        ensures number { IfOk result (λ receiver. receiver ≡ attached_of self.old + 1) }
        ensures attached { IfOk result (λ receiver. receiver ≡ attached_of self.new) }
        ensures switched { OnOk result (S.tells → (kept : Kept) (blocks : IsSwitch (attached_of self.old) nr.now pr.now) → Holds self.old kept (S.disk store.old) → Holds self.new (deposited blocks.beginning (switched blocks.ending (blocks.before + 1) kept)) (S.disk store.new)) }
        ensures any_moment { S.tells → (kept : Kept) (blocks : IsSwitch (attached_of self.old) nr.now pr.now) → Holds self.old kept (S.disk store.old) → Leaves (S.disk store.old) (S.disk store.new) (IsSwitching self.old.first kept blocks.before blocks.ending blocks.beginning) }
        ensures roots { LeavesRoots (S.disk store.old) (S.disk store.new) }
        ensures no_memory { IsErrOf result ChainFault.NoMemory → S.tells → (kept : Kept) → Holds self.old kept (S.disk store.old) → Holds self.new kept (S.disk store.new) }
        ensures unswitched { IsErrOf result ChainFault.NoMemory → S.tells → (kept : Kept) → Holds self.old kept (S.disk store.old) → Leaves (S.disk store.old) (S.disk store.new) (AreChained self.old.first kept) }
        ensures cause { IsErrOf result ChainFault.StoreFault → Rose (S.disk store.old).faults (S.disk store.new).faults }
        ensures faults { (S.disk store.old).faults ≤ (S.disk store.new).faults }
        ensures firsts { OnOk result ((blocks : IsSwitch (attached_of self.old) nr.now pr.now) → firsts (logs_of self.new) ≡ firsts (logs_of self.old) ++ (blocks.before + 1) ∷ []) }
        ensures lengths { OnOk result ((blocks : IsSwitch (attached_of self.old) nr.now pr.now) → lengths_in (logs_of self.new) ≡ lengths_in self.old.earlier ++ (self.old.attached.lengths ++ length blocks.ending ∷ []) ∷ (length blocks.beginning ∷ []) ∷ []) }
        ensures same_first { self.new.first ≡ self.old.first }
        ensures same_room { self.new.room ≡ self.old.room }
        ensures same_number { OnErr result (attached_of self.new ≡ attached_of self.old) }
    {
        let receiver = self.attached() + 1;
        let Some(places) = self.room.checked_add(1) else {
            return Err(ChainFault::NoMemory);
        };
        self.earlier.reserve(1)?;
        self.attached.reserve(places)?;
        let mut next = make_next(alloc, store, receiver, sequence_of(pr), places)?;
        self.attached.append(store, nr)?;
        next.append(store, pr)?;
        self.earlier
            .push_reserved(mem::replace(&mut self.attached, next));
        Ok(receiver)
    }
}

/// The sequence of the entry that begins a receiver.
fn sequence_of(pr: &[u8]) -> u64
    requires { SEQUENCE_AT + 8 ≤ length pr.now }
    ensures { (attached : ℕ) (nr : List ℕ) (blocks : IsSwitch attached nr pr.now) → result ≡ blocks.before + 1 }
{
    BigEndian::read_u64(&pr[SEQUENCE_AT..SEQUENCE_AT + 8])
}

/// Makes the log of a receiver, with room for so many blocks.
fn make_next<S: Store>(
    alloc: Global,
    store: &mut S,
    receiver: u32,
    first: u64,
    places: u32,
) -> Result<Log, ChainFault>
    requires made { FIRST_RECEIVER ≤ receiver }
    requires most { receiver ≤ MAX_RECEIVER }
    ensures settled { IfOk result (λ log. S.tells → Settled log [] (S.disk store.new)) }
    ensures area { IfOk result (λ log. log.area ≡ area_of receiver) }
    ensures first { IfOk result (λ log. log.first ≡ first) }
    ensures version { IfOk result (λ log. log.version ≡ VERSION) }
    ensures lengths { IfOk result (λ log. log.lengths ≡ []) }
    ensures room { IfOk result (λ log. places ≤ log.room) }
    ensures any_moment { Does (area_of receiver) Anything (S.disk store.old) (S.disk store.new) }
    ensures cause { IsErrOf result ChainFault.StoreFault → Rose (S.disk store.old).faults (S.disk store.new).faults }
{
    let mut log = create(alloc, store, area_of(receiver), first, VERSION)?;
    log.reserve(places)?;
    Ok(log)
}
