//! What becomes of the entries of one call. `journal.rt` has the journal.
ghost use Rattle.std.specs.Prelude.{◌≡◌, ◌⊎◌, ◌+◌, ◌<◌, ◌≤◌, ℕ, true, false, List, ◌++◌, length, OnOk, IsErr};
ghost use Rattle.store_model.specs.Disk.{Leaves};
ghost use Rattle.store_model.specs.Faults.{Rose};
ghost use Rattle.entry_codec.specs.declared.entries.Entry.{Entry};
ghost use Rattle.receiver_chain.specs.Chain.{attached_of};
ghost use Rattle.receiver_chain.specs.Others.{LeavesRoots};
ghost use Rattle.journal_book.specs.Book.{Holds, IsHeld, next_of};
ghost use Rattle.journal_book.specs.Kept.{IsForcedOrFrom};
ghost use Rattle.kept_journal.specs.Journals.{MayWait};

use crate::journal::{KeptJournal, MUCH};
use entry_codec::Entry;
use gated_log::StoreFault;
use store_model::Store;

impl KeptJournal {
    /// Takes the entries of a call, and forces them where that is asked, or where much waits then. It takes no memory. At every moment
    /// a stop leaves the entries that were forced before, or all with those of the call. After an `Err` open the journal again.
    pub fn put_call<S: Store>(
        &mut self,
        store: &mut S,
        entries: &[Entry],
        forced: bool,
    ) -> Result<(), StoreFault>
        requires held { S.tells → IsHeld self.old (S.disk store.old) }
        requires may { MayWait self.old entries.now }
        requires place { 0 < self.old.chain.room }
        ensures kept { OnOk result (S.tells → (all : List Entry) → Holds self.old all (S.disk store.old) → Holds self.new (all ++ entries.now) (S.disk store.new)) }
        ensures moments { S.tells → (all : List Entry) → Holds self.old all (S.disk store.old) → Leaves (S.disk store.old) (S.disk store.new) (IsForcedOrFrom self.old.chain.first self.old.forced (length (all ++ entries.now)) (all ++ entries.now)) }
        ensures roots { LeavesRoots (S.disk store.old) (S.disk store.new) }
        ensures acknowledged { OnOk result (forced ≡ true → self.new.waiting ≡ 0) }
        ensures whole { OnOk result ((self.new.forced ≡ self.old.forced) ⊎ (self.new.waiting ≡ 0)) }
        ensures little { OnOk result (length self.new.buffered < MUCH) }
        ensures next { OnOk result (next_of self.new ≡ next_of self.old + length entries.now) }
        ensures first { self.new.first ≡ self.old.first }
        ensures receiver { self.new.chain.first ≡ self.old.chain.first }
        ensures number { attached_of self.new.chain ≡ attached_of self.old.chain }
        ensures less_places { OnOk result (self.old.chain.room ≤ self.new.chain.room + 1) }
        ensures faults { (S.disk store.old).faults ≤ (S.disk store.new).faults }
        ensures cause { IsErr result → Rose (S.disk store.old).faults (S.disk store.new).faults }
    {
        self.take(entries);
        self.settle(store, forced)
    }

    /// Forces what waits, where that is asked or where much waits.
    fn settle<S: Store>(&mut self, store: &mut S, forced: bool) -> Result<(), StoreFault>
        requires held { S.tells → IsHeld self.old (S.disk store.old) }
        requires place { 0 < self.old.chain.room }
        ensures kept { OnOk result (S.tells → (all : List Entry) → Holds self.old all (S.disk store.old) → Holds self.new all (S.disk store.new)) }
        ensures moments { S.tells → (all : List Entry) → Holds self.old all (S.disk store.old) → Leaves (S.disk store.old) (S.disk store.new) (IsForcedOrFrom self.old.chain.first self.old.forced (length all) all) }
        ensures roots { LeavesRoots (S.disk store.old) (S.disk store.new) }
        ensures acknowledged { OnOk result (forced ≡ true → self.new.waiting ≡ 0) }
        ensures whole { OnOk result ((self.new.forced ≡ self.old.forced) ⊎ (self.new.waiting ≡ 0)) }
        ensures little { OnOk result (length self.new.buffered < MUCH) }
        ensures next { OnOk result (next_of self.new ≡ next_of self.old) }
        ensures first { self.new.first ≡ self.old.first }
        ensures receiver { self.new.chain.first ≡ self.old.chain.first }
        ensures number { attached_of self.new.chain ≡ attached_of self.old.chain }
        ensures less_places { OnOk result (self.old.chain.room ≤ self.new.chain.room + 1) }
        ensures faults { (S.disk store.old).faults ≤ (S.disk store.new).faults }
        ensures cause { IsErr result → Rose (S.disk store.old).faults (S.disk store.new).faults }
    {
        if self.is_due(forced) {
            self.force(store)?;
            Ok(())
        } else {
            Ok(())
        }
    }

    /// Whether what waits is to be forced.
    fn is_due(&self, forced: bool) -> bool
        ensures asked { forced ≡ true → result ≡ true }
        ensures little { result ≡ false → length self.now.buffered < MUCH }
    {
        forced || self.waits_much()
    }
}
