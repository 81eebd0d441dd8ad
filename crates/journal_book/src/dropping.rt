//! How receivers that are needed no more are given up with their entries. `book.rt` has the book.
ghost use Rattle.std.specs.Prelude.{◌≡◌, ◌≢◌, ◌+◌, ◌-◌, ◌<◌, ◌≤◌, ℕ, List, [], length, drop, get_or, OnOk, IsErr};
ghost use Rattle.store_model.specs.Disk.{Leaves};
ghost use Rattle.store_model.specs.Faults.{Rose};
ghost use Rattle.entry_codec.specs.declared.entries.Entry.{Entry};
ghost use Rattle.receiver_chain.specs.Receivers.{area_of};
ghost use Rattle.receiver_chain.specs.Chain.{attached_of, log_at};
ghost use Rattle.receiver_chain.specs.Others.{LeavesRoots};
ghost use Rattle.journal_book.specs.Book.{Holds, from_sequence, next_of};
ghost use Rattle.journal_book.specs.Kept.{IsKept};

use crate::book::Book;
use crate::starts::forget;
use gated_log::StoreFault;
use store_model::Store;

impl Book {
    /// Gives up the receivers up to this one, with their entries. Call it once the last root names a later first receiver.
    /// After an `Err` fewer may be given up.
    pub fn drop_before<S: Store>(&mut self, store: &mut S, receiver: u32) -> Result<(), StoreFault>
        requires from { self.old.chain.first ≤ receiver }
        requires below { receiver < attached_of self.old.chain }
        ensures holds { S.tells → (entries : List Entry) → Holds self.old entries (S.disk store.old) → Holds self.new (drop (self.new.first - self.old.first) entries) (S.disk store.new) }
        ensures moments { S.tells → (entries : List Entry) → Holds self.old entries (S.disk store.old) → Leaves (S.disk store.old) (S.disk store.new) (IsKept (receiver + 1) (self.old.forced - ((log_at self.old.chain (receiver + 1)).first - self.old.first)) (drop ((log_at self.old.chain (receiver + 1)).first - self.old.first) entries)) }
        ensures first { OnOk result (S.tells → (entries : List Entry) → Holds self.old entries (S.disk store.old) → self.new.first ≡ (log_at self.old.chain (receiver + 1)).first) }
        ensures receiver { OnOk result (self.new.chain.first ≡ receiver + 1) }
        ensures cut { OnOk result (S.tells → (number : ℕ) → self.old.chain.first ≤ number → number ≤ receiver → (S.disk store.new).seen (area_of number) ≡ []) }
        ensures others { (area : ℕ) → ((number : ℕ) → self.old.chain.first ≤ number → number ≤ receiver → area ≢ area_of number) → (S.disk store.new).seen area ≡ (S.disk store.old).seen area }
        ensures roots { LeavesRoots (S.disk store.old) (S.disk store.new) }
        ensures least { self.old.first ≤ self.new.first }
        ensures next { next_of self.new ≡ next_of self.old }
        ensures waiting { self.new.waiting ≡ self.old.waiting }
        ensures begun { self.new.begun ≡ self.old.begun }
        ensures buffered { self.new.buffered ≡ self.old.buffered }
        ensures number { attached_of self.new.chain ≡ attached_of self.old.chain }
        ensures room { self.new.bytes ≡ self.old.bytes }
        ensures places { self.new.chain.room ≡ self.old.chain.room }
        ensures cause { IsErr result → Rose (S.disk store.old).faults (S.disk store.new).faults }
    {
        let dropped = self.chain.drop_before(store, receiver);
        forget(&mut self.starts, receiver);
        self.follow_chain();
        dropped?;
        Ok(())
    }

    /// Begins with the first entry of the chain's first receiver. A store that tells nothing may have given any sequence:
    /// one that isn't the book's counts for nothing.
    fn follow_chain(&mut self)
        ensures first { self.old.first ≤ (get_or self.old.chain.earlier 0 self.old.chain.attached).first → (get_or self.old.chain.earlier 0 self.old.chain.attached).first ≤ self.old.first + self.old.forced → self.new.first ≡ (get_or self.old.chain.earlier 0 self.old.chain.attached).first }
        ensures sum { self.new.first + self.new.forced ≡ self.old.first + self.old.forced }
        ensures least { self.old.first ≤ self.new.first }
        ensures same { self.new ≡ from_sequence self.new.first self.new.forced self.old }
    {
        let first = self.first_in_chain();
        if first >= self.first && first - self.first <= self.forced {
            self.forced -= first - self.first;
            self.first = first;
        }
    }

    /// The first sequence of the chain's first receiver.
    fn first_in_chain(&self) -> u64
        ensures { result ≡ (get_or self.now.chain.earlier 0 self.now.chain.attached).first }
    {
        let receiver = self.chain.first();
        self.chain.log(receiver).first()
    }
}
