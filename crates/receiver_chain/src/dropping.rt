//! How receivers that are needed no more are given up. `chain.rt` has the chain.
ghost use Rattle.std.specs.Prelude.{◌≡◌, ◌≢◌, ◌+◌, ◌-◌, ◌<◌, ◌≤◌, ℕ, [], length, drop, OnOk, IsErr};
ghost use Rattle.store_model.specs.Disk.{Cut, Does, Leaves};
ghost use Rattle.store_model.specs.Faults.{Rose};
ghost use Rattle.receiver_chain.specs.Receivers.{AreChained, IsCutOf, Kept, area_of, dropped};
ghost use Rattle.receiver_chain.specs.Chain.{Holds, attached_of};
ghost use Rattle.receiver_chain.specs.Others.{LeavesRoots};

use crate::chain::Chain;
use crate::numbers::area_of;
use gated_log::StoreFault;
use store_model::Store;

impl Chain {
    /// Cuts the areas of the receivers up to this one, which is below the attached one. From then on the chain begins
    /// behind it. Call it once the last root names a later first receiver.
    pub fn drop_before<S: Store>(&mut self, store: &mut S, receiver: u32) -> Result<(), StoreFault>
        requires from { self.old.first ≤ receiver }
        requires below { receiver < attached_of self.old }
        ensures first { OnOk result (self.new.first ≡ receiver + 1) }
        ensures cut { OnOk result (S.tells → (number : ℕ) → self.old.first ≤ number → number ≤ receiver → (S.disk store.new).seen (area_of number) ≡ []) }
        ensures others { (area : ℕ) → ((number : ℕ) → self.old.first ≤ number → number ≤ receiver → area ≢ area_of number) → (S.disk store.new).seen area ≡ (S.disk store.old).seen area }
        ensures holds { S.tells → (kept : Kept) → Holds self.old kept (S.disk store.old) → Holds self.new (dropped (self.new.first - self.old.first) kept) (S.disk store.new) }
        ensures any_moment { Leaves (S.disk store.old) (S.disk store.new) (IsCutOf (S.disk store.old) self.old.first (receiver + 1)) }
        ensures roots { LeavesRoots (S.disk store.old) (S.disk store.new) }
        ensures kept_stay { S.tells → (kept : Kept) → Holds self.old kept (S.disk store.old) → Leaves (S.disk store.old) (S.disk store.new) (AreChained (receiver + 1) (dropped (receiver + 1 - self.old.first) kept)) }
        ensures cause { IsErr result → Rose (S.disk store.old).faults (S.disk store.new).faults }
        ensures same_number { attached_of self.new ≡ attached_of self.old }
        ensures same_attached { self.new.attached ≡ self.old.attached }
        ensures same_room { self.new.room ≡ self.old.room }
    {
        let mut first = self.first();
        while first <= receiver {
            self.drop_first(store)?;
            first += 1;
        }
        Ok(())
    }

    /// Gives up the first receiver, and cuts its area.
    fn drop_first<S: Store>(&mut self, store: &mut S) -> Result<(), StoreFault>
        requires { 0 < length self.old.earlier }
        ensures first { self.new.first ≡ self.old.first + 1 }
        ensures earlier { self.new.earlier ≡ drop 1 self.old.earlier }
        ensures cut { OnOk result (S.tells → (S.disk store.new).seen (area_of self.old.first) ≡ []) }
        ensures holds { S.tells → (kept : Kept) → Holds self.old kept (S.disk store.old) → Holds self.new (dropped 1 kept) (S.disk store.new) }
        ensures does { Does (area_of self.old.first) (Cut 0) (S.disk store.old) (S.disk store.new) }
        ensures cause { IsErr result → Rose (S.disk store.old).faults (S.disk store.new).faults }
        ensures same_number { attached_of self.new ≡ attached_of self.old }
        ensures same_attached { self.new.attached ≡ self.old.attached }
        ensures same_room { self.new.room ≡ self.old.room }
    {
        let area = area_of(self.first);
        drop(self.earlier.remove(0));
        self.first += 1;
        store.cut(area, 0)?;
        Ok(())
    }
}
