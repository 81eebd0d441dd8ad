//! The log of the root records, of which the last one counts. `opening.rt` has how it is opened, `saving.rt` how a state is
//! saved.
ghost use Rattle.std.specs.Prelude.{◌≡◌, ◌+◌, ◌<◌, ◌≤◌, ◌++◌, [], ◌∷◌, List, OnOk, OnErr, IsOk, IsErr};
ghost use Rattle.store_model.specs.Disk.{Does};
ghost use Rattle.store_model.specs.Faults.{Rose};
ghost use Rattle.gated_log.specs.Log.{Anything};
ghost use Rattle.checkpoint.specs.declared.layout.TheConstants.{ROOT_AREA};
ghost use Rattle.checkpoint.specs.declared.root.Root.{Root};
ghost use Rattle.checkpoint.specs.Roots.{IsPutting, IsRoot};
ghost use Rattle.checkpoint.specs.Holding.{HasMoreRoom, Holds, IsHeld};

use crate::root::{Root, framed_root};
use gated_log::{Log, StoreFault};
use std::alloc::AllocError;
use std::marker::Model;
use store_model::Store;

/// The root records of a store.
#[derive(Drop)]
pub struct Roots {
    pub(crate) log: Log,
    pub(crate) last: Root,
}

impl Model for Roots {
    ghost use Rattle.std.specs.Prelude.{◌≡◌};
    ghost use Rattle.checkpoint.specs.declared.layout.TheConstants.{ROOT_AREA};
    ghost use Rattle.checkpoint.specs.Roots.{IsRoot};
    ghost use Rattle.checkpoint.specs.Holding.{RootsState};

    ghost Value = { RootsState };

    ghost view = { λ r. record { log = r.log; last = r.last } };

    ghost invariant = { λ r. IsRoot r.last × (r.log.area ≡ ROOT_AREA) };
}

impl Roots {
    /// The root that counts.
    pub fn last(&self) -> Root
        ensures last { result ≡ self.now.last }
        ensures ranges { IsRoot result }
    {
        self.last
    }

    /// Makes room for that many roots more. It takes memory only where less room is there.
    pub fn reserve(&mut self, roots: u32) -> Result<(), AllocError>
        ensures room { OnOk result (roots ≤ self.new.log.room) }
        ensures enough { roots ≤ self.old.log.room → IsOk result }
        ensures same { HasMoreRoom self.old self.new }
    {
        self.log.reserve(roots)?;
        Ok(())
    }

    /// Appends a root, which counts from then on. After an `Err` the old one counts or the new one: open the roots again.
    pub fn put_root<S: Store>(&mut self, store: &mut S, root: Root) -> Result<(), StoreFault>
        requires held { S.tells → IsHeld self.old (S.disk store.old) }
        requires room { 0 < self.old.log.room }
        requires ranges { IsRoot root }
        ensures last { OnOk result (self.new.last ≡ root) }
        ensures put { OnOk result (S.tells → (earlier : List Root) → Holds self.old earlier (S.disk store.old) → Holds self.new (earlier ++ self.old.last ∷ []) (S.disk store.new)) }
        ensures any_moment { S.tells → (earlier : List Root) → Holds self.old earlier (S.disk store.old) → Does ROOT_AREA (λ _ bytes. IsPutting earlier self.old.last root bytes) (S.disk store.old) (S.disk store.new) }
        ensures apart { Does ROOT_AREA Anything (S.disk store.old) (S.disk store.new) }
        ensures cause { IsErr result → Rose (S.disk store.old).faults (S.disk store.new).faults }
        ensures less_room { OnOk result (self.new.log.room + 1 ≡ self.old.log.room) }
        ensures same_last { OnErr result (self.new.last ≡ self.old.last) }
        ensures same_room { OnErr result (self.new.log.room ≡ self.old.log.room) }
    {
        self.log.append(store, &framed_root(&root))?;
        self.last = root;
        Ok(())
    }
}
