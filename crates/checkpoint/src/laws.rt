//! What the definitions say of every area's bytes, as laws. The words are in specs/Roots.antt and specs/States.antt.
ghost use Rattle.std.specs.Prelude.{◌≡◌, List, ℕ};
ghost use Rattle.store_model.specs.Disk.{Areas};
ghost use Rattle.entry_codec.specs.declared.entries.Entry.{Entry};
ghost use Rattle.checkpoint.specs.declared.root.Root.{Root};
ghost use Rattle.checkpoint.specs.Roots.{AreRoots, IsRootsDamagedAt};
ghost use Rattle.checkpoint.specs.States.{IsSaved, IsStateDamagedAt, IsStateIn};

/// Area 0 holds one list of roots, or is damaged at one place, and never both; and so the area of a state that a root names.
/// So `open_roots` and `load` answer `Damaged` exactly where there are none.
pub fn one_reading()
    ensures one_list { (earlier others : List Root) (last other : Root) (bytes : List ℕ) → AreRoots earlier last bytes → AreRoots others other bytes → (earlier ≡ others) × (last ≡ other) }
    ensures one_damage { (bytes : List ℕ) (at other : ℕ) → IsRootsDamagedAt bytes at → IsRootsDamagedAt bytes other → at ≡ other }
    ensures never_both { (earlier : List Root) (last : Root) (bytes : List ℕ) (at : ℕ) → IsRootsDamagedAt bytes at → AreRoots earlier last bytes → ⊥ }
    ensures one_state { (root : Root) (state other : List Entry) (areas : Areas) → IsSaved root state areas → IsSaved root other areas → state ≡ other }
    ensures one_fault { (root : Root) (bytes : List ℕ) (at other : ℕ) → IsStateDamagedAt root bytes at → IsStateDamagedAt root bytes other → at ≡ other }
    ensures never_saved { (root : Root) (state : List Entry) (bytes : List ℕ) (at : ℕ) → IsStateDamagedAt root bytes at → IsStateIn root.area root.length state bytes → ⊥ }
{}
