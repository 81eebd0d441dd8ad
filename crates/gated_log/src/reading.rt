//! What the format says of every area's bytes, as laws. The words are in specs/Blocks.antt.
ghost use Rattle.std.specs.Prelude.{◌≡◌, List, ℕ};
ghost use Rattle.gated_log.specs.Blocks.{Spells, IsDamagedAt};

/// An area's bytes spell one list, or are damaged at one place, and never both. So `open` answers `Damaged` exactly
/// where they spell none.
pub fn one_reading()
    ensures one_list { (area first version other another : ℕ) (blocks others : List (List ℕ)) (bytes : List ℕ) → Spells area first version blocks bytes → Spells area other another others bytes → (first ≡ other) × (version ≡ another) × (blocks ≡ others) }
    ensures one_damage { (area at other : ℕ) (bytes : List ℕ) → IsDamagedAt area bytes at → IsDamagedAt area bytes other → at ≡ other }
    ensures never_both { (area first version at : ℕ) (blocks : List (List ℕ)) (bytes : List ℕ) → IsDamagedAt area bytes at → Spells area first version blocks bytes → ⊥ }
{}
