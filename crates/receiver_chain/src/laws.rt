//! What the definitions say of every chain, as laws. The words are in specs/Receivers.antt.
ghost use Rattle.std.specs.Prelude.{◌≡◌, ◌++◌, [], ◌∷◌, List, ℕ};
ghost use Rattle.store_model.specs.Disk.{Areas};
ghost use Rattle.receiver_chain.specs.Receivers.{AreChained, IsChainDamagedAt, Kept, blocks_of, deposited, switched};

/// The areas spell one chain, or are damaged at one place, and never both.
pub fn one_reading()
    ensures one_chain { (first : ℕ) (kept other : Kept) (areas : Areas) → AreChained first kept areas → AreChained first other areas → kept ≡ other }
    ensures one_damage { (first a b at other : ℕ) (areas : Areas) → IsChainDamagedAt first areas a at → IsChainDamagedAt first areas b other → (a ≡ b) × (at ≡ other) }
    ensures never_both { (first area at : ℕ) (kept : Kept) (areas : Areas) → IsChainDamagedAt first areas area at → AreChained first kept areas → ⊥ }
{}

/// The blocks of all receivers are one list: a block that is deposited comes at its end, and so do the blocks by which one
/// receiver ends and the next one begins.
pub fn one_list()
    ensures deposited { (kept : Kept) (block : List ℕ) → blocks_of (deposited block kept) ≡ blocks_of kept ++ block ∷ [] }
    ensures switched { (kept : Kept) (ending : List ℕ) (first : ℕ) → blocks_of (switched ending first kept) ≡ blocks_of kept ++ ending ∷ [] }
{}
