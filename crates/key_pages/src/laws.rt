//! Laws of lists in order, as contracts of functions that do nothing: callers name them and learn them.

ghost use Rattle.std.specs.Prelude.{◌≡◌, ◌≢◌, ◌⊎◌, ◌↔◌, Bool, List, Contains, reverse};
ghost use Rattle.key_pages.specs.declared.entries.Entry.{Entry};
ghost use Rattle.key_pages.specs.declared.positions.Position.TheVariants.{Start, End};
ghost use Rattle.key_pages.specs.Order.{IsInOrder};
ghost use Rattle.key_pages.specs.EntryList.{with_entry, without_entry};
ghost use Rattle.key_pages.specs.Walk.{ComesForward, ComesBackward};

/// From the start, and on from each entry, the whole list comes in order, and then none.
pub fn walk_forward()
    ensures { (falling : Bool) (entries : List Entry) → IsInOrder falling entries → ComesForward falling entries Start entries }
{}

/// From the end, and back from each entry, the whole list comes in the opposite order, and then none.
pub fn walk_backward()
    ensures { (falling : Bool) (entries : List Entry) → IsInOrder falling entries → ComesBackward falling entries End (reverse entries) }
{}

/// An insert keeps the order and adds one entry.
pub fn insertion()
    ensures order { (falling : Bool) (entry : Entry) (entries : List Entry) → IsInOrder falling entries → IsInOrder falling (with_entry falling entry entries) }
    ensures entries { (falling : Bool) (entry : Entry) (entries : List Entry) (other : Entry) → Contains (with_entry falling entry entries) other ↔ (Contains entries other ⊎ (other ≡ entry)) }
{}

/// A removal keeps the order and takes one entry away.
pub fn removal()
    ensures order { (falling : Bool) (entry : Entry) (entries : List Entry) → IsInOrder falling entries → IsInOrder falling (without_entry falling entry entries) }
    ensures entries { (falling : Bool) (entry : Entry) (entries : List Entry) (other : Entry) → Contains (without_entry falling entry entries) other ↔ (Contains entries other × (other ≢ entry)) }
{}

/// Which entries a list in order has determines it.
pub fn one_order()
    ensures { (falling : Bool) (some others : List Entry) → IsInOrder falling some → IsInOrder falling others → ((entry : Entry) → Contains some entry ↔ Contains others entry) → some ≡ others }
{}
