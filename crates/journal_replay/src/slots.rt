//! Slots and numbers that are compared.
ghost use Rattle.std.specs.Prelude.{◌≡◌};
ghost use Rattle.journal_model.specs.Acts.{is_same_number, place_of};
ghost use Rattle.journal_model.specs.Places.{is_same_slot};

use member_slots::slot::Slot;

/// Whether two slots have the same record, or none.
pub fn is_same_slot(a: &Slot, b: &Slot) -> bool
    ensures { result ≡ is_same_slot a.now b.now }
{
    match a {
        Slot::Live(image) => match b {
            Slot::Live(other) => image == other,
            Slot::Deleted => false,
        },
        Slot::Deleted => match b {
            Slot::Live(_) => false,
            Slot::Deleted => true,
        },
    }
}

/// Whether two commit cycles, or none, are one.
pub fn is_same_cycle(a: Option<u64>, b: Option<u64>) -> bool
    ensures { result ≡ is_same_number a b }
{
    match a {
        None => b.is_none(),
        Some(a) => match b {
            None => false,
            Some(b) => a == b,
        },
    }
}

/// Whether two numbers, or none, are the same.
pub fn is_same_number(a: Option<u32>, b: Option<u32>) -> bool
    ensures { result ≡ is_same_number a b }
{
    match a {
        None => b.is_none(),
        Some(a) => match b {
            None => false,
            Some(b) => a == b,
        },
    }
}

/// The place of a relative record number, counted from 0.
pub fn place_of(rrn: Option<u32>) -> u32
    ensures { result ≡ place_of rrn }
{
    match rrn {
        None => 0,
        Some(rrn) => rrn.saturating_sub(1),
    }
}
