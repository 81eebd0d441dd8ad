//! A slot that a walk gives to a member.
use member_slots::slot::Slot;

/// What a place of the member becomes.
#[derive(Drop)]
pub struct SlotGiven {
    /// Its relative record number; one past the last slot adds the place.
    pub rrn: u32,
    pub slot: Slot,
}
