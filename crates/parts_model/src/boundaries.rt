//! Whose change is taken back.
use field_types::names::Name;

/// The record whose change is taken back, the commit cycle of the change, and who takes it back when.
#[derive(Drop)]
pub struct Origin {
    pub job: Name,
    pub moment: u64,
    pub cycle: u64,
    pub member: u32,
    pub rrn: u32,
}
