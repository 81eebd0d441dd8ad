//! What a read of a join finds.
use file_model::joins::JoinSpec;
use key_pages::Entry;

/// A row that a read found: of this join that of this entry of the primary file's path, with the secondary files' records of these numbers.
#[derive(Drop)]
pub struct RowFound {
    pub spec: JoinSpec,
    pub primary: Entry,
    /// None where the default values stand for a record.
    pub numbers: Vec<Option<u32>>,
}
