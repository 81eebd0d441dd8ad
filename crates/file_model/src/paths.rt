//! What an access path is made of. `specs/Paths.antt` has its entries.
use crate::rules::Rules;
use crate::views::ViewField;
use decimal_order::field_types::lists::ListOf;
use key_spec::{KeyParts, Ties};

/// One format of an access path: its member, and which records it has there under which keys.
#[derive(Drop)]
pub struct PathFormat {
    /// The number of the member.
    pub member: u32,
    pub rules: Rules,
    /// The key fields in order, as the file's format shows them.
    pub fields: ListOf<ViewField>,
    /// The positions of the key, in a record of those fields alone, one after another. Each format of a path has
    /// as many positions; those that it lacks are `Absent`.
    pub key: KeyParts,
}

/// The specification of an access path. Names of files and fields have no part in it: two files with one
/// specification share the path.
#[derive(Drop)]
pub struct PathSpec {
    /// Numbered from 0 in the order of the file's formats.
    pub formats: ListOf<PathFormat>,
    /// No two records have equal keys.
    pub unique: bool,
    pub ties: Ties,
}
