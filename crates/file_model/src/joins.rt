//! What a join file is made of. `specs/Joins.antt` has its rows.
use crate::paths::PathSpec;
use crate::views::ViewField;
use decimal_order::field_types::lists::ListOf;
use decimal_order::field_types::texts::Image;
use key_spec::KeyPart;

/// A pair of fields with equal values (JFLD).
#[derive(Drop)]
pub struct JoinPair {
    /// Of the file that is joined from.
    pub from: ViewField,
    /// Of the secondary file.
    pub to: ViewField,
}

/// A secondary file, and how it is reached.
#[derive(Drop)]
pub struct Secondary {
    /// The number of its member.
    pub member: u32,
    /// The file that it is joined from, by its place in JFILE, counted from 0.
    pub from: u32,
    pub pairs: ListOf<JoinPair>,
    /// The order of several records that match (JDUPSEQ): `Absent` where none is given.
    pub sequence: KeyPart,
    /// The image that stands for a missing record where the join has JDFTVAL.
    pub default: Image,
}

/// A field of a join format, and the file that has it, by its place in JFILE (JREF).
#[derive(Drop)]
pub struct JoinField {
    pub file: u32,
    pub field: ViewField,
}

/// A join file.
#[derive(Drop)]
pub struct JoinSpec {
    /// The path of the primary file, which has one format.
    pub primary: PathSpec,
    /// In the order of JFILE.
    pub secondaries: ListOf<Secondary>,
    /// A record without a match is kept (JDFTVAL).
    pub keeps_missing: bool,
    pub fields: ListOf<JoinField>,
}
