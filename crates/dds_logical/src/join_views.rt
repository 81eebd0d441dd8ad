//! What a join file is. Its files are physical files by their names.
use field_types::lists::ListOf;
use field_types::names::Name;
use file_model::joins::{JoinField, JoinPair};
use key_spec::{KeyPart, KeySpec};
use record_fmt::formats::Format;

/// A secondary file, and how it is reached.
#[derive(Drop)]
pub struct JoinedFile {
    pub file: Name,
    /// The file that it is joined from, by its place in JFILE, counted from 0.
    pub from: u32,
    /// The fields that are equal (JFLD), each in its own file's record.
    pub pairs: ListOf<JoinPair>,
    /// The order of several records that match (JDUPSEQ), by a field of this file's record: `Absent` where none is given.
    pub sequence: KeyPart,
}

/// A field of a join format.
#[derive(Drop)]
pub struct JoinedField {
    pub field: JoinField,
    /// Replies have it; a field of usage N isn't shown.
    pub shown: bool,
}

/// A join file.
#[derive(Drop)]
pub struct JoinView {
    /// The first file of JFILE.
    pub primary: Name,
    /// The others in order.
    pub secondaries: ListOf<JoinedFile>,
    /// A field's default has no part here: a missing record shows the default values of its own file's fields.
    pub format: Format,
    /// What each field of the format shows.
    pub fields: ListOf<JoinedField>,
    /// The positions of the key in a record of the format. Each is a field of the primary file.
    pub keys: KeySpec,
    /// A record without a match is kept (JDFTVAL).
    pub keeps_missing: bool,
}
