//! What a logical file is: formats over physical files, or a join.
use crate::join_views::JoinView;
use field_types::lists::ListOf;
use field_types::names::Name;
use file_model::rules::Rules;
use file_model::views::LogicalField;
use key_spec::KeySpec;
use record_fmt::formats::Format;

/// A format over one physical file.
#[derive(Drop)]
pub struct View {
    /// The physical file (PFILE).
    pub base: Name,
    /// A field's default has no part here: what a new record holds beside the given values is the base file's.
    pub format: Format,
    /// What each field of the format shows of the base file's record.
    pub mapping: ListOf<LogicalField>,
    pub rules: Rules,
    /// The positions of the key in a record of the format. Each format of a file has as many; those that it lacks are
    /// `Absent`.
    pub keys: KeySpec,
}

/// The formats of a file in order.
pub type Views = ListOf<View>;

/// What a source describes.
#[derive(Drop)]
pub enum LogicalSpec {
    /// One format over one physical file.
    Simple(View),
    /// Several formats, merged by their keys.
    Multi(Views),
    /// One format over several physical files.
    Join(JoinView),
}
