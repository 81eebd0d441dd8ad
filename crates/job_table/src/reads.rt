//! How a new open reads.
use field_types::lists::ListOf;
use join_position::open_position::position::OpenPosition;
use join_position::position::JoinPosition;

/// How the rows of a join file are read.
#[derive(Drop)]
pub struct OpenRows {
    /// The numbers of the secondary files' paths, in the order of JFILE.
    pub paths: ListOf<u64>,
    /// Where it stands among the rows.
    pub position: JoinPosition,
}

/// How a new open reads.
#[derive(Drop)]
pub struct OpenReads {
    /// The number of its path in the library's path set, of a join file the primary's; none where it reads in arrival order.
    pub path: Option<u64>,
    /// Its position, at the start.
    pub position: OpenPosition,
    /// Its rows, of a join file.
    pub rows: Option<OpenRows>,
}
