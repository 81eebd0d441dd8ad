//! What requests look up by names.
use file_catalogue::{File, MemberStatus};
use job_table::Open;

/// An open that a request names, and its file.
#[derive(Clone, Copy)]
pub struct OpenFound<'a> {
    pub opened: &'a Open,
    pub file: &'a File,
}

/// A member that a request names, and its file.
#[derive(Drop)]
pub struct MemberFound<'a> {
    pub file: &'a File,
    pub status: MemberStatus,
}
