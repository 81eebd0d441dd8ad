//! The fields of bodies. Each has its length, its writer, its reader and its copy.
pub mod file_kind;
pub mod flagged_image;
pub mod has_before;
pub mod image;
pub mod images;
pub mod job;
pub mod level;
pub mod name;
pub mod number4;
pub mod number8;
pub mod optional_image;
pub mod source;
