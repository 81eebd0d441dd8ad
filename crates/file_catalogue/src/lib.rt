//! The files of a library in memory, with the statuses of their members. Begin with `catalogue.rt`.
#![tactic(auto)]

pub mod bodies;
pub mod catalogue;
pub mod described;
pub mod files;
pub mod members;
mod owners;
pub mod status;
pub mod views;

pub use bodies::FileBody;
pub use catalogue::Catalogue;
pub use described::Described;
pub use files::File;
pub use members::Members;
pub use status::MemberStatus;
pub use views::DescribedView;
