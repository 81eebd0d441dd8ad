//! What data descriptions say of the files of a journal: the rules by which a journal is replayed. Begin with `descriptions.rt`, and `specs/Sources.antt` of
//! `restart_model`.
#![tactic(auto)]

pub mod described;
mod descriptions;
mod kept;
mod naming;
mod needed;
mod reading;
mod records;
mod settled;
mod whole;

pub use described::{DescribedFile, DescribedFiles};
pub use descriptions::DataDescriptions;
pub use file_catalogue;
pub use restart_laws;
pub use whole::described_files;
