//! A store over a folder of the system, with a file for each area. Nothing is claimed of the bytes that pass through it but
//! what the trait asks of every store. Begin with `store.rt`.
#![tactic(auto)]

mod area_file;
mod folder;
mod opening;
mod store;

pub use opening::OpenError;
pub use store::FolderStore;
