//! DDS lines read into specifications, or the first fault of a source.
#![tactic(auto)]

mod argument_texts;
pub mod arguments;
mod characters;
mod continuation;
mod entries;
pub mod faults;
mod first;
mod keyword_reading;
mod keyword_texts;
pub mod keywords;
pub mod laws;
mod lines;
mod number_literals;
mod numbers;
mod reading;
mod specification_lines;
pub mod specifications;

pub use arguments::{Argument, Arguments, Characters};
pub use faults::{DdsCause, DdsFault, SourceError};
pub use keywords::{Keyword, Keywords};
pub use reading::read_source;
pub use specifications::{
    Columns, LengthEntry, NameEntry, Source, Specification, SpecificationKind, Specifications,
};
