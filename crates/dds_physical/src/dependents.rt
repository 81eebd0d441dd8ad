//! Which files a source refers to.
ghost use Rattle.std.specs.Prelude.{◌≡◌, ◌||◌};
ghost use Rattle.dds_physical.specs.References.{refers_to, line_refers_to, place_is, any_refers_to};

use crate::keyword_names::{arguments_of, first_named};
use crate::keyword_rules::argument_name;
use crate::references::{is_named, reference_file};
use dds_source::arguments::Argument;
use dds_source::specifications::{Source, Specification};
use field_types::names::Name;

/// Whether REF or a REFFLD of the source names the file.
pub fn refers_to(source: &Source, file: &Name) -> bool
    ensures { result ≡ refers_to file.now source.now }
{
    is_named(file, reference_file(source.file.as_slice()))
        || any_refers_to(source.specifications.as_slice(), file)
}

fn any_refers_to(specifications: &[Specification], file: &Name) -> bool
    ensures { result ≡ any_refers_to file.now specifications.now }
{
    let mut rest = specifications;
    while let [specification, more @ ..] = rest {
        if line_refers_to(specification, file) {
            return true;
        }
        rest = more;
    }
    false
}

fn line_refers_to(specification: &Specification, file: &Name) -> bool
    ensures { result ≡ line_refers_to file.now specification.now }
{
    match first_named(b"REFFLD", specification.keywords.as_slice()) {
        Some(keyword) => place_is(arguments_of(keyword), file),
        None => false,
    }
}

/// Whether the second of two arguments is the file.
fn place_is(arguments: &[Argument], file: &Name) -> bool
    ensures { result ≡ place_is file.now arguments.now }
{
    match arguments {
        [_, place] => is_named(file, argument_name(place)),
        _ => false,
    }
}
