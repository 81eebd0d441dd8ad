//! Names of formats, fields and keys, and fields by name.
ghost use Rattle.std.specs.Prelude.{◌≡◌, Option, is_some};
ghost use Rattle.std.specs.Option.{option_copied};
ghost use Rattle.dds_physical.specs.Names.{name_of, field_named, is_field, is_listed, is_among};

use dds_source::specifications::NameEntry;
use field_types::names::Name;
use record_fmt::formats::Field;

/// The name of a line; `None` where there is none.
pub(crate) fn name_of(entry: NameEntry) -> Option<Name>
    ensures { result ≡ name_of entry }
{
    match entry {
        NameEntry::Named(name) => Some(name),
        NameEntry::Blank | NameEntry::StarNone => None,
    }
}

/// The field of a name.
pub(crate) fn field_named<'a>(name: &Name, fields: &'a [Field]) -> Option<&'a Field>
    ensures { option_copied result ≡ field_named name.now fields.now }
{
    let mut rest = fields;
    while let [field, more @ ..] = rest {
        if field.name == *name {
            return Some(field);
        }
        rest = more;
    }
    None
}

/// Whether the name, if there is one, is a field's.
pub(crate) fn is_field(name: &Option<Name>, fields: &[Field]) -> bool
    ensures { result ≡ is_field name.now fields.now }
{
    match name {
        Some(name) => field_named(name, fields).is_some(),
        None => false,
    }
}

/// Whether the name, if there is one, is one of these.
pub(crate) fn is_listed(name: &Option<Name>, names: &[Name]) -> bool
    ensures { result ≡ is_listed name.now names.now }
{
    match name {
        Some(name) => contains(names, name),
        None => false,
    }
}

fn contains(names: &[Name], name: &Name) -> bool
    ensures { result ≡ is_among name.now names.now }
{
    let mut rest = names;
    while let [other, more @ ..] = rest {
        if *other == *name {
            return true;
        }
        rest = more;
    }
    false
}
