//! Names of lines, and fields by name.
ghost use Rattle.std.specs.Prelude.{◌≡◌, [], ◌∷◌, OnOk, reverse};
ghost use Rattle.std.specs.Option.{option_copied};
ghost use Rattle.dds_physical.specs.Names.{name_of, field_named, is_listed, is_among};
ghost use Rattle.dds_physical.specs.Lines.{is_blank};
ghost use Rattle.dds_logical.specs.Fields.{with_name};

use dds_physical::dds_source::specifications::NameEntry;
use field_types::names::Name;
use record_fmt::formats::Field;
use std::alloc::{AllocError, Global};
use std::marker::Model;

/// The name of a line; `None` where there is none.
pub(crate) fn name_of(entry: NameEntry) -> Option<Name>
    ensures { result ≡ name_of entry }
{
    match entry {
        NameEntry::Named(name) => Some(name),
        NameEntry::Blank | NameEntry::StarNone => None,
    }
}

/// Whether a line has no name, and not *NONE.
pub(crate) fn is_blank(entry: NameEntry) -> bool
    ensures { result ≡ is_blank entry }
{
    match entry {
        NameEntry::Blank => true,
        NameEntry::Named(_) | NameEntry::StarNone => false,
    }
}

/// The field of a name.
pub(crate) fn field_named<'a>(name: &Name, fields: &'a [Field]) -> Option<&'a Field>
    ensures { option_copied result ≡ field_named name.now fields.now }
{
    let mut rest = fields;
    while let [field, more @ ..] = rest {
        if field.name == *name {
            return Some(field);
        }
        rest = more;
    }
    None
}

/// The names of the lines before one, the last one first.
#[derive(Drop)]
pub(crate) struct EarlierNames {
    items: Vec<Name>,
}

impl Model for EarlierNames {
    ghost use Rattle.std.specs.Prelude.{List, ℕ, reverse};

    ghost Value = { List (List ℕ) };

    ghost view = { λ n. reverse n.items.items };
}

impl EarlierNames {
    pub(crate) fn new(alloc: Global) -> EarlierNames
        ensures { result ≡ [] }
    {
        EarlierNames {
            items: Vec::new(alloc),
        }
    }

    /// One name more, if there is one.
    pub(crate) fn add(&mut self, name: Option<Name>) -> Result<(), AllocError>
        ensures { OnOk result (self.new ≡ with_name self.old name) }
    {
        match name {
            Some(name) => self.push(name),
            None => Ok(()),
        }
    }

    fn push(&mut self, name: Name) -> Result<(), AllocError>
        ensures { OnOk result (self.new ≡ name ∷ self.old) }
    {
        self.items.push(name)?;
        Ok(())
    }

    /// Whether the name, if there is one, is one of these.
    pub(crate) fn is_listed(&self, name: &Option<Name>) -> bool
        ensures { result ≡ is_listed name.now self.now }
    {
        match name {
            Some(name) => contains_backward(self.items.as_slice(), name),
            None => false,
        }
    }
}

/// Whether the name is one of these, looked for from the last to the first.
fn contains_backward(names: &[Name], name: &Name) -> bool
    ensures { result ≡ is_among name.now (reverse names.now) }
{
    let mut left = names.len();
    while left > 0 {
        left -= 1;
        if names[left] == *name {
            return true;
        }
    }
    false
}
