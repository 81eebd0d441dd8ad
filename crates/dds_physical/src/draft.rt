//! What the lines so far describe.
ghost use Rattle.std.specs.Prelude.{◌≡◌, ◌+◌, [], ◌∷◌, ◌++◌, None, OnOk, nat_lt, ◌||◌};
ghost use Rattle.std.specs.Option.{option_copied};
ghost use Rattle.std.specs.List.{list_any};
ghost use Rattle.dds_physical.specs.Draft.{nothing, key_part, key_length, part_length};

use crate::described::DescribedFields;
use crate::keyword_names::first_named;
use dds_source::keywords::Keyword;
use field_types::names::Name;
use key_spec::{KeyPart, KeyParts};
use record_fmt::field_values::fields;
use record_fmt::formats::Field;
use std::alloc::{AllocError, Global};
use std::marker::Model;

/// The most key fields.
pub(crate) const MOST_KEY_FIELDS: usize = 32;

/// The most bytes of a key in a record.
pub(crate) const MOST_KEY_BYTES: usize = 120;

/// Names in order.
#[derive(Drop)]
pub(crate) struct Names {
    items: Vec<Name>,
}

impl Model for Names {
    ghost use Rattle.std.specs.Prelude.{List, ℕ};

    ghost Value = { List (List ℕ) };

    ghost view = { λ n. n.items.items };
}

impl Names {
    pub(crate) fn new(alloc: Global) -> Names
        ensures { result ≡ [] }
    {
        Names {
            items: Vec::new(alloc),
        }
    }

    pub(crate) fn push(&mut self, name: Name) -> Result<(), AllocError>
        ensures { OnOk result (self.new ≡ self.old ++ name ∷ []) }
    {
        self.items.push(name)?;
        Ok(())
    }

    pub(crate) fn as_slice(&self) -> &[Name]
        ensures { result.now ≡ self.now }
    {
        self.items.as_slice()
    }
}

/// The record format's name, its fields, and the key.
#[derive(Drop)]
pub(crate) struct Draft {
    pub(crate) name: Option<Name>,
    pub(crate) fields: DescribedFields,
    pub(crate) key_names: Names,
    pub(crate) key_parts: KeyParts,
}

impl Draft {
    pub(crate) fn new(alloc: Global) -> Draft
        ensures { result ≡ nothing }
    {
        Draft {
            name: None,
            fields: DescribedFields::new(alloc),
            key_names: Names::new(alloc),
            key_parts: KeyParts::new(alloc),
        }
    }
}

/// The position of a key that this field is.
pub(crate) fn key_part(field: Option<&Field>, keywords: &[Keyword]) -> KeyPart
    ensures { result ≡ key_part (option_copied field.entry) keywords.now }
{
    match field {
        Some(field) => KeyPart::Field {
            ty: field.ty,
            offset: field.offset,
            descend: first_named(b"DESCEND", keywords).is_some(),
            absval: first_named(b"ABSVAL", keywords).is_some(),
        },
        None => KeyPart::Absent,
    }
}

/// Whether the key has more bytes in a record than it may.
pub(crate) fn is_key_too_long(parts: &[KeyPart]) -> bool
    ensures { result ≡ nat_lt MOST_KEY_BYTES (key_length parts.now) }
{
    let mut left = MOST_KEY_BYTES;
    let mut rest = parts;
    while let [part, more @ ..] = rest {
        let length = part_length(*part);
        if length > left {
            return true;
        }
        left -= length;
        rest = more;
    }
    false
}

fn part_length(part: KeyPart) -> usize
    ensures { result ≡ part_length part }
{
    match part {
        KeyPart::Field { ty, .. } => fields::width(&ty),
        KeyPart::Absent => 0,
    }
}
