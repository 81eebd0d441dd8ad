//! What the key of a file is: its fields in order, whether it is unique, and how equal keys are ordered.
#![tactic(auto)]

ghost use Rattle.std.specs.Prelude.{◌≡◌, [], ◌∷◌, ◌++◌, OnOk, IfOk};

use field_types::kinds::FieldType;
use std::alloc::{AllocError, Global};
use std::marker::Model;

/// One position of a key.
#[derive(Clone, Copy, PartialEq)]
pub enum KeyPart {
    /// A field of the record.
    Field {
        ty: FieldType,
        /// Where its first byte lies in the record, counted from 0.
        offset: u32,
        /// Its values are ordered from the greatest to the least.
        descend: bool,
        /// Its values are ordered without their signs.
        absval: bool,
    },
    /// A position that the format lacks.
    Absent,
}

/// How records with equal keys are ordered.
#[derive(Clone, Copy, PartialEq)]
pub enum Ties {
    /// By their relative record numbers.
    Rising,
    /// By their relative record numbers, the last one first.
    Falling,
}

/// The positions of a key in order.
#[derive(Drop)]
pub struct KeyParts {
    items: Vec<KeyPart>,
}

impl Model for KeyParts {
    ghost use Rattle.std.specs.Prelude.{List};
    ghost use Rattle.key_spec.specs.declared.KeyPart.{KeyPart};

    ghost Value = { List KeyPart };

    ghost view = { λ k. k.items.items };
}

impl KeyParts {
    pub fn new(alloc: Global) -> KeyParts
        ensures { result ≡ [] }
    {
        KeyParts {
            items: Vec::new(alloc),
        }
    }

    /// Adds one at the end.
    pub fn push(&mut self, part: KeyPart) -> Result<(), AllocError>
        ensures { OnOk result (self.new ≡ self.old ++ part ∷ []) }
    {
        self.items.push(part)?;
        Ok(())
    }

    pub fn as_slice(&self) -> &[KeyPart]
        ensures { result.now ≡ self.now }
    {
        self.items.as_slice()
    }

    /// A copy in memory of its own.
    pub fn copied(&self, alloc: Global) -> Result<KeyParts, AllocError>
        ensures { IfOk result (λ k. k ≡ self.now) }
    {
        Ok(KeyParts {
            items: Vec::from_slice(alloc, self.items.as_slice())?,
        })
    }
}

/// The key of a file or of one of its formats.
#[derive(Drop)]
pub struct KeySpec {
    /// None where the file has no key.
    pub parts: KeyParts,
    /// No two records have equal keys.
    pub unique: bool,
    pub ties: Ties,
}

impl KeySpec {
    /// A copy in memory of its own.
    pub fn copied(&self, alloc: Global) -> Result<KeySpec, AllocError>
        ensures { IfOk result (λ k. k ≡ self.now) }
    {
        Ok(KeySpec {
            parts: self.parts.copied(alloc)?,
            unique: self.unique,
            ties: self.ties,
        })
    }
}
