//! A record format: its name and its fields, which lie one behind the other. `records.rt` packs and unpacks.
ghost use Rattle.std.specs.Prelude.{◌≡◌, ◌+◌, ◌<◌, ◌≤◌, [], ◌∷◌, ◌++◌, length, OnOk, OnErr, IfOk};
ghost use Rattle.field_values.specs.FieldTypes.{IsFieldType, width};
ghost use Rattle.record_fmt.specs.Layout.{record_length, IsLaidOut};

use field_types::faults::RecordFault;
use field_types::kinds::FieldType;
use field_types::names::Name;
use field_types::texts::Text;
use field_types::values::Value;
use field_values::fields;
use std::alloc::{AllocError, AllocFailed, Global};
use std::marker::Model;

/// The most fields of a format.
pub const MOST_FIELDS: usize = 1000;

/// The most bytes of a record.
pub const MOST_BYTES: u32 = 32766;

/// Why a record has no image.
#[derive(Clone, Copy, PartialEq)]
pub enum PackFault {
    /// The values are too many or too few, or a field refuses its value.
    Refused(RecordFault),
    /// There is no memory for the image; try again with more.
    NoMemory,
}

impl From<AllocError> for PackFault {
    ghost use Rattle.record_fmt.specs.declared.formats.PackFault.TheVariants.{NoMemory};

    ghost from_gives = { λ _ e. e ≡ NoMemory };

    fn from(_: AllocError) -> PackFault {
        PackFault::NoMemory
    }
}

/// A field of a format.
#[derive(Drop)]
pub struct Field {
    pub name: Name,
    pub ty: FieldType,
    /// Where its first byte lies in the record, counted from 0.
    pub offset: u32,
    /// What a field that isn't given holds.
    pub default: Value,
    /// The text of its data description.
    pub text: Text,
}

impl Field {
    /// A copy in memory of its own.
    pub fn copied(&self, alloc: Global) -> Result<Field, AllocError>
        ensures { IfOk result (λ f. f ≡ self.now) }
    {
        Ok(Field {
            name: self.name,
            ty: self.ty,
            offset: self.offset,
            default: self.default.copied(alloc)?,
            text: self.text.copied(alloc)?,
        })
    }
}

/// The fields of a format, in order.
#[derive(Drop)]
pub struct Fields {
    fields: Vec<Field>,
    bytes: u32,
}

impl Model for Fields {
    ghost use Rattle.std.specs.Prelude.{List, ◌≡◌};
    ghost use Rattle.record_fmt.specs.declared.formats.Field.{Field};
    ghost use Rattle.record_fmt.specs.Layout.{IsLaidOut, record_length};

    ghost Value = { List Field };

    ghost view = { λ f. f.fields.items };

    ghost invariant = { λ f. IsLaidOut f.fields.items × (f.bytes ≡ record_length f.fields.items) };
}

impl Fields {
    /// No fields.
    pub fn new(alloc: Global) -> Fields
        ensures { result ≡ [] }
    {
        Fields {
            fields: Vec::new(alloc),
            bytes: 0,
        }
    }

    /// Adds a field behind the others.
    pub fn push(
        &mut self,
        name: Name,
        ty: FieldType,
        default: Value,
        text: Text,
    ) -> Result<(), AllocError>
        requires allowed { IsFieldType ty }
        requires few { length self.old < MOST_FIELDS }
        requires narrow { record_length self.old + width ty ≤ MOST_BYTES }
        ensures pushed { OnOk result (self.new ≡ self.old ++ (record { name = name; ty = ty; offset = record_length self.old; default = default; text = text }) ∷ []) }
        ensures unchanged { OnErr result (self.new ≡ self.old) }
    {
        let offset = self.bytes;
        let width = fields::width(&ty) as u32;
        self.fields.push(Field {
            name,
            ty,
            offset,
            default,
            text,
        })?;
        self.bytes += width;
        Ok(())
    }

    /// The fields in order.
    pub fn as_slice(&self) -> &[Field]
        ensures fields { result.now ≡ self.now }
        ensures laid_out { IsLaidOut self.now }
    {
        self.fields.as_slice()
    }

    /// The bytes of a record.
    pub fn bytes(&self) -> u32
        ensures { result ≡ record_length self.now }
    {
        self.bytes
    }

    /// A copy in memory of its own.
    pub fn copied(&self, alloc: Global) -> Result<Fields, AllocError>
        ensures { IfOk result (λ f. f ≡ self.now) }
    {
        let mut fields = Vec::with_capacity(alloc, self.fields.len())?;
        for field in self.as_slice() {
            fields.push(field.copied(alloc)?)?;
        }
        Ok(Fields {
            fields,
            bytes: self.bytes,
        })
    }
}

/// A record format (DDS for Physical and Logical Files, record format level).
#[derive(Drop)]
pub struct Format {
    pub name: Name,
    pub fields: Fields,
}

impl Format {
    /// The bytes of a record.
    pub fn length(&self) -> u32
        ensures { result ≡ record_length self.now.fields }
    {
        self.fields.bytes()
    }

    /// A copy in memory of its own.
    pub fn copied(&self, alloc: Global) -> Result<Format, AllocError>
        ensures { IfOk result (λ f. f ≡ self.now) }
    {
        Ok(Format {
            name: self.name,
            fields: self.fields.copied(alloc)?,
        })
    }
}
