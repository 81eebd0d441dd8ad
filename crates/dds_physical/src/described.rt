//! The fields that lines have described so far: any number of bytes, of which a record then has at most 32,766.
ghost use Rattle.std.specs.Prelude.{◌≡◌, ◌<◌, ◌≤◌, [], ◌∷◌, ◌++◌, length, OnOk, IfOk};
ghost use Rattle.record_fmt.specs.FieldTypes.{IsFieldType};
ghost use Rattle.record_fmt.specs.Layout.{record_length};
ghost use Rattle.dds_physical.specs.Described.{IsDescribed};

use field_types::kinds::FieldType;
use field_types::names::Name;
use field_types::texts::Text;
use field_types::values::Value;
use record_fmt::field_values::fields;
use record_fmt::formats::{Field, Fields, MOST_BYTES, MOST_FIELDS};
use std::alloc::{AllocError, Global};
use std::marker::Model;

/// Fields one behind the other.
#[derive(Drop)]
pub(crate) struct DescribedFields {
    fields: Vec<Field>,
    bytes: u32,
}

impl Model for DescribedFields {
    ghost use Rattle.std.specs.Prelude.{List, ◌≡◌};
    ghost use Rattle.record_fmt.specs.declared.formats.Field.{Field};
    ghost use Rattle.record_fmt.specs.Layout.{record_length};
    ghost use Rattle.dds_physical.specs.Described.{IsDescribed};

    ghost Value = { List Field };

    ghost view = { λ f. f.fields.items };

    ghost invariant = { λ f. IsDescribed f.fields.items × (f.bytes ≡ record_length f.fields.items) };
}

impl DescribedFields {
    pub(crate) fn new(alloc: Global) -> DescribedFields
        ensures { result ≡ [] }
    {
        DescribedFields {
            fields: Vec::new(alloc),
            bytes: 0,
        }
    }

    /// Adds a field behind the others.
    pub(crate) fn push(
        &mut self,
        name: Name,
        ty: FieldType,
        default: Value,
        text: Text,
    ) -> Result<(), AllocError>
        requires allowed { IsFieldType ty }
        requires few { length self.old < MOST_FIELDS }
        ensures { OnOk result (self.new ≡ self.old ++ (record { name = name; ty = ty; offset = record_length self.old; default = default; text = text }) ∷ []) }
    {
        let offset = self.bytes;
        let width = fields::width(&ty) as u32;
        self.fields.push(Field {
            name,
            ty,
            offset,
            default,
            text,
        })?;
        self.bytes += width;
        Ok(())
    }

    pub(crate) fn as_slice(&self) -> &[Field]
        ensures fields { result.now ≡ self.now }
        ensures described { IsDescribed self.now }
    {
        self.fields.as_slice()
    }

    /// The bytes of a record.
    pub(crate) fn bytes(&self) -> u32
        ensures { result ≡ record_length self.now }
    {
        self.bytes
    }

    /// The fields of a record format, in memory of their own.
    pub(crate) fn to_fields(&self, alloc: Global) -> Result<Fields, AllocError>
        requires { record_length self.now ≤ MOST_BYTES }
        ensures { IfOk result (λ f. f ≡ self.now) }
    {
        let mut fields = Fields::new(alloc);
        let described = self.as_slice();
        for field in described {
            let copy = field.copied(alloc)?;
            let Field {
                name,
                ty,
                default,
                text,
                ..
            } = copy;
            fields.push(name, ty, default, text)?;
        }
        Ok(fields)
    }
}
