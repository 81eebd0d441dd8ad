//! Lists of values: those that a request gives, field by field, and those that a record shows.
ghost use Rattle.std.specs.Prelude.{◌≡◌, [], ◌∷◌, ◌++◌, OnOk, OnErr, IfOk};

use field_types::values::Value;
use std::alloc::{AllocError, Global};
use std::marker::Model;

/// Values in the order of their fields.
#[derive(Drop)]
pub struct Values {
    values: Vec<Value>,
}

impl Model for Values {
    ghost use Rattle.std.specs.Prelude.{List};
    ghost use Rattle.field_types.specs.declared.values.Value.{Value as FieldValue};

    ghost Value = { List FieldValue };

    ghost view = { λ v. v.values.items };
}

impl Values {
    /// A copy in memory of its own.
    pub fn copied(&self, alloc: Global) -> Result<Values, AllocError>
        ensures { IfOk result (λ v. v ≡ self.now) }
    {
        let mut values = Vec::new(alloc);
        for value in self.as_slice() {
            values.push(value.copied(alloc)?)?;
        }
        Ok(Values { values })
    }

    /// These values.
    pub fn from_vec(values: Vec<Value>) -> Values
        ensures { result ≡ values.items }
    {
        Values { values }
    }

    /// The values in order.
    pub fn as_slice(&self) -> &[Value]
        ensures { result.now ≡ self.now }
    {
        self.values.as_slice()
    }
}

/// Values that are given for the fields of a record in order, `None` for `*N`: not given.
#[derive(Drop)]
pub struct GivenValues {
    values: Vec<Option<Value>>,
}

impl Model for GivenValues {
    ghost use Rattle.std.specs.Prelude.{List, Option};
    ghost use Rattle.field_types.specs.declared.values.Value.{Value as FieldValue};

    ghost Value = { List (Option FieldValue) };

    ghost view = { λ v. v.values.items };
}

impl GivenValues {
    /// A copy in memory of its own.
    pub fn copied(&self, alloc: Global) -> Result<GivenValues, AllocError>
        ensures { IfOk result (λ v. v ≡ self.now) }
    {
        let mut values = Vec::new(alloc);
        for value in self.as_slice() {
            values.push(copy_given(alloc, value)?)?;
        }
        Ok(GivenValues { values })
    }

    /// No values yet.
    pub fn new(alloc: Global) -> GivenValues
        ensures { result ≡ [] }
    {
        GivenValues {
            values: Vec::new(alloc),
        }
    }

    /// One value more.
    pub fn push(&mut self, value: Option<Value>) -> Result<(), AllocError>
        ensures pushed { OnOk result (self.new ≡ self.old ++ value ∷ []) }
        ensures unchanged { OnErr result (self.new ≡ self.old) }
    {
        self.values.push(value)?;
        Ok(())
    }

    /// The values in order.
    pub fn as_slice(&self) -> &[Option<Value>]
        ensures { result.now ≡ self.now }
    {
        self.values.as_slice()
    }
}

fn copy_given(alloc: Global, value: &Option<Value>) -> Result<Option<Value>, AllocError>
    ensures { IfOk result (λ v. v ≡ value.now) }
{
    match value {
        None => Ok(None),
        Some(given) => Ok(Some(given.copied(alloc)?)),
    }
}
