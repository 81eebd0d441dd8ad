//! Values of fields: texts and decimal numbers.
ghost use Rattle.std.specs.Prelude.{◌≡◌, IfOk};

use crate::texts::Text;
use std::alloc::{AllocError, Global};

/// A decimal number, `units` divided by ten to the power of `scale`.
#[derive(Clone, Copy, PartialEq)]
pub struct Dec {
    pub units: i128,
    pub scale: u8,
}

/// What a field holds: dates, times and timestamps are texts in *ISO form.
#[derive(Drop, PartialEq)]
pub enum Value {
    Chars(Text),
    Number(Dec),
}

impl Value {
    /// A copy in memory of its own.
    pub fn copied(&self, alloc: Global) -> Result<Value, AllocError>
        ensures { IfOk result (λ v. v ≡ self.now) }
    {
        match self {
            Value::Chars(text) => Ok(Value::Chars(text.copied(alloc)?)),
            Value::Number(number) => Ok(Value::Number(*number)),
        }
    }
}
