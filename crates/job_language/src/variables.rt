//! The values of a job's variables, which can be set back to those at its last request.
ghost use Rattle.std.specs.Prelude.{◌≡◌, IfOk, OnOk, OnErr, slice_set};

use field_types::values::Value;
use library_model::value_lists::Values;
use std::alloc::{AllocError, Global};
use std::marker::Model;
use std::mem;

/// A variable, and the value that it had before it was changed.
#[derive(Drop)]
pub(crate) struct Change {
    pub variable: usize,
    pub before: Value,
}

/// The values, and the changes since the last request in order.
#[derive(Drop)]
pub(crate) struct Variables {
    values: Vec<Value>,
    changes: Vec<Change>,
}

impl Model for Variables {
    ghost use Rattle.job_language.specs.Variables.{Held, without};

    ghost Value = { Held };

    ghost view = { λ v. record { now = v.values.items; before = without v.changes.items v.values.items } };
}

impl Variables {
    /// The literals of the script's declarations.
    pub fn new(alloc: Global, literals: &Values) -> Result<Variables, AllocError>
        ensures now { IfOk result (λ v. v.now ≡ literals.now) }
        ensures before { IfOk result (λ v. v.before ≡ literals.now) }
    {
        let mut values = Vec::new(alloc);
        for literal in literals.as_slice() {
            values.push(literal.copied(alloc)?)?;
        }
        Ok(Variables {
            values,
            changes: Vec::new(alloc),
        })
    }

    /// The values by the variables' numbers.
    pub fn values(&self) -> &[Value]
        ensures { result.now ≡ self.now.now }
    {
        self.values.as_slice()
    }

    /// Where copies of values come from.
    pub fn allocator(&self) -> Global {
        *self.values.allocator()
    }

    /// Gives a variable a value; there is nothing to do for one that isn't declared.
    pub fn set(&mut self, variable: usize, value: Value) -> Result<(), AllocError>
        ensures set { OnOk result (self.new.now ≡ slice_set self.old.now variable value) }
        ensures before { self.new.before ≡ self.old.before }
    {
        if variable < self.values.len() {
            self.changes.reserve(1)?;
            let before = mem::replace(&mut self.values[variable], value);
            self.changes.push_reserved(Change { variable, before });
        }
        Ok(())
    }

    /// Sets the values back to those at the last request.
    pub fn set_back(&mut self)
        ensures now { self.new.now ≡ self.old.before }
        ensures before { self.new.before ≡ self.old.before }
    {
        while let Some(Change { variable, before }) = self.changes.pop() {
            put(&mut self.values, variable, before);
        }
    }

    /// A request is made with the values as they are.
    pub fn settle(&mut self)
        ensures now { self.new.now ≡ self.old.now }
        ensures before { self.new.before ≡ self.old.now }
    {
        self.changes.clear();
    }
}

fn put(values: &mut Vec<Value>, variable: usize, value: Value)
    ensures { values.new.items ≡ slice_set values.old.items variable value }
{
    if variable < values.len() {
        values[variable] = value;
    }
}
