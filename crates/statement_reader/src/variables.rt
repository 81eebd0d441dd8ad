//! The variables that a job has declared.
ghost use Rattle.std.specs.Prelude.{◌≡◌, None, [], ◌∷◌, ◌++◌, OnOk, OnErr};
ghost use Rattle.statement_reader.specs.Variables.{number_in};

use field_types::names::Name;
use indexmap::IndexSet;
use std::alloc::{AllocError, Global};
use std::marker::Model;

/// The names of variables in the order of their DCL, each found by its hash.
#[derive(Drop)]
pub struct Variables {
    names: IndexSet<Name>,
}

impl Model for Variables {
    ghost use Rattle.std.specs.Prelude.{List, ℕ};

    ghost Value = { List (List ℕ) };

    ghost view = { λ v. v.names.keys };
}

impl Variables {
    /// No variables.
    pub fn new(alloc: Global) -> Variables
        ensures { result ≡ [] }
    {
        Variables {
            names: IndexSet::new(alloc),
        }
    }

    /// One variable more.
    pub fn push(&mut self, name: Name) -> Result<(), AllocError>
        requires absent { number_in self.old name ≡ None }
        ensures pushed { OnOk result (self.new ≡ self.old ++ name ∷ []) }
        ensures unchanged { OnErr result (self.new ≡ self.old) }
    {
        let _new = self.names.insert(name)?;
        Ok(())
    }

    /// The number of the variable of that name, from 0.
    pub fn number(&self, name: &Name) -> Option<usize>
        ensures { result ≡ number_in self.now name.now }
    {
        self.names.get_index_of(name)
    }
}
