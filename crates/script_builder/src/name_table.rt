//! Names with a number each, found by a hash.
ghost use Rattle.std.specs.Prelude.{◌≡◌, None, [], ◌∷◌, ◌++◌, OnOk, IfOk};
ghost use Rattle.std.specs.Option.{is_some};
ghost use Rattle.library_model.specs.Named.{named};
ghost use Rattle.script_builder.specs.Ways.{with_new};

use field_types::names::Name;
use indexmap::IndexMap;
use std::alloc::{AllocError, Global};
use std::marker::Model;

/// Names in the order in which they came.
#[derive(Drop)]
pub(crate) struct NameTable {
    numbers: IndexMap<Name, usize>,
}

impl Model for NameTable {
    ghost use Rattle.std.specs.Prelude.{ℕ};
    ghost use Rattle.library_model.specs.Named.{Named};

    ghost Value = { Named ℕ };

    ghost view = { λ n. n.numbers.entries };
}

impl NameTable {
    /// No names.
    pub(crate) fn new(alloc: Global) -> NameTable
        ensures { result ≡ [] }
    {
        NameTable {
            numbers: IndexMap::new(alloc),
        }
    }

    /// The number of that name.
    pub(crate) fn number(&self, name: &Name) -> Option<usize>
        ensures { result ≡ named name.now self.now }
    {
        self.numbers.get(name).copied()
    }

    fn add(&mut self, name: Name, number: usize) -> Result<(), AllocError>
        requires { named name self.old ≡ None }
        ensures { OnOk result (self.new ≡ self.old ++ (name, number) ∷ []) }
    {
        let _replaced = self.numbers.insert(name, number)?;
        Ok(())
    }

    /// Adds a name at the end, unless it's there already: whether it was.
    pub(crate) fn add_new(&mut self, name: Name, number: usize) -> Result<bool, AllocError>
        ensures again { IfOk result (λ again. again ≡ is_some (named name self.old)) }
        ensures added { OnOk result (self.new ≡ with_new name number self.old) }
    {
        if self.number(&name).is_some() {
            return Ok(true);
        }
        self.add(name, number)?;
        Ok(false)
    }
}
