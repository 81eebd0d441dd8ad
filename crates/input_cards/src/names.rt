//! Names in order, each found by a hash.
ghost use Rattle.std.specs.Prelude.{◌≡◌, None, [], ◌∷◌, ◌++◌, OnOk, IfOk, IfSome, ◌<◌, length, position};
ghost use Rattle.std.specs.List.{list_any};
ghost use Rattle.library_model.specs.Named.{Named, named, same_name};
ghost use Rattle.input_cards.specs.Names.{with_first};

use field_types::lists::ListOf;
use field_types::names::Name;
use indexmap::IndexMap;
use std::alloc::{AllocError, Global};
use std::marker::Model;

/// The first place of each of some names.
#[derive(Drop)]
struct FirstPlaces {
    places: IndexMap<Name, usize>,
}

impl Model for FirstPlaces {
    ghost use Rattle.std.specs.Prelude.{ℕ};
    ghost use Rattle.library_model.specs.Named.{Named};

    ghost Value = { Named ℕ };

    ghost view = { λ p. p.places.entries };
}

impl FirstPlaces {
    fn new(alloc: Global) -> FirstPlaces
        ensures { result ≡ [] }
    {
        FirstPlaces {
            places: IndexMap::new(alloc),
        }
    }

    fn place(&self, name: &Name) -> Option<usize>
        ensures { result ≡ named name.now self.now }
    {
        self.places.get(name).copied()
    }

    fn add(&mut self, name: Name, place: usize) -> Result<(), AllocError>
        requires { named name self.old ≡ None }
        ensures { OnOk result (self.new ≡ self.old ++ (name, place) ∷ []) }
    {
        let _replaced = self.places.insert(name, place)?;
        Ok(())
    }

    /// Adds the place of a name that has none.
    fn add_first(&mut self, name: Name, place: usize) -> Result<(), AllocError>
        ensures { OnOk result (self.new ≡ with_first name place self.old) }
    {
        if self.place(&name).is_some() {
            return Ok(());
        }
        self.add(name, place)
    }
}

/// Names in order, among which one may stand twice.
#[derive(Drop)]
pub struct NameList {
    names: ListOf<Name>,
    first_places: FirstPlaces,
}

impl Model for NameList {
    ghost use Rattle.std.specs.Prelude.{◌≡◌, ℕ, List};
    ghost use Rattle.input_cards.specs.Names.{AreFirstPlaces};

    ghost Value = { List (List ℕ) };

    ghost view = { λ n. n.names };

    ghost invariant = { λ n. AreFirstPlaces n.names n.first_places };
}

impl NameList {
    /// No names.
    pub fn new(alloc: Global) -> NameList
        ensures { result ≡ [] }
    {
        NameList {
            names: ListOf::new(alloc),
            first_places: FirstPlaces::new(alloc),
        }
    }

    /// With one name more at the end.
    pub fn with(self, name: Name) -> Result<NameList, AllocError>
        ensures { IfOk result (λ names. names ≡ self ++ name ∷ []) }
    {
        let NameList {
            mut names,
            mut first_places,
        } = self;
        first_places.add_first(name, names.as_slice().len())?;
        names.push(name)?;
        Ok(NameList {
            names,
            first_places,
        })
    }

    /// The place at which the name stands first, from 0.
    pub fn place(&self, name: &Name) -> Option<usize>
        ensures place { result ≡ position (same_name name.now) self.now }
        ensures within { IfSome result (λ place. place < length self.now) }
    {
        self.first_places.place(name)
    }

    /// Whether the name is among them.
    pub fn has(&self, name: &Name) -> bool
        ensures { result ≡ list_any (same_name name.now) self.now }
    {
        self.place(name).is_some()
    }

    /// How many names there are.
    pub fn len(&self) -> usize
        ensures { result ≡ length self.now }
    {
        self.names.as_slice().len()
    }

    /// The names in order.
    pub fn into_names(self) -> ListOf<Name>
        ensures { result ≡ self }
    {
        let NameList {
            names,
            first_places: _,
        } = self;
        names
    }
}
