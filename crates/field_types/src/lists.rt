//! Items one after another, which contracts see as their list and nothing of the room behind it.
ghost use Rattle.std.specs.Prelude.{◌≡◌, List, [], ◌∷◌, ◌++◌, OnOk, OnErr};

use std::alloc::{AllocError, Global};
use std::marker::Model;

/// Items in order.
#[derive(Drop)]
pub struct ListOf<T> {
    items: Vec<T>,
}

impl<T> Model for ListOf<T> {
    ghost Value = { List T };

    ghost view = { λ l. l.items.items };
}

impl<T> ListOf<T> {
    /// No items.
    pub fn new(alloc: Global) -> ListOf<T>
        ensures { result ≡ [] }
    {
        ListOf::from_vec(Vec::new(alloc))
    }

    /// These items.
    pub fn from_vec(items: Vec<T>) -> ListOf<T>
        ensures { result ≡ items.items }
    {
        ListOf { items }
    }

    /// The items in order.
    pub fn as_slice(&self) -> &[T]
        ensures { result.now ≡ self.now }
    {
        self.items.as_slice()
    }

    /// Gives back the room that holds none.
    pub fn shrink_to_fit(&mut self)
        ensures { self.new ≡ self.old }
    {
        self.items.shrink_to_fit();
    }
}

impl<T: Drop> ListOf<T> {
    /// One item more.
    pub fn push(&mut self, item: T) -> Result<(), AllocError>
        ensures pushed { OnOk result (self.new ≡ self.old ++ item ∷ []) }
        ensures unchanged { OnErr result (self.new ≡ self.old) }
    {
        self.items.push(item)?;
        Ok(())
    }

    /// The items of another list at the end; no memory is taken where there were none.
    pub fn append(&mut self, items: ListOf<T>) -> Result<(), AllocError>
        ensures appended { OnOk result (self.new ≡ self.old ++ items) }
        ensures unchanged { OnErr result (self.new ≡ self.old) }
    {
        let ListOf { items: mut more } = items;
        if self.items.is_empty() {
            self.items = more;
            return Ok(());
        }
        self.items.append(&mut more)
    }
}
