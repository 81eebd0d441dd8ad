//! A stack, as a list whose first item is the one on top.
ghost use Rattle.std.specs.Prelude.{◌≡◌, [], ◌∷◌, OnOk};
ghost use Rattle.script_builder.specs.Nestings.{top, under};

use std::alloc::{AllocError, Global};
use std::marker::Model;

/// Items of which the last that came goes first.
#[derive(Drop)]
pub(crate) struct Stack<T> {
    items: Vec<T>,
}

impl<T> Model for Stack<T> {
    ghost use Rattle.std.specs.Prelude.{List, reverse};

    ghost Value = { List T };

    ghost view = { λ s. reverse s.items.items };
}

impl<T: Copy> Stack<T> {
    /// Nothing.
    pub(crate) fn new(alloc: Global) -> Stack<T>
        ensures { result ≡ [] }
    {
        Stack {
            items: Vec::new(alloc),
        }
    }

    /// One item more on top.
    pub(crate) fn push(&mut self, item: T) -> Result<(), AllocError>
        ensures { OnOk result (self.new ≡ item ∷ self.old) }
    {
        self.items.push(item)?;
        Ok(())
    }

    /// The item on top.
    pub(crate) fn top(&self) -> Option<T>
        ensures { result ≡ top self.now }
    {
        self.items.last().copied()
    }

    /// Takes the item on top away, if there is one.
    pub(crate) fn pop(&mut self)
        ensures { self.new ≡ under self.old }
    {
        let _top = self.items.pop();
    }
}
