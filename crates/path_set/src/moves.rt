//! Changes of records in all paths, prepared.
ghost use Rattle.std.specs.Prelude.{◌≡◌, [], ◌∷◌, ◌++◌, OnOk};

use access_path::prepared::Prepared;
use std::alloc::{AllocError, Global};
use std::collections::VecDeque;
use std::marker::Model;

/// A prepared change in one format of a path.
#[derive(Drop)]
pub struct PathMove {
    /// The number of the path.
    pub(crate) id: u64,
    pub(crate) change: Prepared,
}

/// A change of one of several records of a member: the image before it and after it, none where the record isn't live.
#[derive(Clone, Copy)]
pub struct ImageChange<'a> {
    /// The relative record number.
    pub rrn: u32,
    pub old: Option<&'a [u8]>,
    pub new: Option<&'a [u8]>,
}

/// A prepared change of one record, or several one after another, in each path that has them. Contracts see the moves in
/// order.
#[derive(Drop)]
pub struct Moves {
    pub(crate) items: VecDeque<PathMove>,
}

impl Model for Moves {
    ghost use Rattle.std.specs.Prelude.{List};
    ghost use Rattle.path_set.specs.declared.moves.PathMove.{PathMove};

    ghost Value = { List PathMove };

    ghost view = { λ m. m.items.items };
}

impl Moves {
    pub(crate) fn new(alloc: Global) -> Moves
        ensures { result ≡ [] }
    {
        Moves {
            items: VecDeque::new(alloc),
        }
    }

    /// One move more.
    pub(crate) fn push(&mut self, id: u64, change: Prepared) -> Result<(), AllocError>
        ensures { OnOk result (self.new ≡ self.old ++ record { id = id; change = change } ∷ []) }
    {
        self.items.push_back(PathMove { id, change })?;
        Ok(())
    }
}
