//! A change of one record in one format that needs no memory any more, neither to be done nor to be undone.
use key_order::key_pages::Key;
use std::marker::Model;

/// A prepared change. Contracts see it as the move that it makes.
#[derive(Drop)]
pub struct Prepared {
    pub(crate) format: u16,
    pub(crate) rrn: u32,
    pub(crate) old: Option<Key>,
    pub(crate) new: Option<Key>,
    /// The new key once more, for the entry.
    pub(crate) copy: Option<Key>,
}

impl Model for Prepared {
    ghost use Rattle.std.specs.Prelude.{◌≡◌};
    ghost use Rattle.access_path.specs.Moves.{Move};

    ghost Value = { Move };

    ghost view = { λ p. record { format = p.format; rrn = p.rrn; old = p.old; new = p.new } };

    ghost invariant = { λ p. p.copy ≡ p.new };
}
