//! The sources of an input by name: texts of data descriptions.
ghost use Rattle.std.specs.Prelude.{◌≡◌, [], ◌∷◌, ◌++◌, OnOk, OnErr, option_map};
ghost use Rattle.library_model.specs.SourceList.{text_of};

use field_types::names::Name;
use field_types::texts::SourceText;
use std::alloc::{AllocError, Global};
use std::marker::Model;

/// A source: its name, and its lines, each ended by a line feed.
#[derive(Drop)]
pub struct NamedSource {
    pub name: Name,
    pub text: SourceText,
}

/// Sources in the order of their cards.
#[derive(Drop)]
pub struct Sources {
    sources: Vec<NamedSource>,
}

impl Model for Sources {
    ghost use Rattle.std.specs.Prelude.{List};
    ghost use Rattle.library_model.specs.declared.sources.NamedSource.{NamedSource};

    ghost Value = { List NamedSource };

    ghost view = { λ s. s.sources.items };
}

impl Sources {
    /// No sources.
    pub fn new(alloc: Global) -> Sources
        ensures { result ≡ [] }
    {
        Sources {
            sources: Vec::new(alloc),
        }
    }

    /// One source more.
    pub fn push(&mut self, source: NamedSource) -> Result<(), AllocError>
        ensures pushed { OnOk result (self.new ≡ self.old ++ source ∷ []) }
        ensures unchanged { OnErr result (self.new ≡ self.old) }
    {
        self.sources.push(source)?;
        Ok(())
    }

    /// The text of the first source of that name.
    pub fn text(&self, name: &Name) -> Option<&SourceText>
        ensures { option_map (λ t. t.now) result ≡ text_of self.now name.now }
    {
        for source in &self.sources {
            if source.name == *name {
                return Some(&source.text);
            }
        }
        None
    }
}
