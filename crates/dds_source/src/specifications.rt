//! Specifications: a line of a source with its entries, and all keywords that belong to it.
ghost use Rattle.std.specs.Prelude.{◌≡◌, [], ◌∷◌, ◌++◌, OnOk};
ghost use Rattle.dds_source.specs.Reading.{with_keywords};

use crate::keywords::Keywords;
use std::alloc::{AllocError, Global};
use std::marker::Model;
use text_lines::field_types::names::Name;

/// What a specification is, by position 17.
#[derive(Clone, Copy, PartialEq)]
pub enum SpecificationKind {
    /// `R`
    Record,
    /// Blank.
    Field,
    /// `K`
    Key,
    /// `S`
    Select,
    /// `O`
    Omit,
    /// Blank behind a select or omit: one more condition of it.
    And,
    /// `J`
    Join,
}

/// Positions 19 to 28.
#[derive(Clone, Copy)]
pub enum NameEntry {
    Blank,
    Named(Name),
    /// `*NONE` in a key line.
    StarNone,
}

/// Positions 30 to 34.
#[derive(Clone, Copy, PartialEq)]
pub enum LengthEntry {
    /// A number without a sign.
    Exactly(u32),
    /// `+n`: longer than the referenced field.
    Longer(u32),
    /// `-n`: shorter than the referenced field.
    Shorter(u32),
}

/// The entries of positions 29 to 38.
#[derive(Clone, Copy)]
pub struct Columns {
    /// Position 29 holds `R`.
    pub reference: bool,
    /// Positions 30 to 34; `None` where they are blank.
    pub length: Option<LengthEntry>,
    /// Position 35, a letter in upper case; `None` where it is blank.
    pub data_type: Option<u8>,
    /// Positions 36 and 37; `None` where they are blank.
    pub decimals: Option<u8>,
    /// Position 38, a letter in upper case; `None` where it is blank.
    pub usage: Option<u8>,
}

/// A line with entries, and its keywords on this line and the lines that follow.
#[derive(Drop)]
pub struct Specification {
    /// Counted from 1.
    pub line: u32,
    pub kind: SpecificationKind,
    pub name: NameEntry,
    pub columns: Columns,
    pub keywords: Keywords,
}

/// Specifications in order of their lines.
#[derive(Drop)]
pub struct Specifications {
    items: Vec<Specification>,
}

impl Model for Specifications {
    ghost use Rattle.std.specs.Prelude.{List};
    ghost use Rattle.dds_source.specs.declared.specifications.Specification.{Specification};

    ghost Value = { List Specification };

    ghost view = { λ s. s.items.items };
}

impl Specifications {
    pub fn new(alloc: Global) -> Specifications
        ensures { result ≡ [] }
    {
        Specifications {
            items: Vec::new(alloc),
        }
    }

    /// Adds one at the end.
    pub fn push(&mut self, specification: Specification) -> Result<(), AllocError>
        ensures { OnOk result (self.new ≡ self.old ++ specification ∷ []) }
    {
        self.items.push(specification)?;
        Ok(())
    }

    /// Adds keywords to the last one.
    pub(crate) fn extend_last(&mut self, keywords: Keywords) -> Result<(), AllocError>
        ensures { OnOk result (self.new ≡ with_keywords keywords self.old) }
    {
        extend_last(&mut self.items, keywords)
    }

    pub fn as_slice(&self) -> &[Specification]
        ensures { result.now ≡ self.now }
    {
        self.items.as_slice()
    }
}

fn extend_last(
    specifications: &mut Vec<Specification>,
    keywords: Keywords,
) -> Result<(), AllocError>
    ensures { OnOk result (specifications.new.items ≡ with_keywords keywords specifications.old.items) }
{
    let len = specifications.len();
    if len == 0 {
        return Ok(());
    }
    let last = &mut specifications[len - 1];
    last.keywords.append(keywords)
}

/// A source as it was read.
#[derive(Drop)]
pub struct Source {
    /// The keywords of the file: those of lines without entries ahead of the first record format.
    pub file: Keywords,
    pub specifications: Specifications,
    /// The number of the text's last line, 1 where it has none. A fault of the whole file stands there.
    pub last_line: u32,
}
