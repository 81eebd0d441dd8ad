//! A text of help.
ghost use Rattle.std.specs.Prelude.{◌≡◌, ◌∷◌, ◌++◌, [], OnOk};
ghost use Rattle.hints.specs.Shown.{shown, visible_text};

use crate::visible::{MOST_SHOWN, push_bytes, push_line};
use std::alloc::{AllocError, Global};
use std::marker::Model;

/// Lines of printable characters, whatever bytes they tell of.
#[derive(Drop)]
pub struct HelpText {
    alloc: Global,
    bytes: Vec<u8>,
}

impl Model for HelpText {
    ghost use Rattle.std.specs.Prelude.{◌≡◌, ℕ, List, true};
    ghost use Rattle.std.specs.List.{list_all};
    ghost use Rattle.hints.specs.Shown.{is_shown};

    ghost Value = { List ℕ };

    ghost view = { λ t. t.bytes.items };

    ghost invariant = { λ t. list_all is_shown t.bytes.items ≡ true };
}

impl HelpText {
    ghost use Rattle.std.specs.Prelude.{true, IsTrue};
    ghost use Rattle.std.specs.List.{list_all};
    ghost use Rattle.hints.specs.Shown.{is_shown};

    /// No lines.
    pub fn new(alloc: Global) -> HelpText
        ensures { result ≡ [] }
    {
        HelpText {
            alloc,
            bytes: Vec::new(alloc),
        }
    }

    /// Adds bytes, made visible.
    pub(crate) fn push(&mut self, bytes: &[u8]) -> Result<(), AllocError>
        ensures { OnOk result (self.new ≡ self.old ++ visible_text bytes.now) }
    {
        push_bytes(&mut self.bytes, bytes)
    }

    /// Ends a line.
    pub(crate) fn end_line(&mut self) -> Result<(), AllocError>
        ensures { OnOk result (self.new ≡ self.old ++ 10 ∷ []) }
    {
        self.bytes.extend_from_slice(b"\n")
    }

    /// Adds what fits of a line into the characters that are shown of one.
    pub(crate) fn push_cut(&mut self, line: &[u8]) -> Result<(), AllocError>
        ensures { OnOk result (self.new ≡ self.old ++ shown line.now MOST_SHOWN) }
    {
        push_line(&mut self.bytes, line, MOST_SHOWN)
    }

    /// Adds a number in decimal digits.
    pub(crate) fn push_number(&mut self, number: u32) -> Result<(), AllocError> {
        let digits = format!(in self.alloc; "{number}")?;
        self.push(digits.as_bytes())
    }

    /// The text, each line with a line feed.
    pub fn as_bytes(&self) -> &[u8]
        ensures text { result.now ≡ self.now }
        ensures shown { list_all is_shown self.now ≡ true }
    {
        self.bytes.as_slice()
    }
}
