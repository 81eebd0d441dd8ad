//! A section of an input: its card, and where its lines lie.
ghost use Rattle.std.specs.Prelude.{◌≤◌};
ghost use Rattle.input_cards.specs.declared.limits.TheConstants.{MOST_INPUT};

use crate::cards::Card;
use crate::limits::MOST_INPUT;

/// A card, and where the lines up to the next one lie in the bytes of the input.
#[derive(Drop)]
pub struct Section {
    /// The line of the card, from 1.
    pub line: u32,
    /// `None` where the line is no card, though it begins as one.
    pub card: Option<Card>,
    /// The place of the first byte after the card.
    pub start: usize,
    /// The place after the last byte; one more where the last line has no line feed.
    pub end: usize,
    ghost within: { line ≤ MOST_INPUT },
}

impl Section {
    ghost use Rattle.std.specs.Prelude.{◌≡◌, ◌≤◌, length};
    ghost use Rattle.text_lines.specs.Lines.{lines_of};
    ghost use Rattle.input_cards.specs.SectionTexts.{bytes_between};

    /// The bytes of the section's lines, of an input in which it lies.
    pub fn text<'a>(&self, bytes: &'a [u8]) -> &'a [u8]
        ensures text { result.now ≡ bytes_between self.now.start self.now.end bytes.now }
        ensures few { length (lines_of result.now) ≤ length bytes.now }
    {
        let rest = &bytes[self.start.min(bytes.len())..];
        &rest[..self.end.saturating_sub(self.start).min(rest.len())]
    }
}
