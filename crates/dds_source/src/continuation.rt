//! How keywords go on from line to line, and the text that they make.
ghost use Rattle.std.specs.Prelude.{◌≡◌, ℕ, ◌+◌, ◌-◌, ◌<◌, ◌≤◌, Bool, false, List, ◌∷◌, ◌++◌, length, take, drop, OnOk, IfOk, if◌then◌else◌};
ghost use Rattle.std.specs.List.{suffix_len, prefix_len};
ghost use Rattle.text_lines.specs.Lines.{is_blank};
ghost use Rattle.text_lines.specs.Characters.{folded};
ghost use Rattle.dds_source.specs.Continuation.{used, last_character, ends_in_plus, ends_in_minus, goes_on, is_continued_by, joined, text_end, text_start, line_text, raw_text, toggled, folded_outside, joined_text};

use crate::characters::SourceCharacter;
use crate::lines::Line;
use std::alloc::{AllocError, Global};
use text_lines::characters::folded;
use text_lines::lines::is_blank;

impl Line {
    /// How many of the positions from 45 on are used.
    pub(crate) fn used(&self) -> usize
        ensures bound { result ≤ 36 }
        ensures value { result ≡ used self.now }
    {
        used(&self.keywords)
    }

    fn last_character(&self) -> u8
        ensures { result ≡ last_character self.now }
    {
        self.keywords[self.used().saturating_sub(1)]
    }

    fn ends_in_plus(&self) -> bool
        ensures { result ≡ ends_in_plus self.now }
    {
        self.last_character() == b'+'
    }

    fn ends_in_minus(&self) -> bool
        ensures { result ≡ ends_in_minus self.now }
    {
        self.last_character() == b'-'
    }

    /// Whether its keywords go on.
    pub(crate) fn goes_on(&self) -> bool
        ensures { result ≡ goes_on self.now }
    {
        self.ends_in_plus() || self.ends_in_minus()
    }

    fn is_continued_by(&self, next: &Line) -> bool
        ensures { result ≡ is_continued_by self.now next.now }
    {
        self.goes_on() && !next.has_entries()
    }

    fn text_end(&self) -> usize
        ensures bound { result ≤ 36 }
        ensures value { result ≡ text_end self.now }
    {
        if self.goes_on() {
            self.used().saturating_sub(1)
        } else {
            self.used()
        }
    }

    fn text_start(&self, behind_plus: bool) -> usize
        ensures { result ≡ text_start behind_plus self.now }
    {
        if behind_plus {
            leading_blanks(&self.keywords)
        } else {
            0
        }
    }

    /// Adds its text.
    #[tactic(auto, unfolding(crate::specs::Continuation::line_text))]
    fn push_text(
        &self,
        behind_plus: bool,
        text: &mut Vec<SourceCharacter>,
    ) -> Result<(), AllocError>
        ensures { OnOk result (text.new.items ≡ text.old.items ++ line_text behind_plus self.now) }
    {
        for i in self.text_start(behind_plus)..self.text_end() {
            text.push(SourceCharacter {
                byte: self.keywords[i],
                line: self.number,
                column: 45 + i as u8,
            })?;
        }
        Ok(())
    }
}

/// How many lines from the first on are joined.
pub(crate) fn joined_len(lines: &[Line]) -> usize
    requires { 0 < length lines.now }
    ensures some { 0 < result }
    ensures within { result ≤ length lines.now }
    ensures value { joined lines.now ≡ take result lines.now ∷ joined (drop result lines.now) }
{
    let mut count = 1;
    while count < lines.len() && lines[count - 1].is_continued_by(&lines[count]) {
        count += 1;
    }
    count
}

/// The text of joined lines.
#[tactic(auto, unfolding(crate::specs::Continuation::joined_text))]
pub(crate) fn joined_text(alloc: Global, lines: &[Line]) -> Result<Vec<SourceCharacter>, AllocError>
    ensures { IfOk result (λ text. text.items ≡ joined_text lines.now) }
{
    let mut text = raw_text(alloc, lines)?;
    fold_outside(&mut text);
    Ok(text)
}

fn raw_text(alloc: Global, lines: &[Line]) -> Result<Vec<SourceCharacter>, AllocError>
    ensures { IfOk result (λ text. text.items ≡ raw_text false lines.now) }
{
    let mut text = Vec::new(alloc);
    let mut behind_plus = false;
    for line in lines {
        line.push_text(behind_plus, &mut text)?;
        behind_plus = line.ends_in_plus();
    }
    Ok(text)
}

fn fold_outside(text: &mut [SourceCharacter])
    ensures { text.new ≡ folded_outside false text.old }
{
    let mut quoted = false;
    for i in 0..text.len() {
        let c = text[i];
        text[i] = c.folded_unless(quoted);
        quoted = toggled(quoted, c.byte);
    }
}

impl SourceCharacter {
    fn folded_unless(self, quoted: bool) -> SourceCharacter
        ensures { result ≡ record self { byte = if quoted then self.byte else folded self.byte } }
    {
        SourceCharacter {
            byte: if quoted { self.byte } else { folded(self.byte) },
            line: self.line,
            column: self.column,
        }
    }
}

/// An apostrophe begins or ends what stands in apostrophes.
pub(crate) fn toggled(quoted: bool, c: u8) -> bool
    ensures { result ≡ toggled quoted c }
{
    if c == b'\'' { !quoted } else { quoted }
}

fn used(text: &[u8]) -> usize
    ensures bound { result ≤ length text.now }
    ensures value { result ≡ length text.now - suffix_len is_blank text.now }
{
    let mut end = text.len();
    while end > 0 && is_blank(text[end - 1]) {
        end -= 1;
    }
    end
}

fn leading_blanks(text: &[u8]) -> usize
    ensures { result ≡ prefix_len is_blank text.now }
{
    let mut count = 0;
    while count < text.len() && is_blank(text[count]) {
        count += 1;
    }
    count
}
