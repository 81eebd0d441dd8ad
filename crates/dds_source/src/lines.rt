//! Lines with their numbers and positions, and which of them count.
ghost use Rattle.std.specs.Prelude.{◌≡◌, ℕ, ◌+◌, ◌-◌, ◌<◌, ◌≤◌, ◌==◌, length, take, position, map, if◌then◌else◌, ◌∷◌, [], ◌++◌, filter, IfOk, OnOk, MatchOption};
ghost use Rattle.std.specs.Str.Lines.{strip_carriage_return};
ghost use Rattle.text_lines.specs.Lines.{is_blank, are_blanks};
ghost use Rattle.text_lines.specs.Characters.{folded};
ghost use Rattle.dds_source.specs.Lines.{positions, line_of, next_number, last_number, last_line, at, entry, is_comment, is_empty, counts, counted_lines, has_entries};

use std::alloc::{AllocError, Global};
use text_lines::characters::folded;
use text_lines::lines::{are_blanks, split_line};

/// A line that counts.
#[derive(Drop)]
pub(crate) struct Line {
    /// Counted from 1.
    pub(crate) number: u32,
    /// Positions 1 to 44, in upper case.
    pub(crate) entries: [u8; 44],
    /// Positions 45 to 80.
    pub(crate) keywords: [u8; 36],
}

impl Line {
    #[tactic(auto, unfolding(crate::specs::Lines::line_of))]
    fn new(number: u32, text: &[u8]) -> Line
        ensures { result ≡ line_of number text.now }
    {
        let positions = positions(text);
        let mut entries = copied::<44>(&positions[..44]);
        fold(&mut entries);
        Line {
            number,
            entries,
            keywords: copied::<36>(&positions[44..]),
        }
    }

    /// The character of a position up to 44.
    pub(crate) fn at(&self, column: usize) -> u8
        requires first { 1 ≤ column }
        requires last { column ≤ 44 }
        ensures { result ≡ at self.now column }
    {
        self.entries[column - 1]
    }

    /// The characters of the positions from one up to another, up to 44.
    pub(crate) fn entry(&self, first: usize, last: usize) -> &[u8]
        requires begins { 1 ≤ first }
        requires ordered { first ≤ last }
        requires ends { last ≤ 44 }
        ensures width { length result.now + first ≡ last + 1 }
        ensures value { result.now ≡ entry self.now first last }
    {
        &self.entries[first - 1..last]
    }

    fn is_comment(&self) -> bool
        ensures { result ≡ is_comment self.now }
    {
        self.at(7) == b'*'
    }

    fn is_empty(&self) -> bool
        ensures { result ≡ is_empty self.now }
    {
        are_blanks(self.entry(7, 44)) && are_blanks(&self.keywords)
    }

    fn counts(&self) -> bool
        ensures { result ≡ counts self.now }
    {
        !(self.is_comment() || self.is_empty())
    }

    /// Whether it is a specification, and not more keywords for one.
    pub(crate) fn has_entries(&self) -> bool
        ensures { result ≡ has_entries self.now }
    {
        !are_blanks(self.entry(17, 44))
    }
}

/// The lines of a text that count.
pub(crate) fn counted_lines(alloc: Global, text: &[u8]) -> Result<Vec<Line>, AllocError>
    ensures { IfOk result (λ lines. lines.items ≡ counted_lines text.now) }
{
    let mut lines = Vec::new(alloc);
    let mut number = 1;
    let mut rest = text;
    while let Some((line, more)) = split_line(rest) {
        push_counted(&mut lines, Line::new(number, line))?;
        number = next_number(number);
        rest = more;
    }
    Ok(lines)
}

fn push_counted(lines: &mut Vec<Line>, line: Line) -> Result<(), AllocError>
    ensures { OnOk result (lines.new.items ≡ lines.old.items ++ filter counts (line ∷ [])) }
{
    if line.counts() {
        lines.push(line)?;
    }
    Ok(())
}

fn next_number(number: u32) -> u32
    ensures { result ≡ next_number number }
{
    if number == u32::MAX {
        number
    } else {
        number + 1
    }
}

/// The number of a text's last line, 1 where it has none.
#[tactic(auto, unfolding(crate::specs::Lines::last_line))]
pub(crate) fn last_line(text: &[u8]) -> u32
    ensures { result ≡ last_line text.now }
{
    let mut number = 1;
    let mut rest = text;
    while let [c, more @ ..] = rest {
        if !more.is_empty() {
            number = number_behind(number, *c);
        }
        rest = more;
    }
    number
}

/// The number of the line behind a character of a line.
fn number_behind(number: u32, c: u8) -> u32
    ensures { result ≡ (if c == 10 then next_number number else number) }
{
    if c == b'\n' {
        next_number(number)
    } else {
        number
    }
}

fn positions(text: &[u8]) -> [u8; 80]
    ensures width { length result ≡ 80 }
    ensures value { result ≡ positions text.now }
{
    let kept = first_80(without_return(text));
    let mut positions = [b' '; 80];
    positions[..kept.len()].copy_from_slice(kept);
    positions
}

fn first_80(text: &[u8]) -> &[u8]
    ensures fits { length result.now ≤ 80 }
    ensures value { result.now ≡ take 80 text.now }
{
    if text.len() < 80 { text } else { &text[..80] }
}

fn copied<const N: usize>(text: &[u8]) -> [u8; N]
    requires { length text.now ≡ N }
    ensures { result ≡ text.now }
{
    let mut copy = [0; N];
    copy.copy_from_slice(text);
    copy
}

fn without_return(text: &[u8]) -> &[u8]
    ensures { result.now ≡ strip_carriage_return text.now }
{
    match text {
        [front @ .., b'\r'] => front,
        _ => text,
    }
}

fn fold(text: &mut [u8])
    ensures { text.new ≡ map folded text.old }
{
    for i in 0..text.len() {
        text[i] = folded(text[i]);
    }
}
