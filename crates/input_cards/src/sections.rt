//! The sections of an input, by `specs/Sections.antt`.
ghost use Rattle.std.specs.Prelude.{◌≡◌, ◌≤◌, IfOk, length};
ghost use Rattle.text_lines.specs.Lines.{lines_of};
ghost use Rattle.input_cards.specs.Sections.{before_card, parts_of};
ghost use Rattle.input_cards.specs.SectionTexts.{bytes_of, parts_in};

use crate::limits::MOST_INPUT;
use crate::reading::{card, is_card};
use crate::section::Section;
use field_types::lists::ListOf;
use std::alloc::{AllocError, Global};
use text_lines::lines::split_line;

/// Sections in the order of their cards.
pub type Sections = ListOf<Section>;

/// The sections of an input.
pub fn sections(alloc: Global, bytes: &[u8]) -> Result<Sections, AllocError>
    requires { length bytes.now ≤ MOST_INPUT }
    ensures { IfOk result (λ sections. parts_in bytes.now sections ≡ parts_of (lines_of bytes.now)) }
{
    let mut sections = Sections::new(alloc);
    let mut number = 0;
    let mut place = 0;
    let mut rest = bytes;
    while let Some((line, after)) = split_line(rest) {
        number += 1;
        place += line.len() + 1;
        if is_card(line) {
            sections.push(Section {
                line: number,
                card: card(alloc, line)?,
                start: place,
                end: place + bytes_before_card(after),
            })?;
        }
        rest = after;
    }
    Ok(sections)
}

/// How many bytes the lines before the next card have, each with a line feed.
fn bytes_before_card(text: &[u8]) -> usize
    ensures { result ≡ bytes_of (before_card (lines_of text.now)) }
{
    let mut bytes = 0;
    let mut rest = text;
    while let Some((line, after)) = split_line(rest) {
        if is_card(line) {
            return bytes;
        }
        bytes += line.len() + 1;
        rest = after;
    }
    bytes
}

/// How many lines an input has.
pub fn line_count(bytes: &[u8]) -> u32
    requires { length bytes.now ≤ MOST_INPUT }
    ensures count { result ≡ length (lines_of bytes.now) }
    ensures within { result ≤ MOST_INPUT }
{
    let mut count = 0;
    let mut rest = bytes;
    while let Some((_, after)) = split_line(rest) {
        count += 1;
        rest = after;
    }
    count
}
