//! The sources of an input.
ghost use Rattle.std.specs.Prelude.{◌≡◌, ℕ, List, [], ◌∷◌, ◌++◌, OnOk, IfOk, filter_map};
ghost use Rattle.text_lines.specs.Lines.{lines_of, text_of_lines};
ghost use Rattle.input_cards.specs.SectionTexts.{parts_in};
ghost use Rattle.input_reader.specs.Input.{source_in};

use field_types::texts::SourceText;
use input_cards::kinds::source_name;
use input_cards::section::Section;
use library_model::sources::{NamedSource, Sources};
use std::alloc::{AllocError, Global};
use text_lines::lines::split_line;

/// The sources in the order of their cards.
pub(crate) fn sources(
    alloc: Global,
    bytes: &[u8],
    sections: &[Section],
) -> Result<Sources, AllocError>
    ensures { IfOk result (λ sources. sources ≡ filter_map source_in (parts_in bytes.now sections.now)) }
{
    let mut sources = Sources::new(alloc);
    for section in sections {
        if let Some(name) = source_name(&section.card) {
            let text = whole_lines(alloc, section.text(bytes))?;
            sources.push(NamedSource { name, text })?;
        }
    }
    Ok(sources)
}

/// The text with a line feed after its last line too.
fn whole_lines(alloc: Global, text: &[u8]) -> Result<SourceText, AllocError>
    ensures { IfOk result (λ lines. lines ≡ text_of_lines (lines_of text.now)) }
{
    let mut lines = SourceText::new(alloc);
    let mut rest = text;
    while let Some((line, after)) = split_line(rest) {
        push_line(&mut lines, line)?;
        rest = after;
    }
    Ok(lines)
}

/// Adds a line, with its line feed.
fn push_line(text: &mut SourceText, line: &[u8]) -> Result<(), AllocError>
    ensures { OnOk result (text.new ≡ text.old ++ (line.now ++ 10 ∷ [])) }
{
    text.extend_from_slice(line)?;
    text.extend_from_slice(b"\n")
}
