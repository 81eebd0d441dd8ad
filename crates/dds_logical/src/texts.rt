//! The texts and headings of a field.
ghost use Rattle.std.specs.Prelude.{◌≡◌, ◌==◌, ◌++◌, ◌∷◌, length, IfOk, OnOk, if◌then◌else◌, Some};
ghost use Rattle.dds_physical.specs.Defaults.{with_piece, with_pieces, text_of, literal_value};

use crate::keyword_names::{arguments_of, is_heading};
use crate::literals::literal_value;
use dds_physical::dds_source::arguments::Argument;
use dds_physical::dds_source::keywords::Keyword;
use field_types::texts::Text;
use field_types::values::Value;
use std::alloc::{AllocError, Global};

/// The line feed of code page 037, between texts.
const LINE_FEED: u8 = 0x25;

/// The texts of TEXT and COLHDG.
pub(crate) fn text_of(alloc: Global, keywords: &[Keyword]) -> Result<Text, AllocError>
    ensures { IfOk result (λ t. t ≡ text_of keywords.now) }
{
    let mut text = Vec::new(alloc);
    let mut rest = keywords;
    while let [keyword, more @ ..] = rest {
        if is_heading(keyword) {
            push_pieces(alloc, &mut text, arguments_of(keyword))?;
        }
        rest = more;
    }
    Ok(Text::from_vec(text))
}

fn push_pieces(alloc: Global, text: &mut Vec<u8>, arguments: &[Argument]) -> Result<(), AllocError>
    ensures { OnOk result (text.new.items ≡ with_pieces text.old.items arguments.now) }
{
    let mut rest = arguments;
    while let [argument, more @ ..] = rest {
        push_literal(text, literal_value(alloc, argument)?)?;
        rest = more;
    }
    Ok(())
}

fn push_literal(text: &mut Vec<u8>, literal: Option<Value>) -> Result<(), AllocError>
    ensures { OnOk result (text.new.items ≡ with_piece text.old.items literal) }
{
    match literal {
        Some(Value::Chars(piece)) => push_piece(text, piece.as_bytes()),
        Some(Value::Number(_)) | None => Ok(()),
    }
}

fn push_piece(text: &mut Vec<u8>, piece: &[u8]) -> Result<(), AllocError>
    ensures { OnOk result (text.new.items ≡ (if length text.old.items == 0 then piece.now else text.old.items ++ 0x25 ∷ piece.now)) }
{
    if !text.is_empty() {
        text.push(LINE_FEED)?;
    }
    text.extend_from_slice(piece)
}
