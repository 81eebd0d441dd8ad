//! A text that is compared: its bytes lie in one place, or in pieces of a record. No memory is taken for it.
ghost use Rattle.std.specs.Prelude.{◌≡◌, ℕ, slice_index_or};
ghost use Rattle.std.specs.Cmp.Lexicographic.{slice_cmp};
ghost use Rattle.std.specs.List.{AllByRecursion, flat_map};
ghost use Rattle.file_model.specs.Selection.{compare_filled};
ghost use Rattle.file_model.specs.Views.{piece_of};
ghost use Rattle.view_rules.specs.Shown.{IsWithin};
ghost use Rattle.view_rules.specs.Operands.{bytes_of, text_of, HasBytes, IsText};
ghost use Rattle.field_types.specs.declared.values.Value.{Value};

use field_values::fields::BLANK;
use file_model::views::Piece;
use std::cmp::Ordering;

/// Where the bytes of a text lie.
#[derive(Clone, Copy)]
pub(crate) enum TextBytes<'a> {
    Slice(&'a [u8]),
    /// One piece of a record after another.
    Pieces(&'a [Piece], &'a [u8]),
}

/// A text: its bytes, and blanks behind them to its width.
#[derive(Clone, Copy)]
pub(crate) struct ShownText<'a> {
    pub width: usize,
    pub bytes: TextBytes<'a>,
}

/// Compares two texts, the shorter one filled with blanks.
pub(crate) fn compare(a: ShownText, b: ShownText) -> Ordering
    requires first { IsText a }
    requires second { IsText b }
    ensures { result ≡ compare_filled (Value.Chars (text_of a.entry)) (Value.Chars (text_of b.entry)) }
{
    for i in 0..a.width.max(b.width) {
        let order = byte(a.bytes, i).cmp(&byte(b.bytes, i));
        if order != Ordering::Equal {
            return order;
        }
    }
    Ordering::Equal
}

/// The byte at a place of a text; behind its bytes a blank.
fn byte(bytes: TextBytes, i: usize) -> u8
    requires { HasBytes bytes }
    ensures { result ≡ slice_index_or (bytes_of bytes.entry) i 0x40 }
{
    match bytes {
        TextBytes::Slice(bytes) => byte_or_blank(bytes, i),
        TextBytes::Pieces(pieces, image) => byte_of_pieces(pieces, image, i),
    }
}

fn byte_or_blank(bytes: &[u8], i: usize) -> u8
    ensures { result ≡ slice_index_or bytes.now i 0x40 }
{
    if i < bytes.len() { bytes[i] } else { BLANK }
}

/// The byte at a place of some pieces one after another; behind them a blank.
fn byte_of_pieces(pieces: &[Piece], image: &[u8], i: usize) -> u8
    requires { AllByRecursion (IsWithin image.now) pieces.now }
    ensures { result ≡ slice_index_or (flat_map (piece_of image.now) pieces.now) i 0x40 }
{
    let mut left = i;
    for piece in pieces {
        let length = piece.length as usize;
        if left < length {
            return image[piece.offset as usize + left];
        }
        left -= length;
    }
    BLANK
}
