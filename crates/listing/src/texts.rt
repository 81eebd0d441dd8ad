//! Names, numbers and values as they are printed.
ghost use Rattle.std.specs.Prelude.{◌≡◌, ◌+◌, ◌<◌, ◌++◌, length, OnOk, IfOk};
ghost use Rattle.std.specs.List.{list_all, flat_map};
ghost use Rattle.std.specs.Fmt.{decimal};
ghost use Rattle.listing.specs.Texts.{has_character, quoted_character, hex_digit, hex_pair, text_literal, number_literal, padded_digits, pointed, value_text, given_text, values_text, given_values_text};

use ebc_text::to_ascii;
use field_types::values::{Dec, Value};
use std::alloc::{AllocError, Global};

/// Appends a number in digits.
pub fn push_number(out: &mut Vec<u8>, number: u64) -> Result<(), AllocError>
    ensures { OnOk result (out.new.items ≡ out.old.items ++ decimal number) }
{
    let digits = number.to_string(*out.allocator())?;
    out.extend_from_slice(digits.as_bytes())?;
    Ok(())
}

/// Appends values with a blank between each two.
#[tactic(auto, unfolding(crate::specs::Texts::values_text))]
pub fn push_values(out: &mut Vec<u8>, values: &[Value]) -> Result<(), AllocError>
    ensures { OnOk result (out.new.items ≡ out.old.items ++ values_text values.now) }
{
    let Some((first, others)) = values.split_first() else {
        return Ok(());
    };
    push_value(out, first)?;
    for value in others {
        out.push(b' ')?;
        push_value(out, value)?;
    }
    Ok(())
}

/// Appends values that may be left out, with a blank between each two.
#[tactic(auto, unfolding(crate::specs::Texts::given_values_text))]
pub fn push_given_values(out: &mut Vec<u8>, values: &[Option<Value>]) -> Result<(), AllocError>
    ensures { OnOk result (out.new.items ≡ out.old.items ++ given_values_text values.now) }
{
    let Some((first, others)) = values.split_first() else {
        return Ok(());
    };
    push_given(out, first)?;
    for value in others {
        out.push(b' ')?;
        push_given(out, value)?;
    }
    Ok(())
}

fn push_given(out: &mut Vec<u8>, value: &Option<Value>) -> Result<(), AllocError>
    ensures { OnOk result (out.new.items ≡ out.old.items ++ given_text value.now) }
{
    match value {
        None => out.extend_from_slice(b"*N"),
        Some(given) => push_value(out, given),
    }
}

fn push_value(out: &mut Vec<u8>, value: &Value) -> Result<(), AllocError>
    ensures { OnOk result (out.new.items ≡ out.old.items ++ value_text value.now) }
{
    match value {
        Value::Chars(text) => push_text(out, text.as_bytes()),
        Value::Number(number) => push_decimal(out, *number),
    }
}

/// Appends a text in apostrophes, or in hexadecimal where a byte has no character.
#[tactic(auto, unfolding(crate::specs::Texts::text_literal))]
pub fn push_text(out: &mut Vec<u8>, text: &[u8]) -> Result<(), AllocError>
    ensures { OnOk result (out.new.items ≡ out.old.items ++ text_literal text.now) }
{
    if all_have_characters(text) {
        out.push(b'\'')?;
        push_characters(out, text)?;
    } else {
        out.push(b'X')?;
        out.push(b'\'')?;
        push_hexadecimal(out, text)?;
    }
    out.push(b'\'')?;
    Ok(())
}

fn all_have_characters(text: &[u8]) -> bool
    ensures { result ≡ list_all has_character text.now }
{
    text.iter().all(|&byte| to_ascii(byte).is_some())
}

fn push_characters(out: &mut Vec<u8>, text: &[u8]) -> Result<(), AllocError>
    ensures { OnOk result (out.new.items ≡ out.old.items ++ flat_map quoted_character text.now) }
{
    for byte in text {
        push_character(out, *byte)?;
    }
    Ok(())
}

fn push_character(out: &mut Vec<u8>, byte: u8) -> Result<(), AllocError>
    ensures { OnOk result (out.new.items ≡ out.old.items ++ quoted_character byte) }
{
    let character = to_ascii(byte).unwrap_or(0);
    out.push(character)?;
    if character == b'\'' {
        out.push(character)?;
    }
    Ok(())
}

fn push_hexadecimal(out: &mut Vec<u8>, text: &[u8]) -> Result<(), AllocError>
    ensures { OnOk result (out.new.items ≡ out.old.items ++ flat_map hex_pair text.now) }
{
    for byte in text {
        out.push(hex_digit(*byte / 16))?;
        out.push(hex_digit(*byte % 16))?;
    }
    Ok(())
}

fn hex_digit(n: u8) -> u8
    requires { n < 16 }
    ensures { result ≡ hex_digit n }
{
    if n < 10 { b'0' + n } else { b'A' + (n - 10) }
}

/// Appends a number with exactly its decimals.
#[tactic(auto, unfolding(crate::specs::Texts::number_literal))]
fn push_decimal(out: &mut Vec<u8>, number: Dec) -> Result<(), AllocError>
    ensures { OnOk result (out.new.items ≡ out.old.items ++ number_literal number) }
{
    let scale = usize::from(number.scale);
    let digits = padded_digits(*out.allocator(), scale, number.units.unsigned_abs())?;
    if number.units < 0 {
        out.push(b'-')?;
    }
    push_pointed(out, scale, digits.as_slice())
}

fn padded_digits(alloc: Global, scale: usize, magnitude: u128) -> Result<Vec<u8>, AllocError>
    requires { scale < 256 }
    ensures padded { IfOk result (λ digits. digits.items ≡ padded_digits scale (decimal magnitude)) }
    ensures enough { IfOk result (λ digits. scale < length digits.items) }
{
    let shown = magnitude.to_string(alloc)?;
    let mut digits = vec![in alloc; b'0'; (scale + 1).saturating_sub(shown.len())]?;
    digits.extend_from_slice(shown.as_bytes())?;
    Ok(digits)
}

fn push_pointed(out: &mut Vec<u8>, scale: usize, digits: &[u8]) -> Result<(), AllocError>
    requires { scale < length digits.now }
    ensures { OnOk result (out.new.items ≡ out.old.items ++ pointed scale digits.now) }
{
    if scale == 0 {
        return out.extend_from_slice(digits);
    }
    let (whole, fraction) = digits.split_at(digits.len() - scale);
    out.extend_from_slice(whole)?;
    out.push(b'.')?;
    out.extend_from_slice(fraction)?;
    Ok(())
}
