//! Single characters in ASCII: folding to upper case, and hexadecimal digits.
ghost use Rattle.std.specs.Prelude.{◌≡◌, ◌≤◌, IfSome};
ghost use Rattle.text_lines.specs.Characters.{folded, hex_digit_value, hex_byte};

/// A letter in upper case, any other character as it is.
pub fn folded(byte: u8) -> u8
    ensures { result ≡ folded byte }
{
    if byte.is_ascii_lowercase() {
        byte - 32
    } else {
        byte
    }
}

/// The value of a hexadecimal digit in either case.
pub fn hex_digit_value(digit: u8) -> Option<u8>
    ensures value { result ≡ hex_digit_value digit }
    ensures small { IfSome result (λ n. n ≤ 15) }
{
    match digit {
        b'0'..=b'9' => Some(digit - b'0'),
        b'A'..=b'F' => Some(digit - b'A' + 10),
        b'a'..=b'f' => Some(digit - b'a' + 10),
        _ => None,
    }
}

/// The byte of two hexadecimal digits.
pub fn hex_byte(high: u8, low: u8) -> Option<u8>
    ensures { result ≡ hex_byte (hex_digit_value high) (hex_digit_value low) }
{
    let high = hex_digit_value(high)?;
    let low = hex_digit_value(low)?;
    Some(16 * high + low)
}
