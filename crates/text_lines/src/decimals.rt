//! Numbers spelled in decimal digits.
ghost use Rattle.std.specs.Prelude.{◌≡◌, ◌≤◌, IfSome};
ghost use Rattle.text_lines.specs.Decimal.{is_digit, decimal_up_to};

/// The number that the digits spell, where there is nothing but digits and it passes no limit; 0 for no digits.
pub fn decimal(text: &[u8], limit: u32) -> Option<u32>
    ensures spelled { result ≡ decimal_up_to limit text.now }
    ensures small { IfSome result (λ n. n ≤ limit) }
{
    let mut number = 0u64;
    for &digit in text {
        if !is_digit(digit) {
            return None;
        }
        number = 10 * number + u64::from(digit - b'0');
        if number > u64::from(limit) {
            return None;
        }
    }
    Some(number as u32)
}

/// Whether a byte is 0 to 9 in ASCII.
pub fn is_digit(byte: u8) -> bool
    ensures { result ≡ is_digit byte }
{
    matches!(byte, b'0'..=b'9')
}
