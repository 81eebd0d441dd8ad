//! The bytes of texts and of numbers at a position, written behind what stands before them. None of it takes memory.
ghost use Rattle.std.specs.Prelude.{◌≡◌, ◌+◌, ◌^◌, ◌<◌, ◌≤◌, ◌∷◌, [], ◌++◌, length, replicate, unsigned_abs, vec_len, vec_capacity};
ghost use Rattle.field_laws.specs.FieldTypes.{packed_width};
ghost use Rattle.key_order.specs.KeyBytes.{turned, number_bytes, middle, from_middle};

use crate::widths::number_width;

/// A blank in code page 037.
const BLANK: u8 = 0x40;

/// The most digits of a number.
const MOST_DIGITS: u16 = 31;

/// The bytes of a text, each turned round where values descend.
pub(crate) fn put_text(text: &[u8], descend: bool, into: &mut Vec<u8>)
    requires { vec_len into.old + length text.now ≤ vec_capacity into.old }
    ensures items { into.new.items ≡ into.old.items ++ turned descend text.now }
    ensures len { vec_len into.new ≡ vec_len into.old + length text.now }
    ensures capacity { vec_capacity into.new ≡ vec_capacity into.old }
{
    for byte in text {
        into.push_reserved(directed(*byte, descend));
    }
}

/// So many blanks behind a text.
pub(crate) fn put_blanks(count: usize, descend: bool, into: &mut Vec<u8>)
    requires { vec_len into.old + count ≤ vec_capacity into.old }
    ensures items { into.new.items ≡ into.old.items ++ turned descend (replicate count 0x40) }
    ensures len { vec_len into.new ≡ vec_len into.old + count }
    ensures capacity { vec_capacity into.new ≡ vec_capacity into.old }
{
    for _ in 0..count {
        into.push_reserved(directed(BLANK, descend));
    }
}

/// A number of so many digits, above the least that its bytes can count.
pub(crate) fn put_number(digits: u16, units: i128, descend: bool, into: &mut Vec<u8>)
    requires digits { digits ≤ MOST_DIGITS }
    requires small { unsigned_abs units < 10 ^ digits }
    requires room { vec_len into.old + packed_width digits ≤ vec_capacity into.old }
    ensures items { into.new.items ≡ into.old.items ++ turned descend (number_bytes digits units) }
    ensures len { vec_len into.new ≡ vec_len into.old + packed_width digits }
    ensures capacity { vec_capacity into.new ≡ vec_capacity into.old }
{
    let number = from_middle(digits, units).to_be_bytes();
    put_text(&number[16 - number_width(digits)..], descend, into);
}

/// The number as it is counted from the middle of its bytes.
fn from_middle(digits: u16, units: i128) -> u128
    requires digits { digits ≤ MOST_DIGITS }
    requires small { unsigned_abs units < 10 ^ digits }
    ensures { result ≡ from_middle (middle digits) units }
{
    let middle = 1 << (8 * number_width(digits) - 1);
    let magnitude = units.unsigned_abs();
    if units < 0 {
        middle - magnitude
    } else {
        middle + magnitude
    }
}

fn directed(byte: u8, descend: bool) -> u8
    ensures { result ∷ [] ≡ turned descend (byte ∷ []) }
{
    if descend { 255 - byte } else { byte }
}
