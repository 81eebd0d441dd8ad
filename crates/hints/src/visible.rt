//! Bytes made visible, by `specs/Shown.antt`.
ghost use Rattle.std.specs.Prelude.{◌≡◌, ◌≤◌, ◌++◌, true, length, OnOk, OnErr};
ghost use Rattle.std.specs.List.{list_all};
ghost use Rattle.hints.specs.Shown.{hex_digit, is_printable, is_shown, shown, visible, visible_text, width};

use std::alloc::AllocError;

/// The most characters of a line that are shown.
pub const MOST_SHOWN: usize = 100;

/// Whether a byte is one of the 95 printable characters of ASCII.
pub(crate) fn is_printable(byte: u8) -> bool
    ensures { result ≡ is_printable byte }
{
    matches!(byte, b' '..=b'~')
}

fn hex_digit(number: u8) -> u8
    ensures { result ≡ hex_digit number }
{
    match number {
        0..=9 => b'0' + number,
        10..=15 => b'A' + (number - 10),
        _ => b'?',
    }
}

/// Adds a byte, made visible.
fn push_byte(out: &mut Vec<u8>, byte: u8) -> Result<(), AllocError>
    ensures visible { OnOk result (out.new.items ≡ out.old.items ++ visible byte) }
    ensures failed { OnErr result (out.new.items ≡ out.old.items) }
{
    if is_printable(byte) {
        out.extend_from_slice(&[byte])
    } else {
        out.extend_from_slice(&[b'\\', b'x', hex_digit(byte / 16), hex_digit(byte % 16)])
    }
}

/// Adds bytes, made visible.
pub(crate) fn push_bytes(out: &mut Vec<u8>, bytes: &[u8]) -> Result<(), AllocError>
    ensures visible { OnOk result (out.new.items ≡ out.old.items ++ visible_text bytes.now) }
    ensures shown { list_all is_shown out.old.items ≡ true → list_all is_shown out.new.items ≡ true }
{
    for &byte in bytes {
        push_byte(out, byte)?;
    }
    Ok(())
}

/// How many characters a byte takes.
fn width(byte: u8) -> usize
    ensures { result ≡ width byte }
{
    if is_printable(byte) { 1 } else { 4 }
}

/// Adds what fits of a line into so many characters.
pub(crate) fn push_line(out: &mut Vec<u8>, line: &[u8], most: usize) -> Result<(), AllocError>
    ensures visible { OnOk result (out.new.items ≡ out.old.items ++ shown line.now most) }
    ensures shown { list_all is_shown out.old.items ≡ true → list_all is_shown out.new.items ≡ true }
{
    let mut room = most;
    for &byte in line {
        let width = width(byte);
        if width > room {
            return Ok(());
        }
        push_byte(out, byte)?;
        room -= width;
    }
    Ok(())
}

/// A line takes no more room than it has, and nothing of it but printable characters.
pub fn shown_lines(line: &[u8], most: usize)
    ensures short { length (shown line.now most) ≤ most }
    ensures printable { list_all is_printable (shown line.now most) ≡ true }
{}
