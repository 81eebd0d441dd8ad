//! Lines, names and numbers of small texts.
use std::test::Fail;
use text_lines::characters::{folded, hex_byte};
use text_lines::decimals::decimal;
use text_lines::lines::{are_blanks, blanks_before, name_alone, split_line};

/// A text, its first line, and what is behind it.
const TEXTS: [(&[u8], Option<(&[u8], &[u8])>); 5] = [
    (b"", None),
    (b"\n", Some((b"", b""))),
    (b"A", Some((b"A", b""))),
    (b"A\nB\n", Some((b"A", b"B\n"))),
    (b"\r\n\nB", Some((b"\r", b"\nB"))),
];

/// A text, and the length of the name that stands there alone; 0 for none.
const NAMES: [(&[u8], usize); 7] = [
    (b"CUST", 4),
    (b"CUST \t ", 4),
    (b" CUST", 0),
    (b"CUST X", 0),
    (b"1A", 0),
    (b"cust", 0),
    (b"", 0),
];

/// Digits, a limit, and the number.
const NUMBERS: [(&[u8], u32, Option<u32>); 7] = [
    (b"", 9, Some(0)),
    (b"007", 9, Some(7)),
    (b"10", 9, None),
    (b"-1", 9, None),
    (b"1.", 9, None),
    (b"4294967295", u32::MAX, Some(u32::MAX)),
    (b"4294967296", u32::MAX, None),
];

/// Two hexadecimal digits, and the byte; the neighbours of the digits are none.
const PAIRS: [(u8, u8, Option<u8>); 9] = [
    (b'0', b'9', Some(0x09)),
    (b'A', b'f', Some(0xAF)),
    (b'a', b'F', Some(0xAF)),
    (b'/', b'0', None),
    (b'0', b':', None),
    (b'@', b'0', None),
    (b'0', b'G', None),
    (b'`', b'0', None),
    (b'0', b'g', None),
];

/// Characters, and what they are in upper case.
const FOLDED: [(u8, u8); 6] = [
    (b'a', b'A'),
    (b'z', b'Z'),
    (b'`', b'`'),
    (b'{', b'{'),
    (b'\t', b'\t'),
    (0xE4, 0xE4),
];

#[test]
fn characters(rt: HostRuntime) {
    for (high, low, wanted) in PAIRS {
        assert_eq!(rt; hex_byte(high, low), wanted);
    }
    for (character, wanted) in FOLDED {
        assert_eq!(rt; folded(character), wanted);
    }
}

#[test]
fn first_lines(rt: HostRuntime) {
    for (text, wanted) in TEXTS {
        assert_eq!(rt; split_line(text), wanted);
    }
}

#[test]
fn names_alone(rt: HostRuntime) {
    for (text, length) in NAMES {
        let found = name_alone(text).map_or(0, |name| name.as_bytes().len());
        assert_eq!(rt; found, length);
    }
}

#[test]
fn numbers(rt: HostRuntime) {
    for (digits, limit, wanted) in NUMBERS {
        assert_eq!(rt; decimal(digits, limit), wanted);
    }
}

#[test]
fn blanks(rt: HostRuntime) {
    assert_eq!(rt; blanks_before(b" \t A "), 3);
    assert_eq!(rt; blanks_before(b"A "), 0);
    assert!(rt; are_blanks(b" \t "));
    assert!(rt; !are_blanks(b" A"));
}
