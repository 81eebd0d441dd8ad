//! The table against the printed code page, both ways, and what is outside it.
use ebc_text::*;
use std::test::Fail;

/// The characters in the order of their codes, and the codes, as code page 037 is printed.
const TEXT: &str =
    " .<(+|&!$*);-/,%_>?`:#@'=\"abcdefghijklmnopqr~stuvwxyz^[]{ABCDEFGHI}JKLMNOPQR\\STUVWXYZ0123456789";

const CODES: [u8; 95] = [
    0x40, 0x4B, 0x4C, 0x4D, 0x4E, 0x4F, 0x50, 0x5A, 0x5B, 0x5C, 0x5D, 0x5E, 0x60, 0x61, 0x6B, 0x6C,
    0x6D, 0x6E, 0x6F, 0x79, 0x7A, 0x7B, 0x7C, 0x7D, 0x7E, 0x7F, 0x81, 0x82, 0x83, 0x84, 0x85, 0x86,
    0x87, 0x88, 0x89, 0x91, 0x92, 0x93, 0x94, 0x95, 0x96, 0x97, 0x98, 0x99, 0xA1, 0xA2, 0xA3, 0xA4,
    0xA5, 0xA6, 0xA7, 0xA8, 0xA9, 0xB0, 0xBA, 0xBB, 0xC0, 0xC1, 0xC2, 0xC3, 0xC4, 0xC5, 0xC6, 0xC7,
    0xC8, 0xC9, 0xD0, 0xD1, 0xD2, 0xD3, 0xD4, 0xD5, 0xD6, 0xD7, 0xD8, 0xD9, 0xE0, 0xE2, 0xE3, 0xE4,
    0xE5, 0xE6, 0xE7, 0xE8, 0xE9, 0xF0, 0xF1, 0xF2, 0xF3, 0xF4, 0xF5, 0xF6, 0xF7, 0xF8, 0xF9,
];

/// A text, and the place of its first character outside the table.
const OUTSIDE: [(&str, usize); 4] = [("\n", 0), ("AB\tC", 2), ("AÄ", 1), ("blank DEL \x7F", 10)];

/// Bytes, and the place of the first that the table doesn't have; the later ones are no UTF-8.
const BYTES_OUTSIDE: [(&[u8], usize); 5] = [
    (b"\0", 0),
    (b"AB\x1F", 2),
    (b"A\x80", 1),
    (b"ABC\xC3(", 3),
    (b"\xFF\xFE", 0),
];

#[test]
fn table(rt: HostRuntime) -> Result<(), Fail> {
    let bytes = to_ebcdic(rt.alloc(), TEXT)?;
    assert_eq!(rt; bytes.as_slice(), CODES.as_slice());
    for code in 0..=u8::MAX {
        let character = to_ascii(code);
        assert_eq!(rt; character.is_some(), CODES.contains(&code), "{code}");
        assert_eq!(rt;
            character.map_or(code, |c| to_ebcdic_byte(c).unwrap_or(0)),
            code
        );
    }
    for (text, at) in OUTSIDE {
        match to_ebcdic(rt.alloc(), text) {
            Err(error) => assert_eq!(rt; error, TextError::NotInTable { at }),
            Ok(_) => panic!(rt; "{text:?} is in the table"),
        }
    }
    for (bytes, at) in BYTES_OUTSIDE {
        match to_ebcdic_bytes(rt.alloc(), bytes) {
            Err(error) => assert_eq!(rt; error, TextError::NotInTable { at }),
            Ok(_) => panic!(rt; "{bytes:?} are in the table"),
        }
    }
    let codes = to_ebcdic_bytes(rt.alloc(), TEXT.as_bytes())?;
    assert_eq!(rt; codes.as_slice(), CODES.as_slice());
    one_to_one();
    Ok(())
}
