//! Rows on the order of keys, worked out by hand from the meaning of each type (DDS for Physical and Logical Files, "Data
//! type", "DESCEND" and "ABSVAL"). `keys.rt` goes through them.
use Keywords::{Absval, Both, Descend, Neither};
use field_types::kinds::Kind::{self, Binary, Char, Date, Packed, Stamp, Time, Zoned};

/// The keywords of a key field.
#[derive(Clone, Copy)]
pub(crate) enum Keywords {
    Neither,
    Descend,
    Absval,
    Both,
}

/// A key field, with its length and decimals, and images of it in hex, in the order of their keys.
pub(crate) type ImageRow = (Kind, u16, u8, Keywords, &'static str);

/// A key field, and texts in ASCII, in the order of their keys.
pub(crate) type TextRow = (Kind, u16, Keywords, &'static str);

/// Characters stand by their bytes in code page 037, without signs.
pub(crate) const CHARACTERS: [ImageRow; 6] = [
    // The blank, marks, small letters, capital letters, digits.
    (
        Char,
        1,
        0,
        Neither,
        "00 < 3F < 40 < 4B < 5B < 60 < 7B < 7C < 7F < 80 < 81 < A9 < C1 < C9 < D1 < E9 < F0 < F9 \
         < FF",
    ),
    (Char, 1, 0, Descend, "FF < F9 < C1 < 81 < 80 < 7F < 40 < 00"),
    // Blanks fill a text, and bytes below the blank come before them.
    (
        Char,
        3,
        0,
        Neither,
        "404040 < C10000 < C14000 < C14040 < C140C1 < C1C140 < C1C1C1 < C1C240 < C1F140 < C24040 \
         < F14040",
    ),
    (
        Char,
        3,
        0,
        Descend,
        "F14040 < C24040 < C1C140 < C14040 < C14000 < 404040",
    ),
    // Texts have no sign.
    (Char, 2, 0, Absval, "60F1 < F0C1 < F0D1 < F0F1"),
    (Char, 2, 0, Both, "F0F1 < F0D1 < F0C1 < 60F1"),
];

/// Zoned numbers stand by value, whichever sign a value has in its image.
pub(crate) const ZONED_NUMBERS: [ImageRow; 8] = [
    (
        Zoned,
        3,
        0,
        Neither,
        "F9F9D9 < F9F9B8 < F0F1D0 < F0F0D9 < F0F0D1 = F0F0B1 < F0F0D0 = F0F0B0 = F0F0F0 = F0F0C0 \
         = F0F0A0 = F0F0E0 < F0F0F1 = F0F0C1 = F0F0A1 = F0F0E1 < F0F0F9 < F0F1F0 < F9F9F8 < \
         F9F9F9 = F9F9C9",
    ),
    (
        Zoned,
        3,
        0,
        Descend,
        "F9F9C9 < F0F0F1 < F0F0F0 = F0F0D0 < F0F0D1 < F9F9D9",
    ),
    (
        Zoned,
        3,
        0,
        Absval,
        "F0F0F0 = F0F0D0 < F0F0C1 = F0F0D1 < F0F0D9 < F0F1F0 < F9F9D8 < F9F9F9 = F9F9D9",
    ),
    (
        Zoned,
        3,
        0,
        Both,
        "F9F9D9 = F9F9F9 < F9F9F8 < F0F1D0 < F0F0F9 < F0F0D1 = F0F0F1 < F0F0D0 = F0F0C0",
    ),
    (Zoned, 1, 0, Neither, "D9 < D1 < F0 = D0 = C0 < F1 < F9"),
    (
        Zoned,
        2,
        2,
        Neither,
        "F9D9 < F1D0 < F0D9 < F0D1 < F0F0 = F0D0 < F0F1 < F0F9 < F1F0 < F9F9",
    ),
    // The most digits.
    (
        Zoned,
        31,
        0,
        Neither,
        "F9F9F9F9F9F9F9F9F9F9F9F9F9F9F9F9F9F9F9F9F9F9F9F9F9F9F9F9F9F9D9 < \
         F9F9F9F9F9F9F9F9F9F9F9F9F9F9F9F9F9F9F9F9F9F9F9F9F9F9F9F9F9F9D8 < \
         F0F0F0F0F0F0F0F0F0F0F0F0F0F0F0F0F0F0F0F0F0F0F0F0F0F0F0F0F0F0D1 < \
         F0F0F0F0F0F0F0F0F0F0F0F0F0F0F0F0F0F0F0F0F0F0F0F0F0F0F0F0F0F0F0 = \
         F0F0F0F0F0F0F0F0F0F0F0F0F0F0F0F0F0F0F0F0F0F0F0F0F0F0F0F0F0F0D0 < \
         F0F0F0F0F0F0F0F0F0F0F0F0F0F0F0F0F0F0F0F0F0F0F0F0F0F0F0F0F0F0F1 < \
         F9F9F9F9F9F9F9F9F9F9F9F9F9F9F9F9F9F9F9F9F9F9F9F9F9F9F9F9F9F9F8 < \
         F9F9F9F9F9F9F9F9F9F9F9F9F9F9F9F9F9F9F9F9F9F9F9F9F9F9F9F9F9F9F9",
    ),
    (
        Zoned,
        31,
        31,
        Both,
        "F9F9F9F9F9F9F9F9F9F9F9F9F9F9F9F9F9F9F9F9F9F9F9F9F9F9F9F9F9F9D9 = \
         F9F9F9F9F9F9F9F9F9F9F9F9F9F9F9F9F9F9F9F9F9F9F9F9F9F9F9F9F9F9F9 < \
         F9F9F9F9F9F9F9F9F9F9F9F9F9F9F9F9F9F9F9F9F9F9F9F9F9F9F9F9F9F9D8 < \
         F0F0F0F0F0F0F0F0F0F0F0F0F0F0F0F0F0F0F0F0F0F0F0F0F0F0F0F0F0F0F1 = \
         F0F0F0F0F0F0F0F0F0F0F0F0F0F0F0F0F0F0F0F0F0F0F0F0F0F0F0F0F0F0D1 < \
         F0F0F0F0F0F0F0F0F0F0F0F0F0F0F0F0F0F0F0F0F0F0F0F0F0F0F0F0F0F0D0 = \
         F0F0F0F0F0F0F0F0F0F0F0F0F0F0F0F0F0F0F0F0F0F0F0F0F0F0F0F0F0F0F0",
    ),
];

/// So do packed numbers.
pub(crate) const PACKED_NUMBERS: [ImageRow; 10] = [
    (
        Packed,
        1,
        0,
        Neither,
        "9D < 1D = 1B < 0D = 0B = 0F = 0C = 0A = 0E < 1F = 1C = 1A = 1E < 9C",
    ),
    // An even number of digits.
    (
        Packed,
        2,
        0,
        Neither,
        "099D < 098D < 001D < 000F = 000D < 001F < 098F < 099F",
    ),
    (
        Packed,
        3,
        0,
        Neither,
        "999D < 998D < 100D < 099D < 010D < 009D < 001B = 001D < 000D = 000B = 000C = 000F = 000A \
         = 000E < 001F < 009F < 010F < 099F < 100F < 998F < 999F = 999C",
    ),
    (
        Packed,
        3,
        0,
        Descend,
        "999F < 100C < 001F < 000F = 000D < 001D < 100D < 999D",
    ),
    (
        Packed,
        3,
        0,
        Absval,
        "000F = 000D < 001F = 001D < 010D < 099F < 100D < 998C < 999F = 999D",
    ),
    (
        Packed,
        3,
        0,
        Both,
        "999D = 999F < 998F < 100D < 099F < 010D < 001D = 001F < 000D = 000C",
    ),
    // Decimals.
    (
        Packed,
        5,
        2,
        Neither,
        "99999D < 00100D < 00099D < 00001D < 00000D = 00000F < 00001F < 00099F < 00100F < 99999F",
    ),
    // The most digits.
    (
        Packed,
        31,
        0,
        Neither,
        "9999999999999999999999999999999D < 9999999999999999999999999999998D < \
         0000000000000000000000000000001D < 0000000000000000000000000000000F = \
         0000000000000000000000000000000D < 0000000000000000000000000000001F < \
         9999999999999999999999999999998F < 9999999999999999999999999999999F",
    ),
    (
        Packed,
        31,
        31,
        Descend,
        "9999999999999999999999999999999C < 9999999999999999999999999999998C < \
         0000000000000000000000000000001F < 0000000000000000000000000000000F = \
         0000000000000000000000000000000D < 0000000000000000000000000000001D < \
         9999999999999999999999999999998D < 9999999999999999999999999999999D",
    ),
    (
        Packed,
        30,
        0,
        Absval,
        "0000000000000000000000000000000F = 0000000000000000000000000000000D < \
         0000000000000000000000000000001F = 0000000000000000000000000000001D < \
         0999999999999999999999999999998D < 0999999999999999999999999999999F = \
         0999999999999999999999999999999D",
    ),
];

/// And binary numbers, at both ends of what their digits can count.
pub(crate) const BINARY_NUMBERS: [ImageRow; 11] = [
    // Two bytes.
    (
        Binary,
        4,
        0,
        Neither,
        "D8F1 < D8F2 < FEFF < FF00 < FF01 < FFFF < 0000 < 0001 < 007F < 0080 < 00FF < 0100 < 270E \
         < 270F",
    ),
    (
        Binary,
        4,
        0,
        Descend,
        "270F < 0100 < 00FF < 0000 < FFFF < FF00 < D8F1",
    ),
    (
        Binary,
        4,
        0,
        Absval,
        "0000 < FFFF = 0001 < 00FF = FF01 < FF00 = 0100 < 270E < 270F = D8F1",
    ),
    (
        Binary,
        4,
        2,
        Both,
        "D8F1 = 270F < D8F2 < 0100 < FF01 < 0001 = FFFF < 0000",
    ),
    (Binary, 1, 0, Neither, "FFF7 < FFFF < 0000 < 0009"),
    // Four bytes.
    (
        Binary,
        9,
        0,
        Neither,
        "C4653601 < C4653602 < FFFF0000 < FFFF8000 < FFFFFFFF < 00000000 < 00000001 < 00007FFF < \
         00008000 < 00010000 < 3B9AC9FE < 3B9AC9FF",
    ),
    (
        Binary,
        5,
        0,
        Descend,
        "0001869F < 00000000 < FFFFFFFF < FFFE7961",
    ),
    (
        Binary,
        9,
        9,
        Absval,
        "00000000 < 00000001 = FFFFFFFF < 00008000 = FFFF8000 < 3B9AC9FE < 3B9AC9FF = C4653601",
    ),
    // Eight bytes.
    (
        Binary,
        18,
        0,
        Neither,
        "F21F494C589C0001 < F21F494C589C0002 < FFFFFFFF00000000 < FFFFFFFF80000000 < \
         FFFFFFFFFFFFFFFF < 0000000000000000 < 0000000000000001 < 000000007FFFFFFF < \
         0000000080000000 < 0000000100000000 < 0DE0B6B3A763FFFE < 0DE0B6B3A763FFFF",
    ),
    (
        Binary,
        10,
        0,
        Descend,
        "00000002540BE3FF < 0000000000000001 < 0000000000000000 < FFFFFFFFFFFFFFFF < \
         FFFFFFFDABF41C01",
    ),
    (
        Binary,
        18,
        0,
        Both,
        "F21F494C589C0001 = 0DE0B6B3A763FFFF < F21F494C589C0002 < 0000000100000000 = \
         FFFFFFFF00000000 < 0000000000000001 = FFFFFFFFFFFFFFFF < 0000000000000000",
    ),
];

/// Dates, times and timestamps stand as they follow one another.
pub(crate) const MOMENTS: [TextRow; 6] = [
    (
        Date,
        10,
        Neither,
        "0001-01-01 < 0001-01-02 < 0001-02-01 < 0999-12-31 < 1000-01-01 < 1999-12-31 < 2000-01-01 \
         < 2000-02-29 < 2000-03-01 < 9999-12-31",
    ),
    (
        Date,
        10,
        Descend,
        "9999-12-31 < 2000-03-01 < 2000-02-29 < 2000-01-01 < 1999-12-31 < 1000-01-01 < 0999-12-31 \
         < 0001-02-01 < 0001-01-02 < 0001-01-01",
    ),
    (
        Time,
        8,
        Neither,
        "00.00.00 < 00.00.01 < 00.00.59 < 00.01.00 < 00.59.59 < 01.00.00 < 09.59.59 < 10.00.00 < \
         19.59.59 < 20.00.00 < 23.59.59",
    ),
    (
        Time,
        8,
        Descend,
        "23.59.59 < 20.00.00 < 19.59.59 < 10.00.00 < 09.59.59 < 01.00.00 < 00.59.59 < 00.01.00 < \
         00.00.59 < 00.00.01 < 00.00.00",
    ),
    (
        Stamp,
        26,
        Neither,
        "0001-01-01-00.00.00.000000 < 1999-12-31-23.59.59.999999 < 2000-01-01-00.00.00.000000 < \
         2000-01-01-00.00.00.000001 < 2000-01-01-00.00.00.000010 < 2000-01-01-00.00.01.000000 < \
         9999-12-31-23.59.59.999999",
    ),
    (
        Stamp,
        26,
        Descend,
        "9999-12-31-23.59.59.999999 < 2000-01-01-00.00.01.000000 < 2000-01-01-00.00.00.000010 < \
         2000-01-01-00.00.00.000001 < 2000-01-01-00.00.00.000000 < 1999-12-31-23.59.59.999999 < \
         0001-01-01-00.00.00.000000",
    ),
];
