//! A record with a field of each kind, by hand: packed, unpacked, and with each kind of fault.
use field_types::faults::{BadImage, ValueFault};
use field_types::kinds::{FieldType, Kind};
use field_types::names::Name;
use field_types::texts::Text;
use field_types::values::{Dec, Value};
use field_values::fields::{ImageFault, is_allowed, width};
use record_fmt::RecordFault;
use record_fmt::formats::{Field, Fields, Format, MOST_BYTES, MOST_FIELDS, PackFault};
use std::alloc::{AllocError, Global};
use std::process::Abort;
use std::test::Fail;

/// A field's name, kind, length and decimals, and where it lies.
const FIELDS: [(&str, Kind, u16, u8, u32); 7] = [
    ("NAME", Kind::Char, 5, 0, 0),
    ("COUNT", Kind::Zoned, 2, 0, 5),
    ("BALANCE", Kind::Packed, 5, 2, 7),
    ("POINTS", Kind::Binary, 9, 0, 10),
    ("SINCE", Kind::Date, 10, 0, 14),
    ("OPENS", Kind::Time, 8, 0, 24),
    ("SEEN", Kind::Stamp, 26, 0, 32),
];

/// `ABC`, filled with blanks; -12; -0.01; 999,999,999; 2023-02-28; 08.30.00; 2024-02-29-23.59.59.000001.
const RECORD: [u8; 58] = [
    0xC1, 0xC2, 0xC3, 0x40, 0x40, // NAME
    0xF1, 0xD2, // COUNT
    0x00, 0x00, 0x1D, // BALANCE
    0x3B, 0x9A, 0xC9, 0xFF, // POINTS
    0xF2, 0xF0, 0xF2, 0xF3, 0x60, 0xF0, 0xF2, 0x60, 0xF2, 0xF8, // SINCE
    0xF0, 0xF8, 0x4B, 0xF3, 0xF0, 0x4B, 0xF0, 0xF0, // OPENS
    0xF2, 0xF0, 0xF2, 0xF4, 0x60, 0xF0, 0xF2, 0x60, 0xF2, 0xF9, 0x60, // SEEN, its date
    0xF2, 0xF3, 0x4B, 0xF5, 0xF9, 0x4B, 0xF5, 0xF9, 0x4B, 0xF0, 0xF0, 0xF0, 0xF0, 0xF0, 0xF1,
];

/// 2023-02-29.
const NO_DATE: [u8; 10] = [0xF2, 0xF0, 0xF2, 0xF3, 0x60, 0xF0, 0xF2, 0x60, 0xF2, 0xF9];

/// 24.00.00.
const NO_TIME: [u8; 8] = [0xF2, 0xF4, 0x4B, 0xF0, 0xF0, 0x4B, 0xF0, 0xF0];

/// A text, or a number's units and scale.
#[derive(Clone, Copy)]
enum Given {
    Chars(&'static [u8]),
    Number(i128, u8),
}

/// A field, numbered from 1, a value that it refuses, and why.
const REFUSED: [(u16, Given, ValueFault); 12] = [
    (1, Given::Number(1, 0), ValueFault::WrongKind),
    (1, Given::Chars(b"123456"), ValueFault::TooWide),
    (2, Given::Chars(&[0xF1, 0xF2]), ValueFault::WrongKind),
    (2, Given::Number(15, 1), ValueFault::TooManyDecimals),
    (2, Given::Number(100, 0), ValueFault::TooWide),
    (3, Given::Number(1, 3), ValueFault::TooManyDecimals),
    (3, Given::Number(1000, 0), ValueFault::TooWide),
    (4, Given::Number(1_000_000_000, 0), ValueFault::TooWide),
    (5, Given::Chars(&NO_DATE), ValueFault::BadDate),
    (5, Given::Number(0, 0), ValueFault::WrongKind),
    (6, Given::Chars(&NO_TIME), ValueFault::BadDate),
    (7, Given::Chars(&NO_DATE), ValueFault::BadDate),
];

/// Bytes of the record, what they become, and the place that is bad then.
const BAD: [(&[(usize, u8)], usize); 13] = [
    (&[(5, 0x00)], 5),
    (&[(6, 0x12)], 6),
    (&[(7, 0xA0)], 7),
    (&[(9, 0x15)], 9),
    (&[(12, 0xCA)], 12),
    (&[(14, 0x00)], 14),
    (&[(22, 0xF3)], 22),
    (&[(23, 0xF9)], 23),
    (&[(24, 0xF3)], 24),
    (&[(35, 0xF3)], 41),
    (&[(57, 0x40)], 57),
    // Two fields are bad.
    (&[(14, 0x00), (5, 0x00)], 5),
    (&[(23, 0xF9), (24, 0xF3)], 23),
];

fn named(name: &str) -> Result<Name, Fail> {
    Ok(Name::from_bytes(name.as_bytes()).ok_or("no name")?)
}

fn text(alloc: Global, bytes: &[u8]) -> Result<Value, AllocError> {
    Ok(Value::Chars(Text::from_slice(alloc, bytes)?))
}

fn number(units: i128, scale: u8) -> Value {
    Value::Number(Dec { units, scale })
}

/// Adds a field with its name as its text, and with 0 as its default.
fn push(
    rt: &impl Abort,
    alloc: Global,
    fields: &mut Fields,
    name: &str,
    ty: FieldType,
) -> Result<(), Fail> {
    assert!(rt; is_allowed(&ty));
    assert!(rt; fields.as_slice().len() < MOST_FIELDS);
    let end = (fields.bytes() as usize).saturating_add(width(&ty));
    assert!(rt; end <= MOST_BYTES as usize);
    let label = Text::from_slice(alloc, name.as_bytes())?;
    Ok(fields.push(named(name)?, ty, number(0, 0), label)?)
}

fn customer(rt: &impl Abort, alloc: Global) -> Result<Format, Fail> {
    let mut fields = Fields::new(alloc);
    for (name, kind, length, decimals, _) in &FIELDS {
        let ty = FieldType {
            kind: *kind,
            length: *length,
            decimals: *decimals,
        };
        push(rt, alloc, &mut fields, name, ty)?;
    }
    Ok(Format {
        name: named("CUSTR")?,
        fields,
    })
}

/// The values of the record, the first with this many of its characters.
fn customer_values(alloc: Global, characters: usize) -> Result<Vec<Value>, Fail> {
    Ok(vec![in alloc;
        text(alloc, RECORD.get(..characters).ok_or("no text")?)?,
        number(-12, 0),
        number(-1, 2),
        number(999_999_999, 0),
        text(alloc, &RECORD[14..24])?,
        text(alloc, &RECORD[24..32])?,
        text(alloc, &RECORD[32..])?,
    ]?)
}

#[test]
fn fields_lie_in_order(rt: HostRuntime) -> Result<(), Fail> {
    let format = customer(&rt, rt.alloc())?;
    let copy = format.copied(rt.alloc())?;
    assert!(rt; copy.name == format.name);
    assert_eq!(rt; (format.length(), copy.length()), (58, 58));
    assert_eq!(rt; (format.fields.bytes(), copy.fields.bytes()), (58, 58));
    check_fields(&rt, rt.alloc(), format.fields.as_slice())?;
    check_fields(&rt, rt.alloc(), copy.fields.as_slice())
}

fn check_fields(rt: &impl Abort, alloc: Global, fields: &[Field]) -> Result<(), Fail> {
    assert_eq!(rt; fields.len(), FIELDS.len());
    for (field, wanted) in fields.iter().zip(&FIELDS) {
        let (name, kind, length, decimals, offset) = *wanted;
        let copy = field.copied(alloc)?;
        assert_eq!(rt; copy.name.as_bytes(), name.as_bytes());
        assert!(rt;
            copy.ty
                == FieldType {
                    kind,
                    length,
                    decimals
                }
        );
        assert_eq!(rt; copy.offset, offset, "{name}");
        assert!(rt; copy.default == number(0, 0));
        assert_eq!(rt; copy.text.as_bytes(), name.as_bytes());
    }
    Ok(())
}

#[test]
fn packs(rt: HostRuntime) -> Result<(), Fail> {
    let format = customer(&rt, rt.alloc())?;
    let values = customer_values(rt.alloc(), 3)?;
    match format.pack(rt.alloc(), values.as_slice()) {
        Ok(image) => assert_eq!(rt; image.as_slice(), RECORD.as_slice()),
        Err(_) => panic!(rt; "refused"),
    }
    let few = values.as_slice().get(..6).ok_or("no values")?;
    let count = format.pack(rt.alloc(), few).err();
    assert!(rt; count == Some(PackFault::Refused(RecordFault::Count)));
    Ok(())
}

#[test]
fn refuses(rt: HostRuntime) -> Result<(), Fail> {
    let format = customer(&rt, rt.alloc())?;
    check_refused(&rt, rt.alloc(), &format, &REFUSED)?;
    let mut values = customer_values(rt.alloc(), 3)?;
    values.push(number(0, 0))?;
    let count = format.pack(rt.alloc(), values.as_slice()).err();
    assert!(rt; count == Some(PackFault::Refused(RecordFault::Count)));
    Ok(())
}

/// Each value alone, and with a last field that refuses its own.
fn check_refused(
    rt: &impl Abort,
    alloc: Global,
    format: &Format,
    rows: &[(u16, Given, ValueFault)],
) -> Result<(), Fail> {
    for (field, given, cause) in rows {
        let mut values = customer_values(alloc, 3)?;
        put(rt, alloc, values.as_mut_slice(), *field, *given)?;
        let wanted = PackFault::Refused(RecordFault::BadField {
            field: *field,
            cause: *cause,
        });
        assert!(rt;
            format.pack(alloc, values.as_slice()).err() == Some(wanted),
            "{field}"
        );
        if *field < 7 {
            put(rt, alloc, values.as_mut_slice(), 7, Given::Number(0, 0))?;
            assert!(rt;
                format.pack(alloc, values.as_slice()).err() == Some(wanted),
                "{field}"
            );
        }
    }
    Ok(())
}

fn put(
    rt: &impl Abort,
    alloc: Global,
    values: &mut [Value],
    field: u16,
    given: Given,
) -> Result<(), AllocError> {
    let place = usize::from(field);
    assert!(rt; 1 <= place && place <= values.len());
    values[place - 1] = match given {
        Given::Chars(bytes) => text(alloc, bytes)?,
        Given::Number(units, scale) => number(units, scale),
    };
    Ok(())
}

/// BALANCE is given, 12.34; COUNT, BALANCE and POINTS have 0, their default.
const CHANGES: [(usize, &[u8]); 3] = [
    (5, &[0xF1, 0xD2]),
    (7, &[0x01, 0x23, 0x4F]),
    (10, &[0x3B, 0x9A, 0xC9, 0xFF]),
];

const DEFAULTS: [(usize, &[u8]); 3] = [
    (5, &[0xF0, 0xF0]),
    (7, &[0x00, 0x00, 0x0F]),
    (10, &[0x00, 0x00, 0x00, 0x00]),
];

/// The record with these bytes in place of its own.
fn changed(rt: &impl Abort, changes: &[(usize, &[u8])]) -> [u8; 58] {
    let mut image = RECORD;
    for (from, bytes) in changes {
        for (i, byte) in bytes.iter().enumerate() {
            let place = from.saturating_add(i);
            assert!(rt; place < image.len());
            image[place] = *byte;
        }
    }
    image
}

#[test]
fn packs_given_values(rt: HostRuntime) -> Result<(), Fail> {
    let alloc = rt.alloc();
    let format = customer(&rt, alloc)?;
    assert_eq!(rt; RECORD.len(), format.length() as usize);
    // The others keep what stands in the old record.
    let balance = vec![in alloc; None, None, Some(number(1234, 2)), None, None, None, None]?;
    assert!(rt; format.first_refused(balance.as_slice(), Some(&RECORD)) == None);
    match format.pack_given(alloc, balance.as_slice(), Some(&RECORD)) {
        Ok(image) => assert_eq!(rt; image.as_slice(), changed(&rt, &CHANGES).as_slice()),
        Err(_) => panic!(rt; "refused"),
    }
    // In a new record the first field has a number for its default.
    let fault = RecordFault::BadField {
        field: 1,
        cause: ValueFault::WrongKind,
    };
    assert!(rt; format.first_refused(balance.as_slice(), None) == Some(fault));
    let refused = format.pack_given(alloc, balance.as_slice(), None).err();
    assert!(rt; refused == Some(PackFault::Refused(fault)));
    let texts = vec![in alloc;
        Some(text(alloc, &RECORD[..3])?),
        None,
        None,
        None,
        Some(text(alloc, &RECORD[14..24])?),
        Some(text(alloc, &RECORD[24..32])?),
        Some(text(alloc, &RECORD[32..])?),
    ]?;
    match format.pack_given(alloc, texts.as_slice(), None) {
        Ok(image) => assert_eq!(rt; image.as_slice(), changed(&rt, &DEFAULTS).as_slice()),
        Err(_) => panic!(rt; "refused"),
    }
    let wide = vec![in alloc;
        None,
        Some(number(100, 0)),
        Some(number(1, 3)),
        None,
        None,
        None,
        None,
    ]?;
    let refused = format
        .pack_given(alloc, wide.as_slice(), Some(&RECORD))
        .err();
    let fault = RecordFault::BadField {
        field: 2,
        cause: ValueFault::TooWide,
    };
    assert!(rt; refused == Some(PackFault::Refused(fault)));
    let few = vec![in alloc; None, None]?;
    assert!(rt; format.first_refused(few.as_slice(), None) == Some(RecordFault::Count));
    let count = format
        .pack_given(alloc, few.as_slice(), Some(&RECORD))
        .err();
    assert!(rt; count == Some(PackFault::Refused(RecordFault::Count)));
    Ok(())
}

#[test]
fn unpacks(rt: HostRuntime) -> Result<(), Fail> {
    let format = customer(&rt, rt.alloc())?;
    let wanted = customer_values(rt.alloc(), 5)?;
    assert_eq!(rt; RECORD.len(), format.length() as usize);
    assert!(rt; format.first_bad(&RECORD) == None);
    match format.unpack(rt.alloc(), &RECORD) {
        Ok(values) => assert!(rt; values.as_slice() == wanted.as_slice()),
        Err(_) => panic!(rt; "nothing stands there"),
    }
    check_bad(&rt, rt.alloc(), &format, &BAD);
    Ok(())
}

fn check_bad(rt: &impl Abort, alloc: Global, format: &Format, rows: &[(&[(usize, u8)], usize)]) {
    for (changes, at) in rows {
        let mut image = RECORD;
        for (place, byte) in *changes {
            assert!(rt; *place < image.len());
            image[*place] = *byte;
        }
        assert_eq!(rt; image.len(), format.length() as usize);
        assert_eq!(rt; format.first_bad(&image), Some(*at));
        let fault = format.unpack(alloc, &image).err();
        assert!(rt;
            fault == Some(ImageFault::BadImage(BadImage { at: *at })),
            "{at}"
        );
    }
}

#[test]
fn format_without_fields(rt: HostRuntime) -> Result<(), Fail> {
    let format = Format {
        name: named("EMPTY")?,
        fields: Fields::new(rt.alloc()),
    };
    assert_eq!(rt; format.length(), 0);
    assert!(rt; format.first_bad(&[]) == None);
    assert!(rt;
        format
            .unpack(rt.alloc(), &[])
            .is_ok_and(|values| values.is_empty())
    );
    assert!(rt;
        format
            .pack(rt.alloc(), &[])
            .is_ok_and(|image| image.is_empty())
    );
    let count = format.pack(rt.alloc(), &[number(0, 0)]).err();
    assert!(rt; count == Some(PackFault::Refused(RecordFault::Count)));
    Ok(())
}
