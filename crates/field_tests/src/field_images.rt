//! Fields by hand: what is written for values, what images stand for, and where they stop to. The rows stand in `test_rows.rt` and `test_images.rt`.
ghost use Rattle.std.specs.Prelude.{◌≡◌, length};
ghost use Rattle.field_values.specs.FieldTypes.{IsFieldType, width};

use crate::image_rows::{
    BINARY_IMAGES, ImageRow, MOMENTS, MomentRow, PACKED_IMAGES, WHOLE, ZONED_IMAGES,
};
use crate::value_rows::{
    BINARY, MISFITS, MisfitRow, NumberRow, PACKED, TEXTS, TYPES, TextRow, TypeRow, ZONED,
};
use field_types::faults::{BadImage, ValueFault};
use field_types::kinds::{FieldType, Kind};
use field_types::texts::Text;
use field_types::values::{Dec, Value};
use field_values::fields::{
    BLANK, ImageFault, fault, first_bad, is_allowed, is_numeric, number, put, take, value, width,
};
use std::alloc::{AllocError, Global};
use std::process::Abort;
use std::test::Fail;

/// What each byte of a field is before a value is put there.
const OLD: u8 = 0x5A;

fn field(rt: &impl Abort, kind: Kind, length: u16, decimals: u8) -> FieldType
    ensures { IsFieldType result }
{
    let t = FieldType {
        kind,
        length,
        decimals,
    };
    assert!(rt; is_allowed(&t));
    t
}

/// The value is written so, or refused with each byte as it was.
fn is_put(
    rt: &impl Abort,
    t: &FieldType,
    value: &Value,
    wanted: Result<&[u8], ValueFault>,
    row: usize,
)
    requires { IsFieldType t.now }
{
    let mut into = [OLD; 32];
    assert!(rt; width(t) <= into.len());
    let into = &mut into[..width(t)];
    assert!(rt; fault(t, value) == wanted.err(), "row {row}");
    let answer = put(t, value, into);
    match wanted {
        Ok(bytes) => {
            assert!(rt; answer == Ok(()), "row {row}");
            assert_eq!(rt; &*into, bytes, "row {row}");
        }
        Err(fault) => {
            assert!(rt; answer == Err(fault), "row {row}");
            assert!(rt; into.iter().all(|&byte| byte == OLD), "row {row}");
        }
    }
}

/// `take` in its two steps.
fn take_in_steps(alloc: Global, t: &FieldType, image: &[u8]) -> Result<Value, ImageFault>
    requires allowed { IsFieldType t.now }
    requires room { length image.now ≡ width t.now }
{
    match first_bad(t, image) {
        None if is_numeric(t.kind) => Ok(Value::Number(number(t, image))),
        None => Ok(value(alloc, t, image)?),
        Some(at) => Err(ImageFault::BadImage(BadImage { at })),
    }
}

fn is_number(
    rt: &impl Abort,
    answer: Result<Value, ImageFault>,
    wanted: Result<Dec, usize>,
    row: usize,
) {
    match (answer, wanted) {
        (Ok(Value::Number(number)), Ok(expected)) => assert!(rt; number == expected, "row {row}"),
        (Err(ImageFault::BadImage(bad)), Err(at)) => assert_eq!(rt; bad.at, at, "row {row}"),
        _ => panic!(rt; "row {row}"),
    }
}

fn is_text(
    rt: &impl Abort,
    answer: Result<Value, ImageFault>,
    wanted: Result<&[u8], usize>,
    row: usize,
) {
    match (answer, wanted) {
        (Ok(Value::Chars(text)), Ok(bytes)) => assert_eq!(rt; text.as_bytes(), bytes, "row {row}"),
        (Err(ImageFault::BadImage(bad)), Err(at)) => assert_eq!(rt; bad.at, at, "row {row}"),
        _ => panic!(rt; "row {row}"),
    }
}

fn types_agree(rt: &impl Abort, rows: &[TypeRow]) {
    for (row, (kind, length, decimals, wanted)) in rows.iter().enumerate() {
        let t = FieldType {
            kind: *kind,
            length: *length,
            decimals: *decimals,
        };
        assert_eq!(rt; is_allowed(&t), wanted.is_some(), "row {row}");
        if let Some(bytes) = wanted {
            assert_eq!(rt; width(&t), *bytes, "row {row}");
        }
    }
}

fn numbers_are_put(rt: &impl Abort, rows: &[NumberRow]) {
    for (row, (kind, length, decimals, units, scale, wanted)) in rows.iter().enumerate() {
        let t = field(rt, *kind, *length, *decimals);
        let number = Dec {
            units: *units,
            scale: *scale,
        };
        is_put(rt, &t, &Value::Number(number), *wanted, row);
    }
}

fn texts_are_put(rt: &impl Abort, alloc: Global, rows: &[TextRow]) -> Result<(), AllocError> {
    for (row, (kind, length, text, wanted)) in rows.iter().enumerate() {
        let t = field(rt, *kind, *length, 0);
        let text = Text::from_slice(alloc, text)?;
        is_put(rt, &t, &Value::Chars(text), *wanted, row);
    }
    Ok(())
}

fn misfits_are_refused(
    rt: &impl Abort,
    alloc: Global,
    rows: &[MisfitRow],
) -> Result<(), AllocError> {
    for (row, (kind, length, text, fault)) in rows.iter().enumerate() {
        let t = field(rt, *kind, *length, 0);
        let text = Text::from_vec(in_code_page(alloc, text)?);
        is_put(rt, &t, &Value::Chars(text), Err(*fault), row);
    }
    Ok(())
}

fn images_are_read(rt: &impl Abort, alloc: Global, rows: &[ImageRow]) {
    for (row, (kind, length, decimals, image, wanted)) in rows.iter().enumerate() {
        let t = field(rt, *kind, *length, *decimals);
        assert_eq!(rt; image.len(), width(&t), "row {row}");
        let scale = *decimals;
        let wanted = wanted.map(|units| Dec { units, scale });
        is_number(rt, take(alloc, &t, image), wanted, row);
        is_number(rt, take_in_steps(alloc, &t, image), wanted, row);
    }
}

/// The bytes are taken as they are and put as they are, or are a fault of the image from that place on and BadDate.
fn moment_agrees(
    rt: &impl Abort,
    alloc: Global,
    kind: Kind,
    bytes: &[u8],
    bad: Option<usize>,
    row: usize,
) -> Result<(), AllocError> {
    assert!(rt; bytes.len() <= 26, "row {row}");
    let t = field(rt, kind, bytes.len() as u16, 0);
    assert_eq!(rt; bytes.len(), width(&t), "row {row}");
    let wanted = bad.map_or(Ok(bytes), |at| Err(at));
    is_text(rt, take(alloc, &t, bytes), wanted, row);
    is_text(rt, take_in_steps(alloc, &t, bytes), wanted, row);
    let moment = Value::Chars(Text::from_slice(alloc, bytes)?);
    is_put(
        rt,
        &t,
        &moment,
        wanted.map_err(|_| ValueFault::BadDate),
        row,
    );
    Ok(())
}

fn moments_agree(rt: &impl Abort, alloc: Global, rows: &[MomentRow]) -> Result<(), AllocError> {
    for (row, (kind, text, bad)) in rows.iter().enumerate() {
        let bytes = in_code_page(alloc, text)?;
        moment_agrees(rt, alloc, *kind, bytes.as_slice(), *bad, row)?;
    }
    Ok(())
}

/// A blank in place of any character is the first bad one.
fn blanks_are_bad(
    rt: &impl Abort,
    alloc: Global,
    rows: &[(Kind, &'static str)],
) -> Result<(), AllocError> {
    for (kind, text) in rows {
        for place in 0..text.len() {
            let mut bytes = in_code_page(alloc, text)?;
            if let Some(character) = bytes.get_mut(place) {
                *character = BLANK;
            }
            moment_agrees(rt, alloc, *kind, bytes.as_slice(), Some(place), place)?;
        }
    }
    Ok(())
}

/// The characters in code page 037: digits, A to I, and the marks of dates and times; a blank for all others.
fn in_code_page(alloc: Global, text: &str) -> Result<Vec<u8>, AllocError> {
    text.bytes().map(coded).collect(alloc)
}

fn coded(character: u8) -> u8 {
    match character {
        b'0'..=b'9' => character + 0xC0,
        b'A'..=b'I' => character + 0x80,
        b'-' => 0x60,
        b'.' => 0x4B,
        _ => BLANK,
    }
}

#[test]
fn types(rt: HostRuntime) {
    types_agree(&rt, &TYPES);
}

#[test]
fn numbers(rt: HostRuntime) {
    numbers_are_put(&rt, &ZONED);
    numbers_are_put(&rt, &PACKED);
    numbers_are_put(&rt, &BINARY);
}

#[test]
fn texts(rt: HostRuntime) -> Result<(), Fail> {
    texts_are_put(&rt, rt.alloc(), &TEXTS)?;
    misfits_are_refused(&rt, rt.alloc(), &MISFITS)?;
    Ok(())
}

#[test]
fn characters(rt: HostRuntime) {
    let t = field(&rt, Kind::Char, 3, 0);
    let image = [0xC1, 0x40, 0x00];
    assert_eq!(rt; image.len(), width(&t));
    is_text(&rt, take(rt.alloc(), &t, &image), Ok(&image), 0);
    is_text(&rt, take_in_steps(rt.alloc(), &t, &image), Ok(&image), 1);
}

#[test]
fn images(rt: HostRuntime) {
    images_are_read(&rt, rt.alloc(), &ZONED_IMAGES);
    images_are_read(&rt, rt.alloc(), &PACKED_IMAGES);
    images_are_read(&rt, rt.alloc(), &BINARY_IMAGES);
}

#[test]
fn moments(rt: HostRuntime) -> Result<(), Fail> {
    moments_agree(&rt, rt.alloc(), &MOMENTS)?;
    blanks_are_bad(&rt, rt.alloc(), &WHOLE)?;
    Ok(())
}
