//! The order of keys at the edges of each type: as `compare` finds it in images, and as the bytes of the keys have it.
//! The rows are in `key_rows.rt` and `given_rows.rt`; keys of several fields are in `heads.rt`.
use crate::given_rows::{GIVEN, GivenRow};
use crate::images::has_key;
use crate::key_rows::{
    BINARY_NUMBERS, CHARACTERS, ImageRow, MOMENTS, PACKED_NUMBERS, TextRow, ZONED_NUMBERS,
};
use crate::keyed::{given_key, in_hex, key_of, part_at};
use key_order::comparing::compare;
use key_order::given::KeyFault;
use key_pages::Key;
use key_spec::KeyPart;
use std::alloc::{AllocError, Global};
use std::cmp::Ordering;
use std::process::Abort;
use std::test::Fail;

/// How the images of a row are written.
#[derive(Clone, Copy)]
enum Writing {
    Hex,
    Ascii,
}

/// An image of a row, and the place of its key, which images with equal keys share.
#[derive(Drop)]
struct Ranked {
    place: usize,
    image: Vec<u8>,
}

/// The characters of dates and times in code page 037.
fn in_code_page(alloc: Global, text: &str) -> Result<Vec<u8>, AllocError> {
    text.bytes().map(coded).collect(alloc)
}

fn coded(character: u8) -> u8 {
    match character {
        b'0'..=b'9' => character + 0xC0,
        b'-' => 0x60,
        b'.' => 0x4B,
        _ => 0x40,
    }
}

fn image_of(alloc: Global, text: &str, writing: Writing) -> Result<Vec<u8>, AllocError> {
    match writing {
        Writing::Hex => in_hex(alloc, text),
        Writing::Ascii => in_code_page(alloc, text),
    }
}

/// The images of a row: behind < those with greater keys, behind = those with equal ones.
fn images_of(alloc: Global, row: &str, writing: Writing) -> Result<Vec<Ranked>, AllocError> {
    let mut images = Vec::new(alloc);
    let mut place = 0;
    for word in row.split_ascii_whitespace() {
        match word {
            "<" => place = images.len(),
            "=" => {}
            _ => images.push(Ranked {
                place,
                image: image_of(alloc, word, writing)?,
            })?,
        }
    }
    Ok(images)
}

/// The keys of two images compare by their places, in bytes and as `compare` has it.
fn compares(
    rt: &impl Abort,
    alloc: Global,
    parts: &[KeyPart],
    first: &Ranked,
    second: &Ranked,
) -> Result<(), AllocError> {
    let (image, other) = (first.image.as_slice(), second.image.as_slice());
    let wanted = first.place.cmp(&second.place);
    assert!(rt; has_key(parts, image), "{image:?}");
    assert!(rt; has_key(parts, other), "{other:?}");
    assert!(rt;
        compare(parts, image, other) == wanted,
        "{image:?} {other:?}"
    );
    let key = key_of(rt, alloc, parts, image)?;
    let other_key = key_of(rt, alloc, parts, other)?;
    assert!(rt;
        key.as_bytes().cmp(&other_key.as_bytes()) == wanted,
        "{image:?} {other:?}"
    );
    Ok(())
}

/// Each image of a row compares with each.
fn stand_in_order(
    rt: &impl Abort,
    alloc: Global,
    part: KeyPart,
    images: &[Ranked],
) -> Result<(), AllocError> {
    for first in images {
        for second in images {
            compares(rt, alloc, &[part], first, second)?;
        }
    }
    Ok(())
}

fn images_stand_in_order(
    rt: &impl Abort,
    alloc: Global,
    rows: &[ImageRow],
) -> Result<(), AllocError> {
    for (kind, length, decimals, keywords, row) in rows {
        let images = images_of(alloc, row, Writing::Hex)?;
        let part = part_at(*kind, *length, *decimals, 0, *keywords);
        stand_in_order(rt, alloc, part, &images)?;
    }
    Ok(())
}

fn texts_stand_in_order(
    rt: &impl Abort,
    alloc: Global,
    rows: &[TextRow],
) -> Result<(), AllocError> {
    for (kind, length, keywords, row) in rows {
        let images = images_of(alloc, row, Writing::Ascii)?;
        let part = part_at(*kind, *length, 0, 0, *keywords);
        stand_in_order(rt, alloc, part, &images)?;
    }
    Ok(())
}

/// The value compares so with the images.
fn value_compares(
    rt: &impl Abort,
    alloc: Global,
    parts: &[KeyPart],
    value: &Key,
    images: &str,
    wanted: Ordering,
) -> Result<(), AllocError> {
    for word in images.split_ascii_whitespace() {
        let image = in_hex(alloc, word)?;
        let key = key_of(rt, alloc, parts, &image)?;
        assert!(rt; value.as_bytes().cmp(&key.as_bytes()) == wanted, "{word}");
    }
    Ok(())
}

fn values_stand_among_images(
    rt: &impl Abort,
    alloc: Global,
    rows: &[GivenRow],
) -> Result<(), KeyFault> {
    for (kind, length, decimals, keywords, given, before, equal, behind) in rows {
        let parts = [part_at(*kind, *length, *decimals, 0, *keywords)];
        let value = given_key(rt, alloc, &parts, &[*given])?;
        value_compares(rt, alloc, &parts, &value, before, Ordering::Greater)?;
        value_compares(rt, alloc, &parts, &value, equal, Ordering::Equal)?;
        value_compares(rt, alloc, &parts, &value, behind, Ordering::Less)?;
    }
    Ok(())
}

#[test]
fn values_stand_in_order(rt: HostRuntime) -> Result<(), Fail> {
    images_stand_in_order(&rt, rt.alloc(), &CHARACTERS)?;
    images_stand_in_order(&rt, rt.alloc(), &ZONED_NUMBERS)?;
    images_stand_in_order(&rt, rt.alloc(), &PACKED_NUMBERS)?;
    images_stand_in_order(&rt, rt.alloc(), &BINARY_NUMBERS)?;
    texts_stand_in_order(&rt, rt.alloc(), &MOMENTS)?;
    let compared = values_stand_among_images(&rt, rt.alloc(), &GIVEN);
    assert!(rt; compared.is_ok());
    Ok(())
}
