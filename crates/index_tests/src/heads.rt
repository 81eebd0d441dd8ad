//! Where a key of several fields stands to values that are given for the first of them, and to one that lacks a field.
use crate::given_rows::Given;
use crate::key_rows::Keywords;
use crate::keyed::{given_key, in_hex, key_of, part_at};
use field_types::kinds::Kind;
use key_order::given::KeyFault;
use key_order::widths::bound;
use key_pages::{Entry, Pages, Position, are_in_order};
use key_spec::KeyPart;
use std::alloc::{AllocError, Global};
use std::process::Abort;
use std::test::Fail;

/// A state, an amount that descends, and a number without its sign.
fn three_parts() -> [KeyPart; 3] {
    [
        part_at(Kind::Char, 2, 0, 0, Keywords::Neither),
        part_at(Kind::Packed, 3, 0, 2, Keywords::Descend),
        part_at(Kind::Binary, 4, 0, 4, Keywords::Absval),
    ]
}

/// Records in the order of their keys, in hex. They are numbered from 1.
const RECORDS: [&str; 7] = [
    "C140005F0000",
    "C140005CFFFF",
    "C140005D0000",
    "C1C2999F0000",
    "C1C2000F0007",
    "C1C2000DD8F1",
    "C240999D0000",
];

/// Values for the first fields; the first record that doesn't stand before all with these values, and the first that stands
/// past them. 8 is behind the last.
const HEADS: [(&[Given], u32, u32); 16] = [
    (&[], 1, 8),
    (&[Given::Text("")], 1, 1),
    (&[Given::Text("C1")], 1, 4),
    (&[Given::Text("C1C1")], 4, 4),
    (&[Given::Text("C1C2")], 4, 7),
    (&[Given::Text("C2")], 7, 8),
    (&[Given::Text("C3")], 8, 8),
    // A greater amount stands before.
    (&[Given::Text("C1"), Given::Number(6, 0)], 1, 1),
    (&[Given::Text("C1"), Given::Number(5, 0)], 1, 3),
    (&[Given::Text("C1"), Given::Number(0, 0)], 3, 3),
    (&[Given::Text("C1"), Given::Number(-999, 0)], 4, 4),
    (&[Given::Text("C1C2"), Given::Number(0, 0)], 5, 7),
    (&[Given::Text("C2"), Given::Number(-999, 0)], 7, 8),
    // The whole key, with the sign of the last number left out.
    (
        &[Given::Text("C1"), Given::Number(5, 0), Given::Number(1, 0)],
        2,
        3,
    ),
    (
        &[
            Given::Text("C1C2"),
            Given::Number(0, 0),
            Given::Number(-8, 0),
        ],
        6,
        6,
    ),
    (
        &[
            Given::Text("C1C2"),
            Given::Number(0, 0),
            Given::Number(9999, 0),
        ],
        6,
        7,
    ),
];

/// The bytes of a key by `three_parts`: a byte and 2 of text, a byte and 2 of three digits, a byte and 3 of four.
const KEY_BYTES: usize = 10;

/// The records by their keys, or none where these aren't in order.
fn in_pages(
    rt: &impl Abort,
    alloc: Global,
    parts: &[KeyPart],
    records: &[&str],
) -> Result<Option<Pages>, AllocError> {
    let mut entries = Vec::new(alloc);
    let mut rrn = 0;
    for record in records {
        rrn = u32::wrapping_add(rrn, 1);
        let image = in_hex(alloc, record)?;
        let key = key_of(rt, alloc, parts, &image)?;
        assert_eq!(rt; key.as_bytes().len(), KEY_BYTES);
        let format = 0;
        entries.push(Entry { key, format, rrn })?;
    }
    if are_in_order(&entries, false) {
        return Ok(Some(Pages::fill(alloc, false, entries)?));
    }
    Ok(None)
}

/// The records on either side of a position between this one and the one before it.
fn expect_between(rt: &impl Abort, pages: &Pages, from: &Position<'_>, next: u32) {
    let found = pages.next_entry(from).map_or(8, |entry| entry.rrn);
    assert_eq!(rt; found, next);
    let found = pages.prior_entry(from).map_or(0, |entry| entry.rrn);
    assert_eq!(rt; u32::wrapping_add(found, 1), next);
}

fn heads_stand_before_their_records(
    rt: &impl Abort,
    alloc: Global,
    parts: &[KeyPart],
    pages: &Pages,
) -> Result<(), KeyFault> {
    for (given, first, past) in &HEADS {
        let head = given_key(rt, alloc, parts, given)?;
        assert!(rt; head.as_bytes().len() <= KEY_BYTES);
        expect_between(rt, pages, &Position::Before(head.as_bytes()), *first);
        expect_between(rt, pages, &Position::Past(head.as_bytes()), *past);
    }
    Ok(())
}

#[test]
fn first_values_of_a_key(rt: HostRuntime) -> Result<(), Fail> {
    let parts = three_parts();
    assert_eq!(rt; bound(&parts), KEY_BYTES);
    let pages = in_pages(&rt, rt.alloc(), &parts, &RECORDS)?.ok_or("in order")?;
    let found = heads_stand_before_their_records(&rt, rt.alloc(), &parts, &pages);
    assert!(rt; found.is_ok());
    Ok(())
}

/// A position that a format lacks stands before each value of another format there, by which direction so ever.
#[test]
fn missing_positions_come_first(rt: HostRuntime) -> Result<(), Fail> {
    for keywords in [Keywords::Neither, Keywords::Descend] {
        let number = part_at(Kind::Packed, 1, 0, 0, keywords);
        let text = part_at(Kind::Char, 1, 0, 1, keywords);
        for image in [[0x9D, 0x00], [0x9F, 0xFF], [0x0D, 0x40]] {
            let whole = key_of(&rt, rt.alloc(), &[number, text], &image)?;
            let none = key_of(&rt, rt.alloc(), &[KeyPart::Absent, text], &image)?;
            assert!(rt; none.as_bytes().cmp(&whole.as_bytes()).is_lt());
            let first = key_of(&rt, rt.alloc(), &[number, KeyPart::Absent], &image)?;
            assert!(rt; first.as_bytes().cmp(&whole.as_bytes()).is_lt());
            assert!(rt; none.as_bytes().cmp(&first.as_bytes()).is_lt());
        }
    }
    Ok(())
}
