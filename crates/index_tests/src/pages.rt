//! Lists against tables that were worked out by hand: an entry is told by its relative record number, none by 0.

ghost use Rattle.std.specs.Prelude.{◌<◌};

use key_pages::{Entry, Key, Pages, Position, are_in_order, removal};
use std::alloc::{AllocError, Global};
use std::process::Abort;
use std::test::Fail;

const LONGEST: [u8; 120] = [0xff; 120];

/// Key, format and relative record number, out of order. By rising ties the order is 9 3 7 2 1 5 4 6.
const ENTRIES: [(&[u8], u16, u32); 8] = [
    (b"A", 2, 1),
    (b"B", 0, 4),
    (b"A", 0, 7),
    (&LONGEST, 0, 6),
    (b"", 0, 9),
    (b"A", 1, 2),
    (b"AB", 0, 5),
    (b"A", 0, 3),
];

/// A position, the next entry and the prior one, whichever way ties go.
const POSITIONS: [(Position<'static>, u32, u32); 10] = [
    (Position::Start, 9, 0),
    (Position::End, 0, 6),
    (Position::Before(b""), 9, 0),
    (Position::Past(b""), 0, 6),
    (Position::Before(b"AB"), 5, 1),
    (Position::Past(b"AB"), 4, 5),
    (Position::Before(b"AA"), 5, 1),
    (Position::Past(b"A"), 4, 5),
    (
        Position::On {
            key: b"B",
            format: 0,
            rrn: 4,
        },
        6,
        5,
    ),
    (
        Position::On {
            key: &LONGEST,
            format: 0,
            rrn: 6,
        },
        0,
        4,
    ),
];

/// The same among the ties of key A in format 0: first rising, then falling.
const TIES: [(bool, Position<'static>, u32, u32); 8] = [
    (false, Position::Before(b"A"), 3, 9),
    (
        false,
        Position::On {
            key: b"A",
            format: 0,
            rrn: 3,
        },
        7,
        9,
    ),
    (
        false,
        Position::On {
            key: b"A",
            format: 0,
            rrn: 5,
        },
        7,
        3,
    ),
    (
        false,
        Position::On {
            key: b"A",
            format: 0,
            rrn: 7,
        },
        2,
        3,
    ),
    (true, Position::Before(b"A"), 7, 9),
    (
        true,
        Position::On {
            key: b"A",
            format: 0,
            rrn: 7,
        },
        3,
        9,
    ),
    (
        true,
        Position::On {
            key: b"A",
            format: 0,
            rrn: 5,
        },
        3,
        7,
    ),
    (
        true,
        Position::On {
            key: b"A",
            format: 0,
            rrn: 3,
        },
        2,
        7,
    ),
];

fn entry(alloc: Global, key: &[u8], format: u16, rrn: u32) -> Result<Entry, AllocError> {
    Ok(Entry {
        key: Key::from_slice(alloc, key)?,
        format,
        rrn,
    })
}

// Removes it first, so that it isn't there.
fn put(list: &mut Pages, entry: Entry) -> Result<(), AllocError> {
    list.reserve(1)?;
    let _ = list.remove(&entry.borrowed());
    removal();
    list.insert_reserved(entry);
    Ok(())
}

fn filled(alloc: Global, falling: bool) -> Result<Pages, AllocError> {
    let mut list = Pages::new(alloc, falling);
    for (key, format, rrn) in ENTRIES {
        put(&mut list, entry(alloc, key, format, rrn)?)?;
    }
    Ok(list)
}

fn expect_near(rt: &impl Abort, list: &Pages, from: &Position<'_>, next: u32, prior: u32) {
    let found = list.next_entry(from).map_or(0, |entry| entry.rrn);
    assert_eq!(rt; found, next);
    let found = list.prior_entry(from).map_or(0, |entry| entry.rrn);
    assert_eq!(rt; found, prior);
}

fn expect_pages(rt: &impl Abort, list: &Pages, lengths: &[usize]) {
    assert_eq!(rt; list.page_count(), lengths.len());
    for (number, length) in lengths.iter().enumerate() {
        if number < list.page_count() {
            assert_eq!(rt; list.page_len(number), *length);
        }
    }
}

// The key of an entry is its number, so that they stand by number.
fn numbered(alloc: Global, number: u16) -> Result<Entry, AllocError> {
    entry(alloc, &number.to_be_bytes(), 0, u32::from(number))
}

fn insert_numbers(alloc: Global, list: &mut Pages, from: u16, upto: u16) -> Result<(), AllocError> {
    for number in from..upto {
        put(list, numbered(alloc, number)?)?;
    }
    Ok(())
}

fn remove_number(alloc: Global, list: &mut Pages, number: u16) -> Result<u32, AllocError> {
    let entry = numbered(alloc, number)?;
    Ok(
        list.remove(&entry.borrowed())
            .map_or(0, |removed| removed.rrn),
    )
}

// As in one sorted list: the entries on either side of a number between two that are there.
fn expect_between(rt: &impl Abort, list: &Pages, number: u16, next: u32, prior: u32) {
    let on = Position::On {
        key: &number.to_be_bytes(),
        format: 0,
        rrn: u32::from(number),
    };
    expect_near(rt, list, &on, next, prior);
}

// Numbers from 1 on, or none where they aren't in order.
fn filled_with(alloc: Global, count: u16) -> Result<Option<Pages>, AllocError> {
    let mut entries = Vec::new(alloc);
    for number in 1..=count {
        entries.push(numbered(alloc, number)?)?;
    }
    if are_in_order(&entries, false) {
        return Ok(Some(Pages::fill(alloc, false, entries)?));
    }
    Ok(None)
}

#[test]
fn entries_are_found_from_each_position(rt: HostRuntime) -> Result<(), Fail> {
    for falling in [false, true] {
        let list = filled(rt.alloc(), falling)?;
        for (from, next, prior) in &POSITIONS {
            expect_near(&rt, &list, from, *next, *prior);
        }
        for (ties, from, next, prior) in &TIES {
            if *ties == falling {
                expect_near(&rt, &list, from, *next, *prior);
            }
        }
    }
    Ok(())
}

#[test]
fn removals_hand_back_what_is_there(rt: HostRuntime) -> Result<(), Fail> {
    let mut list = Pages::new(rt.alloc(), false);
    expect_near(&rt, &list, &Position::Start, 0, 0);
    expect_near(&rt, &list, &Position::End, 0, 0);
    let only = entry(rt.alloc(), b"A", 0, 3)?;
    assert!(rt; list.remove(&only.borrowed()).is_none());
    put(&mut list, entry(rt.alloc(), b"A", 0, 3)?)?;
    expect_near(&rt, &list, &Position::Start, 3, 0);
    assert!(rt;
        list.remove(&entry(rt.alloc(), b"A", 1, 3)?.borrowed())
            .is_none()
    );
    let removed = list.remove(&only.borrowed()).ok_or("removed")?;
    assert_eq!(rt; removed.key.as_bytes(), b"A".as_slice());
    assert_eq!(rt; (removed.format, removed.rrn), (0, 3));
    expect_near(&rt, &list, &Position::Start, 0, 0);
    Ok(())
}

/// How many entries a list is filled with, and its pages.
const FILLED: [(u16, &[usize]); 10] = [
    (0, &[]),
    (1, &[1]),
    (96, &[96]),
    (97, &[48, 49]),
    (127, &[63, 64]),
    (128, &[96, 32]),
    (192, &[96, 96]),
    (193, &[96, 48, 49]),
    (223, &[96, 63, 64]),
    (224, &[96, 96, 32]),
];

#[test]
fn pages_are_filled(rt: HostRuntime) -> Result<(), Fail> {
    for (count, lengths) in &FILLED {
        let list = filled_with(rt.alloc(), *count)?.ok_or("in order")?;
        expect_pages(&rt, &list, lengths);
    }
    Ok(())
}

/// All numbers below this one are removed; the pages then, and the entries on either side of number 70.
const REMOVED: [(u16, &[usize], u32, u32); 5] = [
    (1, &[64, 65], 71, 69),
    (33, &[32, 65], 71, 69),
    (34, &[96], 71, 69),
    (35, &[95], 71, 69),
    (71, &[59], 71, 0),
];

#[test]
fn pages_split_and_join(rt: HostRuntime) -> Result<(), Fail> {
    let mut list = Pages::new(rt.alloc(), false);
    insert_numbers(rt.alloc(), &mut list, 1, 130)?;
    let mut removed = 1;
    for (upto, lengths, next, prior) in &REMOVED {
        for number in removed..*upto {
            assert_eq!(rt;
                remove_number(rt.alloc(), &mut list, number)?,
                u32::from(number)
            );
        }
        removed = *upto;
        expect_pages(&rt, &list, lengths);
        expect_between(&rt, &list, 70, *next, *prior);
    }
    Ok(())
}

#[test]
fn pages_share(rt: HostRuntime) -> Result<(), Fail> {
    let mut list = filled_with(rt.alloc(), 192)?.ok_or("in order")?;
    insert_numbers(rt.alloc(), &mut list, 193, 225)?;
    expect_pages(&rt, &list, &[96, 128]);
    for number in 1..65 {
        let _ = remove_number(rt.alloc(), &mut list, number)?;
    }
    expect_pages(&rt, &list, &[32, 128]);
    let _ = remove_number(rt.alloc(), &mut list, 65)?;
    expect_pages(&rt, &list, &[79, 80]);
    expect_between(&rt, &list, 144, 145, 143);
    expect_between(&rt, &list, 145, 146, 144);
    expect_between(&rt, &list, 224, 0, 223);
    Ok(())
}
