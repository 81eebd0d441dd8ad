//! Numbers by hand, at both ends of their digits and scales.
use decimal_order::order::compare;
use decimal_order::powers::{power_of_ten, widened};
use field_types::values::Dec;
use std::cmp::Ordering;
use std::process::Abort;

/// 31 digits, each of them 9.
const MOST: i128 = 9_999_999_999_999_999_999_999_999_999_999;

/// Units and scale of two numbers, the first of which is less, and of two that are equal.
type Row = (i128, u8, i128, u8);

const LESS: [Row; 14] = [
    (1, 0, 2, 0),
    (-2, 0, -1, 0),
    (-1, 0, 0, 0),
    (-1, 31, 0, 0),
    (-1, 0, 1, 0),
    (149, 2, 15, 1),
    (15, 1, 151, 2),
    (-151, 2, -15, 1),
    (MOST, 31, 1, 0),
    (-1, 0, -MOST, 31),
    (MOST, 31, MOST, 0),
    (-MOST, 0, -MOST, 31),
    // No type of the language holds these under one scale.
    (i128::MAX, 255, 1, 31),
    (i128::MIN, 0, i128::MIN, 1),
];

const EQUAL: [Row; 7] = [
    (0, 0, 0, 0),
    (0, 0, 0, 31),
    (0, 255, 0, 0),
    (15, 1, 150, 2),
    (-15, 1, -1500, 3),
    (1, 0, 10_000_000_000_000_000_000_000_000_000_000, 31),
    (MOST, 31, MOST, 31),
];

fn compares(rt: &impl Abort, rows: &[Row], wanted: Ordering) {
    for (row, (units, scale, other_units, other_scale)) in rows.iter().enumerate() {
        let first = Dec {
            units: *units,
            scale: *scale,
        };
        let second = Dec {
            units: *other_units,
            scale: *other_scale,
        };
        assert!(rt; compare(first, second) == wanted, "row {row}");
        assert!(rt; compare(second, first) == wanted.reverse(), "row {row}");
    }
}

#[test]
fn numbers(rt: HostRuntime) {
    compares(&rt, &LESS, Ordering::Less);
    compares(&rt, &EQUAL, Ordering::Equal);
}

#[test]
fn powers(rt: HostRuntime) {
    assert_eq!(rt; power_of_ten(0), Some(1));
    assert_eq!(rt; power_of_ten(31), Some(MOST + 1).map(i128::unsigned_abs));
    assert_eq!(rt; power_of_ten(39), None);
    assert_eq!(rt; widened(12, 3), Some(12_000));
    assert_eq!(rt; widened(0, 255), Some(0));
    assert_eq!(rt; widened(4, 38), None);
}
