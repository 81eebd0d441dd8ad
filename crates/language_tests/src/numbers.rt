use field_types::texts::Text;
use field_types::values::{Dec, Value};
use script_numbers::order::order;
use script_numbers::products::product;
use script_numbers::sums::{difference, sum};
use script_numbers::zeros::whole;
use std::cmp::Ordering;
use std::process::Abort;
use std::test::Fail;

/// Units and scale.
type Number = (i128, u8);

/// One more than the greatest number of 31 digits.
const TOO_LONG: i128 = 10_000_000_000_000_000_000_000_000_000_000;

/// Left, right, their sum, difference and product.
type Row = (
    Number,
    Number,
    Option<Number>,
    Option<Number>,
    Option<Number>,
);

const ROWS: [Row; 12] = [
    // 1.5 and 0.25
    (
        (15, 1),
        (25, 2),
        Some((175, 2)),
        Some((125, 2)),
        Some((375, 3)),
    ),
    // 1.50 and 2.0: the zeros of a sum stay, those of a product go
    (
        (150, 2),
        (20, 1),
        Some((350, 2)),
        Some((-50, 2)),
        Some((3, 0)),
    ),
    // 2.5 and 0.4 make 1
    ((25, 1), (4, 1), Some((29, 1)), Some((21, 1)), Some((1, 0))),
    // 0.00 and 3
    (
        (0, 2),
        (3, 0),
        Some((300, 2)),
        Some((-300, 2)),
        Some((0, 0)),
    ),
    // -0.5 and 0.5
    (
        (-5, 1),
        (5, 1),
        Some((0, 1)),
        Some((-10, 1)),
        Some((-25, 2)),
    ),
    // whole zeros stay
    (
        (100, 0),
        (30, 0),
        Some((130, 0)),
        Some((70, 0)),
        Some((3000, 0)),
    ),
    // 31 digits and one more
    (
        (TOO_LONG - 1, 0),
        (1, 0),
        None,
        Some((TOO_LONG - 2, 0)),
        Some((TOO_LONG - 1, 0)),
    ),
    (
        (TOO_LONG - 1, 0),
        (1, 1),
        None,
        None,
        Some((TOO_LONG - 1, 1)),
    ),
    // a digit before the point counts: 30 decimals go, 31 don't
    (
        (1, 30),
        (1, 0),
        Some((1_000_000_000_000_000_000_000_000_000_001, 30)),
        Some((-999_999_999_999_999_999_999_999_999_999, 30)),
        Some((1, 30)),
    ),
    // and no product has 31 decimals, not even 0
    ((1, 31), (0, 0), None, None, None),
    // a sum that fits, of numbers that together leave 128 bits
    (
        (i128::MAX, 1),
        (-17_014_118_346_046_923_173_168_730_371_588_410_573, 0),
        Some((-3, 1)),
        None,
        None,
    ),
    (
        (i128::MIN, 1),
        (-17_014_118_346_046_923_173_168_730_371_588_410_573, 0),
        None,
        Some((2, 1)),
        None,
    ),
];

fn dec(number: Number) -> Dec {
    Dec {
        units: number.0,
        scale: number.1,
    }
}

fn pair(number: Option<Dec>) -> Option<Number> {
    match number {
        None => None,
        Some(number) => Some((number.units, number.scale)),
    }
}

fn calculates(rt: &impl Abort, rows: &[Row]) {
    for (row, (left, right, a, b, c)) in rows.iter().enumerate() {
        let left = dec(*left);
        let right = dec(*right);
        assert_eq!(rt; pair(sum(left, right)), *a, "sum of row {row}");
        assert_eq!(rt;
            pair(difference(left, right)),
            *b,
            "difference of row {row}"
        );
        assert_eq!(rt; pair(product(left, right)), *c, "product of row {row}");
    }
}

#[test]
fn calculations(rt: HostRuntime) {
    calculates(&rt, &ROWS);
}

/// Two numbers, and how they compare.
const NUMBERS: [(Number, Number, Ordering); 6] = [
    ((150, 2), (15, 1), Ordering::Equal),
    ((-1, 0), (-9, 1), Ordering::Less),
    ((0, 255), (0, 0), Ordering::Equal),
    ((1, 255), (0, 0), Ordering::Greater),
    ((i128::MIN, 200), (-1, 0), Ordering::Greater),
    ((i128::MAX, 0), (i128::MAX, 1), Ordering::Greater),
];

fn compare_numbers(rt: &impl Abort, rows: &[(Number, Number, Ordering)]) {
    for (row, (left, right, wanted)) in rows.iter().enumerate() {
        let left = Value::Number(dec(*left));
        let right = Value::Number(dec(*right));
        assert_eq!(rt; order(&left, &right), Some(*wanted), "row {row}");
    }
}

#[test]
fn numbers_compare(rt: HostRuntime) {
    compare_numbers(&rt, &NUMBERS);
}

/// Two texts in code page 037, and how they compare.
const TEXTS: [(&[u8], &[u8], Ordering); 5] = [
    (b"", b"", Ordering::Equal),
    (b"\xC1", b"\xC1\x40\x40", Ordering::Equal),
    (b"\xC1\x3F", b"\xC1", Ordering::Less),
    (b"\xC1", b"\xC1\xF1", Ordering::Less),
    (b"\xC2", b"\xC1\xF1", Ordering::Greater),
];

#[test]
fn texts_compare(rt: HostRuntime) -> Result<(), Fail> {
    for (row, (left, right, wanted)) in TEXTS.iter().enumerate() {
        let left = Value::Chars(Text::from_slice(rt.alloc(), left)?);
        let right = Value::Chars(Text::from_slice(rt.alloc(), right)?);
        assert_eq!(rt; order(&left, &right), Some(*wanted), "row {row}");
        let number = Value::Number(dec((0, 0)));
        assert_eq!(rt; order(&left, &number), None, "row {row}");
    }
    Ok(())
}

/// A number, and the whole number from 0 on that it is.
const WHOLES: [(Number, Option<u128>); 5] = [
    ((300, 2), Some(3)),
    ((305, 2), None),
    ((-300, 2), None),
    ((0, 255), Some(0)),
    ((7, 0), Some(7)),
];

fn finds_wholes(rt: &impl Abort, rows: &[(Number, Option<u128>)]) {
    for (row, (number, wanted)) in rows.iter().enumerate() {
        assert_eq!(rt; whole(dec(*number)), *wanted, "row {row}");
    }
}

#[test]
fn whole_numbers(rt: HostRuntime) {
    finds_wholes(&rt, &WHOLES);
}
