//! Records by their values, drawn at random, and their order by a plain sort. `changes.rt` compares the kept paths with it.
ghost use Rattle.std.specs.Prelude.{◌≡◌, ◌<◌, IfOk};
ghost use Rattle.index_tests.specs.MemberRecords.{IsRecord};

use crate::record_paths::{RECORD_BYTES, is_record};
use field_types::texts::Image;
use std::alloc::{AllocError, Global};
use std::process::Abort;

/// How many numbers records may have, and the least of them.
const NUMBERS: u32 = 600;

const LEAST_NUMBER: i16 = -300;

/// Names in the order of their bytes, and their places in it.
const NAMES: [(i16, [u8; 2]); 6] = [
    (0, [0x40, 0x40]),
    (1, [0x81, 0x40]),
    (2, [0xC1, 0x40]),
    (3, [0xC1, 0xC2]),
    (4, [0xE9, 0x40]),
    (5, [0xF1, 0x40]),
];

/// Amounts and their bytes, with every sign.
const AMOUNTS: [(i16, [u8; 2]); 10] = [
    (-999, [0x99, 0x9D]),
    (-10, [0x01, 0x0B]),
    (-2, [0x00, 0x2D]),
    (-1, [0x00, 0x1B]),
    (0, [0x00, 0x0D]),
    (0, [0x00, 0x0F]),
    (1, [0x00, 0x1C]),
    (2, [0x00, 0x2A]),
    (10, [0x01, 0x0E]),
    (999, [0x99, 0x9F]),
];

/// A linear congruence.
#[derive(Drop)]
pub(crate) struct Draws {
    pub(crate) state: u64,
}

impl Draws {
    /// A number below this one.
    pub(crate) fn below(&mut self, bound: u32) -> u32
        requires { 0 < bound }
        ensures { result < bound }
    {
        self.state = self
            .state
            .wrapping_mul(6_364_136_223_846_793_005)
            .wrapping_add(1_442_695_040_888_963_407);
        ((self.state >> 33) % u64::from(bound)) as u32
    }
}

/// The values of a record, and its image.
#[derive(Clone, Copy)]
pub(crate) struct Row {
    name: i16,
    amount: i16,
    number: i16,
    pub(crate) image: [u8; RECORD_BYTES],
}

/// A slot of the member; it is deleted where there are no values.
#[derive(Clone, Copy)]
pub(crate) struct Place {
    pub(crate) rrn: u32,
    pub(crate) row: Option<Row>,
}

/// The order of a path.
#[derive(Clone, Copy)]
pub(crate) enum Order {
    ByName,
    BySize,
    ByNumber,
}

/// A key's values, turned so that they ascend.
#[derive(Clone, Copy, PartialEq, Eq, PartialOrd, Ord)]
pub(crate) struct Ascending {
    first: i64,
    second: i64,
}

/// Where a record stands: by its key, and among equal keys by its number.
#[derive(Clone, Copy, PartialEq, Eq, PartialOrd, Ord)]
pub(crate) struct Standing {
    pub(crate) key: Ascending,
    tie: i64,
    pub(crate) rrn: u32,
}

pub(crate) fn draw_row(draws: &mut Draws) -> Row {
    let (name, [n, m]) = NAMES[draws.below(6) as usize];
    let (amount, [a, b]) = AMOUNTS[draws.below(10) as usize];
    let number = (draws.below(NUMBERS) as i16).wrapping_add(LEAST_NUMBER);
    let [high, low] = number.to_be_bytes();
    Row {
        name,
        amount,
        number,
        image: [n, m, a, b, high, low],
    }
}

pub(crate) fn image_of(rt: &impl Abort, alloc: Global, row: &Row) -> Result<Image, AllocError>
    ensures { IfOk result (λ image. IsRecord image) }
{
    let image = Image::from_slice(alloc, &row.image)?;
    assert!(rt; is_record(image.as_bytes()));
    Ok(image)
}

pub(crate) fn key_by(order: Order, row: &Row) -> Ascending {
    let (first, second) = match order {
        Order::ByName => (i64::from(row.name), i64::from(row.amount).wrapping_neg()),
        Order::BySize => (i64::from(row.amount.unsigned_abs()).wrapping_neg(), 0),
        Order::ByNumber => (i64::from(row.number), 0),
    };
    Ascending { first, second }
}

fn place_by(order: Order, rrn: u32, row: &Row) -> Standing {
    let tie = match order {
        Order::BySize => i64::from(rrn).wrapping_neg(),
        Order::ByName | Order::ByNumber => i64::from(rrn),
    };
    Standing {
        key: key_by(order, row),
        tie,
        rrn,
    }
}

/// The live records in the order.
pub(crate) fn standings(
    alloc: Global,
    order: Order,
    places: &[Place],
) -> Result<Vec<Standing>, AllocError> {
    let mut all = Vec::new(alloc);
    for place in places {
        if let Some(row) = place.row {
            all.push(place_by(order, place.rrn, &row))?;
        }
    }
    all.sort()?;
    Ok(all)
}

/// The least other record with the key, by a look at each.
pub(crate) fn other_with_key(order: Order, places: &[Place], row: &Row, rrn: u32) -> Option<u32> {
    let key = key_by(order, row);
    for place in places {
        if let Some(other) = place.row {
            if place.rrn != rrn && key_by(order, &other) == key {
                return Some(place.rrn);
            }
        }
    }
    None
}
