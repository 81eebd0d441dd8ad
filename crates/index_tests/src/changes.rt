//! Kept paths under random changes of their member, against a plain sort of its records.
use crate::followed::Followed;
use crate::orders::{
    Draws, Order, Place, Row, Standing, draw_row, image_of, key_by, other_with_key, standings,
};
use crate::record_paths::{by_name, by_number, by_size, is_record};
use key_pages::{Entry, EntryRef, Pages, Position};
use member_slots::slot::Slot;
use path_set::faults::PathFault;
use std::alloc::{AllocError, Global};
use std::process::Abort;
use std::test::Fail;

/// The records that are there before the first path.
const FIRST_RECORDS: u32 = 60;

/// The most slots.
const MOST_RECORDS: u32 = 240;

const STEPS: u32 = 3_000;

/// How many steps lie between two looks at the paths.
const STEPS_BETWEEN: u32 = 50;

/// How many keys are looked for in each path then.
const NEIGHBOURS: u32 = 8;

/// A path that is kept.
#[derive(Clone, Copy)]
struct KeptOrder {
    id: u64,
    order: Order,
}

fn on(entry: &Entry) -> Position<'_> {
    let EntryRef { key, format, rrn } = entry.borrowed();
    Position::On { key, format, rrn }
}

/// The pages have these records in this order, forward and back.
fn expect_records(rt: &impl Abort, pages: &Pages, wanted: &[Standing]) {
    let mut from = Position::Start;
    for standing in wanted {
        match pages.next_entry(&from) {
            Some(entry) => {
                assert_eq!(rt; (entry.format, entry.rrn), (0, standing.rrn));
                from = on(entry);
            }
            None => panic!(rt; "none is next, and not {}", standing.rrn),
        }
    }
    assert!(rt; pages.next_entry(&from).is_none());
    let mut from = Position::End;
    for standing in wanted.iter().rev() {
        match pages.prior_entry(&from) {
            Some(entry) => {
                assert_eq!(rt; (entry.format, entry.rrn), (0, standing.rrn));
                from = on(entry);
            }
            None => panic!(rt; "none is before, and not {}", standing.rrn),
        }
    }
    assert!(rt; pages.prior_entry(&from).is_none());
}

fn rrn_at(wanted: &[Standing], place: usize) -> u32 {
    wanted.get(place).map_or(0, |standing| standing.rrn)
}

/// So many records stand before the position, and the others past it.
fn expect_split(
    rt: &impl Abort,
    pages: &Pages,
    from: &Position<'_>,
    wanted: &[Standing],
    before: usize,
) {
    let next = pages.next_entry(from).map_or(0, |entry| entry.rrn);
    assert_eq!(rt; next, rrn_at(wanted, before));
    let prior = pages.prior_entry(from).map_or(0, |entry| entry.rrn);
    let wanted_prior = match before.checked_sub(1) {
        Some(last) => rrn_at(wanted, last),
        None => 0,
    };
    assert_eq!(rt; prior, wanted_prior);
}

/// The member with its paths, and what they should be.
#[derive(Drop)]
struct Tested {
    file: Followed,
    places: Vec<Place>,
    kept: Vec<KeptOrder>,
}

impl Tested {
    /// Some records, and no paths.
    fn new(rt: &impl Abort, alloc: Global, draws: &mut Draws) -> Result<Tested, AllocError> {
        let mut tested = Tested {
            file: Followed::new(alloc)?,
            places: Vec::new(alloc),
            kept: Vec::new(alloc),
        };
        for _ in 0..FIRST_RECORDS {
            tested.add(rt, alloc, draw_row(draws))?;
        }
        Ok(tested)
    }

    fn keep(&mut self, id: u64, order: Order) -> Result<(), AllocError> {
        self.kept.push(KeptOrder { id, order })?;
        Ok(())
    }

    /// Adds a record behind the last slot.
    fn add(&mut self, rt: &impl Abort, alloc: Global, row: Row) -> Result<(), AllocError> {
        self.file.add(image_of(rt, alloc, &row)?)?;
        let rrn = self.file.slots();
        let row = Some(row);
        self.places.push(Place { rrn, row })?;
        Ok(())
    }

    /// Puts a record into a slot, or deletes it.
    fn put(
        &mut self,
        rt: &impl Abort,
        alloc: Global,
        index: u32,
        row: Option<Row>,
    ) -> Result<(), AllocError> {
        assert!(rt; index < self.file.slots());
        match row {
            Some(row) => self
                .file
                .put(index + 1, Slot::Live(image_of(rt, alloc, &row)?))?,
            None => self.file.put(index + 1, Slot::Deleted)?,
        }
        match self.places.get_mut(index as usize) {
            Some(place) => place.row = row,
            None => panic!(rt; "slot {index}"),
        }
        Ok(())
    }

    /// Puts a record into a slot, and takes it back.
    fn put_and_take_back(
        &mut self,
        rt: &impl Abort,
        alloc: Global,
        index: u32,
        row: &Row,
    ) -> Result<(), AllocError> {
        assert!(rt; index < self.file.slots());
        let slot = Slot::Live(image_of(rt, alloc, row)?);
        self.file.put_and_take_back(index + 1, &slot)
    }

    /// Whether another record has the number. Each path finds the other record with the key that it has of the row.
    fn is_taken(&self, rt: &impl Abort, row: &Row, rrn: u32) -> Result<bool, AllocError> {
        assert!(rt; is_record(&row.image));
        for path in &self.kept {
            let found = self.file.clash(path.id, &row.image, rrn)?;
            assert_eq!(rt; found, other_with_key(path.order, &self.places, row, rrn));
        }
        Ok(other_with_key(Order::ByNumber, &self.places, row, rrn).is_some())
    }

    /// Some change of a record, unless another one has the number.
    fn step(
        &mut self,
        rt: &impl Abort,
        alloc: Global,
        draws: &mut Draws,
    ) -> Result<(), AllocError> {
        let slots = self.file.slots();
        assert!(rt; slots > 0);
        let index = draws.below(slots);
        let row = draw_row(draws);
        match draws.below(8) {
            0 => {
                // No slot has the number 0.
                if slots < MOST_RECORDS && !self.is_taken(rt, &row, 0)? {
                    self.add(rt, alloc, row)?;
                }
            }
            1 | 2 => self.put(rt, alloc, index, None)?,
            3 => self.put_and_take_back(rt, alloc, index, &row)?,
            _ => {
                if !self.is_taken(rt, &row, index + 1)? {
                    self.put(rt, alloc, index, Some(row))?;
                }
            }
        }
        Ok(())
    }

    /// The pages of a path.
    fn pages(&self, rt: &impl Abort, id: u64) -> &Pages {
        match self.file.pages(id) {
            Some(pages) => pages,
            None => panic!(rt; "path {id}"),
        }
    }

    /// The records on either side of a key, whether one has it or not.
    fn expect_neighbours(
        &self,
        rt: &impl Abort,
        alloc: Global,
        path: KeptOrder,
        wanted: &[Standing],
        row: &Row,
    ) -> Result<(), AllocError> {
        assert!(rt; is_record(&row.image));
        let Some(bytes) = self.file.key(alloc, path.id, &row.image)? else {
            panic!(rt; "path {}", path.id);
        };
        let pages = self.pages(rt, path.id);
        let key = key_by(path.order, row);
        let before = wanted.iter().filter(|other| other.key < key).count();
        let upto = wanted.iter().filter(|other| other.key <= key).count();
        expect_split(
            rt,
            pages,
            &Position::Before(bytes.as_bytes()),
            wanted,
            before,
        );
        expect_split(rt, pages, &Position::Past(bytes.as_bytes()), wanted, upto);
        Ok(())
    }

    /// Each path stands in its order, and no two records have one number.
    fn expect_paths(
        &self,
        rt: &impl Abort,
        alloc: Global,
        draws: &mut Draws,
    ) -> Result<(), AllocError> {
        for path in &self.kept {
            let wanted = standings(alloc, path.order, &self.places)?;
            expect_records(rt, self.pages(rt, path.id), &wanted);
            for _ in 0..NEIGHBOURS {
                let row = draw_row(draws);
                self.expect_neighbours(rt, alloc, *path, &wanted, &row)?;
            }
            assert!(rt; self.file.repeated_among(&[path.id]).is_none());
        }
        Ok(())
    }

    /// The least record whose number a later one has.
    fn first_repeated(&self) -> Option<u32> {
        for place in &self.places {
            if let Some(row) = place.row {
                if other_with_key(Order::ByNumber, &self.places, &row, place.rrn).is_some() {
                    return Some(place.rrn);
                }
            }
        }
        None
    }

    /// Deletes each record whose number a later one has.
    fn delete_repeated(&mut self, rt: &impl Abort, alloc: Global) -> Result<(), AllocError> {
        for _ in 0..FIRST_RECORDS {
            if let Some(rrn) = self.first_repeated() {
                assert!(rt; rrn > 0);
                self.put(rt, alloc, rrn - 1, None)?;
            }
        }
        Ok(())
    }

    /// Keeps the three paths. The numbers of the records are repeated at first.
    fn keep_all(&mut self, rt: &impl Abort, alloc: Global) -> Result<(), PathFault> {
        let id = self.file.attach(by_name(alloc)?)?;
        self.keep(id, Order::ByName)?;
        let id = self.file.attach(by_size(alloc)?)?;
        self.keep(id, Order::BySize)?;
        let repeated = self.first_repeated();
        match self.file.attach(by_number(alloc)?) {
            Err(PathFault::Equal { rrn }) => assert_eq!(rt; Some(rrn), repeated),
            _ => panic!(rt; "numbers are repeated"),
        }
        self.delete_repeated(rt, alloc)?;
        let id = self.file.attach(by_number(alloc)?)?;
        self.keep(id, Order::ByNumber)
            .map_err(|_| PathFault::NoMemory)
    }
}

#[test]
fn paths_follow_random_changes(rt: HostRuntime) -> Result<(), Fail> {
    let mut draws = Draws { state: 37 };
    let mut tested = Tested::new(&rt, rt.alloc(), &mut draws)?;
    let kept = tested.keep_all(&rt, rt.alloc());
    assert!(rt; kept.is_ok());
    tested.expect_paths(&rt, rt.alloc(), &mut draws)?;
    for step in 1..=STEPS {
        tested.step(&rt, rt.alloc(), &mut draws)?;
        if step % STEPS_BETWEEN == 0 {
            tested.expect_paths(&rt, rt.alloc(), &mut draws)?;
        }
    }
    Ok(())
}
