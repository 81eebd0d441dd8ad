//! The commit cycles seen on the way, each with what was seen of it, found by a hash.
ghost use Rattle.std.specs.Prelude.{◌≡◌, ◌+◌, ◌<◌, ◌≤◌, ◌==◌, [], OnOk};
ghost use Rattle.group_bounds.specs.Walk.{unmarked, with_mark, is_open, one_open, marks_at, marked, opens};

use indexmap::IndexMap;
use std::alloc::{AllocError, Global};
use std::marker::Model;

/// What an entry shows of a commit cycle.
#[derive(Clone, Copy)]
pub(crate) enum Mark {
    /// A change of the member.
    Change,
    Begin,
    End,
}

/// What was seen of a commit cycle.
#[derive(Clone, Copy)]
pub(crate) struct Marks {
    changed: bool,
    begun: bool,
    ended: bool,
}

impl Marks {
    const fn none() -> Marks
        ensures { result ≡ unmarked }
    {
        Marks {
            changed: false,
            begun: false,
            ended: false,
        }
    }

    fn with(self, mark: Mark) -> Marks
        ensures { result ≡ with_mark mark self }
    {
        match mark {
            Mark::Change => Marks {
                changed: true,
                ..self
            },
            Mark::Begin => Marks {
                begun: true,
                ..self
            },
            Mark::End => Marks {
                ended: true,
                ..self
            },
        }
    }

    // It changed the member, and isn't seen whole.
    fn is_open(self) -> bool
        ensures { result ≡ is_open self }
    {
        self.changed && !(self.begun && self.ended)
    }
}

/// Commit cycles, each with what was seen of it, in the order in which they came.
#[derive(Drop)]
pub(crate) struct Cycles {
    marks: IndexMap<u64, Marks>,
    /// How many are open.
    open_count: usize,
}

impl Model for Cycles {
    ghost use Rattle.std.specs.Prelude.{◌≡◌};
    ghost use Rattle.group_bounds.specs.Walk.{Cycles, opens};

    ghost Value = { Cycles };

    ghost view = { λ c. c.marks.entries };

    ghost invariant = { λ c. c.open_count ≡ opens c.marks.entries };
}

impl Cycles {
    /// No cycles.
    pub(crate) fn new(alloc: Global) -> Cycles
        ensures { result ≡ [] }
    {
        Cycles {
            marks: IndexMap::new(alloc),
            open_count: 0,
        }
    }

    /// Whether each cycle that changed the member is whole.
    pub(crate) fn are_whole(&self) -> bool
        ensures { result ≡ (opens self.now == 0) }
    {
        self.open_count == 0
    }

    fn marks(&self, cycle: u64) -> Marks
        ensures { result ≡ marks_at cycle self.now }
    {
        self.marks.get(&cycle).copied().unwrap_or(Marks::none())
    }

    /// Notes what was seen of a cycle.
    pub(crate) fn mark(&mut self, cycle: u64, mark: Mark) -> Result<(), AllocError>
        ensures { OnOk result (self.new ≡ marked cycle mark self.old) }
    {
        let before = self.marks(cycle);
        let after = before.with(mark);
        // No more of them are open than there are, so one more can be counted.
        let _count = self.marks.len();
        let _replaced = self.marks.insert(cycle, after)?;
        self.open_count = recounted(self.open_count, before, after);
        Ok(())
    }
}

// How many are open where so many were, and one of them was seen so before and is so now.
fn recounted(open_count: usize, before: Marks, after: Marks) -> usize
    requires room { open_count < usize.MAX }
    requires counted { one_open before ≤ open_count }
    ensures { result + one_open before ≡ open_count + one_open after }
{
    open_count + usize::from(after.is_open()) - usize::from(before.is_open())
}
