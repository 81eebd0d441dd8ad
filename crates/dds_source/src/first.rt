//! The first of the faults that were found.
ghost use Rattle.std.specs.Prelude.{◌≡◌, [], ◌∷◌, None};
ghost use Rattle.dds_source.specs.Faults.{rank, is_before, earlier, first_after};
ghost use Rattle.dds_source.specs.Entries.{when};

use crate::faults::{DdsCause, DdsFault};

impl DdsCause {
    /// Its place in the list of causes.
    fn rank(self) -> u8
        ensures { result ≡ rank self }
    {
        self as u8
    }
}

impl DdsFault {
    /// Whether it stands on an earlier line, or there in an earlier column, or there has an earlier cause.
    pub fn is_before(&self, other: &DdsFault) -> bool
        ensures { result ≡ is_before self.now other.now }
    {
        self.line < other.line
            || (self.line == other.line
                && (self.column < other.column
                    || (self.column == other.column && self.cause.rank() < other.cause.rank())))
    }
}

/// The first fault so far.
#[derive(Drop)]
pub(crate) struct FirstFault {
    pub(crate) fault: Option<DdsFault>,
}

impl FirstFault {
    pub(crate) fn none() -> FirstFault
        ensures { result.fault ≡ None }
    {
        FirstFault { fault: None }
    }

    /// Notes one more.
    pub(crate) fn note(&mut self, fault: DdsFault)
        ensures { self.new.fault ≡ first_after self.old.fault (fault ∷ []) }
    {
        let first = self.fault;
        self.fault = Some(earlier(first, fault));
    }

    /// Notes one more where something is wrong.
    pub(crate) fn note_if(&mut self, wrong: bool, fault: DdsFault)
        ensures { self.new.fault ≡ first_after self.old.fault (when wrong fault) }
    {
        if wrong {
            self.note(fault);
        }
    }
}

fn earlier(first: Option<DdsFault>, fault: DdsFault) -> DdsFault
    ensures { result ≡ earlier first fault }
{
    match first {
        Some(first) if !fault.is_before(&first) => first,
        _ => fault,
    }
}
