//! The first of the faults that were found, and where a fault stands.
ghost use Rattle.std.specs.Prelude.{◌≡◌, [], ◌∷◌, None};
ghost use Rattle.dds_physical.specs.Faults.{earlier, first_after};
ghost use Rattle.dds_physical.specs.Entries.{when};
ghost use Rattle.std.specs.Option.{option_copied};
ghost use Rattle.dds_physical.specs.Places.{at_keyword, fault_at, fault_of_keyword};
ghost use Rattle.dds_physical.specs.WholeFile.{fault_of_file};

use dds_physical::dds_source::faults::{DdsCause, DdsFault};
use dds_physical::dds_source::keywords::Keyword;
use dds_physical::dds_source::specifications::Specification;

/// The first fault so far.
#[derive(Drop)]
pub(crate) struct FirstFault {
    pub(crate) fault: Option<DdsFault>,
}

impl FirstFault {
    pub(crate) fn none() -> FirstFault
        ensures { result.fault ≡ None }
    {
        FirstFault { fault: None }
    }

    /// Notes one more.
    pub(crate) fn note(&mut self, fault: DdsFault)
        ensures { self.new.fault ≡ first_after self.old.fault (fault ∷ []) }
    {
        let first = self.fault;
        self.fault = Some(earlier(first, fault));
    }

    /// Notes one more where something is wrong.
    pub(crate) fn note_if(&mut self, wrong: bool, fault: DdsFault)
        ensures { self.new.fault ≡ first_after self.old.fault (when wrong fault) }
    {
        if wrong {
            self.note(fault);
        }
    }

    /// Notes what is wrong with a keyword, if there is one.
    pub(crate) fn note_keyword(&mut self, keyword: Option<&Keyword>, cause: DdsCause)
        ensures { self.new.fault ≡ first_after self.old.fault (at_keyword cause (option_copied keyword.entry)) }
    {
        if let Some(keyword) = keyword {
            self.note(keyword_fault(keyword, cause));
        }
    }
}

/// A fault where a keyword stands.
pub(crate) fn keyword_fault(keyword: &Keyword, cause: DdsCause) -> DdsFault
    ensures { result ≡ fault_of_keyword cause keyword.now }
{
    DdsFault {
        line: keyword.line,
        column: keyword.column,
        cause,
    }
}

/// A fault at the entry of a line that begins in this column.
pub(crate) fn fault_at(specification: &Specification, column: u32, cause: DdsCause) -> DdsFault
    ensures { result ≡ fault_at specification.now column cause }
{
    DdsFault {
        line: specification.line,
        column,
        cause,
    }
}

/// A fault of the whole file.
pub(crate) fn file_fault(last_line: u32, cause: DdsCause) -> DdsFault
    ensures { result ≡ fault_of_file last_line cause }
{
    DdsFault {
        line: last_line,
        column: 1,
        cause,
    }
}

fn earlier(first: Option<DdsFault>, fault: DdsFault) -> DdsFault
    ensures { result ≡ earlier first fault }
{
    match first {
        Some(first) if !fault.is_before(&first) => first,
        _ => fault,
    }
}
