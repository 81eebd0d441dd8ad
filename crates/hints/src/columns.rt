//! Lines of sources whose entries stand in other columns than theirs.
use crate::hint::Hint;
use crate::lines::{InputLine, section};
use dds_source::{DdsCause, DdsFault, SourceError, read_source};
use std::alloc::{AllocError, Global};

/// The columns of a line of a source, to be read under one.
pub(crate) const RULER: &[u8] =
    b"....+....1....+....2....+....3....+....4....+....5....+....6....+....7....+....8";

/// The first fault of a source as a text, where it is in this line.
pub(crate) fn fault_in(
    alloc: Global,
    card: InputLine<'_>,
    line: u32,
) -> Result<Option<DdsFault>, AllocError> {
    match read_source(alloc, section(card.after)) {
        Ok(_) => Ok(None),
        Err(SourceError::NoMemory) => Err(AllocError),
        Err(SourceError::Fault(fault)) => {
            if card.number.saturating_add(fault.line) == line {
                Ok(Some(fault))
            } else {
                Ok(None)
            }
        }
    }
}

/// What stands where the fault is, if the line is in order.
pub(crate) fn column_hint(fault: DdsFault) -> Option<Hint<'static>> {
    let rule: &'static [u8] = match fault.cause {
        DdsCause::BadColumn => entry_rule(fault.column),
        DdsCause::BadName => name_rule(fault.column),
        DdsCause::BadNumber => number_rule(fault.column),
        DdsCause::UnfinishedText => {
            b": an apostrophe or a parenthesis isn't closed; a text goes on with + or - at its line's end"
        }
        DdsCause::OutOfOrder
        | DdsCause::DuplicateName
        | DdsCause::BadLength
        | DdsCause::BadDecimals
        | DdsCause::BadType
        | DdsCause::UnknownKeyword
        | DdsCause::BadArguments
        | DdsCause::Conflict
        | DdsCause::NoFormat
        | DdsCause::NoSuchField
        | DdsCause::UnknownReference
        | DdsCause::TooLarge
        | DdsCause::NoBase
        | DdsCause::NoBaseField
        | DdsCause::KeyMismatch
        | DdsCause::JoinKeyNotPrimary
        | DdsCause::ReadOnlyMapping
        | DdsCause::Narrowing => return None,
    };
    Some(Hint::Number(b"column ", fault.column, rule))
}

fn entry_rule(column: u32) -> &'static [u8] {
    match column {
        6 => b": column 6 has an A, or nothing",
        7 => b": column 7 has the * of a comment, or nothing",
        8..=16 =>
            b": columns 8 to 16 stay blank; R, K, S, O or J stands in 17, and a name begins in 19",
        17 => b": column 17 has R, K, S, O or J, or nothing",
        18 => b": column 18 stays blank, and a name begins in 19",
        29 => b": column 29 has the R of a reference, or nothing; a length ends in 34",
        _ => b": columns 39 to 44 stay blank, and keywords begin in 45",
    }
}

fn name_rule(column: u32) -> &'static [u8] {
    if column < 45 {
        b": a name begins in 19, with at most 10 letters, digits, $, #, @, _ and ."
    } else {
        b": a keyword has at most 10 letters and digits"
    }
}

fn number_rule(column: u32) -> &'static [u8] {
    match column {
        30 => b": a length stands in 30 to 34 and ends in 34",
        36 => b": decimal positions stand in 36 and 37 and end in 37",
        _ => b": a hexadecimal literal has pairs of digits, as X'00FF'",
    }
}
