//! What the refusals carry, by `specs/Replies.antt`.
ghost use Rattle.std.specs.Prelude.{◌≡◌};
ghost use Rattle.statement_reader.specs.Words.{words};
ghost use Rattle.listing_reader.specs.Replies.{missing_of, missing_in, field_fault, record_fault_of, record_fault_in, dds_fault_in};

use dds_source::DdsFault;
use field_types::faults::RecordFault;
use library_model::replies::Missing;
use listing_words::choices::{cause_of, value_fault_of};
use listing_words::numbers::{number, number_in};
use listing_words::words::{given, name_of};

#[tactic(auto, unfolding(crate::specs::Replies::missing_of))]
fn missing_of(word: &[u8]) -> Option<Missing>
    ensures { result ≡ missing_of word.now }
{
    if let Some(receiver) = number(word) {
        return Some(Missing::Receiver(receiver));
    }
    match name_of(word) {
        Some(name) => Some(Missing::Name(name)),
        None => None,
    }
}

/// A name that isn't there, or a receiver's number.
#[tactic(auto, unfolding(crate::specs::Replies::missing_in))]
pub fn missing_in(text: &[u8]) -> Option<Missing>
    ensures { result ≡ missing_in (words text.now) }
{
    let Some(word) = given(text, b"NAME") else {
        return None;
    };
    missing_of(word)
}

#[tactic(auto, unfolding(crate::specs::Replies::field_fault))]
fn field_fault(field: u32, cause: &[u8]) -> Option<RecordFault>
    ensures { result ≡ field_fault field cause.now }
{
    let Some(cause) = value_fault_of(cause) else {
        return None;
    };
    if field <= 65535 {
        Some(RecordFault::BadField {
            field: field as u16,
            cause,
        })
    } else {
        None
    }
}

#[tactic(auto, unfolding(crate::specs::Replies::record_fault_of))]
fn record_fault_of(field: u32, cause: &[u8]) -> Option<RecordFault>
    ensures { result ≡ record_fault_of field cause.now }
{
    if cause == b"Count".as_slice() {
        Some(RecordFault::Count)
    } else {
        field_fault(field, cause)
    }
}

/// The field and the cause of a fault in values.
#[tactic(auto, unfolding(crate::specs::Replies::record_fault_in))]
pub fn record_fault_in(text: &[u8]) -> Option<RecordFault>
    ensures { result ≡ record_fault_in (words text.now) }
{
    let Some(field) = number_in(text, b"FLD") else {
        return None;
    };
    let Some(cause) = given(text, b"CAUSE") else {
        return None;
    };
    record_fault_of(field, cause)
}

/// The place and the cause of a fault in a source.
#[tactic(auto, unfolding(crate::specs::Replies::dds_fault_in))]
pub fn dds_fault_in(text: &[u8]) -> Option<DdsFault>
    ensures { result ≡ dds_fault_in (words text.now) }
{
    let Some(line) = number_in(text, b"LINE") else {
        return None;
    };
    let Some(column) = number_in(text, b"COL") else {
        return None;
    };
    let Some(word) = given(text, b"CAUSE") else {
        return None;
    };
    let Some(cause) = cause_of(word) else {
        return None;
    };
    Some(DdsFault {
        line,
        column,
        cause,
    })
}
