//! Replies as they are printed, by `specs/ReplyText.antt`.
ghost use Rattle.std.specs.Prelude.{◌≡◌, ◌∷◌, ◌++◌, codes, OnOk};
ghost use Rattle.std.specs.Fmt.{decimal};
ghost use Rattle.listing.specs.Texts.{parameter, number_parameter, values_text};
ghost use Rattle.listing.specs.ReplyText.{job_name, limit_text, missing_text, value_cause, record_fault_parameters, dds_cause, dds_fault_parameters, answer, details, reply_text};

use crate::entries::{push_entries, push_range};
use crate::parameters::{push_name, push_number_parameter, push_parameter, push_values_parameter};
use call_tables::{keyword, reply_table};
use dds_source::{DdsCause, DdsFault};
use field_types::faults::{RecordFault, ValueFault};
use field_types::names::Name;
use library_model::replies::{LimitKind, Missing, RecordRead, Reply};
use std::alloc::AllocError;

/// Appends a reply: OK or the refusal's name, and what it carries. A job is shown by its name, the first of `names`
/// being job 1's.
#[tactic(auto, unfolding(crate::specs::ReplyText::reply_text))]
pub fn push_reply(out: &mut Vec<u8>, names: &[Name], reply: &Reply) -> Result<(), AllocError>
    ensures { OnOk result (out.new.items ≡ out.old.items ++ reply_text names.now reply.now) }
{
    out.extend_from_slice(answer(reply))?;
    push_details(out, names, reply)
}

macro_rules! answer_arms {
    (($reply:expr) $($group:ident { $($name:ident $answer:literal $fields:tt $parts:tt)* })*) => {
        match $reply {
            $($(Reply::$name { .. } => $answer,)*)*
        }
    };
}

macro_rules! detail_arms {
    (($out:expr, $names:expr, $reply:expr) $($group:ident { $($name:ident $answer:literal ($({ $($field:ident),* })? $(($held:ident))?) [$($codec:ident ($($keyword:ident)?; $($part:ident),*))*])* })*) => {
        match $reply {
            $($(Reply::$name $({ $($field),* })? $(($held))? => {
                $(push!($codec ($($keyword)?; $($part),*), $out, $names);)*
                Ok(())
            })*)*
        }
    };
}

// Appends a part of what a reply carries.
macro_rules! push {
    (name ($keyword:ident; $name:ident), $out:expr, $names:expr) => { push_name($out, keyword!($keyword), $name)? };
    (number ($keyword:ident; $number:ident), $out:expr, $names:expr) => { push_number_parameter($out, keyword!($keyword), u64::from(*$number))? };
    (sequence ($keyword:ident; $number:ident), $out:expr, $names:expr) => { push_number_parameter($out, keyword!($keyword), *$number)? };
    (long ($keyword:ident; $number:ident), $out:expr, $names:expr) => { push_number_parameter($out, keyword!($keyword), *$number)? };
    (job ($keyword:ident; $job:ident), $out:expr, $names:expr) => { push_parameter($out, keyword!($keyword), job_name($names, *$job))? };
    (limit_kind ($keyword:ident; $which:ident), $out:expr, $names:expr) => { push_parameter($out, keyword!($keyword), limit_text(*$which))? };
    (missing ($keyword:ident; $missing:ident), $out:expr, $names:expr) => { push_missing($out, keyword!($keyword), $missing)? };
    (record (; $read:ident), $out:expr, $names:expr) => { push_record($out, $read)? };
    (range (; $first:ident, $last:ident, $changes:ident), $out:expr, $names:expr) => { push_range($out, *$first, *$last, *$changes)? };
    (entries (; $entries:ident), $out:expr, $names:expr) => { push_entries($out, $entries.as_slice())? };
    (record_fault (; $fault:ident), $out:expr, $names:expr) => { push_record_fault($out, *$fault)? };
    (dds_fault (; $fault:ident), $out:expr, $names:expr) => { push_dds_fault($out, *$fault)? };
}

fn answer(reply: &Reply) -> &'static [u8]
    ensures { result.now ≡ answer reply.now }
{
    reply_table!(answer_arms!(reply))
}

fn push_details(out: &mut Vec<u8>, names: &[Name], reply: &Reply) -> Result<(), AllocError>
    ensures { OnOk result (out.new.items ≡ out.old.items ++ details names.now reply.now) }
{
    reply_table!(detail_arms!(out, names, reply))
}

fn push_record(out: &mut Vec<u8>, read: &RecordRead) -> Result<(), AllocError>
    ensures { OnOk result (out.new.items ≡ out.old.items ++ (parameter (codes "FMT") read.now.format ++ number_parameter (codes "RRN") read.now.rrn ++ parameter (codes "VAL") (values_text read.now.values))) }
{
    push_name(out, keyword!(Format), &read.format)?;
    push_number_parameter(out, keyword!(RecordNumber), u64::from(read.rrn))?;
    push_values_parameter(out, keyword!(Values), &read.values)
}

/// The name of the job with this number, from 1; empty where there is none.
pub fn job_name(names: &[Name], job: u32) -> &[u8]
    ensures { result.now ≡ job_name names.now job }
{
    match names.get(job.saturating_sub(1) as usize) {
        None => &[],
        Some(name) => name.as_bytes(),
    }
}

fn push_missing(out: &mut Vec<u8>, keyword: &[u8], missing: &Missing) -> Result<(), AllocError>
    ensures { OnOk result (out.new.items ≡ out.old.items ++ parameter keyword.now (missing_text missing.now)) }
{
    match missing {
        Missing::Name(name) => push_name(out, keyword, name),
        Missing::Receiver(number) => push_number_parameter(out, keyword, u64::from(*number)),
    }
}

fn push_record_fault(out: &mut Vec<u8>, fault: RecordFault) -> Result<(), AllocError>
    ensures { OnOk result (out.new.items ≡ out.old.items ++ record_fault_parameters fault) }
{
    match fault {
        RecordFault::Count => {
            push_number_parameter(out, keyword!(Field), 0)?;
            push_parameter(out, keyword!(Cause), b"Count")
        }
        RecordFault::BadField { field, cause } => {
            push_number_parameter(out, keyword!(Field), u64::from(field))?;
            push_parameter(out, keyword!(Cause), value_cause(cause))
        }
    }
}

fn push_dds_fault(out: &mut Vec<u8>, fault: DdsFault) -> Result<(), AllocError>
    ensures { OnOk result (out.new.items ≡ out.old.items ++ dds_fault_parameters fault) }
{
    push_number_parameter(out, keyword!(Line), u64::from(fault.line))?;
    push_number_parameter(out, keyword!(Column), u64::from(fault.column))?;
    push_parameter(out, keyword!(Cause), dds_cause(fault.cause))
}

fn limit_text(which: LimitKind) -> &'static [u8]
    ensures { result.now ≡ limit_text which }
{
    match which {
        LimitKind::Files => b"Files",
        LimitKind::Members => b"Members",
        LimitKind::MemberNumbers => b"MemberNumbers",
        LimitKind::Paths => b"Paths",
        LimitKind::Opens => b"Opens",
        LimitKind::Locks => b"Locks",
        LimitKind::LibraryBytes => b"LibraryBytes",
        LimitKind::GroupChanges => b"GroupChanges",
        LimitKind::GroupBytes => b"GroupBytes",
        LimitKind::BlockBytes => b"BlockBytes",
        LimitKind::DisplayEntries => b"DisplayEntries",
        LimitKind::Receivers => b"Receivers",
        LimitKind::Sequences => b"Sequences",
    }
}

fn value_cause(cause: ValueFault) -> &'static [u8]
    ensures { result.now ≡ value_cause cause }
{
    match cause {
        ValueFault::WrongKind => b"WrongKind",
        ValueFault::TooManyDecimals => b"TooManyDecimals",
        ValueFault::TooWide => b"TooWide",
        ValueFault::BadDate => b"BadDate",
        ValueFault::ReadOnlyField => b"ReadOnlyField",
    }
}

fn dds_cause(cause: DdsCause) -> &'static [u8]
    ensures { result.now ≡ dds_cause cause }
{
    match cause {
        DdsCause::BadColumn => b"BadColumn",
        DdsCause::BadName => b"BadName",
        DdsCause::BadNumber => b"BadNumber",
        DdsCause::UnfinishedText => b"UnfinishedText",
        DdsCause::OutOfOrder => b"OutOfOrder",
        DdsCause::DuplicateName => b"DuplicateName",
        DdsCause::BadLength => b"BadLength",
        DdsCause::BadDecimals => b"BadDecimals",
        DdsCause::BadType => b"BadType",
        DdsCause::UnknownKeyword => b"UnknownKeyword",
        DdsCause::BadArguments => b"BadArguments",
        DdsCause::Conflict => b"Conflict",
        DdsCause::NoFormat => b"NoFormat",
        DdsCause::NoSuchField => b"NoSuchField",
        DdsCause::UnknownReference => b"UnknownReference",
        DdsCause::TooLarge => b"TooLarge",
        DdsCause::NoBase => b"NoBase",
        DdsCause::NoBaseField => b"NoBaseField",
        DdsCause::KeyMismatch => b"KeyMismatch",
        DdsCause::JoinKeyNotPrimary => b"JoinKeyNotPrimary",
        DdsCause::ReadOnlyMapping => b"ReadOnlyMapping",
        DdsCause::Narrowing => b"Narrowing",
    }
}
