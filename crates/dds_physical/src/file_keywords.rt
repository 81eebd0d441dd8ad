//! The keywords of a file: what is wrong with them, and what the file as a whole lacks.
ghost use Rattle.std.specs.Prelude.{◌≡◌, ◌++◌, ◌||◌, not, nat_lt, codes, is_none, is_some, Option};
ghost use Rattle.std.specs.Option.{option_copied};
ghost use Rattle.std.specs.List.{list_any};
ghost use Rattle.record_fmt.specs.Layout.{record_length};
ghost use Rattle.dds_source.specs.Faults.{first_after};
ghost use Rattle.dds_source.specs.Entries.{when};
ghost use Rattle.dds_physical.specs.Keywords.{first_named};
ghost use Rattle.dds_physical.specs.WholeFile.{other_order, is_field_kind, is_key_kind, has_field, has_key, keyless_unique, reference_file_faults, file_faults, fault_of_file, whole_faults};

use crate::draft::{Draft, is_key_too_long};
use crate::first::{FirstFault, keyword_fault};
use crate::keyword_names::{Place, arguments_of, first_named, has_name};
use crate::keyword_rules::note_keywords;
use crate::references::is_file_missing;
use crate::refs::Refs;
use dds_source::faults::{DdsCause, DdsFault};
use dds_source::keywords::Keyword;
use dds_source::specifications::{Specification, SpecificationKind};
use record_fmt::formats::MOST_BYTES;

/// Notes what is wrong with the keywords of the file.
#[tactic(auto, using(crate::proofs::FaultLemmas::first_after_append))]
pub(crate) fn note_file<R: Refs>(
    refs: &R,
    keywords: &[Keyword],
    specifications: &[Specification],
    first: &mut FirstFault,
)
    ensures { first.new.fault ≡ first_after first.old.fault (file_faults (R.formats refs.now) keywords.now specifications.now) }
{
    note_keywords(Place::File, keywords, first);
    first.note_keyword(other_order(keywords), DdsCause::Conflict);
    first.note_keyword(
        keyless_unique(has_key(specifications), keywords),
        DdsCause::Conflict,
    );
    note_reference_file(refs, keywords, first);
}

/// The first keyword that asks for the other order than one before it.
fn other_order(keywords: &[Keyword]) -> Option<&Keyword>
    ensures { option_copied result ≡ other_order keywords.now }
{
    let mut rest = keywords;
    while let [keyword, more @ ..] = rest {
        if has_name(b"FIFO", keyword) {
            return first_named(b"LIFO", more);
        }
        if has_name(b"LIFO", keyword) {
            return first_named(b"FIFO", more);
        }
        rest = more;
    }
    None
}

/// UNIQUE in a file without a key.
fn keyless_unique(has_key: bool, keywords: &[Keyword]) -> Option<&Keyword>
    ensures { option_copied result ≡ keyless_unique has_key keywords.now }
{
    if has_key {
        None
    } else {
        first_named(b"UNIQUE", keywords)
    }
}

fn note_reference_file<R: Refs>(refs: &R, keywords: &[Keyword], first: &mut FirstFault)
    ensures { first.new.fault ≡ first_after first.old.fault (reference_file_faults (R.formats refs.now) (first_named (codes "REF") keywords.now)) }
{
    if let Some(keyword) = first_named(b"REF", keywords) {
        let missing = is_file_missing(refs, arguments_of(keyword));
        first.note_if(missing, keyword_fault(keyword, DdsCause::UnknownReference));
    }
}

fn has_field(specifications: &[Specification]) -> bool
    ensures { result ≡ has_field specifications.now }
{
    specifications.iter().any(|s| is_field_kind(s.kind))
}

fn is_field_kind(kind: SpecificationKind) -> bool
    ensures { result ≡ is_field_kind kind }
{
    match kind {
        SpecificationKind::Field => true,
        SpecificationKind::Record
        | SpecificationKind::Key
        | SpecificationKind::Select
        | SpecificationKind::Omit
        | SpecificationKind::And
        | SpecificationKind::Join => false,
    }
}

fn has_key(specifications: &[Specification]) -> bool
    ensures { result ≡ has_key specifications.now }
{
    specifications.iter().any(|s| is_key_kind(s.kind))
}

fn is_key_kind(kind: SpecificationKind) -> bool
    ensures { result ≡ is_key_kind kind }
{
    match kind {
        SpecificationKind::Key => true,
        SpecificationKind::Record
        | SpecificationKind::Field
        | SpecificationKind::Select
        | SpecificationKind::Omit
        | SpecificationKind::And
        | SpecificationKind::Join => false,
    }
}

/// Notes what is wrong with the file as a whole.
#[tactic(auto, using(crate::proofs::FaultLemmas::first_after_append))]
pub(crate) fn note_whole(
    last_line: u32,
    specifications: &[Specification],
    draft: &Draft,
    first: &mut FirstFault,
)
    ensures { first.new.fault ≡ first_after first.old.fault (whole_faults last_line specifications.now draft.now) }
{
    first.note_if(
        draft.fields.bytes() > MOST_BYTES,
        fault_of_file(last_line, DdsCause::TooLarge),
    );
    first.note_if(
        is_key_too_long(draft.key_parts.as_slice()),
        fault_of_file(last_line, DdsCause::TooLarge),
    );
    first.note_if(
        draft.name.is_none() || !has_field(specifications),
        fault_of_file(last_line, DdsCause::NoFormat),
    );
}

fn fault_of_file(last_line: u32, cause: DdsCause) -> DdsFault
    ensures { result ≡ fault_of_file last_line cause }
{
    DdsFault {
        line: last_line,
        column: 1,
        cause,
    }
}
