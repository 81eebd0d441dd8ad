//! What is wrong with the formats of a file, and with the file as a whole.
ghost use Rattle.std.specs.Prelude.{◌≡◌, ◌++◌, ◌&&◌, ◌||◌, ◌==◌, false, not, length, is_none, is_some, Option, OnOk, codes, if◌then◌else◌};
ghost use Rattle.std.specs.Option.{option_copied};
ghost use Rattle.std.specs.List.{list_any};
ghost use Rattle.dds_physical.specs.Faults.{first_after};
ghost use Rattle.dds_physical.specs.Keywords.{first_named};
ghost use Rattle.dds_logical.specs.KeywordArguments.{names_among};
ghost use Rattle.dds_logical.specs.FormatLines.{formats_in, field_lines, based_on};
ghost use Rattle.dds_logical.specs.WholeFile.{is_no_base, base_faults, head_faults, formats_faults, lacks_format, format_missing_faults};
ghost use Rattle.dds_logical.specs.Judged.{is_fieldless_at, is_missing_base, lines_of};
ghost use Rattle.dds_logical.specs.declared.format_lines.LineKind.TheVariants as line_kinds;

use crate::arguments::argument_name;
use crate::bases::Bases;
use crate::fields::{note_names_twice, note_too_many};
use crate::first::{FirstFault, fault_at, file_fault, keyword_fault};
use crate::format_lines::{LineKind, based_on, has_lines, is_record, lines_ahead};
use crate::keyword_names::{arguments_of, first_named};
use crate::keyword_places::KeywordPlace;
use crate::keyword_rules::note_keywords;
use crate::limits::MOST_FORMATS;
use crate::names::name_of;
use dds_physical::dds_source::arguments::Argument;
use dds_physical::dds_source::faults::DdsCause;
use dds_physical::dds_source::keywords::Keyword;
use dds_physical::dds_source::specifications::Specification;
use field_types::names::Name;
use std::alloc::{AllocError, Global};

/// Whether the name, if there is one, is no physical file's.
fn is_missing_base<B: Bases>(bases: &B, file: &Option<Name>) -> bool
    ensures { result ≡ is_missing_base (B.bases bases.now) file.now }
{
    match file {
        Some(file) => bases.base(file).is_none(),
        None => false,
    }
}

/// Whether an argument names what is no physical file.
#[tactic(auto, using(crate::proofs::FormatLemmas::missing_cons))]
fn names_no_base<B: Bases>(bases: &B, arguments: &[Argument]) -> bool
    ensures { result ≡ list_any (is_no_base (B.bases bases.now)) (names_among arguments.now) }
{
    for argument in arguments {
        if is_missing_base(bases, &argument_name(argument)) {
            return true;
        }
    }
    false
}

/// Notes files that aren't there.
fn note_bases<B: Bases>(bases: &B, keyword: Option<&Keyword>, first: &mut FirstFault)
    ensures { first.new.fault ≡ first_after first.old.fault (base_faults (B.bases bases.now) (option_copied keyword.entry)) }
{
    if let Some(keyword) = keyword {
        first.note_if(
            names_no_base(bases, arguments_of(keyword)),
            keyword_fault(keyword, DdsCause::NoBase),
        );
    }
}

/// The keyword with the files of a format.
fn files_keyword(is_join: bool, keywords: &[Keyword]) -> Option<&Keyword>
    ensures { option_copied result ≡ first_named (if is_join then codes "JFILE" else codes "PFILE") keywords.now }
{
    if is_join {
        first_named(b"JFILE", keywords)
    } else {
        first_named(b"PFILE", keywords)
    }
}

/// Notes what is wrong with the line of a record format.
#[tactic(auto, using(dds_physical::proofs::FaultLemmas::first_after_append))]
pub(crate) fn note_head<B: Bases>(
    bases: &B,
    is_join: bool,
    line: &Specification,
    first: &mut FirstFault,
)
    ensures { first.new.fault ≡ first_after first.old.fault (head_faults (B.bases bases.now) is_join line.now) }
{
    let keywords = line.keywords.as_slice();
    first.note_if(
        name_of(line.name).is_none(),
        fault_at(line, 19, DdsCause::BadName),
    );
    note_keywords(is_join, KeywordPlace::Record, keywords, first);
    note_bases(bases, files_keyword(is_join, keywords), first);
}

/// Notes formats of one name, and more than a file has.
#[tactic(auto, using(dds_physical::proofs::FaultLemmas::first_after_append, crate::proofs::FormatLemmas::heads_are))]
pub(crate) fn note_formats(
    alloc: Global,
    specifications: &[Specification],
    first: &mut FirstFault,
) -> Result<(), AllocError>
    ensures { OnOk result (first.new.fault ≡ first_after first.old.fault (formats_faults (formats_in specifications.now))) }
{
    note_names_twice(alloc, LineKind::Record, specifications, first)?;
    note_too_many(LineKind::Record, MOST_FORMATS, specifications, first);
    Ok(())
}

/// Whether a format is over no file.
fn is_one_baseless(specifications: &[Specification]) -> bool
    ensures { result ≡ list_any (λ f. is_none (based_on f.head.keywords)) (formats_in specifications.now) }
{
    for line in specifications {
        if is_record(line.kind) && based_on(line.keywords.as_slice()).is_none() {
            return true;
        }
    }
    false
}

/// Whether there is no format.
fn has_no_format(specifications: &[Specification]) -> bool
    ensures { result ≡ (length (formats_in specifications.now) == 0) }
{
    !has_lines(LineKind::Record, specifications)
}

#[tactic(auto, using(crate::proofs::FormatLemmas::no_lines))]
fn has_no_fields(body: &[Specification]) -> bool
    ensures { result ≡ (length (lines_of line_kinds.Field body.now) == 0) }
{
    !has_lines(LineKind::Field, body)
}

/// Whether a line begins a format without lines of fields.
#[tactic(auto, unfolding(crate::specs::Judged::is_fieldless_at))]
fn is_fieldless_at(line: &Specification, more: &[Specification]) -> bool
    ensures { result ≡ is_fieldless_at line.now more.now }
{
    is_record(line.kind) && has_no_fields(lines_ahead(more))
}

/// Whether a format has no lines of fields.
fn is_one_fieldless(specifications: &[Specification]) -> bool
    ensures { result ≡ list_any (λ f. length (field_lines f) == 0) (formats_in specifications.now) }
{
    let mut rest = specifications;
    while !rest.is_empty() {
        let (here, more) = rest.split_at(1);
        if is_fieldless_at(&here[0], more) {
            return true;
        }
        rest = more;
    }
    false
}

/// Whether a file has no format, or one that is over no file, or a join format without fields.
fn lacks_format(is_join: bool, specifications: &[Specification]) -> bool
    ensures { result ≡ lacks_format is_join (formats_in specifications.now) }
{
    has_no_format(specifications)
        || is_one_baseless(specifications)
        || (is_join && is_one_fieldless(specifications))
}

/// Notes such a file.
pub(crate) fn note_format_missing(
    last_line: u32,
    is_join: bool,
    specifications: &[Specification],
    first: &mut FirstFault,
)
    ensures { first.new.fault ≡ first_after first.old.fault (format_missing_faults last_line is_join (formats_in specifications.now)) }
{
    first.note_if(
        lacks_format(is_join, specifications),
        file_fault(last_line, DdsCause::NoFormat),
    );
}
