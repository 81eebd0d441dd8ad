//! Which lines belong to which format, and which kind of file it is.
ghost use Rattle.std.specs.Prelude.{◌≡◌, nat_lt, length};
ghost use Rattle.std.specs.Option.{option_copied};
ghost use Rattle.std.specs.List.{list_any, before_first, prefix_len};
ghost use Rattle.dds_physical.specs.Reading.{is_record, is_condition, is_selection};
ghost use Rattle.dds_physical.specs.WholeFile.{is_field_kind, is_key_kind};
ghost use Rattle.dds_logical.specs.FormatLines.{formats_in, is_join_kind, based_on, is_join_keyword, is_join_file, is_multi_format};
ghost use Rattle.dds_logical.specs.Judged.{is_of, lines_of, stands_within};

use crate::keyword_names::has_name;
use dds_physical::dds_source::keywords::Keyword;
use dds_physical::dds_source::specifications::{Specification, SpecificationKind};

/// A kind of lines.
#[derive(Clone, Copy)]
pub(crate) enum LineKind {
    Record,
    Join,
    Field,
    Key,
    /// A select, an omit, or a further condition of one.
    Selection,
}

/// Whether a line is of this kind.
pub(crate) fn is_of(kind: LineKind, line: &Specification) -> bool
    ensures { result ≡ is_of kind line.now.kind }
{
    match kind {
        LineKind::Record => is_record(line.kind),
        LineKind::Join => is_join_kind(line.kind),
        LineKind::Field => is_field_kind(line.kind),
        LineKind::Key => is_key_kind(line.kind),
        LineKind::Selection => is_condition(line.kind),
    }
}

pub(crate) fn is_record(kind: SpecificationKind) -> bool
    ensures { result ≡ is_record kind }
{
    match kind {
        SpecificationKind::Record => true,
        SpecificationKind::Field
        | SpecificationKind::Key
        | SpecificationKind::Select
        | SpecificationKind::Omit
        | SpecificationKind::And
        | SpecificationKind::Join => false,
    }
}

pub(crate) fn is_join_kind(kind: SpecificationKind) -> bool
    ensures { result ≡ is_join_kind kind }
{
    match kind {
        SpecificationKind::Join => true,
        SpecificationKind::Record
        | SpecificationKind::Field
        | SpecificationKind::Key
        | SpecificationKind::Select
        | SpecificationKind::Omit
        | SpecificationKind::And => false,
    }
}

pub(crate) fn is_field_kind(kind: SpecificationKind) -> bool
    ensures { result ≡ is_field_kind kind }
{
    match kind {
        SpecificationKind::Field => true,
        SpecificationKind::Record
        | SpecificationKind::Key
        | SpecificationKind::Select
        | SpecificationKind::Omit
        | SpecificationKind::And
        | SpecificationKind::Join => false,
    }
}

fn is_key_kind(kind: SpecificationKind) -> bool
    ensures { result ≡ is_key_kind kind }
{
    match kind {
        SpecificationKind::Key => true,
        SpecificationKind::Record
        | SpecificationKind::Field
        | SpecificationKind::Select
        | SpecificationKind::Omit
        | SpecificationKind::And
        | SpecificationKind::Join => false,
    }
}

/// Whether it is a select or an omit.
pub(crate) fn is_selection(kind: SpecificationKind) -> bool
    ensures { result ≡ is_selection kind }
{
    match kind {
        SpecificationKind::Select | SpecificationKind::Omit => true,
        SpecificationKind::Record
        | SpecificationKind::Field
        | SpecificationKind::Key
        | SpecificationKind::And
        | SpecificationKind::Join => false,
    }
}

fn is_condition(kind: SpecificationKind) -> bool
    ensures { result ≡ is_condition kind }
{
    match kind {
        SpecificationKind::Select | SpecificationKind::Omit | SpecificationKind::And => true,
        SpecificationKind::Record
        | SpecificationKind::Field
        | SpecificationKind::Key
        | SpecificationKind::Join => false,
    }
}

/// The lines up to the next record format.
#[tactic(auto, using(crate::proofs::FormatLemmas::ahead_is, crate::proofs::FormatLemmas::ahead_short))]
pub(crate) fn lines_ahead(lines: &[Specification]) -> &[Specification]
    ensures { result.now ≡ before_first (λ s. is_record s.kind) lines.now }
{
    let count = count_ahead(lines);
    &lines[..count]
}

fn count_ahead(lines: &[Specification]) -> usize
    ensures { result ≡ prefix_len stands_within lines.now }
{
    let mut count = 0;
    for line in lines {
        if is_record(line.kind) {
            return count;
        }
        count += 1;
    }
    count
}

/// Whether there is a line of this kind.
pub(crate) fn has_lines(kind: LineKind, lines: &[Specification]) -> bool
    ensures { result ≡ list_any (λ s. is_of kind s.kind) lines.now }
{
    lines.iter().any(|line| is_of(kind, line))
}

/// How many lines are of this kind.
pub(crate) fn count_lines(kind: LineKind, lines: &[Specification]) -> usize
    ensures { result ≡ length (lines_of kind lines.now) }
{
    lines.iter().filter(|line| is_of(kind, line)).count()
}

/// The first of PFILE and JFILE.
pub(crate) fn based_on(keywords: &[Keyword]) -> Option<&Keyword>
    ensures { option_copied result ≡ based_on keywords.now }
{
    let mut rest = keywords;
    while let [keyword, more @ ..] = rest {
        if has_name(b"PFILE", keyword) || has_name(b"JFILE", keyword) {
            return Some(keyword);
        }
        rest = more;
    }
    None
}

fn is_join_keyword(keyword: Option<&Keyword>) -> bool
    ensures { result ≡ is_join_keyword (option_copied keyword.entry) }
{
    match keyword {
        Some(keyword) => has_name(b"JFILE", keyword),
        None => false,
    }
}

/// Whether the first format is over JFILE.
pub(crate) fn is_join_file(specifications: &[Specification]) -> bool
    ensures { result ≡ is_join_file (formats_in specifications.now) }
{
    let mut rest = specifications;
    while let [line, more @ ..] = rest {
        if is_record(line.kind) {
            return is_join_keyword(based_on(line.keywords.as_slice()));
        }
        rest = more;
    }
    false
}

/// Whether there are several formats.
#[tactic(auto, using(crate::proofs::FormatLemmas::formats_count))]
pub(crate) fn is_multi_format(specifications: &[Specification]) -> bool
    ensures { result ≡ is_multi_format (formats_in specifications.now) }
{
    count_lines(LineKind::Record, specifications) > 1
}
