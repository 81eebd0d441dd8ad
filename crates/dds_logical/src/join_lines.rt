//! What is wrong with the J lines of a join.
ghost use Rattle.std.specs.Prelude.{◌≡◌, ◌++◌, ◌&&◌, ◌||◌, ◌==◌, not, drop, flat_map, length, map, codes, is_none, true, Option, if◌then◌else◌};
ghost use Rattle.std.specs.Option.{option_copied};
ghost use Rattle.std.specs.List.{list_any};
ghost use Rattle.record_fmt.specs.Layout.{IsLaidOut};
ghost use Rattle.dds_physical.specs.Faults.{first_after};
ghost use Rattle.dds_physical.specs.Keywords.{first_named};
ghost use Rattle.dds_physical.specs.References.{file_of_keyword};
ghost use Rattle.dds_logical.specs.declared.format_lines.LineKind.TheVariants as line_kinds;
ghost use Rattle.dds_logical.specs.Bases.{fields_of_file};
ghost use Rattle.dds_logical.specs.KeywordArguments.{names_among};
ghost use Rattle.dds_logical.specs.Judged.{line_faults_of, lines_of};
ghost use Rattle.dds_logical.specs.JoinLines.{fields_at, is_link_wrong, is_one_unreached, is_sequence_missing, join_line_faults, link_faults, linked_faults, pair_faults, sequence_faults};
ghost use Rattle.dds_logical.specs.JoinSteps.{links_wrong};

use crate::bases::{Bases, fields_of_file, no_fields};
use crate::first::{FirstFault, keyword_fault};
use crate::format_lines::{LineKind, is_of};
use crate::given_names::are_two_names;
use crate::join_links::{Link, count_to, link_of, link_of_arguments};
use crate::join_pairs::{first_name, is_pair_mismatched, is_pair_missing, pair_said};
use crate::keyword_names::{arguments_of, first_named, has_name};
use crate::keyword_places::KeywordPlace;
use crate::keyword_rules::note_keywords;
use crate::names::field_named;
use dds_physical::dds_source::faults::DdsCause;
use dds_physical::dds_source::keywords::Keyword;
use dds_physical::dds_source::specifications::Specification;
use field_types::names::Name;
use record_fmt::formats::Field;

/// The fields of the file of a place.
#[tactic(auto, using(crate::proofs::JoinLineLemmas::fields_of_nth))]
pub(crate) fn fields_of_place<'a, B: Bases>(
    bases: &'a B,
    files: &[Name],
    place: usize,
) -> &'a [Field]
    ensures fields { result.now ≡ fields_at (map (fields_of_file (B.bases bases.now)) files.now) place }
    ensures laid_out { IsLaidOut result.now }
{
    match files.get(place) {
        Some(file) => fields_of_file(bases, file),
        None => no_fields(),
    }
}

/// Whether a line names two files, and joins no earlier one to a later one.
fn is_link_wrong(files: &[Name], keyword: Option<&Keyword>) -> bool
    ensures { result ≡ is_link_wrong files.now (option_copied keyword.entry) }
{
    match keyword {
        Some(keyword) => is_join_wrong(files, keyword),
        None => files.len() != 2,
    }
}

fn is_join_wrong(files: &[Name], keyword: &Keyword) -> bool
    ensures { result ≡ is_link_wrong files.now (Some keyword.now) }
{
    let arguments = arguments_of(keyword);
    are_two_names(arguments) && link_of_arguments(files, arguments).is_none()
}

/// Whether it is a J line whose link is wrong.
#[tactic(auto, unfolding(crate::specs::JoinSteps::links_wrong))]
fn links_wrong(files: &[Name], line: &Specification) -> bool
    ensures { result ≡ links_wrong files.now line.now }
{
    is_of(LineKind::Join, line)
        && is_link_wrong(files, first_named(b"JOIN", line.keywords.as_slice()))
}

fn one_links_wrong(files: &[Name], lines: &[Specification]) -> bool
    ensures { result ≡ list_any (λ s. links_wrong files.now s) lines.now }
{
    lines.iter().any(|line| links_wrong(files, line))
}

#[tactic(auto, using(crate::proofs::JoinLineLemmas::wrong_are))]
fn is_one_link_wrong(files: &[Name], lines: &[Specification]) -> bool
    ensures { result ≡ list_any (λ s. is_link_wrong files.now (first_named (codes "JOIN") s.keywords)) (lines_of line_kinds.Join lines.now) }
{
    one_links_wrong(files, lines)
}

/// Whether one of the secondary files isn't reached by exactly one line.
fn one_is_unreached(files: &[Name], secondaries: &[Name], lines: &[Specification]) -> bool
    ensures { result ≡ is_one_unreached files.now (lines_of line_kinds.Join lines.now) 1 secondaries.now }
{
    let mut place = 1;
    let mut rest = secondaries;
    while let [_, more @ ..] = rest {
        if count_to(files, lines, place) != 1 {
            return true;
        }
        place += 1;
        rest = more;
    }
    false
}

fn is_one_unreached(files: &[Name], lines: &[Specification]) -> bool
    ensures { result ≡ is_one_unreached files.now (lines_of line_kinds.Join lines.now) 1 (drop 1 files.now) }
{
    match files {
        [_, secondaries @ ..] => one_is_unreached(files, secondaries, lines),
        [] => false,
    }
}

/// Notes a JOIN that joins no earlier file to a later one, and files that aren't reached by exactly one.
pub(crate) fn note_links(
    files: &[Name],
    lines: &[Specification],
    keyword: Option<&Keyword>,
    first: &mut FirstFault,
)
    ensures { first.new.fault ≡ first_after first.old.fault (link_faults files.now (lines_of line_kinds.Join lines.now) (option_copied keyword.entry)) }
{
    if let Some(keyword) = keyword {
        first.note_if(
            is_one_link_wrong(files, lines) || is_one_unreached(files, lines),
            keyword_fault(keyword, DdsCause::BadArguments),
        );
    }
}

/// Notes fields of JFLD that aren't there, or don't go together.
#[tactic(auto, using(dds_physical::proofs::FaultLemmas::first_after_append))]
fn note_pair(from: &[Field], to: &[Field], keyword: &Keyword, first: &mut FirstFault)
    ensures { first.new.fault ≡ first_after first.old.fault (pair_faults from.now to.now keyword.now) }
{
    let pair = pair_said(from, to, keyword);
    first.note_if(
        has_name(b"JFLD", keyword) && is_pair_missing(pair),
        keyword_fault(keyword, DdsCause::NoSuchField),
    );
    first.note_if(
        is_pair_mismatched(pair),
        keyword_fault(keyword, DdsCause::KeyMismatch),
    );
}

#[tactic(auto, using(dds_physical::proofs::FaultLemmas::first_after_append))]
fn note_pairs(from: &[Field], to: &[Field], keywords: &[Keyword], first: &mut FirstFault)
    ensures { first.new.fault ≡ first_after first.old.fault (flat_map (pair_faults from.now to.now) keywords.now) }
{
    for keyword in keywords {
        note_pair(from, to, keyword, first);
    }
}

fn is_sequence_missing(to: &[Field], name: Option<Name>) -> bool
    ensures { result ≡ is_sequence_missing to.now name }
{
    match name {
        Some(name) => field_named(&name, to).is_none(),
        None => false,
    }
}

/// Notes a field of JDUPSEQ that isn't there.
fn note_sequence(to: &[Field], keyword: Option<&Keyword>, first: &mut FirstFault)
    ensures { first.new.fault ≡ first_after first.old.fault (sequence_faults to.now (option_copied keyword.entry)) }
{
    if let Some(keyword) = keyword {
        first.note_if(
            is_sequence_missing(to, first_name(keyword)),
            keyword_fault(keyword, DdsCause::NoSuchField),
        );
    }
}

/// Notes what is wrong with the fields that a line with a link names.
#[tactic(auto, using(dds_physical::proofs::FaultLemmas::first_after_append))]
fn note_fields_between(from: &[Field], to: &[Field], line: &Specification, first: &mut FirstFault)
    ensures { first.new.fault ≡ first_after first.old.fault (flat_map (pair_faults from.now to.now) line.now.keywords ++ sequence_faults to.now (first_named (codes "JDUPSEQ") line.now.keywords)) }
{
    let keywords = line.keywords.as_slice();
    note_pairs(from, to, keywords, first);
    note_sequence(to, first_named(b"JDUPSEQ", keywords), first);
}

fn note_linked<B: Bases>(
    bases: &B,
    files: &[Name],
    link: Option<Link>,
    line: &Specification,
    first: &mut FirstFault,
)
    ensures { first.new.fault ≡ first_after first.old.fault (linked_faults (map (fields_of_file (B.bases bases.now)) files.now) link line.now) }
{
    if let Some(link) = link {
        let from = fields_of_place(bases, files, link.from);
        let to = fields_of_place(bases, files, link.to);
        note_fields_between(from, to, line, first);
    }
}

/// Notes what is wrong with a line, if it is a J line.
#[tactic(auto, using(dds_physical::proofs::FaultLemmas::first_after_append), unfolding(crate::specs::Judged::line_faults_of))]
fn note_join_line<B: Bases>(bases: &B, files: &[Name], line: &Specification, first: &mut FirstFault)
    ensures { first.new.fault ≡ first_after first.old.fault (line_faults_of line_kinds.Join (join_line_faults files.now (map (fields_of_file (B.bases bases.now)) files.now)) line.now) }
{
    if is_of(LineKind::Join, line) {
        note_keywords(true, KeywordPlace::Join, line.keywords.as_slice(), first);
        note_linked(bases, files, link_of(files, line), line, first);
    }
}

#[tactic(auto, using(dds_physical::proofs::FaultLemmas::first_after_append))]
fn note_each_join_line<B: Bases>(
    bases: &B,
    files: &[Name],
    lines: &[Specification],
    first: &mut FirstFault,
)
    ensures { first.new.fault ≡ first_after first.old.fault (flat_map (line_faults_of line_kinds.Join (join_line_faults files.now (map (fields_of_file (B.bases bases.now)) files.now))) lines.now) }
{
    for line in lines {
        note_join_line(bases, files, line, first);
    }
}

/// Notes what is wrong with the J lines of a join.
#[tactic(auto, using(crate::proofs::LineLemmas::faults_of_kind))]
pub(crate) fn note_join_lines<B: Bases>(
    bases: &B,
    files: &[Name],
    lines: &[Specification],
    first: &mut FirstFault,
)
    ensures { first.new.fault ≡ first_after first.old.fault (flat_map (join_line_faults files.now (map (fields_of_file (B.bases bases.now)) files.now)) (lines_of line_kinds.Join lines.now)) }
{
    note_each_join_line(bases, files, lines, first);
}
