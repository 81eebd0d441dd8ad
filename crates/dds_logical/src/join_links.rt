//! Which file of a join is reached from which, by its J lines.
ghost use Rattle.std.specs.Prelude.{◌≡◌, ◌&&◌, ◌==◌, ◌++◌, filter, length, Some, None, if◌then◌else◌};
ghost use Rattle.std.specs.Option.{option_copied};
ghost use Rattle.dds_logical.specs.declared.format_lines.LineKind.TheVariants as line_kinds;
ghost use Rattle.dds_logical.specs.KeywordArguments.{names_among};
ghost use Rattle.dds_logical.specs.Judged.{first_line, lines_of};
ghost use Rattle.dds_logical.specs.JoinLines.{leads_to, lines_to, link_between, link_of, link_of_names, link_said, place_from};
ghost use Rattle.dds_logical.specs.JoinSteps.{link_of_given, reaches};

use crate::format_lines::{LineKind, is_of};
use crate::given_names::{GivenNames, given_names};
use crate::keyword_names::{arguments_of, first_named};
use dds_physical::dds_source::arguments::Argument;
use dds_physical::dds_source::keywords::Keyword;
use dds_physical::dds_source::specifications::Specification;
use field_types::names::Name;

/// The places of the two files that a J line joins, in JFILE and counted from 0.
#[derive(Clone, Copy)]
pub(crate) struct Link {
    pub(crate) from: usize,
    pub(crate) to: usize,
}

/// The place of a file in JFILE: the first of its name.
pub(crate) fn place_of(files: &[Name], name: &Name) -> Option<usize>
    ensures { result ≡ place_from 0 files.now name.now }
{
    let mut place = 0;
    let mut rest = files;
    while let [file, more @ ..] = rest {
        if *file == *name {
            return Some(place);
        }
        place += 1;
        rest = more;
    }
    None
}

/// From an earlier file to a later one.
fn link_between(from: Option<usize>, to: Option<usize>) -> Option<Link>
    ensures { result ≡ link_between from to }
{
    match (from, to) {
        (Some(from), Some(to)) if from < to => Some(Link { from, to }),
        _ => None,
    }
}

fn link_of_given(files: &[Name], given: GivenNames) -> Option<Link>
    ensures { result ≡ link_of_given files.now given }
{
    match given {
        GivenNames::Two(from, to) => link_between(place_of(files, &from), place_of(files, &to)),
        GivenNames::Nothing | GivenNames::One(_) | GivenNames::More(_, _) => None,
    }
}

/// The link that the arguments of JOIN say.
#[tactic(auto, using(crate::proofs::JoinLineLemmas::link_given))]
pub(crate) fn link_of_arguments(files: &[Name], arguments: &[Argument]) -> Option<Link>
    ensures { result ≡ link_of_names files.now (names_among arguments.now) }
{
    link_of_given(files, given_names(arguments))
}

/// Without JOIN the first of two files is joined to the second.
fn link_said(files: &[Name], keyword: Option<&Keyword>) -> Option<Link>
    ensures { result ≡ link_said files.now (option_copied keyword.entry) }
{
    match keyword {
        Some(keyword) => link_of_arguments(files, arguments_of(keyword)),
        None if files.len() == 2 => Some(Link { from: 0, to: 1 }),
        None => None,
    }
}

/// The link of a J line.
pub(crate) fn link_of(files: &[Name], line: &Specification) -> Option<Link>
    ensures { result ≡ link_of files.now line.now }
{
    link_said(files, first_named(b"JOIN", line.keywords.as_slice()))
}

fn leads_to(place: usize, link: Option<Link>) -> bool
    ensures { result ≡ leads_to place link }
{
    match link {
        Some(link) => link.to == place,
        None => false,
    }
}

/// Whether it is a J line, and reaches the file of this place.
#[tactic(auto, unfolding(crate::specs::JoinSteps::reaches))]
fn reaches(files: &[Name], line: &Specification, place: usize) -> bool
    ensures { result ≡ reaches files.now place line.now }
{
    is_of(LineKind::Join, line) && leads_to(place, link_of(files, line))
}

fn count_reaching(files: &[Name], lines: &[Specification], place: usize) -> usize
    ensures { result ≡ length (filter (λ s. reaches files.now place s) lines.now) }
{
    lines
        .iter()
        .filter(|line| reaches(files, line, place))
        .count()
}

/// How many J lines reach the file of this place.
#[tactic(auto, using(crate::proofs::JoinLineLemmas::reaching_are))]
pub(crate) fn count_to(files: &[Name], lines: &[Specification], place: usize) -> usize
    ensures { result ≡ length (lines_to files.now (lines_of line_kinds.Join lines.now) place) }
{
    count_reaching(files, lines, place)
}

fn first_reaching<'a>(
    files: &[Name],
    lines: &'a [Specification],
    place: usize,
) -> Option<&'a Specification>
    ensures { option_copied result ≡ first_line (filter (λ s. reaches files.now place s) lines.now) }
{
    let mut rest = lines;
    while let [line, more @ ..] = rest {
        if reaches(files, line, place) {
            return Some(line);
        }
        rest = more;
    }
    None
}

/// The first J line that reaches the file of this place.
#[tactic(auto, using(crate::proofs::JoinLineLemmas::reaching_are))]
pub(crate) fn first_to<'a>(
    files: &[Name],
    lines: &'a [Specification],
    place: usize,
) -> Option<&'a Specification>
    ensures { option_copied result ≡ first_line (lines_to files.now (lines_of line_kinds.Join lines.now) place) }
{
    first_reaching(files, lines, place)
}
