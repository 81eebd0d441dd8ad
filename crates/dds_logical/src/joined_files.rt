//! The secondary files of a join, and how each is reached.
ghost use Rattle.std.specs.Prelude.{◌≡◌, ◌≤◌, ◌++◌, ◌∷◌, [], List, drop, length, map, codes, Option, IfOk, OnOk};
ghost use Rattle.std.specs.Option.{option_copied};
ghost use Rattle.dds_logical.specs.declared.format_lines.LineKind.TheVariants as line_kinds;
ghost use Rattle.dds_logical.specs.Bases.{fields_of_file};
ghost use Rattle.dds_logical.specs.Judged.{first_line, lines_of};
ghost use Rattle.dds_logical.specs.JoinLines.{fields_at, joined_by, joined_by_first, joined_from, lines_to, link_of, place_or_first};
ghost use Rattle.dds_logical.specs.JoinSteps.{joined_if, joined_over};

use crate::bases::Bases;
use crate::join_lines::fields_of_place;
use crate::join_links::{Link, first_to, link_of};
use crate::join_pairs::{pairs_said, sequence_said};
use crate::join_views::JoinedFile;
use crate::keyword_names::first_named;
use crate::limits::MOST_JOINED;
use dds_physical::dds_source::specifications::Specification;
use field_types::lists::ListOf;
use field_types::names::Name;
use record_fmt::formats::Field;
use std::alloc::{AllocError, Global};

fn place_or_first(link: Option<Link>) -> usize
    ensures { result ≡ place_or_first link }
{
    match link {
        Some(link) => link.from,
        None => 0,
    }
}

/// A file that a line joins from a file of this place with these fields, and that has those.
fn joined_over(
    alloc: Global,
    file: Name,
    place: usize,
    from: &[Field],
    to: &[Field],
    line: &Specification,
) -> Result<JoinedFile, AllocError>
    requires { place ≤ MOST_JOINED }
    ensures { IfOk result (λ joined. joined ≡ joined_over file place from.now to.now line.now) }
{
    let keywords = line.keywords.as_slice();
    let pairs = pairs_said(alloc, from, to, keywords)?;
    Ok(JoinedFile {
        file,
        from: place as u32,
        pairs: ListOf::from_vec(pairs),
        sequence: sequence_said(to, first_named(b"JDUPSEQ", keywords)),
    })
}

/// The file of a place, reached by a line.
fn joined_by<B: Bases>(
    alloc: Global,
    bases: &B,
    files: &[Name],
    file: Name,
    place: usize,
    line: &Specification,
) -> Result<JoinedFile, AllocError>
    requires { length files.now ≤ MOST_JOINED }
    ensures { IfOk result (λ joined. joined ≡ joined_by (map (fields_of_file (B.bases bases.now)) files.now) file place (link_of files.now line.now) line.now) }
{
    let from = place_or_first(link_of(files, line));
    let base = fields_of_place(bases, files, from);
    let to = fields_of_place(bases, files, place);
    let joined = joined_over(alloc, file, from, base, to, line)?;
    Ok(joined)
}

/// Adds the file of a place, if a line reaches it.
fn add_joined<B: Bases>(
    alloc: Global,
    bases: &B,
    files: &[Name],
    file: Name,
    place: usize,
    line: Option<&Specification>,
    joined: &mut ListOf<JoinedFile>,
) -> Result<(), AllocError>
    requires { length files.now ≤ MOST_JOINED }
    ensures { OnOk result (joined.new ≡ joined.old ++ joined_if files.now (map (fields_of_file (B.bases bases.now)) files.now) file place (option_copied line.entry)) }
{
    match line {
        Some(line) => {
            let reached = joined_by(alloc, bases, files, file, place, line)?;
            joined.push(reached)
        }
        None => Ok(()),
    }
}

/// These files behind the first.
#[tactic(auto, using(crate::proofs::ListLemmas::joined))]
fn joined_behind<B: Bases>(
    alloc: Global,
    bases: &B,
    files: &[Name],
    secondaries: &[Name],
    lines: &[Specification],
) -> Result<ListOf<JoinedFile>, AllocError>
    requires { length files.now ≤ MOST_JOINED }
    ensures { IfOk result (λ joined. joined ≡ joined_from files.now (map (fields_of_file (B.bases bases.now)) files.now) (lines_of line_kinds.Join lines.now) 1 secondaries.now) }
{
    let mut joined = ListOf::new(alloc);
    let mut place = 1;
    let mut rest = secondaries;
    while let [file, more @ ..] = rest {
        let line = first_to(files, lines, place);
        add_joined(alloc, bases, files, *file, place, line, &mut joined)?;
        place += 1;
        rest = more;
    }
    Ok(joined)
}

/// The secondary files of a join.
pub(crate) fn joined_files<B: Bases>(
    alloc: Global,
    bases: &B,
    files: &[Name],
    lines: &[Specification],
) -> Result<ListOf<JoinedFile>, AllocError>
    requires { length files.now ≤ MOST_JOINED }
    ensures { IfOk result (λ joined. joined ≡ joined_from files.now (map (fields_of_file (B.bases bases.now)) files.now) (lines_of line_kinds.Join lines.now) 1 (drop 1 files.now)) }
{
    match files {
        [_, secondaries @ ..] => {
            let joined = joined_behind(alloc, bases, files, secondaries, lines)?;
            Ok(joined)
        }
        [] => Ok(ListOf::new(alloc)),
    }
}
