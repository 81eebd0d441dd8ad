//! What is wrong with a join format.
ghost use Rattle.std.specs.Prelude.{◌≡◌, ◌++◌, flat_map, codes, OnOk};
ghost use Rattle.dds_physical.specs.Faults.{first_after};
ghost use Rattle.dds_logical.specs.FormatLines.{formats_in};
ghost use Rattle.dds_logical.specs.Judged.{faults_at, format_with};
ghost use Rattle.dds_logical.specs.JoinViews.{join_faults};
ghost use Rattle.dds_logical.specs.JoinWhole.{field_faults_with, file_faults_with};

use crate::bases::Bases;
use crate::first::FirstFault;
use crate::format_lines::{is_record, lines_ahead};
use crate::join_field_faults::{note_join_fields, note_primary_keys};
use crate::join_fields::{PlacedFields, placed_fields};
use crate::join_lines::{note_join_lines, note_links};
use crate::joins_described::files_joined;
use crate::keys::{judged_parts, note_key_lines, note_sizes};
use crate::keyword_names::first_named;
use crate::whole_file::note_head;
use dds_physical::dds_source::specifications::Specification;
use field_types::names::Name;
use std::alloc::{AllocError, Global};

/// Notes what is wrong with the J lines of a join of these files, and with the files.
#[tactic(auto, using(dds_physical::proofs::FaultLemmas::first_after_append))]
fn note_files<B: Bases>(
    bases: &B,
    files: &[Name],
    line: &Specification,
    body: &[Specification],
    first: &mut FirstFault,
)
    ensures { first.new.fault ≡ first_after first.old.fault (file_faults_with (B.bases bases.now) files.now (format_with line.now body.now)) }
{
    let keyword = first_named(b"JFILE", line.keywords.as_slice());
    note_head(bases, true, line, first);
    note_links(files, body, keyword, first);
    note_join_lines(bases, files, body, first);
}

/// Notes what is wrong with the fields and the key of a join of these files.
#[tactic(auto, using(dds_physical::proofs::FaultLemmas::first_after_append))]
fn note_fields<B: Bases>(
    alloc: Global,
    bases: &B,
    last_line: u32,
    files: &[Name],
    placed: &PlacedFields,
    body: &[Specification],
    first: &mut FirstFault,
) -> Result<(), AllocError>
    ensures { OnOk result (first.new.fault ≡ first_after first.old.fault (field_faults_with (B.bases bases.now) last_line files.now placed.now.named placed.now.places body.now)) }
{
    let named = placed.named.as_slice();
    let parts = judged_parts(alloc, named, body)?;
    note_join_fields(alloc, bases, files, body, first)?;
    note_key_lines(alloc, true, false, named, body, first)?;
    note_primary_keys(named, placed.places.as_slice(), body, first);
    note_sizes(last_line, named, parts.as_slice(), body, first);
    Ok(())
}

/// Notes what is wrong with a join format.
fn note_join<B: Bases>(
    alloc: Global,
    bases: &B,
    last_line: u32,
    line: &Specification,
    body: &[Specification],
    first: &mut FirstFault,
) -> Result<(), AllocError>
    ensures { OnOk result (first.new.fault ≡ first_after first.old.fault (join_faults (B.bases bases.now) last_line (format_with line.now body.now))) }
{
    let names = files_joined(alloc, line)?;
    let files = names.as_slice();
    let placed = placed_fields(alloc, bases, files, body)?;
    note_files(bases, files, line, body, first);
    note_fields(alloc, bases, last_line, files, &placed, body, first)?;
    Ok(())
}

/// Notes what is wrong with the join format that a line begins, if it begins one.
#[tactic(auto, unfolding(crate::specs::Judged::faults_at))]
fn note_join_at<B: Bases>(
    alloc: Global,
    bases: &B,
    last_line: u32,
    line: &Specification,
    more: &[Specification],
    first: &mut FirstFault,
) -> Result<(), AllocError>
    ensures { OnOk result (first.new.fault ≡ first_after first.old.fault (faults_at (join_faults (B.bases bases.now) last_line) line.now more.now)) }
{
    if is_record(line.kind) {
        let body = lines_ahead(more);
        note_join(alloc, bases, last_line, line, body, first)
    } else {
        Ok(())
    }
}

/// Notes what is wrong with each join format, of which a file has one.
#[tactic(auto, using(dds_physical::proofs::FaultLemmas::first_after_append, crate::proofs::FormatLemmas::faults_more))]
pub(crate) fn note_joins<B: Bases>(
    alloc: Global,
    bases: &B,
    last_line: u32,
    specifications: &[Specification],
    first: &mut FirstFault,
) -> Result<(), AllocError>
    ensures { OnOk result (first.new.fault ≡ first_after first.old.fault (flat_map (join_faults (B.bases bases.now) last_line) (formats_in specifications.now))) }
{
    let mut rest = specifications;
    while !rest.is_empty() {
        let (here, more) = rest.split_at(1);
        note_join_at(alloc, bases, last_line, &here[0], more, first)?;
        rest = more;
    }
    Ok(())
}
