//! What is wrong with the fields and the key of a join format.
ghost use Rattle.std.specs.Prelude.{◌≡◌, ◌++◌, ◌&&◌, flat_map, map, nat_lt, length, codes, [], Some, None, Option, OnOk, if◌then◌else◌};
ghost use Rattle.std.specs.Option.{option_copied};
ghost use Rattle.dds_physical.specs.Faults.{first_after};
ghost use Rattle.dds_physical.specs.Keywords.{first_named};
ghost use Rattle.dds_physical.specs.Names.{name_of};
ghost use Rattle.dds_logical.specs.declared.format_lines.LineKind.TheVariants as line_kinds;
ghost use Rattle.dds_logical.specs.Bases.{fields_of_file};
ghost use Rattle.dds_logical.specs.Judged.{line_faults_of, lines_of};
ghost use Rattle.dds_logical.specs.JoinFields.{is_secondary, join_field_faults, join_fields_faults, placed_faults, several_faults};
ghost use Rattle.dds_logical.specs.JoinSteps.{is_secondary_named, key_place_faults};

use crate::bases::{Bases, no_fields};
use crate::fields::{note_field_entries, note_made, note_names_twice, note_too_many};
use crate::first::{FirstFault, fault_at, keyword_fault};
use crate::format_lines::{LineKind, is_of};
use crate::join_fields::{FieldPlace, are_several, place_named, place_of_line};
use crate::join_lines::fields_of_place;
use crate::keyword_names::first_named;
use crate::named_fields::NamedField;
use crate::names::name_of;
use dds_physical::dds_source::faults::DdsCause;
use dds_physical::dds_source::keywords::Keyword;
use dds_physical::dds_source::specifications::Specification;
use field_types::names::Name;
use record_fmt::formats::MOST_FIELDS;
use std::alloc::{AllocError, Global};

/// Notes what is wrong with what a field is made of, over the file of this place.
fn note_placed<B: Bases>(
    alloc: Global,
    bases: &B,
    files: &[Name],
    line: &Specification,
    place: Option<usize>,
    first: &mut FirstFault,
) -> Result<(), AllocError>
    ensures { OnOk result (first.new.fault ≡ first_after first.old.fault (placed_faults (map (fields_of_file (B.bases bases.now)) files.now) line.now place (first_named (codes "JREF") line.now.keywords))) }
{
    if let Some(place) = place {
        let base = fields_of_place(bases, files, place);
        return note_made(alloc, base, line, first);
    }
    match first_named(b"JREF", line.keywords.as_slice()) {
        Some(keyword) => {
            first.note(keyword_fault(keyword, DdsCause::BadArguments));
            Ok(())
        }
        None => note_made(alloc, no_fields(), line, first),
    }
}

/// Notes a field that several files have, and no JREF tells which.
fn note_several<B: Bases>(
    bases: &B,
    files: &[Name],
    line: &Specification,
    keyword: Option<&Keyword>,
    first: &mut FirstFault,
)
    ensures { first.new.fault ≡ first_after first.old.fault (several_faults (map (fields_of_file (B.bases bases.now)) files.now) line.now (option_copied keyword.entry)) }
{
    match keyword {
        Some(_) => {}
        None => first.note_if(
            are_several(bases, files, line),
            fault_at(line, 19, DdsCause::BadArguments),
        ),
    }
}

/// Notes what is wrong with a line, if it is a field's.
#[tactic(auto, using(dds_physical::proofs::FaultLemmas::first_after_append), unfolding(crate::specs::Judged::line_faults_of))]
fn note_join_field<B: Bases>(
    alloc: Global,
    bases: &B,
    files: &[Name],
    line: &Specification,
    first: &mut FirstFault,
) -> Result<(), AllocError>
    ensures { OnOk result (first.new.fault ≡ first_after first.old.fault (line_faults_of line_kinds.Field (join_field_faults files.now (map (fields_of_file (B.bases bases.now)) files.now)) line.now)) }
{
    if !is_of(LineKind::Field, line) {
        return Ok(());
    }
    let reference = first_named(b"JREF", line.keywords.as_slice());
    let place = place_of_line(bases, files, line);
    note_field_entries(true, line, first);
    note_placed(alloc, bases, files, line, place, first)?;
    note_several(bases, files, line, reference, first);
    Ok(())
}

#[tactic(auto, using(dds_physical::proofs::FaultLemmas::first_after_append))]
fn note_each_field<B: Bases>(
    alloc: Global,
    bases: &B,
    files: &[Name],
    lines: &[Specification],
    first: &mut FirstFault,
) -> Result<(), AllocError>
    ensures { OnOk result (first.new.fault ≡ first_after first.old.fault (flat_map (line_faults_of line_kinds.Field (join_field_faults files.now (map (fields_of_file (B.bases bases.now)) files.now))) lines.now)) }
{
    for line in lines {
        note_join_field(alloc, bases, files, line, first)?;
    }
    Ok(())
}

/// Notes what is wrong with the lines of the fields of a join format.
#[tactic(auto, using(dds_physical::proofs::FaultLemmas::first_after_append, crate::proofs::LineLemmas::faults_of_kind))]
pub(crate) fn note_join_fields<B: Bases>(
    alloc: Global,
    bases: &B,
    files: &[Name],
    lines: &[Specification],
    first: &mut FirstFault,
) -> Result<(), AllocError>
    ensures { OnOk result (first.new.fault ≡ first_after first.old.fault (join_fields_faults files.now (map (fields_of_file (B.bases bases.now)) files.now) (lines_of line_kinds.Field lines.now))) }
{
    note_names_twice(alloc, LineKind::Field, lines, first)?;
    note_too_many(LineKind::Field, MOST_FIELDS, lines, first);
    note_each_field(alloc, bases, files, lines, first)
}

fn is_secondary(place: Option<usize>) -> bool
    ensures { result ≡ is_secondary place }
{
    match place {
        Some(place) => place != 0,
        None => false,
    }
}

/// Whether the name is that of a field of a secondary file.
fn is_of_secondary(named: &[NamedField], places: &[FieldPlace], name: Option<Name>) -> bool
    ensures { result ≡ is_secondary_named named.now places.now name }
{
    match name {
        Some(name) => is_secondary(place_named(named, places, &name)),
        None => false,
    }
}

/// Notes a key field of a secondary file, if the line is a key field's.
#[tactic(auto, unfolding(crate::specs::Judged::line_faults_of))]
fn note_primary_key(
    named: &[NamedField],
    places: &[FieldPlace],
    line: &Specification,
    first: &mut FirstFault,
)
    ensures { first.new.fault ≡ first_after first.old.fault (line_faults_of line_kinds.Key (key_place_faults named.now places.now) line.now) }
{
    if is_of(LineKind::Key, line) {
        first.note_if(
            is_of_secondary(named, places, name_of(line.name)),
            fault_at(line, 19, DdsCause::JoinKeyNotPrimary),
        );
    }
}

#[tactic(auto, using(dds_physical::proofs::FaultLemmas::first_after_append))]
fn note_each_primary_key(
    named: &[NamedField],
    places: &[FieldPlace],
    lines: &[Specification],
    first: &mut FirstFault,
)
    ensures { first.new.fault ≡ first_after first.old.fault (flat_map (line_faults_of line_kinds.Key (key_place_faults named.now places.now)) lines.now) }
{
    for line in lines {
        note_primary_key(named, places, line, first);
    }
}

/// Notes key fields of secondary files.
#[tactic(auto, using(crate::proofs::LineLemmas::faults_of_kind))]
pub(crate) fn note_primary_keys(
    named: &[NamedField],
    places: &[FieldPlace],
    lines: &[Specification],
    first: &mut FirstFault,
)
    ensures { first.new.fault ≡ first_after first.old.fault (flat_map (key_place_faults named.now places.now) (lines_of line_kinds.Key lines.now)) }
{
    note_each_primary_key(named, places, lines, first);
}
