//! Of which file a field of a join format is, and the fields that its lines describe.
ghost use Rattle.std.specs.Prelude.{◌≡◌, ◌++◌, ◌&&◌, ◌||◌, ◌==◌, filter, not, length, map, nat_lt, nat_le, codes, is_some, true, None, Some, Option, if◌then◌else◌, IfOk, IfSome, OnOk, [], List};
ghost use Rattle.std.specs.Option.{option_copied, option_to_list};
ghost use Rattle.std.specs.List.{filter_map};
ghost use Rattle.record_fmt.specs.Layout.{IsLaidOut};
ghost use Rattle.dds_physical.below.dds_source.specs.declared.specifications.Specification.{Specification};
ghost use Rattle.dds_physical.specs.Keywords.{first_named};
ghost use Rattle.dds_logical.specs.declared.format_lines.LineKind.TheVariants as line_kinds;
ghost use Rattle.dds_logical.specs.Bases.{fields_of_file};
ghost use Rattle.dds_logical.specs.KeywordArguments.{names_among};
ghost use Rattle.dds_logical.specs.Named.{IsShown};
ghost use Rattle.dds_logical.specs.Origins.{lacks_one, origin_names};
ghost use Rattle.dds_logical.specs.JoinFields.{first_place, is_visible, place_by, place_of_file, place_of_line, place_of_number, place_said, placed, placed_at, places_of_names, places_with};
ghost use Rattle.dds_logical.specs.Fields.{field_of_line};
ghost use Rattle.dds_logical.specs.JoinSteps.{is_one_named, named_of_placed, place_named, placed_if, places_of_placed};

use crate::arguments::{argument_name, whole_number};
use crate::bases::{Bases, fields_of_file};
use crate::format_lines::{LineKind, is_of};
use crate::join_lines::fields_of_place;
use crate::join_links::place_of;
use crate::keyword_names::{arguments_of, first_named};
use crate::named_fields::{NamedField, NamedFields, field_of_line};
use crate::names::name_of;
use crate::origins::{lacks, lacks_one};
use dds_physical::dds_source::arguments::Argument;
use dds_physical::dds_source::keywords::Keyword;
use dds_physical::dds_source::specifications::Specification;
use field_types::lists::ListOf;
use field_types::names::Name;
use record_fmt::formats::Field;
use std::alloc::{AllocError, Global};

/// What a field of a join format is beside its name and what it shows.
#[derive(Clone, Copy)]
pub(crate) struct FieldPlace {
    /// The place of its file in JFILE, counted from 0.
    pub(crate) place: usize,
    /// Replies have it.
    pub(crate) visible: bool,
}

/// The fields of a join format, and of each where it is from.
#[derive(Drop)]
pub(crate) struct PlacedFields {
    pub(crate) named: NamedFields,
    pub(crate) places: ListOf<FieldPlace>,
}

impl PlacedFields {
    fn new(alloc: Global) -> PlacedFields
        ensures named { result.named ≡ [] }
        ensures places { result.places ≡ [] }
    {
        PlacedFields {
            named: NamedFields::new(alloc),
            places: ListOf::new(alloc),
        }
    }
}

// ---- its file

/// Whether the names of a field's line lack a field in a file.
fn lacks_origin(base: &[Field], line: &Specification) -> bool
    ensures { result ≡ lacks_one base.now (origin_names line.now) }
{
    let keywords = line.keywords.as_slice();
    if let Some(keyword) = first_named(b"CONCAT", keywords) {
        return lacks_one(base, arguments_of(keyword));
    }
    if let Some(keyword) = first_named(b"SST", keywords) {
        return lacks_one(base, arguments_of(keyword));
    }
    if let Some(keyword) = first_named(b"RENAME", keywords) {
        return lacks_one(base, arguments_of(keyword));
    }
    lacks(base, name_of(line.name))
}

#[tactic(auto, using(crate::proofs::JoinFieldLemmas::some_named))]
fn has_name_among(arguments: &[Argument]) -> bool
    ensures { result ≡ is_one_named (names_among arguments.now) }
{
    let mut rest = arguments;
    while let [argument, more @ ..] = rest {
        if argument_name(argument).is_some() {
            return true;
        }
        rest = more;
    }
    false
}

/// Whether a field's line names a field of a file.
#[tactic(auto, using(crate::proofs::JoinFieldLemmas::own_named))]
fn names_origin(line: &Specification) -> bool
    ensures { result ≡ is_one_named (origin_names line.now) }
{
    let keywords = line.keywords.as_slice();
    if let Some(keyword) = first_named(b"CONCAT", keywords) {
        return has_name_among(arguments_of(keyword));
    }
    if let Some(keyword) = first_named(b"SST", keywords) {
        return has_name_among(arguments_of(keyword));
    }
    if let Some(keyword) = first_named(b"RENAME", keywords) {
        return has_name_among(arguments_of(keyword));
    }
    name_of(line.name).is_some()
}

/// Whether a file has all that a line names.
fn has_origin<B: Bases>(bases: &B, file: &Name, line: &Specification) -> bool
    ensures { result ≡ not (lacks_one (fields_of_file (B.bases bases.now) file.now) (origin_names line.now)) }
{
    !lacks_origin(fields_of_file(bases, file), line)
}

/// The first file that has all that a line names.
fn first_with<B: Bases>(bases: &B, files: &[Name], line: &Specification) -> Option<usize>
    ensures { result ≡ first_place (places_with 0 (map (fields_of_file (B.bases bases.now)) files.now) (origin_names line.now)) }
{
    let mut place = 0;
    let mut rest = files;
    while let [file, more @ ..] = rest {
        if has_origin(bases, file, line) {
            return Some(place);
        }
        place += 1;
        rest = more;
    }
    None
}

fn count_having<B: Bases>(bases: &B, files: &[Name], line: &Specification) -> usize
    ensures { result ≡ length (filter (λ file. not (lacks_one (fields_of_file (B.bases bases.now) file) (origin_names line.now))) files.now) }
{
    files
        .iter()
        .filter(|file| has_origin(bases, file, line))
        .count()
}

/// How many files have all that a line names.
#[tactic(auto, using(crate::proofs::JoinFieldLemmas::having_are))]
fn count_with<B: Bases>(bases: &B, files: &[Name], line: &Specification) -> usize
    ensures { result ≡ length (places_with 0 (map (fields_of_file (B.bases bases.now)) files.now) (origin_names line.now)) }
{
    count_having(bases, files, line)
}

/// The first file that has all that a line names, if it names something.
fn first_of_names<B: Bases>(bases: &B, files: &[Name], line: &Specification) -> Option<usize>
    ensures { result ≡ first_place (places_of_names (map (fields_of_file (B.bases bases.now)) files.now) (origin_names line.now)) }
{
    if names_origin(line) {
        first_with(bases, files, line)
    } else {
        None
    }
}

/// Whether several files have all that a line names, if it names something.
#[tactic(auto, using(crate::proofs::JoinFieldLemmas::several_are))]
pub(crate) fn are_several<B: Bases>(bases: &B, files: &[Name], line: &Specification) -> bool
    ensures { result ≡ nat_lt 1 (length (places_of_names (map (fields_of_file (B.bases bases.now)) files.now) (origin_names line.now))) }
{
    names_origin(line) && count_with(bases, files, line) > 1
}

/// The place that a number from 1 on says.
fn place_of_number(count: usize, number: Option<u128>) -> Option<usize>
    ensures { result ≡ place_of_number count number }
{
    match number {
        Some(number) if 1 <= number && number <= count as u128 => Some((number - 1) as usize),
        _ => None,
    }
}

fn place_of_file(files: &[Name], name: Option<Name>, number: Option<u128>) -> Option<usize>
    ensures { result ≡ place_of_file files.now name number }
{
    match name {
        Some(name) => place_of(files, &name),
        None => place_of_number(files.len(), number),
    }
}

/// The place that JREF says: that of a file, or its number in JFILE.
fn place_said(files: &[Name], arguments: &[Argument]) -> Option<usize>
    ensures { result ≡ place_said files.now arguments.now }
{
    match arguments {
        [file, ..] => place_of_file(files, argument_name(file), whole_number(file)),
        [] => None,
    }
}

fn place_by<B: Bases>(
    bases: &B,
    files: &[Name],
    line: &Specification,
    keyword: Option<&Keyword>,
) -> Option<usize>
    ensures { result ≡ place_by files.now (map (fields_of_file (B.bases bases.now)) files.now) line.now (option_copied keyword.entry) }
{
    match keyword {
        Some(keyword) => place_said(files, arguments_of(keyword)),
        None => first_of_names(bases, files, line),
    }
}

/// The place of the file of a field's line.
pub(crate) fn place_of_line<B: Bases>(
    bases: &B,
    files: &[Name],
    line: &Specification,
) -> Option<usize>
    ensures { result ≡ place_of_line files.now (map (fields_of_file (B.bases bases.now)) files.now) line.now }
{
    place_by(
        bases,
        files,
        line,
        first_named(b"JREF", line.keywords.as_slice()),
    )
}

// ---- what it is

/// Usage N isn't shown.
fn is_visible(usage: Option<u8>) -> bool
    ensures { result ≡ is_visible usage }
{
    match usage {
        Some(usage) => usage != b'N',
        None => true,
    }
}

/// Adds the field of a line over the fields of the file of this place, if it describes one.
fn add_placed_at(
    alloc: Global,
    base: &[Field],
    place: usize,
    line: &Specification,
    fields: &mut PlacedFields,
) -> Result<(), AllocError>
    requires { IsLaidOut base.now }
    ensures named { OnOk result (fields.new.named ≡ fields.old.named ++ named_of_placed (option_to_list (placed line.now.columns.usage place (field_of_line true base.now line.now)))) }
    ensures places { OnOk result (fields.new.places ≡ fields.old.places ++ places_of_placed (option_to_list (placed line.now.columns.usage place (field_of_line true base.now line.now)))) }
{
    match field_of_line(alloc, true, base, line)? {
        Some(field) => {
            let visible = is_visible(line.columns.usage);
            fields.named.push(field)?;
            fields.places.push(FieldPlace { place, visible })
        }
        None => Ok(()),
    }
}

/// Adds the field of a line over the file of this place, if there is one.
fn add_placed_over<B: Bases>(
    alloc: Global,
    bases: &B,
    files: &[Name],
    place: Option<usize>,
    line: &Specification,
    fields: &mut PlacedFields,
) -> Result<(), AllocError>
    ensures named { OnOk result (fields.new.named ≡ fields.old.named ++ named_of_placed (option_to_list (placed_at (map (fields_of_file (B.bases bases.now)) files.now) line.now place))) }
    ensures places { OnOk result (fields.new.places ≡ fields.old.places ++ places_of_placed (option_to_list (placed_at (map (fields_of_file (B.bases bases.now)) files.now) line.now place))) }
{
    match place {
        Some(place) => {
            let base = fields_of_place(bases, files, place);
            add_placed_at(alloc, base, place, line, fields)
        }
        None => Ok(()),
    }
}

/// Adds the field of a line, if it describes one.
#[tactic(auto, unfolding(crate::specs::JoinSteps::placed_if))]
fn add_placed<B: Bases>(
    alloc: Global,
    bases: &B,
    files: &[Name],
    line: &Specification,
    fields: &mut PlacedFields,
) -> Result<(), AllocError>
    ensures named { OnOk result (fields.new.named ≡ fields.old.named ++ named_of_placed (option_to_list (placed_if files.now (map (fields_of_file (B.bases bases.now)) files.now) line.now))) }
    ensures places { OnOk result (fields.new.places ≡ fields.old.places ++ places_of_placed (option_to_list (placed_if files.now (map (fields_of_file (B.bases bases.now)) files.now) line.now))) }
{
    if !is_of(LineKind::Field, line) {
        return Ok(());
    }
    let place = place_of_line(bases, files, line);
    add_placed_over(alloc, bases, files, place, line, fields)
}

/// The fields that the lines of a join format describe.
#[tactic(auto, using(crate::proofs::ListLemmas::joined))]
pub(crate) fn placed_fields<B: Bases>(
    alloc: Global,
    bases: &B,
    files: &[Name],
    lines: &[Specification],
) -> Result<PlacedFields, AllocError>
    ensures named { IfOk result (λ fields. fields.named ≡ named_of_placed (filter_map (placed_if files.now (map (fields_of_file (B.bases bases.now)) files.now)) lines.now)) }
    ensures places { IfOk result (λ fields. fields.places ≡ places_of_placed (filter_map (placed_if files.now (map (fields_of_file (B.bases bases.now)) files.now)) lines.now)) }
{
    let mut fields = PlacedFields::new(alloc);
    for line in lines {
        add_placed(alloc, bases, files, line, &mut fields)?;
    }
    Ok(fields)
}

/// The place of the file of a field of this name.
pub(crate) fn place_named(named: &[NamedField], places: &[FieldPlace], name: &Name) -> Option<usize>
    ensures { result ≡ place_named named.now places.now name.now }
{
    let mut fields = named;
    let mut rest = places;
    while let [field, more @ ..] = fields {
        let [place, others @ ..] = rest else {
            return None;
        };
        if field.name == *name {
            return Some(place.place);
        }
        fields = more;
        rest = others;
    }
    None
}
