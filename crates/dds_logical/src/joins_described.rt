//! What the lines of a join format describe.
ghost use Rattle.std.specs.Prelude.{◌≡◌, ◌≤◌, ◌<◌, ◌++◌, ◌∷◌, [], List, codes, drop, length, map, is_some, true, IfOk, OnOk};
ghost use Rattle.std.specs.List.{filter_map};
ghost use Rattle.dds_physical.specs.Keywords.{first_named};
ghost use Rattle.dds_physical.specs.Names.{name_of};
ghost use Rattle.dds_logical.specs.declared.format_lines.LineKind.TheVariants as line_kinds;
ghost use Rattle.dds_logical.specs.KeywordArguments.{names_among};
ghost use Rattle.dds_logical.specs.Origins.{keyword_names};
ghost use Rattle.dds_logical.specs.Judged.{format_with, lines_of};
ghost use Rattle.dds_logical.specs.JudgedKeys.{bytes_of};
ghost use Rattle.dds_logical.specs.Keys.{parts_of_lines};
ghost use Rattle.dds_logical.specs.JoinViews.{files_joined, first_file, join_described};
ghost use Rattle.dds_logical.specs.JoinSteps.{AreLow, joined_field_of, joined_of};
ghost use Rattle.dds_logical.specs.JoinWhole.{IsJoinComplete, join_keys, join_with};

use crate::arguments::argument_name;
use crate::bases::Bases;
use crate::format_views::{name_given, ties_of};
use crate::join_fields::{FieldPlace, PlacedFields, placed_fields};
use crate::join_views::{JoinView, JoinedField, JoinedFile};
use crate::joined_files::joined_files;
use crate::keyword_names::{arguments_of, first_named, is_there};
use crate::layout::{key_parts, laid_out};
use crate::limits::MOST_JOINED;
use crate::named_fields::NamedField;
use crate::names::name_of;
use crate::tested_fields::copied_field;
use dds_physical::dds_source::arguments::Argument;
use dds_physical::dds_source::keywords::Keyword;
use dds_physical::dds_source::specifications::Specification;
use field_types::lists::ListOf;
use field_types::names::Name;
use file_model::joins::JoinField;
use key_spec::KeySpec;
use record_fmt::formats::{Field, Format, MOST_BYTES, MOST_FIELDS};
use std::alloc::{AllocError, Global};

fn names_among(alloc: Global, arguments: &[Argument]) -> Result<Vec<Name>, AllocError>
    ensures { IfOk result (λ names. names.items ≡ names_among arguments.now) }
{
    arguments
        .iter()
        .filter_map(|argument| argument_name(argument))
        .collect(alloc)
}

/// The files of JFILE in order.
pub(crate) fn files_joined(alloc: Global, line: &Specification) -> Result<ListOf<Name>, AllocError>
    ensures { IfOk result (λ files. files ≡ files_joined (format_with line.now [])) }
{
    match first_named(b"JFILE", line.keywords.as_slice()) {
        Some(keyword) => {
            let names = names_among(alloc, arguments_of(keyword))?;
            Ok(ListOf::from_vec(names))
        }
        None => Ok(ListOf::new(alloc)),
    }
}

/// Adds what a field shows, and of which file.
fn add_joined_field(
    alloc: Global,
    field: &NamedField,
    place: FieldPlace,
    joined: &mut ListOf<JoinedField>,
) -> Result<(), AllocError>
    requires { place.place ≤ MOST_JOINED }
    ensures { OnOk result (joined.new ≡ joined.old ++ joined_field_of field.now place ∷ []) }
{
    let copy = copied_field(alloc, &field.shown.field)?;
    joined.push(JoinedField {
        field: JoinField {
            file: place.place as u32,
            field: copy,
        },
        shown: place.visible,
    })
}

/// What each field shows, and of which file.
#[tactic(auto, using(crate::proofs::ListLemmas::joined))]
fn joined_fields(
    alloc: Global,
    named: &[NamedField],
    places: &[FieldPlace],
) -> Result<ListOf<JoinedField>, AllocError>
    requires { AreLow places.now }
    ensures { IfOk result (λ joined. joined ≡ joined_of named.now places.now) }
{
    let mut joined = ListOf::new(alloc);
    let mut fields = named;
    let mut rest = places;
    while let [field, more @ ..] = fields {
        let [place, others @ ..] = rest else {
            return Ok(joined);
        };
        add_joined_field(alloc, field, *place, &mut joined)?;
        fields = more;
        rest = others;
    }
    Ok(joined)
}

fn first_file(files: &[Name]) -> Name
    requires { 0 < length files.now }
    ensures { result ≡ first_file files.now }
{
    files[0]
}

/// The key of a join format with these fields.
fn join_keys(
    alloc: Global,
    keywords: &[Keyword],
    fields: &[Field],
    lines: &[Specification],
) -> Result<KeySpec, AllocError>
    ensures { IfOk result (λ keys. keys ≡ join_keys keywords.now (parts_of_lines fields.now (lines_of line_kinds.Key lines.now))) }
{
    let parts = key_parts(alloc, fields, lines)?;
    Ok(KeySpec {
        parts,
        unique: is_there(b"UNIQUE", keywords),
        ties: ties_of(keywords),
    })
}

/// What the lines of a join format with these fields and secondary files describe.
fn join_with(
    alloc: Global,
    keywords: &[Keyword],
    files: &[Name],
    secondaries: ListOf<JoinedFile>,
    placed: &PlacedFields,
    line: &Specification,
    body: &[Specification],
) -> Result<JoinView, AllocError>
    requires named { is_some (name_of line.now.name) ≡ true }
    requires some { 0 < length files.now }
    requires few { length placed.now.named ≤ MOST_FIELDS }
    requires narrow { bytes_of placed.now.named ≤ MOST_BYTES }
    requires low { AreLow placed.now.places }
    ensures { IfOk result (λ view. view ≡ join_with keywords.now files.now secondaries placed.now.named placed.now.places (format_with line.now body.now)) }
{
    let fields = laid_out(alloc, &placed.named)?;
    let keys = join_keys(alloc, keywords, fields.as_slice(), body)?;
    let shown = joined_fields(alloc, placed.named.as_slice(), placed.places.as_slice())?;
    let name = name_given(name_of(line.name));
    Ok(JoinView {
        primary: first_file(files),
        secondaries,
        format: Format { name, fields },
        fields: shown,
        keys,
        keeps_missing: is_there(b"JDFTVAL", keywords),
    })
}

/// The join format that a line begins, in a file with these keywords.
pub(crate) fn join_described<B: Bases>(
    alloc: Global,
    bases: &B,
    keywords: &[Keyword],
    line: &Specification,
    body: &[Specification],
) -> Result<JoinView, AllocError>
    requires { IsJoinComplete (B.bases bases.now) (format_with line.now body.now) }
    ensures { IfOk result (λ view. view ≡ join_described (B.bases bases.now) keywords.now (format_with line.now body.now)) }
{
    let names = files_joined(alloc, line)?;
    let files = names.as_slice();
    let placed = placed_fields(alloc, bases, files, body)?;
    let secondaries = joined_files(alloc, bases, files, body)?;
    let view = join_with(alloc, keywords, files, secondaries, &placed, line, body)?;
    Ok(view)
}
