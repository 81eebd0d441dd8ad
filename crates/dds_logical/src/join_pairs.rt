//! What a J line says of its two files: which fields are equal, and in which order the records of the second come.
ghost use Rattle.std.specs.Prelude.{◌≡◌, ◌&&◌, codes, is_none, None, Option, if◌then◌else◌, IfOk};
ghost use Rattle.std.specs.Option.{option_copied, option_map};
ghost use Rattle.std.specs.List.{filter_map, list_any};
ghost use Rattle.dds_physical.specs.KeywordRules.{is_special};
ghost use Rattle.dds_physical.specs.References.{file_of_keyword};
ghost use Rattle.dds_logical.specs.JoinLines.{is_descending, is_pair_mismatched, pair_of_fields, pair_of_names, pair_said, sequence_by, sequence_said};
ghost use Rattle.dds_logical.specs.JoinSteps.{pair_of, pair_of_given};
ghost use Rattle.dds_logical.specs.Keys.{field_of_name};
ghost use Rattle.dds_logical.specs.KeywordArguments.{names_among};

use crate::arguments::{argument_name, is_special};
use crate::attributes::is_numeric;
use crate::given_names::{GivenNames, given_names};
use crate::keyword_names::{arguments_of, has_name};
use crate::names::field_named;
use crate::origins::field_of;
use dds_physical::dds_source::arguments::Argument;
use dds_physical::dds_source::keywords::Keyword;
use field_types::kinds::FieldType;
use field_types::names::Name;
use file_model::joins::JoinPair;
use file_model::views::{FieldSource, ViewField};
use key_spec::KeyPart;
use record_fmt::formats::Field;
use std::alloc::{AllocError, Global};

/// A type, and where a field of it begins in its record.
#[derive(Clone, Copy)]
pub(crate) struct TypeAt {
    ty: FieldType,
    offset: u32,
}

/// Two fields that are equal, each in its own file's record.
#[derive(Clone, Copy)]
pub(crate) struct FieldPair {
    from: TypeAt,
    to: TypeAt,
}

fn type_at(field: &Field) -> TypeAt
    ensures { result ≡ record { ty = field.now.ty; offset = field.now.offset } }
{
    TypeAt {
        ty: field.ty,
        offset: field.offset,
    }
}

fn pair_of_fields(from: Option<&Field>, to: Option<&Field>) -> Option<FieldPair>
    ensures { option_map pair_of result ≡ pair_of_fields (option_copied from.entry) (option_copied to.entry) }
{
    match (from, to) {
        (Some(from), Some(to)) => Some(FieldPair {
            from: type_at(from),
            to: type_at(to),
        }),
        _ => None,
    }
}

fn pair_of_given(from: &[Field], to: &[Field], given: GivenNames) -> Option<FieldPair>
    ensures { option_map pair_of result ≡ pair_of_given from.now to.now given }
{
    match given {
        GivenNames::Two(a, b) => pair_of_fields(field_named(&a, from), field_named(&b, to)),
        GivenNames::More(a, b) => pair_of_fields(field_named(&a, from), field_named(&b, to)),
        GivenNames::Nothing | GivenNames::One(_) => None,
    }
}

#[tactic(auto, using(crate::proofs::JoinLineLemmas::pair_given))]
fn pair_of_arguments(from: &[Field], to: &[Field], arguments: &[Argument]) -> Option<FieldPair>
    ensures { option_map pair_of result ≡ pair_of_names from.now to.now (names_among arguments.now) }
{
    pair_of_given(from, to, given_names(arguments))
}

/// The pair that JFLD says: a field of the file that is joined from, and one of the other.
pub(crate) fn pair_said(from: &[Field], to: &[Field], keyword: &Keyword) -> Option<FieldPair>
    ensures { option_map pair_of result ≡ pair_said from.now to.now keyword.now }
{
    if has_name(b"JFLD", keyword) {
        pair_of_arguments(from, to, arguments_of(keyword))
    } else {
        None
    }
}

pub(crate) fn is_pair_missing(pair: Option<FieldPair>) -> bool
    ensures { result ≡ is_none (option_map pair_of pair) }
{
    pair.is_none()
}

/// Whether they are a number and a text.
pub(crate) fn is_pair_mismatched(pair: Option<FieldPair>) -> bool
    ensures { result ≡ is_pair_mismatched (option_map pair_of pair) }
{
    match pair {
        Some(pair) if is_numeric(pair.from.ty.kind) => !is_numeric(pair.to.ty.kind),
        Some(pair) => is_numeric(pair.to.ty.kind),
        None => false,
    }
}

fn view_of(field: TypeAt) -> ViewField
    ensures { result ≡ record { ty = field.ty; source = FieldSource.Copied field.offset } }
{
    ViewField {
        ty: field.ty,
        source: FieldSource::Copied {
            offset: field.offset,
        },
    }
}

fn join_pair(pair: Option<FieldPair>) -> Option<JoinPair>
    ensures { result ≡ option_map pair_of pair }
{
    match pair {
        Some(pair) => Some(JoinPair {
            from: view_of(pair.from),
            to: view_of(pair.to),
        }),
        None => None,
    }
}

fn pair_of_keyword(from: &[Field], to: &[Field], keyword: &Keyword) -> Option<JoinPair>
    ensures { result ≡ pair_said from.now to.now keyword.now }
{
    join_pair(pair_said(from, to, keyword))
}

/// The pairs that keywords say.
pub(crate) fn pairs_said(
    alloc: Global,
    from: &[Field],
    to: &[Field],
    keywords: &[Keyword],
) -> Result<Vec<JoinPair>, AllocError>
    ensures { IfOk result (λ pairs. pairs.items ≡ filter_map (λ k. pair_said from.now to.now k) keywords.now) }
{
    keywords
        .iter()
        .filter_map(|keyword| pair_of_keyword(from, to, keyword))
        .collect(alloc)
}

/// The first argument of a keyword, where it is a name.
pub(crate) fn first_name(keyword: &Keyword) -> Option<Name>
    ensures { result ≡ file_of_keyword (Some keyword.now) }
{
    match arguments_of(keyword) {
        [name, ..] => argument_name(name),
        [] => None,
    }
}

fn is_descending(arguments: &[Argument]) -> bool
    ensures { result ≡ is_descending arguments.now }
{
    arguments
        .iter()
        .any(|argument| is_special(b"*DESCEND", argument))
}

fn sequence_by(field: Option<&Field>, descend: bool) -> KeyPart
    ensures { result ≡ sequence_by (option_copied field.entry) descend }
{
    match field {
        Some(field) => KeyPart::Field {
            ty: field.ty,
            offset: field.offset,
            descend,
            absval: false,
        },
        None => KeyPart::Absent,
    }
}

/// The order that JDUPSEQ says.
#[tactic(auto, using(crate::proofs::JoinLineLemmas::sequence_is))]
pub(crate) fn sequence_said(to: &[Field], keyword: Option<&Keyword>) -> KeyPart
    ensures { result ≡ sequence_said to.now (option_copied keyword.entry) }
{
    match keyword {
        Some(keyword) => sequence_by(
            field_of(to, first_name(keyword)),
            is_descending(arguments_of(keyword)),
        ),
        None => KeyPart::Absent,
    }
}
