//! What a field of a logical format is made of: RENAME, CONCAT, SST.
ghost use Rattle.std.specs.Prelude.{◌≡◌, ◌+◌, ◌≤◌, ◌<◌, ◌^◌, ◌++◌, ◌&&◌, ◌||◌, not, true, map, codes, is_none, Some, Option, IfOk, if◌then◌else◌};
ghost use Rattle.std.specs.Option.{option_copied, option_map};
ghost use Rattle.std.specs.List.{list_any, list_all, filter_map};
ghost use Rattle.dds_physical.specs.KeywordRules.{argument_name};
ghost use Rattle.dds_physical.specs.Faults.{first_after};
ghost use Rattle.dds_physical.specs.Keywords.{first_named};
ghost use Rattle.record_fmt.specs.Layout.{IsLaidOut};
ghost use Rattle.file_model.specs.Views.{pieces_length};
ghost use Rattle.dds_logical.specs.KeywordArguments.{names_among};
ghost use Rattle.dds_logical.specs.Keys.{field_of_name};
ghost use Rattle.dds_logical.specs.Origins.{origin, own_name, lacks_one, fields_of_names, are_characters, is_character, whole_field, lies_within, part_origin, copied_from, is_substring, own_name_faults, missing_faults, character_faults, part_faults, is_part_outside, origin_faults, if_within, part_said};
ghost use Rattle.field_types.specs.declared.kinds.Kind.TheVariants.{Char};
ghost use Rattle.dds_logical.specs.Made.{made_by, part_at, part_by, is_outside_of, IsLow, type_of, first_of, is_text_or_none, origin_by_concat, origin_by_part, origin_by_name, names_another};

use crate::arguments::argument_name;
use crate::first::{FirstFault, fault_at, keyword_fault};
use crate::keyword_names::{arguments_of, first_named, is_there};
use crate::names::{field_named, name_of};
use crate::parts::{Part, part_within};
use dds_physical::dds_source::arguments::Argument;
use dds_physical::dds_source::faults::DdsCause;
use dds_physical::dds_source::keywords::Keyword;
use dds_physical::dds_source::specifications::Specification;
use field_types::kinds::{FieldType, Kind};
use field_types::lists::ListOf;
use field_types::names::Name;
use file_model::views::Piece;
use record_fmt::formats::{Field, MOST_BYTES};
use std::alloc::{AllocError, Global};

/// What a field is made of.
#[derive(Drop)]
pub(crate) enum MadeOf {
    /// A field of the base file.
    Whole { ty: FieldType, offset: u32 },
    /// Fields one after another.
    Pieces(ListOf<Piece>),
    /// Part of a field.
    Part(Piece),
}

/// A type of any length.
#[derive(Clone, Copy)]
pub(crate) struct OwnType {
    pub(crate) kind: Kind,
    pub(crate) length: u128,
    pub(crate) decimals: u8,
}

/// The type that a field has by what it is made of.
pub(crate) fn own_type(made: &MadeOf) -> OwnType
    ensures value { type_of result ≡ (made_by made.now).own_type }
    ensures bound { result.length < 2 ^ 100 }
{
    match made {
        MadeOf::Whole { ty, .. } => OwnType {
            kind: ty.kind,
            length: u128::from(ty.length),
            decimals: ty.decimals,
        },
        MadeOf::Pieces(pieces) => characters(pieces_length(pieces.as_slice())),
        MadeOf::Part(piece) => characters(u128::from(piece.length)),
    }
}

fn characters(length: u128) -> OwnType
    ensures { result ≡ record { kind = Char; length = length; decimals = 0 } }
{
    OwnType {
        kind: Kind::Char,
        length,
        decimals: 0,
    }
}

fn pieces_length(pieces: &[Piece]) -> u128
    ensures value { result ≡ pieces_length pieces.now }
    ensures bound { result < 2 ^ 100 }
{
    let mut length = 0;
    for piece in pieces {
        length += u128::from(piece.length);
    }
    length
}

/// The field of a name, if there is a name.
pub(crate) fn field_of<'a>(base: &'a [Field], name: Option<Name>) -> Option<&'a Field>
    ensures { option_copied result ≡ field_of_name base.now name }
{
    match name {
        Some(name) => field_named(&name, base),
        None => None,
    }
}

/// Whether the name, if there is one, is no field's.
pub(crate) fn lacks(base: &[Field], name: Option<Name>) -> bool
    ensures { result ≡ lacks_one base.now (own_name name) }
{
    match name {
        Some(name) => field_named(&name, base).is_none(),
        None => false,
    }
}

/// Whether one of the names is no field's.
#[tactic(auto, using(crate::proofs::OriginLemmas::lacks_is))]
pub(crate) fn lacks_one(base: &[Field], arguments: &[Argument]) -> bool
    ensures { result ≡ lacks_one base.now (names_among arguments.now) }
{
    one_lacks(base, arguments)
}

fn one_lacks(base: &[Field], arguments: &[Argument]) -> bool
    ensures { result ≡ list_any (λ a. lacks_one base.now (own_name (argument_name a))) arguments.now }
{
    arguments
        .iter()
        .any(|argument| lacks(base, argument_name(argument)))
}

fn is_text_or_none(field: Option<&Field>) -> bool
    ensures { result ≡ is_text_or_none (option_copied field.entry) }
{
    match field {
        Some(field) => is_character(field.ty.kind),
        None => true,
    }
}

fn is_character(kind: Kind) -> bool
    ensures { result ≡ is_character kind }
{
    match kind {
        Kind::Char => true,
        Kind::Zoned | Kind::Packed | Kind::Binary | Kind::Date | Kind::Time | Kind::Stamp => false,
    }
}

/// Whether the fields of these names are character fields.
#[tactic(auto, using(crate::proofs::OriginLemmas::are_characters_is))]
fn are_characters(base: &[Field], arguments: &[Argument]) -> bool
    ensures { result ≡ are_characters (fields_of_names base.now (names_among arguments.now)) }
{
    all_are_texts(base, arguments)
}

fn all_are_texts(base: &[Field], arguments: &[Argument]) -> bool
    ensures { result ≡ list_all (λ a. is_text_or_none (field_of_name base.now (argument_name a))) arguments.now }
{
    arguments.iter().all(|argument| is_text_or_none(field_of(base, argument_name(argument))))
}

/// The first field of these names.
#[tactic(auto, using(crate::proofs::OriginLemmas::first_cons))]
fn first_field<'a>(base: &'a [Field], arguments: &[Argument]) -> Option<&'a Field>
    ensures { option_copied result ≡ first_of (fields_of_names base.now (names_among arguments.now)) }
{
    for argument in arguments {
        let field = field_of(base, argument_name(argument));
        if field.is_some() {
            return field;
        }
    }
    None
}

/// The bytes of a field.
fn whole_field(field: Option<&Field>) -> Option<Piece>
    ensures { result ≡ option_map whole_field (option_copied field.entry) }
{
    match field {
        Some(field) => Some(Piece {
            offset: field.offset,
            length: u32::from(field.ty.length),
        }),
        None => None,
    }
}

/// The bytes of the fields of these names.
#[tactic(auto, using(crate::proofs::OriginLemmas::pieces_are))]
fn pieces_of(
    alloc: Global,
    base: &[Field],
    arguments: &[Argument],
) -> Result<Vec<Piece>, AllocError>
    ensures { IfOk result (λ pieces. pieces.items ≡ map whole_field (fields_of_names base.now (names_among arguments.now))) }
{
    let pieces = pieces_among(alloc, base, arguments)?;
    Ok(pieces)
}

fn pieces_among(
    alloc: Global,
    base: &[Field],
    arguments: &[Argument],
) -> Result<Vec<Piece>, AllocError>
    ensures { IfOk result (λ pieces. pieces.items ≡ filter_map (λ a. option_map whole_field (field_of_name base.now (argument_name a))) arguments.now) }
{
    arguments
        .iter()
        .filter_map(|argument| whole_field(field_of(base, argument_name(argument))))
        .collect(alloc)
}

/// Fields one after another.
fn concatenation(
    alloc: Global,
    base: &[Field],
    arguments: &[Argument],
) -> Result<Option<MadeOf>, AllocError>
    ensures { IfOk result (λ made. option_map made_by made ≡ origin_by_concat base.now (names_among arguments.now)) }
{
    if lacks_one(base, arguments) || !are_characters(base, arguments) {
        return Ok(None);
    }
    let pieces = pieces_of(alloc, base, arguments)?;
    Ok(Some(MadeOf::Pieces(ListOf::from_vec(pieces))))
}

/// Part of a field of this length that begins there.
fn part_of(offset: u32, length: u16, part: Part) -> MadeOf
    requires within { lies_within length part ≡ true }
    requires low { offset ≤ MOST_BYTES }
    ensures { made_by result ≡ part_at offset part }
{
    let start = part.start as u32;
    MadeOf::Part(Piece {
        offset: offset + start - 1,
        length: part.size as u32,
    })
}

/// Part of the first field that is named.
#[tactic(auto, using(crate::proofs::OriginLemmas::substring_is))]
fn substring(base: &[Field], arguments: &[Argument]) -> Option<MadeOf>
    requires { IsLaidOut base.now }
    ensures { option_map made_by result ≡ origin_by_part base.now arguments.now }
{
    if lacks_one(base, arguments) {
        return None;
    }
    part_of_first(first_field(base, arguments), arguments)
}

fn part_of_first(field: Option<&Field>, arguments: &[Argument]) -> Option<MadeOf>
    requires { IsLow (option_copied field) }
    ensures { option_map made_by result ≡ part_by arguments.now (option_copied field.entry) }
{
    match field {
        Some(field) if is_character(field.ty.kind) => part_of_field(field, arguments),
        _ => None,
    }
}

fn part_of_field(field: &Field, arguments: &[Argument]) -> Option<MadeOf>
    requires { field.now.offset ≤ MOST_BYTES }
    ensures { option_map made_by result ≡ part_origin field.now (if_within field.now.ty.length (part_said field.now.ty.length arguments.now)) }
{
    match part_within(field.ty.length, arguments) {
        Some(part) => Some(part_of(field.offset, field.ty.length, part)),
        None => None,
    }
}

fn whole(field: Option<&Field>) -> Option<MadeOf>
    ensures { option_map made_by result ≡ copied_from (option_copied field.entry) }
{
    match field {
        Some(field) => Some(MadeOf::Whole {
            ty: field.ty,
            offset: field.offset,
        }),
        None => None,
    }
}

/// The first field that is named, under another name.
#[tactic(auto, using(crate::proofs::OriginLemmas::copied_is))]
fn renamed(base: &[Field], arguments: &[Argument]) -> Option<MadeOf>
    ensures { option_map made_by result ≡ origin_by_name base.now (names_among arguments.now) }
{
    if lacks_one(base, arguments) {
        None
    } else {
        whole(first_field(base, arguments))
    }
}

/// The field of the same name.
#[tactic(auto, using(crate::proofs::OriginLemmas::own_is))]
fn of_same_name(base: &[Field], name: Option<Name>) -> Option<MadeOf>
    ensures { option_map made_by result ≡ origin_by_name base.now (own_name name) }
{
    whole(field_of(base, name))
}

/// What the field of a line is made of, where the base file has what it names and it may be made so.
pub(crate) fn origin(
    alloc: Global,
    base: &[Field],
    line: &Specification,
) -> Result<Option<MadeOf>, AllocError>
    requires { IsLaidOut base.now }
    ensures { IfOk result (λ made. option_map made_by made ≡ origin base.now line.now) }
{
    let keywords = line.keywords.as_slice();
    if let Some(keyword) = first_named(b"CONCAT", keywords) {
        return concatenation(alloc, base, arguments_of(keyword));
    }
    if let Some(keyword) = first_named(b"SST", keywords) {
        return Ok(substring(base, arguments_of(keyword)));
    }
    if let Some(keyword) = first_named(b"RENAME", keywords) {
        return Ok(renamed(base, arguments_of(keyword)));
    }
    Ok(of_same_name(base, name_of(line.name)))
}

/// Whether the field of a line is part of a field.
pub(crate) fn is_substring(line: &Specification) -> bool
    ensures { result ≡ is_substring line.now }
{
    let keywords = line.keywords.as_slice();
    is_there(b"SST", keywords) && !is_there(b"CONCAT", keywords)
}

fn names_another(keywords: &[Keyword]) -> bool
    ensures { result ≡ names_another keywords.now }
{
    is_there(b"CONCAT", keywords) || is_there(b"SST", keywords) || is_there(b"RENAME", keywords)
}

fn note_own_name(base: &[Field], line: &Specification, first: &mut FirstFault)
    ensures { first.new.fault ≡ first_after first.old.fault (own_name_faults base.now line.now) }
{
    let wrong = !names_another(line.keywords.as_slice()) && lacks(base, name_of(line.name));
    first.note_if(wrong, fault_at(line, 19, DdsCause::NoBaseField));
}

fn note_missing(base: &[Field], keyword: Option<&Keyword>, first: &mut FirstFault)
    ensures { first.new.fault ≡ first_after first.old.fault (missing_faults base.now (option_copied keyword.entry)) }
{
    if let Some(keyword) = keyword {
        first.note_if(
            lacks_one(base, arguments_of(keyword)),
            keyword_fault(keyword, DdsCause::NoBaseField),
        );
    }
}

fn note_other_kind(base: &[Field], keyword: Option<&Keyword>, first: &mut FirstFault)
    ensures { first.new.fault ≡ first_after first.old.fault (character_faults base.now (option_copied keyword.entry)) }
{
    if let Some(keyword) = keyword {
        first.note_if(
            !are_characters(base, arguments_of(keyword)),
            keyword_fault(keyword, DdsCause::BadArguments),
        );
    }
}

#[tactic(auto, using(crate::proofs::OriginLemmas::outside_is))]
fn is_part_outside(base: &[Field], arguments: &[Argument]) -> bool
    ensures { result ≡ is_part_outside arguments.now (fields_of_names base.now (names_among arguments.now)) }
{
    is_outside_of(first_field(base, arguments), arguments)
}

fn is_outside_of(field: Option<&Field>, arguments: &[Argument]) -> bool
    ensures { result ≡ is_outside_of arguments.now (option_copied field.entry) }
{
    match field {
        Some(field) => part_within(field.ty.length, arguments).is_none(),
        None => false,
    }
}

fn note_part(base: &[Field], keyword: Option<&Keyword>, first: &mut FirstFault)
    ensures { first.new.fault ≡ first_after first.old.fault (part_faults base.now (option_copied keyword.entry)) }
{
    if let Some(keyword) = keyword {
        first.note_if(
            is_part_outside(base, arguments_of(keyword)),
            keyword_fault(keyword, DdsCause::BadArguments),
        );
    }
}

/// Notes what is wrong with what the field of a line is made of.
#[tactic(auto, using(dds_physical::proofs::FaultLemmas::first_after_append))]
pub(crate) fn note_origin(base: &[Field], line: &Specification, first: &mut FirstFault)
    ensures { first.new.fault ≡ first_after first.old.fault (origin_faults base.now line.now) }
{
    let keywords = line.keywords.as_slice();
    let concat = first_named(b"CONCAT", keywords);
    let part = first_named(b"SST", keywords);
    note_own_name(base, line, first);
    note_missing(base, concat, first);
    note_missing(base, part, first);
    note_missing(base, first_named(b"RENAME", keywords), first);
    note_other_kind(base, concat, first);
    note_other_kind(base, part, first);
    note_part(base, part, first);
}
