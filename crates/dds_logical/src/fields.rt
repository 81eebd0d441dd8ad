//! What is wrong with the lines of the fields of a format.
ghost use Rattle.std.specs.Prelude.{◌≡◌, ◌≤◌, ◌<◌, ◌^◌, ◌-◌, ◌++◌, ◌&&◌, ◌||◌, ◌==◌, List, [], ◌∷◌, nat_lt, not, drop, flat_map, codes, is_none, is_some, Some, Option, OnOk, if◌then◌else◌};
ghost use Rattle.std.specs.Option.{option_copied, option_map};
ghost use Rattle.record_fmt.specs.FieldTypes.{is_numeric};
ghost use Rattle.record_fmt.specs.Layout.{IsLaidOut};
ghost use Rattle.dds_physical.below.dds_source.specs.declared.specifications.Specification.{Specification};
ghost use Rattle.dds_physical.specs.Faults.{first_after};
ghost use Rattle.dds_physical.specs.Attributes.{attributes};
ghost use Rattle.dds_physical.specs.Lines.{is_letter_wrong};
ghost use Rattle.dds_logical.specs.Origins.{origin};
ghost use Rattle.dds_logical.specs.Fields.{kind_letter, is_same_type, are_alike, narrows_kind, narrows_decimals, narrows_length, length_column, narrowing_faults, type_faults_over, is_usage, says_read_only, says_both, letter_faults, is_read_only_mapping, usage_faults, names_twice, with_name, field_entry_faults, made_faults, file_number_faults, too_many_faults, field_lines_faults};
ghost use Rattle.dds_logical.specs.Made.{made_by, type_of};
ghost use Rattle.dds_logical.specs.Judged.{lines_of, is_beyond, left_behind, line_faults_of, first_line, types_faults, field_line_faults};
ghost use Rattle.dds_logical.specs.declared.format_lines.LineKind.TheVariants as line_kinds;

use crate::attributes::{attributes, is_numeric, kind_by_letter};
use crate::first::{FirstFault, fault_at};
use crate::format_lines::{LineKind, is_of};
use crate::keyword_names::first_named;
use crate::keyword_places::KeywordPlace;
use crate::keyword_rules::note_keywords;
use crate::names::{EarlierNames, name_of};
use crate::origins::{MadeOf, OwnType, is_substring, note_origin, origin, own_type};
use dds_physical::dds_source::faults::DdsCause;
use dds_physical::dds_source::specifications::Specification;
use field_types::kinds::{FieldType, Kind};
use record_fmt::formats::{Field, MOST_FIELDS};
use std::alloc::{AllocError, Global};

/// The letter of a kind in position 35.
fn kind_letter(kind: Kind) -> u8
    ensures { result ≡ kind_letter kind }
{
    match kind {
        Kind::Char => b'A',
        Kind::Zoned => b'S',
        Kind::Packed => b'P',
        Kind::Binary => b'B',
        Kind::Date => b'L',
        Kind::Time => b'T',
        Kind::Stamp => b'Z',
    }
}

pub(crate) fn is_same_type(a: FieldType, b: FieldType) -> bool
    ensures { result ≡ is_same_type a b }
{
    kind_letter(a.kind) == kind_letter(b.kind) && a.length == b.length && a.decimals == b.decimals
}

/// Whether both are numbers, or both are of one other kind.
fn are_alike(ty: FieldType, own: OwnType) -> bool
    ensures { result ≡ are_alike ty (type_of own) }
{
    if is_numeric(ty.kind) {
        is_numeric(own.kind)
    } else {
        kind_letter(ty.kind) == kind_letter(own.kind)
    }
}

fn narrows_decimals(ty: FieldType, own: OwnType) -> bool
    ensures { result ≡ narrows_decimals ty (type_of own) }
{
    are_alike(ty, own) && ty.decimals < own.decimals
}

/// Whether it has fewer digits before the point, or fewer characters.
fn narrows_length(ty: FieldType, own: OwnType) -> bool
    ensures { result ≡ narrows_length ty (type_of own) }
{
    let digits = u128::from(ty.length).saturating_sub(u128::from(ty.decimals));
    let own_digits = own.length.saturating_sub(u128::from(own.decimals));
    are_alike(ty, own) && digits < own_digits
}

fn length_column(line: &Specification) -> u32
    ensures { result ≡ length_column line.now }
{
    if line.columns.length.is_some() {
        30
    } else {
        36
    }
}

/// Notes a field that is too narrow for what it is made of.
#[tactic(auto, using(dds_physical::proofs::FaultLemmas::first_after_append))]
fn note_narrowing(line: &Specification, ty: FieldType, own: OwnType, first: &mut FirstFault)
    ensures { first.new.fault ≡ first_after first.old.fault (narrowing_faults line.now ty (type_of own)) }
{
    first.note_if(!are_alike(ty, own), fault_at(line, 35, DdsCause::Narrowing));
    first.note_if(
        narrows_decimals(ty, own),
        fault_at(line, 36, DdsCause::Narrowing),
    );
    first.note_if(
        narrows_length(ty, own),
        fault_at(line, length_column(line), DdsCause::Narrowing),
    );
}

/// Notes what is wrong with the type of a field.
fn note_type(line: &Specification, own: OwnType, first: &mut FirstFault)
    requires { own.length < 2 ^ 100 }
    ensures { first.new.fault ≡ first_after first.old.fault (types_faults line.now (type_of own)) }
{
    match attributes(line, own) {
        Ok(ty) => note_narrowing(line, ty, own, first),
        Err(fault) => first.note(fault),
    }
}

fn note_made_type(line: &Specification, made: &Option<MadeOf>, first: &mut FirstFault)
    ensures { first.new.fault ≡ first_after first.old.fault (type_faults_over line.now (option_map made_by made.now)) }
{
    if let Some(made) = made {
        note_type(line, own_type(made), first);
    }
}

/// Notes what is wrong with what a field is made of, and with its type.
#[tactic(auto, using(dds_physical::proofs::FaultLemmas::first_after_append))]
pub(crate) fn note_made(
    alloc: Global,
    base: &[Field],
    line: &Specification,
    first: &mut FirstFault,
) -> Result<(), AllocError>
    requires { IsLaidOut base.now }
    ensures { OnOk result (first.new.fault ≡ first_after first.old.fault (made_faults base.now line.now)) }
{
    note_origin(base, line, first);
    let made = origin(alloc, base, line)?;
    note_made_type(line, &made, first);
    Ok(())
}

fn is_usage(is_join: bool, usage: Option<u8>) -> bool
    ensures { result ≡ is_usage is_join usage }
{
    match usage {
        Some(usage) => usage == b'B' || usage == b'I' || (is_join && usage == b'N'),
        None => true,
    }
}

/// Whether the field is only read.
pub(crate) fn says_read_only(usage: Option<u8>) -> bool
    ensures { result ≡ says_read_only usage }
{
    match usage {
        Some(usage) => usage == b'I' || usage == b'N',
        None => false,
    }
}

fn says_both(usage: Option<u8>) -> bool
    ensures { result ≡ says_both usage }
{
    match usage {
        Some(usage) => usage == b'B',
        None => false,
    }
}

fn is_letter_wrong(letter: Option<u8>) -> bool
    ensures { result ≡ is_letter_wrong letter }
{
    match letter {
        Some(letter) => kind_by_letter(letter).is_none(),
        None => false,
    }
}

#[tactic(auto, using(dds_physical::proofs::FaultLemmas::first_after_append))]
fn note_letters_of(is_join: bool, line: &Specification, first: &mut FirstFault)
    ensures { first.new.fault ≡ first_after first.old.fault (letter_faults is_join line.now) }
{
    first.note_if(
        is_letter_wrong(line.columns.data_type),
        fault_at(line, 35, DdsCause::BadType),
    );
    first.note_if(
        !is_usage(is_join, line.columns.usage),
        fault_at(line, 38, DdsCause::BadType),
    );
}

/// Notes letters in 35 and 38 that say nothing.
#[tactic(auto, using(dds_physical::proofs::FaultLemmas::first_after_append))]
pub(crate) fn note_letters(is_join: bool, lines: &[Specification], first: &mut FirstFault)
    ensures { first.new.fault ≡ first_after first.old.fault (flat_map (letter_faults is_join) lines.now) }
{
    for line in lines {
        note_letters_of(is_join, line, first);
    }
}

/// Whether a field takes no value by its file or by what it is made of.
pub(crate) fn is_read_only_mapping(is_join: bool, line: &Specification) -> bool
    ensures { result ≡ is_read_only_mapping is_join line.now }
{
    is_join || is_substring(line)
}

/// Notes what is wrong with the entries and keywords of a field's line.
#[tactic(auto, using(dds_physical::proofs::FaultLemmas::first_after_append))]
pub(crate) fn note_field_entries(is_join: bool, line: &Specification, first: &mut FirstFault)
    ensures { first.new.fault ≡ first_after first.old.fault (field_entry_faults is_join line.now) }
{
    first.note_if(
        name_of(line.name).is_none(),
        fault_at(line, 19, DdsCause::BadName),
    );
    first.note_if(
        line.columns.reference,
        fault_at(line, 29, DdsCause::UnknownReference),
    );
    first.note_if(
        is_read_only_mapping(is_join, line) && says_both(line.columns.usage),
        fault_at(line, 38, DdsCause::ReadOnlyMapping),
    );
    note_keywords(
        is_join,
        KeywordPlace::Field,
        line.keywords.as_slice(),
        first,
    );
}

/// Notes a line of the kind that has the name of an earlier one.
fn note_name(
    kind: LineKind,
    line: &Specification,
    earlier: &mut EarlierNames,
    first: &mut FirstFault,
) -> Result<(), AllocError>
    ensures { OnOk result ((later : List Specification) → first_after first.new.fault (names_twice earlier.new (lines_of kind later)) ≡ first_after first.old.fault (names_twice earlier.old (lines_of kind (line.now ∷ later)))) }
{
    if !is_of(kind, line) {
        return Ok(());
    }
    let name = name_of(line.name);
    first.note_if(
        earlier.is_listed(&name),
        fault_at(line, 19, DdsCause::DuplicateName),
    );
    earlier.add(name)
}

/// Notes lines of the kind that have the name of an earlier one.
pub(crate) fn note_names_twice(
    alloc: Global,
    kind: LineKind,
    lines: &[Specification],
    first: &mut FirstFault,
) -> Result<(), AllocError>
    ensures { OnOk result (first.new.fault ≡ first_after first.old.fault (names_twice [] (lines_of kind lines.now))) }
{
    let mut earlier = EarlierNames::new(alloc);
    for line in lines {
        note_name(kind, line, &mut earlier, first)?;
    }
    Ok(())
}

/// Whether the line is one of the kind, and no more may come.
#[tactic(auto, unfolding(crate::specs::Judged::is_beyond))]
fn is_beyond(kind: LineKind, line: &Specification, left: usize) -> bool
    ensures { result ≡ is_beyond kind line.now left }
{
    is_of(kind, line) && left == 0
}

/// How many lines of the kind may still come behind this one.
#[tactic(auto, unfolding(crate::specs::Judged::left_behind))]
fn left_behind(kind: LineKind, line: &Specification, left: usize) -> usize
    ensures { result ≡ left_behind kind line.now left }
{
    if is_of(kind, line) {
        left.saturating_sub(1)
    } else {
        left
    }
}

/// The line of the kind that has so many before it.
#[tactic(auto, using(crate::proofs::LineLemmas::beyond_here, crate::proofs::LineLemmas::beyond_more))]
fn line_beyond<'a>(
    kind: LineKind,
    most: usize,
    lines: &'a [Specification],
) -> Option<&'a Specification>
    ensures { option_copied result ≡ first_line (drop most (lines_of kind lines.now)) }
{
    let mut left = most;
    for line in lines {
        if is_beyond(kind, line, left) {
            return Some(line);
        }
        left = left_behind(kind, line, left);
    }
    None
}

/// Notes the first line of the kind that is too many.
#[tactic(auto, using(crate::proofs::LineLemmas::too_many_is))]
pub(crate) fn note_too_many(
    kind: LineKind,
    most: usize,
    lines: &[Specification],
    first: &mut FirstFault,
)
    ensures { first.new.fault ≡ first_after first.old.fault (too_many_faults most (lines_of kind lines.now)) }
{
    if let Some(line) = line_beyond(kind, most, lines) {
        first.note(fault_at(line, 19, DdsCause::TooLarge));
    }
}

/// Notes what is wrong with a line, if it is a field's.
#[tactic(auto, using(dds_physical::proofs::FaultLemmas::first_after_append), unfolding(crate::specs::Judged::line_faults_of))]
fn note_field(
    alloc: Global,
    base: &[Field],
    line: &Specification,
    first: &mut FirstFault,
) -> Result<(), AllocError>
    requires { IsLaidOut base.now }
    ensures { OnOk result (first.new.fault ≡ first_after first.old.fault (line_faults_of line_kinds.Field (field_line_faults base.now) line.now)) }
{
    if !is_of(LineKind::Field, line) {
        return Ok(());
    }
    note_field_entries(false, line, first);
    note_made(alloc, base, line, first)?;
    first.note_keyword(
        first_named(b"JREF", line.keywords.as_slice()),
        DdsCause::BadArguments,
    );
    Ok(())
}

#[tactic(auto, using(dds_physical::proofs::FaultLemmas::first_after_append))]
fn note_fields(
    alloc: Global,
    base: &[Field],
    lines: &[Specification],
    first: &mut FirstFault,
) -> Result<(), AllocError>
    requires { IsLaidOut base.now }
    ensures { OnOk result (first.new.fault ≡ first_after first.old.fault (flat_map (line_faults_of line_kinds.Field (field_line_faults base.now)) lines.now)) }
{
    for line in lines {
        note_field(alloc, base, line, first)?;
    }
    Ok(())
}

/// Notes what is wrong with the lines of the fields of a format over one file.
#[tactic(auto, using(dds_physical::proofs::FaultLemmas::first_after_append, crate::proofs::LineLemmas::faults_of_kind))]
pub(crate) fn note_field_lines(
    alloc: Global,
    base: &[Field],
    lines: &[Specification],
    first: &mut FirstFault,
) -> Result<(), AllocError>
    requires { IsLaidOut base.now }
    ensures { OnOk result (first.new.fault ≡ first_after first.old.fault (field_lines_faults base.now (lines_of line_kinds.Field lines.now))) }
{
    note_names_twice(alloc, LineKind::Field, lines, first)?;
    note_too_many(LineKind::Field, MOST_FIELDS, lines, first);
    note_fields(alloc, base, lines, first)
}
