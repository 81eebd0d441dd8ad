//! What is wrong with select and omit lines.
ghost use Rattle.std.specs.Prelude.{◌≡◌, ◌++◌, ◌&&◌, ◌||◌, ◌==◌, not, length, flat_map, is_some, is_none, codes, Option, Some, IfOk, IfSome, OnOk};
ghost use Rattle.std.specs.Option.{option_copied};
ghost use Rattle.std.specs.List.{list_any};
ghost use Rattle.record_fmt.specs.FieldTypes.{IsFieldType};
ghost use Rattle.record_fmt.specs.Layout.{IsLaidOut};
ghost use Rattle.dds_physical.specs.Faults.{first_after};
ghost use Rattle.dds_physical.specs.Reading.{is_selection};
ghost use Rattle.dds_physical.specs.Names.{name_of};
ghost use Rattle.dds_physical.specs.Keywords.{first_named};
ghost use Rattle.dds_physical.specs.Defaults.{literal_value, is_refused};
ghost use Rattle.dds_logical.specs.declared.format_lines.LineKind.TheVariants as line_kinds;
ghost use Rattle.dds_logical.specs.Selections.{field_to_test, tested_field, no_field_faults, literal_faults, other_name, other_field_faults, other_kind_faults, test_faults, tests_faults, has_other, is_further, is_all_not_alone, all_faults, selection_line_faults, selection_lines_faults};
ghost use Rattle.dds_logical.specs.Judged.{lines_of, first_line};
ghost use Rattle.dds_logical.specs.Named.{AreShown};
ghost use Rattle.dds_logical.specs.Tested.{type_of_field, is_other_type, is_further_line, selection_at};

use crate::arguments::argument_name;
use crate::attributes::is_numeric;
use crate::first::{FirstFault, fault_at, keyword_fault};
use crate::format_lines::{LineKind, is_of, is_selection};
use crate::keyword_names::{arguments_of, first_named, has_name, is_compare_keyword};
use crate::keyword_places::KeywordPlace;
use crate::keyword_rules::note_keywords;
use crate::literals::refuses_literal;
use crate::named_fields::NamedField;
use crate::names::name_of;
use crate::tested_fields::type_to_test;
use dds_physical::dds_source::arguments::Argument;
use dds_physical::dds_source::faults::DdsCause;
use dds_physical::dds_source::keywords::Keyword;
use dds_physical::dds_source::specifications::{Specification, SpecificationKind};
use field_types::kinds::FieldType;
use field_types::names::Name;
use record_fmt::formats::Field;
use std::alloc::{AllocError, Global};

/// Notes a line with a name that neither the format nor its base has.
#[tactic(auto, using(crate::proofs::TestedLemmas::no_type_is))]
fn note_no_field(named: &[NamedField], base: &[Field], line: &Specification, first: &mut FirstFault)
    ensures { first.new.fault ≡ first_after first.old.fault (no_field_faults (field_to_test named.now base.now) line.now) }
{
    let is_missing = type_to_test(named, base, name_of(line.name)).is_none();
    first.note_if(
        name_of(line.name).is_some() && is_missing,
        fault_at(line, 19, DdsCause::NoSuchField),
    );
}

/// Whether a field of the type can't hold one of the literals.
fn refuses_one(alloc: Global, ty: &FieldType, arguments: &[Argument]) -> Result<bool, AllocError>
    requires { IsFieldType ty.now }
    ensures { IfOk result (λ b. b ≡ list_any (λ a. is_refused ty.now (literal_value a)) arguments.now) }
{
    for argument in arguments {
        if refuses_literal(alloc, ty, argument)? {
            return Ok(true);
        }
    }
    Ok(false)
}

fn is_other_type(ty: &FieldType, other: Option<FieldType>) -> bool
    ensures { result ≡ is_other_type ty.now other }
{
    match other {
        Some(other) => {
            if is_numeric(ty.kind) {
                !is_numeric(other.kind)
            } else {
                is_numeric(other.kind)
            }
        }
        None => false,
    }
}

/// The field that COMP compares with.
fn other_name(arguments: &[Argument]) -> Option<Name>
    ensures { result ≡ other_name arguments.now }
{
    match arguments {
        [_, other, ..] => argument_name(other),
        _ => None,
    }
}

/// Notes COMP with a field that isn't there.
#[tactic(auto, using(crate::proofs::TestedLemmas::no_type_is))]
fn note_other_field(named: &[NamedField], base: &[Field], keyword: &Keyword, first: &mut FirstFault)
    ensures { first.new.fault ≡ first_after first.old.fault (other_field_faults (field_to_test named.now base.now) keyword.now) }
{
    let arguments = arguments_of(keyword);
    let is_missing = type_to_test(named, base, other_name(arguments)).is_none();
    first.note_if(
        is_compare_keyword(keyword) && other_name(arguments).is_some() && is_missing,
        keyword_fault(keyword, DdsCause::NoSuchField),
    );
}

/// Notes COMP with a field of another kind of value.
#[tactic(auto, using(crate::proofs::TestedLemmas::other_type_is))]
fn note_other_kind(
    named: &[NamedField],
    base: &[Field],
    ty: &FieldType,
    keyword: &Keyword,
    first: &mut FirstFault,
)
    ensures { first.new.fault ≡ first_after first.old.fault (other_kind_faults (field_to_test named.now base.now) ty.now keyword.now) }
{
    let name = other_name(arguments_of(keyword));
    first.note_if(
        is_compare_keyword(keyword) && is_other_type(ty, type_to_test(named, base, name)),
        keyword_fault(keyword, DdsCause::BadArguments),
    );
}

/// Notes what is wrong with the test of a keyword.
#[tactic(auto, using(dds_physical::proofs::FaultLemmas::first_after_append))]
fn note_test(
    alloc: Global,
    named: &[NamedField],
    base: &[Field],
    ty: &FieldType,
    keyword: &Keyword,
    first: &mut FirstFault,
) -> Result<(), AllocError>
    requires { IsFieldType ty.now }
    ensures { OnOk result (first.new.fault ≡ first_after first.old.fault (test_faults (field_to_test named.now base.now) ty.now keyword.now)) }
{
    let refused = refuses_one(alloc, ty, arguments_of(keyword))?;
    first.note_if(refused, keyword_fault(keyword, DdsCause::BadArguments));
    note_other_kind(named, base, ty, keyword, first);
    Ok(())
}

#[tactic(auto, using(dds_physical::proofs::FaultLemmas::first_after_append))]
fn note_tests(
    alloc: Global,
    named: &[NamedField],
    base: &[Field],
    ty: &FieldType,
    keywords: &[Keyword],
    first: &mut FirstFault,
) -> Result<(), AllocError>
    requires { IsFieldType ty.now }
    ensures { OnOk result (first.new.fault ≡ first_after first.old.fault (flat_map (test_faults (field_to_test named.now base.now) ty.now) keywords.now)) }
{
    for keyword in keywords {
        note_test(alloc, named, base, ty, keyword, first)?;
    }
    Ok(())
}

/// The type of the field of a name, which is one that a data description can give.
fn allowed_type(named: &[NamedField], base: &[Field], name: Option<Name>) -> Option<FieldType>
    requires named { AreShown named.now }
    requires base { IsLaidOut base.now }
    ensures value { result ≡ type_of_field (tested_field (field_to_test named.now base.now) name) }
    ensures allowed { IfSome result IsFieldType }
{
    type_to_test(named, base, name)
}

/// Notes what is wrong with the tests of the field of a line, if it is there.
fn note_field_tests(
    alloc: Global,
    named: &[NamedField],
    base: &[Field],
    line: &Specification,
    first: &mut FirstFault,
) -> Result<(), AllocError>
    requires named { AreShown named.now }
    requires base { IsLaidOut base.now }
    ensures { OnOk result (first.new.fault ≡ first_after first.old.fault (tests_faults (field_to_test named.now base.now) (tested_field (field_to_test named.now base.now) (name_of line.now.name)) line.now.keywords)) }
{
    match allowed_type(named, base, name_of(line.name)) {
        Some(ty) => note_tests(alloc, named, base, &ty, line.keywords.as_slice(), first),
        None => Ok(()),
    }
}

#[tactic(auto, using(dds_physical::proofs::FaultLemmas::first_after_append))]
fn note_other_fields(
    named: &[NamedField],
    base: &[Field],
    keywords: &[Keyword],
    first: &mut FirstFault,
)
    ensures { first.new.fault ≡ first_after first.old.fault (flat_map (other_field_faults (field_to_test named.now base.now)) keywords.now) }
{
    for keyword in keywords {
        note_other_field(named, base, keyword, first);
    }
}

/// Whether there is another keyword than ALL.
fn has_other(keywords: &[Keyword]) -> bool
    ensures { result ≡ has_other keywords.now }
{
    keywords.iter().any(|keyword| !has_name(b"ALL", keyword))
}

pub(crate) fn is_further(kind: SpecificationKind) -> bool
    ensures { result ≡ is_further kind }
{
    match kind {
        SpecificationKind::And => true,
        SpecificationKind::Record
        | SpecificationKind::Field
        | SpecificationKind::Key
        | SpecificationKind::Select
        | SpecificationKind::Omit
        | SpecificationKind::Join => false,
    }
}

/// Whether the next line of a selection is a further condition.
fn is_further_next(lines: &[Specification]) -> bool
    ensures { result ≡ is_further_line (first_line (lines_of line_kinds.Selection lines.now)) }
{
    for line in lines {
        if is_of(LineKind::Selection, line) {
            return is_further(line.kind);
        }
    }
    false
}

/// Whether a line with ALL has a name or another keyword, is a further condition, or has one.
#[tactic(auto, using(crate::proofs::TestedLemmas::further_next))]
fn is_all_not_alone(line: &Specification, more: &[Specification]) -> bool
    ensures { result ≡ is_all_not_alone line.now (lines_of line_kinds.Selection more.now) }
{
    name_of(line.name).is_some()
        || has_other(line.keywords.as_slice())
        || is_further(line.kind)
        || is_further_next(more)
}

#[tactic(auto, using(crate::proofs::TestedLemmas::selection_among))]
fn has_selection(lines: &[Specification]) -> bool
    ensures { result ≡ list_any (λ s. is_selection s.kind) (lines_of line_kinds.Selection lines.now) }
{
    has_select_or_omit(lines)
}

fn has_select_or_omit(lines: &[Specification]) -> bool
    ensures { result ≡ list_any (λ s. is_selection s.kind) lines.now }
{
    lines.iter().any(|line| is_selection(line.kind))
}

/// Notes ALL before the last statement, or not alone.
#[tactic(auto, using(dds_physical::proofs::FaultLemmas::first_after_append))]
fn note_all(line: &Specification, more: &[Specification], first: &mut FirstFault)
    ensures { first.new.fault ≡ first_after first.old.fault (all_faults line.now (lines_of line_kinds.Selection more.now) (first_named (codes "ALL") line.now.keywords)) }
{
    if let Some(keyword) = first_named(b"ALL", line.keywords.as_slice()) {
        first.note_if(
            has_selection(more),
            keyword_fault(keyword, DdsCause::OutOfOrder),
        );
        first.note_if(
            is_all_not_alone(line, more),
            keyword_fault(keyword, DdsCause::BadArguments),
        );
    }
}

#[tactic(auto, using(dds_physical::proofs::FaultLemmas::first_after_append))]
fn note_line(
    alloc: Global,
    named: &[NamedField],
    base: &[Field],
    line: &Specification,
    more: &[Specification],
    first: &mut FirstFault,
) -> Result<(), AllocError>
    requires named { AreShown named.now }
    requires base { IsLaidOut base.now }
    ensures { OnOk result (first.new.fault ≡ first_after first.old.fault (selection_line_faults (field_to_test named.now base.now) line.now (lines_of line_kinds.Selection more.now))) }
{
    let keywords = line.keywords.as_slice();
    note_no_field(named, base, line, first);
    note_keywords(false, KeywordPlace::Selection, keywords, first);
    note_field_tests(alloc, named, base, line, first)?;
    note_other_fields(named, base, keywords, first);
    note_all(line, more, first);
    Ok(())
}

/// Notes what is wrong with a line, if it is one of a selection.
#[tactic(auto, unfolding(crate::specs::Tested::selection_at))]
fn note_selection(
    alloc: Global,
    named: &[NamedField],
    base: &[Field],
    line: &Specification,
    more: &[Specification],
    first: &mut FirstFault,
) -> Result<(), AllocError>
    requires named { AreShown named.now }
    requires base { IsLaidOut base.now }
    ensures { OnOk result (first.new.fault ≡ first_after first.old.fault (selection_at (field_to_test named.now base.now) line.now more.now)) }
{
    if is_of(LineKind::Selection, line) {
        note_line(alloc, named, base, line, more, first)
    } else {
        Ok(())
    }
}

/// Notes what is wrong with the select and omit lines of a format.
#[tactic(auto, using(dds_physical::proofs::FaultLemmas::first_after_append, crate::proofs::TestedLemmas::selection_more))]
pub(crate) fn note_selections(
    alloc: Global,
    named: &[NamedField],
    base: &[Field],
    lines: &[Specification],
    first: &mut FirstFault,
) -> Result<(), AllocError>
    requires named { AreShown named.now }
    requires base { IsLaidOut base.now }
    ensures { OnOk result (first.new.fault ≡ first_after first.old.fault (selection_lines_faults (field_to_test named.now base.now) (lines_of line_kinds.Selection lines.now))) }
{
    let mut rest = lines;
    while !rest.is_empty() {
        let (here, more) = rest.split_at(1);
        note_selection(alloc, named, base, &here[0], more, first)?;
        rest = more;
    }
    Ok(())
}
