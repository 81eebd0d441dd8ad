//! What select and omit lines say.
ghost use Rattle.std.specs.Prelude.{◌≡◌, ◌++◌, ◌∷◌, List, [], flat_map, Option, Some, None, IfOk, OnOk};
ghost use Rattle.std.specs.Option.{option_to_list};
ghost use Rattle.std.specs.List.{filter_map};
ghost use Rattle.dds_physical.specs.Defaults.{literal_value};
ghost use Rattle.dds_physical.specs.KeywordRules.{argument_name};
ghost use Rattle.dds_logical.specs.declared.format_lines.LineKind.TheVariants as line_kinds;
ghost use Rattle.dds_logical.specs.Selections.{field_to_test, tested_field, compared_with, comparison_said, range_between, test_said, conditions_on, conditions_said, further_lines, has_all, statement_of, statement_begun, statements_said, choice_of, all_said, rules_said};
ghost use Rattle.dds_logical.specs.Judged.{lines_of};

use crate::arguments::{argument_name, relation_of};
use crate::format_lines::{LineKind, is_of};
use crate::keyword_names::{arguments_of, has_name, is_compare_keyword, is_there};
use crate::literals::literal_value;
use crate::named_fields::NamedField;
use crate::names::name_of;
use crate::selections::is_further;
use crate::tested_fields::field_to_test;
use dds_physical::dds_source::arguments::Argument;
use dds_physical::dds_source::keywords::Keyword;
use dds_physical::dds_source::specifications::{Specification, SpecificationKind};
use field_types::lists::ListOf;
use field_types::names::Name;
use field_types::values::Value;
use file_model::rules::{Choice, Condition, Relation, Rules, Statement, Test};
use record_fmt::formats::Field;
use std::alloc::{AllocError, Global};

/// COMP with a field.
fn compared_field(
    alloc: Global,
    named: &[NamedField],
    base: &[Field],
    relation: Relation,
    name: Option<Name>,
) -> Result<Option<Test>, AllocError>
    ensures { IfOk result (λ test. test ≡ compared_with (field_to_test named.now base.now) (Some relation) None name) }
{
    match field_to_test(alloc, named, base, name)? {
        Some(field) => Ok(Some(Test::Field(relation, field))),
        None => Ok(None),
    }
}

fn compared_with(
    alloc: Global,
    named: &[NamedField],
    base: &[Field],
    relation: Relation,
    other: &Argument,
) -> Result<Option<Test>, AllocError>
    ensures { IfOk result (λ test. test ≡ compared_with (field_to_test named.now base.now) (Some relation) (literal_value other.now) (argument_name other.now)) }
{
    match literal_value(alloc, other)? {
        Some(literal) => Ok(Some(Test::Literal(relation, literal))),
        None => compared_field(alloc, named, base, relation, argument_name(other)),
    }
}

fn comparison_said(
    alloc: Global,
    named: &[NamedField],
    base: &[Field],
    arguments: &[Argument],
) -> Result<Option<Test>, AllocError>
    ensures { IfOk result (λ test. test ≡ comparison_said (field_to_test named.now base.now) arguments.now) }
{
    match arguments {
        [relation, other] => match relation_of(relation) {
            Some(relation) => compared_with(alloc, named, base, relation, other),
            None => Ok(None),
        },
        _ => Ok(None),
    }
}

/// Adds the value of a literal.
fn add_literal(
    alloc: Global,
    argument: &Argument,
    values: &mut ListOf<Value>,
) -> Result<(), AllocError>
    ensures { OnOk result (values.new ≡ values.old ++ option_to_list (literal_value argument.now)) }
{
    match literal_value(alloc, argument)? {
        Some(value) => values.push(value),
        None => Ok(()),
    }
}

/// The values of the literals among arguments.
#[tactic(auto, using(crate::proofs::ListLemmas::joined, crate::proofs::NamedLemmas::cons_option_is))]
fn values_said(alloc: Global, arguments: &[Argument]) -> Result<ListOf<Value>, AllocError>
    ensures { IfOk result (λ values. values ≡ filter_map literal_value arguments.now) }
{
    let mut values = ListOf::new(alloc);
    for argument in arguments {
        add_literal(alloc, argument, &mut values)?;
    }
    Ok(values)
}

/// RANGE with these values.
fn range_between(alloc: Global, values: &ListOf<Value>) -> Result<Option<Test>, AllocError>
    ensures { IfOk result (λ test. test ≡ range_between values.now) }
{
    match values.as_slice() {
        [low, high] => {
            let low = low.copied(alloc)?;
            let high = high.copied(alloc)?;
            Ok(Some(Test::Range(low, high)))
        }
        _ => Ok(None),
    }
}

/// The test of a keyword.
pub(crate) fn test_said(
    alloc: Global,
    named: &[NamedField],
    base: &[Field],
    keyword: &Keyword,
) -> Result<Option<Test>, AllocError>
    ensures { IfOk result (λ test. test ≡ test_said (field_to_test named.now base.now) keyword.now) }
{
    let arguments = arguments_of(keyword);
    if is_compare_keyword(keyword) {
        return comparison_said(alloc, named, base, arguments);
    }
    if has_name(b"RANGE", keyword) {
        let values = values_said(alloc, arguments)?;
        return range_between(alloc, &values);
    }
    if has_name(b"VALUES", keyword) {
        let values = values_said(alloc, arguments)?;
        return Ok(Some(Test::Values(values)));
    }
    Ok(None)
}
