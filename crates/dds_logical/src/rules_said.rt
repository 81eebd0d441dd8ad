//! The select and omit statements of a format.
ghost use Rattle.std.specs.Prelude.{◌≡◌, ◌++◌, ◌∷◌, List, [], flat_map, Option, Some, None, IfOk, OnOk, if◌then◌else◌};
ghost use Rattle.dds_logical.specs.declared.format_lines.LineKind.TheVariants as line_kinds;
ghost use Rattle.dds_logical.specs.Selections.{field_to_test, further_lines, has_all, statement_of, statement_begun, statements_said, choice_of, all_said, rules_said};
ghost use Rattle.dds_logical.specs.Judged.{lines_of};
ghost use Rattle.dds_logical.specs.Tested.{condition_of, conditions_of, conditions_at, further_conditions, ends_further};

use crate::format_lines::{LineKind, is_of};
use crate::keyword_names::is_there;
use crate::named_fields::NamedField;
use crate::names::name_of;
use crate::selections::is_further;
use crate::tested_fields::field_to_test;
use crate::tests_said::test_said;
use dds_physical::dds_source::keywords::Keyword;
use dds_physical::dds_source::specifications::{Specification, SpecificationKind};
use field_types::lists::ListOf;
use file_model::rules::{Choice, Condition, Rules, Statement};
use record_fmt::formats::Field;
use std::alloc::{AllocError, Global};

/// Adds the condition of a keyword, if it is a test and the line has a field.
#[tactic(auto, unfolding(crate::specs::Tested::condition_of))]
fn add_condition(
    alloc: Global,
    named: &[NamedField],
    base: &[Field],
    line: &Specification,
    keyword: &Keyword,
    conditions: &mut ListOf<Condition>,
) -> Result<(), AllocError>
    ensures { OnOk result (conditions.new ≡ conditions.old ++ condition_of (field_to_test named.now base.now) line.now keyword.now) }
{
    let field = field_to_test(alloc, named, base, name_of(line.name))?;
    let test = test_said(alloc, named, base, keyword)?;
    match (field, test) {
        (Some(field), Some(test)) => conditions.push(Condition { field, test }),
        _ => Ok(()),
    }
}

/// Adds the conditions of a line.
fn add_conditions(
    alloc: Global,
    named: &[NamedField],
    base: &[Field],
    line: &Specification,
    conditions: &mut ListOf<Condition>,
) -> Result<(), AllocError>
    ensures { OnOk result (conditions.new ≡ conditions.old ++ conditions_of (field_to_test named.now base.now) line.now line.now.keywords) }
{
    let keywords = line.keywords.as_slice();
    for keyword in keywords {
        add_condition(alloc, named, base, line, keyword, conditions)?;
    }
    Ok(())
}

#[tactic(auto, unfolding(crate::specs::Tested::conditions_at))]
fn add_if_selection(
    alloc: Global,
    named: &[NamedField],
    base: &[Field],
    line: &Specification,
    conditions: &mut ListOf<Condition>,
) -> Result<(), AllocError>
    ensures { OnOk result (conditions.new ≡ conditions.old ++ conditions_at (field_to_test named.now base.now) line.now) }
{
    if is_of(LineKind::Selection, line) {
        add_conditions(alloc, named, base, line, conditions)
    } else {
        Ok(())
    }
}

/// Whether the line is a select or an omit, which ends the further conditions before it.
#[tactic(auto, unfolding(crate::specs::Tested::ends_further))]
fn ends_further(line: &Specification) -> bool
    ensures { result ≡ ends_further line.now }
{
    is_of(LineKind::Selection, line) && !is_further(line.kind)
}

/// Adds the further conditions that lines begin with.
fn add_further(
    alloc: Global,
    named: &[NamedField],
    base: &[Field],
    lines: &[Specification],
    conditions: &mut ListOf<Condition>,
) -> Result<(), AllocError>
    ensures { OnOk result (conditions.new ≡ conditions.old ++ further_conditions (field_to_test named.now base.now) lines.now) }
{
    for line in lines {
        if ends_further(line) {
            return Ok(());
        }
        add_if_selection(alloc, named, base, line, conditions)?;
    }
    Ok(())
}

/// The statement that a line begins.
#[tactic(auto, using(crate::proofs::ListLemmas::joined))]
fn statement(
    alloc: Global,
    named: &[NamedField],
    base: &[Field],
    choice: Choice,
    line: &Specification,
    more: &[Specification],
) -> Result<Statement, AllocError>
    ensures { IfOk result (λ s. s ≡ statement_of (field_to_test named.now base.now) choice (line.now ∷ further_lines (lines_of line_kinds.Selection more.now))) }
{
    let mut conditions = ListOf::new(alloc);
    add_conditions(alloc, named, base, line, &mut conditions)?;
    add_further(alloc, named, base, more, &mut conditions)?;
    Ok(Statement { choice, conditions })
}

fn has_all(line: &Specification) -> bool
    ensures { result ≡ has_all line.now }
{
    is_there(b"ALL", line.keywords.as_slice())
}

/// What a select or an omit chooses.
fn choice_of(kind: SpecificationKind) -> Option<Choice>
    ensures { result ≡ choice_of kind }
{
    match kind {
        SpecificationKind::Select => Some(Choice::Select),
        SpecificationKind::Omit => Some(Choice::Omit),
        SpecificationKind::Record
        | SpecificationKind::Field
        | SpecificationKind::Key
        | SpecificationKind::And
        | SpecificationKind::Join => None,
    }
}

/// What ALL says.
fn all_said(lines: &[Specification]) -> Option<Choice>
    ensures { result ≡ all_said (lines_of line_kinds.Selection lines.now) }
{
    for line in lines {
        if is_of(LineKind::Selection, line) && has_all(line) {
            return choice_of(line.kind);
        }
    }
    None
}

/// Adds the statement that a line begins, if it begins one without ALL.
#[tactic(auto, using(crate::proofs::RuleLemmas::begun_is))]
fn add_statement(
    alloc: Global,
    named: &[NamedField],
    base: &[Field],
    line: &Specification,
    more: &[Specification],
    statements: &mut ListOf<Statement>,
) -> Result<(), AllocError>
    ensures { OnOk result (statements.new ≡ statements.old ++ statement_begun (field_to_test named.now base.now) line.now.kind line.now (lines_of line_kinds.Selection more.now)) }
{
    match choice_of(line.kind) {
        Some(choice) if !has_all(line) => {
            let statement = statement(alloc, named, base, choice, line, more)?;
            statements.push(statement)
        }
        _ => Ok(()),
    }
}

/// The statements of a format, in order.
#[tactic(auto, using(crate::proofs::RuleLemmas::statements_more, crate::proofs::ListLemmas::joined))]
fn statements_said(
    alloc: Global,
    named: &[NamedField],
    base: &[Field],
    lines: &[Specification],
) -> Result<ListOf<Statement>, AllocError>
    ensures { IfOk result (λ statements. statements ≡ statements_said (field_to_test named.now base.now) (lines_of line_kinds.Selection lines.now)) }
{
    let mut statements = ListOf::new(alloc);
    let mut rest = lines;
    while let [line, more @ ..] = rest {
        add_statement(alloc, named, base, line, more, &mut statements)?;
        rest = more;
    }
    Ok(statements)
}

/// What the select and omit lines of a format say.
pub(crate) fn rules_said(
    alloc: Global,
    named: &[NamedField],
    base: &[Field],
    lines: &[Specification],
) -> Result<Rules, AllocError>
    ensures { IfOk result (λ rules. rules ≡ rules_said (field_to_test named.now base.now) (lines_of line_kinds.Selection lines.now)) }
{
    let statements = statements_said(alloc, named, base, lines)?;
    Ok(Rules {
        statements,
        all: all_said(lines),
    })
}
