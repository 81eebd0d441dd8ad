//! The statements that are no requests, by `specs/Control.antt`.
ghost use Rattle.std.specs.Prelude.{◌≡◌, IfOk};
ghost use Rattle.statement_reader.specs.Words.{words};
ghost use Rattle.statement_reader.specs.Control.{label_of, jump_of, jump_in, has_do, condition_in, is_any, named_of, monitored_of, monitored_in, execute_in, new_variable, variable_in, literal_in, expression_in, declaration, change, branch, choice_of_way, otherwise, while_loop, jump, monitor};

use crate::arguments::{name_in, name_of, stands, word_in};
use crate::literals::literal_of;
use crate::operands::{condition_of, expression_of, variable_of};
use crate::parameters::{Parameter, behind, given, has_only};
use crate::refusal_names::refusal_named;
use crate::variables::Variables;
use crate::words::{next_word, only};
use field_types::names::Name;
use field_types::values::Value;
use job_language::operands::{Condition, Expression};
use job_language::refusals::{Monitored, Refusals};
use statement_syntax::Phrase;
use std::alloc::{AllocError, Global};

fn label_of(text: &[u8]) -> Option<Name>
    ensures { result ≡ label_of (words text.now) }
{
    if has_only(text, &[Parameter::Label]) {
        name_in(text, Parameter::Label)
    } else {
        None
    }
}

/// The label of GOTO CMDLBL(l).
#[tactic(auto, unfolding(crate::specs::Control::jump_of))]
fn jump_of(text: &[u8]) -> Option<Name>
    ensures { result ≡ jump_of (words text.now) }
{
    let Some((verb, rest)) = next_word(text) else {
        return None;
    };
    if verb == b"GOTO".as_slice() {
        label_of(rest)
    } else {
        None
    }
}

#[tactic(auto, unfolding(crate::specs::Control::jump_in))]
fn jump_in(text: &[u8], parameter: Parameter) -> Option<Name>
    ensures { result ≡ jump_in parameter (words text.now) }
{
    let Some(inner) = given(text, parameter) else {
        return None;
    };
    jump_of(inner)
}

#[tactic(auto, unfolding(crate::specs::Control::has_do))]
fn has_do(text: &[u8], parameter: Parameter) -> bool
    ensures { result ≡ has_do parameter (words text.now) }
{
    match word_in(text, parameter) {
        Some(word) => word == b"DO".as_slice(),
        None => false,
    }
}

#[tactic(auto, unfolding(crate::specs::Control::condition_in))]
fn condition_in(
    alloc: Global,
    variables: &Variables,
    text: &[u8],
) -> Result<Option<Condition>, AllocError>
    ensures { IfOk result (λ condition. condition ≡ condition_in variables.now (words text.now)) }
{
    match given(text, Parameter::Condition) {
        Some(inner) => condition_of(alloc, variables, inner),
        None => Ok(None),
    }
}

fn is_any(text: &[u8]) -> bool
    ensures { result ≡ is_any (words text.now) }
{
    match only(text) {
        Some(word) => word == b"*ANY".as_slice(),
        None => false,
    }
}

/// The names of MSGID.
fn named_of(alloc: Global, text: &[u8]) -> Result<Option<Refusals>, AllocError>
    ensures { IfOk result (λ names. names ≡ named_of (words text.now)) }
{
    let mut names = Vec::new(alloc);
    let mut rest = text;
    while let Some((word, others)) = next_word(rest) {
        let Some(next) = refusal_named(word) else {
            return Ok(None);
        };
        names.push(next)?;
        rest = others;
    }
    let names = Refusals::from_vec(names);
    if names.as_slice().is_empty() {
        Ok(None)
    } else {
        Ok(Some(names))
    }
}

/// The refusals of MSGID.
#[tactic(auto, unfolding(crate::specs::Control::monitored_of))]
fn monitored_of(alloc: Global, text: &[u8]) -> Result<Option<Monitored>, AllocError>
    ensures { IfOk result (λ takes. takes ≡ monitored_of (words text.now)) }
{
    if is_any(text) {
        return Ok(Some(Monitored::Any));
    }
    match named_of(alloc, text)? {
        Some(names) => Ok(Some(Monitored::Named(names))),
        None => Ok(None),
    }
}

#[tactic(auto, unfolding(crate::specs::Control::monitored_in))]
fn monitored_in(alloc: Global, text: &[u8]) -> Result<Option<Monitored>, AllocError>
    ensures { IfOk result (λ takes. takes ≡ monitored_in (words text.now)) }
{
    match given(text, Parameter::Message) {
        Some(inner) => monitored_of(alloc, inner),
        None => Ok(None),
    }
}

/// The label of EXEC, which may be left out.
#[tactic(auto, unfolding(crate::specs::Control::execute_in))]
fn execute_in(text: &[u8]) -> Option<Option<Name>>
    ensures { result ≡ execute_in (words text.now) }
{
    if !stands(text, Parameter::Execute) {
        return Some(None);
    }
    match jump_in(text, Parameter::Execute) {
        Some(label) => Some(Some(label)),
        None => None,
    }
}

#[tactic(auto, unfolding(crate::specs::Control::new_variable))]
fn new_variable(text: &[u8]) -> Option<Name>
    ensures { result ≡ new_variable (words text.now) }
{
    let Some(word) = word_in(text, Parameter::Variable) else {
        return None;
    };
    let Some(spelled) = behind(word, b"&") else {
        return None;
    };
    name_of(spelled)
}

#[tactic(auto, unfolding(crate::specs::Control::variable_in))]
fn variable_in(variables: &Variables, text: &[u8]) -> Option<usize>
    ensures { result ≡ variable_in variables.now (words text.now) }
{
    let Some(word) = word_in(text, Parameter::Variable) else {
        return None;
    };
    variable_of(variables, word)
}

#[tactic(auto, unfolding(crate::specs::Control::literal_in))]
fn literal_in(alloc: Global, text: &[u8]) -> Result<Option<Value>, AllocError>
    ensures { IfOk result (λ value. value ≡ literal_in (words text.now)) }
{
    match word_in(text, Parameter::Value) {
        Some(word) => literal_of(alloc, word),
        None => Ok(None),
    }
}

#[tactic(auto, unfolding(crate::specs::Control::expression_in))]
fn expression_in(
    alloc: Global,
    variables: &Variables,
    text: &[u8],
) -> Result<Option<Expression>, AllocError>
    ensures { IfOk result (λ value. value ≡ expression_in variables.now (words text.now)) }
{
    match given(text, Parameter::Value) {
        Some(inner) => expression_of(alloc, variables, inner),
        None => Ok(None),
    }
}

/// DCL
#[tactic(auto, unfolding(crate::specs::Control::declaration))]
pub fn declaration(alloc: Global, text: &[u8]) -> Result<Option<Phrase>, AllocError>
    ensures { IfOk result (λ phrase. phrase ≡ declaration (words text.now)) }
{
    let Some(variable) = new_variable(text) else {
        return Ok(None);
    };
    let Some(value) = literal_in(alloc, text)? else {
        return Ok(None);
    };
    Ok(Some(Phrase::Declare { variable, value }))
}

/// CHGVAR
#[tactic(auto, unfolding(crate::specs::Control::change))]
pub fn change(
    alloc: Global,
    variables: &Variables,
    text: &[u8],
) -> Result<Option<Phrase>, AllocError>
    ensures { IfOk result (λ phrase. phrase ≡ change variables.now (words text.now)) }
{
    let Some(variable) = variable_in(variables, text) else {
        return Ok(None);
    };
    let Some(value) = expression_in(alloc, variables, text)? else {
        return Ok(None);
    };
    Ok(Some(Phrase::ChangeVariable { variable, value }))
}

/// IF with THEN(GOTO CMDLBL(l))
#[tactic(auto, unfolding(crate::specs::Control::branch))]
fn branch(alloc: Global, variables: &Variables, text: &[u8]) -> Result<Option<Phrase>, AllocError>
    ensures { IfOk result (λ phrase. phrase ≡ branch variables.now (words text.now)) }
{
    let Some(label) = jump_in(text, Parameter::Then) else {
        return Ok(None);
    };
    let Some(condition) = condition_in(alloc, variables, text)? else {
        return Ok(None);
    };
    Ok(Some(Phrase::IfGoto { condition, label }))
}

/// IF
#[tactic(auto, unfolding(crate::specs::Control::choice_of_way))]
pub fn choice_of_way(
    alloc: Global,
    variables: &Variables,
    text: &[u8],
) -> Result<Option<Phrase>, AllocError>
    ensures { IfOk result (λ phrase. phrase ≡ choice_of_way variables.now (words text.now)) }
{
    if !has_do(text, Parameter::Then) {
        return branch(alloc, variables, text);
    }
    match condition_in(alloc, variables, text)? {
        Some(condition) => Ok(Some(Phrase::IfDo(condition))),
        None => Ok(None),
    }
}

/// ELSE
#[tactic(auto, unfolding(crate::specs::Control::otherwise))]
pub fn otherwise(text: &[u8]) -> Option<Phrase>
    ensures { result ≡ otherwise (words text.now) }
{
    if has_do(text, Parameter::Command) {
        Some(Phrase::Else)
    } else {
        None
    }
}

/// DOWHILE
#[tactic(auto, unfolding(crate::specs::Control::while_loop))]
pub fn while_loop(
    alloc: Global,
    variables: &Variables,
    text: &[u8],
) -> Result<Option<Phrase>, AllocError>
    ensures { IfOk result (λ phrase. phrase ≡ while_loop variables.now (words text.now)) }
{
    match condition_in(alloc, variables, text)? {
        Some(condition) => Ok(Some(Phrase::DoWhile(condition))),
        None => Ok(None),
    }
}

/// GOTO
#[tactic(auto, unfolding(crate::specs::Control::jump))]
pub fn jump(text: &[u8]) -> Option<Phrase>
    ensures { result ≡ jump (words text.now) }
{
    match name_in(text, Parameter::Label) {
        Some(label) => Some(Phrase::Goto(label)),
        None => None,
    }
}

/// MONMSG
#[tactic(auto, unfolding(crate::specs::Control::monitor))]
pub fn monitor(alloc: Global, text: &[u8]) -> Result<Option<Phrase>, AllocError>
    ensures { IfOk result (λ phrase. phrase ≡ monitor (words text.now)) }
{
    let Some(label) = execute_in(text) else {
        return Ok(None);
    };
    let Some(takes) = monitored_in(alloc, text)? else {
        return Ok(None);
    };
    Ok(Some(Phrase::Monitor { takes, label }))
}
