//! What a parameter gives, and what it gives where it stands nowhere. By `specs/Arguments.antt`.
ghost use Rattle.std.specs.Prelude.{◌≡◌, option_copied, option_map, IfOk};
ghost use Rattle.statement_reader.specs.Words.{words};
ghost use Rattle.statement_reader.specs.Arguments.{word_in, name_of, name_in, stands, name_or, images_of, images_in, option_of, option_in, commit_of, commit_in, access_path_of, access_path_in, lock_of, lock_in, level_of, level_in, end_of, end_in, format_of, format_in, place_of, place_in, number_at, sequence_at, key_in, values_in, targets_in};

use crate::operands::{given_operands, number_operand, operands_of, sequence_operand, targets_of};
use crate::parameters::{Parameter, given};
use crate::variables::Variables;
use crate::words::only;
use commit_level::Level;
use entry_codec::Images;
use field_types::names::Name;
use job_language::forms::EndForm;
use job_language::operands::{GivenOperands, NumberOperand, Operands, SequenceOperand, Targets};
use library_model::requests::{AccessPath, LockOption, OpenOption};
use std::alloc::{AllocError, Global};

/// The word alone in the parentheses of a parameter.
#[tactic(auto, unfolding(crate::specs::Arguments::word_in))]
pub fn word_in(text: &[u8], parameter: Parameter) -> Option<&[u8]>
    ensures { option_copied result ≡ word_in parameter (words text.now) }
{
    let Some(inner) = given(text, parameter) else {
        return None;
    };
    only(inner)
}

/// Whether the parameter stands in the statement.
pub fn stands(text: &[u8], parameter: Parameter) -> bool
    ensures { result ≡ stands parameter (words text.now) }
{
    given(text, parameter).is_some()
}

/// A name.
#[tactic(auto, unfolding(crate::specs::Arguments::name_in))]
pub fn name_in(text: &[u8], parameter: Parameter) -> Option<Name>
    ensures { result ≡ name_in parameter (words text.now) }
{
    let Some(word) = word_in(text, parameter) else {
        return None;
    };
    name_of(word)
}

/// The name that a word is.
pub fn name_of(word: &[u8]) -> Option<Name>
    ensures { result ≡ name_of word.now }
{
    Name::from_bytes(word)
}

/// A name, or where the parameter stands nowhere another.
#[tactic(auto, unfolding(crate::specs::Arguments::name_or))]
pub fn name_or(text: &[u8], parameter: Parameter, default: Name) -> Option<Name>
    ensures { result ≡ name_or parameter default (words text.now) }
{
    if stands(text, parameter) {
        name_in(text, parameter)
    } else {
        Some(default)
    }
}

fn images_of(word: &[u8]) -> Option<Images>
    ensures { result ≡ images_of word.now }
{
    if word == b"*AFTER".as_slice() {
        Some(Images::After)
    } else if word == b"*BOTH".as_slice() {
        Some(Images::Both)
    } else {
        None
    }
}

/// IMAGES
#[tactic(auto, unfolding(crate::specs::Arguments::images_in))]
pub fn images_in(text: &[u8]) -> Option<Images>
    ensures { result ≡ images_in (words text.now) }
{
    if !stands(text, Parameter::Images) {
        return Some(Images::After);
    }
    let Some(word) = word_in(text, Parameter::Images) else {
        return None;
    };
    images_of(word)
}

fn option_of(word: &[u8]) -> Option<OpenOption>
    ensures { result ≡ option_of word.now }
{
    if word == b"*INP".as_slice() {
        Some(OpenOption::Input)
    } else if word == b"*ALL".as_slice() {
        Some(OpenOption::All)
    } else {
        None
    }
}

/// OPTION
#[tactic(auto, unfolding(crate::specs::Arguments::option_in))]
pub fn option_in(text: &[u8]) -> Option<OpenOption>
    ensures { result ≡ option_in (words text.now) }
{
    if !stands(text, Parameter::Option) {
        return Some(OpenOption::Input);
    }
    let Some(word) = word_in(text, Parameter::Option) else {
        return None;
    };
    option_of(word)
}

fn commit_of(word: &[u8]) -> Option<bool>
    ensures { result ≡ commit_of word.now }
{
    if word == b"*NO".as_slice() {
        Some(false)
    } else if word == b"*YES".as_slice() {
        Some(true)
    } else {
        None
    }
}

/// COMMIT
#[tactic(auto, unfolding(crate::specs::Arguments::commit_in))]
pub fn commit_in(text: &[u8]) -> Option<bool>
    ensures { result ≡ commit_in (words text.now) }
{
    if !stands(text, Parameter::Commit) {
        return Some(false);
    }
    let Some(word) = word_in(text, Parameter::Commit) else {
        return None;
    };
    commit_of(word)
}

fn access_path_of(word: &[u8]) -> Option<AccessPath>
    ensures { result ≡ access_path_of word.now }
{
    if word == b"*FILE".as_slice() {
        Some(AccessPath::File)
    } else if word == b"*ARRIVAL".as_slice() {
        Some(AccessPath::Arrival)
    } else {
        None
    }
}

/// ACCPTH
#[tactic(auto, unfolding(crate::specs::Arguments::access_path_in))]
pub fn access_path_in(text: &[u8]) -> Option<AccessPath>
    ensures { result ≡ access_path_in (words text.now) }
{
    if !stands(text, Parameter::AccessPath) {
        return Some(AccessPath::File);
    }
    let Some(word) = word_in(text, Parameter::AccessPath) else {
        return None;
    };
    access_path_of(word)
}

fn lock_of(word: &[u8]) -> Option<LockOption>
    ensures { result ≡ lock_of word.now }
{
    if word == b"*DFT".as_slice() {
        Some(LockOption::Default)
    } else if word == b"*NO".as_slice() {
        Some(LockOption::No)
    } else {
        None
    }
}

/// LCK
#[tactic(auto, unfolding(crate::specs::Arguments::lock_in))]
pub fn lock_in(text: &[u8]) -> Option<LockOption>
    ensures { result ≡ lock_in (words text.now) }
{
    if !stands(text, Parameter::Lock) {
        return Some(LockOption::Default);
    }
    let Some(word) = word_in(text, Parameter::Lock) else {
        return None;
    };
    lock_of(word)
}

fn level_of(word: &[u8]) -> Option<Level>
    ensures { result ≡ level_of word.now }
{
    if word == b"*CHG".as_slice() {
        Some(Level::Chg)
    } else if word == b"*CS".as_slice() {
        Some(Level::Cs)
    } else if word == b"*ALL".as_slice() {
        Some(Level::All)
    } else {
        None
    }
}

/// LCKLVL
#[tactic(auto, unfolding(crate::specs::Arguments::level_in))]
pub fn level_in(text: &[u8]) -> Option<Level>
    ensures { result ≡ level_in (words text.now) }
{
    let Some(word) = word_in(text, Parameter::LockLevel) else {
        return None;
    };
    level_of(word)
}

fn end_of(variables: &Variables, word: &[u8]) -> Option<EndForm>
    ensures { result ≡ end_of variables.now word.now }
{
    if word == b"*FIRST".as_slice() {
        return Some(EndForm::First);
    }
    if word == b"*LAST".as_slice() {
        return Some(EndForm::Last);
    }
    match sequence_operand(variables, word) {
        Some(sequence) => Some(EndForm::Sequence(sequence)),
        None => None,
    }
}

/// FROMENT and TOENT of a range that has defaults.
#[tactic(auto, unfolding(crate::specs::Arguments::end_in))]
pub fn end_in(
    variables: &Variables,
    text: &[u8],
    parameter: Parameter,
    default: EndForm,
) -> Option<EndForm>
    ensures { result ≡ end_in parameter default variables.now (words text.now) }
{
    if !stands(text, parameter) {
        return Some(default);
    }
    let Some(word) = word_in(text, parameter) else {
        return None;
    };
    end_of(variables, word)
}

fn format_of(word: &[u8]) -> Option<Option<Name>>
    ensures { result ≡ format_of word.now }
{
    if word == b"*FILE".as_slice() {
        return Some(None);
    }
    match name_of(word) {
        Some(name) => Some(Some(name)),
        None => None,
    }
}

/// FMT
#[tactic(auto, unfolding(crate::specs::Arguments::format_in))]
pub fn format_in(text: &[u8]) -> Option<Option<Name>>
    ensures { result ≡ format_in (words text.now) }
{
    if !stands(text, Parameter::Format) {
        return Some(None);
    }
    let Some(word) = word_in(text, Parameter::Format) else {
        return None;
    };
    format_of(word)
}

fn place_of(variables: &Variables, word: &[u8]) -> Option<Option<NumberOperand>>
    ensures { result ≡ place_of variables.now word.now }
{
    if word == b"*END".as_slice() {
        return Some(None);
    }
    match number_operand(variables, word) {
        Some(number) => Some(Some(number)),
        None => None,
    }
}

/// RRN of WRITE
#[tactic(auto, unfolding(crate::specs::Arguments::place_in))]
pub fn place_in(variables: &Variables, text: &[u8]) -> Option<Option<NumberOperand>>
    ensures { result ≡ place_in variables.now (words text.now) }
{
    if !stands(text, Parameter::RecordNumber) {
        return Some(None);
    }
    let Some(word) = word_in(text, Parameter::RecordNumber) else {
        return None;
    };
    place_of(variables, word)
}

/// RRN and RCV
#[tactic(auto, unfolding(crate::specs::Arguments::number_at))]
pub fn number_at(variables: &Variables, text: &[u8], parameter: Parameter) -> Option<NumberOperand>
    ensures { result ≡ number_at parameter variables.now (words text.now) }
{
    let Some(word) = word_in(text, parameter) else {
        return None;
    };
    number_operand(variables, word)
}

/// FROMENT and TOENT of a range that has no defaults.
#[tactic(auto, unfolding(crate::specs::Arguments::sequence_at))]
pub fn sequence_at(
    variables: &Variables,
    text: &[u8],
    parameter: Parameter,
) -> Option<SequenceOperand>
    ensures { result ≡ sequence_at parameter variables.now (words text.now) }
{
    let Some(word) = word_in(text, parameter) else {
        return None;
    };
    sequence_operand(variables, word)
}

/// KEY
#[tactic(auto, unfolding(crate::specs::Arguments::key_in))]
pub fn key_in(
    alloc: Global,
    variables: &Variables,
    text: &[u8],
) -> Result<Option<Operands>, AllocError>
    ensures { IfOk result (λ key. key ≡ key_in variables.now (words text.now)) }
{
    match given(text, Parameter::Key) {
        Some(inner) => operands_of(alloc, variables, inner),
        None => Ok(None),
    }
}

/// VAL
#[tactic(auto, unfolding(crate::specs::Arguments::values_in))]
pub fn values_in(
    alloc: Global,
    variables: &Variables,
    text: &[u8],
) -> Result<Option<GivenOperands>, AllocError>
    ensures { IfOk result (λ values. values ≡ values_in variables.now (words text.now)) }
{
    match given(text, Parameter::Values) {
        Some(inner) => given_operands(alloc, variables, inner),
        None => Ok(None),
    }
}

/// TO
#[tactic(auto, unfolding(crate::specs::Arguments::targets_in))]
pub fn targets_in(
    alloc: Global,
    variables: &Variables,
    text: &[u8],
) -> Result<Option<Targets>, AllocError>
    ensures { IfOk result (λ into. into ≡ targets_in variables.now (words text.now)) }
{
    match given(text, Parameter::To) {
        Some(inner) => targets_of(alloc, variables, inner),
        None => Ok(Some(Targets::from_vec(Vec::new(alloc)))),
    }
}
