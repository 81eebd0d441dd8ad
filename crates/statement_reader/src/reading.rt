//! A statement as a whole: its label, its command, and what it says. By `specs/Statements.antt`.
ghost use Rattle.std.specs.Prelude.{◌≡◌, ◌<◌, ◌≤◌, length, IfOk, IfSome};
ghost use Rattle.std.specs.List.{prefix_len};
ghost use Rattle.statement_reader.specs.Words.{words};
ghost use Rattle.statement_reader.specs.Statements.{phrase_of, label_length, colon_in, labelled, statement_of};

use crate::commands::command_named;
use crate::parameters::has_only;
use crate::phrases::command_phrase;
use crate::variables::Variables;
use crate::words::{next_word, unindented};
use field_types::names::Name;
use statement_syntax::Phrase;
use std::alloc::{AllocError, Global};
use text_lines::lines::is_blank;

/// What a statement says, and its label.
#[derive(Drop)]
pub struct Said {
    pub label: Option<Name>,
    pub phrase: Phrase,
}

/// What the text of a statement says: its lines joined, without the signs that continue them. `None` where it is no statement.
#[tactic(auto, unfolding(crate::specs::Statements::statement_of))]
pub fn read_statement(
    alloc: Global,
    variables: &Variables,
    text: &[u8],
) -> Result<Option<Said>, AllocError>
    ensures { IfOk result (λ said. said ≡ statement_of variables.now text.now) }
{
    let body = unindented(text);
    if let Some(colon) = colon(body) {
        return labelled(alloc, variables, body, colon);
    }
    match phrase(alloc, variables, text)? {
        Some(phrase) => Ok(Some(Said {
            label: None,
            phrase,
        })),
        None => Ok(None),
    }
}

/// How many characters stand before the first blank or colon.
#[tactic(auto, using(crate::proofs::NumberLemmas::counted))]
fn label_length(text: &[u8]) -> usize
    ensures label { result ≡ label_length text.now }
    ensures within { result ≤ length text.now }
{
    text.iter()
        .take_while(|&&character| !is_blank(character) && character != b':')
        .count()
}

/// Where the colon of a label stands.
fn colon(text: &[u8]) -> Option<usize>
    ensures colon { result ≡ colon_in text.now }
    ensures within { IfSome result (λ at. at < length text.now) }
{
    let length = label_length(text);
    if length < text.len() && text[length] == b':' {
        Some(length)
    } else {
        None
    }
}

fn labelled(
    alloc: Global,
    variables: &Variables,
    text: &[u8],
    colon: usize,
) -> Result<Option<Said>, AllocError>
    requires { colon < length text.now }
    ensures { IfOk result (λ said. said ≡ labelled variables.now text.now colon) }
{
    let Some(label) = Name::from_bytes(&text[..colon]) else {
        return Ok(None);
    };
    match phrase(alloc, variables, &text[colon + 1..])? {
        Some(phrase) => Ok(Some(Said {
            label: Some(label),
            phrase,
        })),
        None => Ok(None),
    }
}

/// What a command and its parameters say.
#[tactic(auto, unfolding(crate::specs::Statements::phrase_of))]
fn phrase(alloc: Global, variables: &Variables, text: &[u8]) -> Result<Option<Phrase>, AllocError>
    ensures { IfOk result (λ phrase. phrase ≡ phrase_of variables.now (words text.now)) }
{
    let Some((word, statement)) = next_word(text) else {
        return Ok(None);
    };
    let Some(command) = command_named(word) else {
        return Ok(None);
    };
    if has_only(statement, command.parameters()) {
        command_phrase(alloc, variables, command, statement)
    } else {
        Ok(None)
    }
}
