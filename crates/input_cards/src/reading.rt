//! Which card a line is, by `specs/Cards.antt`.
ghost use Rattle.std.specs.Prelude.{◌≡◌, ◌≤◌, Bool, IfOk, length, option_copied};
ghost use Rattle.input_cards.specs.Cards.{behind, behind_word, card_of, end_of, is_card, is_round_robin, name_on, names_alone, schedule_of, turns_of};
ghost use Rattle.input_cards.specs.Names.{names_in};
ghost use Rattle.statement_reader.specs.Words.{words};

use crate::cards::{Card, Turns};
use field_types::lists::ListOf;
use field_types::names::Name;
use statement_reader::words::{next_word, only};
use std::alloc::{AllocError, Global};
use text_lines::lines::{blanks_before, name_alone};

/// Whether the line begins as cards do, and so is no line of a source or a job.
pub fn is_card(line: &[u8]) -> bool
    ensures { result ≡ is_card line.now }
{
    behind(line, b"//").is_some()
}

/// The card that the line is; `None` where it is none.
#[tactic(auto, unfolding(crate::specs::Cards::card_of))]
pub fn card(alloc: Global, line: &[u8]) -> Result<Option<Card>, AllocError>
    ensures { IfOk result (λ card. card ≡ card_of line.now) }
{
    if let Some(name) = name_on(line, b"//DDS") {
        return Ok(Some(Card::Source(name)));
    }
    if let Some(name) = name_on(line, b"//JOB") {
        return Ok(Some(Card::Job(name)));
    }
    if let Some(turns) = schedule(alloc, line)? {
        return Ok(Some(turns));
    }
    Ok(end(line))
}

/// What stands behind the front of a text, where the text has that front.
fn behind<'a>(text: &'a [u8], front: &[u8]) -> Option<&'a [u8]>
    ensures { option_copied result ≡ behind front.now text.now }
{
    text.strip_prefix(front)
}

/// What stands behind the word of a card and the blanks after it.
fn behind_word<'a>(line: &'a [u8], word: &[u8]) -> Option<&'a [u8]>
    ensures { option_copied result ≡ behind_word word.now line.now }
{
    let Some(text) = behind(line, word) else {
        return None;
    };
    let blanks = blanks_before(text);
    if blanks == 0 {
        None
    } else {
        Some(&text[blanks..])
    }
}

fn name_on(line: &[u8], word: &[u8]) -> Option<Name>
    ensures { result ≡ name_on word.now line.now }
{
    let Some(text) = behind_word(line, word) else {
        return None;
    };
    name_alone(text)
}

fn schedule(alloc: Global, line: &[u8]) -> Result<Option<Card>, AllocError>
    ensures { IfOk result (λ card. card ≡ schedule_of line.now) }
{
    let Some(text) = behind_word(line, b"//SCHED") else {
        return Ok(None);
    };
    match turns(alloc, text)? {
        Some(turns) => Ok(Some(Card::Schedule(turns))),
        None => Ok(None),
    }
}

fn end(line: &[u8]) -> Option<Card>
    ensures { result ≡ end_of line.now }
{
    if line == b"//END".as_slice() {
        Some(Card::End)
    } else {
        None
    }
}

fn turns(alloc: Global, text: &[u8]) -> Result<Option<Turns>, AllocError>
    ensures { IfOk result (λ turns. turns ≡ turns_of (words text.now)) }
{
    if is_round_robin(text) {
        return Ok(Some(Turns::RoundRobin));
    }
    jobs_in_turn(alloc, text)
}

fn is_round_robin(text: &[u8]) -> bool
    ensures { result ≡ is_round_robin (words text.now) }
{
    match only(text) {
        Some(word) => word == b"*RR".as_slice(),
        None => false,
    }
}

fn jobs_in_turn(alloc: Global, text: &[u8]) -> Result<Option<Turns>, AllocError>
    ensures { IfOk result (λ turns. turns ≡ names_alone (words text.now)) }
{
    match names(alloc, text)? {
        Some(names) if !names.as_slice().is_empty() => Ok(Some(Turns::Jobs(names))),
        _ => Ok(None),
    }
}

/// The words of the text, where each is a name.
fn names(alloc: Global, text: &[u8]) -> Result<Option<ListOf<Name>>, AllocError>
    ensures { IfOk result (λ names. names ≡ names_in (words text.now)) }
{
    let mut names = ListOf::new(alloc);
    let mut rest = text;
    while let Some((word, others)) = next_word(rest) {
        let Some(name) = Name::from_bytes(word) else {
            return Ok(None);
        };
        names.push(name)?;
        rest = others;
    }
    Ok(Some(names))
}
