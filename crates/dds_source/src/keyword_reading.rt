//! Keywords with their arguments and faults.
ghost use Rattle.std.specs.Prelude.{◌≡◌, ◌<◌, ◌++◌, ◌∷◌, [], Bool, not, length, Option, Some, None, IfOk, OnOk, flat_map, if◌then◌else◌};
ghost use Rattle.std.specs.List.{filter_map, cons_option};
ghost use Rattle.dds_source.specs.Faults.{first_after};
ghost use Rattle.dds_source.specs.Entries.{when};
ghost use Rattle.dds_source.specs.KeywordTexts.{keywords_in, bytes, is_keyword_name, name_part, has_parentheses, is_unfinished};
ghost use Rattle.dds_source.specs.Continuation.{joined_text, goes_on};
ghost use Rattle.dds_source.specs.Reading.{text_faults, text_keyword, keyword_faults, keyword_of, keywords_of, last_begun, unfinished_at, sign_faults, joined_faults};

use crate::argument_texts::arguments;
use crate::arguments::Arguments;
use crate::characters::SourceCharacter;
use crate::continuation::joined_text;
use crate::faults::{DdsCause, DdsFault};
use crate::first::FirstFault;
use crate::keyword_texts::{
    bytes, has_parentheses, is_keyword_name, is_unfinished, keyword_len, name_part,
};
use crate::keywords::{Keyword, Keywords};
use crate::lines::Line;
use std::alloc::{AllocError, Global};
use text_lines::field_types::names::Name;

/// The keywords of joined lines; what is wrong with them is noted.
#[tactic(auto, using(crate::proofs::FaultLemmas::first_after_append), unfolding(crate::specs::Reading::keywords_of, crate::specs::Reading::joined_faults))]
pub(crate) fn joined_keywords(
    alloc: Global,
    lines: &[Line],
    first: &mut FirstFault,
) -> Result<Keywords, AllocError>
    requires { 0 < length lines.now }
    ensures keywords { IfOk result (λ keywords. keywords ≡ keywords_of lines.now) }
    ensures faults { OnOk result (first.new.fault ≡ first_after first.old.fault (joined_faults lines.now)) }
{
    let text = joined_text(alloc, lines)?;
    let (keywords, begun) = text_keywords(alloc, &text, first)?;
    note_sign(begun, lines, first);
    Ok(keywords)
}

/// Notes a sign with no line to go on with.
fn note_sign(begun: Option<SourceCharacter>, lines: &[Line], first: &mut FirstFault)
    requires { 0 < length lines.now }
    ensures { first.new.fault ≡ first_after first.old.fault (sign_faults begun lines.now) }
{
    let last = &lines[lines.len() - 1];
    first.note_if(last.goes_on(), unfinished_at(begun, last));
}

fn unfinished_at(begun: Option<SourceCharacter>, line: &Line) -> DdsFault
    ensures { result ≡ unfinished_at begun line.now }
{
    match begun {
        Some(character) => character.fault(DdsCause::UnfinishedText),
        None => DdsFault {
            line: line.number,
            column: 44 + line.used() as u32,
            cause: DdsCause::UnfinishedText,
        },
    }
}

/// The keywords of a text, and the first character of the last one.
fn text_keywords(
    alloc: Global,
    text: &[SourceCharacter],
    first: &mut FirstFault,
) -> Result<(Keywords, Option<SourceCharacter>), AllocError>
    ensures keywords { IfOk result (λ r. r.0 ≡ filter_map keyword_of (keywords_in text.now)) }
    ensures begun { IfOk result (λ r. r.1 ≡ last_begun None (keywords_in text.now)) }
    ensures faults { OnOk result (first.new.fault ≡ first_after first.old.fault (flat_map keyword_faults (keywords_in text.now))) }
{
    let mut keywords = Keywords::new(alloc);
    let mut begun = None;
    let mut rest = text;
    while !rest.is_empty() {
        let len = keyword_len(rest);
        if len == 0 {
            rest = &rest[1..];
        } else {
            let (keyword, after) = rest.split_at(len);
            begun = Some(keyword[0]);
            read_keyword(alloc, keyword, &mut keywords, first)?;
            rest = after;
        }
    }
    Ok((keywords, begun))
}

/// Adds the keyword that stands there, if its name is one, and notes what is wrong with it.
fn read_keyword(
    alloc: Global,
    characters: &[SourceCharacter],
    keywords: &mut Keywords,
    first: &mut FirstFault,
) -> Result<(), AllocError>
    requires { 0 < length characters.now }
    ensures keywords { OnOk result (keywords.new ≡ keywords.old ++ filter_map keyword_of (characters.now ∷ [])) }
    ensures faults { OnOk result (first.new.fault ≡ first_after first.old.fault (keyword_faults characters.now)) }
{
    let text = bytes(alloc, characters)?;
    let (arguments, is_bad) = arguments(alloc, &text)?;
    note_keyword(characters[0], &text, is_bad, first);
    push_some(keywords, keyword(characters[0], &text, arguments))
}

/// Notes what is wrong with a keyword.
#[tactic(auto, using(crate::proofs::FaultLemmas::first_after_append))]
fn note_keyword(begin: SourceCharacter, text: &[u8], is_bad: bool, first: &mut FirstFault)
    ensures { first.new.fault ≡ first_after first.old.fault (text_faults begin text.now is_bad) }
{
    first.note_if(
        !is_keyword_name(name_part(text)),
        begin.fault(DdsCause::BadName),
    );
    first.note_if(is_bad, begin.fault(DdsCause::BadNumber));
    first.note_if(is_unfinished(text), begin.fault(DdsCause::UnfinishedText));
}

/// The keyword of a text, if its name is one.
fn keyword(begin: SourceCharacter, text: &[u8], arguments: Arguments) -> Option<Keyword>
    ensures { result ≡ text_keyword begin text.now arguments }
{
    let name = keyword_name(name_part(text))?;
    Some(Keyword {
        name,
        line: begin.line,
        column: u32::from(begin.column),
        arguments: if has_parentheses(text) {
            Some(arguments)
        } else {
            None
        },
    })
}

/// The name, if it is a keyword's.
fn keyword_name(text: &[u8]) -> Option<Name>
    ensures { result ≡ (if is_keyword_name text.now then Some text.now else None) }
{
    if is_keyword_name(text) {
        Name::from_bytes(text)
    } else {
        None
    }
}

/// Adds one at the end, if there is one.
fn push_some(keywords: &mut Keywords, keyword: Option<Keyword>) -> Result<(), AllocError>
    ensures { OnOk result (keywords.new ≡ keywords.old ++ cons_option keyword []) }
{
    if let Some(keyword) = keyword {
        keywords.push(keyword)?;
    }
    Ok(())
}

impl SourceCharacter {
    /// A fault where it stands.
    fn fault(self, cause: DdsCause) -> DdsFault
        ensures { result ≡ record { line = self.line; column = self.column; cause = cause } }
    {
        DdsFault {
            line: self.line,
            column: u32::from(self.column),
            cause,
        }
    }
}
