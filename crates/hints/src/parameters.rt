//! What is wrong with the parameters of a statement.
use crate::commands::CommandWords;
use crate::hint::Hint;
use crate::names::name_hint;
use crate::words::{cut_at, has_word, next_word, trimmed};

/// What a statement gives for a parameter, by the first that has its name.
pub(crate) fn given<'a>(statement: &'a [u8], parameter: &[u8]) -> Option<&'a [u8]> {
    let mut rest = statement;
    while let Some((word, others)) = next_word(rest) {
        let (name, inside) = cut_at(word, b'(');
        if name == parameter {
            return inside.strip_suffix(b")");
        }
        rest = others;
    }
    None
}

/// The first thing that is wrong with the words that are to be parameters of a command.
pub(crate) fn parameters_hint<'a>(command: CommandWords, statement: &'a [u8]) -> Option<Hint<'a>> {
    let mut rest = statement;
    while let Some((word, others)) = next_word(rest) {
        if let Some(hint) = parameter_hint(command, word, others) {
            return Some(hint);
        }
        rest = others;
    }
    missing_hint(command, statement)
}

fn parameter_hint<'a>(command: CommandWords, word: &'a [u8], others: &'a [u8]) -> Option<Hint<'a>> {
    let (name, inside) = cut_at(word, b'(');
    if !command.has_parameter(name) {
        return Some(unknown_hint(command, word, name));
    }
    if name == word {
        return Some(bare_hint(name, others));
    }
    if !word.ends_with(b")") {
        return Some(Hint::Word(
            b"nothing but a blank stands after the parenthesis of ",
            name,
            b"",
        ));
    }
    if given(others, name).is_some() {
        return Some(Hint::Word(b"", name, b" stands twice"));
    }
    value_hint(name, trimmed(inside.strip_suffix(b")").unwrap_or(inside)))
}

/// A word whose name is none of the command's parameters.
fn unknown_hint<'a>(command: CommandWords, word: &'a [u8], name: &'a [u8]) -> Hint<'a> {
    if let Some(capitals) = command.parameter_in_capitals(name) {
        return Hint::Word(b"parameters have capital letters: ", capitals, b"");
    }
    if name == word {
        return Hint::Word(
            b"a parameter is written NAME(..), and this isn't: ",
            word,
            b"",
        );
    }
    Hint::NoParameter {
        command: command.name,
        word: name,
        parameters: command.parameters,
    }
}

/// A parameter's name without its parentheses.
fn bare_hint<'a>(name: &'a [u8], others: &[u8]) -> Hint<'a> {
    match next_word(others) {
        Some((word, _)) if word.starts_with(b"(") => {
            Hint::Word(b"no blank stands between ", name, b" and its parenthesis")
        }
        _ => Hint::Word(b"", name, b" has its value in parentheses"),
    }
}

fn missing_hint<'a>(command: CommandWords, statement: &'a [u8]) -> Option<Hint<'a>> {
    for parameter in command.parameters {
        if parameter.required && given(statement, parameter.name).is_none() {
            return Some(Hint::Word(b"a parameter is missing: ", parameter.name, b"(..)"));
        }
    }
    None
}

/// What is wrong with what stands in the parentheses of a parameter.
fn value_hint<'a>(parameter: &'a [u8], inside: &'a [u8]) -> Option<Hint<'a>> {
    if inside.is_empty() {
        return Some(Hint::Word(b"", parameter, b" has nothing in its parentheses"));
    }
    if has_word(b"FILE SRC MBR OPNID CMDLBL", parameter) {
        return name_hint(inside);
    }
    if parameter == b"VAL".as_slice() {
        return values_hint(inside);
    }
    if parameter == b"MSGID".as_slice() {
        return message_hint(inside);
    }
    if parameter == b"OPTION".as_slice() {
        return choice_hint(inside, b"*INP *ALL", b"OPTION is *INP or *ALL");
    }
    if parameter == b"LCK".as_slice() {
        return choice_hint(inside, b"*NO *DFT", b"LCK is *NO or *DFT");
    }
    None
}

fn choice_hint<'a>(inside: &[u8], choices: &[u8], sentence: &'static [u8]) -> Option<Hint<'a>> {
    if has_word(choices, inside) {
        None
    } else {
        Some(Hint::Plain(sentence))
    }
}

/// A message of IBM i, as CPF5006, among the names of replies.
fn message_hint(names: &[u8]) -> Option<Hint<'_>> {
    let mut rest = names;
    while let Some((word, others)) = next_word(rest) {
        if word.iter().any(|byte| byte.is_ascii_digit()) {
            return Some(Hint::Word(
                b"MSGID has *ANY or names of replies (docs/messages.md), and not ",
                word,
                b"",
            ));
        }
        rest = others;
    }
    None
}

/// The first word that is no value.
fn values_hint(values: &[u8]) -> Option<Hint<'_>> {
    let mut rest = values;
    while let Some((word, others)) = next_word(rest) {
        if !is_value(word) {
            return Some(unread_value(word));
        }
        rest = others;
    }
    None
}

fn unread_value(word: &[u8]) -> Hint<'_> {
    if word.contains(&b',') {
        Hint::Word(b"a blank separates values, and no comma: ", word, b"")
    } else if word.starts_with(b"'") || word.starts_with(b"X'") {
        Hint::Word(b"a text in apostrophes is a word of its own: ", word, b"")
    } else {
        Hint::Word(b"a text stands in apostrophes: ", word, b"")
    }
}

/// Whether a word begins and ends as a text, a variable, a number or `*N` does.
fn is_value(word: &[u8]) -> bool {
    if word == b"*N".as_slice() {
        return true;
    }
    match word {
        [b'&', ..] => true,
        [b'\'', .., b'\''] => true,
        [b'X', b'\'', .., b'\''] => true,
        _ => word
            .iter()
            .all(|byte| matches!(byte, b'0'..=b'9' | b'-' | b'.')),
    }
}
