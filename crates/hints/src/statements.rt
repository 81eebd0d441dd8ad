//! What is wrong with a statement of a job.
use crate::commands::{CommandWords, command_in_capitals, command_named, is_to_come};
use crate::hint::Hint;
use crate::job_lines::{JobLines, label_and_body};
use crate::names::name_hint;
use crate::parameters::{given, parameters_hint};
use crate::words::{has_word, next_word};

/// The first thing that is known to be wrong with a statement whose lines are joined.
pub(crate) fn statement_hint<'a>(text: &'a [u8], job: JobLines<'_>) -> Option<Hint<'a>> {
    if let Some(hint) = closing_hint(text) {
        return Some(hint);
    }
    let (label, body) = label_and_body(text);
    if let Some(hint) = own_label_hint(label, job) {
        return Some(hint);
    }
    let Some((word, parameters)) = next_word(body) else {
        return Some(Hint::Plain(b"a label stands before a statement, on its line"));
    };
    match command_named(word) {
        Some(command) => command_hint(command, parameters, job),
        None => Some(unknown_command(word)),
    }
}

/// What is wrong with the label before a statement.
fn own_label_hint<'a>(label: Option<&'a [u8]>, job: JobLines<'_>) -> Option<Hint<'a>> {
    let Some(label) = label else {
        return None;
    };
    if let Some(hint) = name_hint(label) {
        return Some(hint);
    }
    if job.open_blocks() > 0 {
        Some(Hint::Plain(b"a label stands outside of blocks"))
    } else {
        None
    }
}

/// Apostrophes and parentheses that aren't closed.
fn closing_hint(text: &[u8]) -> Option<Hint<'_>> {
    let mut quoted = false;
    let mut depth = 0u64;
    for &byte in text {
        match byte {
            b'\'' => quoted = !quoted,
            b'(' if !quoted => depth = depth.saturating_add(1),
            b')' if !quoted && depth == 0 => {
                return Some(Hint::Plain(b"a parenthesis is closed that isn't open"));
            }
            b')' if !quoted => depth = depth.saturating_sub(1),
            _ => {}
        }
    }
    if quoted {
        Some(Hint::Plain(b"a literal isn't closed: an apostrophe within a text is written twice"))
    } else if depth > 0 {
        Some(Hint::Plain(b"a parenthesis isn't closed"))
    } else {
        None
    }
}

fn unknown_command(word: &[u8]) -> Hint<'_> {
    if is_to_come(word) {
        return Hint::Word(b"", word, b" isn't built yet");
    }
    if let Some(command) = command_in_capitals(word) {
        return Hint::Word(b"commands have capital letters: ", command, b"");
    }
    if word == b"ENDJOB".as_slice() {
        return Hint::Plain(b"ENDJOB is no statement: a job ends after its last one");
    }
    if word.starts_with(b"//") {
        return Hint::Plain(b"a card begins in the first column");
    }
    if word == b"A".as_slice() {
        return Hint::Plain(b"a line of a source stands after its card, //DDS and a name");
    }
    if word.contains(&b'(') {
        return Hint::Plain(b"a statement begins with a command, and a blank after it");
    }
    Hint::Word(b"no command is called ", word, b"")
}

/// What is wrong with the parameters and the place of a command.
fn command_hint<'a>(
    command: CommandWords,
    parameters: &'a [u8],
    job: JobLines<'_>,
) -> Option<Hint<'a>> {
    if let Some(hint) = parameters_hint(command, parameters) {
        return Some(hint);
    }
    if let Some(hint) = position_hint(command.name, parameters) {
        return Some(hint);
    }
    if let Some(hint) = place_hint(command.name, job) {
        return Some(hint);
    }
    if let Some(hint) = variables_hint(command.name, parameters, job) {
        return Some(hint);
    }
    label_hint(command.name, parameters, job)
}

/// A command that goes to a position by one of two parameters, and has none of them or both.
fn position_hint<'a>(command: &'static [u8], parameters: &[u8]) -> Option<Hint<'a>> {
    if !has_word(b"CHAIN SETLL SETGT", command) {
        return None;
    }
    match (given(parameters, b"RRN"), given(parameters, b"KEY")) {
        (None, None) => Some(Hint::Word(b"", command, b" needs RRN(..) or KEY(..)")),
        (Some(_), Some(_)) => Some(Hint::Word(b"", command, b" has RRN or KEY, and not both")),
        (Some(_), None) | (None, Some(_)) => None,
    }
}

/// A command that may not stand where it stands.
fn place_hint(command: &'static [u8], job: JobLines<'_>) -> Option<Hint<'static>> {
    if command == b"DCL".as_slice() && !job.has_declarations_alone() {
        return Some(Hint::Plain(b"all DCL stand before the other statements of their job"));
    }
    if command == b"ENDDO".as_slice() && job.open_blocks() == 0 {
        return Some(Hint::Plain(b"there is no open DO that this ENDDO would end"));
    }
    if command == b"ELSE".as_slice() && job.command_before() != Some(b"ENDDO".as_slice()) {
        return Some(Hint::Plain(b"ELSE stands directly after the ENDDO of its IF"));
    }
    if command == b"MONMSG".as_slice() && !follows_request(job.command_before()) {
        return Some(Hint::Plain(b"MONMSG stands directly after a request"));
    }
    None
}

/// Whether the command right before a statement is a request.
fn follows_request(before: Option<&[u8]>) -> bool {
    match before {
        Some(command) => !has_word(
            b"DCL CHGVAR IF ELSE DOWHILE ENDDO GOTO MONMSG RETURN",
            command,
        ),
        None => false,
    }
}

/// A variable that no DCL before the statement declares.
fn variables_hint<'a>(command: &[u8], parameters: &'a [u8], job: JobLines<'_>) -> Option<Hint<'a>> {
    if command == b"DCL".as_slice() {
        return None;
    }
    let mut rest: &[u8] = b"VAR VAL VALUE COND TO RRN KEY";
    while let Some((name, others)) = next_word(rest) {
        if let Some(hint) = undeclared_hint(given(parameters, name).unwrap_or(b""), job) {
            return Some(hint);
        }
        rest = others;
    }
    None
}

fn undeclared_hint<'a>(values: &'a [u8], job: JobLines<'_>) -> Option<Hint<'a>> {
    let mut rest = values;
    while let Some((word, others)) = next_word(rest) {
        if word.starts_with(b"&") && !job.declares(word) {
            return Some(Hint::Word(b"no DCL before it declares ", word, b""));
        }
        rest = others;
    }
    None
}

/// A label that a statement goes to and that stands nowhere in the job.
fn label_hint<'a>(command: &[u8], parameters: &'a [u8], job: JobLines<'_>) -> Option<Hint<'a>> {
    let Some(label) = label_gone_to(command, parameters) else {
        return None;
    };
    if job.has_label(label) {
        None
    } else {
        Some(Hint::Word(b"no statement of the job has the label ", label, b""))
    }
}

/// The label of GOTO, or of the GOTO in THEN or EXEC.
fn label_gone_to<'a>(command: &[u8], parameters: &'a [u8]) -> Option<&'a [u8]> {
    if command == b"GOTO".as_slice() {
        return given(parameters, b"CMDLBL");
    }
    let Some(inside) = given(parameters, b"THEN").or(given(parameters, b"EXEC")) else {
        return None;
    };
    match next_word(inside) {
        Some((_, rest)) => given(rest, b"CMDLBL"),
        None => None,
    }
}
