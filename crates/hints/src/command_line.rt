//! What to type: the words of the command line, and an input on a terminal.
use crate::help_text::HelpText;
use crate::hint::Hint;
use crate::words::is_in_small_letters;
use std::alloc::{AllocError, Global};

/// What is wrong with words that are no command; nothing where they are one.
pub fn words_help(alloc: Global, words: &[String]) -> Result<HelpText, AllocError> {
    let mut help = HelpText::new(alloc);
    if let Some(hint) = words_hint(words) {
        help.push_hint(&hint)?;
    }
    Ok(help)
}

/// The commands.
const COMMANDS: [&[u8]; 4] = [b"INZ", b"RUN", b"SERIAL", b"DSP"];

/// The command that a word is.
fn command_of(word: &[u8]) -> Option<&'static [u8]> {
    for command in COMMANDS {
        if word == command {
            return Some(command);
        }
    }
    None
}

/// The command that a word is in small letters.
fn small_command(word: &[u8]) -> Option<&'static [u8]> {
    for command in COMMANDS {
        if is_in_small_letters(word, command) {
            return Some(command);
        }
    }
    None
}

fn words_hint(words: &[String]) -> Option<Hint<'_>> {
    match words {
        [] => Some(Hint::Plain(b"type INZ, RUN, SERIAL or DSP, and the folder of the library")),
        [first, others @ ..] => match command_of(first.as_bytes()) {
            Some(command) => folder_hint(command, others),
            None => Some(command_hint(first.as_bytes())),
        },
    }
}

/// What is wrong with a first word that is no command.
fn command_hint(word: &[u8]) -> Hint<'_> {
    match small_command(word) {
        Some(command) => Hint::Word(b"", command, b" has capital letters"),
        None => Hint::Word(
            b"the first word is INZ, RUN, SERIAL or DSP, and not ",
            word,
            b"",
        ),
    }
}

/// What is wrong with the words after the command.
fn folder_hint<'a>(command: &'static [u8], words: &'a [String]) -> Option<Hint<'a>> {
    match words {
        [] => Some(Hint::Word(b"type the folder of the library after ", command, b"")),
        [folder] => match folder.as_bytes() {
            [] => Some(Hint::Plain(b"the folder's name is empty")),
            [b'-', ..] => Some(Hint::Word(
                b"a folder's name doesn't begin with a hyphen; type ./",
                folder.as_bytes(),
                b"",
            )),
            [_, ..] => None,
        },
        [_, word, ..] => Some(Hint::Word(
            b"one word follows the command; put apostrophes around a name with blanks, or take out ",
            word.as_bytes(),
            b"",
        )),
    }
}

/// What to type where the input is a terminal.
pub fn terminal_help(alloc: Global) -> Result<HelpText, AllocError> {
    let mut help = HelpText::new(alloc);
    help.push_hint(&Hint::Plain(
        b"the input is read from the terminal: type it, //END as its last line, and then Ctrl-D",
    ))?;
    help.push_hint(&Hint::Plain(
        b"to run an input that is in a file, type ibmi RUN folder < file, or SERIAL in place of RUN",
    ))?;
    Ok(help)
}
