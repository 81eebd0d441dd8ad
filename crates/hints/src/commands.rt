//! The words of the job language: the commands with their parameters, and which of them the program answers so far.
use crate::words::is_in_small_letters;
use call_tables::{keyword, request_table};

/// A parameter of a command.
#[derive(Clone, Copy)]
pub(crate) struct Parameter {
    pub(crate) name: &'static [u8],
    /// Whether it can't be left out.
    pub(crate) required: bool,
}

/// A command as it is written.
#[derive(Clone, Copy)]
pub(crate) struct CommandWords {
    pub(crate) name: &'static [u8],
    pub(crate) parameters: &'static [Parameter],
    /// Whether it may be run so far.
    is_built: bool,
}

// A statement of the language itself: its word, the parameters that are required, and those that aren't.
macro_rules! statement {
    ($word:literal; $($required:literal),*; $($other:literal),*) => {
        CommandWords {
            name: $word,
            parameters: &[
                $(Parameter { name: $required, required: true },)*
                $(Parameter { name: $other, required: false },)*
            ],
            is_built: true,
        }
    };
}

// The rows of statements: all but ENDJOB's.
macro_rules! statement_rows {
    (() files { $($files:tt)* } journaling { $($journaling:tt)* } journal { $($journal:tt)* } commitment { $($commitment:tt)* }
        boundaries { $($boundaries:tt)* } opens { $($opens:tt)* } records { $($records:tt)* } unlock { $($unlock:tt)* } end $end:tt) => {
        requests!($($files)* $($journaling)* $($journal)* $($commitment)* $($boundaries)* $($opens)* $($records)* $($unlock)*)
    };
}

macro_rules! requests {
    ($($name:ident $word:literal ($($args:ident { $($field:ident: $codec:ident ($parameter:ident $(, $other:ident)*) $(= $default:ident)?),* })?) [$(first $first:ident)? $(asks $form:tt)? $(into $into:ident)?])*) => {
        &[$(CommandWords {
            name: $word,
            parameters: &[
                $($(
                    Parameter { name: keyword!($parameter), required: required!([$($other)*] [$($default)?]) },
                    $(Parameter { name: keyword!($other), required: false },)*
                )*)?
                $(Parameter { name: keyword!($first), required: false },)?
                $(Parameter { name: keyword!($into), required: false },)?
            ],
            is_built: built!($name),
        },)*]
    };
}

// What has no default, and is given by one parameter alone.
macro_rules! required {
    ([] []) => { true };
    ($others:tt $default:tt) => { false };
}

// All but one.
macro_rules! built {
    (Checkpoint) => { false };
    ($name:ident) => { true };
}

/// The statements of the language itself.
const STATEMENTS: &[CommandWords] = &[
    statement!(b"DCL"; b"VAR", b"VALUE";),
    statement!(b"CHGVAR"; b"VAR", b"VALUE";),
    statement!(b"IF"; b"COND", b"THEN";),
    statement!(b"ELSE"; b"CMD";),
    statement!(b"DOWHILE"; b"COND";),
    statement!(b"ENDDO";;),
    statement!(b"GOTO"; b"CMDLBL";),
    statement!(b"MONMSG"; b"MSGID"; b"EXEC"),
    statement!(b"RETURN";;),
];

/// The requests, by their table.
const REQUESTS: &[CommandWords] = request_table!(statement_rows!());

/// The command of a word that may be run.
pub(crate) fn command_named(word: &[u8]) -> Option<CommandWords> {
    command_called(word).filter(|command| command.is_built)
}

/// Whether a word is a command that isn't built yet.
pub(crate) fn is_to_come(word: &[u8]) -> bool {
    match command_called(word) {
        Some(command) => !command.is_built,
        None => false,
    }
}

fn command_called(word: &[u8]) -> Option<CommandWords> {
    among(STATEMENTS, word).or(among(REQUESTS, word))
}

fn among(commands: &[CommandWords], word: &[u8]) -> Option<CommandWords> {
    for &command in commands {
        if command.name == word {
            return Some(command);
        }
    }
    None
}

/// The word of the command that a word would be in capital letters.
pub(crate) fn command_in_capitals(word: &[u8]) -> Option<&'static [u8]> {
    capitals_among(STATEMENTS, word).or(capitals_among(REQUESTS, word))
}

fn capitals_among(commands: &[CommandWords], word: &[u8]) -> Option<&'static [u8]> {
    for command in commands {
        if is_in_small_letters(word, command.name) {
            return Some(command.name);
        }
    }
    None
}

impl CommandWords {
    /// Whether the command has a parameter of this name.
    pub(crate) fn has_parameter(self, name: &[u8]) -> bool {
        for parameter in self.parameters {
            if parameter.name == name {
                return true;
            }
        }
        false
    }

    /// The command's parameter that a word would be in capital letters.
    pub(crate) fn parameter_in_capitals(self, word: &[u8]) -> Option<&'static [u8]> {
        for parameter in self.parameters {
            if is_in_small_letters(word, parameter.name) {
                return Some(parameter.name);
            }
        }
        None
    }
}
