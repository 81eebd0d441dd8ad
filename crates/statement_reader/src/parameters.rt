//! The parameters of a statement: a name, and what stands in the parentheses behind it.
ghost use Rattle.std.specs.Prelude.{◌≡◌, option_copied};
ghost use Rattle.statement_reader.specs.Words.{words};
ghost use Rattle.statement_reader.specs.Parameters.{spelled, behind, before, inside, given, has_only};

use crate::words::{next_word, word_count};
use call_tables::keyword;

/// A parameter, by its name.
#[derive(Clone, Copy)]
pub enum Parameter {
    /// FILE
    File,
    /// SRC
    Source,
    /// MBR
    Member,
    /// IMAGES
    Images,
    /// RCV
    Receiver,
    /// FROMENT
    FromEntry,
    /// TOENT
    ToEntry,
    /// LCKLVL
    LockLevel,
    /// OPTION
    Option,
    /// OPNID
    OpenId,
    /// COMMIT
    Commit,
    /// ACCPTH
    AccessPath,
    /// KEY
    Key,
    /// RRN
    RecordNumber,
    /// LCK
    Lock,
    /// TO
    To,
    /// FMT
    Format,
    /// VAL
    Values,
    /// VAR
    Variable,
    /// VALUE
    Value,
    /// COND
    Condition,
    /// THEN
    Then,
    /// CMD
    Command,
    /// CMDLBL
    Label,
    /// MSGID
    Message,
    /// EXEC
    Execute,
}

impl Parameter {
    fn spelling(self) -> &'static [u8]
        ensures { result.now ≡ spelled self }
    {
        match self {
            Parameter::File => keyword!(File),
            Parameter::Source => keyword!(Source),
            Parameter::Member => keyword!(Member),
            Parameter::Images => keyword!(Images),
            Parameter::Receiver => keyword!(Receiver),
            Parameter::FromEntry => keyword!(FromEntry),
            Parameter::ToEntry => keyword!(ToEntry),
            Parameter::LockLevel => keyword!(LockLevel),
            Parameter::Option => keyword!(Option),
            Parameter::OpenId => keyword!(OpenId),
            Parameter::Commit => keyword!(Commit),
            Parameter::AccessPath => keyword!(AccessPath),
            Parameter::Key => keyword!(Key),
            Parameter::RecordNumber => keyword!(RecordNumber),
            Parameter::Lock => keyword!(Lock),
            Parameter::To => keyword!(To),
            Parameter::Format => keyword!(Format),
            Parameter::Values => keyword!(Values),
            Parameter::Variable => b"VAR",
            Parameter::Value => b"VALUE",
            Parameter::Condition => b"COND",
            Parameter::Then => b"THEN",
            Parameter::Command => b"CMD",
            Parameter::Label => b"CMDLBL",
            Parameter::Message => b"MSGID",
            Parameter::Execute => b"EXEC",
        }
    }
}

/// What stands behind the front of a text, where the text has that front.
pub fn behind<'a>(text: &'a [u8], front: &[u8]) -> Option<&'a [u8]>
    ensures { option_copied result ≡ behind front.now text.now }
{
    text.strip_prefix(front)
}

fn before<'a>(text: &'a [u8], back: &[u8]) -> Option<&'a [u8]>
    ensures { option_copied result ≡ before back.now text.now }
{
    text.strip_suffix(back)
}

/// What a word has in the parentheses of this parameter.
fn inside(word: &[u8], parameter: Parameter) -> Option<&[u8]>
    ensures { option_copied result ≡ inside parameter word.now }
{
    let Some(rest) = behind(word, parameter.spelling()) else {
        return None;
    };
    let Some(rest) = behind(rest, b"(") else {
        return None;
    };
    before(rest, b")")
}

/// What a statement gives for a parameter, by the first that has its name.
pub fn given(text: &[u8], parameter: Parameter) -> Option<&[u8]>
    ensures { option_copied result ≡ given parameter (words text.now) }
{
    let mut rest = text;
    while let Some((word, others)) = next_word(rest) {
        if let Some(inner) = inside(word, parameter) {
            return Some(inner);
        }
        rest = others;
    }
    None
}

/// Whether a text has nothing but parameters of these names, each at most once.
pub fn has_only(text: &[u8], parameters: &[Parameter]) -> bool
    ensures { result ≡ has_only parameters.now (words text.now) }
{
    let named = parameters
        .iter()
        .filter(|&&parameter| given(text, parameter).is_some())
        .count();
    named == word_count(text)
}
