//! What each statement is to its script, by `specs/Phrases.antt`.
ghost use Rattle.std.specs.Prelude.{◌≡◌};
ghost use Rattle.script_builder.specs.Phrases.{counts, nesting_of, target_of, variable_of, is_declaration, is_else, is_monitor, is_request};

use field_types::names::Name;
use statement_syntax::Phrase;

/// A block, by the statement that opens it.
#[derive(Clone, Copy, PartialEq)]
pub enum Block {
    /// IF .. THEN(DO)
    ThenBlock,
    /// ELSE CMD(DO)
    ElseBlock,
    /// DOWHILE
    LoopBlock,
}

/// What a statement does to the open blocks.
#[derive(Clone, Copy, PartialEq)]
pub enum Nesting {
    Opens(Block),
    Closes,
    Stays,
}

/// Whether a statement has a place in the script.
pub(crate) fn does_count(phrase: &Phrase) -> bool
    ensures { result ≡ counts phrase.now }
{
    match phrase {
        Phrase::Declare { .. } | Phrase::EndDo | Phrase::Monitor { .. } => false,
        Phrase::ChangeVariable { .. }
        | Phrase::IfGoto { .. }
        | Phrase::IfDo(_)
        | Phrase::Else
        | Phrase::DoWhile(_)
        | Phrase::Goto(_)
        | Phrase::Return
        | Phrase::Request { .. } => true,
    }
}

/// What a statement does to the open blocks.
pub(crate) fn nesting_of(phrase: &Phrase) -> Nesting
    ensures { result ≡ nesting_of phrase.now }
{
    match phrase {
        Phrase::IfDo(_) => Nesting::Opens(Block::ThenBlock),
        Phrase::Else => Nesting::Opens(Block::ElseBlock),
        Phrase::DoWhile(_) => Nesting::Opens(Block::LoopBlock),
        Phrase::EndDo => Nesting::Closes,
        Phrase::Declare { .. }
        | Phrase::ChangeVariable { .. }
        | Phrase::IfGoto { .. }
        | Phrase::Goto(_)
        | Phrase::Monitor { .. }
        | Phrase::Return
        | Phrase::Request { .. } => Nesting::Stays,
    }
}

/// The label that a statement goes to.
pub(crate) fn target(phrase: &Phrase) -> Option<Name>
    ensures { result ≡ target_of phrase.now }
{
    match phrase {
        Phrase::IfGoto { label, .. } => Some(*label),
        Phrase::Goto(label) => Some(*label),
        Phrase::Monitor { label, .. } => *label,
        Phrase::Declare { .. }
        | Phrase::ChangeVariable { .. }
        | Phrase::IfDo(_)
        | Phrase::Else
        | Phrase::DoWhile(_)
        | Phrase::EndDo
        | Phrase::Return
        | Phrase::Request { .. } => None,
    }
}

/// The variable that a DCL declares.
pub(crate) fn variable(phrase: &Phrase) -> Option<Name>
    ensures { result ≡ variable_of phrase.now }
{
    match phrase {
        Phrase::Declare { variable, .. } => Some(*variable),
        _ => None,
    }
}

/// Whether it's a DCL.
pub(crate) fn declares(phrase: &Phrase) -> bool
    ensures { result ≡ is_declaration phrase.now }
{
    matches!(phrase, Phrase::Declare { .. })
}

/// Whether it's an ELSE.
pub(crate) fn begins_else(phrase: &Phrase) -> bool
    ensures { result ≡ is_else phrase.now }
{
    matches!(phrase, Phrase::Else)
}

/// Whether it's a MONMSG.
pub(crate) fn monitors(phrase: &Phrase) -> bool
    ensures { result ≡ is_monitor phrase.now }
{
    matches!(phrase, Phrase::Monitor { .. })
}

/// Whether it's a request.
pub(crate) fn requests(phrase: &Phrase) -> bool
    ensures { result ≡ is_request phrase.now }
{
    matches!(phrase, Phrase::Request { .. })
}
