//! The commands of a job's statements, by their words.
ghost use Rattle.std.specs.Prelude.{◌≡◌};
ghost use Rattle.statement_reader.specs.Commands.{command_of, control_command, file_command, journal_command, commitment_command, position_command, record_command, parameters_of};

use crate::parameters::Parameter;
use call_tables::request_table;

/// A command.
#[derive(Clone, Copy)]
pub enum Command {
    /// DCL
    Declare,
    /// CHGVAR
    ChangeVariable,
    /// IF
    If,
    /// ELSE
    Else,
    /// DOWHILE
    DoWhile,
    /// ENDDO
    EndDo,
    /// GOTO
    Goto,
    /// MONMSG
    Monitor,
    /// RETURN
    Return,
    /// CRTPF
    CreatePhysicalFile,
    /// CRTLF
    CreateLogicalFile,
    /// DLTF
    DeleteFile,
    /// ADDPFM
    AddMember,
    /// CLRPFM
    ClearMember,
    /// RGZPFM
    ReorganizeMember,
    /// STRJRNPF
    StartJournaling,
    /// ENDJRNPF
    EndJournaling,
    /// CHGJRN
    ChangeJournal,
    /// DLTJRNRCV
    DeleteReceiver,
    /// CHKPT
    Checkpoint,
    /// DSPJRN
    DisplayJournal,
    /// APYJRNCHG
    ApplyChanges,
    /// RMVJRNCHG
    RemoveChanges,
    /// STRCMTCTL
    StartCommitment,
    /// ENDCMTCTL
    EndCommitment,
    /// COMMIT
    Commit,
    /// ROLLBACK
    Rollback,
    /// OPNDBF
    OpenFile,
    /// CLOF
    CloseFile,
    /// SETLL
    SetLowerLimit,
    /// SETGT
    SetGreaterThan,
    /// READ
    Read,
    /// READP
    ReadPrior,
    /// READE
    ReadEqual,
    /// READPE
    ReadPriorEqual,
    /// CHAIN
    Chain,
    /// WRITE
    Write,
    /// UPDATE
    Update,
    /// DELETE
    Delete,
    /// UNLOCK
    Unlock,
}

// The rows of some groups, in the order of the definitions.
macro_rules! file_rows {
    (($word:expr) files { $($files:tt)* } $($others:tt)*) => { named!(($word) $($files)*) };
}

macro_rules! journal_rows {
    (($word:expr) files $f:tt journaling { $($journaling:tt)* } journal { $($journal:tt)* } $($others:tt)*) => {
        named!(($word) $($journaling)* $($journal)*)
    };
}

macro_rules! commitment_rows {
    (($word:expr) files $f:tt journaling $j:tt journal $l:tt commitment { $($commitment:tt)* } boundaries { $($boundaries:tt)* } $($others:tt)*) => {
        named!(($word) $($commitment)* $($boundaries)*)
    };
}

macro_rules! position_rows {
    (($word:expr) files $f:tt journaling $j:tt journal $l:tt commitment $c:tt boundaries $b:tt opens { $($opens:tt)* } $($others:tt)*) => {
        named!(($word) $($opens)*)
    };
}

macro_rules! record_rows {
    (($word:expr) files $f:tt journaling $j:tt journal $l:tt commitment $c:tt boundaries $b:tt opens $o:tt records { $($records:tt)* } unlock { $($unlock:tt)* } end $e:tt) => {
        named!(($word) $($records)* $($unlock)*)
    };
}

macro_rules! named {
    (($word:expr)) => { None };
    (($word:expr) $name:ident $text:literal $args:tt $asked:tt $($others:tt)*) => {
        if $word == $text.as_slice() { Some(Command::$name) } else { named!(($word) $($others)*) }
    };
}

// The rows of statements: all but ENDJOB's.
macro_rules! parameter_groups {
    ($with:tt files { $($files:tt)* } journaling { $($journaling:tt)* } journal { $($journal:tt)* } commitment { $($commitment:tt)* }
        boundaries { $($boundaries:tt)* } opens { $($opens:tt)* } records { $($records:tt)* } unlock { $($unlock:tt)* } end $end:tt) => {
        parameter_arms!($with $($files)* $($journaling)* $($journal)* $($commitment)* $($boundaries)* $($opens)* $($records)* $($unlock)*)
    };
}

macro_rules! parameter_arms {
    (($command:expr) $($name:ident $word:literal ($($args:ident { $($field:ident: $codec:ident ($($parameter:ident),*) $(= $default:ident)?),* })?) [$(first $first:ident)? $(asks $form:tt)? $(into $into:ident)?])*) => {
        match $command {
            Command::Declare | Command::ChangeVariable => {
                &[Parameter::Variable, Parameter::Value]
            }
            Command::If => &[Parameter::Condition, Parameter::Then],
            Command::Else => &[Parameter::Command],
            Command::DoWhile => &[Parameter::Condition],
            Command::Goto => &[Parameter::Label],
            Command::Monitor => &[Parameter::Message, Parameter::Execute],
            Command::EndDo | Command::Return => &[],
            $(Command::$name => &[$($($(Parameter::$parameter,)*)*)? $(Parameter::$first,)? $(Parameter::$into,)?],)*
        }
    };
}

/// The command of a word; ENDJOB is none.
#[tactic(auto, unfolding(crate::specs::Commands::command_of))]
pub fn command_named(word: &[u8]) -> Option<Command>
    ensures { result ≡ command_of word.now }
{
    control_command(word)
        .or(file_command(word))
        .or(journal_command(word))
        .or(commitment_command(word))
        .or(position_command(word))
        .or(record_command(word))
}

#[tactic(auto, unfolding(crate::specs::Commands::control_command))]
fn control_command(word: &[u8]) -> Option<Command>
    ensures { result ≡ control_command word.now }
{
    if word == b"DCL".as_slice() {
        Some(Command::Declare)
    } else if word == b"CHGVAR".as_slice() {
        Some(Command::ChangeVariable)
    } else if word == b"IF".as_slice() {
        Some(Command::If)
    } else if word == b"ELSE".as_slice() {
        Some(Command::Else)
    } else if word == b"DOWHILE".as_slice() {
        Some(Command::DoWhile)
    } else if word == b"ENDDO".as_slice() {
        Some(Command::EndDo)
    } else if word == b"GOTO".as_slice() {
        Some(Command::Goto)
    } else if word == b"MONMSG".as_slice() {
        Some(Command::Monitor)
    } else if word == b"RETURN".as_slice() {
        Some(Command::Return)
    } else {
        None
    }
}

#[tactic(auto, unfolding(crate::specs::Commands::file_command))]
fn file_command(word: &[u8]) -> Option<Command>
    ensures { result ≡ file_command word.now }
{
    request_table!(file_rows!(word))
}

#[tactic(auto, unfolding(crate::specs::Commands::journal_command))]
fn journal_command(word: &[u8]) -> Option<Command>
    ensures { result ≡ journal_command word.now }
{
    request_table!(journal_rows!(word))
}

#[tactic(auto, unfolding(crate::specs::Commands::commitment_command))]
fn commitment_command(word: &[u8]) -> Option<Command>
    ensures { result ≡ commitment_command word.now }
{
    request_table!(commitment_rows!(word))
}

#[tactic(auto, unfolding(crate::specs::Commands::position_command))]
fn position_command(word: &[u8]) -> Option<Command>
    ensures { result ≡ position_command word.now }
{
    request_table!(position_rows!(word))
}

#[tactic(auto, unfolding(crate::specs::Commands::record_command))]
fn record_command(word: &[u8]) -> Option<Command>
    ensures { result ≡ record_command word.now }
{
    request_table!(record_rows!(word))
}

impl Command {
    /// The parameters that the command may have.
    pub fn parameters(self) -> &'static [Parameter]
        ensures { result.now ≡ parameters_of self }
    {
        request_table!(parameter_groups!(self))
    }
}
