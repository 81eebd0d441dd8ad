//! What a command asks, by its word. `specs/Commands.antt` has the words.
ghost use Rattle.std.specs.Prelude.{◌≡◌};
ghost use Rattle.listing_words.specs.Commands.{file_command, journal_command, open_command, record_command, request_named};

use call_tables::request_table;

/// What a request asks, without its parameters.
#[derive(Clone, Copy)]
pub enum RequestKind {
    /// CRTPF
    CreatePhysicalFile,
    /// CRTLF
    CreateLogicalFile,
    /// DLTF
    DeleteFile,
    /// ADDPFM
    AddMember,
    /// CLRPFM
    ClearMember,
    /// RGZPFM
    ReorganizeMember,
    /// STRJRNPF
    StartJournaling,
    /// ENDJRNPF
    EndJournaling,
    /// CHGJRN
    ChangeJournal,
    /// DLTJRNRCV
    DeleteReceiver,
    /// CHKPT
    Checkpoint,
    /// DSPJRN
    DisplayJournal,
    /// APYJRNCHG
    ApplyChanges,
    /// RMVJRNCHG
    RemoveChanges,
    /// STRCMTCTL
    StartCommitment,
    /// ENDCMTCTL
    EndCommitment,
    /// COMMIT
    Commit,
    /// ROLLBACK
    Rollback,
    /// OPNDBF
    OpenFile,
    /// CLOF
    CloseFile,
    /// SETLL
    SetLowerLimit,
    /// SETGT
    SetGreaterThan,
    /// UNLOCK
    Unlock,
    /// ENDJOB
    EndJob,
    /// READ
    Read,
    /// READP
    ReadPrior,
    /// READE
    ReadEqual,
    /// READPE
    ReadPriorEqual,
    /// CHAIN
    Chain,
    /// WRITE
    Write,
    /// UPDATE
    Update,
    /// DELETE
    Delete,
}

// The rows of some groups, in the order of the definitions.
macro_rules! file_rows {
    (($word:expr) files { $($files:tt)* } journaling { $($journaling:tt)* } $($others:tt)*) => {
        named!(($word) $($files)* $($journaling)*)
    };
}

macro_rules! journal_rows {
    (($word:expr) files $f:tt journaling $j:tt journal { $($journal:tt)* } commitment { $($commitment:tt)* } $($others:tt)*) => {
        named!(($word) $($journal)* $($commitment)*)
    };
}

macro_rules! open_rows {
    (($word:expr) files $f:tt journaling $j:tt journal $l:tt commitment $c:tt boundaries { $($boundaries:tt)* } opens { $($opens:tt)* } records $r:tt
        unlock { $($unlock:tt)* } end { $($end:tt)* }) => {
        named!(($word) $($boundaries)* $($opens)* $($unlock)* $($end)*)
    };
}

macro_rules! record_rows {
    (($word:expr) files $f:tt journaling $j:tt journal $l:tt commitment $c:tt boundaries $b:tt opens $o:tt records { $($records:tt)* } $($others:tt)*) => {
        named!(($word) $($records)*)
    };
}

macro_rules! named {
    (($word:expr)) => { None };
    (($word:expr) $name:ident $text:literal $args:tt $asked:tt $($others:tt)*) => {
        if $word == $text.as_slice() { Some(RequestKind::$name) } else { named!(($word) $($others)*) }
    };
}

/// What a command asks.
#[tactic(auto, unfolding(crate::specs::Commands::request_named))]
pub fn request_named(word: &[u8]) -> Option<RequestKind>
    ensures { result ≡ request_named word.now }
{
    file_command(word)
        .or(journal_command(word))
        .or(open_command(word))
        .or(record_command(word))
}

#[tactic(auto, unfolding(crate::specs::Commands::file_command))]
fn file_command(word: &[u8]) -> Option<RequestKind>
    ensures { result ≡ file_command word.now }
{
    request_table!(file_rows!(word))
}

#[tactic(auto, unfolding(crate::specs::Commands::journal_command))]
fn journal_command(word: &[u8]) -> Option<RequestKind>
    ensures { result ≡ journal_command word.now }
{
    request_table!(journal_rows!(word))
}

#[tactic(auto, unfolding(crate::specs::Commands::open_command))]
fn open_command(word: &[u8]) -> Option<RequestKind>
    ensures { result ≡ open_command word.now }
{
    request_table!(open_rows!(word))
}

#[tactic(auto, unfolding(crate::specs::Commands::record_command))]
fn record_command(word: &[u8]) -> Option<RequestKind>
    ensures { result ≡ record_command word.now }
{
    request_table!(record_rows!(word))
}
