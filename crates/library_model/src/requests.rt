//! The requests of a job, one struct of arguments each, with every default filled in.
ghost use Rattle.std.specs.Prelude.{◌≡◌, IfOk, option_copied};
ghost use Rattle.library_model.specs.Ending.{end_asked};

use crate::value_lists::{GivenValues, Values};
use call_tables::request_table;
use commit_level::Level;
use entry_codec::Images;
use field_types::names::Name;
use std::alloc::{AllocError, Global};

/// CRTPF: makes a physical file and its first member from a source.
#[derive(Clone, Copy)]
pub struct CreatePhysicalFile {
    pub file: Name,
    pub source: Name,
}

/// CRTLF: makes a logical file from a source.
#[derive(Clone, Copy)]
pub struct CreateLogicalFile {
    pub file: Name,
    pub source: Name,
}

/// DLTF: deletes a file.
#[derive(Clone, Copy)]
pub struct DeleteFile {
    pub file: Name,
}

/// The member that a file command names.
#[derive(Clone, Copy)]
pub struct FileMember {
    pub file: Name,
    pub member: Name,
}

/// STRJRNPF: begins to journal a member.
#[derive(Clone, Copy)]
pub struct StartJournaling {
    pub file: Name,
    pub member: Name,
    pub images: Images,
}

/// DLTJRNRCV: gives up the receivers up to one.
#[derive(Clone, Copy)]
pub struct DeleteReceiver {
    pub number: u32,
}

/// DSPJRN: shows entries of the journal.
#[derive(Clone, Copy)]
pub struct DisplayJournal {
    pub from: u64,
    pub to: u64,
}

/// One end of a range of the journal, as a request names it.
#[derive(Clone, Copy, PartialEq)]
pub enum RangeEnd {
    /// *FIRST
    First,
    /// *LAST
    Last,
    Sequence(u64),
}

/// APYJRNCHG and RMVJRNCHG: applies or removes journaled changes of a member.
#[derive(Clone, Copy)]
pub struct JournaledChanges {
    pub file: Name,
    pub member: Name,
    pub from: RangeEnd,
    pub to: RangeEnd,
}

/// STRCMTCTL: starts commitment control at a level.
#[derive(Clone, Copy)]
pub struct StartCommitment {
    pub level: Level,
}

/// OPTION of OPNDBF.
#[derive(Clone, Copy, PartialEq)]
pub enum OpenOption {
    /// *INP: the open reads alone.
    Input,
    /// *ALL: the open reads, adds, changes and deletes.
    All,
}

/// ACCPTH of OPNDBF.
#[derive(Clone, Copy, PartialEq)]
pub enum AccessPath {
    /// *FILE: the order of the file's access path, arrival order where it has no keys.
    File,
    /// *ARRIVAL
    Arrival,
}

/// OPNDBF: opens a member of a file under a name of the job's own.
#[derive(Clone, Copy)]
pub struct OpenFile {
    pub file: Name,
    pub option: OpenOption,
    pub member: Name,
    pub open_id: Name,
    /// COMMIT(*YES): under commitment control.
    pub commit: bool,
    pub access_path: AccessPath,
}

/// The open that a request names.
#[derive(Clone, Copy)]
pub struct OpenName {
    pub open_id: Name,
}

/// Where SETLL and SETGT put the position.
#[derive(Drop)]
pub enum Limit {
    /// KEY(..): a list of values of the first key fields.
    Key(Values),
    /// KEY(*LOVAL)
    LowValue,
    /// KEY(*HIVAL)
    HighValue,
    /// RRN(n)
    RecordNumber(u32),
}

/// SETLL and SETGT: set the position of an open.
#[derive(Drop)]
pub struct SetPosition {
    pub open_id: Name,
    pub to: Limit,
}

/// LCK of a read.
#[derive(Clone, Copy, PartialEq)]
pub enum LockOption {
    /// *DFT: an update read through an open with OPTION(*ALL), else an input read.
    Default,
    /// *NO: an input read.
    No,
}

/// READ and READP: read the next or the prior record.
#[derive(Clone, Copy)]
pub struct ReadRecord {
    pub open_id: Name,
    pub lock: LockOption,
}

/// READE and READPE: read the next or the prior record of a key.
#[derive(Drop)]
pub struct ReadEqual {
    pub open_id: Name,
    pub key: Values,
    pub lock: LockOption,
}

/// What CHAIN looks for.
#[derive(Drop)]
pub enum ChainTo {
    /// KEY(..): the first record whose key begins with these values.
    Key(Values),
    /// RRN(n): the record of this relative record number.
    RecordNumber(u32),
}

/// CHAIN: reads a record by key or by relative record number.
#[derive(Drop)]
pub struct ChainRecord {
    pub open_id: Name,
    pub to: ChainTo,
    pub lock: LockOption,
}

/// WRITE: adds a record.
#[derive(Drop)]
pub struct WriteRecord {
    pub open_id: Name,
    /// FMT: `None` is *FILE, the file's first format.
    pub format: Option<Name>,
    /// RRN: `None` is *END, past the last place.
    pub record_number: Option<u32>,
    pub values: GivenValues,
}

/// UPDATE: changes the record that the open read last for update.
#[derive(Drop)]
pub struct UpdateRecord {
    pub open_id: Name,
    pub values: GivenValues,
}

/// Why a job ends.
#[derive(Clone, Copy, PartialEq)]
pub enum EndReason {
    /// *NORMAL: the script ended.
    Normal,
    /// *ESCAPE: a refusal that nothing monitors.
    Escape,
    /// *EXPR: an expression without a value.
    Expression,
    /// *STMT: as many statements as a job may run.
    Statements,
    /// *HISTORY: the history is full.
    History,
}

/// ENDJOB: ends the job, as its script's end does.
#[derive(Clone, Copy)]
pub struct EndJob {
    pub reason: EndReason,
    /// The statement's line, 0 where there is none.
    pub line: u32,
}

/// What a job asks of the library.
#[derive(Drop)]
pub enum Request {
    CreatePhysicalFile(CreatePhysicalFile),
    CreateLogicalFile(CreateLogicalFile),
    DeleteFile(DeleteFile),
    /// ADDPFM
    AddMember(FileMember),
    /// CLRPFM
    ClearMember(FileMember),
    /// RGZPFM
    ReorganizeMember(FileMember),
    StartJournaling(StartJournaling),
    /// ENDJRNPF
    EndJournaling(FileMember),
    /// CHGJRN: attaches a new receiver.
    ChangeJournal,
    DeleteReceiver(DeleteReceiver),
    /// CHKPT: saves the state of the last sequence.
    Checkpoint,
    DisplayJournal(DisplayJournal),
    ApplyChanges(JournaledChanges),
    RemoveChanges(JournaledChanges),
    StartCommitment(StartCommitment),
    /// ENDCMTCTL
    EndCommitment,
    Commit,
    Rollback,
    OpenFile(OpenFile),
    /// CLOF
    CloseFile(OpenName),
    SetLowerLimit(SetPosition),
    SetGreaterThan(SetPosition),
    Read(ReadRecord),
    ReadPrior(ReadRecord),
    ReadEqual(ReadEqual),
    ReadPriorEqual(ReadEqual),
    Chain(ChainRecord),
    Write(WriteRecord),
    Update(UpdateRecord),
    Delete(OpenName),
    Unlock(OpenName),
    EndJob(EndJob),
}

impl Limit {
    /// A copy in memory of its own.
    pub fn copied(&self, alloc: Global) -> Result<Limit, AllocError>
        ensures { IfOk result (λ l. l ≡ self.now) }
    {
        match self {
            Limit::Key(values) => Ok(Limit::Key(values.copied(alloc)?)),
            Limit::LowValue => Ok(Limit::LowValue),
            Limit::HighValue => Ok(Limit::HighValue),
            Limit::RecordNumber(rrn) => Ok(Limit::RecordNumber(*rrn)),
        }
    }
}

impl ChainTo {
    /// A copy in memory of its own.
    pub fn copied(&self, alloc: Global) -> Result<ChainTo, AllocError>
        ensures { IfOk result (λ t. t ≡ self.now) }
    {
        match self {
            ChainTo::Key(values) => Ok(ChainTo::Key(values.copied(alloc)?)),
            ChainTo::RecordNumber(rrn) => Ok(ChainTo::RecordNumber(*rrn)),
        }
    }
}

// The arms of the groups but the last, and ENDJOB's.
macro_rules! end_groups {
    (($request:expr) files { $($files:tt)* } journaling { $($journaling:tt)* } journal { $($journal:tt)* } commitment { $($commitment:tt)* }
        boundaries { $($boundaries:tt)* } opens { $($opens:tt)* } records { $($records:tt)* } unlock { $($unlock:tt)* } end $end:tt) => {
        end_arms!(($request) $($files)* $($journaling)* $($journal)* $($commitment)* $($boundaries)* $($opens)* $($records)* $($unlock)*)
    };
}

macro_rules! end_arms {
    (($request:expr) $($name:ident $word:literal $args:tt $asked:tt)*) => {
        match $request {
            Request::EndJob(args) => Some(args),
            $(Request::$name { .. } => None,)*
        }
    };
}

macro_rules! copy_arms {
    (($alloc:expr, $request:expr) $($group:ident { $($name:ident $word:literal ($($args:ident { $($field:ident: $codec:ident $keywords:tt $(= $default:ident)?),* })?) $asked:tt)* })*) => {
        match $request {
            $($(Request::$name $((bound!(args $args)))? => Ok(Request::$name $(($args { $($field: copy!($codec args.$field, $alloc)),* }))?),)*)*
        }
    };
}

// The arguments of a request, where it has any.
macro_rules! bound {
    ($args:ident $kind:ident) => { $args };
}

// A copy of a field: what has memory of its own is copied there.
macro_rules! copy {
    (values $field:expr, $alloc:expr) => { $field.copied($alloc)? };
    (given_values $field:expr, $alloc:expr) => { $field.copied($alloc)? };
    (limit $field:expr, $alloc:expr) => { $field.copied($alloc)? };
    (chain_to $field:expr, $alloc:expr) => { $field.copied($alloc)? };
    ($codec:ident $field:expr, $alloc:expr) => { $field };
}

impl Request {
    /// How the request ends its job, where it does.
    pub fn end_asked(&self) -> Option<&EndJob>
        ensures { option_copied result ≡ end_asked self.now }
    {
        request_table!(end_groups!(self))
    }

    /// A copy in memory of its own.
    pub fn copied(&self, alloc: Global) -> Result<Request, AllocError>
        ensures { IfOk result (λ r. r ≡ self.now) }
    {
        request_table!(copy_arms!(alloc, self))
    }
}
