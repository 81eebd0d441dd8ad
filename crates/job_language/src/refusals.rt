//! The names of refusals, and MONMSG.
ghost use Rattle.std.specs.Prelude.{◌≡◌};
ghost use Rattle.std.specs.List.{list_any};
ghost use Rattle.job_language.specs.Refusals.{refusal_of, is_same, takes};

use call_tables::reply_table;
use library_model::replies::Reply;
use std::marker::Model;

/// The name of a refusal.
#[derive(Clone, Copy, PartialEq)]
pub enum Refusal {
    RecordInUse,
    HeldByGroup,
    PlaceInUse,
    HeldToBoundary,
    NotFound,
    EndOfFile,
    BeginOfFile,
    NoCurrentRecord,
    WrongOpen,
    NoDefinition,
    AlreadyStarted,
    NoSuchEntry,
    MemberFull,
    StoreFault,
    NoMemory,
    DuplicateKey,
    NoSuchName,
    NameExists,
    Dependents,
    BadValue,
    DdsFault,
    InUse,
    NotJournaled,
    PendingChanges,
    Straddled,
    DoesNotFit,
    NeedsBoth,
    Gap,
    NotRemovable,
    ReceiverGone,
    BlockChanged,
    StillNeeded,
    LimitReached,
}

/// Names of refusals.
#[derive(Drop)]
pub struct Refusals {
    names: Vec<Refusal>,
}

impl Model for Refusals {
    ghost use Rattle.std.specs.Prelude.{List};
    ghost use Rattle.job_language.specs.declared.refusals.Refusal.{Refusal};

    ghost Value = { List Refusal };

    ghost view = { λ r. r.names.items };
}

impl Refusals {
    /// These names.
    pub fn from_vec(names: Vec<Refusal>) -> Refusals
        ensures { result ≡ names.items }
    {
        Refusals { names }
    }

    /// The names in order.
    pub fn as_slice(&self) -> &[Refusal]
        ensures { result.now ≡ self.now }
    {
        self.names.as_slice()
    }
}

/// MSGID of MONMSG.
#[derive(Drop)]
pub enum Monitored {
    /// *ANY
    Any,
    Named(Refusals),
}

/// MONMSG after a request.
#[derive(Drop)]
pub struct Monitor {
    pub takes: Monitored,
    /// The place of the label of EXEC(GOTO ..); `None` without EXEC: the script goes on as after OK.
    pub target: Option<usize>,
}

impl Refusal {
    fn is(self, other: Refusal) -> bool
        ensures { result ≡ is_same self other }
    {
        self == other
    }
}

impl Monitored {
    /// Whether the refusal is taken.
    pub fn takes(&self, refusal: Refusal) -> bool
        ensures { result ≡ takes self.now refusal }
    {
        match self {
            Monitored::Any => true,
            Monitored::Named(names) => names_one(names.as_slice(), refusal),
        }
    }
}

fn names_one(names: &[Refusal], refusal: Refusal) -> bool
    ensures { result ≡ list_any (λ name. is_same name refusal) names.now }
{
    names.iter().any(|name| name.is(refusal))
}

macro_rules! refusal_arms {
    (($reply:expr) done { $($done:ident $ok:literal $done_fields:tt $done_parts:tt)* } results { $($result:ident $too:literal $result_fields:tt $result_parts:tt)* }
        $($group:ident { $($name:ident $answer:literal $fields:tt $parts:tt)* })*) => {
        match $reply {
            $(Reply::$done { .. } => None,)*
            $(Reply::$result { .. } => None,)*
            $($(Reply::$name { .. } => Some(Refusal::$name),)*)*
        }
    };
}

/// The name of the refusal; `None` for a reply that is none.
pub fn refusal_of(reply: &Reply) -> Option<Refusal>
    ensures { result ≡ refusal_of reply.now }
{
    reply_table!(refusal_arms!(reply))
}
