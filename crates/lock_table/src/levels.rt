//! Which lock each call asks for and which locks it releases, at each level of commitment control.
ghost use Rattle.std.specs.Prelude.{◌≡◌};
ghost use Rattle.lock_table.specs.declared.levels.Call.TheVariants.{InputRead};
ghost use Rattle.lock_table.specs.Levels as table;

use crate::lock::{LockKind, Reach};
use commit_level::Level;

/// What a program calls, as far as record locks go.
#[derive(Clone, Copy, PartialEq)]
pub enum Call {
    /// A READ, READP, READE, READPE or CHAIN that doesn't make the record the current one.
    InputRead,
    /// One that does, through an open for update.
    UpdateRead,
    Update,
    Delete,
    /// A WRITE past the end.
    Write,
    /// A WRITE at a deleted place.
    WriteAt,
    Unlock,
    /// A SETLL or SETGT.
    Position,
    Close,
    Commit,
    Rollback,
    EndCommitment,
    EndJob,
}

/// The lock that a call puts on its record.
#[derive(Clone, Copy, PartialEq)]
pub struct Wanted {
    pub kind: LockKind,
    pub reach: Reach,
}

/// Which locks that end at an open's next read a call releases.
#[derive(Clone, Copy, PartialEq)]
pub enum OpenLocks {
    /// None of them.
    Stay,
    /// Those of the open.
    OfOpen,
    /// Those of all opens of the job on the record.
    OfRecord,
    /// Those of the job's opens under commitment.
    OfCommitted,
    /// Those of all opens of the job.
    OfJob,
}

/// What a call releases.
#[derive(Clone, Copy, PartialEq)]
pub struct Freed {
    pub open_locks: OpenLocks,
    /// Whether the job's boundary locks go too.
    pub boundary_locks: bool,
}

/// The lock that a record gets by a call at this level, `None` where it gets none.
///
/// The level is that of the open, `None` where it isn't under commitment. The lock of a WRITE at a deleted place
/// without commitment is held during the call alone.
pub fn asked(call: Call, level: Option<Level>) -> Option<Wanted>
    ensures { result ≡ table.asked call level }
{
    let to_boundary = Wanted {
        kind: LockKind::UPDATE,
        reach: Reach::Boundary,
    };
    let to_next_read = Wanted {
        kind: LockKind::UPDATE,
        reach: Reach::Open,
    };
    match call {
        Call::InputRead => asked_by_input(level),
        Call::UpdateRead if level == Some(Level::All) => Some(to_boundary),
        Call::UpdateRead => Some(to_next_read),
        Call::Update | Call::Delete | Call::Write => level.map(|_| to_boundary),
        Call::WriteAt if level.is_some() => Some(to_boundary),
        Call::WriteAt => Some(to_next_read),
        _ => None,
    }
}

fn asked_by_input(level: Option<Level>) -> Option<Wanted>
    ensures { result ≡ table.asked InputRead level }
{
    let reach = match level {
        None | Some(Level::Chg) => return None,
        Some(Level::Cs) => Reach::Open,
        Some(Level::All) => Reach::Boundary,
    };
    Some(Wanted {
        kind: LockKind::READ,
        reach,
    })
}

/// What a call at this level releases once it is OK.
///
/// An UPDATE or a DELETE under commitment keeps the lock of its open to the boundary first.
pub fn released(call: Call, level: Option<Level>) -> Freed
    ensures { result ≡ table.released call level }
{
    let open_locks = match call {
        Call::InputRead | Call::UpdateRead | Call::Position | Call::Close => OpenLocks::OfOpen,
        Call::Update if level.is_none() => OpenLocks::OfOpen,
        Call::Unlock if level != Some(Level::All) => OpenLocks::OfOpen,
        Call::Delete => OpenLocks::OfRecord,
        Call::WriteAt if level.is_none() => OpenLocks::OfRecord,
        Call::Commit => OpenLocks::OfCommitted,
        Call::Rollback | Call::EndJob => OpenLocks::OfJob,
        _ => OpenLocks::Stay,
    };
    let boundary_locks = matches!(
        call,
        Call::Commit | Call::Rollback | Call::EndCommitment | Call::EndJob
    );
    Freed {
        open_locks,
        boundary_locks,
    }
}
