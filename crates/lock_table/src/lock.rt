//! A record lock: who holds it, on which record, of which kind and how long. The table of locks is in table.rt.
ghost use Rattle.std.specs.Prelude.{⊤, ◌≡◌, [], ◌∷◌, codes};

use bitflags::{Flag, Flags, bitflag_items};

/// The kind of a record lock: READ lets other jobs read the record, UPDATE lets none use it.
#[derive(Clone, Copy, PartialEq, Eq, PartialOrd, Ord)]
pub struct LockKind(u8);

bitflag_items! {
    impl LockKind: u8 {
        const READ = 1;
        const UPDATE = 2;
    }
}

impl Flags for LockKind {
    type Bits = u8;

    ghost exact = { ⊤ };

    ghost table = { (codes "READ", 1) ∷ (codes "UPDATE", 2) ∷ [] };

    ghost set_of = { λ kind. kind.0 };

    fn flags<'a>() -> &'a [Flag<LockKind>] {
        LockKind::FLAGS
    }

    fn bits(&self) -> u8 {
        self.0
    }

    fn from_bits_retain(bits: u8) -> LockKind {
        LockKind(bits)
    }
}

impl LockKind {
    ghost use Rattle.lock_table.specs.Lock.{are_apart};

    /// Whether two jobs may not hold these kinds on one record: READ beside READ alone is allowed.
    pub fn clashes_with(self, other: LockKind) -> bool
        ensures { result ≡ are_apart self other }
    {
        self.contains(LockKind::UPDATE) || other.contains(LockKind::UPDATE)
    }
}

/// How long a lock is held.
#[derive(Clone, Copy, PartialEq, Eq, PartialOrd, Ord)]
pub enum Reach {
    /// To the next read through its open.
    Open,
    /// To the job's next commitment boundary.
    Boundary,
}

impl Reach {
    ghost use Rattle.lock_table.specs.Lock.{is_open};

    /// Whether the lock ends at the next read through its open.
    pub fn is_open(self) -> bool
        ensures { result ≡ is_open self }
    {
        match self {
            Reach::Open => true,
            Reach::Boundary => false,
        }
    }
}

/// A record of a member.
#[derive(Clone, Copy, PartialEq, Eq, PartialOrd, Ord)]
pub struct RecordId {
    pub member: u32,
    pub rrn: u32,
}

/// Through which open of which job a record is locked.
#[derive(Clone, Copy, PartialEq, Eq)]
pub struct Holder {
    pub job: u32,
    /// The number of the open, apart from the others of its job.
    pub opened: u32,
}

/// A record lock. The order of the fields is the one in which the table lists its locks.
#[derive(Clone, Copy, PartialEq, Eq, PartialOrd, Ord)]
pub struct Lock {
    pub job: u32,
    pub reach: Reach,
    pub at: RecordId,
    /// The number of the open of the job through which the record was locked.
    pub opened: u32,
    pub kind: LockKind,
}

impl Holder {
    ghost use Rattle.lock_table.specs.Lock.{lock_by};

    /// The lock that this open has on the record.
    pub fn lock(self, at: RecordId, kind: LockKind, reach: Reach) -> Lock
        ensures { result ≡ lock_by self at kind reach }
    {
        Lock {
            job: self.job,
            reach,
            at,
            opened: self.opened,
            kind,
        }
    }
}

impl Lock {
    ghost use Rattle.lock_table.specs.Lock.{are_apart, bound, is_of_open, is_of_open_on, is_on};
    ghost use Rattle.lock_table.specs.Index.{record_first};

    /// The same lock, kept to the boundary.
    pub fn to_boundary(&self) -> Lock
        ensures { result ≡ bound self.now }
    {
        Lock {
            reach: Reach::Boundary,
            ..*self
        }
    }

    /// The same lock with its record number in the place of its job, so that locks are by record.
    pub fn record_first(&self) -> Lock
        ensures { result ≡ record_first self.now }
    {
        let at = RecordId {
            member: self.at.member,
            rrn: self.job,
        };
        Lock {
            job: self.at.rrn,
            reach: self.reach,
            at,
            opened: self.opened,
            kind: self.kind,
        }
    }

    /// Whether it is on this record.
    pub fn is_on(&self, at: RecordId) -> bool
        ensures { result ≡ is_on at self.now }
    {
        self.at.member == at.member && self.at.rrn == at.rrn
    }

    /// Whether it ends at the next read through this open.
    pub fn is_of_open(&self, holder: Holder) -> bool
        ensures { result ≡ is_of_open holder self.now }
    {
        self.reach.is_open() && self.job == holder.job && self.opened == holder.opened
    }

    /// Whether it is on this record, and ends at the next read through this open.
    pub fn is_of_open_on(&self, holder: Holder, at: RecordId) -> bool
        ensures { result ≡ is_of_open_on holder at self.now }
    {
        self.is_on(at) && self.is_of_open(holder)
    }
}
