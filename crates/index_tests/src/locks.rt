//! The locks that worked schedules leave, through the public calls.
use lock_table::{
    Call, Holder, InUse, Level, LockFault, LockKind, LockTable, MOST_LOCKS, OpenLocks, Reach,
    RecordId, Wanted, asked, released,
};
use std::process::Abort;
use std::test::Fail;

/// The member of every lock here.
const MEMBER: u32 = 1;

#[derive(Clone, Copy)]
enum Step {
    /// A request of a job through one of its opens for a record, and the job that it is refused by.
    Ask(u32, u32, u32, LockKind, Option<u32>),
    /// The same, to the boundary.
    AskToBoundary(u32, u32, u32, LockKind, Option<u32>),
    Keep(u32, u32, u32),
    ReleaseOpen(u32, u32),
    ReleaseRecord(u32, u32),
    ReleaseGroup(u32),
    /// A COMMIT of a job whose open of this number is under commitment.
    Commit(u32, u32),
    ReleaseJob(u32),
}

/// What the jobs 1 and 2 hold on the records 1 to 3 of each: 1 and 2 where the open of that number has a lock that ends
/// at its next read, and 4 where the job has one to its boundary.
type Holdings = [u8; 6];

/// Two jobs outside commitment. Job 1 reads record 3 for update. Job 2 reads 1, 2 and, refused, 3 for update, then 3 for
/// input. Job 1 unlocks, and job 2 reads 3 for update.
const OUTSIDE_COMMITMENT: [(Step, Holdings); 8] = [
    (
        Step::Ask(1, 1, 3, LockKind::UPDATE, None),
        [0, 0, 1, 0, 0, 0],
    ),
    (
        Step::Ask(2, 1, 1, LockKind::UPDATE, None),
        [0, 0, 1, 1, 0, 0],
    ),
    (Step::ReleaseOpen(2, 1), [0, 0, 1, 0, 0, 0]),
    (
        Step::Ask(2, 1, 2, LockKind::UPDATE, None),
        [0, 0, 1, 0, 1, 0],
    ),
    (
        Step::Ask(2, 1, 3, LockKind::UPDATE, Some(1)),
        [0, 0, 1, 0, 1, 0],
    ),
    (Step::ReleaseOpen(2, 1), [0, 0, 1, 0, 0, 0]),
    (Step::ReleaseOpen(1, 1), [0, 0, 0, 0, 0, 0]),
    (
        Step::Ask(2, 1, 3, LockKind::UPDATE, None),
        [0, 0, 0, 0, 0, 1],
    ),
];

/// Locks of every kind and reach, taken and released in turn.
const MIXED: [(Step, Holdings); 17] = [
    (Step::Ask(1, 1, 1, LockKind::READ, None), [1, 0, 0, 0, 0, 0]),
    (Step::Ask(2, 1, 1, LockKind::READ, None), [1, 0, 0, 1, 0, 0]),
    (
        Step::Ask(2, 2, 1, LockKind::UPDATE, Some(1)),
        [1, 0, 0, 1, 0, 0],
    ),
    (
        Step::Ask(1, 1, 1, LockKind::UPDATE, Some(2)),
        [1, 0, 0, 1, 0, 0],
    ),
    (Step::ReleaseOpen(2, 1), [1, 0, 0, 0, 0, 0]),
    (
        Step::Ask(1, 2, 1, LockKind::UPDATE, None),
        [3, 0, 0, 0, 0, 0],
    ),
    (
        Step::Ask(2, 1, 1, LockKind::READ, Some(1)),
        [3, 0, 0, 0, 0, 0],
    ),
    (Step::Keep(1, 2, 1), [5, 0, 0, 0, 0, 0]),
    (Step::ReleaseOpen(1, 2), [5, 0, 0, 0, 0, 0]),
    (Step::ReleaseRecord(1, 1), [4, 0, 0, 0, 0, 0]),
    (Step::Ask(1, 1, 2, LockKind::READ, None), [4, 1, 0, 0, 0, 0]),
    (Step::Ask(2, 1, 2, LockKind::READ, None), [4, 1, 0, 0, 1, 0]),
    (Step::Ask(1, 1, 2, LockKind::READ, None), [4, 1, 0, 0, 1, 0]),
    (Step::ReleaseGroup(1), [0, 1, 0, 0, 1, 0]),
    (
        Step::Ask(2, 1, 1, LockKind::UPDATE, None),
        [0, 1, 0, 1, 1, 0],
    ),
    (Step::ReleaseRecord(2, 2), [0, 1, 0, 1, 0, 0]),
    (Step::ReleaseOpen(2, 1), [0, 1, 0, 0, 0, 0]),
];

/// Job 1 changes record 1 under commitment, reads record 2 through the same open, and record 3 through one that isn't under
/// commitment. Job 2 reads beside it.
const COMMITMENT: [(Step, Holdings); 10] = [
    (
        Step::AskToBoundary(1, 1, 1, LockKind::UPDATE, None),
        [4, 0, 0, 0, 0, 0],
    ),
    (Step::Ask(1, 1, 2, LockKind::READ, None), [4, 1, 0, 0, 0, 0]),
    (
        Step::Ask(1, 2, 3, LockKind::UPDATE, None),
        [4, 1, 2, 0, 0, 0],
    ),
    (
        Step::AskToBoundary(2, 1, 1, LockKind::READ, Some(1)),
        [4, 1, 2, 0, 0, 0],
    ),
    (Step::Ask(2, 1, 2, LockKind::READ, None), [4, 1, 2, 0, 1, 0]),
    (Step::Commit(1, 1), [0, 0, 2, 0, 1, 0]),
    (
        Step::AskToBoundary(1, 2, 3, LockKind::UPDATE, None),
        [0, 0, 4, 0, 1, 0],
    ),
    (
        Step::AskToBoundary(2, 1, 1, LockKind::READ, None),
        [0, 0, 4, 4, 1, 0],
    ),
    (Step::ReleaseJob(2), [0, 0, 4, 0, 0, 0]),
    (Step::ReleaseJob(1), [0, 0, 0, 0, 0, 0]),
];

fn at(rrn: u32) -> RecordId {
    let member = MEMBER;
    RecordId { member, rrn }
}

fn holder(job: u32, opened: u32) -> Holder {
    Holder { job, opened }
}

fn refused_by(answer: Result<(), InUse>) -> Option<u32> {
    match answer {
        Ok(()) => None,
        Err(InUse { job }) => Some(job),
    }
}

fn ask(rt: &impl Abort, table: &mut LockTable, request: (u32, u32, u32, Wanted)) -> Option<u32> {
    assert!(rt; table.reserve(1).is_ok());
    let (job, opened, rrn, wanted) = request;
    match wanted.reach {
        Reach::Open => refused_by(table.ask(holder(job, opened), at(rrn), wanted.kind)),
        Reach::Boundary => refused_by(table.ask_to_boundary(
            holder(job, opened),
            at(rrn),
            wanted.kind,
        )),
    }
}

fn take(rt: &impl Abort, table: &mut LockTable, step: Step) {
    match step {
        Step::Ask(job, opened, rrn, kind, refused_by) => {
            let reach = Reach::Open;
            let wanted = Wanted { kind, reach };
            assert_eq!(rt; ask(rt, table, (job, opened, rrn, wanted)), refused_by);
        }
        Step::AskToBoundary(job, opened, rrn, kind, refused_by) => {
            let reach = Reach::Boundary;
            let wanted = Wanted { kind, reach };
            assert_eq!(rt; ask(rt, table, (job, opened, rrn, wanted)), refused_by);
        }
        Step::Keep(job, opened, rrn) => table.keep_to_boundary(holder(job, opened), at(rrn)),
        Step::ReleaseOpen(job, opened) => table.release_open(holder(job, opened)),
        Step::ReleaseRecord(job, rrn) => table.release_record(job, at(rrn)),
        Step::ReleaseGroup(job) => table.release_group(job),
        Step::Commit(job, opened) => table.release_commit(job, &[opened]),
        Step::ReleaseJob(job) => table.release_job(job),
    }
}

fn holding(table: &LockTable, job: u32, rrn: u32) -> u8 {
    let first = table.held(holder(job, 1), at(rrn));
    let second = table.held(holder(job, 2), at(rrn));
    let by_first = if first.by_open { 1u8 } else { 0 };
    let by_second = if second.by_open { 2u8 } else { 0 };
    let to_boundary = if first.to_boundary { 4u8 } else { 0 };
    by_first | by_second | to_boundary
}

fn holdings(table: &LockTable) -> Holdings {
    [
        holding(table, 1, 1),
        holding(table, 1, 2),
        holding(table, 1, 3),
        holding(table, 2, 1),
        holding(table, 2, 2),
        holding(table, 2, 3),
    ]
}

fn run(rt: &impl Abort, table: &mut LockTable, schedule: &[(Step, Holdings)]) {
    for (i, (step, wanted)) in schedule.iter().enumerate() {
        take(rt, table, *step);
        assert_eq!(rt; holdings(table), *wanted, "step {i}");
    }
}

#[test]
fn schedules_leave_their_locks(rt: HostRuntime) {
    run(&rt, &mut LockTable::new(rt.alloc()), &OUTSIDE_COMMITMENT);
    run(&rt, &mut LockTable::new(rt.alloc()), &MIXED);
    run(&rt, &mut LockTable::new(rt.alloc()), &COMMITMENT);
}

/// What job 1 holds on the records 1 to 4 after each of four reads, at each level: N nothing, R a READ lock, U an UPDATE
/// lock.
const READS: [(Level, Call, [u8; 4]); 12] = [
    (Level::Chg, Call::InputRead, *b"NNNN"),
    (Level::Chg, Call::InputRead, *b"NNNN"),
    (Level::Chg, Call::UpdateRead, *b"NNUN"),
    (Level::Chg, Call::UpdateRead, *b"NNNU"),
    (Level::Cs, Call::InputRead, *b"RNNN"),
    (Level::Cs, Call::InputRead, *b"NRNN"),
    (Level::Cs, Call::UpdateRead, *b"NNUN"),
    (Level::Cs, Call::UpdateRead, *b"NNNU"),
    (Level::All, Call::InputRead, *b"RNNN"),
    (Level::All, Call::InputRead, *b"RRNN"),
    (Level::All, Call::UpdateRead, *b"RRUN"),
    (Level::All, Call::UpdateRead, *b"RRUU"),
];

/// A read of job 1 through its open 1 that is OK.
fn read(rt: &impl Abort, table: &mut LockTable, level: Level, call: Call, rrn: u32) {
    if released(call, Some(level)).open_locks == OpenLocks::OfOpen {
        table.release_open(holder(1, 1));
    }
    if let Some(wanted) = asked(call, Some(level)) {
        assert_eq!(rt; ask(rt, table, (1, 1, rrn, wanted)), None);
    }
}

/// Which lock of job 1 job 2 finds on the record.
fn letter(table: &LockTable, rrn: u32) -> u8 {
    if table.clash(2, at(rrn), LockKind::READ).is_some() {
        b'U'
    } else if table.clash(2, at(rrn), LockKind::UPDATE).is_some() {
        b'R'
    } else {
        b'N'
    }
}

#[test]
fn reads_at_each_level(rt: HostRuntime) {
    let mut table = LockTable::new(rt.alloc());
    for (i, (level, call, wanted)) in READS.iter().enumerate() {
        let rrn = (i % 4) as u32 + 1;
        if rrn == 1 {
            table.release_open(holder(1, 1));
            table.release_group(1);
        }
        read(&rt, &mut table, *level, *call, rrn);
        let found = [
            letter(&table, 1),
            letter(&table, 2),
            letter(&table, 3),
            letter(&table, 4),
        ];
        assert_eq!(rt; found, *wanted, "read {i}");
    }
    assert_eq!(rt; table.boundary_in(MEMBER), Some(1));
    assert_eq!(rt; table.boundary_in(2), None);
}

/// A read of this job through this open for this record, in this kind and reach, and how many locks it would leave.
const READS_BESIDE: [(u32, u32, u32, LockKind, Reach, u32); 6] = [
    (1, 1, 1, LockKind::READ, Reach::Open, 3),
    (1, 1, 3, LockKind::UPDATE, Reach::Open, 3),
    (1, 1, 2, LockKind::UPDATE, Reach::Boundary, 2),
    (1, 1, 3, LockKind::READ, Reach::Boundary, 3),
    (1, 2, 3, LockKind::READ, Reach::Open, 4),
    (1, 2, 2, LockKind::UPDATE, Reach::Boundary, 4),
];

/// Open 1 of job 1 holds READ on record 1, to its next read, and UPDATE on record 2, to the boundary; so does open 1 of
/// job 2 READ on record 1.
#[test]
fn locks_that_calls_would_leave(rt: HostRuntime) {
    let mut table = LockTable::new(rt.alloc());
    take(&rt, &mut table, Step::Ask(1, 1, 1, LockKind::READ, None));
    take(&rt, &mut table, Step::Ask(2, 1, 1, LockKind::READ, None));
    take(
        &rt,
        &mut table,
        Step::AskToBoundary(1, 1, 2, LockKind::UPDATE, None),
    );
    assert_eq!(rt; table.count(), 3);
    count_each(&rt, &table, &READS_BESIDE);

    // A lock to the boundary: one that is held, one that is held to the next read, and one more.
    let writer = holder(1, 1);
    assert_eq!(rt; table.count_to_boundary(writer, at(2), LockKind::UPDATE), 3);
    assert_eq!(rt; table.count_to_boundary(writer, at(1), LockKind::READ), 3);
    assert_eq!(rt; table.count_to_boundary(writer, at(3), LockKind::UPDATE), 4);
}

fn count_each(rt: &impl Abort, table: &LockTable, reads: &[(u32, u32, u32, LockKind, Reach, u32)]) {
    for (i, (job, opened, rrn, kind, reach, count)) in reads.iter().enumerate() {
        let found = table.count_after(holder(*job, *opened), at(*rrn), *kind, *reach);
        assert_eq!(rt; found, *count, "read {i}");
    }
}

#[test]
fn room_for_the_most_locks(rt: HostRuntime) {
    let mut table = LockTable::new(rt.alloc());
    assert!(rt; matches!(table.reserve(MOST_LOCKS + 1), Err(LockFault::Full)));
    assert!(rt; table.reserve(MOST_LOCKS).is_ok());
}
