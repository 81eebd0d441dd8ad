//! Runs that are stopped at each of their store calls in turn, with each image that the stop may have left opened again.
use crate::runs::{Outcome, made, run};
use std::alloc::{AllocError, Global};
use std::process::Abort;
use std::sync::Wait;
use std::test::Fail;
use std::thread::Threads;
use store_model::MemoryStore;

/// More calls than a run has on its store.
pub(crate) const MOST_CALLS: u64 = 1_000;

/// A command, its input, and the records that are shown behind each number of acknowledged calls.
#[derive(Clone, Copy)]
pub(crate) struct Run {
    pub(crate) command: &'static str,
    pub(crate) input: &'static str,
    pub(crate) lists: &'static [&'static str],
}

const EMPTY: &str = "FILE CUST *PHY\n";

const A: &str = "FILE CUST *PHY\nRCD 1 'A    '\n";

const AB: &str = "FILE CUST *PHY\nRCD 1 'A    '\nRCD 2 'B    '\n";

pub(crate) const ABC: &str = "FILE CUST *PHY\nRCD 1 'A    '\nRCD 2 'B    '\nRCD 3 'C    '\n";

const ABCX: &str = "\
FILE CUST *PHY
RCD 1 'A    '
RCD 2 'B    '
RCD 3 'C    '
RCD 4 'X    '
";

const COMMITTED: &str = "\
FILE CUST *PHY
RCD 1 'A    '
RCD 2 'B1   '
RCD 3 'C    '
RCD 4 'X    '
";

/// Nineteen calls of two jobs: what one writes forces a commit cycle of the other, which is committed; a second one is taken back.
pub(crate) const TWO_JOBS: Run = Run {
    command: "SERIAL",
    input: "\
//DDS CUST
     A          R CUSTR
     A            NAME           5A
//JOB J1
CRTPF FILE(CUST) SRC(CUST)
STRJRNPF FILE(CUST) IMAGES(*BOTH)
OPNDBF FILE(CUST) OPTION(*ALL)
WRITE OPNID(CUST) VAL('A')
WRITE OPNID(CUST) VAL('B')
WRITE OPNID(CUST) VAL('C')
STRCMTCTL LCKLVL(*CHG)
OPNDBF FILE(CUST) OPNID(U) OPTION(*ALL) COMMIT(*YES)
CHAIN OPNID(U) RRN(2)
UPDATE OPNID(U) VAL('B1')
COMMIT
CHGJRN
CHAIN OPNID(U) RRN(1)
UPDATE OPNID(U) VAL('A1')
ROLLBACK
//JOB J2
OPNDBF FILE(CUST) OPTION(*ALL)
WRITE OPNID(CUST) VAL('X')
//SCHED J1 J1 J1 J1 J1 J1 J1 J1 J1 J1 J2 J2
//END
",
    lists: &[
        "", EMPTY, EMPTY, EMPTY, A, AB, ABC, ABC, ABC, ABC, ABC, ABC, ABCX, COMMITTED, COMMITTED,
        COMMITTED, COMMITTED, COMMITTED, COMMITTED, COMMITTED,
    ],
};

pub(crate) const ABCD: &str = "\
FILE CUST *PHY
RCD 1 'A    '
RCD 2 'B    '
RCD 3 'C    '
RCD 4 'D    '
";

const ABCDE: &str = "\
FILE CUST *PHY
RCD 1 'A    '
RCD 2 'B    '
RCD 3 'C    '
RCD 4 'D    '
RCD 5 'E    '
";

/// The place of the record that was taken back stays deleted.
const ABCDEG: &str = "\
FILE CUST *PHY
RCD 1 'A    '
RCD 2 'B    '
RCD 3 'C    '
RCD 4 'D    '
RCD 5 'E    '
RCD 7 'G    '
";

/// Twenty calls of one job: changes outside commitment control, a commit cycle that is committed and one that is taken back.
pub(crate) const ONE_JOB: Run = Run {
    command: "RUN",
    input: "\
//DDS CUST
     A          R CUSTR
     A            NAME           5A
     A          K NAME
//JOB J1
CRTPF FILE(CUST) SRC(CUST)
STRJRNPF FILE(CUST) IMAGES(*BOTH)
OPNDBF FILE(CUST) OPTION(*ALL)
WRITE OPNID(CUST) VAL('A')
WRITE OPNID(CUST) VAL('B')
WRITE OPNID(CUST) VAL('C')
CLOF OPNID(CUST)
STRCMTCTL LCKLVL(*CHG)
OPNDBF FILE(CUST) OPTION(*ALL) COMMIT(*YES)
WRITE OPNID(CUST) VAL('D')
WRITE OPNID(CUST) VAL('E')
COMMIT
CHGJRN
WRITE OPNID(CUST) VAL('F')
ROLLBACK
CLOF OPNID(CUST)
ENDCMTCTL
OPNDBF FILE(CUST) OPTION(*ALL)
WRITE OPNID(CUST) VAL('G')
//END
",
    lists: &[
        "", EMPTY, EMPTY, EMPTY, A, AB, ABC, ABC, ABC, ABC, ABC, ABC, ABCDE, ABCDE, ABCDE, ABCDE,
        ABCDE, ABCDE, ABCDE, ABCDEG, ABCDEG,
    ],
};

/// Eleven calls of one job, which read entries of the journal in the run that deposited them: the second record is taken out and put back.
pub(crate) const READING: Run = Run {
    command: "RUN",
    input: "\
//DDS CUST
     A          R CUSTR
     A            NAME           5A
//JOB J1
CRTPF FILE(CUST) SRC(CUST)
STRJRNPF FILE(CUST) IMAGES(*BOTH)
OPNDBF FILE(CUST) OPTION(*ALL)
WRITE OPNID(CUST) VAL('A')
WRITE OPNID(CUST) VAL('B')
DSPJRN FROMENT(1) TOENT(4)
CLOF OPNID(CUST)
RMVJRNCHG FILE(CUST) TOENT(4)
DSPJRN FROMENT(3) TOENT(6)
APYJRNCHG FILE(CUST) FROMENT(4) TOENT(4)
//END
",
    lists: &["", EMPTY, EMPTY, EMPTY, A, AB, AB, AB, A, A, AB, AB],
};

/// How many lines of the text begin and end so.
fn lines_with(text: &str, front: &str, end: &str) -> usize {
    text.lines()
        .filter(|line| line.starts_with(front) && line.ends_with(end))
        .count()
}

/// How many calls of a listing were acknowledged: all but one that found the store at fault.
pub(crate) fn acknowledged(text: &str) -> usize {
    text.lines()
        .filter(|line| line.contains(" => ") && !line.ends_with(" => StoreFault"))
        .count()
}

/// The lines of a display that tell of files and records.
pub(crate) fn list_of(alloc: Global, text: &str) -> Result<String, AllocError> {
    let mut list = String::new(alloc);
    for line in text.lines() {
        if line.starts_with("FILE ") || line.starts_with("RCD ") {
            list.push_str(line)?;
            list.push_str("\n")?;
        }
    }
    Ok(list)
}

/// The list behind so many calls; that behind the last call where there are fewer.
fn list_behind(run: Run, calls: usize) -> &'static str {
    let last = run.lists.len().saturating_sub(1);
    run.lists.get(calls.min(last)).copied().unwrap_or("")
}

/// The image can be opened, and shows the list of the last acknowledged call or of the one after it. Hands back what it shows.
pub(crate) fn image_holds<R: Threads + Wait + Sync + Abort>(
    rt: &R,
    alloc: Global,
    image: MemoryStore,
    done: Run,
    calls: usize,
    stop: u64,
) -> Result<String, AllocError> {
    let shown = run(rt, alloc, image, "DSP", "")?;
    assert_eq!(rt; shown.status, 0, "stopped at {stop}");
    let list = list_of(alloc, shown.text())?;
    let least = list_behind(done, calls);
    let most = list_behind(done, calls.saturating_add(1));
    assert!(rt;
        list.as_str() == least || list.as_str() == most,
        "stopped at {stop} behind {calls} calls"
    );
    // A receiver that ended has the next one, which begins with its entry, and which is attached.
    let ended = lines_with(shown.text(), "ENT ", " RCV(2)");
    assert_eq!(rt;
        lines_with(shown.text(), "ENT ", " RCV(1)"),
        ended,
        "stopped at {stop}"
    );
    assert_eq!(rt;
        lines_with(shown.text(), "LIBRARY ", " RCV(2)"),
        ended,
        "stopped at {stop}"
    );
    // What was shown is on the disk: the same is shown again.
    let again = run(rt, alloc, shown.store, "DSP", "")?;
    assert_eq!(rt; again.status, 0);
    assert_eq!(rt;
        again.written.bytes(),
        shown.written.bytes(),
        "stopped at {stop}"
    );
    Ok(list)
}

/// A library in which nothing is, over a store that has made no call.
pub(crate) fn fresh<R: Threads + Wait + Sync>(
    rt: &R,
    alloc: Global,
) -> Result<MemoryStore, AllocError> {
    copied(alloc, &made(rt, alloc)?)
}

/// A store with the same areas that has made no call; they are on the disk.
pub(crate) fn copied(alloc: Global, store: &MemoryStore) -> Result<MemoryStore, AllocError> {
    let mut images = store.stop_images(alloc)?;
    match images.pop() {
        Some(image) => Ok(image),
        None => Ok(MemoryStore::new(alloc)),
    }
}

/// Does the run up to a call of its store, counted from 1, from which on each fails.
pub(crate) fn stopped<R: Threads + Wait + Sync>(
    rt: &R,
    alloc: Global,
    done: Run,
    stop: u64,
) -> Result<Outcome, AllocError> {
    let mut store = fresh(rt, alloc)?;
    store.stop_at(stop);
    run(rt, alloc, store, done.command, done.input)
}

/// Each image of a stop holds what it has to; tells whether the run was stopped.
fn stop_is_survived<R: Threads + Wait + Sync + Abort>(
    rt: &R,
    alloc: Global,
    done: Run,
    stop: u64,
) -> Result<bool, AllocError> {
    let ran = stopped(rt, alloc, done, stop)?;
    if ran.status == 0 {
        return Ok(false);
    }
    assert_eq!(rt; ran.status, 7, "stopped at {stop}");
    let calls = acknowledged(ran.text());
    for image in ran.store.stop_images(alloc)? {
        image_holds(rt, alloc, image, done, calls, stop)?;
    }
    Ok(true)
}

/// Stops a run at every fourth call of its store from one on, up to its end.
fn stops_are_survived<R: Threads + Wait + Sync + Abort>(
    rt: &R,
    alloc: Global,
    done: Run,
    first: u64,
) -> Result<(), AllocError> {
    let mut ended = false;
    for step in 0..MOST_CALLS / 4 {
        let stop = first.saturating_add(step.saturating_mul(4));
        if !stop_is_survived(rt, alloc, done, stop)? {
            assert!(rt; stop > 40, "the run has {stop} calls of its store");
            ended = true;
            break;
        }
    }
    assert!(rt; ended);
    Ok(())
}

#[test]
fn two_jobs_stopped_from_the_first_call(rt: HostRuntime) -> Result<(), Fail> {
    stops_are_survived(&rt, rt.alloc(), TWO_JOBS, 1)?;
    Ok(())
}

#[test]
fn two_jobs_stopped_from_the_second_call(rt: HostRuntime) -> Result<(), Fail> {
    stops_are_survived(&rt, rt.alloc(), TWO_JOBS, 2)?;
    Ok(())
}

#[test]
fn two_jobs_stopped_from_the_third_call(rt: HostRuntime) -> Result<(), Fail> {
    stops_are_survived(&rt, rt.alloc(), TWO_JOBS, 3)?;
    Ok(())
}

#[test]
fn two_jobs_stopped_from_the_fourth_call(rt: HostRuntime) -> Result<(), Fail> {
    stops_are_survived(&rt, rt.alloc(), TWO_JOBS, 4)?;
    Ok(())
}

#[test]
fn one_job_stopped_from_the_first_call(rt: HostRuntime) -> Result<(), Fail> {
    stops_are_survived(&rt, rt.alloc(), ONE_JOB, 1)?;
    Ok(())
}

#[test]
fn one_job_stopped_from_the_second_call(rt: HostRuntime) -> Result<(), Fail> {
    stops_are_survived(&rt, rt.alloc(), ONE_JOB, 2)?;
    Ok(())
}

#[test]
fn one_job_stopped_from_the_third_call(rt: HostRuntime) -> Result<(), Fail> {
    stops_are_survived(&rt, rt.alloc(), ONE_JOB, 3)?;
    Ok(())
}

#[test]
fn one_job_stopped_from_the_fourth_call(rt: HostRuntime) -> Result<(), Fail> {
    stops_are_survived(&rt, rt.alloc(), ONE_JOB, 4)?;
    Ok(())
}
