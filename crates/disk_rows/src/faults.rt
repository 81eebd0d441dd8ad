//! Runs with a fault at each call of their store in turn, and restarts that are stopped at each of theirs.
use crate::runs::{made, run};
use crate::stops::{
    ABC, ABCD, MOST_CALLS, ONE_JOB, READING, Run, TWO_JOBS, acknowledged, copied, fresh,
    image_holds, list_of, stopped,
};
use std::alloc::{AllocError, Global};
use std::process::Abort;
use std::sync::Wait;
use std::test::Fail;
use std::thread::Threads;
use store_model::MemoryStore;

/// Whether a listing is empty, or its last call found the store at fault.
fn ends_at_the_fault(text: &str) -> bool {
    let mut at_fault = true;
    for line in text.lines() {
        if line.contains(" => ") {
            at_fault = line.ends_with(" => StoreFault");
        }
    }
    at_fault
}

/// The run ends with the call that fails, and its library opens again; tells whether one failed.
fn fault_is_survived<R: Threads + Wait + Sync + Abort>(
    rt: &R,
    alloc: Global,
    done: Run,
    call: u64,
) -> Result<bool, AllocError> {
    let mut store = fresh(rt, alloc)?;
    store.fail_at(call);
    let ran = run(rt, alloc, store, done.command, done.input)?;
    if ran.status == 0 {
        return Ok(false);
    }
    assert_eq!(rt; ran.status, 7, "fault at {call}");
    assert!(rt; ends_at_the_fault(ran.text()), "fault at {call}");
    let calls = acknowledged(ran.text());
    image_holds(rt, alloc, ran.store, done, calls, call)?;
    Ok(true)
}

fn faults_are_survived<R: Threads + Wait + Sync + Abort>(
    rt: &R,
    alloc: Global,
    done: Run,
) -> Result<(), AllocError> {
    let mut ended = false;
    for call in 1..MOST_CALLS {
        if !fault_is_survived(rt, alloc, done, call)? {
            assert!(rt; call > 40, "the run has {call} calls of its store");
            ended = true;
            break;
        }
    }
    assert!(rt; ended);
    Ok(())
}

#[test]
fn two_jobs_survive_each_fault(rt: HostRuntime) -> Result<(), Fail> {
    faults_are_survived(&rt, rt.alloc(), TWO_JOBS)?;
    Ok(())
}

#[test]
fn one_job_survives_each_fault(rt: HostRuntime) -> Result<(), Fail> {
    faults_are_survived(&rt, rt.alloc(), ONE_JOB)?;
    Ok(())
}

#[test]
fn reads_of_the_journal_survive_each_fault(rt: HostRuntime) -> Result<(), Fail> {
    faults_are_survived(&rt, rt.alloc(), READING)?;
    Ok(())
}

/// Three records, of a member that has both images journaled.
const SETUP: &str = "\
//DDS CUST
     A          R CUSTR
     A            NAME           5A
//JOB J1
CRTPF FILE(CUST) SRC(CUST)
STRJRNPF FILE(CUST) IMAGES(*BOTH)
OPNDBF FILE(CUST) OPTION(*ALL)
WRITE OPNID(CUST) VAL('A')
WRITE OPNID(CUST) VAL('B')
WRITE OPNID(CUST) VAL('C')
//END
";

/// Five calls over the library of a run before: the same entries are read twice.
const TWICE: Run = Run {
    command: "RUN",
    input: "\
//JOB J2
OPNDBF FILE(CUST) OPTION(*ALL)
WRITE OPNID(CUST) VAL('D')
DSPJRN FROMENT(1) TOENT(6)
DSPJRN FROMENT(1) TOENT(6)
//END
",
    lists: &[ABC, ABC, ABCD, ABCD, ABCD, ABCD],
};

/// What is written where the first read finds the store at fault.
const UNREAD: &str = "\
HISTORY
1 J2 0 OPNDBF FILE(CUST) OPTION(*ALL) MBR(CUST) OPNID(CUST) COMMIT(*NO) ACCPTH(*FILE) => OK
2 J2 1 WRITE OPNID(CUST) FMT(*FILE) RRN(*END) VAL('D') => OK RRN(4)
3 J2 2 DSPJRN FROMENT(1) TOENT(6) => StoreFault
";

/// A call of the store fails, and the library opens again with all that was acknowledged; tells how many calls were, where one found the fault.
fn acknowledged_before<R: Threads + Wait + Sync + Abort>(
    rt: &R,
    alloc: Global,
    image: &MemoryStore,
    call: u64,
) -> Result<Option<usize>, AllocError> {
    let mut store = copied(alloc, image)?;
    store.fail_at(call);
    let ran = run(rt, alloc, store, TWICE.command, TWICE.input)?;
    if ran.status == 0 {
        return Ok(None);
    }
    assert_eq!(rt; ran.status, 7, "fault at {call}");
    assert!(rt; ends_at_the_fault(ran.text()), "fault at {call}");
    let calls = acknowledged(ran.text());
    if calls == 2 {
        assert!(rt; ran.text().starts_with(UNREAD), "fault at {call}");
    }
    image_holds(rt, alloc, ran.store, TWICE, calls, call)?;
    Ok(Some(calls))
}

/// The store is asked for the entries once: their blocks are kept then.
#[test]
fn a_fault_at_a_read_of_the_journal_is_told(rt: HostRuntime) -> Result<(), Fail> {
    let before = run(&rt, rt.alloc(), made(&rt, rt.alloc())?, "RUN", SETUP)?;
    let mut at_the_first: u64 = 0;
    let mut at_the_second: u64 = 0;
    for call in 1..MOST_CALLS {
        match acknowledged_before(&rt, rt.alloc(), &before.store, call)? {
            None => break,
            Some(2) => at_the_first = at_the_first.saturating_add(1),
            Some(3) => at_the_second = at_the_second.saturating_add(1),
            Some(_) => {}
        }
    }
    assert!(&rt; at_the_first > 0);
    assert_eq!(&rt; at_the_second, 0);
    Ok(())
}

/// What a restart deposits for a commit cycle that another job's record has brought to the disk.
const TAKEN_BACK: &str = "\
ENT 11 J IA JOB(RESTART) AT(0) GRP(0) MBR(0) RRN(0)
ENT 12 R BR JOB(RESTART) AT(0) GRP(7) MBR(1) RRN(2) IMG(1 'B1   ')
ENT 13 R UR JOB(RESTART) AT(0) GRP(7) MBR(1) RRN(2) IMG(2 'B    ')
ENT 14 C RB JOB(RESTART) AT(0) GRP(7) MBR(0) RRN(0)
END
";

/// The store of the first stop of two jobs that comes behind so many acknowledged calls.
fn stopped_behind<R: Threads + Wait + Sync>(
    rt: &R,
    alloc: Global,
    calls: usize,
) -> Result<MemoryStore, AllocError> {
    for stop in 1..MOST_CALLS {
        let ran = stopped(rt, alloc, TWO_JOBS, stop)?;
        if acknowledged(ran.text()) == calls {
            return copied(alloc, &ran.store);
        }
    }
    Ok(MemoryStore::new(alloc))
}

#[test]
fn a_cycle_on_the_disk_is_taken_back(rt: HostRuntime) -> Result<(), Fail> {
    let store = stopped_behind(&rt, rt.alloc(), 12)?;
    let shown = run(&rt, rt.alloc(), store, "DSP", "")?;
    assert_eq!(&rt; shown.status, 0);
    assert!(&rt; shown.text().starts_with("LIBRARY SEQ(14) RCV(1)\n"));
    assert!(&rt; shown.text().ends_with(TAKEN_BACK));
    Ok(())
}

/// A restart that is stopped at a call of its store leaves what can be opened, and shows the same; tells whether it was stopped.
fn restart_is_survived<R: Threads + Wait + Sync + Abort>(
    rt: &R,
    alloc: Global,
    image: &MemoryStore,
    list: &str,
    stop: u64,
) -> Result<bool, AllocError> {
    let mut store = copied(alloc, image)?;
    store.stop_at(stop);
    let shown = run(rt, alloc, store, "DSP", "")?;
    if shown.status == 0 {
        return Ok(false);
    }
    assert_eq!(rt; shown.status, 7, "restart stopped at {stop}");
    assert_eq!(rt; shown.text(), "");
    for left in shown.store.stop_images(alloc)? {
        let again = run(rt, alloc, left, "DSP", "")?;
        assert_eq!(rt; again.status, 0, "restart stopped at {stop}");
        let same = list_of(alloc, again.text())?;
        assert_eq!(rt; same.as_str(), list, "restart stopped at {stop}");
    }
    Ok(true)
}

/// Each restart from an image of this stop is stopped at each of its store calls; tells whether the run was stopped.
fn restarts_are_survived<R: Threads + Wait + Sync + Abort>(
    rt: &R,
    alloc: Global,
    done: Run,
    stop: u64,
) -> Result<bool, AllocError> {
    let ran = stopped(rt, alloc, done, stop)?;
    let calls = acknowledged(ran.text());
    for image in ran.store.stop_images(alloc)? {
        let list = image_holds(rt, alloc, copied(alloc, &image)?, done, calls, stop)?;
        let mut ended = false;
        for again in 1..MOST_CALLS {
            if !restart_is_survived(rt, alloc, &image, list.as_str(), again)? {
                ended = true;
                break;
            }
        }
        assert!(rt; ended);
    }
    Ok(ran.status == 7)
}

/// Every eleventh stop of the run, and each stop of the restart from each of its images.
#[test]
fn restarts_survive_their_stops(rt: HostRuntime) -> Result<(), Fail> {
    let mut ended = false;
    for step in 0..MOST_CALLS / 11 {
        if !restarts_are_survived(
            &rt,
            rt.alloc(),
            TWO_JOBS,
            step.saturating_mul(11).saturating_add(1),
        )? {
            ended = true;
            break;
        }
    }
    assert!(&rt; ended);
    Ok(())
}
