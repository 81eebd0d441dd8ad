//! The listing of a run of two jobs, worked out by hand from the rules of the job language.
use crate::readings::{Reading, check_listing, read_bytes};
use std::test::Fail;

/// Two clerks at one record. J1 makes the file and reads the record for update, so that J2's CHAIN is refused until J1's
/// UPDATE; J2 deletes the record, and J1's last CHAIN, at line 11 of the input, finds none.
const RUN: &str = "HISTORY\n\
    1 J1 1700000000000000 CRTPF FILE(CUST) SRC(CUST) => OK\n\
    2 J1 1700000000000008 OPNDBF FILE(CUST) OPTION(*ALL) MBR(CUST) OPNID(CUST) COMMIT(*NO) ACCPTH(*FILE) => OK\n\
    3 J1 1700000000000009 WRITE OPNID(CUST) FMT(*FILE) RRN(*END) VAL('O''HARA' -12.50) => OK RRN(1)\n\
    4 J1 1700000000000010 CHAIN OPNID(CUST) RRN(1) LCK(*DFT) => OK FMT(CUSTR) RRN(1) VAL('O''HARA  ' -12.50)\n\
    5 J2 1700000000000010 OPNDBF FILE(CUST) OPTION(*INP) MBR(CUST) OPNID(IN) COMMIT(*NO) ACCPTH(*ARRIVAL) => OK\n\
    6 J2 1700000000000011 CHAIN OPNID(IN) RRN(1) LCK(*NO) => OK FMT(CUSTR) RRN(1) VAL('O''HARA  ' -12.50)\n\
    7 J2 1700000000000012 OPNDBF FILE(CUST) OPTION(*ALL) MBR(CUST) OPNID(UPD) COMMIT(*NO) ACCPTH(*FILE) => OK\n\
    8 J2 1700000000000013 CHAIN OPNID(UPD) RRN(1) LCK(*DFT) => RecordInUse JOB(J1) MBR(1) RRN(1)\n\
    9 J1 1700000000000014 UPDATE OPNID(CUST) VAL(X'00C1' 0.00) => OK\n\
    10 J2 1700000000000015 CHAIN OPNID(UPD) RRN(1) LCK(*DFT) => OK FMT(CUSTR) RRN(1) VAL(X'00C1404040404040' 0.00)\n\
    11 J2 1700000000000016 DELETE OPNID(UPD) => OK\n\
    12 J1 1700000000000017 CHAIN OPNID(CUST) RRN(1) LCK(*DFT) => NotFound\n\
    13 J1 1700000000000018 ENDJOB REASON(*ESCAPE) LINE(11) => OK\n\
    14 J2 1700000000000019 ENDJOB REASON(*NORMAL) LINE(0) => OK\n\
    END 14\n";

/// The job of each call, and when it was made.
const MADE: [(u32, u64); 14] = [
    (1, 1_700_000_000_000_000),
    (1, 1_700_000_000_000_008),
    (1, 1_700_000_000_000_009),
    (1, 1_700_000_000_000_010),
    (2, 1_700_000_000_000_010),
    (2, 1_700_000_000_000_011),
    (2, 1_700_000_000_000_012),
    (2, 1_700_000_000_000_013),
    (1, 1_700_000_000_000_014),
    (2, 1_700_000_000_000_015),
    (2, 1_700_000_000_000_016),
    (1, 1_700_000_000_000_017),
    (1, 1_700_000_000_000_018),
    (2, 1_700_000_000_000_019),
];

#[test]
fn no_calls_are_listed_again(rt: HostRuntime) -> Result<(), Fail> {
    check_listing(&rt, rt.alloc(), b"HISTORY\nEND 0\n", "no calls")
}

#[test]
fn two_jobs_are_listed_again(rt: HostRuntime) -> Result<(), Fail> {
    check_listing(&rt, rt.alloc(), RUN.as_bytes(), "two jobs")
}

#[test]
fn calls_of_two_jobs(rt: HostRuntime) -> Result<(), Fail> {
    let Reading::Calls(calls) = read_bytes(rt.alloc(), RUN.as_bytes())? else {
        return Err(Fail::from("not a listing"));
    };
    assert_eq!(rt; calls.len(), MADE.len());
    for (call, (job, timestamp)) in calls.iter().zip(MADE) {
        assert_eq!(rt; call.job, job, "at {timestamp}");
        assert_eq!(rt; call.timestamp, timestamp);
    }
    Ok(())
}
