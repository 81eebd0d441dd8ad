//! Replies with entries of the journal: each kind with what the page of the format says that it names and holds.
use crate::exchanges::{Replies, check_replies};
use std::test::Fail;

/// Of files and members.
const FILES: Replies = &[
    "OK / ENT 1 D CT JOB(J1) AT(70) GRP(0) MBR(1) RRN(0) KIND(*PHY) NAME(CUST) LEN(10)",
    "OK / ENT 2 D CT JOB(J1) AT(70) GRP(0) MBR(0) RRN(0) KIND(*LGL) NAME(CUSTL) LEN(0)",
    "OK / ENT 3 D DT JOB(J1) AT(70) GRP(0) MBR(0) RRN(0) NAME(CUSTL)",
    "OK / ENT 4 D AM JOB(J1) AT(70) GRP(0) MBR(2) RRN(0) NAME(CUST) MBR(JAN)",
    "OK / ENT 5 F JM JOB(J1) AT(70) GRP(0) MBR(1) RRN(0) IMAGES(*BOTH) SLOTS(2)",
    "OK / ENT 5 F JM JOB(J1) AT(70) GRP(0) MBR(1) RRN(0) IMAGES(*AFTER) SLOTS(0)",
    "OK / ENT 6 F IS JOB(J1) AT(70) GRP(0) MBR(1) RRN(2) IMG(1 'AB')",
    "OK / ENT 7 F EJ JOB(J1) AT(70) GRP(0) MBR(1) RRN(0)",
    "OK / ENT 8 F CR JOB(J1) AT(70) GRP(0) MBR(1) RRN(0)",
    "OK / ENT 9 F RG JOB(J1) AT(70) GRP(0) MBR(1) RRN(0)",
    "OK / ENT 21 F AY JOB(J1) AT(70) GRP(0) MBR(1) RRN(0) ENT(9 20) CHG(4)",
    "OK / ENT 21 F RC JOB(J1) AT(70) GRP(0) MBR(1) RRN(0) ENT(9 20) CHG(4)",
];

/// Of records, within a commit cycle or outside.
const RECORDS: Replies = &[
    "OK / ENT 5 R PT JOB(J1) AT(70) GRP(9) MBR(1) RRN(3) IMG(1 'AB')",
    "OK / ENT 5 R PT JOB(J1) AT(70) GRP(0) MBR(1) RRN(3) IMG(1 'A / ENT 5')",
    "OK / ENT 5 R PX JOB(J1) AT(70) GRP(0) MBR(1) RRN(3) IMG(1 'O''H')",
    "OK / ENT 5 R UB JOB(J1) AT(70) GRP(9) MBR(1) RRN(3) IMG(1 'AB')",
    "OK / ENT 6 R UP JOB(J1) AT(70) GRP(9) MBR(1) RRN(3) IMG(2 X'00FF')",
    "OK / ENT 6 R UP JOB(J1) AT(70) GRP(9) MBR(1) RRN(3) IMG(1 X'00FF')",
    "OK / ENT 7 R DL JOB(J1) AT(70) GRP(9) MBR(1) RRN(3) IMG(0)",
    "OK / ENT 7 R DL JOB(J1) AT(70) GRP(9) MBR(1) RRN(3) IMG(1 'AB')",
    "OK / ENT 8 R BR JOB(J1) AT(70) GRP(9) MBR(1) RRN(3) IMG(1 'AB')",
    "OK / ENT 9 R UR JOB(J1) AT(70) GRP(9) MBR(1) RRN(3) IMG(2 'AB')",
    "OK / ENT 9 R UR JOB(J1) AT(70) GRP(9) MBR(1) RRN(3) IMG(1 'AB')",
    "OK / ENT 9 R DR JOB(J1) AT(70) GRP(9) MBR(1) RRN(3) IMG(1 'AB')",
];

/// Of commitment control and of the journal, and two entries in one reply.
const OTHERS: Replies = &[
    "OK / ENT 4 C BC JOB(J1) AT(70) GRP(0) MBR(0) RRN(0) LVL(*CS)",
    "OK / ENT 9 C SC JOB(J1) AT(70) GRP(9) MBR(0) RRN(0)",
    "OK / ENT 10 C CM JOB(J1) AT(70) GRP(9) MBR(0) RRN(0)",
    "OK / ENT 10 C RB JOB(J1) AT(70) GRP(9) MBR(0) RRN(0)",
    "OK / ENT 11 C EC JOB(J1) AT(70) GRP(0) MBR(0) RRN(0)",
    "OK / ENT 5 J IA JOB() AT(0) GRP(0) MBR(0) RRN(0)",
    "OK / ENT 18446744073709551615 J NR JOB(QSYS) AT(70) GRP(0) MBR(0) RRN(0) RCV(2)",
    "OK / ENT 5 J PR JOB() AT(18446744073709551615) GRP(0) MBR(0) RRN(0) RCV(1)",
    "OK / ENT 9 C SC JOB(J1) AT(70) GRP(9) MBR(0) RRN(0) / ENT 10 R DL JOB(J1) AT(70) GRP(9) MBR(1) RRN(3) IMG(0)",
];

#[test]
fn entries_of_files(rt: HostRuntime) -> Result<(), Fail> {
    check_replies(&rt, rt.alloc(), FILES)
}

#[test]
fn entries_of_records(rt: HostRuntime) -> Result<(), Fail> {
    check_replies(&rt, rt.alloc(), RECORDS)
}

#[test]
fn other_entries(rt: HostRuntime) -> Result<(), Fail> {
    check_replies(&rt, rt.alloc(), OTHERS)
}
