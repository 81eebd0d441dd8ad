//! Lines of calls that no listing has. Each stands as line 3 of an otherwise good listing of two calls.
use crate::readings::check_fault;
use std::alloc::{AllocError, Global};
use std::process::Abort;
use std::test::Fail;

/// Second lines of calls.
type Lines = &'static [&'static str];

/// The number of the call, the job, the timestamp, and the blanks between.
const FRONTS: Lines = &[
    "",
    " ",
    "2",
    "2 J1",
    "2 J1 0",
    "1 J1 0 CHKPT => OK",
    "3 J1 0 CHKPT => OK",
    "02 J1 0 CHKPT => OK",
    "+2 J1 0 CHKPT => OK",
    "two J1 0 CHKPT => OK",
    "J1 0 CHKPT => OK",
    "2  0 CHKPT => OK",
    "2 0 CHKPT => OK",
    "2 J3 0 CHKPT => OK",
    "2 j1 0 CHKPT => OK",
    "2 1 0 CHKPT => OK",
    "2 J1 00 CHKPT => OK",
    "2 J1 -1 CHKPT => OK",
    "2 J1 1.0 CHKPT => OK",
    "2 J1 18446744073709551616 CHKPT => OK",
    "2 J1 CHKPT => OK",
    " 2 J1 0 CHKPT => OK",
    "2  J1 0 CHKPT => OK",
    "2\tJ1 0 CHKPT => OK",
    "2 J1 0  CHKPT => OK",
    "2 J1 0 CHKPT  => OK",
    "2 J1 0 CHKPT =>  OK",
    "2 J1 0 CHKPT => OK ",
    "2 J1 0 CHKPT => OK\r",
];

/// The arrow, the command and the parameters.
const REQUESTS: Lines = &[
    "2 J1 0 => OK",
    "2 J1 0 CHKPT",
    "2 J1 0 CHKPT OK",
    "2 J1 0 CHKPT = > OK",
    "2 J1 0 CHKPT =>",
    "2 J1 0 CHKPT=> OK",
    "2 J1 0 CRTSRCPF FILE(CUST) => OK",
    "2 J1 0 chkpt => OK",
    "2 J1 0 CHKPT FILE(CUST) => OK",
    "2 J1 0 READ OPNID(IN) => OK",
    "2 J1 0 READ LCK(*NO) OPNID(IN) => OK",
    "2 J1 0 READ OPNID(IN) OPNID(IN) LCK(*NO) => OK",
    "2 J1 0 READ OPNID(IN) LCK(*NO) TO(&A) => OK",
    "2 J1 0 READ OPNID(IN) LCK(*YES) => OK",
    "2 J1 0 READ OPNID (IN) LCK(*NO) => OK",
    "2 J1 0 READ opnid(IN) LCK(*NO) => OK",
    "2 J1 0 READ OPNID( IN) LCK(*NO) => OK",
    "2 J1 0 READ OPNID(IN)LCK(*NO) => OK",
    "2 J1 0 READ OPNID(IN) LCK(*NO => OK",
    "2 J1 0 DLTF FILE() => OK",
    "2 J1 0 DLTF FILE(cust) => OK",
    "2 J1 0 DLTF FILE(2CUST) => OK",
    "2 J1 0 DLTF FILE(ABCDEFGHIJK) => OK",
    "2 J1 0 OPNDBF FILE(CUST) OPTION(*ALL) => OK",
    "2 J1 0 OPNDBF FILE(CUST) OPTION(*OUT) MBR(CUST) OPNID(CUST) COMMIT(*NO) ACCPTH(*FILE) => OK",
    "2 J1 0 APYJRNCHG FILE(CUST) MBR(JAN) FROMENT(*END) TOENT(7) => OK",
    "2 J1 0 SETLL OPNID(IN) => OK",
    "2 J1 0 SETLL OPNID(IN) RRN(*LOVAL) => OK",
    "2 J1 0 SETLL OPNID(IN) KEY('A') RRN(1) => OK",
    "2 J1 0 CHAIN OPNID(IN) KEY(*LOVAL) LCK(*NO) => OK",
    "2 J1 0 UPDATE OPNID(IN) VAL('A', 'B') => OK",
    "2 J1 0 UPDATE OPNID(IN) VAL('A'  'B') => OK",
    "2 J1 0 UPDATE OPNID(IN) VAL( 'A') => OK",
    "2 J1 0 UPDATE OPNID(IN) VAL(&A) => OK",
];

/// Numbers, of parameters and as values.
const NUMBERS: Lines = &[
    "2 J1 0 DLTJRNRCV RCV() => OK",
    "2 J1 0 DLTJRNRCV RCV(+4) => OK",
    "2 J1 0 DLTJRNRCV RCV(-4) => OK",
    "2 J1 0 DLTJRNRCV RCV(04) => OK",
    "2 J1 0 DLTJRNRCV RCV(4.) => OK",
    "2 J1 0 DLTJRNRCV RCV(4 ) => OK",
    "2 J1 0 DLTJRNRCV RCV(4294967296) => OK",
    "2 J1 0 DSPJRN FROMENT(1) TOENT(18446744073709551616) => OK",
    "2 J1 0 UPDATE OPNID(IN) VAL(+1) => OK",
    "2 J1 0 UPDATE OPNID(IN) VAL(-0) => OK",
    "2 J1 0 UPDATE OPNID(IN) VAL(-0.00) => OK",
    "2 J1 0 UPDATE OPNID(IN) VAL(01) => OK",
    "2 J1 0 UPDATE OPNID(IN) VAL(-01.5) => OK",
    "2 J1 0 UPDATE OPNID(IN) VAL(.5) => OK",
    "2 J1 0 UPDATE OPNID(IN) VAL(5.) => OK",
    "2 J1 0 UPDATE OPNID(IN) VAL(1.2.3) => OK",
    "2 J1 0 UPDATE OPNID(IN) VAL(1,5) => OK",
    "2 J1 0 UPDATE OPNID(IN) VAL(--1) => OK",
    "2 J1 0 UPDATE OPNID(IN) VAL(-) => OK",
    "2 J1 0 UPDATE OPNID(IN) VAL(10000000000000000000000000000000) => OK",
];

/// Texts in apostrophes and in hexadecimal.
const TEXTS: Lines = &[
    "2 J1 0 UPDATE OPNID(IN) VAL('AB) => OK",
    "2 J1 0 UPDATE OPNID(IN) VAL(AB') => OK",
    "2 J1 0 UPDATE OPNID(IN) VAL('O'H') => OK",
    "2 J1 0 UPDATE OPNID(IN) VAL(''') => OK",
    "2 J1 0 UPDATE OPNID(IN) VAL('A'B) => OK",
    "2 J1 0 UPDATE OPNID(IN) VAL('A''B' 'C) => OK",
    "2 J1 0 UPDATE OPNID(IN) VAL('\t') => OK",
    "2 J1 0 UPDATE OPNID(IN) VAL('\u{e4}') => OK",
    "2 J1 0 UPDATE OPNID(IN) VAL(X'0') => OK",
    "2 J1 0 UPDATE OPNID(IN) VAL(X'00) => OK",
    "2 J1 0 UPDATE OPNID(IN) VAL(X'0G') => OK",
    "2 J1 0 UPDATE OPNID(IN) VAL(X'0a') => OK",
    "2 J1 0 UPDATE OPNID(IN) VAL(x'00') => OK",
    "2 J1 0 UPDATE OPNID(IN) VAL(X'00 01') => OK",
    "2 J1 0 UPDATE OPNID(IN) VAL(X'') => OK",
    "2 J1 0 UPDATE OPNID(IN) VAL(X'C1C2') => OK",
];

/// Replies, and what they carry.
const REPLIES: Lines = &[
    "2 J1 0 CHKPT => ok",
    "2 J1 0 CHKPT => Refused",
    "2 J1 0 CHKPT => OK OK",
    "2 J1 0 CHKPT => OK => OK",
    "2 J1 0 CHKPT => OK RRN",
    "2 J1 0 CHKPT => OK RRN(01)",
    "2 J1 0 CHKPT => OK RRN(1) RRN(1)",
    "2 J1 0 CHKPT => OK RRN(1) FMT(CUSTR) VAL('A')",
    "2 J1 0 CHKPT => OK FMT(CUSTR) RRN(1)",
    "2 J1 0 CHKPT => OK FMT(CUSTR) RRN(1) VAL(*N)",
    "2 J1 0 CHKPT => OK ENT(3) CHG(2)",
    "2 J1 0 CHKPT => OK ENT(3 12 13) CHG(2)",
    "2 J1 0 CHKPT => OK CHG(2) ENT(3 12)",
    "2 J1 0 CHKPT => NotFound RRN(1)",
    "2 J1 0 CHKPT => RecordInUse",
    "2 J1 0 CHKPT => RecordInUse JOB(J3) MBR(5) RRN(6)",
    "2 J1 0 CHKPT => RecordInUse JOB() MBR(5) RRN(6)",
    "2 J1 0 CHKPT => RecordInUse JOB(J2) RRN(6) MBR(5)",
    "2 J1 0 CHKPT => NoSuchName NAME()",
    "2 J1 0 CHKPT => NoSuchName NAME(012)",
    "2 J1 0 CHKPT => NoSuchName NAME(4294967296)",
    "2 J1 0 CHKPT => NameExists NAME(12)",
    "2 J1 0 CHKPT => BadValue FLD(2) CAUSE(Count)",
    "2 J1 0 CHKPT => BadValue FLD(65536) CAUSE(TooWide)",
    "2 J1 0 CHKPT => BadValue FLD(1) CAUSE(BadColumn)",
    "2 J1 0 CHKPT => DdsFault LINE(1) COL(45) CAUSE(TooWide)",
    "2 J1 0 CHKPT => DdsFault COL(45) LINE(1) CAUSE(BadColumn)",
    "2 J1 0 CHKPT => LimitReached LIMIT(Jobs) NBR(64)",
    "2 J1 0 CHKPT => LimitReached NBR(64) LIMIT(Files)",
];

/// Entries of the journal, and what no journal holds.
const ENTRIES: Lines = &[
    "2 J1 0 CHKPT => OK /",
    "2 J1 0 CHKPT => OK ENT 8 F CR JOB(J1) AT(70) GRP(0) MBR(1) RRN(0)",
    "2 J1 0 CHKPT => OK / ENT 8 R CR JOB(J1) AT(70) GRP(0) MBR(1) RRN(0)",
    "2 J1 0 CHKPT => OK / ENT 8 F ZZ JOB(J1) AT(70) GRP(0) MBR(1) RRN(0)",
    "2 J1 0 CHKPT => OK / ENT 08 F CR JOB(J1) AT(70) GRP(0) MBR(1) RRN(0)",
    "2 J1 0 CHKPT => OK / ENT 8 F CR AT(70) JOB(J1) GRP(0) MBR(1) RRN(0)",
    "2 J1 0 CHKPT => OK / ENT 8 F CR JOB(J1) AT(70) GRP(0) MBR(1)",
    "2 J1 0 CHKPT => OK / ENT 8 F CR JOB(J1) AT(70) GRP(0) MBR(1) RRN(0) IMG(0)",
    "2 J1 0 CHKPT => OK / ENT 8 F CR JOB(J1) AT(70) GRP(0) MBR(0) RRN(0)",
    "2 J1 0 CHKPT => OK / ENT 8 F CR JOB(J1) AT(70) GRP(0) MBR(1) RRN(1)",
    "2 J1 0 CHKPT => OK / ENT 8 F CR JOB(J1) AT(70) GRP(8) MBR(1) RRN(0)",
    "2 J1 0 CHKPT => OK / ENT 8 F CR JOB(J1) AT(70) GRP(0) MBR(1) RRN(0) /",
    "2 J1 0 CHKPT => OK / ENT 1 D CT JOB(J1) AT(70) GRP(0) MBR(0) RRN(0) KIND(*PHY) NAME(CUST) LEN(10)",
    "2 J1 0 CHKPT => OK / ENT 1 D CT JOB(J1) AT(70) GRP(0) MBR(1) RRN(0) KIND(*LGL) NAME(CUST) LEN(10)",
    "2 J1 0 CHKPT => OK / ENT 1 D CT JOB(J1) AT(70) GRP(0) MBR(1) RRN(0) KIND(*PHY) NAME(CUST)",
    "2 J1 0 CHKPT => OK / ENT 9 C SC JOB(J1) AT(70) GRP(8) MBR(0) RRN(0)",
    "2 J1 0 CHKPT => OK / ENT 9 C CM JOB(J1) AT(70) GRP(0) MBR(0) RRN(0)",
    "2 J1 0 CHKPT => OK / ENT 5 R PT JOB(J1) AT(70) GRP(0) MBR(1) RRN(0) IMG(1 'AB')",
    "2 J1 0 CHKPT => OK / ENT 5 R PT JOB(J1) AT(70) GRP(0) MBR(1) RRN(3) IMG(1 '')",
    "2 J1 0 CHKPT => OK / ENT 5 R PT JOB(J1) AT(70) GRP(0) MBR(1) RRN(3) IMG(2 'AB')",
    "2 J1 0 CHKPT => OK / ENT 5 R PT JOB(J1) AT(70) GRP(0) MBR(1) RRN(3) IMG('AB')",
    "2 J1 0 CHKPT => OK / ENT 5 R PT JOB(J1) AT(70) GRP(0) MBR(1) RRN(3) IMG(0)",
    "2 J1 0 CHKPT => OK / ENT 6 R UP JOB(J1) AT(70) GRP(0) MBR(1) RRN(3) IMG(3 'AB')",
    "2 J1 0 CHKPT => OK / ENT 7 R DL JOB(J1) AT(70) GRP(0) MBR(1) RRN(3) IMG(1)",
];

/// A listing of two calls, of which the second is this line.
fn listing_with(alloc: Global, line: &str) -> Result<Vec<u8>, AllocError> {
    let mut text = Vec::from_slice(alloc, b"HISTORY\n1 J1 0 CHKPT => OK\n")?;
    text.extend_from_slice(line.as_bytes())?;
    text.extend_from_slice(b"\nEND 2\n")?;
    Ok(text)
}

fn check_lines(rt: &impl Abort, alloc: Global, lines: Lines) -> Result<(), Fail> {
    for &line in lines {
        let text = listing_with(alloc, line)?;
        check_fault(rt, alloc, &text, 3, line)?;
    }
    Ok(())
}

#[test]
fn fronts(rt: HostRuntime) -> Result<(), Fail> {
    check_lines(&rt, rt.alloc(), FRONTS)
}

#[test]
fn requests(rt: HostRuntime) -> Result<(), Fail> {
    check_lines(&rt, rt.alloc(), REQUESTS)
}

#[test]
fn values(rt: HostRuntime) -> Result<(), Fail> {
    check_lines(&rt, rt.alloc(), NUMBERS)?;
    check_lines(&rt, rt.alloc(), TEXTS)
}

#[test]
fn replies(rt: HostRuntime) -> Result<(), Fail> {
    check_lines(&rt, rt.alloc(), REPLIES)?;
    check_lines(&rt, rt.alloc(), ENTRIES)
}
