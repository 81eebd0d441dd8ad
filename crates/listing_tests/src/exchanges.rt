//! Requests and replies, each on the only line of a listing.
use crate::readings::check_listing;
use std::alloc::{AllocError, Global};
use std::process::Abort;
use std::test::Fail;

/// Requests, each with its parameters in their order.
type Requests = &'static [&'static str];

/// Replies, each with what it carries in its order.
pub(crate) type Replies = &'static [&'static str];

const FILES: Requests = &[
    "CRTPF FILE(CUST) SRC(JAN)",
    "CRTLF FILE(CUST) SRC(JAN)",
    "DLTF FILE(CUST)",
    "ADDPFM FILE(CUST) MBR(JAN)",
    "CLRPFM FILE(CUST) MBR(JAN)",
    "RGZPFM FILE(CUST) MBR(JAN)",
    "STRJRNPF FILE(CUST) MBR(JAN) IMAGES(*AFTER)",
    "STRJRNPF FILE(CUST) MBR(JAN) IMAGES(*BOTH)",
    "ENDJRNPF FILE(CUST) MBR(JAN)",
    "OPNDBF FILE(CUST) OPTION(*INP) MBR(JAN) OPNID(IN) COMMIT(*YES) ACCPTH(*ARRIVAL)",
    "OPNDBF FILE(CUST) OPTION(*ALL) MBR(CUST) OPNID(CUST) COMMIT(*NO) ACCPTH(*FILE)",
    "CLOF OPNID(IN)",
];

const JOURNAL: Requests = &[
    "CHGJRN",
    "DLTJRNRCV RCV(4)",
    "CHKPT",
    "DSPJRN FROMENT(3) TOENT(12)",
    "APYJRNCHG FILE(CUST) MBR(JAN) FROMENT(*FIRST) TOENT(7)",
    "APYJRNCHG FILE(CUST) MBR(JAN) FROMENT(7) TOENT(*LAST)",
    "RMVJRNCHG FILE(CUST) MBR(JAN) FROMENT(*LAST) TOENT(*FIRST)",
    "STRCMTCTL LCKLVL(*CHG)",
    "STRCMTCTL LCKLVL(*CS)",
    "STRCMTCTL LCKLVL(*ALL)",
    "ENDCMTCTL",
    "COMMIT",
    "ROLLBACK",
    "ENDJOB REASON(*NORMAL) LINE(0)",
    "ENDJOB REASON(*ESCAPE) LINE(31)",
    "ENDJOB REASON(*EXPR) LINE(9)",
    "ENDJOB REASON(*STMT) LINE(0)",
    "ENDJOB REASON(*HISTORY) LINE(0)",
];

const RECORDS: Requests = &[
    "SETLL OPNID(IN) KEY('O''HARA' -1.50)",
    "SETLL OPNID(IN) KEY(*LOVAL)",
    "SETLL OPNID(IN) KEY(*HIVAL)",
    "SETGT OPNID(IN) RRN(5)",
    "READ OPNID(IN) LCK(*DFT)",
    "READP OPNID(IN) LCK(*NO)",
    "READE OPNID(IN) KEY('O''HARA' -1.50) LCK(*DFT)",
    "READPE OPNID(IN) KEY('O''HARA' -1.50) LCK(*NO)",
    "CHAIN OPNID(IN) KEY('O''HARA' -1.50) LCK(*DFT)",
    "CHAIN OPNID(IN) RRN(2) LCK(*NO)",
    "WRITE OPNID(IN) FMT(CUSTR) RRN(3) VAL(*N 0.01 X'00')",
    "UPDATE OPNID(IN) VAL(*N 0.01 X'00')",
    "DELETE OPNID(IN)",
    "UNLOCK OPNID(IN)",
];

/// Numbers as they are printed, texts, and the greatest numbers that parameters hold.
const VALUES: Requests = &[
    "UPDATE OPNID(IN) VAL(0 12 -7 0.01 -0.05 0.000 1.00 -1234.50 0.5)",
    "UPDATE OPNID(IN) VAL(9999999999999999999999999999999 -9999999999999999999999999999999)",
    "UPDATE OPNID(IN) VAL(0.0000000000000000000000000000001 1234567890123456.789012345678901)",
    "UPDATE OPNID(IN) VAL('' 'ABC  ' 'O''H' '''' X'C100FF' X'0ABC7D')",
    "UPDATE OPNID(IN) VAL(' => OK' ')' '(' ' / ' '*N' 'VAL(1)')",
    "UPDATE OPNID(IN) VAL(*N)",
    "UPDATE OPNID(IN) VAL()",
    "CHAIN OPNID(IN) RRN(4294967295) LCK(*NO)",
    "DSPJRN FROMENT(0) TOENT(18446744073709551615)",
    "DLTF FILE($#@_.A1234)",
];

const DONE: Replies = &[
    "OK",
    "OK FMT(CUSTR) RRN(4) VAL('A''B ' -1.50)",
    "OK RRN(9)",
    "OK ENT(3 12) CHG(2)",
    "OK RCV(2)",
    "OK SEQ(40)",
];

const RECORD_REFUSALS: Replies = &[
    "RecordInUse JOB(J2) MBR(5) RRN(6)",
    "HeldByGroup RRN(6)",
    "PlaceInUse RRN(6)",
    "HeldToBoundary",
    "NotFound",
    "EndOfFile",
    "BeginOfFile",
    "NoCurrentRecord",
    "WrongOpen",
    "NoDefinition",
    "AlreadyStarted",
    "NoSuchEntry",
    "MemberFull",
    "StoreFault",
    "NoMemory",
    "DuplicateKey FILE(CUST) RRN(1)",
    "BadValue FLD(0) CAUSE(Count)",
    "BadValue FLD(2) CAUSE(WrongKind)",
    "BadValue FLD(3) CAUSE(TooManyDecimals)",
    "BadValue FLD(4) CAUSE(TooWide)",
    "BadValue FLD(5) CAUSE(BadDate)",
    "BadValue FLD(6) CAUSE(ReadOnlyField)",
];

const OTHER_REFUSALS: Replies = &[
    "NoSuchName NAME(CUST)",
    "NoSuchName NAME(12)",
    "NameExists NAME(CUST)",
    "Dependents NAME(CUST)",
    "DdsFault LINE(1) COL(45) CAUSE(UnknownKeyword)",
    "InUse JOB(J1)",
    "NotJournaled MBR(3)",
    "PendingChanges GRP(8)",
    "Straddled GRP(8)",
    "DoesNotFit SEQ(8) RRN(2)",
    "NeedsBoth SEQ(8)",
    "Gap SEQ(8)",
    "NotRemovable SEQ(8)",
    "ReceiverGone SEQ(8)",
    "BlockChanged SEQ(8)",
    "StillNeeded SEQ(8)",
    "LimitReached LIMIT(LibraryBytes) NBR(268435456)",
];

/// What can be wrong with a source.
const SOURCE_FAULTS: Replies = &[
    "DdsFault LINE(1) COL(1) CAUSE(BadColumn)",
    "DdsFault LINE(2) COL(7) CAUSE(BadName)",
    "DdsFault LINE(3) COL(19) CAUSE(BadNumber)",
    "DdsFault LINE(4) COL(30) CAUSE(UnfinishedText)",
    "DdsFault LINE(5) COL(45) CAUSE(OutOfOrder)",
    "DdsFault LINE(6) COL(1) CAUSE(DuplicateName)",
    "DdsFault LINE(7) COL(7) CAUSE(BadLength)",
    "DdsFault LINE(8) COL(19) CAUSE(BadDecimals)",
    "DdsFault LINE(9) COL(30) CAUSE(BadType)",
    "DdsFault LINE(10) COL(45) CAUSE(UnknownKeyword)",
    "DdsFault LINE(11) COL(1) CAUSE(BadArguments)",
    "DdsFault LINE(12) COL(7) CAUSE(Conflict)",
    "DdsFault LINE(13) COL(19) CAUSE(NoFormat)",
    "DdsFault LINE(14) COL(30) CAUSE(NoSuchField)",
    "DdsFault LINE(15) COL(45) CAUSE(UnknownReference)",
    "DdsFault LINE(16) COL(1) CAUSE(TooLarge)",
    "DdsFault LINE(17) COL(7) CAUSE(NoBase)",
    "DdsFault LINE(18) COL(19) CAUSE(NoBaseField)",
    "DdsFault LINE(19) COL(30) CAUSE(KeyMismatch)",
    "DdsFault LINE(20) COL(45) CAUSE(JoinKeyNotPrimary)",
    "DdsFault LINE(21) COL(1) CAUSE(ReadOnlyMapping)",
    "DdsFault LINE(22) COL(7) CAUSE(Narrowing)",
    "DdsFault LINE(4294967295) COL(80) CAUSE(BadColumn)",
];

/// Which limits there are.
const LIMITS: Replies = &[
    "LimitReached LIMIT(Files) NBR(1000)",
    "LimitReached LIMIT(Members) NBR(32767)",
    "LimitReached LIMIT(MemberNumbers) NBR(4294967295)",
    "LimitReached LIMIT(Paths) NBR(200000)",
    "LimitReached LIMIT(Opens) NBR(8192)",
    "LimitReached LIMIT(Locks) NBR(100000)",
    "LimitReached LIMIT(LibraryBytes) NBR(268435456)",
    "LimitReached LIMIT(GroupChanges) NBR(100000)",
    "LimitReached LIMIT(GroupBytes) NBR(67108864)",
    "LimitReached LIMIT(BlockBytes) NBR(16777216)",
    "LimitReached LIMIT(DisplayEntries) NBR(100)",
    "LimitReached LIMIT(Receivers) NBR(32767)",
    "LimitReached LIMIT(Sequences) NBR(18446744073709551615)",
];

/// The listing of one call of job J1.
fn listing_of(alloc: Global, request: &str, reply: &str) -> Result<Vec<u8>, AllocError> {
    let mut text = Vec::from_slice(alloc, b"HISTORY\n1 J1 0 ")?;
    text.extend_from_slice(request.as_bytes())?;
    text.extend_from_slice(b" => ")?;
    text.extend_from_slice(reply.as_bytes())?;
    text.extend_from_slice(b"\nEND 1\n")?;
    Ok(text)
}

fn check_requests(rt: &impl Abort, alloc: Global, requests: Requests) -> Result<(), Fail> {
    for &request in requests {
        let text = listing_of(alloc, request, "OK")?;
        check_listing(rt, alloc, &text, request)?;
    }
    Ok(())
}

/// Replies to CHKPT; which request it is makes no difference.
pub(crate) fn check_replies(rt: &impl Abort, alloc: Global, replies: Replies) -> Result<(), Fail> {
    for &reply in replies {
        let text = listing_of(alloc, "CHKPT", reply)?;
        check_listing(rt, alloc, &text, reply)?;
    }
    Ok(())
}

#[test]
fn requests_on_files(rt: HostRuntime) -> Result<(), Fail> {
    check_requests(&rt, rt.alloc(), FILES)
}

#[test]
fn requests_on_the_journal(rt: HostRuntime) -> Result<(), Fail> {
    check_requests(&rt, rt.alloc(), JOURNAL)
}

#[test]
fn requests_on_records(rt: HostRuntime) -> Result<(), Fail> {
    check_requests(&rt, rt.alloc(), RECORDS)?;
    check_requests(&rt, rt.alloc(), VALUES)
}

#[test]
fn replies(rt: HostRuntime) -> Result<(), Fail> {
    check_replies(&rt, rt.alloc(), DONE)?;
    check_replies(&rt, rt.alloc(), RECORD_REFUSALS)?;
    check_replies(&rt, rt.alloc(), OTHER_REFUSALS)?;
    check_replies(&rt, rt.alloc(), SOURCE_FAULTS)?;
    check_replies(&rt, rt.alloc(), LIMITS)
}
