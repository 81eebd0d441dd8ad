//! Listings, requests, replies and values as the reference of the commands prints them, worked out by hand.
use commit_level::Level;
use dds_source::{DdsCause, DdsFault};
use ebc_text::to_ebcdic;
use entry_codec::Images;
use field_types::faults::{RecordFault, ValueFault};
use field_types::names::Name;
use field_types::texts::Text;
use field_types::values::{Dec, Value};
use library_model::calls::Call;
use library_model::replies::{LimitKind, Missing, RecordRead, Reply};
use library_model::requests::{
    AccessPath, ChainRecord, ChainTo, CreateLogicalFile, CreatePhysicalFile, DeleteFile,
    DeleteReceiver, DisplayJournal, EndJob, EndReason, FileMember, JournaledChanges, Limit,
    LockOption, OpenFile, OpenName, OpenOption, RangeEnd, ReadEqual, ReadRecord, Request,
    SetPosition, StartCommitment, StartJournaling, UpdateRecord, WriteRecord,
};
use library_model::value_lists::{GivenValues, Values};
use listing::history_listing::listing;
use listing::replies::push_reply;
use listing::requests::push_request;
use listing::texts::push_values;
use std::alloc::Global;
use std::process::Abort;
use std::test::Fail;

/// Units, decimals, and how the number is printed.
const NUMBERS: [(i128, u8, &str); 10] = [
    (0, 0, "0"),
    (12, 0, "12"),
    (-7, 0, "-7"),
    (1, 2, "0.01"),
    (-5, 2, "-0.05"),
    (0, 3, "0.000"),
    (100, 2, "1.00"),
    (-123450, 2, "-1234.50"),
    (5, 1, "0.5"),
    (i128::MIN, 0, "-170141183460469231731687303715884105728"),
];

/// Bytes in code page 037, and how the text is printed.
const TEXTS: [(&[u8], &str); 6] = [
    (b"", "''"),
    (b"\xC1\xC2\xC3\x40\x40", "'ABC  '"),
    (b"\xD6\x7D\xC8", "'O''H'"),
    (b"\x7D", "''''"),
    (b"\xC1\x00\xFF", "X'C100FF'"),
    (b"\x0A\xBC\x7D", "X'0ABC7D'"),
];

fn name(text: &str) -> Result<Name, Fail> {
    Ok(Name::from_bytes(text.as_bytes()).ok_or("not a name")?)
}

fn characters(alloc: Global, text: &str) -> Result<Value, Fail> {
    Ok(Value::Chars(Text::from_vec(to_ebcdic(alloc, text)?)))
}

fn number(units: i128, scale: u8) -> Value {
    Value::Number(Dec { units, scale })
}

fn pair(alloc: Global, first: Value, second: Value) -> Result<Values, Fail> {
    let mut values = Vec::new(alloc);
    values.push(first)?;
    values.push(second)?;
    Ok(Values::from_vec(values))
}

fn given(alloc: Global, value: Option<Value>) -> Result<GivenValues, Fail> {
    let mut values = GivenValues::new(alloc);
    values.push(value)?;
    Ok(values)
}

#[test]
fn values_as_printed(rt: HostRuntime) -> Result<(), Fail> {
    for (units, scale, wanted) in NUMBERS {
        let mut out = Vec::new(rt.alloc());
        push_values(&mut out, &[number(units, scale)])?;
        assert_eq!(rt; out.as_slice(), wanted.as_bytes(), "{wanted}");
    }
    for (bytes, wanted) in TEXTS {
        let mut out = Vec::new(rt.alloc());
        push_values(
            &mut out,
            &[Value::Chars(Text::from_slice(rt.alloc(), bytes)?)],
        )?;
        assert_eq!(rt; out.as_slice(), wanted.as_bytes(), "{wanted}");
    }
    Ok(())
}

/// A file is made, opened, written and read again, and the job ends.
#[test]
fn one_record_written_and_read(rt: HostRuntime) -> Result<(), Fail> {
    let alloc = rt.alloc();
    let cust = name("CUST")?;
    let mut calls = Vec::new(alloc);
    calls.push(Call {
        job: 1,
        timestamp: 0,
        request: Request::CreatePhysicalFile(CreatePhysicalFile {
            file: cust,
            source: cust,
        }),
        reply: Reply::Done,
    })?;
    calls.push(Call {
        job: 1,
        timestamp: 1,
        request: Request::OpenFile(OpenFile {
            file: cust,
            option: OpenOption::All,
            member: cust,
            open_id: cust,
            commit: false,
            access_path: AccessPath::File,
        }),
        reply: Reply::Done,
    })?;
    calls.push(Call {
        job: 1,
        timestamp: 2,
        request: Request::Write(WriteRecord {
            open_id: cust,
            format: None,
            record_number: None,
            values: given(alloc, Some(characters(alloc, "ABC")?))?,
        }),
        reply: Reply::Added { rrn: 1 },
    })?;
    let mut shown = Vec::new(alloc);
    shown.push(characters(alloc, "ABC  ")?)?;
    calls.push(Call {
        job: 1,
        timestamp: 3,
        request: Request::Chain(ChainRecord {
            open_id: cust,
            to: ChainTo::RecordNumber(1),
            lock: LockOption::No,
        }),
        reply: Reply::Record(RecordRead {
            format: name("CUSTR")?,
            rrn: 1,
            values: Values::from_vec(shown),
        }),
    })?;
    calls.push(Call {
        job: 1,
        timestamp: 4,
        request: Request::EndJob(EndJob {
            reason: EndReason::Normal,
            line: 0,
        }),
        reply: Reply::Done,
    })?;
    let text = listing(alloc, &[name("J1")?], calls.as_slice())?;
    let wanted = "HISTORY\n\
        1 J1 0 CRTPF FILE(CUST) SRC(CUST) => OK\n\
        2 J1 1 OPNDBF FILE(CUST) OPTION(*ALL) MBR(CUST) OPNID(CUST) COMMIT(*NO) ACCPTH(*FILE) => OK\n\
        3 J1 2 WRITE OPNID(CUST) FMT(*FILE) RRN(*END) VAL('ABC') => OK RRN(1)\n\
        4 J1 3 CHAIN OPNID(CUST) RRN(1) LCK(*NO) => OK FMT(CUSTR) RRN(1) VAL('ABC  ')\n\
        5 J1 4 ENDJOB REASON(*NORMAL) LINE(0) => OK\n\
        END 5\n";
    assert_eq!(rt; text.as_slice(), wanted.as_bytes());
    Ok(())
}

/// Each command with its parameters in order.
#[test]
fn commands_on_files(rt: HostRuntime) -> Result<(), Fail> {
    let (file, member, open_id) = (name("CUST")?, name("JAN")?, name("IN")?);
    let args = FileMember { file, member };
    let rows = [
        (
            Request::CreatePhysicalFile(CreatePhysicalFile {
                file,
                source: member,
            }),
            "CRTPF FILE(CUST) SRC(JAN)",
        ),
        (
            Request::CreateLogicalFile(CreateLogicalFile {
                file,
                source: member,
            }),
            "CRTLF FILE(CUST) SRC(JAN)",
        ),
        (Request::DeleteFile(DeleteFile { file }), "DLTF FILE(CUST)"),
        (Request::AddMember(args), "ADDPFM FILE(CUST) MBR(JAN)"),
        (Request::ClearMember(args), "CLRPFM FILE(CUST) MBR(JAN)"),
        (
            Request::ReorganizeMember(args),
            "RGZPFM FILE(CUST) MBR(JAN)",
        ),
        (
            Request::StartJournaling(StartJournaling {
                file,
                member,
                images: Images::After,
            }),
            "STRJRNPF FILE(CUST) MBR(JAN) IMAGES(*AFTER)",
        ),
        (
            Request::StartJournaling(StartJournaling {
                file,
                member,
                images: Images::Both,
            }),
            "STRJRNPF FILE(CUST) MBR(JAN) IMAGES(*BOTH)",
        ),
        (Request::EndJournaling(args), "ENDJRNPF FILE(CUST) MBR(JAN)"),
        (
            Request::OpenFile(OpenFile {
                file,
                option: OpenOption::Input,
                member,
                open_id,
                commit: true,
                access_path: AccessPath::Arrival,
            }),
            "OPNDBF FILE(CUST) OPTION(*INP) MBR(JAN) OPNID(IN) COMMIT(*YES) ACCPTH(*ARRIVAL)",
        ),
        (Request::CloseFile(OpenName { open_id }), "CLOF OPNID(IN)"),
    ];
    for (request, wanted) in &rows {
        let mut out = Vec::new(rt.alloc());
        push_request(&mut out, request)?;
        assert_eq!(rt; out.as_slice(), wanted.as_bytes(), "{wanted}");
    }
    Ok(())
}

#[test]
fn commands_on_journal_and_commitment(rt: HostRuntime) -> Result<(), Fail> {
    let (file, member) = (name("CUST")?, name("JAN")?);
    let forwards = JournaledChanges {
        file,
        member,
        from: RangeEnd::First,
        to: RangeEnd::Sequence(7),
    };
    let backwards = JournaledChanges {
        file,
        member,
        from: RangeEnd::Last,
        to: RangeEnd::First,
    };
    let rows = [
        (Request::ChangeJournal, "CHGJRN"),
        (
            Request::DeleteReceiver(DeleteReceiver { number: 4 }),
            "DLTJRNRCV RCV(4)",
        ),
        (Request::Checkpoint, "CHKPT"),
        (
            Request::DisplayJournal(DisplayJournal { from: 3, to: 12 }),
            "DSPJRN FROMENT(3) TOENT(12)",
        ),
        (
            Request::ApplyChanges(forwards),
            "APYJRNCHG FILE(CUST) MBR(JAN) FROMENT(*FIRST) TOENT(7)",
        ),
        (
            Request::RemoveChanges(backwards),
            "RMVJRNCHG FILE(CUST) MBR(JAN) FROMENT(*LAST) TOENT(*FIRST)",
        ),
        (
            Request::StartCommitment(StartCommitment { level: Level::Chg }),
            "STRCMTCTL LCKLVL(*CHG)",
        ),
        (
            Request::StartCommitment(StartCommitment { level: Level::Cs }),
            "STRCMTCTL LCKLVL(*CS)",
        ),
        (
            Request::StartCommitment(StartCommitment { level: Level::All }),
            "STRCMTCTL LCKLVL(*ALL)",
        ),
        (Request::EndCommitment, "ENDCMTCTL"),
        (Request::Commit, "COMMIT"),
        (Request::Rollback, "ROLLBACK"),
        (
            end_job(EndReason::Normal, 0),
            "ENDJOB REASON(*NORMAL) LINE(0)",
        ),
        (
            end_job(EndReason::Escape, 31),
            "ENDJOB REASON(*ESCAPE) LINE(31)",
        ),
        (
            end_job(EndReason::Expression, 9),
            "ENDJOB REASON(*EXPR) LINE(9)",
        ),
        (
            end_job(EndReason::Statements, 0),
            "ENDJOB REASON(*STMT) LINE(0)",
        ),
        (
            end_job(EndReason::History, 0),
            "ENDJOB REASON(*HISTORY) LINE(0)",
        ),
    ];
    for (request, wanted) in &rows {
        let mut out = Vec::new(rt.alloc());
        push_request(&mut out, request)?;
        assert_eq!(rt; out.as_slice(), wanted.as_bytes(), "{wanted}");
    }
    Ok(())
}

fn end_job(reason: EndReason, line: u32) -> Request {
    Request::EndJob(EndJob { reason, line })
}

#[test]
fn commands_on_records(rt: HostRuntime) -> Result<(), Fail> {
    let alloc = rt.alloc();
    let open_id = name("IN")?;
    let key = || pair(alloc, characters(alloc, "O'HARA")?, number(-150, 2));
    let free = ReadRecord {
        open_id,
        lock: LockOption::No,
    };
    let rows = [
        (
            limit(open_id, Limit::Key(key()?)),
            "SETLL OPNID(IN) KEY('O''HARA' -1.50)",
        ),
        (
            limit(open_id, Limit::LowValue),
            "SETLL OPNID(IN) KEY(*LOVAL)",
        ),
        (
            limit(open_id, Limit::HighValue),
            "SETLL OPNID(IN) KEY(*HIVAL)",
        ),
        (
            Request::SetGreaterThan(SetPosition {
                open_id,
                to: Limit::RecordNumber(5),
            }),
            "SETGT OPNID(IN) RRN(5)",
        ),
        (
            Request::Read(ReadRecord {
                open_id,
                lock: LockOption::Default,
            }),
            "READ OPNID(IN) LCK(*DFT)",
        ),
        (Request::ReadPrior(free), "READP OPNID(IN) LCK(*NO)"),
        (
            Request::ReadEqual(ReadEqual {
                open_id,
                key: key()?,
                lock: LockOption::Default,
            }),
            "READE OPNID(IN) KEY('O''HARA' -1.50) LCK(*DFT)",
        ),
        (
            Request::ReadPriorEqual(ReadEqual {
                open_id,
                key: key()?,
                lock: LockOption::No,
            }),
            "READPE OPNID(IN) KEY('O''HARA' -1.50) LCK(*NO)",
        ),
        (
            Request::Chain(ChainRecord {
                open_id,
                to: ChainTo::Key(key()?),
                lock: LockOption::Default,
            }),
            "CHAIN OPNID(IN) KEY('O''HARA' -1.50) LCK(*DFT)",
        ),
        (
            Request::Chain(ChainRecord {
                open_id,
                to: ChainTo::RecordNumber(2),
                lock: LockOption::No,
            }),
            "CHAIN OPNID(IN) RRN(2) LCK(*NO)",
        ),
        (
            Request::Write(WriteRecord {
                open_id,
                format: Some(name("CUSTR")?),
                record_number: Some(3),
                values: some_given(alloc)?,
            }),
            "WRITE OPNID(IN) FMT(CUSTR) RRN(3) VAL(*N 0.01 X'00')",
        ),
        (
            Request::Update(UpdateRecord {
                open_id,
                values: some_given(alloc)?,
            }),
            "UPDATE OPNID(IN) VAL(*N 0.01 X'00')",
        ),
        (Request::Delete(OpenName { open_id }), "DELETE OPNID(IN)"),
        (Request::Unlock(OpenName { open_id }), "UNLOCK OPNID(IN)"),
    ];
    for (request, wanted) in &rows {
        let mut out = Vec::new(rt.alloc());
        push_request(&mut out, request)?;
        assert_eq!(rt; out.as_slice(), wanted.as_bytes(), "{wanted}");
    }
    Ok(())
}

fn limit(open_id: Name, to: Limit) -> Request {
    Request::SetLowerLimit(SetPosition { open_id, to })
}

/// *N, 0.01, and a byte without a character.
fn some_given(alloc: Global) -> Result<GivenValues, Fail> {
    let mut values = GivenValues::new(alloc);
    values.push(None)?;
    values.push(Some(number(1, 2)))?;
    values.push(Some(Value::Chars(Text::from_slice(alloc, b"\x00")?)))?;
    Ok(values)
}

/// Each reply; job 2 is J2.
#[test]
fn replies_as_printed(rt: HostRuntime) -> Result<(), Fail> {
    let cust = name("CUST")?;
    let names = [name("J1")?, name("J2")?];
    let rows = [
        (Reply::Done, "OK"),
        (
            Reply::Record(RecordRead {
                format: name("CUSTR")?,
                rrn: 4,
                values: pair(rt.alloc(), characters(rt.alloc(), "A'B ")?, number(-150, 2))?,
            }),
            "OK FMT(CUSTR) RRN(4) VAL('A''B ' -1.50)",
        ),
        (Reply::Added { rrn: 9 }, "OK RRN(9)"),
        (
            Reply::Range {
                first: 3,
                last: 12,
                changes: 2,
            },
            "OK ENT(3 12) CHG(2)",
        ),
        (Reply::Receiver { number: 2 }, "OK RCV(2)"),
        (Reply::Sequence { number: 40 }, "OK SEQ(40)"),
        (
            Reply::RecordInUse {
                job: 2,
                member: 5,
                rrn: 6,
            },
            "RecordInUse JOB(J2) MBR(5) RRN(6)",
        ),
        (Reply::HeldByGroup { rrn: 6 }, "HeldByGroup RRN(6)"),
        (Reply::PlaceInUse { rrn: 6 }, "PlaceInUse RRN(6)"),
        (Reply::HeldToBoundary, "HeldToBoundary"),
        (Reply::NotFound, "NotFound"),
        (Reply::EndOfFile, "EndOfFile"),
        (Reply::BeginOfFile, "BeginOfFile"),
        (Reply::NoCurrentRecord, "NoCurrentRecord"),
        (Reply::WrongOpen, "WrongOpen"),
        (Reply::NoDefinition, "NoDefinition"),
        (Reply::AlreadyStarted, "AlreadyStarted"),
        (Reply::NoSuchEntry, "NoSuchEntry"),
        (Reply::MemberFull, "MemberFull"),
        (Reply::StoreFault, "StoreFault"),
        (Reply::NoMemory, "NoMemory"),
    ];
    shown(&rt, rt.alloc(), &names, &rows)?;
    let refusals = [
        (
            Reply::DuplicateKey { file: cust, rrn: 1 },
            "DuplicateKey FILE(CUST) RRN(1)",
        ),
        (
            Reply::NoSuchName(Missing::Name(cust)),
            "NoSuchName NAME(CUST)",
        ),
        (
            Reply::NoSuchName(Missing::Receiver(12)),
            "NoSuchName NAME(12)",
        ),
        (Reply::NameExists { name: cust }, "NameExists NAME(CUST)"),
        (Reply::Dependents { name: cust }, "Dependents NAME(CUST)"),
        (
            Reply::BadValue(RecordFault::Count),
            "BadValue FLD(0) CAUSE(Count)",
        ),
        (
            bad_value(2, ValueFault::WrongKind),
            "BadValue FLD(2) CAUSE(WrongKind)",
        ),
        (
            bad_value(3, ValueFault::TooManyDecimals),
            "BadValue FLD(3) CAUSE(TooManyDecimals)",
        ),
        (
            bad_value(4, ValueFault::TooWide),
            "BadValue FLD(4) CAUSE(TooWide)",
        ),
        (
            bad_value(5, ValueFault::BadDate),
            "BadValue FLD(5) CAUSE(BadDate)",
        ),
        (
            bad_value(6, ValueFault::ReadOnlyField),
            "BadValue FLD(6) CAUSE(ReadOnlyField)",
        ),
        (
            Reply::DdsFault(DdsFault {
                line: 1,
                column: 45,
                cause: DdsCause::UnknownKeyword,
            }),
            "DdsFault LINE(1) COL(45) CAUSE(UnknownKeyword)",
        ),
        (Reply::InUse { job: 1 }, "InUse JOB(J1)"),
        (Reply::NotJournaled { member: 3 }, "NotJournaled MBR(3)"),
        (Reply::PendingChanges { group: 8 }, "PendingChanges GRP(8)"),
        (Reply::Straddled { group: 8 }, "Straddled GRP(8)"),
        (
            Reply::DoesNotFit {
                sequence: 8,
                rrn: 2,
            },
            "DoesNotFit SEQ(8) RRN(2)",
        ),
        (Reply::NeedsBoth { sequence: 8 }, "NeedsBoth SEQ(8)"),
        (Reply::Gap { sequence: 8 }, "Gap SEQ(8)"),
        (Reply::NotRemovable { sequence: 8 }, "NotRemovable SEQ(8)"),
        (Reply::ReceiverGone { sequence: 8 }, "ReceiverGone SEQ(8)"),
        (Reply::BlockChanged { sequence: 8 }, "BlockChanged SEQ(8)"),
        (Reply::StillNeeded { sequence: 8 }, "StillNeeded SEQ(8)"),
        (
            Reply::LimitReached {
                which: LimitKind::LibraryBytes,
                number: 268435456,
            },
            "LimitReached LIMIT(LibraryBytes) NBR(268435456)",
        ),
    ];
    shown(&rt, rt.alloc(), &names, &refusals)
}

fn bad_value(field: u16, cause: ValueFault) -> Reply {
    Reply::BadValue(RecordFault::BadField { field, cause })
}

fn shown(
    rt: &impl Abort,
    alloc: Global,
    names: &[Name],
    rows: &[(Reply, &str)],
) -> Result<(), Fail> {
    for (reply, wanted) in rows {
        let mut out = Vec::new(alloc);
        push_reply(&mut out, names, reply)?;
        assert_eq!(rt; out.as_slice(), wanted.as_bytes(), "{wanted}");
    }
    Ok(())
}
