//! Statements of each command, and what is none.
use field_types::names::Name;
use field_types::values::{Dec, Value};
use job_language::forms::RequestForm;
use job_language::operands::NumberOperand;
use library_model::requests::{AccessPath, OpenFile, OpenOption, Request};
use statement_reader::reading::{Said, read_statement};
use statement_reader::variables::Variables;
use statement_syntax::Phrase;
use std::alloc::{AllocError, Global};
use std::process::Abort;
use std::test::Fail;

/// Statements that are no requests: each command with the parameters that it needs, and with all in another order.
const CONTROL: [&[u8]; 28] = [
    b"DCL VAR(&N) VALUE('it''s (a) text')",
    b"DCL VALUE(-12.50) VAR(&N)",
    b"DCL VAR(&N) VALUE(X'c1C2')",
    b"DCL VAR(&N) VALUE(X'')",
    b"DCL VAR(&N) VALUE('')",
    b"DCL VAR(&N) VALUE(1234567890123456789012345678901)",
    b"DCL VAR(&N) VALUE(0.234567890123456789012345678901)",
    b"CHGVAR VAR(&A) VALUE(1)",
    b"CHGVAR VALUE(&A + &B) VAR(&B)",
    b"CHGVAR VAR(&A) VALUE(&A - -1)",
    b"CHGVAR VAR(&A) VALUE( 3 * &A )",
    b"IF COND(&A *EQ 1) THEN(GOTO CMDLBL(DONE))",
    b"IF THEN(GOTO CMDLBL(DONE)) COND(&A *NE 'X Y')",
    b"IF COND(&A *LT 1) THEN(DO)",
    b"IF COND(1 *LE &A) THEN( DO )",
    b"ELSE CMD(DO)",
    b"DOWHILE COND(&A *GT &B)",
    b"DOWHILE COND(&A *GE 0)",
    b"ENDDO",
    b"GOTO CMDLBL(DONE)",
    b"MONMSG MSGID(*ANY)",
    b"MONMSG MSGID(EndOfFile NotFound)",
    b"MONMSG EXEC(GOTO CMDLBL(DONE)) MSGID(RecordInUse)",
    b"RETURN",
    b"DONE: RETURN",
    b"DONE:RETURN",
    b"  DONE:   RETURN  ",
    b"\tRETURN\t",
];

/// Requests on files and on the journal.
const FILES: [&[u8]; 26] = [
    b"CRTPF FILE(CUST) SRC(CUST)",
    b"CRTPF SRC(S) FILE(F)",
    b"CRTLF FILE(F) SRC(S)",
    b"CRTLF SRC(S) FILE(F)",
    b"DLTF FILE(F)",
    b"ADDPFM FILE(F)",
    b"ADDPFM MBR(M) FILE(F)",
    b"CLRPFM FILE(F)",
    b"CLRPFM MBR(M) FILE(F)",
    b"RGZPFM FILE(F)",
    b"RGZPFM MBR(M) FILE(F)",
    b"STRJRNPF FILE(F)",
    b"STRJRNPF IMAGES(*BOTH) MBR(M) FILE(F)",
    b"STRJRNPF FILE(F) IMAGES(*AFTER)",
    b"ENDJRNPF FILE(F)",
    b"ENDJRNPF MBR(M) FILE(F)",
    b"CHGJRN",
    b"DLTJRNRCV RCV(4294967295)",
    b"DLTJRNRCV RCV(&A)",
    b"CHKPT",
    b"DSPJRN FROMENT(1) TOENT(18446744073709551615)",
    b"DSPJRN TOENT(&B) FROMENT(&A)",
    b"APYJRNCHG FILE(F)",
    b"APYJRNCHG TOENT(9) FROMENT(&A) MBR(M) FILE(F)",
    b"RMVJRNCHG FILE(F)",
    b"RMVJRNCHG TOENT(*FIRST) FROMENT(*LAST) MBR(M) FILE(F)",
];

/// Requests on commitment control, opens and records.
const RECORDS: [&[u8]; 30] = [
    b"STRCMTCTL LCKLVL(*CHG)",
    b"STRCMTCTL LCKLVL(*CS)",
    b"STRCMTCTL LCKLVL(*ALL)",
    b"ENDCMTCTL",
    b"COMMIT",
    b"ROLLBACK",
    b"OPNDBF FILE(F)",
    b"OPNDBF ACCPTH(*ARRIVAL) COMMIT(*YES) OPNID(O) MBR(M) OPTION(*ALL) FILE(F)",
    b"OPNDBF FILE(F) OPTION(*INP) COMMIT(*NO) ACCPTH(*FILE)",
    b"CLOF OPNID(O)",
    b"SETLL OPNID(O) KEY('A' 2 &B)",
    b"SETLL KEY(*LOVAL) OPNID(O)",
    b"SETGT OPNID(O) KEY(*HIVAL)",
    b"SETGT RRN(0) OPNID(O)",
    b"READ OPNID(O)",
    b"READ TO(&A &B) LCK(*NO) OPNID(O)",
    b"READP OPNID(O)",
    b"READP TO(&A) LCK(*DFT) OPNID(O)",
    b"READE OPNID(O) KEY('A')",
    b"READE TO(&A) LCK(*NO) KEY(1) OPNID(O)",
    b"READPE OPNID(O) KEY('A')",
    b"READPE TO(&A) LCK(*NO) KEY(1) OPNID(O)",
    b"CHAIN OPNID(O) RRN(1.0)",
    b"CHAIN TO(&A) LCK(*NO) KEY('A' 'B') OPNID(O)",
    b"WRITE OPNID(O) VAL('ABC')",
    b"WRITE VAL(*N 1 &A 'x' X'00') RRN(&B) FMT(R) OPNID(O)",
    b"WRITE OPNID(O) FMT(*FILE) RRN(*END) VAL(*N)",
    b"UPDATE VAL(1 2) OPNID(O)",
    b"DELETE OPNID(O)",
    b"UNLOCK OPNID(O)",
];

/// Texts whose words are no statement.
const BAD_WORDS: [&[u8]; 27] = [
    b"",
    b"   ",
    b"ENDJOB",
    b"crtpf FILE(F) SRC(S)",
    b"CRTPF",
    b"CRTPF FILE(F)",
    b"CRTPF FILE(F) SRC(S) FILE(F)",
    b"CRTPF FILE(F) SRC(S) MBR(M)",
    b"CRTPF FILE(F) SRC(S) more",
    b"CRTPF FILE(F)SRC(S)",
    b"CRTPF FILE (F) SRC(S)",
    b"CRTPF file(F) SRC(S)",
    b"CRTPF FILE(f) SRC(S)",
    b"CRTPF FILE() SRC(S)",
    b"CRTPF FILE(A B) SRC(S)",
    b"CRTPF FILE(ABCDEFGHIJK) SRC(S)",
    b"CRTPF FILE('F') SRC(S)",
    b"CRTPF FILE(F SRC(S)",
    b"CRTPF FILE(F)) SRC(S)",
    b"DLTF FILE(F",
    b"DLTF FILE((F))",
    b"RETURN FILE(F)",
    b": RETURN",
    b"done: RETURN",
    b"DONE : RETURN",
    b"A: B: RETURN",
    b"DONE:",
];

/// Statements with values that are none.
const BAD_VALUES: [&[u8]; 43] = [
    b"DCL VAR(N) VALUE(1)",
    b"DCL VAR(&N) VALUE(&A)",
    b"DCL VAR(&N) VALUE('a)",
    b"DCL VAR(&N) VALUE('a'b')",
    b"DCL VAR(&N) VALUE(X'C')",
    b"DCL VAR(&N) VALUE(x'C1')",
    b"DCL VAR(&N) VALUE(12345678901234567890123456789012)",
    b"DCL VAR(&N) VALUE(0.2345678901234567890123456789012)",
    b"DCL VAR(&N) VALUE(1.)",
    b"DCL VAR(&N) VALUE(.5)",
    b"DCL VAR(&N) VALUE(- 1)",
    b"DCL VAR(&N) VALUE(+1)",
    b"DCL VAR(&N) VALUE('\xC4')",
    b"CHGVAR VAR(&C) VALUE(1)",
    b"CHGVAR VAR(&A) VALUE(&C)",
    b"CHGVAR VAR(&A) VALUE(&A+1)",
    b"CHGVAR VAR(&A) VALUE(1 + 2 + 3)",
    b"CHGVAR VAR(&A) VALUE(1 / 2)",
    b"IF COND(&A *XX 1) THEN(DO)",
    b"IF COND(&A *EQ) THEN(DO)",
    b"IF COND(&A *EQ 1) THEN(RETURN)",
    b"IF COND(&A *EQ 1)",
    b"ELSE CMD(GOTO CMDLBL(L))",
    b"GOTO CMDLBL(*N)",
    b"MONMSG MSGID()",
    b"MONMSG MSGID(Added)",
    b"MONMSG MSGID(*ANY NotFound)",
    b"MONMSG MSGID(*ANY) EXEC(DO)",
    b"OPNDBF FILE(F) OPTION(*OUT)",
    b"CHAIN OPNID(O)",
    b"CHAIN OPNID(O) RRN(1) KEY(1)",
    b"CHAIN OPNID(O) RRN(4294967296)",
    b"CHAIN OPNID(O) RRN(-1)",
    b"CHAIN OPNID(O) RRN(1.5)",
    b"CHAIN OPNID(O) RRN('1')",
    b"CHAIN OPNID(O) KEY()",
    b"CHAIN OPNID(O) KEY(*LOVAL)",
    b"SETLL OPNID(O) KEY(*LOVAL 1)",
    b"DSPJRN FROMENT(1) TOENT(18446744073709551616)",
    b"DSPJRN FROMENT(*FIRST) TOENT(1)",
    b"WRITE OPNID(O) VAL()",
    b"WRITE OPNID(O) VAL('A' &C)",
    b"READ OPNID(O) TO(1)",
];

fn declared(alloc: Global, names: &[&[u8]]) -> Result<Variables, Fail> {
    let mut variables = Variables::new(alloc);
    for name in names {
        if let Some(name) = Name::from_bytes(name) {
            if variables.number(&name).is_none() {
                variables.push(name)?;
            }
        }
    }
    Ok(variables)
}

fn are_read(rt: &impl Abort, alloc: Global, texts: &[&[u8]], wanted: bool) -> Result<(), Fail> {
    let variables = declared(alloc, &[b"A", b"B"])?;
    for (row, text) in texts.iter().enumerate() {
        let read = is_read(alloc, &variables, text)?;
        assert_eq!(rt; read, wanted, "{row}");
    }
    Ok(())
}

fn is_read(alloc: Global, variables: &Variables, text: &[u8]) -> Result<bool, Fail> {
    Ok(read_statement(alloc, variables, text)?.is_some())
}

fn read(alloc: Global, text: &[u8]) -> Result<Said, Fail> {
    let variables = declared(alloc, &[b"A", b"B"])?;
    let said = read_statement(alloc, &variables, text)?;
    Ok(said.ok_or("no statement")?)
}

fn opened(said: &Said) -> Option<OpenFile> {
    match &said.phrase {
        Phrase::Request {
            form: RequestForm::Fixed(Request::OpenFile(open)),
            ..
        } => Some(*open),
        _ => None,
    }
}

fn record_number(said: &Said) -> Option<NumberOperand> {
    match &said.phrase {
        Phrase::Request {
            form: RequestForm::Write(write),
            ..
        } => write.record_number,
        _ => None,
    }
}

fn number(said: &Said) -> Option<Dec> {
    match &said.phrase {
        Phrase::Declare {
            value: Value::Number(number),
            ..
        } => Some(*number),
        _ => None,
    }
}

fn text(said: &Said) -> &[u8] {
    match &said.phrase {
        Phrase::Declare {
            value: Value::Chars(text),
            ..
        } => text.as_bytes(),
        _ => b"",
    }
}

fn open_read(alloc: Global, text: &[u8]) -> Result<OpenFile, Fail> {
    let said = read(alloc, text)?;
    Ok(opened(&said).ok_or("no open")?)
}

fn number_read(alloc: Global, text: &[u8]) -> Result<Dec, Fail> {
    let said = read(alloc, text)?;
    Ok(number(&said).ok_or("no number")?)
}

fn reads_text(alloc: Global, statement: &[u8], wanted: &[u8]) -> Result<bool, Fail> {
    let said = read(alloc, statement)?;
    Ok(text(&said) == wanted)
}

fn record_number_read(alloc: Global, text: &[u8]) -> Result<NumberOperand, Fail> {
    let said = read(alloc, text)?;
    Ok(record_number(&said).ok_or("no number")?)
}

fn label_length(alloc: Global, text: &[u8]) -> Result<usize, Fail> {
    let said = read(alloc, text)?;
    Ok(said.label.map_or(0, |label| label.as_bytes().len()))
}

#[test]
fn statements(rt: HostRuntime) -> Result<(), Fail> {
    are_read(&rt, rt.alloc(), &CONTROL, true)?;
    are_read(&rt, rt.alloc(), &FILES, true)
}

#[test]
fn requests(rt: HostRuntime) -> Result<(), Fail> {
    are_read(&rt, rt.alloc(), &RECORDS, true)
}

#[test]
fn faults(rt: HostRuntime) -> Result<(), Fail> {
    are_read(&rt, rt.alloc(), &BAD_WORDS, false)?;
    are_read(&rt, rt.alloc(), &BAD_VALUES, false)
}

#[test]
fn defaults_of_open(rt: HostRuntime) -> Result<(), Fail> {
    let open = open_read(rt.alloc(), b"OPNDBF FILE(F)")?;
    assert!(rt; open.member == open.file && open.open_id == open.file);
    assert!(rt; open.option == OpenOption::Input);
    assert!(rt; open.access_path == AccessPath::File && !open.commit);
    Ok(())
}

#[test]
fn parameters_of_open(rt: HostRuntime) -> Result<(), Fail> {
    let open = open_read(
        rt.alloc(),
        b"OPNDBF ACCPTH(*ARRIVAL) COMMIT(*YES) OPNID(OP) MBR(MEM) OPTION(*ALL) FILE(F)",
    )?;
    assert_eq!(rt; open.member.as_bytes(), b"MEM".as_slice());
    assert_eq!(rt; open.open_id.as_bytes(), b"OP".as_slice());
    assert!(rt; open.option == OpenOption::All);
    assert!(rt; open.access_path == AccessPath::Arrival && open.commit);
    assert_eq!(rt; label_length(rt.alloc(), b"OPEN: OPNDBF FILE(F)")?, 4);
    Ok(())
}

#[test]
fn values(rt: HostRuntime) -> Result<(), Fail> {
    let number = number_read(rt.alloc(), b"DCL VAR(&N) VALUE(-12.50)")?;
    assert!(rt; number.units == -1250 && number.scale == 2);
    assert!(rt;
        reads_text(
            rt.alloc(),
            b"DCL VAR(&N) VALUE('it''s')",
            b"\x89\xA3\x7D\xA2"
        )?
    );
    assert!(rt; reads_text(rt.alloc(), b"DCL VAR(&N) VALUE(X'c1C2')", b"\xC1\xC2")?);
    let variable = record_number_read(rt.alloc(), b"WRITE OPNID(O) RRN(&B) VAL(1)")?;
    assert!(rt; matches!(variable, NumberOperand::Variable(1)));
    let literal = record_number_read(rt.alloc(), b"WRITE OPNID(O) RRN(4294967295.0) VAL(1)")?;
    assert!(rt; matches!(literal, NumberOperand::Literal(4294967295)));
    Ok(())
}

/// Pieces that are no statement however often they stand one behind the other.
const HOSTILE: [&[u8]; 6] = [b"(", b"'", b"A", b" ", b"X'C1' ", b"CRTPF FILE(F) "];

fn repeated(alloc: Global, piece: &[u8]) -> Result<Vec<u8>, AllocError> {
    let mut text = Vec::new(alloc);
    for _ in 0..100_000u32 {
        text.extend_from_slice(piece)?;
    }
    Ok(text)
}

fn are_refused(rt: &impl Abort, alloc: Global, pieces: &[&[u8]]) -> Result<(), Fail> {
    let variables = Variables::new(alloc);
    for piece in pieces {
        let text = repeated(alloc, piece)?;
        assert!(rt; !is_read(alloc, &variables, text.as_slice())?);
    }
    Ok(())
}

#[test]
fn hostile(rt: HostRuntime) -> Result<(), Fail> {
    are_refused(&rt, rt.alloc(), &HOSTILE)
}
