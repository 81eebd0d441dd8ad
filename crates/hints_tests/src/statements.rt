//! Mistakes in a statement, and the hint that each gets.
use crate::texts::{line_at_fault, whole_help};
use std::alloc::{AllocError, Global};
use std::process::Abort;
use std::test::Fail;

/// The only statement of a job, and the hint.
type Rows = &'static [(&'static str, &'static str)];

const COMMANDS: Rows = &[
    (
        "write OPNID(A) VAL('X')",
        "commands have capital letters: WRITE",
    ),
    ("Readp OPNID(A)", "commands have capital letters: READP"),
    (
        "crtlf FILE(A) SRC(A)",
        "commands have capital letters: CRTLF",
    ),
    ("CHKPT", "CHKPT isn't built yet"),
    (
        "ENDJOB",
        "ENDJOB is no statement: a job ends after its last one",
    ),
    ("CRTSRCPF FILE(S)", "no command is called CRTSRCPF"),
    (" //END", "a card begins in the first column"),
    (
        "     A            NAME           5A",
        "a line of a source stands after its card, //DDS and a name",
    ),
    (
        "DLTF(CUST)",
        "a statement begins with a command, and a blank after it",
    ),
    ("l1: RETURN", "the letters of a name are capital: l1"),
    ("L1:", "a label stands before a statement, on its line"),
];

const PARAMETERS: Rows = &[
    (
        "DLTF FILE (CUST)",
        "no blank stands between FILE and its parenthesis",
    ),
    ("DLTF FILE", "FILE has its value in parentheses"),
    (
        "DLTF CUST",
        "a parameter is written NAME(..), and this isn't: CUST",
    ),
    ("DLTF file(CUST)", "parameters have capital letters: FILE"),
    (
        "DLTF FILE(CUST) MBR(CUST)",
        "DLTF has no parameter MBR; it has FILE",
    ),
    (
        "RETURN FILE(CUST)",
        "RETURN has no parameter FILE; it has none",
    ),
    (
        "OPNDBF FILE(A) TYPE(*ALL)",
        "OPNDBF has no parameter TYPE; it has FILE OPTION MBR OPNID COMMIT ACCPTH",
    ),
    (
        "READE OPNID(A) KEY(1) INTO(&K)",
        "READE has no parameter INTO; it has OPNID KEY LCK TO",
    ),
    (
        "DLTF FILE(CUST)X",
        "nothing but a blank stands after the parenthesis of FILE",
    ),
    ("DLTF FILE(CUST) FILE(CUST)", "FILE stands twice"),
    ("CRTPF FILE(CUST)", "a parameter is missing: SRC(..)"),
    ("DLTF FILE()", "FILE has nothing in its parentheses"),
];

const VALUES: Rows = &[
    (
        "MONMSG MSGID(CPF5006)",
        "MSGID has *ANY or names of replies (docs/messages.md), and not CPF5006",
    ),
    ("DLTF FILE(cust)", "the letters of a name are capital: cust"),
    (
        "DLTF FILE(CUSTOMERMASTER)",
        "a name has at most 10 characters: CUSTOMERMASTER",
    ),
    (
        "DLTF FILE(1CUST)",
        "a name begins with a letter, $, # or @: 1CUST",
    ),
    (
        "DLTF FILE(CUST-1)",
        "a name has letters, digits, $, #, @, _ and . and nothing else: CUST-1",
    ),
    ("OPNDBF FILE(A) OPTION(*OUT)", "OPTION is *INP or *ALL"),
    ("CHAIN OPNID(A) RRN(1) LCK(*YES)", "LCK is *NO or *DFT"),
    (
        "WRITE OPNID(A) VAL(ABC)",
        "a text stands in apostrophes: ABC",
    ),
    (
        "WRITE OPNID(A) VAL('A', 'B')",
        "a blank separates values, and no comma: 'A',",
    ),
    (
        "WRITE OPNID(A) VAL('A'B)",
        "a text in apostrophes is a word of its own: 'A'B",
    ),
    ("CHGVAR VAR(&N) VALUE(1)", "no DCL before it declares &N"),
];

const POSITIONS: Rows = &[
    ("CHAIN OPNID(A) LCK(*NO)", "CHAIN needs RRN(..) or KEY(..)"),
    (
        "CHAIN OPNID(A) RRN(1) KEY(1) LCK(*NO)",
        "CHAIN has RRN or KEY, and not both",
    ),
    ("SETLL OPNID(A)", "SETLL needs RRN(..) or KEY(..)"),
    ("READE OPNID(A)", "a parameter is missing: KEY(..)"),
];

const PLACES: Rows = &[
    (
        "GOTO CMDLBL(L1)",
        "no statement of the job has the label L1",
    ),
    ("ENDDO", "there is no open DO that this ENDDO would end"),
    (
        "ELSE CMD(DO)",
        "ELSE stands directly after the ENDDO of its IF",
    ),
    (
        "MONMSG MSGID(*ANY)",
        "MONMSG stands directly after a request",
    ),
];

const ENDS: Rows = &[
    (
        "WRITE OPNID(A) VAL('X)",
        "a literal isn't closed: an apostrophe within a text is written twice",
    ),
    ("WRITE OPNID(A) VAL('X'", "a parenthesis isn't closed"),
    (
        "WRITE OPNID(A) VAL('X'))",
        "a parenthesis is closed that isn't open",
    ),
    (
        "RETURN +",
        "a line that ends with + goes on with the next one, and there is none",
    ),
];

/// The only statement of a job, how its line is shown, and the hint.
const CHARACTERS: &[(&[u8], &str, &str)] = &[
    (
        b"RETURN\r",
        "RETURN\\x0D",
        "the line ends with a carriage return (\\x0D), and a line feed alone ends a line",
    ),
    (
        b"WRITE OPNID(A) VAL('Caf\xC3\xA9')",
        "WRITE OPNID(A) VAL('Caf\\xC3\\xA9')",
        "column 24 has \\xC3\\xA9, none of the 95 printable characters that there are",
    ),
    (
        b"WRITE OPNID(A) VAL(\xE2\x80\x98X\xE2\x80\x99)",
        "WRITE OPNID(A) VAL(\\xE2\\x80\\x98X\\xE2\\x80\\x99)",
        "column 20 has \\xE2\\x80\\x98, a curly apostrophe: write '",
    ),
    (
        b"WRITE OPNID(A) VAL('\xE2\x80\x9D')",
        "WRITE OPNID(A) VAL('\\xE2\\x80\\x9D')",
        "column 21 has \\xE2\\x80\\x9D, a curly quotation mark: a text stands between apostrophes",
    ),
    (
        b"DLTF\xC2\xA0FILE(A)",
        "DLTF\\xC2\\xA0FILE(A)",
        "column 5 has \\xC2\\xA0, a no-break space: write a space",
    ),
    (
        b"WRITE OPNID(A) VAL('a\tb')",
        "WRITE OPNID(A) VAL('a\\x09b')",
        "column 22 has \\x09, a tab within apostrophes, where it is no blank",
    ),
    (
        b"\x1B[2J",
        "\\x1B[2J",
        "column 1 has \\x1B, none of the 95 printable characters that there are",
    ),
];

/// The input of a job that has this statement alone.
fn input_with(alloc: Global, statement: &[u8]) -> Result<Vec<u8>, AllocError> {
    let mut input = Vec::new(alloc);
    input.extend_from_slice(b"//JOB J1\n")?;
    input.extend_from_slice(statement)?;
    input.extend_from_slice(b"\n//END\n")?;
    Ok(input)
}

fn wanted(alloc: Global, shown: &str, hint: &str) -> Result<Vec<u8>, AllocError> {
    let mut wanted = Vec::new(alloc);
    wanted.extend_from_slice(shown.as_bytes())?;
    wanted.extend_from_slice(b"\nhint: ")?;
    wanted.extend_from_slice(hint.as_bytes())?;
    wanted.extend_from_slice(b"\n")?;
    Ok(wanted)
}

fn check_row(
    rt: &impl Abort,
    alloc: Global,
    statement: &[u8],
    shown: &str,
    hint: &str,
) -> Result<(), Fail> {
    let input = input_with(alloc, statement)?;
    assert_eq!(rt; line_at_fault(alloc, input.as_slice())?, Some(2), "{hint}");
    let help = whole_help(alloc, input.as_slice(), 2)?;
    let wanted = wanted(alloc, shown, hint)?;
    assert_eq!(rt; help.as_slice(), wanted.as_slice(), "{hint}");
    Ok(())
}

fn check_rows(rt: &impl Abort, alloc: Global, rows: Rows) -> Result<(), Fail> {
    for &(statement, hint) in rows {
        check_row(rt, alloc, statement.as_bytes(), statement, hint)?;
    }
    Ok(())
}

fn check_characters(
    rt: &impl Abort,
    alloc: Global,
    rows: &[(&'static [u8], &'static str, &'static str)],
) -> Result<(), Fail> {
    for &(statement, shown, hint) in rows {
        check_row(rt, alloc, statement, shown, hint)?;
    }
    Ok(())
}

#[test]
fn commands(rt: HostRuntime) -> Result<(), Fail> {
    check_rows(&rt, rt.alloc(), COMMANDS)
}

#[test]
fn parameters(rt: HostRuntime) -> Result<(), Fail> {
    check_rows(&rt, rt.alloc(), PARAMETERS)
}

#[test]
fn values(rt: HostRuntime) -> Result<(), Fail> {
    check_rows(&rt, rt.alloc(), VALUES)
}

#[test]
fn positions(rt: HostRuntime) -> Result<(), Fail> {
    check_rows(&rt, rt.alloc(), POSITIONS)
}

#[test]
fn places(rt: HostRuntime) -> Result<(), Fail> {
    check_rows(&rt, rt.alloc(), PLACES)
}

#[test]
fn ends(rt: HostRuntime) -> Result<(), Fail> {
    check_rows(&rt, rt.alloc(), ENDS)
}

#[test]
fn characters(rt: HostRuntime) -> Result<(), Fail> {
    check_characters(&rt, rt.alloc(), CHARACTERS)
}
