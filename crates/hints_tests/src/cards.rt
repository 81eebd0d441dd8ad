//! Mistakes in cards, in lines of sources and between the lines of a job: an input, its line at fault, and the help.
use crate::texts::{line_at_fault, whole_help};
use std::alloc::Global;
use std::process::Abort;
use std::test::Fail;

type Rows = &'static [(&'static [u8], u32, &'static str)];

const CARDS: Rows = &[
    (
        b"\xEF\xBB\xBF//JOB J1\n//END\n",
        1,
        "\\xEF\\xBB\\xBF//JOB J1\nhint: the input begins with a byte order mark (\\xEF\\xBB\\xBF): take it out\n",
    ),
    (
        b"RETURN\n//END\n",
        1,
        "RETURN\nhint: an input begins with a card, //DDS or //JOB, and a name\n",
    ),
    (
        b" //JOB J1\n//END\n",
        1,
        " //JOB J1\nhint: a card begins in the first column\n",
    ),
    (
        b"//JOB J1\r\n//END\r\n",
        1,
        "//JOB J1\\x0D\nhint: the line ends with a carriage return (\\x0D), and a line feed alone ends a line\n",
    ),
    (
        b"//job J1\n//END\n",
        1,
        "//job J1\nhint: cards have capital letters: //JOB\n",
    ),
    (
        b"//JOBJ1\n//END\n",
        1,
        "//JOBJ1\nhint: a blank is missing after //JOB\n",
    ),
    (
        b"//JOB\n//END\n",
        1,
        "//JOB\nhint: a name is missing after //JOB\n",
    ),
    (
        b"//JOB j1\n//END\n",
        1,
        "//JOB j1\nhint: the letters of a name are capital: j1\n",
    ),
    (
        b"//JOB J1 J2\n//END\n",
        1,
        "//JOB J1 J2\nhint: a card has one name alone; after it stands J2\n",
    ),
    (
        b"//STEP J1\n//END\n",
        1,
        "//STEP J1\nhint: there is no card //STEP; the cards are //DDS, //JOB, //SCHED and //END\n",
    ),
    (
        b"//JOB J1\nRETURN\n//JOB J1\n//END\n",
        3,
        "//JOB J1\nhint: line 1 has a card of the same name\n",
    ),
    (
        b"//DDS C\n//DDS C\n//END\n",
        2,
        "//DDS C\nhint: line 1 has a card of the same name\n",
    ),
];

const ENDS: Rows = &[
    (
        b"//JOB J1\nRETURN\n",
        3,
        "hint: //END is missing: it is the last line of an input\n",
    ),
    (
        b"//JOB J1\nRETURN",
        3,
        "hint: //END is missing: it is the last line of an input\n",
    ),
    (
        b"//DDS C\n //END\n",
        3,
        "hint: a card begins in the first column: //END\n",
    ),
    (
        b"//JOB J1\n//END \n",
        2,
        "//END \nhint: //END stands alone: not even a blank is after it\n",
    ),
    (
        b"//JOB J1\n//END.\n",
        2,
        "//END.\nhint: //END stands alone: not even a blank is after it\n",
    ),
    (
        b"//JOB J1\n//end\n",
        2,
        "//end\nhint: cards have capital letters: //END\n",
    ),
    (
        b"//JOB J1\n//END\n\n",
        3,
        "\nhint: //END is the last line: nothing is after it, not even an empty line\n",
    ),
    (
        b"//JOB J1\n//END\n//JOB J2\n",
        3,
        "//JOB J2\nhint: //END is the last line: nothing is after it, not even an empty line\n",
    ),
    (
        b"//JOB J1\nDOWHILE COND(1 *EQ 1)\n//END\n",
        3,
        "//END\nhint: the job of line 1 ends without an ENDDO for each of its DO\n",
    ),
];

const SCHEDULES: Rows = &[
    (
        b"//JOB J1\n//SCHED\n//END\n",
        2,
        "//SCHED\nhint: //SCHED has names of jobs, or *RR alone\n",
    ),
    (
        b"//JOB J1\n//SCHED J2\n//END\n",
        2,
        "//SCHED J2\nhint: no job is called J2\n",
    ),
    (
        b"//SCHED *RR\nRETURN\n//END\n",
        2,
        "RETURN\nhint: the line after //SCHED is a card\n",
    ),
    (
        b"//SCHED *RR\n//SCHED *RR\n//END\n",
        2,
        "//SCHED *RR\nhint: an input has one //SCHED alone\n",
    ),
];

/// Faults of sources, which are replies and no faults of the input.
const SOURCES: Rows = &[
    (
        b"//DDS C\n     A         R CR\n//END\n",
        2,
        "     A         R CR\n....+....1....+....2....+....3....+....4....+....5....+....6....+....7....+....8\nhint: column 16: columns 8 to 16 stay blank; R, K, S, O or J stands in 17, and a name begins in 19\n",
    ),
    (
        b"//DDS C\n     A          R CR\n     A            N             5A\n//END\n",
        3,
        "     A            N             5A\n....+....1....+....2....+....3....+....4....+....5....+....6....+....7....+....8\nhint: column 30: a length stands in 30 to 34 and ends in 34\n",
    ),
    (
        b"//DDS C\n     A          R CR                        TEXT('C)\n//END\n",
        2,
        "     A          R CR                        TEXT('C)\n....+....1....+....2....+....3....+....4....+....5....+....6....+....7....+....8\nhint: column 45: an apostrophe or a parenthesis isn't closed; a text goes on with + or - at its line's end\n",
    ),
];

/// Statements whose mistake is seen by the others of their job.
const JOBS: Rows = &[
    (
        b"//JOB J1\nRETURN\nDCL VAR(&N) VALUE(1)\n//END\n",
        3,
        "DCL VAR(&N) VALUE(1)\nhint: all DCL stand before the other statements of their job\n",
    ),
    (
        b"//JOB J1\nDOWHILE COND(1 *EQ 1)\nL1: RETURN\nENDDO\n//END\n",
        3,
        "L1: RETURN\nhint: a label stands outside of blocks\n",
    ),
    (
        b"//JOB J1\nDCL VAR(&N) VALUE(1)\nCHGVAR VAR(&N) +\n  VALUE(&M)\n//END\n",
        3,
        "CHGVAR VAR(&N) +\nhint: no DCL before it declares &M\n",
    ),
    (
        b"//JOB J1\nRETURN\nRETURN +\n\x07\n//END\n",
        3,
        "RETURN +\nhint: a line that this one goes on with has a byte that is none of the 95 printable characters\n",
    ),
];

/// What isn't known gets its line alone, or nothing.
const UNKNOWN: Rows = &[
    (b"//JOB J1\nDSPMSG\n//END\n", 3, "//END\n"),
    (b"//JOB J1\nRETURN\n//END\n", 2, "RETURN\n"),
    (
        b"//DDS C\n     A          R CR\n//END\n",
        2,
        "     A          R CR\n",
    ),
    (
        b"",
        1,
        "hint: //END is missing: it is the last line of an input\n",
    ),
];

fn check_faults(rt: &impl Abort, alloc: Global, rows: Rows) -> Result<(), Fail> {
    for &(input, line, wanted) in rows {
        assert_eq!(rt; line_at_fault(alloc, input)?, Some(line), "{wanted}");
    }
    check_rows(rt, alloc, rows)
}

fn check_rows(rt: &impl Abort, alloc: Global, rows: Rows) -> Result<(), Fail> {
    for &(input, line, wanted) in rows {
        let help = whole_help(alloc, input, line)?;
        assert_eq!(rt; help.as_slice(), wanted.as_bytes(), "{wanted}");
    }
    Ok(())
}

#[test]
fn cards(rt: HostRuntime) -> Result<(), Fail> {
    check_faults(&rt, rt.alloc(), CARDS)
}

#[test]
fn ends(rt: HostRuntime) -> Result<(), Fail> {
    check_faults(&rt, rt.alloc(), ENDS)
}

#[test]
fn schedules(rt: HostRuntime) -> Result<(), Fail> {
    check_faults(&rt, rt.alloc(), SCHEDULES)
}

#[test]
fn sources(rt: HostRuntime) -> Result<(), Fail> {
    check_rows(&rt, rt.alloc(), SOURCES)
}

#[test]
fn jobs(rt: HostRuntime) -> Result<(), Fail> {
    check_faults(&rt, rt.alloc(), JOBS)
}

#[test]
fn unknown(rt: HostRuntime) -> Result<(), Fail> {
    check_rows(&rt, rt.alloc(), UNKNOWN)
}

/// Of a line as many characters are shown as there may be: 98 letters, and none of a byte that would take four more.
#[test]
fn long_lines(rt: HostRuntime) -> Result<(), Fail> {
    let mut input = vec![in rt.alloc(); b'x'; 98]?;
    input.extend_from_slice(b"\x07yz\n")?;
    let help = whole_help(rt.alloc(), input.as_slice(), 1)?;
    let front = help
        .as_slice()
        .iter()
        .take_while(|&&byte| byte == b'x')
        .count();
    assert_eq!(rt; front, 98);
    assert_eq!(rt; help.as_slice().get(98).copied(), Some(b'\n'));
    Ok(())
}
