//! Help for jobs that ended early, for words and for a terminal.
use hints::{FolderTrouble, folder_help, jobs_help, terminal_help, unjournaled_help, words_help};
use std::alloc::{AllocError, Global};
use std::process::Abort;
use std::test::Fail;

const INPUT: &[u8] =
    b"//JOB J1\nCHAIN OPNID(CUST) RRN(2) LCK(*NO)\n//JOB J2\n CHGVAR VAR(&N) VALUE('A' + 1)\n//DDS S\n     A          R R\n     A            F\n//END\n";

/// A listing, and the help.
const LISTINGS: &[(&[u8], &str)] = &[
    (
        b"HISTORY\n1 J1 70 ENDJOB REASON(*NORMAL) LINE(0) => OK\nEND 1\n",
        "",
    ),
    (
        b"HISTORY\n1 J1 70 CHAIN OPNID(CUST) RRN(2) LCK(*NO) => NotFound\n2 J1 71 ENDJOB REASON(*ESCAPE) LINE(2) => OK\nEND 2\n",
        "job J1 ended with *ESCAPE at line 2\nrequest: CHAIN OPNID(CUST) RRN(2) LCK(*NO)\nreply: NotFound\n",
    ),
    (
        b"HISTORY\n1 J1 70 WRITE OPNID(C) VAL(' => ') => MemberFull\n2 J2 71 DLTF FILE(C) => OK\n3 J1 72 ENDJOB REASON(*ESCAPE) LINE(2) => OK\nEND 3\n",
        "job J1 ended with *ESCAPE at line 2\nrequest: WRITE OPNID(C) VAL(' => ')\nreply: MemberFull\n",
    ),
    (
        b"HISTORY\n1 J1 70 CRTPF FILE(S) SRC(S) => DdsFault LINE(2) COL(34) CAUSE(BadLength)\n2 J1 71 ENDJOB REASON(*ESCAPE) LINE(2) => OK\nEND 2\n",
        "job J1 ended with *ESCAPE at line 2\nrequest: CRTPF FILE(S) SRC(S)\nreply: DdsFault LINE(2) COL(34) CAUSE(BadLength)\nline 7 of the input:\n     A            F\n....+....1....+....2....+....3....+....4....+....5....+....6....+....7....+....8\n",
    ),
    (
        b"HISTORY\n1 J2 70 ENDJOB REASON(*EXPR) LINE(4) => OK\nEND 1\n",
        "job J2 ended with *EXPR at line 4\nhint: an expression has no value, or TO has more variables than the record fields\nline: CHGVAR VAR(&N) VALUE('A' + 1)\n",
    ),
    (
        b"HISTORY\n1 J2 70 ENDJOB REASON(*STMT) LINE(0) => OK\nEND 1\n",
        "job J2 ended with *STMT\nhint: 100,000 statements were run, as a rule by a loop that doesn't end\n",
    ),
    (
        b"HISTORY\n1 J2 70 ENDJOB REASON(*HISTORY) LINE(0) => OK\nEND 1\n",
        "job J2 ended with *HISTORY\nhint: the run has as many calls as it may have: split it\n",
    ),
];

/// An input with a source whose line has an entry in a wrong column.
const COLUMN_INPUT: &[u8] =
    b"//DDS C\n     A         R CR\n//JOB J1\nCRTPF FILE(C) SRC(C)\n//END\n";

const COLUMN_LISTING: &[u8] =
    b"HISTORY\n1 J1 70 CRTPF FILE(C) SRC(C) => DdsFault LINE(1) COL(16) CAUSE(BadColumn)\n2 J1 71 ENDJOB REASON(*ESCAPE) LINE(4) => OK\nEND 2\n";

const COLUMN_HELP: &str =
    "job J1 ended with *ESCAPE at line 4\nrequest: CRTPF FILE(C) SRC(C)\nreply: DdsFault LINE(1) COL(16) CAUSE(BadColumn)\nline 2 of the input:\n     A         R CR\n....+....1....+....2....+....3....+....4....+....5....+....6....+....7....+....8\nhint: column 16: columns 8 to 16 stay blank; R, K, S, O or J stands in 17, and a name begins in 19\n";

fn check_listings(
    rt: &impl Abort,
    alloc: Global,
    rows: &[(&'static [u8], &'static str)],
) -> Result<(), Fail> {
    for &(listing, wanted) in rows {
        let help = jobs_help(alloc, INPUT, listing)?;
        assert_eq!(rt; help.as_bytes(), wanted.as_bytes(), "{wanted}");
    }
    Ok(())
}

#[test]
fn ended_jobs(rt: HostRuntime) -> Result<(), Fail> {
    let help = jobs_help(rt.alloc(), COLUMN_INPUT, COLUMN_LISTING)?;
    assert_eq!(rt; help.as_bytes(), COLUMN_HELP.as_bytes(), "a column");
    check_listings(&rt, rt.alloc(), LISTINGS)
}

/// Words, and the help.
const WORDS: &[(&[&str], &str)] = &[
    (
        &[],
        "hint: type INZ, RUN, SERIAL or DSP, and the folder of the library\n",
    ),
    (&["RUN"], "hint: type the folder of the library after RUN\n"),
    (
        &["SERIAL"],
        "hint: type the folder of the library after SERIAL\n",
    ),
    (&["INZ"], "hint: type the folder of the library after INZ\n"),
    (&["DSP"], "hint: type the folder of the library after DSP\n"),
    (&["run", "lib"], "hint: RUN has capital letters\n"),
    (&["inz", "lib"], "hint: INZ has capital letters\n"),
    (&["Dsp", "lib"], "hint: DSP has capital letters\n"),
    (&["Serial", "lib"], "hint: SERIAL has capital letters\n"),
    (
        &["lib"],
        "hint: the first word is INZ, RUN, SERIAL or DSP, and not lib\n",
    ),
    (&["RUN", ""], "hint: the folder's name is empty\n"),
    (
        &["RUN", "-v"],
        "hint: a folder's name doesn't begin with a hyphen; type ./-v\n",
    ),
    (
        &["RUN", "my", "lib"],
        "hint: one word follows the command; put apostrophes around a name with blanks, or take out lib\n",
    ),
    (&["RUN", "lib"], ""),
    (&["SERIAL", "lib"], ""),
    (&["INZ", "lib"], ""),
    (&["DSP", "lib"], ""),
];

/// A listing, and what is said of files that aren't journaled.
const UNJOURNALED: &[(&[u8], &str)] = &[
    (
        b"HISTORY\n1 J1 0 CRTPF FILE(CUST) SRC(CUST) => OK\n2 J1 1 OPNDBF FILE(CUST) OPTION(*ALL) MBR(CUST) OPNID(CUST) COMMIT(*NO) ACCPTH(*FILE) => OK\n3 J1 2 ENDJOB REASON(*NORMAL) LINE(0) => OK\nEND 3\n",
        "hint: file CUST isn't journaled: its records end with the run; STRJRNPF before the first of them keeps them\n",
    ),
    (
        b"HISTORY\n1 J1 0 CRTPF FILE(CUST) SRC(CUST) => OK\n2 J1 1 STRJRNPF FILE(CUST) MBR(CUST) IMAGES(*AFTER) => OK\n3 J1 2 OPNDBF FILE(CUST) OPTION(*ALL) MBR(CUST) OPNID(CUST) COMMIT(*NO) ACCPTH(*FILE) => OK\nEND 3\n",
        "",
    ),
    (
        b"HISTORY\n1 J1 0 CRTPF FILE(CUST) SRC(CUST) => OK\n2 J1 1 OPNDBF FILE(CUST) OPTION(*INP) MBR(CUST) OPNID(CUST) COMMIT(*NO) ACCPTH(*FILE) => OK\nEND 2\n",
        "",
    ),
    (
        b"HISTORY\n1 J1 0 CRTPF FILE(CUST) SRC(CUST) => OK\n2 J1 1 OPNDBF FILE(CUST) OPTION(*ALL) MBR(CUST) OPNID(CUST) COMMIT(*NO) ACCPTH(*FILE) => OK\n3 J1 2 CLOF OPNID(CUST) => OK\n4 J1 3 DLTF FILE(CUST) => OK\nEND 4\n",
        "",
    ),
    (
        b"HISTORY\n1 J1 0 CRTPF FILE(CUST) SRC(CUST) => NameExists NAME(CUST)\n2 J1 1 OPNDBF FILE(CUST) OPTION(*ALL) MBR(CUST) OPNID(CUST) COMMIT(*NO) ACCPTH(*FILE) => OK\nEND 2\n",
        "",
    ),
];

/// What a folder's trouble is, and what to do about it.
const TROUBLES: &[(FolderTrouble, &str)] = &[
    (
        FolderTrouble::NoLibrary,
        "hint: there is no library in that folder; ibmi INZ and the folder make one\n",
    ),
    (
        FolderTrouble::Damaged { area: 66 },
        "hint: the file area66 of the folder is not as a library leaves it, and a stop alone never does that; nothing was written\nhint: keep a copy of the folder as it is, and put back one that was copied while no run had it\n",
    ),
    (
        FolderTrouble::Fault,
        "hint: the folder could not be read or written: look for its rights and for room on the disk\nhint: what was acknowledged is there at the next run; ibmi DSP and the folder show it\n",
    ),
    (
        FolderTrouble::Library,
        "hint: there is a library in that folder already, and it stays as it is; take another folder, or RUN\n",
    ),
];

fn strings(alloc: Global, words: &[&str]) -> Result<Vec<String>, AllocError> {
    let mut strings = Vec::new(alloc);
    for word in words {
        strings.push(String::from_str(alloc, word)?)?;
    }
    Ok(strings)
}

fn check_words(
    rt: &impl Abort,
    alloc: Global,
    rows: &[(&[&'static str], &'static str)],
) -> Result<(), Fail> {
    for &(words, wanted) in rows {
        let words = strings(alloc, words)?;
        let help = words_help(alloc, words.as_slice())?;
        assert_eq!(rt; help.as_bytes(), wanted.as_bytes(), "{wanted}");
    }
    Ok(())
}

#[test]
fn words(rt: HostRuntime) -> Result<(), Fail> {
    check_words(&rt, rt.alloc(), WORDS)
}

fn check_troubles(
    rt: &impl Abort,
    alloc: Global,
    rows: &[(FolderTrouble, &'static str)],
) -> Result<(), Fail> {
    for &(trouble, wanted) in rows {
        let help = folder_help(alloc, trouble)?;
        assert_eq!(rt; help.as_bytes(), wanted.as_bytes(), "{wanted}");
    }
    Ok(())
}

fn check_unjournaled(
    rt: &impl Abort,
    alloc: Global,
    rows: &[(&'static [u8], &'static str)],
) -> Result<(), Fail> {
    for &(listing, wanted) in rows {
        let help = unjournaled_help(alloc, listing)?;
        assert_eq!(rt; help.as_bytes(), wanted.as_bytes(), "{wanted}");
    }
    Ok(())
}

#[test]
fn unjournaled(rt: HostRuntime) -> Result<(), Fail> {
    check_unjournaled(&rt, rt.alloc(), UNJOURNALED)
}

#[test]
fn troubles(rt: HostRuntime) -> Result<(), Fail> {
    check_troubles(&rt, rt.alloc(), TROUBLES)
}

#[test]
fn terminal(rt: HostRuntime) -> Result<(), Fail> {
    let help = terminal_help(rt.alloc())?;
    let wanted =
        "hint: the input is read from the terminal: type it, //END as its last line, and then Ctrl-D\nhint: to run an input that is in a file, type ibmi RUN folder < file, or SERIAL in place of RUN\n";
    assert_eq!(rt; help.as_bytes(), wanted.as_bytes());
    Ok(())
}
