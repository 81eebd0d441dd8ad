//! Bytes that are no listing, and the first line at fault. It may be the one behind the last, where a listing goes on.
use crate::readings::check_fault;
use std::alloc::Global;
use std::process::Abort;
use std::test::Fail;

/// Bytes, and the first line that no listing with the lines before it has.
const BYTES: &[(&str, u64)] = &[
    ("", 1),
    ("\n", 1),
    ("HISTORY", 1),
    ("HISTORY \nEND 0\n", 1),
    ("History\nEND 0\n", 1),
    ("HISTORY\r\nEND 0\r\n", 1),
    ("END 0\n", 1),
    ("1 J1 0 COMMIT => OK\nEND 1\n", 1),
    ("HISTORY\n", 2),
    ("HISTORY\n\nEND 0\n", 2),
    ("HISTORY\nEND\n", 2),
    ("HISTORY\nEND 0", 2),
    ("HISTORY\nEND 1\n", 2),
    ("HISTORY\nEND 00\n", 2),
    ("HISTORY\nEND  0\n", 2),
    ("HISTORY\nEND 0 \n", 2),
    ("HISTORY\nEND -0\n", 2),
    ("HISTORY\nend 0\n", 2),
    ("HISTORY\nEND 0\n\n", 3),
    ("HISTORY\nEND 0\nEND 0\n", 3),
    ("HISTORY\nEND 0\nHISTORY\nEND 0\n", 3),
    ("HISTORY\n1 J1 0 COMMIT => OK", 2),
    ("HISTORY\n1 J1 0 COMMIT => OK\n", 3),
    ("HISTORY\n1 J1 0 COMMIT => OK\nEND 0\n", 3),
    ("HISTORY\n1 J1 0 COMMIT => OK\nEND 2\n", 3),
    ("HISTORY\n1 J1 0 COMMIT => OK\nEND 1", 3),
    ("HISTORY\n1 J1 0 COMMIT => OK\nEND 1\n ", 4),
    (
        "HISTORY\n1 J1 0 COMMIT => OK\nEND 1\n2 J1 0 COMMIT => OK\n",
        4,
    ),
    ("HISTORY\n1 J1 0 COMMIT => OK\n\nEND 1\n", 3),
    (
        "HISTORY\n1 J1 0 COMMIT => OK\n1 J1 0 COMMIT => OK\nEND 2\n",
        3,
    ),
    (
        "HISTORY\n1 J1 0 COMMIT => OK\n3 J1 0 COMMIT => OK\nEND 2\n",
        3,
    ),
    ("HISTORY\n2 J1 0 COMMIT => OK\nEND 1\n", 2),
    ("HISTORY\n0 J1 0 COMMIT => OK\nEND 1\n", 2),
    (
        "HISTORY\n1 J1 0 COMMIT => OK\n2 J3 0 COMMIT => OK\n4 J1 0 COMMIT => OK\nEND 9\n",
        3,
    ),
    (
        "HISTORY\n1 J1 0 COMMIT => OK\n2 J2 0 COMMIT => OK\n4 J1 0 COMMIT => OK\nEND 9\n",
        4,
    ),
];

fn check_bytes(rt: &impl Abort, alloc: Global, rows: &[(&'static str, u64)]) -> Result<(), Fail> {
    for &(bytes, line) in rows {
        check_fault(rt, alloc, bytes.as_bytes(), line, bytes)?;
    }
    Ok(())
}

#[test]
fn first_lines_at_fault(rt: HostRuntime) -> Result<(), Fail> {
    check_bytes(&rt, rt.alloc(), BYTES)
}
