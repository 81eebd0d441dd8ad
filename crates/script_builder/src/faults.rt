//! The least line at fault, rule by rule, by `specs/Faults.antt`. Those that need no memory come first.
ghost use Rattle.std.specs.Prelude.{◌≡◌, false, [], IfOk};
ghost use Rattle.script_builder.specs.Least.{least, lesser};
ghost use Rattle.script_builder.specs.Faults.{noted, late_declarations, stray_monitors, stray_ends, labels_inside, open_at_end, stray_elses, missing_labels, plain_faults, takes_memory};
ghost use Rattle.std.specs.List.{list_any};

use crate::blocks::{closes_none, closes_then, depth_after, nest};
use crate::name_table::NameTable;
use crate::phrases::{begins_else, declares, monitors, nesting_of, requests, target, variable};
use crate::stack::Stack;
use statement_syntax::Written;
use std::alloc::{AllocError, Global};

/// The less of two lines.
pub(crate) fn lesser(first: Option<u32>, second: Option<u32>) -> Option<u32>
    ensures { result ≡ lesser first second }
{
    match (first, second) {
        (None, second) => second,
        (Some(first), None) => Some(first),
        (Some(first), Some(second)) => Some(first.min(second)),
    }
}

/// The less of a line and another, where that one is at fault.
pub(crate) fn noting(first: Option<u32>, at_fault: bool, line: u32) -> Option<u32>
    ensures { result ≡ lesser first (least (noted at_fault line [])) }
{
    if at_fault {
        lesser(first, Some(line))
    } else {
        first
    }
}

/// A DCL after a statement of another kind.
fn late_declaration(statements: &[Written]) -> Option<u32>
    ensures { result ≡ least (late_declarations statements.now false) }
{
    let mut first = None;
    let mut begun = false;
    for statement in statements {
        let declares = declares(&statement.phrase);
        first = noting(first, begun && declares, statement.line);
        begun = begun || !declares;
    }
    first
}

/// A MONMSG that doesn't stand directly after a request.
fn stray_monitor(statements: &[Written]) -> Option<u32>
    ensures { result ≡ least (stray_monitors statements.now false) }
{
    let mut first = None;
    let mut after_request = false;
    for statement in statements {
        let monitors = monitors(&statement.phrase);
        first = noting(first, monitors && !after_request, statement.line);
        after_request = requests(&statement.phrase);
    }
    first
}

/// An ENDDO without an open block.
fn stray_end(statements: &[Written]) -> Option<u32>
    ensures { result ≡ least (stray_ends statements.now 0) }
{
    let mut first = None;
    let mut depth = 0;
    for statement in statements {
        let nesting = nesting_of(&statement.phrase);
        first = noting(first, closes_none(depth, nesting), statement.line);
        depth = depth_after(depth, nesting);
    }
    first
}

/// A label inside a block.
fn inner_label(statements: &[Written]) -> Option<u32>
    ensures { result ≡ least (labels_inside statements.now 0) }
{
    let mut first = None;
    let mut depth = 0;
    for statement in statements {
        first = noting(
            first,
            statement.label.is_some() && depth > 0,
            statement.line,
        );
        depth = depth_after(depth, nesting_of(&statement.phrase));
    }
    first
}

/// A block that is still open at the end.
fn open_block(statements: &[Written], end_line: u32) -> Option<u32>
    ensures { result ≡ least (open_at_end statements.now end_line) }
{
    let mut depth = 0;
    for statement in statements {
        depth = depth_after(depth, nesting_of(&statement.phrase));
    }
    noting(None, depth > 0, end_line)
}

/// What is noticed without memory.
pub(crate) fn plain_fault(statements: &[Written], end_line: u32) -> Option<u32>
    ensures { result ≡ least (plain_faults statements.now end_line) }
{
    let order = lesser(late_declaration(statements), stray_monitor(statements));
    let blocks = lesser(order, stray_end(statements));
    let labels = lesser(blocks, inner_label(statements));
    lesser(labels, open_block(statements, end_line))
}

/// An ELSE that doesn't stand directly after the ENDDO of an IF.
pub(crate) fn stray_else(alloc: Global, statements: &[Written]) -> Result<Option<u32>, AllocError>
    ensures { IfOk result (λ first. first ≡ least (stray_elses statements.now [] false)) }
{
    let mut first = None;
    let mut blocks = Stack::new(alloc);
    let mut after_then = false;
    for statement in statements {
        let begins_else = begins_else(&statement.phrase);
        first = noting(first, begins_else && !after_then, statement.line);
        let nesting = nesting_of(&statement.phrase);
        after_then = closes_then(&blocks, nesting);
        nest(&mut blocks, nesting)?;
    }
    Ok(first)
}

/// A statement that goes to a label which stands nowhere outside blocks.
pub(crate) fn missing_label(statements: &[Written], labels: &NameTable) -> Option<u32>
    ensures { result ≡ least (missing_labels statements.now labels.now) }
{
    let mut first = None;
    for statement in statements {
        let missing = match target(&statement.phrase) {
            None => false,
            Some(label) => labels.number(&label).is_none(),
        };
        first = noting(first, missing, statement.line);
    }
    first
}

/// Whether a rule that needs memory may judge one of them.
pub(crate) fn takes_memory(statements: &[Written]) -> bool
    ensures { result ≡ list_any takes_memory statements.now }
{
    statements.iter().any(|statement| {
        statement.label.is_some()
            || target(&statement.phrase).is_some()
            || variable(&statement.phrase).is_some()
            || begins_else(&statement.phrase)
    })
}
