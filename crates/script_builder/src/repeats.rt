//! Names that stand twice, and the places of labels.
ghost use Rattle.std.specs.Prelude.{◌≡◌, ◌+◌, ◌^◌, ◌<◌, [], OnOk, IfOk, List, ℕ};
ghost use Rattle.library_model.specs.Named.{Named};
ghost use Rattle.script_builder.specs.Least.{least, lesser};
ghost use Rattle.script_builder.specs.Faults.{with_name, variables_of, labelled_lines, repeated};
ghost use Rattle.script_builder.specs.Ways.{count_of, labels_of, with_label};

use crate::blocks::depth_after;
use crate::faults::noting;
use crate::name_table::NameTable;
use crate::phrases::{does_count, nesting_of, variable};
use field_types::names::Name;
use statement_syntax::Written;
use std::alloc::{AllocError, Global};

/// The less of a line and that of a name, where the name is among the earlier ones.
fn noting_name(
    first: Option<u32>,
    earlier: &mut NameTable,
    name: Option<Name>,
    line: u32,
) -> Result<Option<u32>, AllocError>
    ensures { IfOk result (λ noted. (later : Named ℕ) → lesser noted (least (repeated later earlier.new)) ≡ lesser first (least (repeated (with_name name line later) earlier.old))) }
{
    match name {
        None => Ok(first),
        Some(name) => {
            let again = earlier.add_new(name, line as usize)?;
            Ok(noting(first, again, line))
        }
    }
}

/// A variable that is declared twice.
pub(crate) fn repeated_variable(
    alloc: Global,
    statements: &[Written],
) -> Result<Option<u32>, AllocError>
    ensures { IfOk result (λ first. first ≡ least (repeated (variables_of statements.now) [])) }
{
    let mut first = None;
    let mut earlier = NameTable::new(alloc);
    for statement in statements {
        first = noting_name(
            first,
            &mut earlier,
            variable(&statement.phrase),
            statement.line,
        )?;
    }
    Ok(first)
}

/// A label that stands twice.
pub(crate) fn repeated_label(
    alloc: Global,
    statements: &[Written],
) -> Result<Option<u32>, AllocError>
    ensures { IfOk result (λ first. first ≡ least (repeated (labelled_lines statements.now) [])) }
{
    let mut first = None;
    let mut earlier = NameTable::new(alloc);
    for statement in statements {
        first = noting_name(first, &mut earlier, statement.label, statement.line)?;
    }
    Ok(first)
}

fn note_label(
    labels: &mut NameTable,
    depth: usize,
    label: Option<Name>,
    place: usize,
) -> Result<(), AllocError>
    ensures { OnOk result (labels.new ≡ with_label depth label place labels.old) }
{
    if depth == 0
        && let Some(label) = label
    {
        let _again = labels.add_new(label, place)?;
    }
    Ok(())
}

/// The labels that stand outside blocks, with their places.
pub(crate) fn labels(alloc: Global, statements: &[Written]) -> Result<NameTable, AllocError>
    ensures { IfOk result (λ labels. labels ≡ labels_of statements.now (count_of statements.now) 0 []) }
{
    let mut labels = NameTable::new(alloc);
    let mut depth = 0;
    let mut place = 0;
    for statement in statements {
        note_label(&mut labels, depth, statement.label, place)?;
        depth = depth_after(depth, nesting_of(&statement.phrase));
        place += usize::from(does_count(&statement.phrase));
    }
    Ok(labels)
}
