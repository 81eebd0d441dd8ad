//! From the statements of a job as they are written to the script that it runs, or the line at fault.
//! Begin with `specs/Faults.antt` and `specs/Scripts.antt`.
#![tactic(auto)]

ghost use Rattle.std.specs.Prelude.{◌≡◌, ℕ, Some, [], length, IfOk, IfSome, IfNone, IsErrOf};
ghost use Rattle.script_builder.specs.Least.{least};
ghost use Rattle.script_builder.specs.Ways.{count_of, labels_of};
ghost use Rattle.script_builder.specs.Faults.{faults_of, plain_faults, TakesMemory};
ghost use Rattle.script_builder.specs.Laws.{LeadWithin};
ghost use Rattle.script_builder.specs.Scripts.{script_of};
ghost use Rattle.script_builder.specs.declared.BuildError.TheVariants.{NoMemory};

pub mod assembly;
mod blocks;
mod faults;
mod name_table;
pub mod phrases;
mod repeats;
pub mod rests;
mod stack;
pub mod ways;

use crate::name_table::NameTable;
use job_language::statements::Script;
use statement_syntax::{Written, WrittenStatements};
use std::alloc::{AllocError, Global};

/// Why there is no script.
#[derive(Clone, Copy, Debug, PartialEq, Drop)]
pub enum BuildError {
    /// Out of memory: try again with more.
    NoMemory,
    /// The first line at fault.
    Fault { line: u32 },
}

impl From<AllocError> for BuildError {
    ghost from_gives = { λ _ e. e ≡ NoMemory };

    fn from(_e: AllocError) -> BuildError {
        BuildError::NoMemory
    }
}

/// The first line at fault, where that is certain without memory.
fn certain_fault(statements: &[Written], end_line: u32, plain: Option<u32>) -> Option<u32>
    requires { plain ≡ least (plain_faults statements.now end_line) }
    ensures first { IfSome result (λ line. least (faults_of statements.now end_line) ≡ Some line) }
    ensures none { IfNone result (TakesMemory statements.now end_line) }
{
    if faults::takes_memory(statements) {
        return None;
    }
    plain
}

/// The first line at fault, where the plain rules find this one.
fn first_fault(
    alloc: Global,
    statements: &[Written],
    end_line: u32,
    plain: Option<u32>,
    labels: &NameTable,
) -> Result<Option<u32>, AllocError>
    requires plain { plain ≡ least (plain_faults statements.now end_line) }
    requires labels { labels.now ≡ labels_of statements.now (count_of statements.now) 0 [] }
    ensures { IfOk result (λ first. first ≡ least (faults_of statements.now end_line)) }
{
    let elses = faults::lesser(plain, faults::stray_else(alloc, statements)?);
    let variables = faults::lesser(elses, repeats::repeated_variable(alloc, statements)?);
    let repeated = faults::lesser(variables, repeats::repeated_label(alloc, statements)?);
    Ok(faults::lesser(repeated, faults::missing_label(statements, labels)))
}

fn script(
    alloc: Global,
    statements: WrittenStatements,
    labels: &NameTable,
) -> Result<Script, AllocError>
    requires { labels.now ≡ labels_of statements (count_of statements) 0 [] }
    ensures { IfOk result (λ script. script ≡ script_of statements) }
{
    let written = statements.as_slice();
    let total = rests::count(written);
    let rests = rests::rests(alloc, written)?;
    let ways = ways::ways(alloc, written, rests.as_slice(), labels, total)?;
    assembly::assembled(alloc, statements.into_vec(), ways.as_slice(), labels)
}

/// The script of a job's statements, which end at the card on the line `end_line`.
pub fn build(
    alloc: Global,
    statements: WrittenStatements,
    end_line: u32,
) -> Result<Script, BuildError>
    ensures sound { IfOk result (λ _. faults_of statements end_line ≡ []) }
    ensures script { IfOk result (λ script. script ≡ script_of statements) }
    ensures within { IfOk result (λ script. LeadWithin script.statements (length script.statements)) }
    ensures fault { (line : ℕ) → IsErrOf result (BuildError.Fault line) → least (faults_of statements end_line) ≡ Some line }
    ensures memory { IsErrOf result BuildError.NoMemory → TakesMemory statements end_line }
{
    let written = statements.as_slice();
    let plain = faults::plain_fault(written, end_line);
    if let Some(line) = certain_fault(written, end_line, plain) {
        return Err(BuildError::Fault { line });
    }
    let labels = repeats::labels(alloc, written)?;
    if let Some(line) = first_fault(alloc, written, end_line, plain, &labels)? {
        return Err(BuildError::Fault { line });
    }
    Ok(script(alloc, statements, &labels)?)
}
