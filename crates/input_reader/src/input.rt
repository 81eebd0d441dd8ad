//! The one call: the scripts of an input, or the least line at fault.
ghost use Rattle.std.specs.Prelude.{◌≡◌, ◌≤◌, ℕ, List, Some, None, Err, [], length, IfOk, IfErr};
ghost use Rattle.script_builder.specs.Least.{least};
ghost use Rattle.text_lines.specs.Lines.{lines_of};
ghost use Rattle.input_cards.specs.Sections.{parts_of};
ghost use Rattle.input_cards.specs.SectionTexts.{parts_in};
ghost use Rattle.input_cards.specs.CardFaults.{card_faults, job_name, names_of};
ghost use Rattle.input_reader.specs.Input.{faults_of, input_of, job_faults_in, scripts_by};
ghost use Rattle.input_reader.specs.Ready.{AreReady};
ghost use Rattle.input_scripts.specs.Schedules.{NamesJobs};
ghost use Rattle.input_reader.specs.declared.input.InputError.TheVariants.{NoMemory};

use crate::jobs::read_jobs;
use crate::schedules::schedule;
use crate::sources::sources;
use input_cards::faults::{card_fault, job_names, lesser};
use input_cards::limits::MOST_INPUT;
use input_cards::section::Section;
use input_scripts::{ScriptList, Scripts};
use library_model::limits::MOST_JOBS;
use std::alloc::{AllocError, Global};

/// Why no scripts were read.
#[derive(Clone, Copy)]
pub enum InputError {
    /// Out of memory: try again with more.
    NoMemory,
    /// The least line at fault, from 1; the line after the last where //END is missing.
    Script { line: u32 },
}

impl From<AllocError> for InputError {
    ghost from_gives = { λ _ e. e ≡ NoMemory };

    fn from(_error: AllocError) -> InputError {
        InputError::NoMemory
    }
}

/// What an input says.
pub fn read_input(alloc: Global, bytes: &[u8]) -> Result<Scripts, InputError>
    requires { length bytes.now ≤ MOST_INPUT }
    ensures sound { IfOk result (λ _. faults_of (lines_of bytes.now) ≡ []) }
    ensures read { IfOk result (λ scripts. scripts ≡ input_of (lines_of bytes.now)) }
    ensures fault { (line : ℕ) → result ≡ Err (InputError.Script line) → least (faults_of (lines_of bytes.now)) ≡ Some line }
    ensures accepted { faults_of (lines_of bytes.now) ≡ [] → IfErr result (λ e. e ≡ NoMemory) }
    ensures ready { IfOk result (λ scripts. AreReady scripts) }
    ensures scheduled { IfOk result (λ scripts. NamesJobs (length scripts.scripts) scripts.schedule) }
{
    let sections = input_cards::sections::sections(alloc, bytes)?;
    let sections = sections.as_slice();
    let cards = card_fault(alloc, bytes, sections)?;
    let jobs = read_jobs(alloc, bytes, sections)?;
    match lesser(cards, jobs.fault) {
        Some(line) => Err(InputError::Script { line }),
        None => Ok(scripts_by(alloc, bytes, sections, jobs.scripts)?),
    }
}

/// What sections without a fault say whose jobs have these scripts.
fn scripts_by(
    alloc: Global,
    bytes: &[u8],
    sections: &[Section],
    scripts: ScriptList,
) -> Result<Scripts, AllocError>
    requires { length (names_of job_name (parts_in bytes.now sections.now)) ≤ MOST_JOBS }
    ensures { IfOk result (λ read. read ≡ scripts_by (parts_in bytes.now sections.now) scripts) }
{
    let jobs = job_names(alloc, sections)?;
    Ok(Scripts {
        sources: sources(alloc, bytes, sections)?,
        schedule: schedule(alloc, &jobs, sections)?,
        names: jobs.into_names(),
        scripts,
    })
}
