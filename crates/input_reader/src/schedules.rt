//! The order of the jobs' calls that an input asks for.
ghost use Rattle.std.specs.Prelude.{◌≡◌, ◌≤◌, ℕ, List, IfOk, Some, length, map};
ghost use Rattle.input_cards.specs.SectionTexts.{parts_in};
ghost use Rattle.input_reader.specs.Input.{job_number, schedule_by, turns_among};

use field_types::names::Name;
use input_cards::cards::{Card, Turns};
use input_cards::names::NameList;
use input_cards::section::Section;
use input_scripts::{JobNumbers, Schedule};
use library_model::limits::MOST_JOBS;
use std::alloc::{AllocError, Global};

/// The order that the first //SCHED asks for.
pub(crate) fn schedule(
    alloc: Global,
    jobs: &NameList,
    sections: &[Section],
) -> Result<Schedule, AllocError>
    requires { length jobs.now ≤ MOST_JOBS }
    ensures { IfOk result (λ schedule. (bytes : List ℕ) → schedule ≡ schedule_by jobs.now (turns_among (parts_in bytes sections.now))) }
{
    for section in sections {
        if let Some(Card::Schedule(turns)) = &section.card {
            return schedule_by(alloc, jobs, turns);
        }
    }
    Ok(Schedule::Jobs(JobNumbers::new(alloc)))
}

fn schedule_by(alloc: Global, jobs: &NameList, turns: &Turns) -> Result<Schedule, AllocError>
    requires { length jobs.now ≤ MOST_JOBS }
    ensures { IfOk result (λ schedule. schedule ≡ schedule_by jobs.now (Some turns.now)) }
{
    match turns {
        Turns::Jobs(names) => Ok(Schedule::Jobs(numbers(alloc, jobs, names.as_slice())?)),
        Turns::RoundRobin => Ok(Schedule::RoundRobin),
    }
}

fn numbers(alloc: Global, jobs: &NameList, names: &[Name]) -> Result<JobNumbers, AllocError>
    requires { length jobs.now ≤ MOST_JOBS }
    ensures { IfOk result (λ numbers. numbers ≡ map (job_number jobs.now) names.now) }
{
    let mut numbers = JobNumbers::new(alloc);
    for name in names {
        numbers.push(job_number(jobs, name))?;
    }
    Ok(numbers)
}

/// The number of the job, from 1; 0 where there is none of that name.
fn job_number(jobs: &NameList, name: &Name) -> u32
    requires { length jobs.now ≤ MOST_JOBS }
    ensures { result ≡ job_number jobs.now name.now }
{
    match jobs.place(name) {
        Some(place) => place as u32 + 1,
        None => 0,
    }
}
