//! What was read of an input: its sources, its jobs' names, their scripts, and the order of their calls.
#![tactic(auto)]

ghost use Rattle.std.specs.Prelude.{◌≡◌, IfOk, IsTrue};
ghost use Rattle.job_language.specs.declared.statements.Script.{Script as ScriptValue};
ghost use Rattle.input_scripts.specs.Askable.{is_askable_script, AsksWhatIsBuilt, EndsByItself};

use field_types::lists::ListOf;
use field_types::names::Name;
use job_language::statements::Script;
use library_model::sources::Sources;
use std::alloc::{AllocError, Global};

/// The names of the jobs; job n has the n-th.
pub type Names = ListOf<Name>;

/// The scripts of the jobs in order.
pub type ScriptList = ListOf<Script>;

/// Numbers of jobs, from 1.
pub type JobNumbers = ListOf<u32>;

/// The order in which the jobs' calls are made.
#[derive(Drop)]
pub enum Schedule {
    /// One call of each job in the list; after that the jobs run to their ends in order.
    Jobs(JobNumbers),
    /// One call of each job in turn, until all have ended.
    RoundRobin,
}

impl Schedule {
    /// The same schedule, in memory of its own.
    pub fn copied(&self, alloc: Global) -> Result<Schedule, AllocError>
        ensures { IfOk result (λ schedule. schedule ≡ self.now) }
    {
        match self {
            Schedule::Jobs(turns) => {
                let turns = Vec::from_slice(alloc, turns.as_slice())?;
                Ok(Schedule::Jobs(JobNumbers::from_vec(turns)))
            }
            Schedule::RoundRobin => Ok(Schedule::RoundRobin),
        }
    }
}

/// What an input says.
#[derive(Drop)]
pub struct Scripts {
    pub sources: Sources,
    pub names: Names,
    /// The script of each job, as many as names.
    pub scripts: ScriptList,
    pub schedule: Schedule,
}

/// What a job asks whose statements may all be run.
pub fn askable_scripts_ask_what_is_built()
    ensures built { (script : ScriptValue) → IsTrue (is_askable_script script) → AsksWhatIsBuilt script }
    ensures ends { (script : ScriptValue) → IsTrue (is_askable_script script) → EndsByItself script }
{}
