//! The scripts of an input's jobs, and the least line at fault among their statements.
ghost use Rattle.std.specs.Prelude.{◌≡◌, ◌≤◌, ◌<◌, ◌+◌, ◌^◌, true, None, [], ◌∷◌, ◌++◌, OnOk, IfOk, length, option_to_list};
ghost use Rattle.std.specs.List.{list_all};
ghost use Rattle.script_builder.specs.Least.{least, lesser};
ghost use Rattle.text_lines.specs.Lines.{lines_of};
ghost use Rattle.input_scripts.specs.Askable.{is_askable_script};
ghost use Rattle.input_cards.specs.SectionTexts.{part_in, parts_in};
ghost use Rattle.input_cards.specs.CardFaults.{job_name};
ghost use Rattle.job_statements.specs.Reading.{job_faults, job_script};
ghost use Rattle.input_reader.specs.Input.{faults_in, job_faults_in, script_in, scripts_in};

use input_cards::faults::lesser;
use input_cards::kinds::job_name;
use input_cards::limits::MOST_INPUT;
use input_cards::section::Section;
use input_scripts::ScriptList;
use job_statements::reading::read_script;
use script_builder::BuildError;
use std::alloc::{AllocError, Global};

/// What was read of some jobs.
#[derive(Drop)]
pub(crate) struct JobsRead {
    /// The scripts of the jobs without a fault.
    pub(crate) scripts: ScriptList,
    /// The least line at fault.
    pub(crate) fault: Option<u32>,
}

impl JobsRead {
    /// One job more, of which the lines begin with this number.
    fn read(&mut self, alloc: Global, text: &[u8], first: u32) -> Result<(), AllocError>
        requires { first + length (lines_of text.now) < 2 ^ 32 }
        ensures fault { OnOk result (self.new.fault ≡ lesser self.old.fault (least (job_faults first (lines_of text.now)))) }
        ensures script { OnOk result (self.new.fault ≡ None → self.new.scripts ≡ self.old.scripts ++ job_script first (lines_of text.now) ∷ []) }
        ensures askable { OnOk result (list_all is_askable_script self.old.scripts ≡ true → list_all is_askable_script self.new.scripts ≡ true) }
    {
        match read_script(alloc, text, first) {
            Ok(script) => self.scripts.push(script),
            Err(BuildError::NoMemory) => Err(AllocError),
            Err(BuildError::Fault { line }) => {
                self.fault = lesser(self.fault, Some(line));
                Ok(())
            }
        }
    }

    /// One section more.
    fn read_section(
        &mut self,
        alloc: Global,
        bytes: &[u8],
        section: &Section,
    ) -> Result<(), AllocError>
        requires { length bytes.now ≤ MOST_INPUT }
        ensures fault { OnOk result (self.new.fault ≡ lesser self.old.fault (least (faults_in (part_in bytes.now section.now) (job_name section.now.card)))) }
        ensures script { OnOk result (self.new.fault ≡ None → self.new.scripts ≡ self.old.scripts ++ option_to_list (script_in (part_in bytes.now section.now))) }
        ensures askable { OnOk result (list_all is_askable_script self.old.scripts ≡ true → list_all is_askable_script self.new.scripts ≡ true) }
    {
        match job_name(&section.card) {
            None => Ok(()),
            Some(_) => {
                self.read(alloc, section.text(bytes), section.line + 1)?;
                Ok(())
            }
        }
    }
}

/// The jobs of an input in order.
pub(crate) fn read_jobs(
    alloc: Global,
    bytes: &[u8],
    sections: &[Section],
) -> Result<JobsRead, AllocError>
    requires { length bytes.now ≤ MOST_INPUT }
    ensures fault { IfOk result (λ read. read.fault ≡ least (job_faults_in (parts_in bytes.now sections.now))) }
    ensures scripts { IfOk result (λ read. read.fault ≡ None → read.scripts ≡ scripts_in (parts_in bytes.now sections.now)) }
    ensures askable { IfOk result (λ read. list_all is_askable_script read.scripts ≡ true) }
{
    let mut read = JobsRead {
        scripts: ScriptList::new(alloc),
        fault: None,
    };
    for section in sections {
        read.read_section(alloc, bytes, section)?;
    }
    Ok(read)
}
