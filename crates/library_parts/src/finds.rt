//! What requests look up by names: opens, files, and the members of files.
ghost use Rattle.std.specs.Prelude.{◌≡◌, Some, IfOk, IsTrue, option_map};
ghost use Rattle.library_model.specs.declared.replies.Reply.TheVariants.{NoSuchName};
ghost use Rattle.library_model.specs.declared.replies.Missing.TheVariants as missing;
ghost use Rattle.library_steps.specs.State.{memory_of, job_at, file_named, open_named, physical_named};
ghost use Rattle.library_steps.specs.History.{is_running};
ghost use Rattle.library_steps.specs.Reads.{at_format};
ghost use Rattle.library_steps.specs.Refusals.{named_or_refused, opened_file, member_of_file, sequences_left};
ghost use Rattle.parts_model.specs.declared.stop.Stop.TheVariants.{Refused};
ghost use Rattle.parts_model.specs.Answers.{Shows, Allows};
ghost use Rattle.lawful_states.specs.Physical.{IsPhysical};
ghost use Rattle.parts_model.specs.Finds.{ShowsOpen, FindsOpen, FindsMember, IsFormatIn, ReadsMember};
ghost use Rattle.lawful_states.specs.Members.{HasMember};
ghost use Rattle.parts_model.specs.Indexed.{IsViewBeside};
ghost use Rattle.parts_model.specs.Opens.{AllOfNumber};
ghost use Rattle.library_model.specs.Named.{named};
ghost use Rattle.parts_model.specs.Reads.{ReadsAs, orders_in};

use crate::contents::Contents;
use entry_codec::FileKind;
use field_types::names::Name;
use library_model::replies::{LimitKind, Missing, Reply};
use library_steps::limits::LAST_SEQUENCE;
use parts_model::file_catalogue::{File, MemberStatus};
use parts_model::job_table::{Open, OpenAt};
use parts_model::{MemberFound, OpenFound, Stop};

impl Contents {
    /// The job's open of that name.
    pub fn opened(&self, job: u32, name: &Name) -> Result<&Open, Stop>
        requires { IsTrue (is_running (job_at job self.now.state.jobs)) }
        ensures shows { ShowsOpen result (named_or_refused name.now (open_named name.now job (memory_of self.now.state))) }
        ensures order { IfOk result (λ o. named name.now (orders_in job self.now) ≡ Some o.now.order) }
        ensures alone { IfOk result (λ o. AllOfNumber o.now.state.number (λ order. order ≡ o.now.order) (orders_in job self.now)) }
    {
        match self.jobs.open_named(job, name) {
            Some(opened) => Ok(opened),
            None => Err(no_such_name(*name)),
        }
    }

    /// The file of that name.
    pub fn file(&self, name: &Name) -> Result<&File, Stop>
        ensures { Shows result (named_or_refused name.now (file_named name.now (memory_of self.now.state))) }
    {
        match self.catalogue.named(name) {
            Some(file) => Ok(file),
            None => Err(no_such_name(*name)),
        }
    }

    /// The physical file of that name.
    pub fn physical_file(&self, name: &Name) -> Result<&File, Stop>
        ensures shows { Shows result (named_or_refused name.now (physical_named name.now (memory_of self.now.state))) }
        ensures physical { IfOk result (λ file. IsPhysical file.now.spec) }
    {
        let file = self.file(name)?;
        match file.kind() {
            FileKind::Physical => Ok(file),
            FileKind::Logical => Err(no_such_name(*name)),
        }
    }

    /// The job's open of that name, and its file.
    pub fn opened_file(&self, job: u32, name: &Name) -> Result<OpenFound<'_>, Stop>
        requires { IsTrue (is_running (job_at job self.now.state.jobs)) }
        ensures found { FindsOpen result (opened_file name.now job (memory_of self.now.state)) }
        ensures shows { IfOk result (λ its. open_named name.now job (memory_of self.now.state) ≡ Some its.opened.now.state) }
        ensures order { IfOk result (λ its. named name.now (orders_in job self.now) ≡ Some its.opened.now.order) }
        ensures there { IfOk result (λ its. ReadsMember self.now.state its.file.now its.opened.now.state) }
        ensures view { IfOk result (λ its. IsViewBeside self.now.state.files its.file.now.spec) }
        ensures reads { IfOk result (λ its. ReadsAs self.now its.opened.now its.file.now) }
        ensures alone { IfOk result (λ its. AllOfNumber its.opened.now.state.number (λ order. order ≡ its.opened.now.order) (orders_in job self.now)) }
    {
        // The file of each open is there, and has its members. Each open stands beside how it reads.
        let _jobs = self.jobs.len();
        let _files = self.catalogue.len();
        let opened = self.opened(job, name)?;
        let file = self.file(&opened.file())?;
        Ok(OpenFound { opened, file })
    }

    /// An open, where it is at one of the formats of its file.
    pub fn at_format<'a>(&self, opened: &'a Open, file: &File, format: u16) -> OpenAt<'a>
        requires there { ReadsMember self.now.state file.now opened.now.state }
        requires format { IsFormatIn file.now.spec format }
        ensures state { result.state ≡ at_format format opened.now.state }
        ensures order { result.order ≡ opened.now.order }
        ensures there { ReadsMember self.now.state file.now result.state }
    {
        // What the parts of a library need of each other holds.
        let _files = self.catalogue.len();
        let _jobs = self.jobs.len();
        opened.at(format)
    }

    /// The member of that name of the file of that name.
    pub fn member_of_file(&self, file: &Name, member: &Name) -> Result<MemberFound<'_>, Stop>
        ensures found { FindsMember result (member_of_file file.now member.now (memory_of self.now.state)) }
        ensures there { IfOk result (λ it. HasMember self.now.state file.now it.file.now it.status.number) }
    {
        // The members of each file are there.
        let _ = &self.alloc;
        let file = self.physical_file(file)?;
        match file.member(member) {
            Some(status) => Ok(MemberFound { file, status }),
            None => Err(no_such_name(*member)),
        }
    }

    /// The refusal where too few sequences are left for a request that deposits entries.
    pub fn sequences_left(&self) -> Result<(), Stop>
        ensures { Allows result (sequences_left (memory_of self.now.state)) }
    {
        let (_, last) = self.journal.bounds();
        if last > LAST_SEQUENCE {
            return Err(Stop::Refused(Reply::LimitReached {
                which: LimitKind::Sequences,
                number: LAST_SEQUENCE,
            }));
        }
        Ok(())
    }
}

/// The refusal of a name that isn't there.
pub fn no_such_name(name: Name) -> Stop
    ensures { result ≡ Refused (NoSuchName (missing.Name name)) }
{
    Stop::Refused(Reply::NoSuchName(Missing::Name(name)))
}
