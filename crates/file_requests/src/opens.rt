//! OPNDBF and CLOF.
ghost use Rattle.std.specs.Prelude.{◌≡◌, ◌<◌, ℕ, [], ◌∷◌, Some, length, true, IfOk, IsErrOf, IsTrue, OnOk};
ghost use Rattle.std.specs.Option.{is_some};
ghost use Rattle.logical_model.specs.Bases.{base_members};
ghost use Rattle.lawful_states.specs.Owners.{has_number};
ghost use Rattle.library_model.specs.Named.{named, same_name};
ghost use Rattle.library_model.specs.declared.replies.Reply.TheVariants.{NotJournaled};
ghost use Rattle.library_model.specs.declared.limits.TheConstants.{MOST_OPENS};
ghost use Rattle.library_steps.specs.State.{job_at, job_of, memory_of, open_named};
ghost use Rattle.library_steps.specs.History.{is_running};
ghost use Rattle.library_steps.specs.LogicalFiles.{bases_of};
ghost use Rattle.library_steps.specs.Opens.{close_file, first_unjournaled, logical_members, may_commit, may_commit_all, may_not, members_by, open_file, open_plan, physical_members};
ghost use Rattle.library_steps.specs.Records.{is_file_path};
ghost use Rattle.library_steps.specs.Refusals.{named_or_refused, refuse_with};
ghost use Rattle.library_parts.specs.Answers.{Allows, Answers, Gives, Shows};
ghost use Rattle.library_parts.specs.Finds.{OpensBy, OpensMembers};
ghost use Rattle.library_parts.specs.Indexed.{IsReadSo};
ghost use Rattle.library_parts.specs.Reads.{MayReadSo};
ghost use Rattle.library_parts.below.parts_model.specs.declared.stop.Stop.TheVariants.{NoMemory};
ghost use Rattle.file_requests.specs.Opens.{GivesMembers, file_plan, view_opens};
ghost use Rattle.library_steps.specs.WriteRecord.{is_input};

use dds_logical::LogicalSpec;
use field_types::lists::ListOf;
use field_types::names::Name;
use library_model::limits::MOST_OPENS;
use library_model::replies::{LimitKind, Reply};
use library_model::requests::{AccessPath, OpenFile, OpenName, OpenOption};
use library_parts::file_catalogue::{File, MemberStatus};
use library_parts::job_table::LAST_OPEN;
use library_parts::laws::effects_answer;
use library_parts::{Contents, Stop, holder_of, no_such_name, record_of};
use lock_table::Call;
use std::alloc::{AllocError, Global};

// ---- OPNDBF

/// Opens a file for a job over its members. A job that has had as many opens as are counted opens no more.
pub fn open_file(contents: &mut Contents, job: u32, args: &OpenFile) -> Result<Reply, Stop>
    requires running { IsTrue (is_running (job_at job contents.old.state.jobs)) }
    ensures answers { Answers contents.old.state contents.new.state result (open_file (memory_of contents.old.state) job args.now) }
{
    let members = plan_open(contents, job, args)?;
    let (_, opened) = contents.opens(job);
    if opened == LAST_OPEN {
        return Err(Stop::NoMemory);
    }
    let reads = contents.reads_for(args, members.as_slice())?;
    effects_answer();
    contents.add_open(job, args, members, reads);
    Ok(Reply::Done)
}

/// The members to open: a physical file's of that name, or those that a logical file is over.
fn plan_open(contents: &Contents, job: u32, args: &OpenFile) -> Result<ListOf<u32>, Stop>
    requires { IsTrue (is_running (job_at job contents.now.state.jobs)) }
    ensures plan { GivesMembers result (open_plan (memory_of contents.now.state) job args.now) }
    ensures few { OnOk result (length (job_of job (memory_of contents.now.state)).opens < MOST_OPENS) }
    ensures there { IfOk result (λ members. OpensMembers contents.now.state.files members (named args.now.file contents.now.state.files)) }
    ensures so { OnOk result (MayReadSo args.now (named args.now.file contents.now.state.files)) }
{
    let file = plan_file(contents, job, args)?;
    let members = members_to_open(contents, job, args, file)?;
    Ok(members)
}

#[tactic(auto, unfolding(crate::specs::Opens::file_plan))]
fn plan_file<'a>(contents: &'a Contents, job: u32, args: &OpenFile) -> Result<&'a File, Stop>
    requires { IsTrue (is_running (job_at job contents.now.state.jobs)) }
    ensures plan { Shows result (file_plan (memory_of contents.now.state) job args.now) }
    ensures few { OnOk result (length (job_of job (memory_of contents.now.state)).opens < MOST_OPENS) }
    ensures there { IfOk result (λ file. named args.now.file contents.now.state.files ≡ Some file.now) }
{
    if has_open(contents, job, &args.open_id) {
        return Err(Stop::Refused(Reply::NameExists { name: args.open_id }));
    }
    let (opens, _) = contents.opens(job);
    if opens >= MOST_OPENS {
        return Err(Stop::Refused(Reply::LimitReached {
            which: LimitKind::Opens,
            number: MOST_OPENS as u64,
        }));
    }
    let file = contents.file(&args.file)?;
    Ok(file)
}

/// The members of the file, by its kind.
fn members_to_open(
    contents: &Contents,
    job: u32,
    args: &OpenFile,
    file: &File,
) -> Result<ListOf<u32>, Stop>
    requires { IsTrue (is_running (job_at job contents.now.state.jobs)) }
    ensures plan { GivesMembers result (members_by file.now.spec (memory_of contents.now.state) job args.now file.now) }
    ensures opens { IfOk result (λ members. OpensBy contents.now.state.files members file.now file.now.spec) }
    ensures so { OnOk result (IsReadSo (is_file_path args.now.access_path) file.now.spec) }
{
    match file.logical() {
        Some(view) => view_members(contents, job, args, view),
        None => physical_members(contents, job, args, file),
    }
}

/// A physical file's member.
fn physical_members(
    contents: &Contents,
    job: u32,
    args: &OpenFile,
    file: &File,
) -> Result<ListOf<u32>, Stop>
    requires { IsTrue (is_running (job_at job contents.now.state.jobs)) }
    ensures plan { GivesMembers result (physical_members (memory_of contents.now.state) job args.now file.now) }
    ensures has { IfOk result (λ members. (number : ℕ) × (members ≡ number ∷ []) × (has_number number file.now.members ≡ true)) }
{
    let status = member_named(file, &args.member)?;
    may_commit(contents, job, args.commit, status)?;
    let members = one_member(contents.alloc(), status.number())?;
    Ok(members)
}

/// One member alone.
fn one_member(alloc: Global, number: u32) -> Result<ListOf<u32>, AllocError>
    ensures { IfOk result (λ members. members ≡ number ∷ []) }
{
    let mut members = ListOf::new(alloc);
    members.push(number)?;
    Ok(members)
}

fn member_named(file: &File, name: &Name) -> Result<MemberStatus, Stop>
    ensures { Gives result (named_or_refused name.now (named name.now file.now.members)) }
{
    match file.member(name) {
        Some(status) => Ok(status),
        None => Err(no_such_name(*name)),
    }
}

/// The members that a logical file is over. It has no member but that of its own name.
fn view_members(
    contents: &Contents,
    job: u32,
    args: &OpenFile,
    view: &LogicalSpec,
) -> Result<ListOf<u32>, Stop>
    requires { IsTrue (is_running (job_at job contents.now.state.jobs)) }
    ensures plan { GivesMembers result (logical_members (memory_of contents.now.state) job args.now view.now) }
    ensures over { IfOk result (λ members. base_members (bases_of (memory_of contents.now.state)) view.now ≡ members) }
    ensures by_path { OnOk result (IsTrue (is_file_path args.now.access_path)) }
{
    let members = contents.members_under(view)?;
    view_opens(contents, job, args, view, members.as_slice())?;
    Ok(members)
}

/// The refusal of an open of a logical file by another name, in a way in which it isn't read, or under commitment control that it can't have.
fn view_opens(
    contents: &Contents,
    job: u32,
    args: &OpenFile,
    view: &LogicalSpec,
    members: &[u32],
) -> Result<(), Stop>
    requires { IsTrue (is_running (job_at job contents.now.state.jobs)) }
    ensures allowed { Allows result (view_opens (memory_of contents.now.state) job args.now view.now members.now) }
    ensures by_path { OnOk result (IsTrue (is_file_path args.now.access_path)) }
{
    if !has_own_name(args) {
        return Err(no_such_name(args.member));
    }
    if may_not(view, args) {
        return Err(Stop::Refused(Reply::WrongOpen));
    }
    may_commit_all(contents, job, args.commit, members)?;
    Ok(())
}

/// It isn't read in arrival order; a join is read alone, and without commitment.
fn may_not(view: &LogicalSpec, args: &OpenFile) -> bool
    ensures { result ≡ may_not view.now args.now }
{
    match view {
        LogicalSpec::Simple(_) => !is_by_path(args),
        LogicalSpec::Multi(_) => !is_by_path(args),
        LogicalSpec::Join(_) => !is_by_path(args) || !is_input(args) || args.commit,
    }
}

fn is_input(args: &OpenFile) -> bool
    ensures { result ≡ is_input args.now.option }
{
    match args.option {
        OpenOption::Input => true,
        OpenOption::All => false,
    }
}

fn has_own_name(args: &OpenFile) -> bool
    ensures { result ≡ same_name args.now.member args.now.file }
{
    args.member == args.file
}

fn is_by_path(args: &OpenFile) -> bool
    ensures { result ≡ is_file_path args.now.access_path }
{
    match args.access_path {
        AccessPath::File => true,
        AccessPath::Arrival => false,
    }
}

fn has_open(contents: &Contents, job: u32, name: &Name) -> bool
    requires { IsTrue (is_running (job_at job contents.now.state.jobs)) }
    ensures { result ≡ is_some (open_named name.now job (memory_of contents.now.state)) }
{
    match contents.opened(job, name) {
        Ok(_) => true,
        Err(_) => false,
    }
}

/// The refusal of an open under commitment control where the job hasn't started it, or the member isn't journaled.
fn may_commit(contents: &Contents, job: u32, commit: bool, status: MemberStatus) -> Result<(), Stop>
    requires { IsTrue (is_running (job_at job contents.now.state.jobs)) }
    ensures { Allows result (may_commit commit status (job_of job (memory_of contents.now.state))) }
{
    if !commit {
        return Ok(());
    }
    if contents.level(job).is_none() {
        return Err(Stop::Refused(Reply::NoDefinition));
    }
    if status.images().is_none() {
        return Err(Stop::Refused(Reply::NotJournaled {
            member: status.number(),
        }));
    }
    Ok(())
}

/// The same for all members that a logical file is over.
fn may_commit_all(contents: &Contents, job: u32, commit: bool, members: &[u32]) -> Result<(), Stop>
    requires { IsTrue (is_running (job_at job contents.now.state.jobs)) }
    ensures { Allows result (may_commit_all commit members.now (job_of job (memory_of contents.now.state)) (memory_of contents.now.state)) }
{
    if !commit {
        return Ok(());
    }
    match contents.level(job) {
        Some(_) => are_journaled(contents, members),
        None => Err(Stop::Refused(Reply::NoDefinition)),
    }
}

/// The refusal of the first member that isn't journaled.
fn are_journaled(contents: &Contents, members: &[u32]) -> Result<(), Stop>
    ensures { Allows result (refuse_with NotJournaled (first_unjournaled members.now (memory_of contents.now.state))) }
{
    for member in members {
        if contents.images_of(*member).is_none() {
            return Err(Stop::Refused(Reply::NotJournaled { member: *member }));
        }
    }
    Ok(())
}

// ---- CLOF

/// Closes an open of the job. It takes no memory.
pub fn close_file(contents: &mut Contents, job: u32, args: &OpenName) -> Result<Reply, Stop>
    requires running { IsTrue (is_running (job_at job contents.old.state.jobs)) }
    ensures answers { Answers contents.old.state contents.new.state result (close_file (memory_of contents.old.state) job args.now) }
    ensures never_short { IsErrOf result NoMemory → ⊥ }
{
    let opened = contents.opened(job, &args.open_id)?;
    let here = opened.here();
    let level = contents.level_of(job, &here);
    let holder = holder_of(job, &here);
    let at = record_of(&here, 0);
    effects_answer();
    contents.free_for(Call::Close, level, holder, at);
    contents.remove_open(job, &args.open_id);
    Ok(Reply::Done)
}
