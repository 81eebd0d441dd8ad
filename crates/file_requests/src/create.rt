//! CRTPF.
ghost use Rattle.std.specs.Prelude.{◌≡◌, ◌≤◌, None, [], ◌∷◌, IfOk, IsTrue, OnErr, OnOk};
ghost use Rattle.std.specs.Option.{is_some};
ghost use Rattle.library_model.specs.Named.{named};
ghost use Rattle.library_model.specs.declared.limits.TheConstants.{LAST_MEMBER};
ghost use Rattle.library_steps.specs.declared.limits.TheConstants.{LAST_SEQUENCE};
ghost use Rattle.library_steps.specs.State.{file_named, job_at, memory_of};
ghost use Rattle.library_steps.specs.History.{is_running};
ghost use Rattle.library_steps.specs.CreatePhysicalFile.{create_physical_file, create_plan, formats_of, new_file, with_file};
ghost use Rattle.library_parts.specs.Answers.{Allows, Answers, Gives};
ghost use Rattle.library_parts.specs.Files.{IsNewFile};
ghost use Rattle.library_parts.specs.Rooms.{HasFileRoom};
ghost use Rattle.file_requests.specs.Effects.{Deposits};
ghost use Rattle.file_requests.specs.Sources.{created_draft, file_allowed, file_of};

use dds_physical::PhysicalError;
use entry_codec::{Draft, EntryKind, FileKind};
use field_types::names::Name;
use field_types::texts::SourceText;
use library_model::limits::{LAST_MEMBER, MOST_FILES};
use library_model::replies::{LimitKind, Reply};
use library_model::requests::CreatePhysicalFile;
use library_model::sources::Sources;
use library_parts::file_catalogue::{Described, File};
use library_parts::{Author, Contents, Stop, may_deposit, no_such_name, with_room};
use std::alloc::AllocError;

/// A file that is to be added, and the entry that tells of it.
#[derive(Drop)]
struct NewFile {
    file: File,
    draft: Draft,
}

/// Makes a physical file and its first member.
pub fn create_physical_file(
    contents: &mut Contents,
    job: u32,
    timestamp: u64,
    sources: &Sources,
    args: &CreatePhysicalFile,
) -> Result<Reply, Stop>
    requires running { IsTrue (is_running (job_at job contents.old.state.jobs)) }
    ensures answers { Answers contents.old.state contents.new.state result (create_physical_file sources.now (memory_of contents.old.state) job timestamp args.now) }
{
    let described = plan_create(contents, sources, args)?;
    let new = prepare_create(contents, job, timestamp, args, described)?;
    apply_create(contents, args, new)?;
    Ok(Reply::Done)
}

#[tactic(auto, unfolding(library_steps::specs::CreatePhysicalFile::create_plan))]
fn plan_create(
    contents: &Contents,
    sources: &Sources,
    args: &CreatePhysicalFile,
) -> Result<Described, Stop>
    ensures plan { Gives result (create_plan sources.now (memory_of contents.now.state) args.now) }
    ensures absent { OnOk result (named args.now.file contents.now.state.files ≡ None) }
    ensures number { OnOk result (contents.now.state.next_member ≤ LAST_MEMBER) }
    ensures left { OnOk result ((memory_of contents.now.state).last_entry ≤ LAST_SEQUENCE) }
{
    may_deposit(contents)?;
    may_add(contents, &args.file)?;
    match sources.text(&args.source) {
        Some(text) => describe(contents, text),
        None => Err(no_such_name(args.source)),
    }
}

/// The refusal where a file has the name, or there are too many files or members.
fn may_add(contents: &Contents, name: &Name) -> Result<(), Stop>
    ensures allowed { Allows result (file_allowed name.now (memory_of contents.now.state)) }
    ensures absent { OnOk result (named name.now contents.now.state.files ≡ None) }
    ensures number { OnOk result (contents.now.state.next_member ≤ LAST_MEMBER) }
{
    if has_file(contents, name) {
        return Err(Stop::Refused(Reply::NameExists { name: *name }));
    }
    let (files, next_member) = contents.counts();
    if files >= MOST_FILES {
        return Err(Stop::Refused(Reply::LimitReached {
            which: LimitKind::Files,
            number: MOST_FILES as u64,
        }));
    }
    if next_member > LAST_MEMBER {
        return Err(Stop::Refused(Reply::LimitReached {
            which: LimitKind::MemberNumbers,
            number: u64::from(LAST_MEMBER),
        }));
    }
    Ok(())
}

pub(crate) fn has_file(contents: &Contents, name: &Name) -> bool
    ensures { result ≡ is_some (file_named name.now (memory_of contents.now.state)) }
{
    match contents.file(name) {
        Ok(_) => true,
        Err(_) => false,
    }
}

/// What the source describes, or its first fault.
fn describe(contents: &Contents, text: &SourceText) -> Result<Described, Stop>
    ensures { Gives result (file_of (formats_of (memory_of contents.now.state)) text.now) }
{
    match contents.describe(text) {
        Ok(described) => Ok(described),
        Err(PhysicalError::NoMemory) => Err(Stop::NoMemory),
        Err(PhysicalError::Fault(fault)) => Err(Stop::Refused(Reply::DdsFault(fault))),
    }
}

fn prepare_create(
    contents: &mut Contents,
    job: u32,
    timestamp: u64,
    args: &CreatePhysicalFile,
    described: Described,
) -> Result<NewFile, AllocError>
    requires running { IsTrue (is_running (job_at job contents.old.state.jobs)) }
    ensures state { contents.new.state ≡ contents.old.state }
    ensures file { IfOk result (λ new. new.file ≡ new_file args.now.file contents.old.state.next_member described) }
    ensures draft { IfOk result (λ new. new.draft ≡ created_draft (memory_of contents.old.state) job timestamp args.now.file described.source) }
    ensures file_room { OnOk result (HasFileRoom contents.new.room) }
    ensures entry_room { OnOk result (1 ≤ contents.new.room.entries) }
{
    let (_, number) = contents.counts();
    let kind = EntryKind::FileCreated {
        kind: FileKind::Physical,
        name: args.file,
        source: described.source().copied(contents.alloc())?,
    };
    let author = Author::of(contents, job, timestamp);
    let draft = with_room(contents, author.member_draft(number, kind))?;
    contents.reserve_file()?;
    let file = File::new(contents.alloc(), described, args.file, number)?;
    Ok(NewFile { file, draft })
}

/// The file with its path is there, and the entry that tells of it, or there was no memory for the path.
fn apply_create(
    contents: &mut Contents,
    args: &CreatePhysicalFile,
    new: NewFile,
) -> Result<(), AllocError>
    requires new { IsNewFile contents.old.state args.now.file new.file }
    requires file_room { HasFileRoom contents.old.room }
    requires entry_room { 1 ≤ contents.old.room.entries }
    requires left { (memory_of contents.old.state).last_entry ≤ LAST_SEQUENCE }
    ensures added { OnOk result (Deposits contents.old.state contents.new.state (new.draft ∷ []) (with_file args.now.file new.file)) }
    ensures unchanged { OnErr result (contents.new.state ≡ contents.old.state) }
{
    let NewFile { file, draft } = new;
    contents.add_file(args.file, file)?;
    let _sequence = contents.deposit(draft);
    Ok(())
}
