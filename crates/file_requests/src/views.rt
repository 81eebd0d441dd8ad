//! CRTLF.
ghost use Rattle.std.specs.Prelude.{◌≡◌, ◌≤◌, None, [], ◌∷◌, Ok, IfOk, IsTrue, OnErr, OnOk, if◌then◌else◌};
ghost use Rattle.logical_model.specs.Bases.{Bases, base_members};
ghost use Rattle.logical_model.specs.FilePaths.{logical_paths};
ghost use Rattle.library_model.specs.Named.{named};
ghost use Rattle.library_steps.specs.declared.limits.TheConstants.{LAST_SEQUENCE};
ghost use Rattle.library_steps.specs.State.{job_at, memory_of};
ghost use Rattle.library_steps.specs.History.{is_running};
ghost use Rattle.library_steps.specs.CreateLogicalFile.{create_logical_file, first_undone, has_undone, is_unique, logical_described, undone_number, with_logical};
ghost use Rattle.library_steps.specs.LogicalFiles.{bases_of};
ghost use Rattle.library_steps.specs.Uses.{changer_of_any};
ghost use Rattle.library_parts.specs.Answers.{Allows, Answers, Gives, MayAllow};
ghost use Rattle.library_parts.specs.Files.{IsNewView};
ghost use Rattle.library_parts.specs.Rooms.{HasFileRoom};
ghost use Rattle.file_requests.specs.Effects.{Deposits};
ghost use Rattle.file_requests.specs.Views.{PlansView, allowed_by, done, keys_differ, may_stand, view_allowed, view_draft, view_named, view_of, view_plan};

use crate::create::has_file;
use dds_logical::{LogicalFault, LogicalSpec};
use entry_codec::{Draft, EntryKind, FileKind};
use field_types::names::Name;
use field_types::texts::SourceText;
use library_model::limits::MOST_FILES;
use library_model::replies::{LimitKind, Reply};
use library_model::requests::CreateLogicalFile;
use library_model::sources::Sources;
use library_parts::file_catalogue::{DescribedView, MemberStatus};
use library_parts::{Author, Contents, Stop, may_deposit, no_such_name, with_room};
use library_steps::limits::MOST_PATHS;
use std::alloc::AllocError;

/// A logical file that is to be added, and the entry that tells of it.
#[derive(Drop)]
struct NewView {
    described: DescribedView,
    draft: Draft,
}

/// Makes a logical file.
pub fn create_logical_file(
    contents: &mut Contents,
    job: u32,
    timestamp: u64,
    sources: &Sources,
    args: &CreateLogicalFile,
) -> Result<Reply, Stop>
    requires running { IsTrue (is_running (job_at job contents.old.state.jobs)) }
    ensures answers { Answers contents.old.state contents.new.state result (create_logical_file sources.now (memory_of contents.old.state) job timestamp args.now) }
{
    let described = plan_view(contents, sources, args)?;
    let new = prepare_view(contents, job, timestamp, args, described)?;
    let added = apply_view(contents, args, new);
    done(added)
}

/// It is done, or stopped.
fn done(added: Result<(), Stop>) -> Result<Reply, Stop>
    ensures { result ≡ done added }
{
    match added {
        Ok(()) => Ok(Reply::Done),
        Err(stop) => Err(stop),
    }
}

// ---- the plan

/// The file that the source describes, which only equal keys may still refuse.
fn plan_view(
    contents: &Contents,
    sources: &Sources,
    args: &CreateLogicalFile,
) -> Result<DescribedView, Stop>
    ensures plan { PlansView sources.now (memory_of contents.now.state) args.now result }
    ensures new { IfOk result (λ described. IsNewView contents.now.state args.now.file described) }
    ensures left { OnOk result ((memory_of contents.now.state).last_entry ≤ LAST_SEQUENCE) }
{
    plan_but_keys(contents, sources, args)
}

#[tactic(auto, unfolding(crate::specs::Views::view_plan))]
fn plan_but_keys(
    contents: &Contents,
    sources: &Sources,
    args: &CreateLogicalFile,
) -> Result<DescribedView, Stop>
    ensures plan { Gives result (view_plan sources.now (memory_of contents.now.state) args.now) }
    ensures absent { OnOk result (named args.now.file contents.now.state.files ≡ None) }
    ensures described { IfOk result (λ described. logical_described (memory_of contents.now.state) described.source ≡ Ok described.spec) }
    ensures unchanged { IfOk result (λ described. changer_of_any (base_members (bases_of (memory_of contents.now.state)) described.spec) (memory_of contents.now.state) ≡ None) }
    ensures left { OnOk result ((memory_of contents.now.state).last_entry ≤ LAST_SEQUENCE) }
{
    may_deposit(contents)?;
    may_be_named(contents, &args.file)?;
    let described = view_named(contents, sources, &args.source)?;
    described_may_stand(contents, &described)?;
    Ok(described)
}

/// The refusal where a file has the name, or there are too many files.
fn may_be_named(contents: &Contents, name: &Name) -> Result<(), Stop>
    ensures allowed { Allows result (view_allowed name.now (memory_of contents.now.state)) }
    ensures absent { OnOk result (named name.now contents.now.state.files ≡ None) }
{
    if has_file(contents, name) {
        return Err(Stop::Refused(Reply::NameExists { name: *name }));
    }
    let (files, _) = contents.counts();
    if files >= MOST_FILES {
        return Err(Stop::Refused(Reply::LimitReached {
            which: LimitKind::Files,
            number: MOST_FILES as u64,
        }));
    }
    Ok(())
}

/// What the source of that name describes.
fn view_named(contents: &Contents, sources: &Sources, source: &Name) -> Result<DescribedView, Stop>
    ensures plan { Gives result (view_named sources.now (memory_of contents.now.state) source.now) }
    ensures described { IfOk result (λ described. logical_described (memory_of contents.now.state) described.source ≡ Ok described.spec) }
{
    view_read(contents, sources, source)
}

#[tactic(auto, unfolding(crate::specs::Views::view_named))]
fn view_read(contents: &Contents, sources: &Sources, source: &Name) -> Result<DescribedView, Stop>
    ensures { Gives result (view_named sources.now (memory_of contents.now.state) source.now) }
{
    match sources.text(source) {
        Some(text) => describe_view(contents, text),
        None => Err(no_such_name(*source)),
    }
}

/// What the text describes, or its first fault.
fn describe_view(contents: &Contents, text: &SourceText) -> Result<DescribedView, Stop>
    ensures { Gives result (view_of (memory_of contents.now.state) text.now) }
{
    match contents.describe_view(text) {
        Ok(described) => Ok(described),
        Err(LogicalFault::NoMemory) => Err(Stop::NoMemory),
        Err(LogicalFault::Fault(fault)) => Err(Stop::Refused(Reply::DdsFault(fault))),
    }
}

/// The same refusals of what was described.
fn described_may_stand(contents: &Contents, described: &DescribedView) -> Result<(), Stop>
    ensures allowed { MayAllow result (may_stand (memory_of contents.now.state) described.now.spec) }
    ensures unchanged { OnOk result (changer_of_any (base_members (bases_of (memory_of contents.now.state)) described.now.spec) (memory_of contents.now.state) ≡ None) }
{
    may_stand(contents, described.spec())
}

/// The refusal where one of its bases would have too many paths, an open commit cycle has changed a record of it, or a restart might bring
/// equal keys back that may not be.
fn may_stand(contents: &Contents, view: &LogicalSpec) -> Result<(), Stop>
    ensures allowed { MayAllow result (may_stand (memory_of contents.now.state) view.now) }
    ensures unchanged { OnOk result (changer_of_any (base_members (bases_of (memory_of contents.now.state)) view.now) (memory_of contents.now.state) ≡ None) }
{
    let many = contents.has_many_paths(view)?;
    let changer = contents.changer_under(view);
    let undone = undone_under(contents, view)?;
    allowed_by(many, changer, undone)
}

/// The first refusal of these: too many paths, a job that has changed a record, a member that was changed and isn't journaled.
fn allowed_by(many: bool, changer: Option<u32>, undone: Option<u32>) -> Result<(), Stop>
    ensures allowed { Allows result (allowed_by many changer undone) }
    ensures unchanged { OnOk result (changer ≡ None) }
{
    if many {
        return Err(Stop::Refused(Reply::LimitReached {
            which: LimitKind::Paths,
            number: MOST_PATHS as u64,
        }));
    }
    if let Some(job) = changer {
        return Err(Stop::Refused(Reply::InUse { job }));
    }
    if let Some(member) = undone {
        return Err(Stop::Refused(Reply::NotJournaled { member }));
    }
    Ok(())
}

/// The member under a UNIQUE file that isn't journaled, and was changed since it was, with two records or more then: of a join the
/// primary's. A file of several formats isn't unique.
fn undone_under(contents: &Contents, view: &LogicalSpec) -> Result<Option<u32>, AllocError>
    ensures { IfOk result (λ undone. undone ≡ (if is_unique (logical_paths (bases_of (memory_of contents.now.state)) view.now) then first_undone (memory_of contents.now.state) (base_members (bases_of (memory_of contents.now.state)) view.now) else None)) }
{
    let members = contents.members_under(view)?;
    let undone = first_undone(contents, members.as_slice());
    Ok(undone_if(is_unique(view), undone))
}

/// The first of the members, where it isn't journaled, and was changed since it was, with two records or more then.
fn first_undone(contents: &Contents, members: &[u32]) -> Option<u32>
    ensures { result ≡ first_undone (memory_of contents.now.state) members.now }
{
    match members {
        [] => None,
        [member, ..] => undone_number(contents, *member),
    }
}

fn undone_if(unique: bool, undone: Option<u32>) -> Option<u32>
    ensures { result ≡ (if unique then undone else None) }
{
    if unique { undone } else { None }
}

/// Whether its path may have no equal keys.
fn is_unique(view: &LogicalSpec) -> bool
    ensures { (bases : Bases) → result ≡ is_unique (logical_paths bases view.now) }
{
    match view {
        LogicalSpec::Simple(view) => view.keys.unique,
        LogicalSpec::Multi(_) => false,
        LogicalSpec::Join(view) => view.keys.unique,
    }
}

/// The member's number, where a restart may bring equal keys back.
fn undone_number(contents: &Contents, member: u32) -> Option<u32>
    ensures { result ≡ undone_number (memory_of contents.now.state) member }
{
    match contents.status(member) {
        Some(status) => undone_if(has_undone(status), Some(status.number())),
        None => None,
    }
}

/// It isn't journaled, was changed since it was, and had two records or more then.
fn has_undone(status: MemberStatus) -> bool
    ensures { result ≡ has_undone status }
{
    status.images().is_none() && status.changed() && status.records_then() >= 2
}

// ---- what takes memory

fn prepare_view(
    contents: &mut Contents,
    job: u32,
    timestamp: u64,
    args: &CreateLogicalFile,
    described: DescribedView,
) -> Result<NewView, AllocError>
    requires running { IsTrue (is_running (job_at job contents.old.state.jobs)) }
    ensures state { contents.new.state ≡ contents.old.state }
    ensures file { IfOk result (λ new. new.described ≡ described) }
    ensures draft { IfOk result (λ new. new.draft ≡ view_draft (memory_of contents.old.state) job timestamp args.now.file described.source) }
    ensures file_room { OnOk result (HasFileRoom contents.new.room) }
    ensures entry_room { OnOk result (1 ≤ contents.new.room.entries) }
{
    let kind = EntryKind::FileCreated {
        kind: FileKind::Logical,
        name: args.file,
        source: described.source().copied(contents.alloc())?,
    };
    let author = Author::of(contents, job, timestamp);
    let draft = with_room(contents, author.library_draft(kind))?;
    contents.reserve_file()?;
    Ok(NewView { described, draft })
}

// ---- the effect

/// The file with its path is there, and the entry that tells of it. Or two records would have one key, or there was no memory for the path.
fn apply_view(contents: &mut Contents, args: &CreateLogicalFile, new: NewView) -> Result<(), Stop>
    requires new { IsNewView contents.old.state args.now.file new.described }
    requires file_room { HasFileRoom contents.old.room }
    requires entry_room { 1 ≤ contents.old.room.entries }
    requires left { (memory_of contents.old.state).last_entry ≤ LAST_SEQUENCE }
    ensures apart { MayAllow result (keys_differ args.now.file new.described (memory_of contents.old.state)) }
    ensures added { OnOk result (Deposits contents.old.state contents.new.state (new.draft ∷ []) (with_logical args.now.file new.described)) }
    ensures unchanged { OnErr result (contents.new.state ≡ contents.old.state) }
{
    let NewView { described, draft } = new;
    contents.add_view(args.file, described)?;
    let _sequence = contents.deposit(draft);
    Ok(())
}
