//! ADDPFM, CLRPFM and RGZPFM.
ghost use Rattle.std.specs.Prelude.{◌≡◌, ◌+◌, ◌≤◌, None, Some, [], ◌∷◌, length, IfOk, IsSome, IsTrue, OnErr, OnOk};
ghost use Rattle.std.specs.Option.{is_some};
ghost use Rattle.memory_journal.specs.declared.journal.TheConstants.{LAST_BEFORE_DEPOSIT};
ghost use Rattle.member_slots.specs.Members.{member_at};
ghost use Rattle.library_model.specs.Named.{named};
ghost use Rattle.library_steps.specs.declared.limits.TheConstants.{LAST_SEQUENCE};
ghost use Rattle.library_steps.specs.State.{FileState, job_at, memory_of, physical_among, physical_named};
ghost use Rattle.library_steps.specs.Refusals.{named_or_refused};
ghost use Rattle.library_steps.specs.History.{is_running};
ghost use Rattle.library_steps.specs.Change.{does};
ghost use Rattle.library_steps.specs.Drafts.{member_draft};
ghost use Rattle.library_steps.specs.MemberCommands.{add_member, add_plan, clear_member, empty_plan, if_journaled, member_added, renumbering, reorganize_member, with_slots};
ghost use Rattle.library_steps.specs.Uses.{user_of};
ghost use Rattle.library_parts.specs.Answers.{Answers, Gives, Shows};
ghost use Rattle.library_parts.specs.Files.{IsNewMember};
ghost use Rattle.library_parts.specs.Moved.{AreRemade};
ghost use Rattle.library_parts.specs.Rooms.{HasMemberRoom};
ghost use Rattle.file_requests.specs.Effects.{Deposits};
ghost use Rattle.file_requests.specs.Members.{kind_of, renumbering_of, slots_after};

use entry_codec::{Draft, EntryKind};
use field_types::names::Name;
use library_model::limits::LAST_MEMBER;
use library_model::replies::{LimitKind, Reply};
use library_model::requests::FileMember;
use library_parts::file_catalogue::{File, MemberStatus};
use library_parts::{
    Author, Contents, MemberFound, Stop, deposit_all, may_deposit, reserve_all, with_room,
};
use library_steps::limits::MOST_MEMBERS;
use path_set::rebuilding::Rebuilt;
use std::alloc::AllocError;

/// How a member's records lose their numbers.
#[derive(Clone, Copy)]
enum Renumbering {
    /// All slots go.
    Clear,
    /// The deleted slots go.
    Reorganize,
}

// ---- ADDPFM

/// Adds a member to a file.
pub fn add_member(
    contents: &mut Contents,
    job: u32,
    timestamp: u64,
    args: &FileMember,
) -> Result<Reply, Stop>
    requires running { IsTrue (is_running (job_at job contents.old.state.jobs)) }
    ensures answers { Answers contents.old.state contents.new.state result (add_member (memory_of contents.old.state) job timestamp args.now) }
{
    let _file = plan_add(contents, args)?;
    let (_, number) = contents.counts();
    let author = Author::of(contents, job, timestamp);
    let kind = EntryKind::MemberAdded {
        file: args.file,
        name: args.member,
    };
    let draft = with_room(contents, author.member_draft(number, kind))?;
    contents.reserve_member()?;
    apply_add(contents, args, draft)?;
    Ok(Reply::Done)
}

#[tactic(auto, unfolding(library_steps::specs::MemberCommands::add_plan))]
fn plan_add<'a>(contents: &'a Contents, args: &FileMember) -> Result<&'a File, Stop>
    ensures plan { Shows result (add_plan (memory_of contents.now.state) args.now) }
    ensures there { IfOk result (λ file. named args.now.file contents.now.state.files ≡ Some file.now) }
    ensures new { OnOk result (IsNewMember contents.now.state args.now) }
    ensures left { OnOk result ((memory_of contents.now.state).last_entry ≤ LAST_SEQUENCE) }
{
    may_deposit(contents)?;
    let file = physical_file(contents, &args.file)?;
    if file.member(&args.member).is_some() {
        return Err(Stop::Refused(Reply::NameExists { name: args.member }));
    }
    if file.members().len() >= MOST_MEMBERS {
        return Err(Stop::Refused(Reply::LimitReached {
            which: LimitKind::Members,
            number: MOST_MEMBERS as u64,
        }));
    }
    let (_, next_member) = contents.counts();
    if next_member > LAST_MEMBER {
        return Err(Stop::Refused(Reply::LimitReached {
            which: LimitKind::MemberNumbers,
            number: u64::from(LAST_MEMBER),
        }));
    }
    Ok(file)
}

/// The physical file of that name.
fn physical_file<'a>(contents: &'a Contents, name: &Name) -> Result<&'a File, Stop>
    ensures found { Shows result (named_or_refused name.now (physical_named name.now (memory_of contents.now.state))) }
    ensures there { IfOk result (λ file. named name.now contents.now.state.files ≡ Some file.now) }
    ensures among { IfOk result (λ file. physical_among name.now contents.now.state.files ≡ Some file.now) }
{
    contents.physical_file(name)
}

/// The member with its path is there, and the entry that tells of it, or there was no memory for the path.
fn apply_add(contents: &mut Contents, args: &FileMember, draft: Draft) -> Result<(), AllocError>
    requires new { IsNewMember contents.old.state args.now }
    requires member_room { HasMemberRoom contents.old.room }
    requires entry_room { 1 ≤ contents.old.room.entries }
    requires left { (memory_of contents.old.state).last_entry ≤ LAST_SEQUENCE }
    ensures added { OnOk result ((file : FileState) → named args.now.file contents.old.state.files ≡ Some file → Deposits contents.old.state contents.new.state (draft ∷ []) (member_added args.now file)) }
    ensures unchanged { OnErr result (contents.new.state ≡ contents.old.state) }
{
    contents.add_member(args)?;
    let _sequence = contents.deposit(draft);
    Ok(())
}

// ---- CLRPFM and RGZPFM

/// Removes all records of a member.
pub fn clear_member(
    contents: &mut Contents,
    job: u32,
    timestamp: u64,
    args: &FileMember,
) -> Result<Reply, Stop>
    requires running { IsTrue (is_running (job_at job contents.old.state.jobs)) }
    ensures answers { Answers contents.old.state contents.new.state result (clear_member (memory_of contents.old.state) job timestamp args.now) }
{
    renumber_member(contents, job, timestamp, args, Renumbering::Clear)
}

/// Removes the deleted places of a member.
pub fn reorganize_member(
    contents: &mut Contents,
    job: u32,
    timestamp: u64,
    args: &FileMember,
) -> Result<Reply, Stop>
    requires running { IsTrue (is_running (job_at job contents.old.state.jobs)) }
    ensures answers { Answers contents.old.state contents.new.state result (reorganize_member (memory_of contents.old.state) job timestamp args.now) }
{
    renumber_member(contents, job, timestamp, args, Renumbering::Reorganize)
}

fn renumber_member(
    contents: &mut Contents,
    job: u32,
    timestamp: u64,
    args: &FileMember,
    way: Renumbering,
) -> Result<Reply, Stop>
    requires running { IsTrue (is_running (job_at job contents.old.state.jobs)) }
    ensures { Answers contents.old.state contents.new.state result (does (renumbering (memory_of contents.old.state) job timestamp (kind_of way) (slots_after way)) (empty_plan (memory_of contents.old.state) args.now)) }
{
    let status = plan_member(contents, &args.file, &args.member)?;
    let author = Author::of(contents, job, timestamp);
    let drafts = prepare_renumbering(contents, &author, status, way)?;
    let number = status.number();
    let paths = paths_after(contents, number, way)?;
    apply_renumbering(contents, number, way, drafts, paths);
    Ok(Reply::Done)
}

/// The member that the names tell, which no job uses.
#[tactic(auto, unfolding(library_steps::specs::MemberCommands::empty_plan))]
pub(crate) fn plan_member(
    contents: &Contents,
    file: &Name,
    member: &Name,
) -> Result<MemberStatus, Stop>
    ensures plan { Gives result (empty_plan (memory_of contents.now.state) (record { file = file.now; member = member.now })) }
    ensures there { IfOk result (λ status. IsSome (member_at status.number contents.now.state.members)) }
    ensures unused { IfOk result (λ status. user_of status.number (memory_of contents.now.state) ≡ None) }
    ensures left { OnOk result ((memory_of contents.now.state).last_entry ≤ LAST_SEQUENCE) }
{
    may_deposit(contents)?;
    let MemberFound { file: _, status } = contents.member_of_file(file, member)?;
    if let Some(job) = contents.user_of(status.number()) {
        return Err(Stop::Refused(Reply::InUse { job }));
    }
    Ok(status)
}

/// The entry that tells of it, where the member is journaled, and room for that.
fn prepare_renumbering(
    contents: &mut Contents,
    author: &Author,
    status: MemberStatus,
    way: Renumbering,
) -> Result<Vec<Draft>, AllocError>
    ensures state { contents.new.state ≡ contents.old.state }
    ensures drafts { IfOk result (λ drafts. drafts.items ≡ if_journaled (is_some status.images) (member_draft author.now status.number (kind_of way))) }
    ensures room { IfOk result (λ drafts. length drafts.items ≤ contents.new.room.entries) }
{
    let mut drafts = Vec::new(contents.alloc());
    if status.images().is_some() {
        drafts.push(author.member_draft(status.number(), kind_of(way)))?;
    }
    reserve_all(contents, drafts.as_slice())?;
    Ok(drafts)
}

fn kind_of(way: Renumbering) -> EntryKind
    ensures { result ≡ kind_of way }
{
    match way {
        Renumbering::Clear => EntryKind::MemberCleared,
        Renumbering::Reorganize => EntryKind::MemberReorganized,
    }
}

/// The paths of the member as they will be.
fn paths_after(contents: &Contents, member: u32, way: Renumbering) -> Result<Rebuilt, AllocError>
    requires { IsSome (member_at member contents.now.state.members) }
    ensures { IfOk result (AreRemade contents.now member (slots_after way)) }
{
    match way {
        Renumbering::Clear => contents.paths_cleared(member),
        Renumbering::Reorganize => contents.paths_reorganized(member),
    }
}

fn apply_renumbering(
    contents: &mut Contents,
    member: u32,
    way: Renumbering,
    drafts: Vec<Draft>,
    paths: Rebuilt,
)
    requires there { IsSome (member_at member contents.old.state.members) }
    requires unused { user_of member (memory_of contents.old.state) ≡ None }
    requires room { length drafts.items ≤ contents.old.room.entries }
    requires left { (memory_of contents.old.state).last_entry + length drafts.items + 1 ≤ LAST_BEFORE_DEPOSIT }
    requires paths { AreRemade contents.old member (slots_after way) paths }
    ensures { Deposits contents.old.state contents.new.state drafts.items (renumbering_of way member) }
{
    let (_, last) = contents.bounds();
    change_slots(contents, member, way, paths);
    contents.renumber(member, last + 1);
    deposit_all(contents, drafts);
}

fn change_slots(contents: &mut Contents, member: u32, way: Renumbering, paths: Rebuilt)
    requires there { IsSome (member_at member contents.old.state.members) }
    requires unused { user_of member (memory_of contents.old.state) ≡ None }
    requires paths { AreRemade contents.old member (slots_after way) paths }
    ensures memory { memory_of contents.new.state ≡ with_slots member (slots_after way) (memory_of contents.old.state) }
    ensures entries { contents.new.state.entries ≡ contents.old.state.entries }
    ensures room { contents.new.room.entries ≡ contents.old.room.entries }
{
    match way {
        Renumbering::Clear => contents.clear(member, paths),
        Renumbering::Reorganize => contents.reorganize(member, paths),
    }
}
