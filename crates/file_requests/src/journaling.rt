//! STRJRNPF and ENDJRNPF.
ghost use Rattle.std.specs.Prelude.{◌+◌, ◌≤◌, [], ◌∷◌, length, IsTrue, OnOk};
ghost use Rattle.memory_journal.specs.declared.journal.TheConstants.{LAST_BEFORE_DEPOSIT};
ghost use Rattle.library_steps.specs.declared.limits.TheConstants.{LAST_SEQUENCE};
ghost use Rattle.library_steps.specs.State.{job_at, memory_of};
ghost use Rattle.library_steps.specs.History.{is_running};
ghost use Rattle.library_steps.specs.Journaling.{end_journaling, end_plan, start_journaling, start_plan};
ghost use Rattle.library_parts.specs.Answers.{Answers, Gives};
ghost use Rattle.file_requests.specs.Effects.{Deposits};
ghost use Rattle.file_requests.specs.Records.{journaling_ended, journaling_started};

use crate::member_commands::plan_member;
use crate::records::{drafts_of_start, record_count};
use entry_codec::{Draft, EntryKind, Images};
use library_model::replies::Reply;
use library_model::requests::{FileMember, StartJournaling};
use library_parts::file_catalogue::MemberStatus;
use library_parts::{Author, Contents, Stop, deposit_all, reserve_all, with_room};

// ---- STRJRNPF

/// Begins to journal a member.
pub fn start_journaling(
    contents: &mut Contents,
    job: u32,
    timestamp: u64,
    args: &StartJournaling,
) -> Result<Reply, Stop>
    requires running { IsTrue (is_running (job_at job contents.old.state.jobs)) }
    ensures answers { Answers contents.old.state contents.new.state result (start_journaling (memory_of contents.old.state) job timestamp args.now) }
{
    let status = plan_start(contents, args)?;
    let author = Author::of(contents, job, timestamp);
    let drafts = drafts_of_start(contents, &author, args.images, status.number())?;
    reserve_all(contents, drafts.as_slice())?;
    apply_start(contents, status.number(), args.images, drafts);
    Ok(Reply::Done)
}

fn plan_start(contents: &Contents, args: &StartJournaling) -> Result<MemberStatus, Stop>
    ensures plan { Gives result (start_plan (memory_of contents.now.state) args.now) }
    ensures left { OnOk result ((memory_of contents.now.state).last_entry ≤ LAST_SEQUENCE) }
{
    let status = plan_member(contents, &args.file, &args.member)?;
    if status.images().is_some() {
        return Err(Stop::Refused(Reply::AlreadyStarted));
    }
    Ok(status)
}

fn apply_start(contents: &mut Contents, member: u32, images: Images, drafts: Vec<Draft>)
    requires room { length drafts.items ≤ contents.old.room.entries }
    requires left { (memory_of contents.old.state).last_entry + length drafts.items + 1 ≤ LAST_BEFORE_DEPOSIT }
    ensures { Deposits contents.old.state contents.new.state drafts.items (journaling_started member images) }
{
    let (_, last) = contents.bounds();
    contents.start_journaling(member, last + 1, images);
    deposit_all(contents, drafts);
}

// ---- ENDJRNPF

/// Ends the journaling of a member.
pub fn end_journaling(
    contents: &mut Contents,
    job: u32,
    timestamp: u64,
    args: &FileMember,
) -> Result<Reply, Stop>
    requires running { IsTrue (is_running (job_at job contents.old.state.jobs)) }
    ensures answers { Answers contents.old.state contents.new.state result (end_journaling (memory_of contents.old.state) job timestamp args.now) }
{
    let status = plan_end(contents, args)?;
    let number = status.number();
    let author = Author::of(contents, job, timestamp);
    let records = record_count(contents, number);
    let draft = with_room(
        contents,
        author.member_draft(number, EntryKind::JournalingEnded),
    )?;
    apply_end(contents, number, records, draft);
    Ok(Reply::Done)
}

fn plan_end(contents: &Contents, args: &FileMember) -> Result<MemberStatus, Stop>
    ensures plan { Gives result (end_plan (memory_of contents.now.state) args.now) }
    ensures left { OnOk result ((memory_of contents.now.state).last_entry ≤ LAST_SEQUENCE) }
{
    let status = plan_member(contents, &args.file, &args.member)?;
    if status.images().is_none() {
        return Err(Stop::Refused(Reply::NotJournaled {
            member: status.number(),
        }));
    }
    Ok(status)
}

fn apply_end(contents: &mut Contents, member: u32, records: u32, draft: Draft)
    requires room { 1 ≤ contents.old.room.entries }
    requires left { (memory_of contents.old.state).last_entry ≤ LAST_SEQUENCE }
    ensures { Deposits contents.old.state contents.new.state (draft ∷ []) (journaling_ended member records) }
{
    let (_, last) = contents.bounds();
    contents.end_journaling(member, last + 1, records);
    let _sequence = contents.deposit(draft);
}
