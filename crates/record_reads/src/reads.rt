//! READ, READP, READE, READPE and CHAIN.
ghost use Rattle.std.specs.Prelude.{◌≡◌, Result, Ok, None, IfOk, IsSome, IsTrue};
ghost use Rattle.library_model.specs.declared.replies.Reply.{Reply as AnyReply};
ghost use Rattle.library_model.specs.declared.requests.ChainTo.TheVariants as chain_to;
ghost use Rattle.library_model.specs.declared.requests.Limit.TheVariants as limits;
ghost use Rattle.library_steps.specs.State.{memory_of, job_at};
ghost use Rattle.library_steps.specs.Change.{Change};
ghost use Rattle.library_steps.specs.History.{is_running};
ghost use Rattle.library_steps.specs.Reads.{Found, at_format, read, read_prior, read_equal, read_prior_equal, chain, read_call};
ghost use Rattle.library_parts.specs.Answers.{Answers, Gives};
ghost use Rattle.library_parts.specs.Finds.{ReadsMember};
ghost use Rattle.library_parts.specs.Indexed.{IsUnjoined, IsViewBeside};
ghost use Rattle.library_parts.specs.Locks.{HasLockRoom};
ghost use Rattle.lawful_states.specs.Calls.{IsRead};
ghost use Rattle.library_parts.specs.Reads.{ReadsAs, Stands};
ghost use Rattle.record_reads.specs.Asked.{CanBeAsked};
ghost use Rattle.record_reads.specs.Plans.{AsksOf, CanRead, CanShow, FindsAt, IsFoundAt, IsOfRow, IsWanted, MayLock, Plans, PlansFound, opened_with, read_equal_from, read_found, read_from, record_planned, used_of};
ghost use Rattle.joint_state.specs.Views.{HaveDefaults};
ghost use Rattle.logical_model.specs.Bases.{LogicalFile};
ghost use Rattle.dds_logical.specs.declared.views.LogicalSpec.TheVariants.{Join};

use crate::asked::{AskedBy, Direction};
use crate::plans::{FoundAt, FoundRead, PlannedRead, used_open};
use crate::shown::{joined, shown_found};
use dds_logical::join_views::JoinView;
use field_types::names::Name;
use field_types::values::Value;
use library_model::replies::Reply;
use library_model::requests::{
    ChainRecord, ChainTo, Limit, LockOption, OpenOption, ReadEqual, ReadRecord,
};
use library_parts::file_catalogue::File;
use library_parts::job_table::{Open, OpenAt};
use library_parts::laws::{effects_answer, locks_fit};
use library_parts::{Contents, OpenFound, RowFound, Stop};
use lock_table::Call;

/// READ: the next record.
pub fn read(contents: &mut Contents, job: u32, args: &ReadRecord) -> Result<Reply, Stop>
    requires running { IsTrue (is_running (job_at job contents.old.state.jobs)) }
    requires defaults { HaveDefaults contents.old.state.files }
    ensures answers { Answers contents.old.state contents.new.state result (read (memory_of contents.old.state) job args.now) }
{
    let plan = plan_read(contents, job, args, Direction::Next)?;
    carry_out(contents, job, &args.open_id, plan)
}

/// READP: the prior record.
pub fn read_prior(contents: &mut Contents, job: u32, args: &ReadRecord) -> Result<Reply, Stop>
    requires running { IsTrue (is_running (job_at job contents.old.state.jobs)) }
    requires defaults { HaveDefaults contents.old.state.files }
    ensures answers { Answers contents.old.state contents.new.state result (read_prior (memory_of contents.old.state) job args.now) }
{
    let plan = plan_read(contents, job, args, Direction::Prior)?;
    carry_out(contents, job, &args.open_id, plan)
}

/// READE: the next record, where it has the key.
pub fn read_equal(contents: &mut Contents, job: u32, args: &ReadEqual) -> Result<Reply, Stop>
    requires running { IsTrue (is_running (job_at job contents.old.state.jobs)) }
    requires defaults { HaveDefaults contents.old.state.files }
    ensures answers { Answers contents.old.state contents.new.state result (read_equal (memory_of contents.old.state) job args.now) }
{
    let plan = plan_equal(contents, job, args, Direction::Next)?;
    carry_out(contents, job, &args.open_id, plan)
}

/// READPE: the prior record, where it has the key.
pub fn read_prior_equal(contents: &mut Contents, job: u32, args: &ReadEqual) -> Result<Reply, Stop>
    requires running { IsTrue (is_running (job_at job contents.old.state.jobs)) }
    requires defaults { HaveDefaults contents.old.state.files }
    ensures answers { Answers contents.old.state contents.new.state result (read_prior_equal (memory_of contents.old.state) job args.now) }
{
    let plan = plan_equal(contents, job, args, Direction::Prior)?;
    carry_out(contents, job, &args.open_id, plan)
}

/// CHAIN: the first record of a key, or the record of a relative record number.
pub fn chain(contents: &mut Contents, job: u32, args: &ChainRecord) -> Result<Reply, Stop>
    requires running { IsTrue (is_running (job_at job contents.old.state.jobs)) }
    requires defaults { HaveDefaults contents.old.state.files }
    ensures answers { Answers contents.old.state contents.new.state result (chain (memory_of contents.old.state) job args.now) }
{
    let plan = plan_chain(contents, job, args)?;
    carry_out(contents, job, &args.open_id, plan)
}

#[tactic(auto, unfolding(library_steps::specs::Reads::read_plan))]
fn plan_read(
    contents: &Contents,
    job: u32,
    args: &ReadRecord,
    direction: Direction,
) -> Result<FoundRead, Stop>
    requires running { IsTrue (is_running (job_at job contents.now.state.jobs)) }
    requires defaults { HaveDefaults contents.now.state.files }
    ensures { Plans (memory_of contents.now.state) job args.now.open_id (read_from direction (memory_of contents.now.state) job args.now) result }
{
    let OpenFound { opened, file } = contents.opened_file(job, &args.open_id)?;
    plan_found(contents, job, opened, file, args.lock, direction.any())
}

#[tactic(auto, unfolding(library_steps::specs::Reads::read_equal_plan))]
fn plan_equal(
    contents: &Contents,
    job: u32,
    args: &ReadEqual,
    direction: Direction,
) -> Result<FoundRead, Stop>
    requires running { IsTrue (is_running (job_at job contents.now.state.jobs)) }
    requires defaults { HaveDefaults contents.now.state.files }
    ensures { Plans (memory_of contents.now.state) job args.now.open_id (read_equal_from direction (memory_of contents.now.state) job args.now) result }
{
    let OpenFound { opened, file } = contents.opened_file(job, &args.open_id)?;
    let key = contents.given_key(opened, file, args.key.as_slice())?;
    plan_found(contents, job, opened, file, args.lock, direction.equal(key))
}

#[tactic(auto, unfolding(library_steps::specs::Reads::chain_plan))]
fn plan_chain(contents: &Contents, job: u32, args: &ChainRecord) -> Result<FoundRead, Stop>
    requires running { IsTrue (is_running (job_at job contents.now.state.jobs)) }
    requires defaults { HaveDefaults contents.now.state.files }
    ensures { Plans (memory_of contents.now.state) job args.now.open_id (chain (memory_of contents.now.state) job args.now) result }
{
    let OpenFound { opened, file } = contents.opened_file(job, &args.open_id)?;
    let by = chained_by(contents, opened, file, &args.to)?;
    plan_found(contents, job, opened, file, args.lock, by)
}

/// By what CHAIN finds its record. An open that reads by a key takes no relative record number.
fn chained_by(
    contents: &Contents,
    opened: &Open,
    file: &File,
    to: &ChainTo,
) -> Result<AskedBy, Stop>
    requires { ReadsAs contents.now opened.now file.now }
    ensures { AsksOf (memory_of contents.now.state) (opened_with opened.now.state file.now) to.now result }
{
    match to {
        ChainTo::Key(values) => chained_by_key(contents, opened, file, values.as_slice()),
        ChainTo::RecordNumber(rrn) => chained_by_number(contents, opened, file, *rrn),
    }
}

/// The first record of a key.
fn chained_by_key(
    contents: &Contents,
    opened: &Open,
    file: &File,
    values: &[Value],
) -> Result<AskedBy, Stop>
    requires { ReadsAs contents.now opened.now file.now }
    ensures { AsksOf (memory_of contents.now.state) (opened_with opened.now.state file.now) (chain_to.Key values.now) result }
{
    match contents.given_key(opened, file, values) {
        Ok(key) => Ok(AskedBy::FirstEqual(key)),
        Err(stop) => Err(stop),
    }
}

/// The record of a relative record number.
fn chained_by_number(
    contents: &Contents,
    opened: &Open,
    file: &File,
    rrn: u32,
) -> Result<AskedBy, Stop>
    requires { ReadsAs contents.now opened.now file.now }
    ensures { AsksOf (memory_of contents.now.state) (opened_with opened.now.state file.now) (chain_to.RecordNumber rrn) result }
{
    match may_stand_at(contents, opened, file, rrn) {
        Ok(()) => Ok(AskedBy::Number(rrn)),
        Err(stop) => Err(stop),
    }
}

/// The refusal of a relative record number. A logical file without a key takes one, though it is read by a path.
fn may_stand_at(contents: &Contents, opened: &Open, file: &File, rrn: u32) -> Result<(), Stop>
    requires { ReadsAs contents.now opened.now file.now }
    ensures { Stands (opened_with opened.now.state file.now) (limits.RecordNumber rrn) result }
{
    let to = Limit::RecordNumber(rrn);
    contents.may_stand(opened, file, &to)
}

/// The read of what the open finds by this, with that.
fn plan_found(
    contents: &Contents,
    job: u32,
    opened: &Open,
    file: &File,
    lock: LockOption,
    by: AskedBy,
) -> Result<FoundRead, Stop>
    requires running { IsTrue (is_running (job_at job contents.now.state.jobs)) }
    requires defaults { HaveDefaults contents.now.state.files }
    requires reads { ReadsAs contents.now opened.now file.now }
    requires member { ReadsMember contents.now.state file.now opened.now.state }
    requires view { IsViewBeside contents.now.state.files file.now.spec }
    requires asked { CanBeAsked by file.now opened.now.state (memory_of contents.now.state) }
    ensures { PlansFound (memory_of contents.now.state) job (opened_with opened.now.state file.now) (read_found (memory_of contents.now.state) job (opened_with opened.now.state file.now) lock by) result }
{
    match find_asked(contents, opened, file, &by) {
        Ok(found) => plan_at(contents, job, opened, file, lock, by, found),
        Err(stop) => Err(stop),
    }
}

/// What the open finds by this, of a join among its rows.
fn find_asked(
    contents: &Contents,
    opened: &Open,
    file: &File,
    by: &AskedBy,
) -> Result<FoundAt, Stop>
    requires defaults { HaveDefaults contents.now.state.files }
    requires reads { ReadsAs contents.now opened.now file.now }
    requires member { ReadsMember contents.now.state file.now opened.now.state }
    requires view { IsViewBeside contents.now.state.files file.now.spec }
    requires asked { CanBeAsked by.now file.now opened.now.state (memory_of contents.now.state) }
    ensures finds { FindsAt (memory_of contents.now.state) (opened_with opened.now.state file.now) by.now result }
    ensures shows { IfOk result (λ found. found.row ≡ None → CanShow contents.now.state file.now (at_format found.format opened.now.state) found.rrn) }
{
    match joined(file) {
        Some(view) => find_row(contents, opened, file, view, by),
        None => find_entry(contents, opened, file, by),
    }
}

/// What it finds in the path of its file, or in arrival order.
fn find_entry(
    contents: &Contents,
    opened: &Open,
    file: &File,
    by: &AskedBy,
) -> Result<FoundAt, Stop>
    requires unjoined { IsUnjoined file.now.spec }
    requires reads { ReadsAs contents.now opened.now file.now }
    requires member { ReadsMember contents.now.state file.now opened.now.state }
    requires view { IsViewBeside contents.now.state.files file.now.spec }
    requires asked { CanBeAsked by.now file.now opened.now.state (memory_of contents.now.state) }
    ensures finds { FindsAt (memory_of contents.now.state) (opened_with opened.now.state file.now) by.now result }
    ensures shows { IfOk result (λ found. CanShow contents.now.state file.now (at_format found.format opened.now.state) found.rrn) }
{
    match contents.find(opened, file, by.as_read()) {
        Some(found) => Ok(FoundAt {
            format: found.format,
            rrn: found.rrn,
            row: None,
        }),
        None => Err(Stop::Refused(by.nothing_found())),
    }
}

/// The row that it finds of a join.
fn find_row(
    contents: &Contents,
    opened: &Open,
    file: &File,
    view: &JoinView,
    by: &AskedBy,
) -> Result<FoundAt, Stop>
    requires join { file.now.spec ≡ LogicalFile (Join view.now) }
    requires defaults { HaveDefaults contents.now.state.files }
    requires reads { ReadsAs contents.now opened.now file.now }
    requires member { ReadsMember contents.now.state file.now opened.now.state }
    requires asked { CanBeAsked by.now file.now opened.now.state (memory_of contents.now.state) }
    ensures finds { FindsAt (memory_of contents.now.state) (opened_with opened.now.state file.now) by.now result }
    ensures some { IfOk result (λ found. IsSome found.row) }
{
    match contents.find_row(opened, file, view, by.as_read()) {
        Ok(Some(row)) => Ok(FoundAt {
            format: row.primary.format,
            rrn: row.primary.rrn,
            row: Some(row),
        }),
        Ok(None) => Err(Stop::Refused(by.nothing_found())),
        Err(_) => Err(Stop::NoMemory),
    }
}

/// The read of what was found.
fn plan_at(
    contents: &Contents,
    job: u32,
    opened: &Open,
    file: &File,
    lock: LockOption,
    by: AskedBy,
    found: FoundAt,
) -> Result<FoundRead, Stop>
    requires running { IsTrue (is_running (job_at job contents.now.state.jobs)) }
    requires asked { CanBeAsked by file.now opened.now.state (memory_of contents.now.state) }
    requires found { IsFoundAt (memory_of contents.now.state) (opened_with opened.now.state file.now) by found }
    requires shows { found.row ≡ None → CanShow contents.now.state file.now (at_format found.format opened.now.state) found.rrn }
    ensures { PlansFound (memory_of contents.now.state) job (opened_with opened.now.state file.now) (read_found (memory_of contents.now.state) job (opened_with opened.now.state file.now) lock by) result }
{
    let at = opened.at(found.format);
    match plan_record(contents, job, &at, file, lock, &found) {
        Ok(read) => Ok(FoundRead {
            by,
            read,
            row: found.row,
        }),
        Err(stop) => Err(stop),
    }
}

/// The read of a record that was found, where no lock is in its way.
fn plan_record(
    contents: &Contents,
    job: u32,
    opened: &OpenAt<'_>,
    file: &File,
    lock: LockOption,
    found: &FoundAt,
) -> Result<PlannedRead, Stop>
    requires running { IsTrue (is_running (job_at job contents.now.state.jobs)) }
    requires shows { found.now.row ≡ None → CanShow contents.now.state file.now opened.now.state found.now.rrn }
    requires found { (it : Found) × IsOfRow (memory_of contents.now.state) file.now.spec found.now.row it }
    ensures plan { (it : Found) → IsOfRow (memory_of contents.now.state) file.now.spec found.now.row it
        → Gives result (record_planned (memory_of contents.now.state) job (opened_with opened.now.state file.now) lock found.now.rrn it.row) }
    ensures lockable { IfOk result (MayLock (memory_of contents.now.state) job) }
    ensures through { IfOk result (λ plan. plan.used ≡ used_of job opened.now.state (memory_of contents.now.state)) }
{
    let call = read_call(lock, opened);
    contents.not_locked(call, job, opened, found.rrn)?;
    contents.few_locks_to_read(call, job, opened, found.rrn)?;
    let shown = shown_found(contents, file, opened, found)?;
    Ok(PlannedRead {
        used: used_open(contents, job, opened),
        call,
        rrn: found.rrn,
        shown,
    })
}

/// What a read through the open asks of the locks.
fn read_call(lock: LockOption, opened: &OpenAt<'_>) -> Call
    ensures call { result ≡ read_call lock opened.now.state }
    ensures read { IsRead result }
{
    match lock {
        LockOption::No => Call::InputRead,
        LockOption::Default => match opened.option() {
            OpenOption::Input => Call::InputRead,
            OpenOption::All => Call::UpdateRead,
        },
    }
}

/// Reads as it was planned.
fn carry_out(contents: &mut Contents, job: u32, name: &Name, plan: FoundRead) -> Result<Reply, Stop>
    requires running { IsTrue (is_running (job_at job contents.old.state.jobs)) }
    requires plan { CanRead (memory_of contents.old.state) job name.now plan.by plan.read plan.row }
    ensures { (wanted : Result Change AnyReply) → IsWanted (memory_of contents.old.state) job name.now plan.by plan.read wanted → Answers contents.old.state contents.new.state result wanted }
{
    let FoundRead { by, read, row } = plan;
    read_by(contents, job, name, &by, read, row)
}

/// Makes room for its lock, and reads what the open finds by this.
fn read_by(
    contents: &mut Contents,
    job: u32,
    name: &Name,
    by: &AskedBy,
    plan: PlannedRead,
    row: Option<RowFound>,
) -> Result<Reply, Stop>
    requires running { IsTrue (is_running (job_at job contents.old.state.jobs)) }
    requires plan { CanRead (memory_of contents.old.state) job name.now by.now plan row }
    ensures { (wanted : Result Change AnyReply) → IsWanted (memory_of contents.old.state) job name.now by.now plan wanted → Answers contents.old.state contents.new.state result wanted }
{
    contents.reserve_lock()?;
    Ok(apply_read(contents, job, name, by, plan, row))
}

fn apply_read(
    contents: &mut Contents,
    job: u32,
    name: &Name,
    by: &AskedBy,
    plan: PlannedRead,
    row: Option<RowFound>,
) -> Reply
    requires running { IsTrue (is_running (job_at job contents.old.state.jobs)) }
    requires plan { CanRead (memory_of contents.old.state) job name.now by.now plan row }
    requires room { HasLockRoom contents.old.state contents.old.room }
    ensures { (wanted : Result Change AnyReply) → IsWanted (memory_of contents.old.state) job name.now by.now plan wanted → Answers contents.old.state contents.new.state (Ok result) wanted }
{
    effects_answer();
    locks_fit();
    let PlannedRead {
        used,
        call,
        rrn,
        shown,
    } = plan;
    contents.lock_for(call, used.level, used.holder(job), used.record_id(rrn));
    match row {
        Some(row) => {
            contents.note_row(job, name, call, row);
            Reply::Record(shown)
        }
        None => {
            contents.note_read(job, name, call, by.as_read());
            Reply::Record(shown)
        }
    }
}
