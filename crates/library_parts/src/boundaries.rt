//! The boundaries of a job: COMMIT, ROLLBACK, ENDCMTCTL, and the end of a job with all that it left open. None of them wants memory, since
//! room for their entries is kept, and each change has its slots at hand.
ghost use Rattle.std.specs.Prelude.{◌≡◌, ℕ, ◌+◌, ◌*◌, ◌≤◌, Ok, Some, IsSome, IsTrue, length, map, option_to_list};
ghost use Rattle.std.specs.List.{AllByRecursion};
ghost use Rattle.entry_codec.specs.declared.kinds.EntryKind.TheVariants.{CommitCycleCommitted, CommitCycleRolledBack, CommitmentEnded};
ghost use Rattle.journal_model.specs.Replay.{before_of};
ghost use Rattle.journal_model.specs.Rollback.{change_drafts, undo_drafts, undo_kinds};
ghost use Rattle.parts_model.specs.Journal.{deposited};
ghost use Rattle.parts_model.specs.KeptPaths.{spare_of};
ghost use Rattle.parts_model.specs.RecordChanges.{paths_after, CanBeMade, count_in};
ghost use Rattle.library_model.specs.declared.replies.Reply.TheVariants.{Done};
ghost use Rattle.library_steps.specs.State.{memory_of, job_at, job_of};
ghost use Rattle.library_steps.specs.History.{is_running};
ghost use Rattle.library_steps.specs.Uses.{changes_in};
ghost use Rattle.library_steps.specs.Commitment.{commit_change, rollback_change};
ghost use Rattle.library_steps.specs.Drafts.{cycle_draft, library_draft};
ghost use Rattle.library_steps.specs.EndJob.{end_change};
ghost use Rattle.parts_model.specs.Answers.{Answers};
ghost use Rattle.parts_model.specs.Boundaries.{author, cycle_end, definition_end, ended, roll_drafts, told};
ghost use Rattle.lawful_states.specs.Back.{member_back, members_back};
ghost use Rattle.parts_model.specs.Due.{cycle_due};
ghost use Rattle.parts_model.specs.Indexed.{HasBytes};
ghost use Rattle.lawful_states.specs.Lawful.{FitsPlace};
ghost use Rattle.parts_model.specs.Standing.{StandAsMade};
ghost use Rattle.parts_model.specs.TakingBack.{CanTakeBack, LeadsToIndexed};

use crate::contents::Contents;
use crate::cycles::level_due;
use crate::members::of_bytes;
use commit_level::Level;
use entry_codec::{Draft, EntryKind};
use field_types::names::Name;
use member_slots::members::Members;
use member_slots::slot::Slot;
use parts_model::Origin;
use parts_model::job_table::{Undo, UndoParts, Undos};
use parts_model::memory_journal::MemoryJournal;
use parts_model::path_set::set::PathSet;

impl Contents {
    /// COMMIT: the end of the job's commit cycle is deposited, where one is open. Its boundary locks and the locks of its opens under
    /// commitment are gone, and these opens have read nothing since.
    pub fn commit(&mut self, job: u32, timestamp: u64)
        requires { IsTrue (is_running (job_at job self.old.state.jobs)) }
        ensures { Answers self.old.state self.new.state (Ok Done) (Ok (commit_change (memory_of self.old.state) job timestamp)) }
    {
        let end = committed(self.jobs.name(job), timestamp, self.jobs.cycle(job));
        let due = self.cycle_due(job);
        let opens = self.jobs.committed_opens(job);
        self.locks.release_commit(job, opens.as_slice());
        self.jobs.commit(job);
        deposit_if(&mut self.journal, end);
        self.due -= due;
    }

    /// ROLLBACK: each change of the job's commit cycle is taken back, the last one first, and the entries that tell of it are
    /// deposited. Its locks are gone, and its opens under commitment stand where they stood at the last boundary.
    pub fn rollback(&mut self, job: u32, timestamp: u64)
        requires running { IsTrue (is_running (job_at job self.old.state.jobs)) }
        requires stand { StandAsMade (changes_in (job_of job (memory_of self.old.state)).cycle) self.old.state.members }
        ensures { Answers self.old.state self.new.state (Ok Done) (Ok (rollback_change (memory_of self.old.state) job timestamp)) }
    {
        let name = self.jobs.name(job);
        let cycle = self.jobs.cycle(job);
        let due = self.cycle_due(job);
        let undos = self.jobs.rollback(job);
        self.locks.release_job(job);
        roll_back(
            &mut self.members,
            &mut self.paths,
            &mut self.journal,
            undos,
            cycle,
            name,
            timestamp,
        );
        self.due -= due;
    }

    /// ENDJOB: an open commit cycle is rolled back, the end of commitment control is deposited where it was started, the job's opens
    /// are closed and its locks gone.
    pub fn finish_job(&mut self, job: u32, timestamp: u64)
        requires running { IsTrue (is_running (job_at job self.old.state.jobs)) }
        requires stand { StandAsMade (changes_in (job_of job (memory_of self.old.state)).cycle) self.old.state.members }
        ensures { Answers self.old.state self.new.state (Ok Done) (Ok (end_change (memory_of self.old.state) job timestamp)) }
    {
        let name = self.jobs.name(job);
        let cycle = self.jobs.cycle(job);
        let level = self.jobs.level(job);
        let due = self.cycle_due(job);
        let undos = self.jobs.end(job);
        self.locks.release_job(job);
        roll_back(
            &mut self.members,
            &mut self.paths,
            &mut self.journal,
            undos,
            cycle,
            name,
            timestamp,
        );
        deposit_if(&mut self.journal, ended(name, timestamp, level));
        self.due = self.due - due - level_due(level);
    }

    /// ENDCMTCTL: the end of commitment control is deposited, and the job's boundary locks are gone.
    pub fn end_commitment(&mut self, job: u32, timestamp: u64)
        requires running { IsTrue (is_running (job_at job self.old.state.jobs)) }
        requires started { IsSome (job_of job (memory_of self.old.state)).level }
        ensures { Answers self.old.state self.new.state (Ok Done) (Ok (ended (memory_of self.old.state) job timestamp)) }
    {
        let draft = of_library(self.jobs.name(job), timestamp);
        self.locks.release_group(job);
        self.jobs.end_commitment(job);
        let _sequence = self.journal.deposit(draft);
        self.due -= 1;
    }

    /// How many entries the end of the job's commit cycle may deposit.
    fn cycle_due(&self, job: u32) -> u64
        requires { IsTrue (is_running (job_at job self.now.state.jobs)) }
        ensures { result ≡ cycle_due (job_of job (memory_of self.now.state)).cycle }
    {
        match self.jobs.cycle(job) {
            Some(_) => 1 + 2 * self.jobs.undos(job).len() as u64,
            None => 0,
        }
    }
}

/// Takes the changes back, the last one first, and ends their commit cycle, where one is open.
fn roll_back(
    members: &mut Members,
    paths: &mut PathSet,
    journal: &mut MemoryJournal,
    undos: Undos,
    cycle: Option<u64>,
    job: Name,
    moment: u64,
)
    requires fit { AllByRecursion (FitsPlace members.old.members) undos.changes }
    requires can { CanTakeBack members.old.members paths.old undos.changes undos.moves }
    requires room { 2 * length undos.changes + length (option_to_list cycle) ≤ journal.old.room }
    ensures members { members.new.members ≡ members_back undos.changes members.old.members }
    ensures indexed { LeadsToIndexed members.old.members paths.old undos.changes undos.moves members.new.members paths.new }
    ensures spares { members.new.spares ≡ members.old.spares }
    ensures member_room { members.new.room ≡ members.old.room }
    ensures journal { journal.new.journal ≡ deposited (roll_drafts job moment cycle undos.changes) journal.old.journal }
    ensures room { journal.old.room ≤ journal.new.room + 2 * length undos.changes + length (option_to_list cycle) }
{
    take_all_back(members, paths, journal, undos, job, moment);
    deposit_if(journal, rolled_back(job, moment, cycle));
}

/// Takes the changes back, the last one first.
fn take_all_back(
    members: &mut Members,
    paths: &mut PathSet,
    journal: &mut MemoryJournal,
    undos: Undos,
    job: Name,
    moment: u64,
)
    requires fit { AllByRecursion (FitsPlace members.old.members) undos.changes }
    requires can { CanTakeBack members.old.members paths.old undos.changes undos.moves }
    requires room { 2 * length undos.changes ≤ journal.old.room }
    ensures members { members.new.members ≡ members_back undos.changes members.old.members }
    ensures indexed { LeadsToIndexed members.old.members paths.old undos.changes undos.moves members.new.members paths.new }
    ensures spares { members.new.spares ≡ members.old.spares }
    ensures member_room { members.new.room ≡ members.old.room }
    ensures journal { journal.new.journal ≡ deposited (undo_drafts (Some job) moment undos.changes) journal.old.journal }
    ensures room { journal.old.room ≤ journal.new.room + 2 * length undos.changes }
{
    let mut left = undos;
    while let Some(undo) = left.pop() {
        // What holds of all kept paths.
        let _kept = paths.kept();
        take_back(members, paths, journal, undo, job, moment);
    }
}

/// Puts the slot before the change where it stood, and deposits the entries that tell of it.
fn take_back(
    members: &mut Members,
    paths: &mut PathSet,
    journal: &mut MemoryJournal,
    undo: Undo,
    job: Name,
    moment: u64,
)
    requires fits { FitsPlace members.old.members undo.change }
    requires can { CanBeMade undo.moves paths.old }
    requires room { 2 ≤ journal.old.room }
    ensures members { members.new.members ≡ member_back undo.change members.old.members }
    ensures paths { paths.new.paths ≡ paths_after undo.moves paths.old.paths }
    ensures path_rooms { (id : ℕ) → spare_of id paths.old ≤ spare_of id paths.new + count_in id undo.moves }
    ensures bytes { HasBytes (before_of undo.change.change) }
    ensures spares { members.new.spares ≡ members.old.spares }
    ensures member_room { members.new.room ≡ members.old.room }
    ensures journal { journal.new.journal ≡ deposited (change_drafts (Some job) moment undo.change (undo_kinds (before_of undo.change.change) undo.change.change.after)) journal.old.journal }
    ensures room { journal.old.room ≤ journal.new.room + 2 }
{
    of_bytes(undo.before());
    let origin = Origin {
        job,
        moment,
        cycle: undo.cycle(),
        member: undo.member(),
        rrn: undo.rrn(),
    };
    let UndoParts {
        before,
        again,
        after,
        moves,
    } = undo.into_parts();
    let _changed = members.set(origin.member, origin.rrn, before);
    let _again = paths.change(moves);
    tell(journal, &origin, again, after);
}

/// Deposits what tells that the record was given a slot in place of one that was changed.
fn tell(journal: &mut MemoryJournal, origin: &Origin, given: Slot, changed: Slot)
    requires { 2 ≤ journal.old.room }
    ensures journal { journal.new.journal ≡ deposited (map (told origin.now) (undo_kinds given changed)) journal.old.journal }
    ensures room { journal.old.room ≤ journal.new.room + 2 }
{
    match given {
        Slot::Live(before) => match changed {
            Slot::Live(after) => {
                let _sequence = journal.deposit(told(
                    origin,
                    EntryKind::UndoBeforeImage { image: after },
                ));
                let _sequence = journal.deposit(told(
                    origin,
                    EntryKind::UndoAfterImage {
                        has_before: true,
                        image: before,
                    },
                ));
            }
            Slot::Deleted => {
                let _sequence = journal.deposit(told(
                    origin,
                    EntryKind::UndoAfterImage {
                        has_before: false,
                        image: before,
                    },
                ));
            }
        },
        Slot::Deleted => match changed {
            Slot::Live(after) => {
                let _sequence = journal.deposit(told(
                    origin,
                    EntryKind::UndoDelete { image: after },
                ));
            }
            Slot::Deleted => {}
        },
    }
}

/// The entry that tells of what was done to the record.
fn told(origin: &Origin, kind: EntryKind) -> Draft
    ensures { result ≡ told origin.now kind }
{
    Draft {
        job: Some(origin.job),
        moment: origin.moment,
        group: Some(origin.cycle),
        member: Some(origin.member),
        rrn: Some(origin.rrn),
        kind,
    }
}

/// Deposits the draft, if there is one.
fn deposit_if(journal: &mut MemoryJournal, draft: Option<Draft>)
    requires { length (option_to_list draft) ≤ journal.old.room }
    ensures journal { journal.new.journal ≡ deposited (option_to_list draft) journal.old.journal }
    ensures room { journal.old.room ≤ journal.new.room + length (option_to_list draft) }
{
    let Some(draft) = draft else {
        return;
    };
    let _sequence = journal.deposit(draft);
}

/// The entry that ends a commit cycle whose changes stay.
fn committed(job: Name, moment: u64, cycle: Option<u64>) -> Option<Draft>
    ensures { result ≡ cycle_end job moment CommitCycleCommitted cycle }
{
    match cycle {
        Some(sequence) => Some(of_cycle(job, moment, sequence, EntryKind::CommitCycleCommitted)),
        None => None,
    }
}

/// The entry that ends a commit cycle whose changes were taken back.
fn rolled_back(job: Name, moment: u64, cycle: Option<u64>) -> Option<Draft>
    ensures { result ≡ cycle_end job moment CommitCycleRolledBack cycle }
{
    match cycle {
        Some(sequence) => Some(of_cycle(job, moment, sequence, EntryKind::CommitCycleRolledBack)),
        None => None,
    }
}

fn of_cycle(job: Name, moment: u64, sequence: u64, kind: EntryKind) -> Draft
    ensures { result ≡ cycle_draft (author job moment) sequence kind }
{
    Draft {
        job: Some(job),
        moment,
        group: Some(sequence),
        member: None,
        rrn: None,
        kind,
    }
}

/// The entry that ends commitment control.
fn ended(job: Name, moment: u64, level: Option<Level>) -> Option<Draft>
    ensures { result ≡ definition_end job moment level }
{
    match level {
        Some(_) => Some(of_library(job, moment)),
        None => None,
    }
}

fn of_library(job: Name, moment: u64) -> Draft
    ensures { result ≡ library_draft (author job moment) CommitmentEnded }
{
    Draft {
        job: Some(job),
        moment,
        group: None,
        member: None,
        rrn: None,
        kind: EntryKind::CommitmentEnded,
    }
}
