//! What effects change of commitment control: its start, and the changes that a commit cycle keeps. What ends either stands in
//! `boundaries.rt`.
ghost use Rattle.std.specs.Prelude.{◌≡◌, ◌+◌, ◌≤◌, Some, IsTrue, if◌then◌else◌, option_map};
ghost use Rattle.library_steps.specs.declared.limits.TheConstants.{MOST_GROUP_CHANGES, MOST_GROUP_BYTES};
ghost use Rattle.library_steps.specs.State.{memory_of, job_at, job_of, with_job, with_opens};
ghost use Rattle.library_steps.specs.History.{is_running};
ghost use Rattle.library_steps.specs.Commitment.{with_level, has_committed_open};
ghost use Rattle.library_steps.specs.SlotChange.{change_bytes, cycle_for, noted, open_bytes, open_changes, with_cycle};
ghost use Rattle.parts_model.specs.Due.{level_due};
ghost use Rattle.parts_model.specs.Indexed.{moves_back};
ghost use Rattle.lawful_states.specs.Lawful.{GoesBack};
ghost use Rattle.parts_model.specs.Moved.{HasMovesRoom};
ghost use Rattle.parts_model.specs.Rooms.{HasUndoRoom};

use crate::contents::Contents;
use commit_level::Level;
use parts_model::job_table::Undo;

impl Contents {
    /// Whether the job has an open under commitment control.
    pub fn has_committed_open(&self, job: u32) -> bool
        requires { IsTrue (is_running (job_at job self.now.state.jobs)) }
        ensures { result ≡ has_committed_open (job_of job (memory_of self.now.state)) }
    {
        self.jobs.has_committed_open(job)
    }

    /// The lock level of the job's commitment control.
    pub fn level(&self, job: u32) -> Option<Level>
        requires { IsTrue (is_running (job_at job self.now.state.jobs)) }
        ensures { result ≡ (job_of job (memory_of self.now.state)).level }
    {
        self.jobs.level(job)
    }

    /// The sequence of the entry with which the job's open commit cycle began.
    pub fn cycle(&self, job: u32) -> Option<u64>
        requires { IsTrue (is_running (job_at job self.now.state.jobs)) }
        ensures { result ≡ option_map (λ cycle. cycle.sequence) (job_of job (memory_of self.now.state)).cycle }
    {
        self.jobs.cycle(job)
    }

    /// Starts the job's commitment control. Room for the entry of its end is kept from now on.
    pub fn start_commitment(&mut self, job: u32, level: Level)
        requires running { IsTrue (is_running (job_at job self.old.state.jobs)) }
        requires room { 1 ≤ self.old.room.entries }
        ensures memory { memory_of self.new.state ≡ with_job job (with_level (Some level)) (memory_of self.old.state) }
        ensures entries { self.new.state.entries ≡ self.old.state.entries }
        ensures room { self.new.room ≡ record self.old.room { entries = self.new.room.entries } }
    {
        // There are sequences for all entries that have room.
        let _bounds = self.journal.bounds();
        let before = level_due(self.jobs.level(job));
        self.jobs.start_commitment(job, level);
        self.due = self.due + 1 - before;
    }

    /// Keeps a change in the job's commit cycle, which begins with the next entry where none is open. Room for the entries that
    /// would take it back, and for the one that ends the cycle, is kept from now on.
    pub fn note_undo(&mut self, job: u32, undo: Undo)
        requires running { IsTrue (is_running (job_at job self.old.state.jobs)) }
        requires room { HasUndoRoom job self.old }
        requires entries { 3 ≤ self.old.room.entries }
        requires goes_back { GoesBack self.old.state.files self.old.state.members (cycle_for (memory_of self.old.state) (job_of job (memory_of self.old.state))).sequence undo.change }
        requires moves { undo.moves ≡ moves_back self.old.room.paths.paths undo.change }
        requires moves_room { HasMovesRoom self.old undo.change.member 1 }
        requires few_changes { open_changes (memory_of self.old.state) + 1 ≤ MOST_GROUP_CHANGES }
        requires few_bytes { open_bytes (memory_of self.old.state) + change_bytes undo.change ≤ MOST_GROUP_BYTES }
        ensures memory { memory_of self.new.state ≡ with_job job (with_cycle (noted undo.change (cycle_for (memory_of self.old.state) (job_of job (memory_of self.old.state))))) (memory_of self.old.state) }
        ensures entries { self.new.state.entries ≡ self.old.state.entries }
        ensures others { self.new.room ≡ record self.old.room { entries = self.new.room.entries; moves = self.new.room.moves } }
        ensures left { self.old.room.entries ≤ self.new.room.entries + 3 }
    {
        let (_, last) = self.journal.bounds();
        let more = noted_due(self.jobs.cycle(job).is_some());
        self.jobs.note(job, last + 1, undo);
        self.due += more;
    }
}

/// How many entries the end of commitment control deposits, at this level or where it isn't started.
pub(crate) fn level_due(level: Option<Level>) -> u64
    ensures { result ≡ level_due level }
{
    match level {
        Some(_) => 1,
        None => 0,
    }
}

/// How many entries more a boundary may deposit with one change more, in an open commit cycle or in one that begins with it.
fn noted_due(is_open: bool) -> u64
    ensures { result ≡ (if is_open then 2 else 3) }
{
    if is_open { 2 } else { 3 }
}
