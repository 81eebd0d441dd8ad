//! The jobs that have begun, by number from 1. A job stands in `job.rt`, and who uses a member in `users.rt`.
ghost use Rattle.std.specs.Prelude.{◌≡◌, ℕ, ◌+◌, ◌-◌, ◌<◌, ◌≤◌, ◌==◌, Option, Some, None, not, [], ◌∷◌, ◌++◌, length, map, filter, All, IsTrue, IfOk, IfSome, OnOk, OnErr, option_map, option_copied, slice_get};
ghost use Rattle.std.specs.List.{list_any, AllZip};
ghost use Rattle.dds_logical.specs.declared.join_views.JoinView.{JoinView};
ghost use Rattle.file_model.specs.KeyOrder.{merged_parts};
ghost use Rattle.file_model.specs.Joins.{RowPlace};
ghost use Rattle.file_model.specs.Paths.{PathEntry};
ghost use Rattle.file_model.specs.Positions.{Position};
ghost use Rattle.file_cursor.specs.CursorPosition.{entry_of};
ghost use Rattle.join_position.specs.OpenStand.{IsEntryIn};
ghost use Rattle.join_position.specs.Reads.{entry_hit};
ghost use Rattle.library_model.specs.declared.limits.TheConstants.{MOST_OPENS};
ghost use Rattle.library_model.specs.Named.{named, same_name};
ghost use Rattle.lawful_states.below.library_steps.specs.declared.limits.TheConstants.{MOST_GROUP_CHANGES, MOST_GROUP_BYTES};
ghost use Rattle.lawful_states.specs.State.{new_job, job_at, job_changed, with_opens};
ghost use Rattle.lawful_states.specs.History.{is_running};
ghost use Rattle.lawful_states.specs.Opens.{with_open, without_open};
ghost use Rattle.lawful_states.specs.Reads.{open_changed, positioned, has_read, entry_found, row_found};
ghost use Rattle.lawful_states.specs.ChangeRecord.{without_current, without_record};
ghost use Rattle.lawful_states.specs.Commitment.{with_level, without_cycle, committed_open, rolled_back_open, has_committed_open};
ghost use Rattle.lawful_states.specs.EndJob.{ended_job};
ghost use Rattle.lawful_states.specs.Locking.{is_committed};
ghost use Rattle.lawful_states.specs.Uses.{changes_in};
ghost use Rattle.lawful_states.specs.SlotChange.{change_bytes, noted, with_cycle, has_changed_record};
ghost use Rattle.lawful_states.specs.Jobs.{cycle_from};
ghost use Rattle.job_table.specs.OpenChanges.{CanMake, CanStand, IsStood, IsRowRead, place_by, job_after};
ghost use Rattle.job_table.specs.Opens.{IsNewReads, order_by, AllOfNumber, SameOpen, AreNumbered};
ghost use Rattle.job_table.specs.Table.{HasRoomFor, IsWhole, job_of_number, orders_at, moves_at, changed_at, changes_held, bytes_held, closed_job};

use crate::changes::{Undo, Undos};
use crate::job::Job;
use crate::open::Open;
use crate::opens::{OpenChange, OpenNumbers, RowRead};
use crate::reads::OpenReads;
use commit_level::Level;
use field_types::lists::ListOf;
use field_types::names::Name;
use file_cursor::places::Hit;
use join_position::open_position::position::{Side, StandAt};
use library_model::requests::OpenFile;
use lock_table::Call;
use std::alloc::{AllocError, Global};
use std::marker::Model;

/// The greatest number of an open. A job that has had so many opens has no more.
pub const LAST_OPEN: u32 = 4_294_967_295;

/// The jobs in order of their numbers. Beside them, contracts see how the opens of each read, the moves that take its changes
/// back, and for how many changes it has room.
#[derive(Drop)]
pub struct Jobs {
    alloc: Global,
    jobs: Vec<Job>,
    changes: usize,
    bytes: u64,
}

impl Model for Jobs {
    ghost use Rattle.std.specs.Prelude.{All};
    ghost use Rattle.job_table.specs.Table.{JobTable, table_of, IsCounted, IsWhole};

    ghost Value = { JobTable };

    ghost view = { λ j. table_of j.jobs.items };

    ghost invariant = { λ j. IsCounted (table_of j.jobs.items).jobs j.changes j.bytes × All IsWhole j.jobs.items };
}

impl Jobs {
    /// No job has begun.
    pub fn new(alloc: Global) -> Jobs
        ensures { result ≡ record { jobs = []; rooms = []; orders = []; moves = [] } }
    {
        Jobs {
            alloc,
            jobs: Vec::new(alloc),
            changes: 0,
            bytes: 0,
        }
    }

    /// How many have begun. Each open of theirs stands beside how it reads, and each change beside its moves.
    pub fn len(&self) -> usize
        ensures count { result ≡ length self.now.jobs }
        ensures few { result ≤ 4294967295 }
        ensures ordered { AllZip (λ job orders. AllZip SameOpen job.opens orders) self.now.jobs self.now.orders }
        ensures counted { AllZip (λ job moves. length moves ≡ length (changes_in job.cycle)) self.now.jobs self.now.moves }
    {
        self.jobs.len()
    }

    /// Begins a job and answers its number. It takes the memory of all opens that the job may have.
    pub fn begin(&mut self, name: Name) -> Result<u32, AllocError>
        requires { length self.old.jobs < 4294967295 }
        ensures number { IfOk result (λ n. n ≡ length self.old.jobs + 1) }
        ensures begun { OnOk result (self.new.jobs ≡ self.old.jobs ++ new_job name ∷ []) }
        ensures kept { OnOk result ((self.new.orders ≡ self.old.orders ++ [] ∷ []) × (self.new.moves ≡ self.old.moves ++ [] ∷ [])) }
        ensures unchanged { OnErr result (self.new ≡ self.old) }
    {
        let number = self.jobs.len() as u32 + 1;
        let job = Job::new(self.alloc, name)?;
        self.jobs.push(job)?;
        Ok(number)
    }

    // ---- looks

    /// Whether the job with that number has begun and not ended.
    pub fn is_running(&self, number: u32) -> bool
        ensures { result ≡ is_running (job_at number self.now.jobs) }
    {
        if number == 0 || number as usize > self.jobs.len() {
            return false;
        }
        let job = &self.jobs[number as usize - 1];
        !job.has_ended()
    }

    /// Its name.
    pub fn name(&self, number: u32) -> Name
        requires { IsTrue (is_running (job_at number self.now.jobs)) }
        ensures { result ≡ (job_of_number number self.now.jobs).name }
    {
        self.job(number).name()
    }

    /// The lock level of its commitment control.
    pub fn level(&self, number: u32) -> Option<Level>
        requires { IsTrue (is_running (job_at number self.now.jobs)) }
        ensures { result ≡ (job_of_number number self.now.jobs).level }
    {
        self.job(number).level()
    }

    /// The sequence of the entry with which its open commit cycle began.
    pub fn cycle(&self, number: u32) -> Option<u64>
        requires { IsTrue (is_running (job_at number self.now.jobs)) }
        ensures { result ≡ option_map (λ cycle. cycle.sequence) (job_of_number number self.now.jobs).cycle }
    {
        self.job(number).cycle().sequence()
    }

    /// The changes of its open commit cycle, the last one first.
    pub fn undos(&self, number: u32) -> &Undos
        requires { IsTrue (is_running (job_at number self.now.jobs)) }
        ensures { result.now.changes ≡ changes_in (job_of_number number self.now.jobs).cycle }
    {
        self.job(number).cycle().undos()
    }

    /// The changes of the open commit cycle of the job at a place, counted from 0, the last one first; also of one that has ended.
    pub fn changes_of(&self, place: usize) -> &Undos
        requires { place < length self.now.jobs }
        ensures { option_map (λ job. changes_in job.cycle) (slice_get self.now.jobs place) ≡ Some result.now.changes }
    {
        self.jobs[place].cycle().undos()
    }

    /// Whether its open commit cycle has a change of the record.
    pub fn has_changed_record(&self, number: u32, member: u32, rrn: u32) -> bool
        requires { IsTrue (is_running (job_at number self.now.jobs)) }
        ensures { result ≡ has_changed_record member rrn (job_of_number number self.now.jobs) }
    {
        self.job(number).cycle().undos().have_record(member, rrn)
    }

    /// Its open of that name. No other open of the job has its number.
    pub fn open_named(&self, number: u32, name: &Name) -> Option<&Open>
        requires { IsTrue (is_running (job_at number self.now.jobs)) }
        ensures state { option_map (λ o. o.state) (option_copied result) ≡ named name.now (job_of_number number self.now.jobs).opens }
        ensures order { option_map (λ o. o.order) (option_copied result) ≡ named name.now (orders_at number self.now) }
        ensures alone { IfSome result (λ o. AllOfNumber o.now.state.number (λ order. order ≡ o.now.order) (orders_at number self.now)) }
    {
        self.job(number).open_named(name)
    }

    /// How many opens it has.
    pub fn open_count(&self, number: u32) -> usize
        requires { IsTrue (is_running (job_at number self.now.jobs)) }
        ensures count { result ≡ length (job_of_number number self.now.jobs).opens }
        ensures few { result ≤ MOST_OPENS }
    {
        self.job(number).opens().len()
    }

    /// How many opens it has had.
    pub fn opened(&self, number: u32) -> u32
        requires { IsTrue (is_running (job_at number self.now.jobs)) }
        ensures count { result ≡ (job_of_number number self.now.jobs).opened }
        ensures numbered { AreNumbered (job_of_number number self.now.jobs).opens result }
    {
        self.job(number).opened()
    }

    /// Whether it has an open under commitment control.
    pub fn has_committed_open(&self, number: u32) -> bool
        requires { IsTrue (is_running (job_at number self.now.jobs)) }
        ensures { result ≡ has_committed_open (job_of_number number self.now.jobs) }
    {
        self.job(number).opens().have_committed()
    }

    /// The numbers of its opens under commitment control.
    pub fn committed_opens(&self, number: u32) -> OpenNumbers
        requires { IsTrue (is_running (job_at number self.now.jobs)) }
        ensures { (opened : ℕ) → list_any (λ n. n == opened) result ≡ is_committed (job_of_number number self.now.jobs) opened }
    {
        self.job(number).opens().committed()
    }

    /// How many changes the open commit cycles of all jobs have.
    pub fn changes_held(&self) -> usize
        ensures { result ≡ changes_held self.now.jobs }
    {
        self.changes
    }

    /// The bytes of images in the entries that would take these changes back.
    pub fn bytes_held(&self) -> u64
        ensures { result ≡ bytes_held self.now.jobs }
    {
        self.bytes
    }

    // ---- opens

    /// Opens a file over these members.
    pub fn add_open(&mut self, number: u32, args: &OpenFile, members: ListOf<u32>, reads: OpenReads)
        requires running { IsTrue (is_running (job_at number self.old.jobs)) }
        requires few { length (job_of_number number self.old.jobs).opens < MOST_OPENS }
        requires numbered { (job_of_number number self.old.jobs).opened < LAST_OPEN }
        requires start { IsNewReads args.now.commit reads }
        ensures { self.new ≡ record self.old {
          jobs = job_changed (number - 1) (with_open args.now members) self.old.jobs;
          orders = changed_at (number - 1) (λ orders. orders ++ (args.now.open_id, order_by ((job_of_number number self.old.jobs).opened + 1) reads) ∷ []) self.old.orders;
        } }
    {
        let job = &mut self.jobs[number as usize - 1];
        job.add_open(args, members, reads);
    }

    /// Closes its open of that name.
    pub fn remove_open(&mut self, number: u32, name: &Name)
        requires { IsTrue (is_running (job_at number self.old.jobs)) }
        ensures { self.new ≡ record self.old {
          jobs = job_changed (number - 1) (without_open name.now) self.old.jobs;
          orders = changed_at (number - 1) (λ orders. filter (λ entry. not (same_name name.now entry.0)) orders) self.old.orders;
        } }
    {
        let job = &mut self.jobs[number as usize - 1];
        job.remove_open(name);
    }

    /// Sets the position of its open with that number to this side of a place.
    pub fn set_position(&mut self, number: u32, opened: u32, side: Side, at: StandAt<'_>)
        requires running { IsTrue (is_running (job_at number self.old.jobs)) }
        requires place { AllOfNumber opened (λ order. CanStand order.join order.formats at) (orders_at number self.old) }
        ensures { (join : Option JoinView) (position : Position PathEntry)
            → AllOfNumber opened (λ order. IsStood join order.join side at.entry order.formats position) (orders_at number self.old)
            → self.new ≡ record self.old { jobs = job_changed (number - 1) (open_changed opened (positioned join position)) self.old.jobs } }
    {
        self.change_opens(number, &OpenChange::Positioned(opened, side, at));
    }

    /// Notes what its open with that number has read.
    pub fn note_read(&mut self, number: u32, opened: u32, call: Call, hit: &Hit<'_>)
        requires running { IsTrue (is_running (job_at number self.old.jobs)) }
        requires entry { AllOfNumber opened (λ order. IsEntryIn order.formats (entry_of hit.now)) (orders_at number self.old) }
        ensures { (entry : PathEntry) → AllOfNumber opened (λ order. entry_hit (merged_parts order.formats) hit.now ≡ entry) (orders_at number self.old)
            → self.new ≡ record self.old { jobs = job_changed (number - 1) (open_changed opened (has_read call (entry_found entry))) self.old.jobs } }
    {
        self.change_opens(number, &OpenChange::HasRead(opened, call, *hit));
    }

    /// Notes what its open with that number of a join file has read.
    pub fn note_row(&mut self, number: u32, opened: u32, call: Call, read: RowRead<'_>)
        requires running { IsTrue (is_running (job_at number self.old.jobs)) }
        requires row { AllOfNumber opened (λ order. IsRowRead order.join read) (orders_at number self.old) }
        ensures { (place : RowPlace) → AllOfNumber opened (λ order. place_by order.join read.entry ≡ place) (orders_at number self.old)
            → self.new ≡ record self.old { jobs = job_changed (number - 1) (open_changed opened (has_read call (row_found place))) self.old.jobs } }
    {
        self.change_opens(number, &OpenChange::HasReadRow(opened, call, read));
    }

    /// Its open with that number has no current record any more.
    pub fn give_up_current(&mut self, number: u32, opened: u32)
        requires { IsTrue (is_running (job_at number self.old.jobs)) }
        ensures { self.new ≡ record self.old { jobs = job_changed (number - 1) (open_changed opened without_current) self.old.jobs } }
    {
        self.change_opens(number, &OpenChange::WithoutCurrent(opened));
    }

    /// None of its opens has the record as its current one any more.
    pub fn give_up_record(&mut self, number: u32, member: u32, rrn: u32)
        requires { IsTrue (is_running (job_at number self.old.jobs)) }
        ensures { self.new ≡ record self.old { jobs = job_changed (number - 1) (with_opens (without_record member rrn)) self.old.jobs } }
    {
        self.change_opens(number, &OpenChange::WithoutRecord(member, rrn));
    }

    // ---- commitment control

    /// Starts its commitment control.
    pub fn start_commitment(&mut self, number: u32, level: Level)
        requires { IsTrue (is_running (job_at number self.old.jobs)) }
        ensures { self.new ≡ record self.old { jobs = job_changed (number - 1) (with_level (Some level)) self.old.jobs } }
    {
        self.set_level(number, Some(level));
    }

    /// Ends it.
    pub fn end_commitment(&mut self, number: u32)
        requires { IsTrue (is_running (job_at number self.old.jobs)) }
        ensures { self.new ≡ record self.old { jobs = job_changed (number - 1) (with_level None) self.old.jobs } }
    {
        self.set_level(number, None);
    }

    /// Makes room for one change more in its commit cycle.
    pub fn reserve_undo(&mut self, number: u32) -> Result<(), AllocError>
        requires { IsTrue (is_running (job_at number self.old.jobs)) }
        ensures jobs { self.new.jobs ≡ self.old.jobs }
        ensures orders { self.new.orders ≡ self.old.orders }
        ensures moves { self.new.moves ≡ self.old.moves }
        ensures room { OnOk result (HasRoomFor number self.new) }
    {
        let job = &mut self.jobs[number as usize - 1];
        job.reserve_undo()
    }

    /// Keeps a change in its commit cycle. Where none is open, one begins with the entry of that sequence.
    pub fn note(&mut self, number: u32, sequence: u64, undo: Undo)
        requires running { IsTrue (is_running (job_at number self.old.jobs)) }
        requires room { HasRoomFor number self.old }
        requires few_changes { changes_held self.old.jobs + 1 ≤ MOST_GROUP_CHANGES }
        requires few_bytes { bytes_held self.old.jobs + change_bytes undo.change ≤ MOST_GROUP_BYTES }
        ensures { self.new ≡ record self.old {
          jobs = job_changed (number - 1) (with_cycle (noted undo.change (cycle_from sequence (job_of_number number self.old.jobs).cycle))) self.old.jobs;
          moves = changed_at (number - 1) (λ moves. undo.moves ∷ moves) self.old.moves;
        } }
    {
        self.changes += 1;
        self.bytes += undo.bytes();
        let job = &mut self.jobs[number as usize - 1];
        job.note(sequence, undo);
    }

    /// Commits: its commit cycle has ended, and its opens under commitment have read nothing since.
    pub fn commit(&mut self, number: u32)
        requires { IsTrue (is_running (job_at number self.old.jobs)) }
        ensures jobs { self.new.jobs ≡ job_changed (number - 1) (λ j. with_opens committed_open (without_cycle j)) self.old.jobs }
        ensures orders { self.new.orders ≡ self.old.orders }
        ensures moves { self.new.moves ≡ changed_at (number - 1) (λ moves. []) self.old.moves }
    {
        let _changes = self.end_cycle(number);
        self.change_opens(number, &OpenChange::Committed);
    }

    /// Rolls back, but for the slots of its changes, which it hands out.
    pub fn rollback(&mut self, number: u32) -> Undos
        requires { IsTrue (is_running (job_at number self.old.jobs)) }
        ensures jobs { self.new.jobs ≡ job_changed (number - 1) (λ j. with_opens rolled_back_open (without_cycle j)) self.old.jobs }
        ensures orders { self.new.orders ≡ self.old.orders }
        ensures moves { self.new.moves ≡ changed_at (number - 1) (λ moves. []) self.old.moves }
        ensures changes { result.changes ≡ changes_in (job_of_number number self.old.jobs).cycle }
        ensures given { result.moves ≡ moves_at number self.old }
    {
        let undos = self.end_cycle(number);
        self.change_opens(number, &OpenChange::RolledBack);
        undos
    }

    /// Ends the job, but for the slots of its changes, which it hands out.
    pub fn end(&mut self, number: u32) -> Undos
        requires { IsTrue (is_running (job_at number self.old.jobs)) }
        ensures jobs { self.new.jobs ≡ job_changed (number - 1) ended_job self.old.jobs }
        ensures orders { self.new.orders ≡ changed_at (number - 1) (λ orders. []) self.old.orders }
        ensures moves { self.new.moves ≡ changed_at (number - 1) (λ moves. []) self.old.moves }
        ensures changes { result.changes ≡ changes_in (job_of_number number self.old.jobs).cycle }
        ensures given { result.moves ≡ moves_at number self.old }
    {
        let undos = self.end_cycle(number);
        self.close(number);
        undos
    }

    // ---- parts of these

    pub(crate) fn all(&self) -> &[Job]
        ensures jobs { map (λ job. job.state) result.now ≡ self.now.jobs }
        ensures few { length result.now ≤ 4294967295 }
    {
        &self.jobs
    }

    fn job(&self, number: u32) -> &Job
        requires { IsTrue (is_running (job_at number self.now.jobs)) }
        ensures state { result.now.state ≡ job_of_number number self.now.jobs }
        ensures orders { result.now.orders ≡ orders_at number self.now }
    {
        &self.jobs[number as usize - 1]
    }

    fn change_opens(&mut self, number: u32, change: &OpenChange<'_>)
        requires running { IsTrue (is_running (job_at number self.old.jobs)) }
        requires possible { All (λ entry. CanMake change.now entry.1) (orders_at number self.old) }
        ensures changed { self.new ≡ record self.old { jobs = job_changed (number - 1) (job_after change.now (orders_at number self.old)) self.old.jobs } }
        ensures ordered { AllZip SameOpen (job_of_number number self.old.jobs).opens (orders_at number self.old) }
    {
        let job = &mut self.jobs[number as usize - 1];
        job.change_opens(change);
    }

    fn set_level(&mut self, number: u32, level: Option<Level>)
        requires { IsTrue (is_running (job_at number self.old.jobs)) }
        ensures { self.new ≡ record self.old { jobs = job_changed (number - 1) (with_level level) self.old.jobs } }
    {
        let job = &mut self.jobs[number as usize - 1];
        job.set_level(level);
    }

    fn end_cycle(&mut self, number: u32) -> Undos
        requires { IsTrue (is_running (job_at number self.old.jobs)) }
        ensures jobs { self.new.jobs ≡ job_changed (number - 1) without_cycle self.old.jobs }
        ensures orders { self.new.orders ≡ self.old.orders }
        ensures moves { self.new.moves ≡ changed_at (number - 1) (λ moves. []) self.old.moves }
        ensures changes { result.changes ≡ changes_in (job_of_number number self.old.jobs).cycle }
        ensures given { result.moves ≡ moves_at number self.old }
    {
        let alloc = self.alloc;
        let job = &mut self.jobs[number as usize - 1];
        let undos = job.end_cycle(alloc);
        self.changes -= undos.len();
        self.bytes -= undos.bytes();
        undos
    }

    fn close(&mut self, number: u32)
        requires { IsTrue (is_running (job_at number self.old.jobs)) }
        ensures { self.new ≡ record self.old {
          jobs = job_changed (number - 1) closed_job self.old.jobs;
          orders = changed_at (number - 1) (λ orders. []) self.old.orders;
        } }
    {
        let job = &mut self.jobs[number as usize - 1];
        job.close();
    }
}
