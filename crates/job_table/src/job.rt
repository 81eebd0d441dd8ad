//! A job that has begun.
ghost use Rattle.std.specs.Prelude.{◌≡◌, ◌+◌, ◌<◌, ◌≤◌, [], ◌∷◌, ◌++◌, not, length, filter, All, IfOk, IfSome, OnOk, option_map, option_copied};
ghost use Rattle.library_model.specs.declared.limits.TheConstants.{MOST_OPENS};
ghost use Rattle.lawful_states.below.library_steps.specs.declared.limits.TheConstants.{MOST_GROUP_BYTES};
ghost use Rattle.library_model.specs.Named.{named, same_name};
ghost use Rattle.lawful_states.specs.State.{new_job};
ghost use Rattle.lawful_states.specs.Opens.{with_open, without_open};
ghost use Rattle.lawful_states.specs.Uses.{changes_in};
ghost use Rattle.lawful_states.specs.SlotChange.{change_bytes, noted, with_cycle};
ghost use Rattle.lawful_states.specs.Commitment.{with_level, without_cycle};
ghost use Rattle.job_table.specs.Changes.{HasRoom, bytes_of};
ghost use Rattle.lawful_states.specs.Jobs.{cycle_from};
ghost use Rattle.job_table.specs.OpenChanges.{CanMake, job_after};
ghost use Rattle.job_table.specs.Opens.{IsNewReads, order_by, AllOfNumber, states_of, AreNumbered};
ghost use Rattle.job_table.specs.Table.{IsWhole, closed_job};

use crate::changes::{Undo, Undos};
use crate::cycle::Cycle;
use crate::jobs::LAST_OPEN;
use crate::open::Open;
use crate::opens::{OpenChange, Opens};
use crate::reads::OpenReads;
use commit_level::Level;
use field_types::lists::ListOf;
use field_types::names::Name;
use library_model::requests::OpenFile;
use std::alloc::{AllocError, Global};
use std::marker::Model;

/// A job that has begun.
#[derive(Drop)]
pub struct Job {
    name: Name,
    /// Its ENDJOB was answered.
    ended: bool,
    level: Option<Level>,
    cycle: Cycle,
    opens: Opens,
    opened: u32,
}

impl Model for Job {
    ghost use Rattle.std.specs.Prelude.{◌≡◌, length};
    ghost use Rattle.lawful_states.specs.Uses.{changes_in};
    ghost use Rattle.job_table.specs.Opens.{states_of, orders_of, AreKept};
    ghost use Rattle.job_table.specs.Table.{RoomyJob, job_state};

    ghost Value = { RoomyJob };

    ghost view = { λ j. record {
      state = job_state j.name j.ended j.level j.cycle.cycle (states_of j.opens) j.opened;
      room = j.cycle.room;
      orders = orders_of j.opens;
      moves = j.cycle.moves;
    } };

    ghost invariant = { λ j. AreKept j.opens j.opened × (length j.cycle.moves ≡ length (changes_in j.cycle.cycle)) };
}

impl Job {
    /// A job that has done nothing.
    pub fn new(alloc: Global, name: Name) -> Result<Job, AllocError>
        ensures state { IfOk result (λ job. job.state ≡ new_job name) }
        ensures orders { IfOk result (λ job. job.orders ≡ []) }
        ensures moves { IfOk result (λ job. job.moves ≡ []) }
    {
        Ok(Job {
            name,
            ended: false,
            level: None,
            cycle: Cycle::new(alloc),
            opens: Opens::new(alloc)?,
            opened: 0,
        })
    }

    /// Its name.
    pub fn name(&self) -> Name
        ensures { result ≡ self.now.state.name }
    {
        self.name
    }

    /// Whether its ENDJOB was answered.
    pub fn has_ended(&self) -> bool
        ensures { result ≡ self.now.state.ended }
    {
        self.ended
    }

    /// The lock level of commitment control.
    pub fn level(&self) -> Option<Level>
        ensures { result ≡ self.now.state.level }
    {
        self.level
    }

    /// Its open commit cycle.
    pub fn cycle(&self) -> &Cycle
        ensures { result.now ≡ record { cycle = self.now.state.cycle; moves = self.now.moves; room = self.now.room } }
    {
        &self.cycle
    }

    /// Its opens.
    pub fn opens(&self) -> &Opens
        ensures { states_of result.now ≡ self.now.state.opens }
    {
        &self.opens
    }

    /// Its open of that name. No other open has its number.
    pub fn open_named(&self, name: &Name) -> Option<&Open>
        ensures state { option_map (λ o. o.state) (option_copied result) ≡ named name.now self.now.state.opens }
        ensures order { option_map (λ o. o.order) (option_copied result) ≡ named name.now self.now.orders }
        ensures alone { IfSome result (λ o. AllOfNumber o.now.state.number (λ order. order ≡ o.now.order) self.now.orders) }
    {
        self.opens.named(name)
    }

    /// How many opens it has had.
    pub fn opened(&self) -> u32
        ensures count { result ≡ self.now.state.opened }
        ensures numbered { AreNumbered self.now.state.opens result }
    {
        self.opened
    }

    /// Opens a file over these members.
    pub fn add_open(&mut self, args: &OpenFile, members: ListOf<u32>, reads: OpenReads)
        requires few { length self.old.state.opens < MOST_OPENS }
        requires numbered { self.old.state.opened < LAST_OPEN }
        requires start { IsNewReads args.now.commit reads }
        ensures added { self.new ≡ record self.old {
          state = with_open args.now members self.old.state;
          orders = self.old.orders ++ (args.now.open_id, order_by (self.old.state.opened + 1) reads) ∷ [];
        } }
        ensures whole { IsWhole self.new }
    {
        self.opened += 1;
        self.opens
            .add(args.open_id, Open::new(args, self.opened, members, reads));
    }

    /// Closes an open.
    pub fn remove_open(&mut self, name: &Name)
        ensures removed { self.new ≡ record self.old {
          state = without_open name.now self.old.state;
          orders = filter (λ entry. not (same_name name.now entry.0)) self.old.orders;
        } }
        ensures whole { IsWhole self.new }
    {
        self.opens.remove(name);
    }

    /// What the change makes of its opens.
    pub fn change_opens(&mut self, change: &OpenChange<'_>)
        requires { All (λ entry. CanMake change.now entry.1) self.old.orders }
        ensures changed { self.new ≡ record self.old { state = job_after change.now self.old.orders self.old.state } }
        ensures whole { IsWhole self.new }
    {
        self.opens.change_each(change);
    }

    /// Starts commitment control at a level, or ends it.
    pub fn set_level(&mut self, level: Option<Level>)
        ensures set { self.new ≡ record self.old { state = with_level level self.old.state } }
        ensures whole { IsWhole self.new }
    {
        self.level = level;
    }

    /// Makes room for one change more.
    pub fn reserve_undo(&mut self) -> Result<(), AllocError>
        ensures state { self.new.state ≡ self.old.state }
        ensures orders { self.new.orders ≡ self.old.orders }
        ensures moves { self.new.moves ≡ self.old.moves }
        ensures whole { IsWhole self.new }
        ensures room { OnOk result (HasRoom (changes_in self.new.state.cycle) self.new.room) }
    {
        self.cycle.reserve()
    }

    /// Keeps a change in its commit cycle, which may begin with it.
    pub fn note(&mut self, sequence: u64, undo: Undo)
        requires room { HasRoom (changes_in self.old.state.cycle) self.old.room }
        requires few { bytes_of (changes_in self.old.state.cycle) + change_bytes undo.change ≤ MOST_GROUP_BYTES }
        ensures kept { self.new ≡ record self.old {
          state = with_cycle (noted undo.change (cycle_from sequence self.old.state.cycle)) self.old.state;
          moves = undo.moves ∷ self.old.moves;
        } }
        ensures whole { IsWhole self.new }
    {
        self.cycle.note(sequence, undo);
    }

    /// Ends its commit cycle, and hands the changes out.
    pub fn end_cycle(&mut self, alloc: Global) -> Undos
        ensures changes { result.changes ≡ changes_in self.old.state.cycle }
        ensures given { result.moves ≡ self.old.moves }
        ensures state { self.new.state ≡ without_cycle self.old.state }
        ensures orders { self.new.orders ≡ self.old.orders }
        ensures moves { self.new.moves ≡ [] }
        ensures whole { IsWhole self.new }
    {
        self.cycle.end(alloc)
    }

    /// Closes its opens and ends it.
    pub fn close(&mut self)
        ensures closed { self.new ≡ record self.old { state = closed_job self.old.state; orders = [] } }
        ensures whole { IsWhole self.new }
    {
        self.opens.clear();
        self.level = None;
        self.ended = true;
    }
}
