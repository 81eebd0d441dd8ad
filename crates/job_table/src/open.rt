//! One open of a job.
ghost use Rattle.std.specs.Prelude.{◌≡◌, ◌==◌, None, slice_get, unwrap_or, option_copied};
ghost use Rattle.std.specs.List.{list_any};
ghost use Rattle.file_model.specs.Positions.{Start, On};
ghost use Rattle.file_cursor.specs.CursorPosition.{entry_of};
ghost use Rattle.join_position.specs.OpenStand.{IsEntryIn};
ghost use Rattle.lawful_states.specs.Opens.{first_of, new_open};
ghost use Rattle.lawful_states.specs.Reads.{at_format, current_after};
ghost use Rattle.lawful_states.specs.ChangeRecord.{without_record};
ghost use Rattle.lawful_states.specs.Commitment.{committed_open, rolled_back_open};
ghost use Rattle.job_table.specs.OpenChanges.{CanMake, CanStand, IsRowRead, place_by, open_after};
ghost use Rattle.job_table.specs.Opens.{IsNewReads, order_by, rows_in, join_by};

use crate::opens::{OpenChange, RowRead};
use crate::reads::{OpenReads, OpenRows};
use field_types::lists::ListOf;
use field_types::names::Name;
use file_cursor::places::Hit;
use join_position::open_position::position::{OpenPosition, Side, StandAt};
use library_model::requests::{AccessPath, OpenFile, OpenOption};
use lock_table::Call;
use std::marker::Model;

/// An open of a file.
#[derive(Drop)]
pub struct Open {
    number: u32,
    file: Name,
    /// The members that it is over, in the order of the file's formats.
    members: ListOf<u32>,
    /// The format of the record that was read last, and the member of that record; before any read the first.
    format: u16,
    member: u32,
    option: OpenOption,
    access_path: AccessPath,
    commit: bool,
    path: Option<u64>,
    position: OpenPosition,
    /// How it reads the rows of a join file.
    rows: Option<OpenRows>,
    current: Option<u32>,
    last_read: Option<u32>,
}

impl Model for Open {
    ghost use Rattle.job_table.specs.Opens.{KeptOpen, IsPositionOf, rows_in, join_by};

    ghost Value = { KeptOpen };

    ghost view = { λ o. record {
      state = record {
        number = o.number;
        file = o.file;
        members = o.members;
        format = o.format;
        member = o.member;
        option = o.option;
        access_path = o.access_path;
        commit = o.commit;
        position = o.position.position;
        rows = rows_in o.rows;
        current = o.current;
        last_read = o.last_read;
        boundary = o.position.boundary;
      };
      order = record { number = o.number; path = o.path; formats = o.position.formats; join = join_by o.rows };
    } };

    ghost invariant = { λ o. IsPositionOf o.commit o.position };
}

impl Open {
    /// An open that has read nothing.
    pub fn new(args: &OpenFile, number: u32, members: ListOf<u32>, reads: OpenReads) -> Open
        requires { IsNewReads args.now.commit reads }
        ensures state { result.state ≡ new_open args.now number members }
        ensures order { result.order ≡ order_by number reads }
    {
        let first = first_of(members.as_slice());
        Open {
            number,
            file: args.file,
            members,
            format: 0,
            member: first,
            option: args.option,
            access_path: args.access_path,
            commit: args.commit,
            path: reads.path,
            position: reads.position,
            rows: reads.rows,
            current: None,
            last_read: None,
        }
    }

    /// Its number among all opens of the job, from 1.
    pub fn number(&self) -> u32
        ensures { result ≡ self.now.state.number }
    {
        self.number
    }

    /// The name of the file.
    pub fn file(&self) -> Name
        ensures { result ≡ self.now.state.file }
    {
        self.file
    }

    /// The numbers of its members. Where it is of no join file, it stands at the start of no rows.
    pub fn members(&self) -> &[u32]
        ensures members { result.now ≡ self.now.state.members }
        ensures rows { self.now.order.join ≡ None → self.now.state.rows ≡ Start }
    {
        self.members.as_slice()
    }

    /// How it reads the rows of a join file, and where it stands among them; none of any other file, where it stands at the start.
    pub fn rows(&self) -> Option<&OpenRows>
        ensures position { rows_in (option_copied result) ≡ self.now.state.rows }
        ensures order { join_by (option_copied result) ≡ self.now.order.join }
    {
        self.rows.as_ref()
    }

    /// The number of the member of the record that was read last, before any read the first.
    pub fn member(&self) -> u32
        ensures { result ≡ self.now.state.member }
    {
        self.member
    }

    /// Where it read its last record, before any read at the first format.
    pub fn here(&self) -> OpenAt<'_>
        ensures { result ≡ self.now }
    {
        OpenAt {
            opened: self,
            format: self.format,
            member: self.member,
        }
    }

    /// Where it reads or writes a record of the format of this number.
    pub fn at(&self, format: u16) -> OpenAt<'_>
        ensures state { result.state ≡ at_format format self.now.state }
        ensures order { result.order ≡ self.now.order }
    {
        OpenAt {
            opened: self,
            format,
            member: member_at(self.members.as_slice(), format, self.member),
        }
    }

    /// Whether it is over the member.
    pub fn is_over(&self, member: u32) -> bool
        ensures { result ≡ list_any (λ base. base == member) self.now.state.members }
    {
        self.members.as_slice().iter().any(|&base| base == member)
    }

    /// What it may do.
    pub fn option(&self) -> OpenOption
        ensures { result ≡ self.now.state.option }
    {
        self.option
    }

    /// The order in which it reads.
    pub fn access_path(&self) -> AccessPath
        ensures { result ≡ self.now.state.access_path }
    {
        self.access_path
    }

    /// Whether it is under commitment control.
    pub fn commit(&self) -> bool
        ensures { result ≡ self.now.state.commit }
    {
        self.commit
    }

    /// Where it stands, and where it stood at the last boundary.
    pub fn stand(&self) -> &OpenPosition
        ensures position { result.now.position ≡ self.now.state.position }
        ensures boundary { result.now.boundary ≡ self.now.state.boundary }
        ensures formats { result.now.formats ≡ self.now.order.formats }
    {
        &self.position
    }

    /// The number of its path; none where it reads in arrival order.
    pub fn path(&self) -> Option<u64>
        ensures { result ≡ self.now.order.path }
    {
        self.path
    }

    /// The record that may be changed.
    pub fn current(&self) -> Option<u32>
        ensures { result ≡ self.now.state.current }
    {
        self.current
    }

    /// The record that was read last.
    pub fn last_read(&self) -> Option<u32>
        ensures { result ≡ self.now.state.last_read }
    {
        self.last_read
    }

    /// What the change makes of it.
    pub(crate) fn make(&mut self, change: &OpenChange<'_>)
        requires { CanMake change.now self.old.order }
        ensures { self.new ≡ open_after change.now self.old }
    {
        match change {
            OpenChange::Positioned(number, side, at) => self.set_position(*number, *side, *at),
            OpenChange::HasRead(number, call, hit) => self.note_read(*number, *call, hit),
            OpenChange::HasReadRow(number, call, read) => self.note_row(*number, *call, *read),
            OpenChange::WithoutCurrent(number) => self.give_up(*number),
            OpenChange::WithoutRecord(member, rrn) => self.give_up_record(*member, *rrn),
            OpenChange::Committed => self.commit_reads(),
            OpenChange::RolledBack => self.roll_back(),
        }
    }

    fn set_position(&mut self, number: u32, side: Side, at: StandAt<'_>)
        requires { self.old.order.number ≡ number → CanStand self.old.order.join self.old.order.formats at }
        ensures { self.new ≡ open_after (OpenChange.Positioned number side at.entry) self.old }
    {
        if self.number == number {
            match &mut self.rows {
                None => self.position.stand(side, at),
                Some(rows) => rows.position.stand(side, at),
            }
            self.current = None;
            self.last_read = None;
        }
    }

    fn note_read(&mut self, number: u32, call: Call, hit: &Hit<'_>)
        requires { self.old.order.number ≡ number → IsEntryIn self.old.order.formats (entry_of hit.now) }
        ensures { self.new ≡ open_after (OpenChange.HasRead number call hit.now) self.old }
    {
        if self.number == number {
            self.member = member_at(self.members.as_slice(), hit.format, self.member);
            self.format = hit.format;
            self.position.settle(hit);
            self.current = current_after(call, hit.rrn);
            self.last_read = Some(hit.rrn);
        }
    }

    fn note_row(&mut self, number: u32, call: Call, read: RowRead<'_>)
        requires { self.old.order.number ≡ number → IsRowRead self.old.order.join read }
        ensures { self.new ≡ open_after (OpenChange.HasReadRow number call read.entry) self.old }
    {
        if self.number == number {
            settle_row(&mut self.rows, read);
            let entry = read.row.primary;
            self.member = member_at(self.members.as_slice(), entry.format, self.member);
            self.format = entry.format;
            self.current = current_after(call, entry.rrn);
            self.last_read = Some(entry.rrn);
        }
    }

    fn give_up(&mut self, number: u32)
        ensures { self.new ≡ open_after (OpenChange.WithoutCurrent number) self.old }
    {
        if self.number == number {
            self.current = None;
        }
    }

    fn give_up_record(&mut self, member: u32, rrn: u32)
        ensures { self.new ≡ record self.old { state = without_record member rrn self.old.state } }
    {
        if self.member == member && self.current.unwrap_or(0) == rrn {
            self.current = None;
        }
    }

    fn commit_reads(&mut self)
        ensures { self.new ≡ record self.old { state = committed_open self.old.state } }
    {
        if self.commit {
            self.current = None;
            self.last_read = None;
            self.position.mark();
        }
    }

    fn roll_back(&mut self)
        ensures { self.new ≡ record self.old { state = rolled_back_open self.old.state } }
    {
        if self.commit {
            self.position.go_back();
        }
        self.current = None;
        self.last_read = None;
    }
}

/// An open, where it reads or writes a record of one of its formats.
#[derive(Drop)]
pub struct OpenAt<'a> {
    opened: &'a Open,
    format: u16,
    member: u32,
}

impl<'a> Model for OpenAt<'a> {
    ghost use Rattle.job_table.specs.Opens.{KeptOpen, placed_at};

    ghost Value = { KeptOpen };

    ghost view = { λ o. placed_at o.format o.member o.opened.now };
}

impl<'a> OpenAt<'a> {
    /// The open itself.
    pub fn opened(&self) -> &'a Open
        ensures number { result.now.state.number ≡ self.now.state.number }
        ensures order { result.now.order ≡ self.now.order }
    {
        self.opened
    }

    /// Its number among all opens of the job, from 1.
    pub fn number(&self) -> u32
        ensures { result ≡ self.now.state.number }
    {
        self.opened.number()
    }

    /// The number of the format, counted from 0.
    pub fn format(&self) -> u16
        ensures { result ≡ self.now.state.format }
    {
        self.format
    }

    /// The number of the format's member.
    pub fn member(&self) -> u32
        ensures { result ≡ self.now.state.member }
    {
        self.member
    }

    /// What the open may do.
    pub fn option(&self) -> OpenOption
        ensures { result ≡ self.now.state.option }
    {
        self.opened.option()
    }

    /// Whether it is under commitment control.
    pub fn commit(&self) -> bool
        ensures { result ≡ self.now.state.commit }
    {
        self.opened.commit()
    }

    /// The record that may be changed.
    pub fn current(&self) -> Option<u32>
        ensures { result ≡ self.now.state.current }
    {
        self.opened.current()
    }

    /// The record that was read last.
    pub fn last_read(&self) -> Option<u32>
        ensures { result ≡ self.now.state.last_read }
    {
        self.opened.last_read()
    }
}

/// The first of some members, 0 where there is none.
pub fn first_of(members: &[u32]) -> u32
    ensures { result ≡ first_of members.now }
{
    match members {
        [] => 0,
        [first, ..] => *first,
    }
}

/// The member of the format of this number, or another where there is none.
fn member_at(members: &[u32], format: u16, other: u32) -> u32
    ensures { result ≡ unwrap_or (slice_get members.now format) other }
{
    members.get(usize::from(format)).copied().unwrap_or(other)
}

/// Stands on a row that was read.
fn settle_row(rows: &mut Option<OpenRows>, read: RowRead<'_>)
    requires { IsRowRead (join_by rows.old) read }
    ensures position { rows_in rows.new ≡ On (place_by (join_by rows.old) read.entry) }
    ensures order { join_by rows.new ≡ join_by rows.old }
{
    match rows {
        None => unreachable!(),
        Some(rows) => rows.position.settle(read.join, read.row),
    }
}

/// The record that is the current one after a read.
fn current_after(call: Call, rrn: u32) -> Option<u32>
    ensures { result ≡ current_after call rrn }
{
    if call == Call::UpdateRead {
        Some(rrn)
    } else {
        None
    }
}
