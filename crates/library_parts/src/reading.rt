//! What an open reads: the key that a request gives, the record that a read finds, and where the open stands then.
ghost use Rattle.std.specs.Prelude.{◌≡◌, ◌≤◌, ◌&&◌, nat_lt, [], ◌∷◌, Ok, Some, None, true, false, is_some, length, map, IfOk, IfSome, IsSome, IsTrue, List, option_map};
ghost use Rattle.std.specs.List.{find};
ghost use Rattle.file_model.specs.KeyOrder.{merged_parts};
ghost use Rattle.file_model.specs.Paths.{PathEntry};
ghost use Rattle.file_model.specs.Positions.{Position, Reading, Start};
ghost use Rattle.lawful_states.specs.Physical.{IsPhysical};
ghost use Rattle.parts_model.specs.CursorPosition.{entry_of};
ghost use Rattle.access_path.below.key_order.specs.declared.widths.TheConstants.{MOST_POSITIONS};
ghost use Rattle.access_path.specs.KeyFields.{ArePositions};
ghost use Rattle.key_spec.specs.declared.KeyPart.{KeyPart};
ghost use Rattle.parts_model.specs.MemberSteps.{is_over};
ghost use Rattle.member_slots.specs.Members.{NumberedMembers};
ghost use Rattle.parts_model.specs.Opens.{AllOfNumber, join_by, rows_in};
ghost use Rattle.parts_model.specs.Table.{job_of_number, orders_at};
ghost use Rattle.library_model.specs.Named.{named};
ghost use Rattle.library_steps.specs.History.{is_running};
ghost use Rattle.library_steps.specs.Reads.{at_format, bound_asked, open_changed, positioned, has_read, entry_found};
ghost use Rattle.library_steps.specs.Records.{is_file_path, is_keyed, live_record, reading_of};
ghost use Rattle.library_steps.specs.Refusals.{OpenedFile, opened_file};
ghost use Rattle.library_steps.specs.State.{memory_of, job_at, open_named, with_job};
ghost use Rattle.parts_model.specs.OpenStand.{AreFormatKeys, IsEntryIn};
ghost use Rattle.parts_model.specs.OpenPositionReads.{IsAskedOf, IsStandAt, asked_of, entry_hit, side_of, stood};
ghost use Rattle.library_steps.specs.LogicalFiles.{bases_in, bases_of};
ghost use Rattle.library_steps.specs.Bases.{LogicalFile, PhysicalFile};
ghost use Rattle.library_steps.specs.Formats.{has_key};
ghost use Rattle.library_steps.specs.Readings.{has_numbers, join_in};
ghost use Rattle.parts_model.specs.Steps.{own_path};
ghost use Rattle.parts_model.specs.Indexed.{AreNumbersOf, IsUnjoined, IsView, ReadsRowsBy, path_by};
ghost use Rattle.parts_model.specs.RowStand as rows;
ghost use Rattle.library_steps.below.dds_logical.specs.declared.views.LogicalSpec.TheVariants.{Join};
ghost use Rattle.parts_model.specs.KeyedViews.{IsKeyedJoin};
ghost use Rattle.parts_model.specs.Finds.{OpensMembers, ReadsMember};
ghost use Rattle.parts_model.specs.Reads.{CanNote, CanStand, CanStandAmong, CanStandIn, FindsEntry, GivesKey, HasKeyOf, IsAlongPath, IsInArrival, IsLookedIn, MayHaveKey, MayReadSo, Stands, TakesNumbers, ReadsAmong, ReadsAs, ReadsFor, ReadsNew, ReadsSo, formats_read, found_by, has_positions, orders_in, stood_at};

use crate::contents::Contents;
use crate::texts::are_of_bytes;
use access_path::key_order::given::{KeyFault, encode_values, key_fault};
use access_path::paths::Paths;
use field_types::lists::ListOf;
use field_types::names::Name;
use field_types::texts::Image;
use field_types::values::Value;
use file_model::joins::Secondary;
use file_model::paths::PathSpec;
use key_pages::Key;
use key_spec::{KeyPart, KeySpec};
use key_values::laws::given_keys_are_read_back;
use library_model::replies::Reply;
use library_model::requests::{AccessPath, Limit, OpenFile};
use library_steps::logical_model::dds_logical::LogicalSpec;
use library_steps::logical_model::dds_logical::join_views::{JoinView, JoinedFile};
use lock_table::Call;
use member_paths::{member_path, path_positions};
use member_slots::members::Members;
use parts_model::file_catalogue::{Described, File, FileBody};
use parts_model::file_cursor::places::{Hit, Order};
use parts_model::job_table::join_position::position::JoinPosition;
use parts_model::job_table::{Jobs, Open, OpenReads, OpenRows, first_of};
use parts_model::open_position::position::{OpenPosition, Side, StandAt};
use parts_model::open_position::reads::ReadBy;
use parts_model::path_set::set::PathSet;
use parts_model::{Found, OpenFound, Stop};
use std::alloc::{AllocError, Global};

impl Contents {
    /// How a new open reads: by its file's path, or in arrival order. It stands at the start.
    pub fn reads_for(&self, args: &OpenFile, members: &[u32]) -> Result<OpenReads, AllocError>
        requires members { OpensMembers self.now.state.files members.now (named args.now.file self.now.state.files) }
        requires so { MayReadSo args.now (named args.now.file self.now.state.files) }
        ensures { IfOk result (λ reads. ReadsFor self.now args.now members.now reads) }
    {
        // The path of each file is kept.
        let _files = self.catalogue.len();
        let _paths = self.paths.kept();
        let file = self.catalogue.named(&args.file).unwrap();
        match file.described() {
            FileBody::Physical(described) => self.reads_physical(
                args,
                described,
                first_of(members),
            ),
            FileBody::Logical(view) => self.reads_logical(args.commit, view.spec()),
        }
    }

    /// How a new open of a physical file's member reads.
    fn reads_physical(
        &self,
        args: &OpenFile,
        described: &Described,
        member: u32,
    ) -> Result<OpenReads, AllocError>
        ensures new { IfOk result (λ reads. ReadsNew args.now.commit self.now.room.paths.paths (path_by (bases_in self.now.state.files)
            (is_file_path args.now.access_path && has_key (PhysicalFile described.now.spec)) member (PhysicalFile described.now.spec)) reads) }
        ensures rows { IfOk result (λ reads. reads.rows ≡ None) }
    {
        // Its key is by its fields.
        let _spec = described.spec();
        let keys = described.keys();
        if is_by_key(args, keys) {
            let path = member_path(self.alloc, member, described.format(), keys)?;
            self.reads_by_path(args.commit, &path)
        } else {
            reads_in_arrival(self.alloc, args.commit)
        }
    }

    /// How a new open of a logical file reads: by its path, which is by relative record numbers where the file has no key, and of a join
    /// also by those over the secondary files.
    fn reads_logical(&self, commit: bool, spec: &LogicalSpec) -> Result<OpenReads, AllocError>
        requires { IsView (bases_in self.now.state.files) spec.now }
        ensures new { IfOk result (λ reads. ReadsNew commit self.now.room.paths.paths (Some (own_path (bases_in self.now.state.files) spec.now)) reads) }
        ensures rows { IfOk result (λ reads. ReadsRowsBy (bases_in self.now.state.files) self.now.room.paths.paths (LogicalFile spec.now) (join_by reads.rows)) }
    {
        let path = self.own_path(spec)?;
        let reads = self.reads_by_path(commit, &path)?;
        let rows = self.rows_read(spec)?;
        Ok(OpenReads {
            path: reads.path,
            position: reads.position,
            rows,
        })
    }

    /// How a new open of a join reads its rows; that of another file reads none.
    fn rows_read(&self, spec: &LogicalSpec) -> Result<Option<OpenRows>, AllocError>
        requires { IsView (bases_in self.now.state.files) spec.now }
        ensures start { IfOk result (λ rows. rows_in rows ≡ Start) }
        ensures rows { IfOk result (λ rows. ReadsRowsBy (bases_in self.now.state.files) self.now.room.paths.paths (LogicalFile spec.now) (join_by rows)) }
    {
        match spec {
            LogicalSpec::Simple(_) | LogicalSpec::Multi(_) => Ok(None),
            LogicalSpec::Join(view) => Ok(Some(self.rows_joined(spec, view)?)),
        }
    }

    /// How a new open of a join reads its rows.
    fn rows_joined(&self, spec: &LogicalSpec, view: &JoinView) -> Result<OpenRows, AllocError>
        requires join { spec.now ≡ Join view.now }
        requires keyed { IsKeyedJoin (bases_in self.now.state.files) view.now }
        ensures start { IfOk result (λ rows. rows.position.position ≡ Start) }
        ensures rows { IfOk result (λ rows. ReadsRowsBy (bases_in self.now.state.files) self.now.room.paths.paths (LogicalFile (Join view.now)) (join_by (Some rows))) }
    {
        let specs = self.other_paths(spec)?;
        let paths = numbers_kept(self.alloc, &self.paths, specs.as_slice())?;
        let parts = path_positions(self.alloc, &view.keys)?;
        let files = sequences_of(self.alloc, view.secondaries.as_slice())?;
        let position = JoinPosition::new(self.alloc, parts, files.as_slice())?;
        Ok(OpenRows { paths, position })
    }

    /// How a new open reads by a path.
    fn reads_by_path(&self, commit: bool, path: &PathSpec) -> Result<OpenReads, AllocError>
        requires { AreFormatKeys (map (λ format. format.key) path.now.formats) }
        ensures new { IfOk result (λ reads. ReadsNew commit self.now.room.paths.paths (Some path.now) reads) }
        ensures rows { IfOk result (λ reads. reads.rows ≡ None) }
    {
        let position = OpenPosition::by_path(self.alloc, path.formats.as_slice(), commit)?;
        let path = self.paths.number_of(path);
        Ok(OpenReads {
            path,
            position,
            rows: None,
        })
    }

    /// The bytes of the key that a request gives through the open, or its refusal.
    pub fn given_key(&self, opened: &Open, file: &File, values: &[Value]) -> Result<Key, Stop>
        requires { ReadsAs self.now opened.now file.now }
        ensures { GivesKey (bases_of (memory_of self.now.state)) file.now opened.now.state values.now result }
    {
        key_of_values(self.alloc, opened, values)
    }

    /// The record that a read through the open finds, of a file that is no join.
    pub fn find(&self, opened: &Open, file: &File, by: ReadBy<'_>) -> Option<Found>
        requires unjoined { IsUnjoined file.now.spec }
        requires reads { ReadsAs self.now opened.now file.now }
        requires member { ReadsMember self.now.state file.now opened.now.state }
        requires asked { IsAskedOf (formats_read (bases_of (memory_of self.now.state)) file.now opened.now.state) by }
        requires looked { IsLookedIn (is_keyed file.now opened.now.state) by }
        ensures found { FindsEntry result (found_by by.entry file.now opened.now.state (memory_of self.now.state)) }
        ensures there { IfSome result (λ found. ReadsMember self.now.state file.now (at_format found.format opened.now.state)) }
        ensures live { IfSome result (λ found. is_some (live_record (at_format found.format opened.now.state).member found.rrn (memory_of self.now.state)) ≡ true) }
    {
        let _files = self.catalogue.len();
        self.reads_there(opened, file);
        match hit_of(&self.members, &self.paths, opened, by) {
            Some(hit) => Some(Found {
                format: hit.format,
                rrn: hit.rrn,
            }),
            None => None,
        }
    }

    /// The refusal of a place where a position is to be set. It takes no memory.
    pub fn may_stand(&self, opened: &Open, file: &File, to: &Limit) -> Result<(), Stop>
        requires { ReadsAs self.now opened.now file.now }
        ensures { Stands (record { opened = opened.now.state; file = file.now }) to.now result }
    {
        match to {
            Limit::Key(values) => may_have_key(opened, values.as_slice()),
            Limit::LowValue => reads_so(opened, true),
            Limit::HighValue => reads_so(opened, true),
            Limit::RecordNumber(_) => takes_numbers(opened, file),
        }
    }

    /// Sets the position of the job's open of that name to this side of a place. It takes no memory.
    pub fn set_position(&mut self, job: u32, name: &Name, side: Side, to: &Limit)
        requires running { IsTrue (is_running (job_at job self.old.state.jobs)) }
        requires place { CanStand self.old job name.now to.now }
        ensures memory { (its : OpenedFile) (position : Position PathEntry) → opened_file name.now job (memory_of self.old.state) ≡ Ok its → bound_asked its (side_of side) to.now ≡ Ok position
            → memory_of self.new.state ≡ with_job job (open_changed its.opened.number (positioned (join_in its.file.spec) position)) (memory_of self.old.state) }
        ensures entries { self.new.state.entries ≡ self.old.state.entries }
        ensures room { self.new.room ≡ self.old.room }
    {
        let its = self.found_open(job, name);
        self.reads_keys(its.opened, its.file);
        let number = its.opened.number();
        let at = place_of(to);
        self.jobs.set_position(job, number, side, at);
    }

    /// Notes that the job's open of that name, of a file that is no join, has read what it finds so. It takes no memory.
    pub fn note_read(&mut self, job: u32, name: &Name, call: Call, by: ReadBy<'_>)
        requires running { IsTrue (is_running (job_at job self.old.state.jobs)) }
        requires found { CanNote self.old job name.now by }
        ensures memory { (its : OpenedFile) (entry : PathEntry) → opened_file name.now job (memory_of self.old.state) ≡ Ok its → found_by by.entry its.file its.opened (memory_of self.old.state) ≡ Some entry
            → memory_of self.new.state ≡ with_job job (open_changed its.opened.number (has_read call (entry_found entry))) (memory_of self.old.state) }
        ensures entries { self.new.state.entries ≡ self.old.state.entries }
        ensures room { self.new.room ≡ self.old.room }
    {
        // Each open stands beside how it reads.
        let _jobs = self.jobs.len();
        let its = self.found_open(job, name);
        self.reads_there(its.opened, its.file);
        let number = its.opened.number();
        let opened = kept_open(&self.jobs, job, name);
        let hit = hit_of(&self.members, &self.paths, opened, by).unwrap();
        self.jobs.note_read(job, number, call, &hit);
    }

    /// The job's open of that name, which is there, and its file.
    pub(crate) fn found_open(&self, job: u32, name: &Name) -> OpenFound<'_>
        requires running { IsTrue (is_running (job_at job self.now.state.jobs)) }
        requires named { (its : OpenedFile) × (opened_file name.now job (memory_of self.now.state) ≡ Ok its) }
        ensures found { opened_file name.now job (memory_of self.now.state) ≡ Ok (record { opened = result.opened.now.state; file = result.file.now }) }
        ensures shows { open_named name.now job (memory_of self.now.state) ≡ Some result.opened.now.state }
        ensures order { named name.now (orders_in job self.now) ≡ Some result.opened.now.order }
        ensures there { ReadsMember self.now.state result.file.now result.opened.now.state }
        ensures reads { ReadsAs self.now result.opened.now result.file.now }
        ensures alone { AllOfNumber result.opened.now.state.number (λ order. order ≡ result.opened.now.order) (orders_in job self.now) }
    {
        match self.opened_file(job, name) {
            Ok(its) => its,
            Err(_) => unreachable!(),
        }
    }

    /// The positions of the key by which an open reads.
    fn reads_keys(&self, opened: &Open, file: &File)
        requires { ReadsAs self.now opened.now file.now }
        ensures formats { formats_read (bases_of (memory_of self.now.state)) file.now opened.now.state ≡ opened.now.order.formats }
        ensures keyed { has_positions opened.now.order.formats ≡ is_keyed file.now opened.now.state }
    {}

    /// What an open reads is there: its path, or its member.
    fn reads_there(&self, opened: &Open, file: &File)
        requires unjoined { IsUnjoined file.now.spec }
        requires reads { ReadsAs self.now opened.now file.now }
        requires member { ReadsMember self.now.state file.now opened.now.state }
        ensures among { ReadsAmong self.now.state.members self.now.room.paths opened.now.state.member opened.now.order.formats opened.now.order.path (reading_of file.now opened.now.state (memory_of self.now.state)) }
        ensures formats { formats_read (bases_of (memory_of self.now.state)) file.now opened.now.state ≡ opened.now.order.formats }
        ensures keyed { has_positions opened.now.order.formats ≡ is_keyed file.now opened.now.state }
        ensures few { length opened.now.order.formats ≤ length opened.now.state.members }
    {
        let _files = self.catalogue.len();
        let _paths = self.paths.kept();
        let _member = self.members.at(opened.member());
    }
}

/// The job's open of that name, which is there.
fn kept_open<'a>(jobs: &'a Jobs, job: u32, name: &Name) -> &'a Open
    requires running { IsTrue (is_running (job_at job jobs.now.jobs)) }
    requires there { IsSome (named name.now (job_of_number job jobs.now.jobs).opens) }
    ensures state { named name.now (job_of_number job jobs.now.jobs).opens ≡ Some result.now.state }
    ensures order { named name.now (orders_at job jobs.now) ≡ Some result.now.order }
{
    jobs.open_named(job, name).unwrap()
}

/// Whether a new open reads by the key of its file.
fn is_by_key(args: &OpenFile, keys: &KeySpec) -> bool
    ensures { result ≡ (is_file_path args.now.access_path && nat_lt 0 (length keys.now.parts)) }
{
    match args.access_path {
        AccessPath::File => !keys.parts.as_slice().is_empty(),
        AccessPath::Arrival => false,
    }
}

/// How a new open reads in arrival order.
fn reads_in_arrival(alloc: Global, commit: bool) -> Result<OpenReads, AllocError>
    ensures path { IfOk result (λ reads. reads.path ≡ None) }
    ensures position { IfOk result (λ reads. reads.position ≡ record { position = Start; boundary = Start; formats = [] ∷ []; marks = commit }) }
    ensures rows { IfOk result (λ reads. reads.rows ≡ None) }
{
    let position = OpenPosition::by_number(alloc, commit)?;
    Ok(OpenReads {
        path: None,
        position,
        rows: None,
    })
}

/// A place as a position is set to it.
fn place_of(to: &Limit) -> StandAt<'_>
    ensures can { (formats : List (List KeyPart)) → CanStandIn formats to.now → IsStandAt formats result }
    ensures rows { (parts : List KeyPart) → CanStandAmong parts to.now → rows.IsStandAt parts result }
    ensures stood { (side : Side) (parts : List KeyPart) → stood side parts result ≡ stood_at side parts to.now }
{
    match to {
        Limit::Key(values) => StandAt::Values(values.as_slice()),
        Limit::LowValue => StandAt::Low,
        Limit::HighValue => StandAt::High,
        Limit::RecordNumber(rrn) => StandAt::Number(*rrn),
    }
}

/// What a read through the open finds, by its path or in arrival order.
fn hit_of<'a>(
    members: &'a Members,
    paths: &'a PathSet,
    opened: &Open,
    by: ReadBy<'_>,
) -> Option<Hit<'a>>
    requires read { (reading : Reading PathEntry) × ReadsAmong members.now.members paths.now opened.now.state.member opened.now.order.formats opened.now.order.path reading }
    requires asked { IsAskedOf opened.now.order.formats by }
    requires looked { IsLookedIn (has_positions opened.now.order.formats) by }
    ensures found { (reading : Reading PathEntry) → ReadsAmong members.now.members paths.now opened.now.state.member opened.now.order.formats opened.now.order.path reading
        → option_map (entry_hit (merged_parts opened.now.order.formats)) result ≡ asked_of by.entry (merged_parts opened.now.order.formats) reading opened.now.state.position }
    ensures bytes { IfSome result (λ hit. IsEntryIn opened.now.order.formats (entry_of hit)) }
{
    match opened.path() {
        Some(id) => hit_along(paths, id, opened, by),
        None => hit_in(members, opened, by),
    }
}

/// What it finds along a path.
fn hit_along<'a>(paths: &'a PathSet, id: u64, opened: &Open, by: ReadBy<'_>) -> Option<Hit<'a>>
    requires read { (members : NumberedMembers) × (reading : Reading PathEntry) × IsAlongPath members paths.now id opened.now.order.formats reading }
    requires asked { IsAskedOf opened.now.order.formats by }
    ensures found { (members : NumberedMembers) (reading : Reading PathEntry) → IsAlongPath members paths.now id opened.now.order.formats reading
        → option_map (entry_hit (merged_parts opened.now.order.formats)) result ≡ asked_of by.entry (merged_parts opened.now.order.formats) reading opened.now.state.position }
    ensures bytes { IfSome result (λ hit. IsEntryIn opened.now.order.formats (entry_of hit)) }
{
    let path = paths.path(id).unwrap();
    opened.stand().find(Order::Path(path), by)
}

/// What it finds among the records of its member.
fn hit_in<'a>(members: &'a Members, opened: &Open, by: ReadBy<'_>) -> Option<Hit<'a>>
    requires read { (reading : Reading PathEntry) × IsInArrival members.now.members opened.now.state.member opened.now.order.formats reading }
    requires asked { IsAskedOf opened.now.order.formats by }
    requires looked { IsLookedIn false by }
    ensures found { (reading : Reading PathEntry) → IsInArrival members.now.members opened.now.state.member opened.now.order.formats reading
        → option_map (entry_hit (merged_parts opened.now.order.formats)) result ≡ asked_of by.entry (merged_parts opened.now.order.formats) reading opened.now.state.position }
    ensures bytes { IfSome result (λ hit. IsEntryIn opened.now.order.formats (entry_of hit)) }
{
    let member = members.at(opened.member()).unwrap();
    opened.stand().find(Order::Arrival(member), by)
}

/// The numbers of some paths that are kept.
fn numbers_kept(
    alloc: Global,
    paths: &PathSet,
    specs: &[PathSpec],
) -> Result<ListOf<u64>, AllocError>
    ensures { IfOk result (λ ids. AreNumbersOf paths.now.paths specs.now ids) }
{
    let mut ids = ListOf::new(alloc);
    for spec in specs {
        let Some(id) = paths.number_of(spec) else {
            return Err(AllocError);
        };
        ids.push(id)?;
    }
    Ok(ids)
}

/// Secondary files of which nothing counts but the position of JDUPSEQ.
fn sequences_of(alloc: Global, files: &[JoinedFile]) -> Result<Vec<Secondary>, AllocError>
    ensures { IfOk result (λ made. map (λ file. file.sequence) made.items ≡ map (λ joined. joined.sequence) files.now) }
{
    let mut made = Vec::new(alloc);
    for joined in files {
        made.push(sequence_of(alloc, joined.sequence))?;
    }
    Ok(made)
}

fn sequence_of(alloc: Global, sequence: KeyPart) -> Secondary
    ensures { result.sequence ≡ sequence }
{
    Secondary {
        member: 0,
        from: 0,
        pairs: ListOf::new(alloc),
        sequence,
        default: Image::from_vec(Vec::new(alloc)),
    }
}

/// The bytes of values for the first positions of the open's key, or their refusal.
fn key_of_values(alloc: Global, opened: &Open, values: &[Value]) -> Result<Key, Stop>
    ensures { HasKeyOf (has_positions opened.now.order.formats) (merged_parts opened.now.order.formats) values.now result }
{
    let parts = opened.stand().parts();
    if parts.is_empty() {
        return Err(Stop::Refused(Reply::WrongOpen));
    }
    bytes_of_values(alloc, parts, values)
}

/// The bytes of values for the first positions of a key.
fn bytes_of_values(alloc: Global, parts: &[KeyPart], values: &[Value]) -> Result<Key, Stop>
    requires few { length parts.now ≤ MOST_POSITIONS }
    requires allowed { ArePositions parts.now }
    ensures { HasKeyOf true parts.now values.now result }
{
    given_keys_are_read_back();
    are_of_bytes(values);
    match encode_values(alloc, parts, values) {
        Ok(key) => Ok(key),
        Err(KeyFault::Refused(fault)) => Err(Stop::Refused(Reply::BadValue(fault))),
        Err(KeyFault::NoMemory) => Err(Stop::NoMemory),
    }
}

/// The refusal of values that are no key of the open.
fn may_have_key(opened: &Open, values: &[Value]) -> Result<(), Stop>
    ensures { MayHaveKey (has_positions opened.now.order.formats) (merged_parts opened.now.order.formats) values.now result }
{
    let parts = opened.stand().parts();
    if parts.is_empty() {
        return Err(Stop::Refused(Reply::WrongOpen));
    }
    may_be_key(parts, values)
}

/// The refusal of values that are none of a key.
fn may_be_key(parts: &[KeyPart], values: &[Value]) -> Result<(), Stop>
    requires few { length parts.now ≤ MOST_POSITIONS }
    requires allowed { ArePositions parts.now }
    ensures { MayHaveKey true parts.now values.now result }
{
    match key_fault(parts, values) {
        Some(fault) => Err(Stop::Refused(Reply::BadValue(fault))),
        None => Ok(()),
    }
}

/// The refusal of a relative record number through an open that reads by a key, or of a file in which it doesn't say which record is meant.
fn takes_numbers(opened: &Open, file: &File) -> Result<(), Stop>
    ensures { TakesNumbers (has_positions opened.now.order.formats) (has_numbers file.now.spec) result }
{
    if opened.stand().parts().is_empty() && has_numbers(file) {
        Ok(())
    } else {
        Err(Stop::Refused(Reply::WrongOpen))
    }
}

/// Whether a relative record number says which record is meant.
fn has_numbers(file: &File) -> bool
    ensures { result ≡ has_numbers file.now.spec }
{
    match file.described() {
        FileBody::Physical(_) => true,
        FileBody::Logical(view) => has_one_format(view.spec()),
    }
}

fn has_one_format(spec: &LogicalSpec) -> bool
    ensures { result ≡ has_numbers (LogicalFile spec.now) }
{
    match spec {
        LogicalSpec::Simple(_) => true,
        LogicalSpec::Multi(_) | LogicalSpec::Join(_) => false,
    }
}

/// The refusal of an open that doesn't read by a key, or of one that does.
fn reads_so(opened: &Open, by_key: bool) -> Result<(), Stop>
    ensures { ReadsSo (has_positions opened.now.order.formats) by_key result }
{
    if opened.stand().parts().is_empty() != by_key {
        Ok(())
    } else {
        Err(Stop::Refused(Reply::WrongOpen))
    }
}
