//! The rows of a join file: what a read through an open finds among them, what a row shows, and where the open stands then.
ghost use Rattle.std.specs.Prelude.{◌≡◌, All, Ok, Some, IfOk, IsSome, IsTrue, map};
ghost use Rattle.std.specs.List.{AllByRecursion};
ghost use Rattle.library_steps.below.dds_logical.specs.declared.views.LogicalSpec.TheVariants.{Join};
ghost use Rattle.file_model.specs.FilePaths.{key_parts};
ghost use Rattle.file_model.specs.Joins.{RowPlace};
ghost use Rattle.parts_model.specs.RowReads.{IsAskedOf};
ghost use Rattle.parts_model.specs.Numbers.{matched_number};
ghost use Rattle.access_path.specs.KeyFields.{AreBytes};
ghost use Rattle.library_model.specs.Named.{named};
ghost use Rattle.library_steps.specs.History.{is_running};
ghost use Rattle.library_steps.specs.LogicalFiles.{bases_in, bases_of};
ghost use Rattle.library_steps.specs.Reads.{has_read, open_changed, row_found};
ghost use Rattle.library_steps.specs.Refusals.{OpenedFile, opened_file};
ghost use Rattle.library_steps.specs.State.{job_at, memory_of, with_job};
ghost use Rattle.library_steps.specs.Bases.{LogicalFile};
ghost use Rattle.library_steps.specs.Formats.{row_shown};
ghost use Rattle.parts_model.specs.KeptPaths.{pages_at};
ghost use Rattle.parts_model.specs.Reads.{ReadsAs};
ghost use Rattle.parts_model.specs.Rows.{CanNoteRow, FindsRow, HoldDefaultsOf, IsRowAt, ReadsRows, images_found, row_found_by};

use crate::bases::LibraryBases;
use crate::contents::Contents;
use crate::texts::are_bytes;
use access_path::path::Path;
use access_path::paths::Paths;
use field_types::names::Name;
use field_types::values::Value;
use file_model::joins::{JoinSpec, Secondary};
use key_pages::Entry;
use library_steps::logical_model::dds_logical::join_views::JoinView;
use lock_table::Call;
use member_slots::members::Members;
use parts_model::RowFound;
use parts_model::file_catalogue::File;
use parts_model::job_table::join_position::laws::found_rows_are_at_their_places;
use parts_model::job_table::{Open, RowRead};
use parts_model::join_records::join_rows::rows::{JoinFile, Row};
use parts_model::join_records::join_rows::trials::image_at;
use parts_model::join_records::laws::{joins_can_be_read, rows_are_made_of_records};
use parts_model::join_records::shown::values_shown;
use parts_model::open_position::reads::ReadBy;
use parts_model::path_set::set::PathSet;
use parts_model::view_records::logical_paths::readings::join_of;
use std::alloc::{AllocError, Global};

impl Contents {
    /// The row that a read through the open of a join finds.
    pub fn find_row(
        &self,
        opened: &Open,
        file: &File,
        view: &JoinView,
        by: ReadBy<'_>,
    ) -> Result<Option<RowFound>, AllocError>
        requires join { file.now.spec ≡ LogicalFile (Join view.now) }
        requires there { named opened.now.state.file self.now.state.files ≡ Some file.now }
        requires reads { ReadsAs self.now opened.now file.now }
        requires defaults { HoldDefaultsOf (bases_in self.now.state.files) view.now }
        requires asked { IsAskedOf (key_parts 0 view.now.keys.parts) by }
        ensures { IfOk result (λ found. FindsRow view.now (memory_of self.now.state) found (row_found_by by.entry view.now opened.now.state (memory_of self.now.state))) }
    {
        let bases = LibraryBases {
            files: &self.catalogue,
        };
        let spec = join_of(self.alloc, &bases, view)?;
        let found = self.row_in(opened, spec, by)?;
        Ok(found)
    }

    /// The row of this join that a read finds.
    fn row_in(
        &self,
        opened: &Open,
        spec: JoinSpec,
        by: ReadBy<'_>,
    ) -> Result<Option<RowFound>, AllocError>
        requires { (view : JoinView) × ReadsRows self.now.state.files self.now.room.paths.paths opened.now view spec × IsAskedOf (key_parts 0 view.keys.parts) by }
        ensures { (view : JoinView) → ReadsRows self.now.state.files self.now.room.paths.paths opened.now view spec
            → IfOk result (λ found. FindsRow view (memory_of self.now.state) found (row_found_by by.entry view opened.now.state (memory_of self.now.state))) }
    {
        // The paths of all files are kept, and each record has the length of its member's records.
        let _files = self.catalogue.len();
        let _paths = self.paths.kept();
        let _none = self.members.at(0);
        are_bytes_each(spec.secondaries.as_slice());
        joins_can_be_read();
        rows_are_made_of_records();
        found_rows_are_at_their_places();
        let rows = opened.rows().unwrap();
        let number = opened.path().unwrap();
        let primary = self.paths.path(number).unwrap();
        let secondaries = paths_of(self.alloc, &self.paths, rows.paths.as_slice())?;
        let join = JoinFile {
            spec: &spec,
            primary,
            secondaries: secondaries.as_slice(),
            members: &self.members,
        };
        let found = rows.position.find(self.alloc, join, by)?;
        match found {
            None => Ok(None),
            Some(row) => {
                let Row { primary, numbers } = row;
                let primary = copied_entry(self.alloc, primary)?;
                Ok(Some(RowFound {
                    spec,
                    primary,
                    numbers,
                }))
            }
        }
    }

    /// The values that a join shows of its row at a place.
    pub fn row_values(&self, view: &JoinView, found: &RowFound) -> Result<Vec<Value>, AllocError>
        requires { (place : RowPlace) × IsRowAt view.now (memory_of self.now.state) place found.now }
        ensures { (place : RowPlace) → IsRowAt view.now (memory_of self.now.state) place found.now
            → IfOk result (λ values. values.items ≡ (row_shown (bases_of (memory_of self.now.state)) self.now.state.members view.now place).values) }
    {
        let (member, _) = self.catalogue.base_of(&view.primary);
        let images = images_of(self.alloc, &self.members, member, found)?;
        let values = values_shown(self.alloc, view, images.as_slice())?;
        Ok(values)
    }

    /// Notes that the job's open of that name, of a join, has read the row. It takes no memory.
    pub fn note_row(&mut self, job: u32, name: &Name, call: Call, found: RowFound)
        requires running { IsTrue (is_running (job_at job self.old.state.jobs)) }
        requires found { CanNoteRow self.old job name.now found }
        ensures memory { (its : OpenedFile) (view : JoinView) (place : RowPlace) → opened_file name.now job (memory_of self.old.state) ≡ Ok its → its.file.spec ≡ LogicalFile (Join view)
            → IsRowAt view (memory_of self.old.state) place found
            → memory_of self.new.state ≡ with_job job (open_changed its.opened.number (has_read call (row_found place))) (memory_of self.old.state) }
        ensures entries { self.new.state.entries ≡ self.old.state.entries }
        ensures room { self.new.room ≡ self.old.room }
    {
        // Each open stands beside how it reads, and the path of each file is kept.
        let _jobs = self.jobs.len();
        let _paths = self.paths.kept();
        let its = self.found_open(job, name);
        let number = its.opened.number();
        let path = its.opened.path().unwrap();
        let own = self.paths.path(path).unwrap();
        let RowFound {
            spec,
            primary,
            numbers,
        } = found;
        let none = Vec::new(self.alloc);
        let join = JoinFile {
            spec: &spec,
            primary: own,
            secondaries: none.as_slice(),
            members: &self.members,
        };
        let row = Row {
            primary: &primary,
            numbers,
        };
        let read = RowRead { join, row: &row };
        self.jobs.note_row(job, number, call, read);
    }
}

/// The paths of these numbers, which are kept.
fn paths_of<'a>(alloc: Global, paths: &'a PathSet, ids: &[u64]) -> Result<Vec<&'a Path>, AllocError>
    requires { AllByRecursion (λ id. IsSome (pages_at paths.now id)) ids.now }
    ensures { IfOk result (λ found. map (λ path. Some path.now) found.items ≡ map (λ id. pages_at paths.now id) ids.now) }
{
    let mut found = Vec::new(alloc);
    for id in ids {
        let path = paths.path(*id).unwrap();
        found.push(path)?;
    }
    Ok(found)
}

/// The records of a row, the primary's first.
#[tactic(auto, using(parts_model::proofs::MadeLemmas::joined))]
fn images_of<'a>(
    alloc: Global,
    members: &'a Members,
    primary: u32,
    found: &'a RowFound,
) -> Result<Vec<&'a [u8]>, AllocError>
    ensures { IfOk result (λ images. map (λ image. image.now) images.items ≡ images_found members.now.members primary found.now) }
{
    let mut images = Vec::new(alloc);
    images.push(image_at(members, primary, found.primary.rrn))?;
    let mut files = found.spec.secondaries.as_slice();
    let mut numbers = found.numbers.as_slice();
    while let [file, further @ ..] = files {
        let [number, others @ ..] = numbers else {
            return Ok(images);
        };
        images.push(image_matched(members, file, *number))?;
        files = further;
        numbers = others;
    }
    Ok(images)
}

/// A record of a secondary file, or its default values.
fn image_matched<'a>(members: &'a Members, file: &'a Secondary, number: Option<u32>) -> &'a [u8]
    ensures { result.now ≡ (matched_number file.now members.now.members number).image }
{
    match number {
        None => file.default.as_bytes(),
        Some(rrn) => image_at(members, file.member, rrn),
    }
}

/// An entry of its own.
fn copied_entry(alloc: Global, entry: &Entry) -> Result<Entry, AllocError>
    ensures { IfOk result (λ copy. copy ≡ entry.now) }
{
    let key = entry.key.copied(alloc)?;
    Ok(Entry {
        key,
        format: entry.format,
        rrn: entry.rrn,
    })
}

/// The default records of secondary files are of bytes, as the types of their slices say.
fn are_bytes_each(files: &[Secondary])
    ensures { All (λ file. AreBytes file.default) files.now }
{
    for file in files {
        are_bytes(file.default.as_bytes());
    }
}
