//! What effects change of the files and of whole members.
ghost use Rattle.std.specs.Prelude.{◌≡◌, ℕ, ◌+◌, ◌<◌, ◌≤◌, ◌⊎◌, [], ◌∷◌, ◌++◌, Some, None, All, IsSome, IsTrue, IfOk, OnOk, OnErr, MatchOption, length};
ghost use Rattle.std.specs.List.{AllByRecursion};
ghost use Rattle.access_path.below.key_order.specs.declared.widths.TheConstants.{MOST_POSITIONS};
ghost use Rattle.parts_model.specs.KeyedViews.{HaveFewPairs};
ghost use Rattle.library_steps.specs.CreatePhysicalFile.{formats_of, with_file};
ghost use Rattle.library_steps.specs.CreateLogicalFile.{first_repeated, with_logical};
ghost use Rattle.library_steps.specs.LogicalFiles.{bases_of};
ghost use Rattle.library_steps.specs.Refusals.{refuse_with};
ghost use Rattle.library_steps.specs.State.{FileState, memory_of, physical_spec};
ghost use Rattle.library_model.specs.Named.{named};
ghost use Rattle.library_model.specs.declared.replies.Reply.TheVariants.{DuplicateKey};
ghost use Rattle.file_model.specs.Paths.{repeated_in};
ghost use Rattle.library_steps.specs.FilePaths.{logical_paths};
ghost use Rattle.member_slots.specs.Members.{NumberedMembers, item_at, member_at, without_member};
ghost use Rattle.library_steps.specs.declared.limits.TheConstants.{MOST_LIBRARY_BYTES};
ghost use Rattle.library_steps.specs.DeleteFile.{deleted, first_dependent, user_by, without_members};
ghost use Rattle.library_steps.specs.MemberCommands.{member_added};
ghost use Rattle.library_steps.specs.Ranges.{library_bytes};
ghost use Rattle.parts_model.specs.Described.{Describes};
ghost use Rattle.lawful_states.specs.Owners.{AreApart};
ghost use Rattle.parts_model.specs.Views.{DescribesView};
ghost use Rattle.parts_model.specs.Repeated.{TellsRepeated};
ghost use Rattle.parts_model.specs.KeptPaths.{AreOver, spare_of};
ghost use Rattle.parts_model.specs.Sharing.{CanBeKept, IsNew, IsPut, IsShared};
ghost use Rattle.parts_model.specs.Answers.{MayAllow, MayAllowAny};
ghost use Rattle.parts_model.specs.Files.{IsNewFile, IsNewMember, IsNewView};
ghost use Rattle.parts_model.specs.PathChanges.{AreNumbers, ArePathsOf, ArePathsOfView, Attaches, AttachesNone, AttachesPath, detached_each, detached_from, member_path, without_path_over, without_paths};
ghost use Rattle.parts_model.specs.Rooms.{HasFileRoom, HasMemberRoom};

use crate::contents::Contents;
use crate::members::weight;
use access_path::key_order::widths::MOST_POSITIONS;
use dds_physical::PhysicalError;
use field_types::names::Name;
use field_types::texts::SourceText;
use file_model::paths::PathSpec;
use library_model::replies::Reply;
use library_model::requests::{DeleteFile, FileMember};
use library_steps::logical_model::dds_logical::join_views::JoinedFile;
use library_steps::logical_model::dds_logical::{LogicalFault, LogicalSpec};
use member_paths::member_path;
use member_slots::member::Member;
use member_slots::members::Members;
use parts_model::Stop;
use parts_model::file_catalogue::{Described, DescribedView, File, Members as FileMembers};
use parts_model::path_set::faults::PathFault;
use parts_model::path_set::set::PathSet;
use std::alloc::{AllocError, Global};

impl Contents {
    /// How many files there are, and the number of the next member. No two members have one number.
    pub fn counts(&self) -> (usize, u32)
        ensures files { result.0 ≡ length self.now.state.files }
        ensures next_member { result.1 ≡ self.now.state.next_member }
        ensures apart { AreApart self.now.state.files }
    {
        (self.catalogue.len(), self.next_member)
    }

    /// The first file, by creation, that depends on that file. It looks at every source.
    pub fn first_dependent(&self, name: &Name) -> Option<Name>
        ensures { result ≡ first_dependent name.now self.now.state.files }
    {
        self.catalogue.first_dependent(name)
    }

    /// Reads a source for a physical file, which may refer to the files that are there.
    pub fn describe(&self, text: &SourceText) -> Result<Described, PhysicalError>
        ensures { Describes (formats_of (memory_of self.now.state)) text.now result }
    {
        Described::read(self.alloc, text, &self.catalogue)
    }

    /// Reads a source for a logical file, which may be over the physical files that are there.
    pub fn describe_view(&self, text: &SourceText) -> Result<DescribedView, LogicalFault>
        ensures { DescribesView (λ name. physical_spec name (memory_of self.now.state)) text.now result }
    {
        DescribedView::read(self.alloc, text, &self.catalogue)
    }

    /// Adds a physical file, whose one member has its name and the next number, with its path where it has a key. Out of memory changes
    /// nothing.
    pub fn add_file(&mut self, name: Name, file: File) -> Result<(), AllocError>
        requires new { IsNewFile self.old.state name file }
        requires room { HasFileRoom self.old.room }
        ensures memory { OnOk result (memory_of self.new.state ≡ with_file name file (memory_of self.old.state)) }
        ensures unchanged { OnErr result (self.new.state ≡ self.old.state) }
        ensures entries { self.new.state.entries ≡ self.old.state.entries }
        ensures others { (self.new.room.entries ≡ self.old.room.entries) × (self.new.room.locks ≡ self.old.room.locks) × (self.new.room.undos ≡ self.old.room.undos) }
    {
        // No two files have one name, and the paths of all files are kept.
        let _len = self.catalogue.len();
        let _kept = self.paths.kept();
        let described = file.physical().unwrap();
        attach_path(
            self.alloc,
            &mut self.paths,
            &self.members,
            self.next_member,
            described,
        )?;
        let empty = Member::new(self.alloc, described.format().length());
        self.members.put(self.next_member, empty).unwrap();
        self.catalogue.add(name, file);
        self.next_member += 1;
        Ok(())
    }

    /// Adds a logical file with its paths, unless two records would have one key in its own that may not. Out of memory changes nothing.
    /// Where more fields reach a secondary file of a join than a key can have, memory counts as exhausted.
    pub fn add_view(&mut self, name: Name, view: DescribedView) -> Result<(), Stop>
        requires new { IsNewView self.old.state name view }
        requires room { HasFileRoom self.old.room }
        ensures apart { MayAllow result (refuse_with (DuplicateKey name) (first_repeated (logical_paths (bases_of (memory_of self.old.state)) view.spec) (memory_of self.old.state))) }
        ensures memory { OnOk result (memory_of self.new.state ≡ with_logical name view (memory_of self.old.state)) }
        ensures unchanged { OnErr result (self.new.state ≡ self.old.state) }
        ensures entries { self.new.state.entries ≡ self.old.state.entries }
        ensures others { (self.new.room.entries ≡ self.old.room.entries) × (self.new.room.locks ≡ self.old.room.locks) × (self.new.room.undos ≡ self.old.room.undos) }
    {
        // No two files have one name, the paths of all files are kept, and each record has the length of its member's records.
        let _len = self.catalogue.len();
        let _kept = self.paths.kept();
        let _none = self.members.at(0);
        let spec = view.spec();
        has_few_pairs(spec)?;
        let path = self.own_path(spec)?;
        let mut others = self.other_paths(spec)?;
        attach_view(&mut self.paths, &self.members, name, path, &mut others)?;
        let file = File::over(self.alloc, view);
        self.catalogue.add(name, file);
        Ok(())
    }

    /// Adds a member of that name to a physical file, with its path where the file has a key. It has the next number. Out of memory
    /// changes nothing.
    pub fn add_member(&mut self, args: &FileMember) -> Result<(), AllocError>
        requires new { IsNewMember self.old.state args.now }
        requires room { HasMemberRoom self.old.room }
        ensures memory { OnOk result ((file : FileState) → named args.now.file self.old.state.files ≡ Some file → memory_of self.new.state ≡ member_added args.now file (memory_of self.old.state)) }
        ensures unchanged { OnErr result (self.new.state ≡ self.old.state) }
        ensures entries { self.new.state.entries ≡ self.old.state.entries }
        ensures others { (self.new.room.entries ≡ self.old.room.entries) × (self.new.room.locks ≡ self.old.room.locks) × (self.new.room.undos ≡ self.old.room.undos) }
    {
        // No two files have one name, and the paths of all files are kept.
        let _len = self.catalogue.len();
        let _kept = self.paths.kept();
        let described = self.catalogue.physical_named(&args.file).unwrap();
        attach_path(
            self.alloc,
            &mut self.paths,
            &self.members,
            self.next_member,
            described,
        )?;
        let empty = Member::new(self.alloc, described.format().length());
        self.members.put(self.next_member, empty).unwrap();
        self.catalogue
            .add_member(&args.file, args.member, self.next_member);
        self.next_member += 1;
        Ok(())
    }

    /// The numbers of the paths of the file of that name, where it is a logical one.
    pub fn view_paths(&self, name: &Name) -> Result<Vec<Option<u64>>, AllocError>
        ensures { IfOk result (λ ids. ArePathsOfView self.now name.now ids.items) }
    {
        match self.catalogue.named(name) {
            Some(file) => self.paths_of_view(file),
            None => Ok(Vec::new(self.alloc)),
        }
    }

    /// The numbers of the paths of a file, where it is a logical one.
    fn paths_of_view(&self, file: &File) -> Result<Vec<Option<u64>>, AllocError>
        ensures { IfOk result (λ ids. ArePathsOf self.now.state.files self.now.room.paths.paths file.now.spec ids.items) }
    {
        match file.logical() {
            Some(view) => {
                let specs = self.all_paths(view)?;
                let ids = numbers_of(self.alloc, &self.paths, specs.as_slice())?;
                Ok(ids)
            }
            None => Ok(Vec::new(self.alloc)),
        }
    }

    /// Takes out a file that no job uses and on which no other depends, and its members and paths with it.
    pub fn remove_file(&mut self, args: &DeleteFile, paths: &[Option<u64>]) -> File
        requires there { IsSome (named args.now.file self.old.state.files) }
        requires alone { first_dependent args.now.file self.old.state.files ≡ None }
        requires unused { (file : FileState) → named args.now.file self.old.state.files ≡ Some file → user_by file.spec args.now.file file (memory_of self.old.state) ≡ None }
        requires paths { ArePathsOfView self.old args.now.file paths.now }
        ensures file { named args.now.file self.old.state.files ≡ Some result }
        ensures memory { memory_of self.new.state ≡ deleted args.now result (memory_of self.old.state) }
        ensures entries { self.new.state.entries ≡ self.old.state.entries }
        ensures others { (self.new.room.entries ≡ self.old.room.entries) × (self.new.room.locks ≡ self.old.room.locks) × (self.new.room.undos ≡ self.old.room.undos) }
    {
        // No two members have one number, and the paths of all files are kept.
        let _len = self.catalogue.len();
        let _kept = self.paths.kept();
        let file = self.catalogue.remove(&args.file);
        let gone = file.members();
        detach_paths(&mut self.paths, gone);
        detach_each(&mut self.paths, paths);
        let bytes = take_members(&mut self.members, gone);
        self.member_bytes -= bytes;
        file
    }
}

/// Takes the members out, and answers how many bytes they had.
fn take_members(members: &mut Members, gone: &FileMembers) -> u64
    requires { library_bytes members.old.members ≤ MOST_LIBRARY_BYTES }
    ensures gone { members.new.members ≡ without_members gone.now members.old.members }
    ensures bytes { library_bytes members.new.members + result ≡ library_bytes members.old.members }
{
    let mut bytes = 0;
    for (_, status) in gone.as_slice() {
        bytes += take_member(members, status.number());
    }
    bytes
}

/// Takes a member out, and answers how many bytes it had.
fn take_member(members: &mut Members, number: u32) -> u64
    ensures gone { members.new.members ≡ without_member number members.old.members }
    ensures bytes { library_bytes members.new.members + result ≡ library_bytes members.old.members }
{
    let bytes = weight(members, number);
    let _taken = members.take(number);
    bytes
}

/// Keeps the path over a member that is to be, where its file has a key.
fn attach_path(
    alloc: Global,
    paths: &mut PathSet,
    members: &Members,
    number: u32,
    file: &Described,
) -> Result<(), AllocError>
    requires { member_at number members.now.members ≡ None }
    ensures attached { OnOk result (AttachesPath (member_path file.now.spec number) members.now.members paths.old paths.new) }
    ensures refused { OnErr result (paths.new ≡ paths.old) }
{
    let format = file.format();
    let keys = file.keys();
    if keys.parts.as_slice().is_empty() {
        return Ok(());
    }
    let spec = member_path(alloc, number, format, keys)?;
    match paths.attach(spec, members, 0) {
        Ok(_) => Ok(()),
        Err(PathFault::NoMemory) => Err(AllocError),
        // A member that isn't there has no records.
        Err(PathFault::Equal { .. }) => unreachable!(),
    }
}

/// Keeps the paths of a logical file, unless two records would have one key in its own that may not.
fn attach_view(
    paths: &mut PathSet,
    members: &Members,
    file: Name,
    path: PathSpec,
    others: &mut Vec<PathSpec>,
) -> Result<(), Stop>
    requires kept { CanBeKept path members.now.members }
    requires tells { TellsRepeated path members.now.members }
    requires over { AreOver members.now.members paths.old.paths }
    requires others { All (λ spec. CanBeKept spec members.now.members) others.old.items }
    ensures apart { MayAllow result (refuse_with (DuplicateKey file) (repeated_in path members.now.members)) }
    ensures attached { OnOk result (Attaches (others.old.items ++ path ∷ []) members.now.members paths.old paths.new) }
    ensures refused { OnErr result (AttachesNone (others.old.items ++ path ∷ []) members.now.members paths.old paths.new) }
{
    let id = match attach_own_path(paths, members, file, path) {
        Ok(id) => id,
        Err(stop) => return Err(stop),
    };
    match attach_each(paths, members, others) {
        Ok(()) => Ok(()),
        Err(_) => {
            paths.detach(id);
            Err(Stop::NoMemory)
        }
    }
}

/// Keeps paths in which equal keys may stand, or none of them.
fn attach_each(
    paths: &mut PathSet,
    members: &Members,
    specs: &mut Vec<PathSpec>,
) -> Result<(), AllocError>
    requires { All (λ spec. CanBeKept spec members.now.members) specs.old.items }
    ensures attached { OnOk result (Attaches specs.old.items members.now.members paths.old paths.new) }
    ensures refused { OnErr result (AttachesNone specs.old.items members.now.members paths.old paths.new) }
{
    match specs.pop() {
        Some(spec) => {
            let id = paths.restore(spec, members)?;
            match attach_each(paths, members, specs) {
                Ok(()) => Ok(()),
                Err(error) => {
                    paths.detach(id);
                    Err(error)
                }
            }
        }
        None => Ok(()),
    }
}

/// Keeps the path of a logical file, unless two records would have one key in it that may not, and answers its number.
fn attach_own_path(
    paths: &mut PathSet,
    members: &Members,
    file: Name,
    path: PathSpec,
) -> Result<u64, Stop>
    requires kept { CanBeKept path members.now.members }
    requires tells { TellsRepeated path members.now.members }
    requires over { AreOver members.now.members paths.old.paths }
    ensures apart { MayAllowAny result (refuse_with (DuplicateKey file) (repeated_in path members.now.members)) }
    ensures attached { IfOk result (λ id. IsShared path id paths.old.paths paths.new.paths ⊎ IsPut path members.now.members id paths.old.paths paths.new.paths) }
    ensures rooms { (id : ℕ) → spare_of id paths.old ≤ spare_of id paths.new }
    ensures refused { OnErr result (paths.new ≡ paths.old) }
{
    if let Some(rrn) = repeated_there(paths, &path) {
        return Err(Stop::Refused(Reply::DuplicateKey { file, rrn }));
    }
    match paths.attach(path, members, 0) {
        Ok(id) => Ok(id),
        Err(PathFault::NoMemory) => Err(Stop::NoMemory),
        Err(PathFault::Equal { rrn }) => Err(Stop::Refused(Reply::DuplicateKey { file, rrn })),
    }
}

/// The least record whose key a later one has in a path that may have none, where the path is kept already.
fn repeated_there(paths: &PathSet, path: &PathSpec) -> Option<u32>
    ensures { (members : NumberedMembers) → AreOver members paths.now.paths → TellsRepeated path.now members → MatchOption result (IsNew path.now paths.now.paths ⊎ (repeated_in path.now members ≡ None)) (λ rrn. repeated_in path.now members ≡ Some rrn) }
{
    let Some(id) = paths.number_of(path) else {
        return None;
    };
    match paths.repeated_among(&[id]) {
        Some(repeated) => Some(repeated.rrn),
        None => None,
    }
}

/// Gives up the paths over these members.
fn detach_paths(paths: &mut PathSet, gone: &FileMembers)
    ensures paths { paths.new.paths ≡ without_paths gone.now paths.old.paths }
    ensures spares { (id : ℕ) → IsSome (item_at id paths.new.paths) → spare_of id paths.new ≡ spare_of id paths.old }
{
    for (_, status) in gone.as_slice() {
        detach_path(paths, status.number());
    }
}

/// Gives up the first path over this member, where there is one.
fn detach_path(paths: &mut PathSet, number: u32)
    ensures paths { paths.new.paths ≡ without_path_over number paths.old.paths }
    ensures spares { (id : ℕ) → IsSome (item_at id paths.new.paths) → spare_of id paths.new ≡ spare_of id paths.old }
{
    let first = paths.first_over(number);
    detach_own(paths, first);
}

/// The numbers of some paths, those that are kept.
fn numbers_of(
    alloc: Global,
    paths: &PathSet,
    specs: &[PathSpec],
) -> Result<Vec<Option<u64>>, AllocError>
    ensures { IfOk result (λ ids. AreNumbers paths.now.paths specs.now ids.items) }
{
    let mut ids = Vec::new(alloc);
    for spec in specs {
        ids.push(paths.number_of(spec))?;
    }
    Ok(ids)
}

/// Gives up the paths of these numbers.
fn detach_each(paths: &mut PathSet, ids: &[Option<u64>])
    ensures paths { paths.new.paths ≡ detached_each ids.now paths.old.paths }
    ensures spares { (id : ℕ) → IsSome (item_at id paths.new.paths) → spare_of id paths.new ≡ spare_of id paths.old }
{
    let [id, more @ ..] = ids else {
        return;
    };
    detach_own(paths, *id);
    detach_each(paths, more);
}

/// Memory counts as exhausted where a secondary file of a join is reached by more fields than a key can have.
fn has_few_pairs(spec: &LogicalSpec) -> Result<(), AllocError>
    ensures { OnOk result (HaveFewPairs spec.now) }
{
    match spec {
        LogicalSpec::Simple(_) | LogicalSpec::Multi(_) => Ok(()),
        LogicalSpec::Join(view) => have_few_pairs(view.secondaries.as_slice()),
    }
}

fn have_few_pairs(files: &[JoinedFile]) -> Result<(), AllocError>
    ensures { OnOk result (AllByRecursion (λ joined. length joined.pairs < MOST_POSITIONS) files.now) }
{
    let [joined, more @ ..] = files else {
        return Ok(());
    };
    if joined.pairs.as_slice().len() >= MOST_POSITIONS {
        return Err(AllocError);
    }
    have_few_pairs(more)
}

/// Gives up the path of this number, where one is given.
fn detach_own(paths: &mut PathSet, path: Option<u64>)
    ensures paths { paths.new.paths ≡ detached_from path paths.old.paths }
    ensures spares { (id : ℕ) → IsSome (item_at id paths.new.paths) → spare_of id paths.new ≡ spare_of id paths.old }
{
    match path {
        Some(id) => paths.detach(id),
        None => {}
    }
}
