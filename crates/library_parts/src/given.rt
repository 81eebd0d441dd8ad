//! Slots that a range of the journal gives to a member: they are put one after the other, and all paths over the member follow.
ghost use Rattle.std.specs.Prelude.{◌≡◌, ℕ, ◌+◌, ◌<◌, ◌≤◌, true, false, List, [], ◌∷◌, length, Some, None, IsSome, IfOk, OnErr, OnOk, slice_get};
ghost use Rattle.std.specs.List.{AllByRecursion};
ghost use Rattle.member_slots.specs.Members.{item_at, member_at, member_of, spare_at};
ghost use Rattle.parts_model.specs.EqualKeys.{repeated_of};
ghost use Rattle.parts_model.specs.KeptPaths.{KeptPath};
ghost use Rattle.parts_model.specs.MemberSteps.{is_over};
ghost use Rattle.range_images.specs.Given.{given_slots};
ghost use Rattle.library_steps.specs.Bases.{LogicalFile};
ghost use Rattle.library_model.specs.Named.{Named};
ghost use Rattle.library_steps.specs.State.{Memory, FileState, MemberStatus, memory_of};
ghost use Rattle.library_steps.specs.UniqueKeys.{all_apart, has_member, own_unique, unique_paths, uniques_by, view_unique};
ghost use Rattle.parts_model.specs.Answers.{MayAllow};
ghost use Rattle.parts_model.specs.Given.{AreMovesOfAll, AreTold, CanTake, HasRoomFor, IsTold, MayGive, members_given, unique_of, with_given};
ghost use Rattle.parts_model.specs.Indexed.{AreViews, HasBytes};
ghost use Rattle.library_steps.below.dds_logical.specs.declared.views.LogicalSpec.TheVariants.{Join, Simple};

use crate::bases::LibraryBases;
use crate::contents::Contents;
use crate::members::{changes_with, of_bytes, weight};
use field_types::names::Name;
use file_model::paths::PathSpec;
use library_model::replies::Reply;
use library_steps::logical_model::dds_logical::join_views::JoinView;
use library_steps::logical_model::dds_logical::views::{LogicalSpec, View};
use member_paths::member_path;
use member_slots::members::Members;
use member_slots::slot::Slot;
use parts_model::Stop;
use parts_model::file_catalogue::{Catalogue, Described, File, FileBody};
use parts_model::given_changes::image_changes;
use parts_model::path_set::moves::Moves;
use parts_model::path_set::set::PathSet;
use parts_model::view_records::logical_paths::paths::own_path;
use range_images::SlotGiven;
use std::alloc::{AllocError, Global};

impl Contents {
    /// The moves that giving these slots to the member makes in all paths, with memory for them and for taking them back. Nothing is
    /// changed.
    pub fn prepare_given(&mut self, member: u32, given: &[SlotGiven]) -> Result<Moves, AllocError>
        requires { MayGive self.old.state member given.now }
        ensures state { self.new.state ≡ self.old.state }
        ensures others { self.new.room ≡ record self.old.room { paths = self.new.room.paths } }
        ensures moves { IfOk result (λ moves. AreMovesOfAll self.new member given.now moves) }
    {
        let Some(held) = changes_with(self.jobs.changes_held(), 0) else {
            return Err(AllocError);
        };
        // What holds of all files, members and kept paths.
        let _files = self.catalogue.len();
        let _kept = self.paths.kept();
        are_of_bytes(given);
        let stands = self.members.at(member).unwrap();
        let changes = image_changes(self.alloc, stands, given)?;
        self.paths.prepare_all(member, changes.as_slice(), held)
    }

    /// Gives the slots to the member, unless two records would have one key then that may not. It goes over the unique paths of the
    /// member, and over the files only where it refuses.
    pub fn give_slots(
        &mut self,
        member: u32,
        given: Vec<SlotGiven>,
        moves: Moves,
    ) -> Result<(), Stop>
        requires may { MayGive self.old.state member given.items }
        requires room { HasRoomFor self.old.state self.old.room member given.items }
        requires moves { AreMovesOfAll self.old member given.items moves }
        ensures apart { MayAllow result (all_apart (unique_paths member (memory_of self.old.state)) (with_given member given.items (memory_of self.old.state))) }
        ensures memory { OnOk result (memory_of self.new.state ≡ with_given member given.items (memory_of self.old.state)) }
        ensures refused { OnErr result (self.new.state ≡ self.old.state) }
        ensures entries { self.new.state.entries ≡ self.old.state.entries }
        ensures others { self.new.room ≡ record self.old.room { spares = self.new.room.spares; paths = self.new.room.paths } }
    {
        // What holds of all files, members and kept paths.
        let _files = self.catalogue.len();
        let _kept = self.paths.kept();
        are_of_bytes(given.as_slice());
        let before = weight(&self.members, member);
        let back = self.paths.change(moves);
        match keys_apart(self.alloc, &self.catalogue, &self.paths, member) {
            Err(stop) => {
                let _moves = self.paths.change_back(back);
                Err(stop)
            }
            Ok(()) => {
                put_all(&mut self.members, member, given);
                let after = weight(&self.members, member);
                self.member_bytes = self.member_bytes - before + after;
                Ok(())
            }
        }
    }
}

/// The refusal where a unique path over the member has equal keys; the first by the order in which the files were made. Where there is
/// none it looks at the unique paths over the member alone.
fn keys_apart(
    alloc: Global,
    catalogue: &Catalogue,
    paths: &PathSet,
    member: u32,
) -> Result<(), Stop>
    ensures { (m later : Memory) → m.files ≡ catalogue.now.files → AreViews catalogue.now.files → AreTold member m later.members paths.now.paths → MayAllow result (all_apart (unique_paths member m) later) }
{
    if has_repeated(paths, member) {
        first_repeated(alloc, catalogue, paths, member)
    } else {
        Ok(())
    }
}

/// Whether a unique path over the member has equal keys.
fn has_repeated(paths: &PathSet, member: u32) -> bool
    ensures { result ≡ false → (id : ℕ) (path : KeptPath) → item_at id paths.now.paths ≡ Some path → is_over member path.spec ≡ true → path.spec.unique ≡ true → repeated_of path ≡ None }
{
    // Their numbers ascend.
    let _kept = paths.kept();
    let mut path = paths.unique_over(member, None);
    while let Some(id) = path {
        let repeated = paths.repeated_among(&[id]);
        if repeated.is_some() {
            return true;
        }
        path = paths.unique_over(member, Some(id));
    }
    false
}

/// The refusal of the first file whose unique path over the member has equal keys. It goes over all files.
fn first_repeated(
    alloc: Global,
    catalogue: &Catalogue,
    paths: &PathSet,
    member: u32,
) -> Result<(), Stop>
    ensures { (m later : Memory) → m.files ≡ catalogue.now.files → AreViews catalogue.now.files → AreTold member m later.members paths.now.paths → MayAllow result (all_apart (unique_paths member m) later) }
{
    for place in 0..catalogue.len() {
        file_apart(alloc, catalogue, paths, member, place)?;
    }
    Ok(())
}

/// The refusal of the file at a place in the order of creation, counted from 0.
fn file_apart(
    alloc: Global,
    catalogue: &Catalogue,
    paths: &PathSet,
    member: u32,
    place: usize,
) -> Result<(), Stop>
    ensures { (m later : Memory) (entry : List ℕ × FileState) → m.files ≡ catalogue.now.files → slice_get catalogue.now.files place ≡ Some entry
        → AllByRecursion (IsTold later.members paths.now.paths) (uniques_by entry.1.spec m member entry) → MayAllow result (all_apart (uniques_by entry.1.spec m member entry) later) }
{
    let Some((name, file)) = catalogue.at(place) else {
        return Ok(());
    };
    match unique_path(alloc, catalogue, member, file)? {
        Some(path) => path_apart(paths, *name, &path),
        None => Ok(()),
    }
}

/// The refusal where the path of this specification has equal keys.
fn path_apart(paths: &PathSet, file: Name, spec: &PathSpec) -> Result<(), Stop>
    ensures { (later : Memory) → IsTold later.members paths.now.paths (record { file = file; path = spec.now }) → MayAllow result (all_apart (record { file = file; path = spec.now } ∷ []) later) }
{
    let Some(id) = paths.number_of(spec) else {
        return Ok(());
    };
    match paths.repeated_among(&[id]) {
        Some(repeated) => Err(Stop::Refused(Reply::DuplicateKey {
            file,
            rrn: repeated.rrn,
        })),
        None => Ok(()),
    }
}

/// The path of a file over the member in which no two records may have one key, where it has such a path.
pub(crate) fn unique_path(
    alloc: Global,
    catalogue: &Catalogue,
    member: u32,
    file: &File,
) -> Result<Option<PathSpec>, AllocError>
    ensures { IfOk result (λ path. (m : Memory) (name : List ℕ) → m.files ≡ catalogue.now.files → uniques_by file.now.spec m member (name, file.now) ≡ unique_of name path) }
{
    match file.described() {
        FileBody::Physical(described) => {
            own_unique(alloc, described, member, file.numbered(member).is_some())
        }
        FileBody::Logical(view) => view_unique(alloc, catalogue, member, view.spec()),
    }
}

/// That of a physical file, where the member is one of its own.
fn own_unique(
    alloc: Global,
    described: &Described,
    member: u32,
    is_own: bool,
) -> Result<Option<PathSpec>, AllocError>
    ensures { IfOk result (λ path. (name : List ℕ) (members : Named MemberStatus) → has_member member members ≡ is_own → own_unique name member described.now.spec members ≡ unique_of name path) }
{
    if described.keys().unique && is_own {
        let path = member_path(alloc, member, described.format(), described.keys())?;
        Ok(Some(path))
    } else {
        Ok(None)
    }
}

/// That of a logical file, where it is over the member.
fn view_unique(
    alloc: Global,
    catalogue: &Catalogue,
    member: u32,
    spec: &LogicalSpec,
) -> Result<Option<PathSpec>, AllocError>
    ensures { IfOk result (λ path. (m : Memory) (name : List ℕ) → m.files ≡ catalogue.now.files → view_unique m name member spec.now ≡ unique_of name path) }
{
    match spec {
        LogicalSpec::Simple(view) => simple_unique(alloc, catalogue, member, spec, view),
        LogicalSpec::Multi(_) => Ok(None),
        LogicalSpec::Join(view) => join_unique(alloc, catalogue, member, spec, view),
    }
}

/// That of a file of one format.
fn simple_unique(
    alloc: Global,
    catalogue: &Catalogue,
    member: u32,
    spec: &LogicalSpec,
    view: &View,
) -> Result<Option<PathSpec>, AllocError>
    requires { spec.now ≡ Simple view.now }
    ensures { IfOk result (λ path. (m : Memory) (name : List ℕ) → m.files ≡ catalogue.now.files → view_unique m name member (Simple view.now) ≡ unique_of name path) }
{
    let (base, _) = catalogue.base_of(&view.base);
    if view.keys.unique && base == member {
        let bases = LibraryBases { files: catalogue };
        let path = own_path(alloc, &bases, spec)?;
        Ok(Some(path))
    } else {
        Ok(None)
    }
}

/// That of a join: its primary file's.
fn join_unique(
    alloc: Global,
    catalogue: &Catalogue,
    member: u32,
    spec: &LogicalSpec,
    view: &JoinView,
) -> Result<Option<PathSpec>, AllocError>
    requires { spec.now ≡ Join view.now }
    ensures { IfOk result (λ path. (m : Memory) (name : List ℕ) → m.files ≡ catalogue.now.files → view_unique m name member (Join view.now) ≡ unique_of name path) }
{
    let (base, _) = catalogue.base_of(&view.primary);
    if view.keys.unique && base == member {
        let bases = LibraryBases { files: catalogue };
        let path = own_path(alloc, &bases, spec)?;
        Ok(Some(path))
    } else {
        Ok(None)
    }
}

/// Puts each slot at its place; one behind the last is added. It takes no memory.
fn put_all(members: &mut Members, number: u32, given: Vec<SlotGiven>)
    requires there { IsSome (member_at number members.old.members) }
    requires takes { CanTake (member_of number members.old.members) given.items }
    requires room { length (given_slots given.items (member_of number members.old.members).slots) ≤ length (member_of number members.old.members).slots + spare_at number members.old }
    ensures members { members.new.members ≡ members_given number given.items members.old.members }
    ensures room { members.new.room ≡ members.old.room }
{
    for slot in given {
        put(members, number, slot);
    }
}

fn put(members: &mut Members, number: u32, given: SlotGiven)
    requires there { IsSome (member_at number members.old.members) }
    requires takes { CanTake (member_of number members.old.members) (given ∷ []) }
    requires room { length (member_of number members.old.members).slots < given.rrn → 1 ≤ spare_at number members.old }
    ensures members { members.new.members ≡ members_given number (given ∷ []) members.old.members }
    ensures room { members.new.room ≡ members.old.room }
    ensures spare { length (member_of number members.old.members).slots + spare_at number members.old ≤ length (member_of number members.new.members).slots + spare_at number members.new }
{
    let SlotGiven { rrn, slot } = given;
    match slot {
        Slot::Live(image) => {
            if rrn > slots_of(members, number) {
                let _rrn = members.append(number, image).unwrap();
            } else {
                let _before = members.set(number, rrn, Slot::Live(image));
            }
        }
        Slot::Deleted => {
            let _before = members.set(number, rrn, Slot::Deleted);
        }
    }
}

/// How many slots the member has.
fn slots_of(members: &Members, number: u32) -> u32
    ensures { result ≡ length (member_of number members.now.members).slots }
{
    match members.at(number) {
        Some(member) => member.slots(),
        None => 0,
    }
}

/// What the slots hold is of bytes.
fn are_of_bytes(given: &[SlotGiven])
    ensures { AllByRecursion (λ g. HasBytes g.slot) given.now }
{
    let mut rest = given;
    while let [first, more @ ..] = rest {
        of_bytes(&first.slot);
        rest = more;
    }
}
