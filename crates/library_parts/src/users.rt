//! Which jobs use a member: by an open, by a change of an open commit cycle, or by a lock that is kept to the boundary. And which use a
//! file, and the members that a logical file is over.
ghost use Rattle.std.specs.Prelude.{◌≡◌, ℕ, ◌+◌, ◌<◌, ◌≤◌, not, if◌then◌else◌, Some, ◌++◌, ◌&&◌, ◌||◌, length, map, filter, take, slice_get, IfOk};
ghost use Rattle.std.specs.List.{list_any};
ghost use Rattle.library_steps.below.dds_logical.specs.declared.views.LogicalSpec.TheVariants.{Join, Multi};
ghost use Rattle.file_model.specs.declared.paths.PathSpec.{PathSpec};
ghost use Rattle.library_steps.specs.Bases.{base_members, base_names};
ghost use Rattle.library_steps.specs.FilePaths.{is_over, logical_paths};
ghost use Rattle.library_steps.specs.SamePaths.{count_paths, same_path};
ghost use Rattle.library_steps.specs.CreateLogicalFile.{has_many};
ghost use Rattle.library_steps.specs.declared.limits.TheConstants.{MOST_PATHS};
ghost use Rattle.library_steps.specs.DeleteFile.{user_by};
ghost use Rattle.library_steps.specs.LogicalFiles.{bases_of, paths_over};
ghost use Rattle.library_steps.specs.Refusals.{named_or_refused};
ghost use Rattle.library_steps.specs.SlotChange.{status_among};
ghost use Rattle.library_steps.specs.State.{file_named, memory_of};
ghost use Rattle.library_steps.specs.Uses.{changer_of_any, user_of, user_of_any, user_of_logical};
ghost use Rattle.parts_model.specs.Users.{first_changer, least_of_members};
ghost use Rattle.parts_model.specs.Answers.{Shows};

use crate::contents::Contents;
use field_types::lists::ListOf;
use field_types::names::Name;
use file_model::paths::PathSpec;
use library_steps::limits::MOST_PATHS;
use library_steps::logical_model::dds_logical::join_views::{JoinView, JoinedFile};
use library_steps::logical_model::dds_logical::{LogicalSpec, View};
use parts_model::Stop;
use parts_model::file_catalogue::{File, MemberStatus, Members};
use parts_model::job_table::laws::{users_are_joined, view_users_are_joined};
use parts_model::job_table::lesser;
use parts_model::path_set::path_entrants::same::is_same;
use std::alloc::AllocError;

impl Contents {
    /// The least job that uses the member.
    pub fn user_of(&self, member: u32) -> Option<u32>
        ensures { result ≡ user_of member (memory_of self.now.state) }
    {
        users_are_joined();
        lesser(self.jobs.first_user(member), self.locks.boundary_in(member))
    }

    /// The least job that uses one of the members.
    pub fn user_of_any(&self, members: &Members) -> Option<u32>
        ensures { result ≡ user_of_any members.now (memory_of self.now.state) }
    {
        users_are_joined();
        self.least_user(members)
    }

    /// It asks for the user of each.
    fn least_user(&self, members: &Members) -> Option<u32>
        ensures { result ≡ least_of_members (λ number. user_of number (memory_of self.now.state)) members.now }
    {
        let entries = members.as_slice();
        let mut left = entries.len();
        let mut least = None;
        while left > 0 {
            left -= 1;
            let (_, status) = &entries[left];
            least = lesser(self.user_of(status.number()), least);
        }
        least
    }

    /// The status of the member with that number.
    pub fn status(&self, member: u32) -> Option<MemberStatus>
        ensures { result ≡ status_among member (memory_of self.now.state).files }
    {
        self.catalogue.member(member)
    }

    /// The numbers of the members that a logical file is over, in the order of its formats.
    pub fn members_under(&self, view: &LogicalSpec) -> Result<ListOf<u32>, AllocError>
        ensures { IfOk result (λ members. members ≡ base_members (bases_of (memory_of self.now.state)) view.now) }
    {
        let mut members = ListOf::new(self.alloc);
        let count = base_count(view);
        for place in 0..count {
            members.push(self.base_at(view, place))?;
        }
        Ok(members)
    }

    /// The number of the member under the format of this number, or of a join's file at this place.
    fn base_at(&self, view: &LogicalSpec, place: usize) -> u32
        requires { place < length (base_names view.now) }
        ensures { slice_get (base_members (bases_of (memory_of self.now.state)) view.now) place ≡ Some result }
    {
        match view {
            LogicalSpec::Simple(view) => self.base_of_view(view),
            LogicalSpec::Multi(views) => self.base_among(views.as_slice(), place),
            LogicalSpec::Join(view) => self.base_joined(view, place),
        }
    }

    /// The number of the member under one of several formats.
    fn base_among(&self, views: &[View], place: usize) -> u32
        requires { place < length views.now }
        ensures { slice_get (base_members (bases_of (memory_of self.now.state)) (Multi views.now)) place ≡ Some result }
    {
        self.base_of_view(&views[place])
    }

    /// The number of the member of a join's file at this place.
    fn base_joined(&self, view: &JoinView, place: usize) -> u32
        requires { place < length (base_names (Join view.now)) }
        ensures { slice_get (base_members (bases_of (memory_of self.now.state)) (Join view.now)) place ≡ Some result }
    {
        if place == 0 {
            self.base_named(&view.primary)
        } else {
            self.base_secondary(view.secondaries.as_slice(), place - 1)
        }
    }

    /// That of one of its secondary files.
    fn base_secondary(&self, files: &[JoinedFile], place: usize) -> u32
        requires { place < length files.now }
        ensures { slice_get (map (λ name. (bases_of (memory_of self.now.state) name).member) (map (λ joined. joined.file) files.now)) place ≡ Some result }
    {
        self.base_named(&files[place].file)
    }

    /// The number of the member of a base file.
    fn base_named(&self, name: &Name) -> u32
        ensures { result ≡ (bases_of (memory_of self.now.state) name.now).member }
    {
        let (member, _) = self.catalogue.base_of(name);
        member
    }

    /// The number of the member under a format.
    fn base_of_view(&self, view: &View) -> u32
        ensures { result ≡ (bases_of (memory_of self.now.state) view.now.base).member }
    {
        self.base_named(&view.base)
    }

    /// Whether a member that a logical file would be over would have more different paths than it may.
    pub fn has_many_paths(&self, view: &LogicalSpec) -> Result<bool, AllocError>
        ensures { IfOk result (λ many. many ≡ list_any (has_many (logical_paths (bases_of (memory_of self.now.state)) view.now) (memory_of self.now.state)) (base_members (bases_of (memory_of self.now.state)) view.now)) }
    {
        let paths = self.all_paths(view)?;
        Ok(self.have_many_with(view, paths.as_slice()))
    }

    /// Whether one of the members under a logical file would have too many with its paths.
    fn have_many_with(&self, view: &LogicalSpec, paths: &[PathSpec]) -> bool
        requires { paths.now ≡ logical_paths (bases_of (memory_of self.now.state)) view.now }
        ensures { result ≡ list_any (has_many (logical_paths (bases_of (memory_of self.now.state)) view.now) (memory_of self.now.state)) (base_members (bases_of (memory_of self.now.state)) view.now) }
    {
        let mut many = false;
        let mut left = base_count(view);
        while left > 0 {
            left -= 1;
            let member = self.base_at(view, left);
            many = either(self.has_many_with(paths, member), many);
        }
        many
    }

    /// Whether a member would have too many different paths with those of these that are over it.
    fn has_many_with(&self, paths: &[PathSpec], member: u32) -> bool
        ensures { result ≡ has_many paths.now (memory_of self.now.state) member }
    {
        let mut count = self.count_now(member);
        for place in 0..paths.len() {
            if count > MOST_PATHS {
                return true;
            }
            count = counted(count, self.is_new_over(paths, place, member));
        }
        count > MOST_PATHS
    }

    /// How many different paths a member has.
    fn count_now(&self, member: u32) -> usize
        ensures { result ≡ count_paths (paths_over member (memory_of self.now.state)) }
    {
        // The paths of all files are kept.
        let _kept = self.paths.kept();
        self.paths.count_over(member)
    }

    /// Whether the path at a place is over the member, and is neither kept nor one of those before it.
    fn is_new_over(&self, paths: &[PathSpec], place: usize, member: u32) -> bool
        requires { place < length paths.now }
        ensures { (path : PathSpec) → slice_get paths.now place ≡ Some path
            → result ≡ (is_over member path && not (list_any (same_path path) (paths_over member (memory_of self.now.state) ++ filter (is_over member) (take place paths.now)))) }
    {
        self.is_another(&paths[place], paths, place, member)
    }

    /// Whether this path is.
    fn is_another(&self, path: &PathSpec, paths: &[PathSpec], place: usize, member: u32) -> bool
        requires { place < length paths.now }
        ensures { result ≡ (is_over member path.now && not (list_any (same_path path.now) (paths_over member (memory_of self.now.state) ++ filter (is_over member) (take place paths.now)))) }
    {
        // The paths of all files are kept.
        let _kept = self.paths.kept();
        let kept = self.paths.number_of(path);
        is_new(
            is_over(path, member),
            kept.is_some(),
            stands_before(paths, place, path),
        )
    }

    /// The least job whose open commit cycle has changed a record that a logical file is over.
    pub fn changer_under(&self, view: &LogicalSpec) -> Option<u32>
        ensures { result ≡ changer_of_any (base_members (bases_of (memory_of self.now.state)) view.now) (memory_of self.now.state) }
    {
        view_users_are_joined();
        let mut least = None;
        let mut left = base_count(view);
        while left > 0 {
            left -= 1;
            let member = self.base_at(view, left);
            least = lesser(self.changer_of(member), least);
        }
        least
    }

    /// The least job whose open commit cycle has changed a record of the member.
    fn changer_of(&self, member: u32) -> Option<u32>
        ensures { result ≡ first_changer member (memory_of self.now.state).jobs }
    {
        self.jobs.first_changer(member)
    }

    /// The least job that uses a logical file: by an open of it, or by a change of a record that it is over.
    fn user_of_view(&self, name: &Name, view: &LogicalSpec) -> Option<u32>
        ensures { result ≡ user_of_logical name.now (base_members (bases_of (memory_of self.now.state)) view.now) (memory_of self.now.state) }
    {
        view_users_are_joined();
        lesser(self.jobs.first_opener(name), self.changer_under(view))
    }

    /// The least job that uses a file: a physical one by its members, a logical one by itself.
    pub fn user_of_file(&self, name: &Name, file: &File) -> Option<u32>
        ensures { result ≡ user_by file.now.spec name.now file.now (memory_of self.now.state) }
    {
        match file.logical() {
            Some(view) => self.user_of_view(name, view),
            None => self.user_of_any(file.members()),
        }
    }
}

/// How many base files a logical file is over: one for each format, or those of a join.
fn base_count(view: &LogicalSpec) -> usize
    ensures { result ≡ length (base_names view.now) }
{
    match view {
        LogicalSpec::Simple(_) => 1,
        LogicalSpec::Multi(views) => views.as_slice().len(),
        LogicalSpec::Join(view) => 1 + view.secondaries.as_slice().len(),
    }
}

/// Whether a path has a format over the member.
fn is_over(path: &PathSpec, member: u32) -> bool
    ensures { result ≡ is_over member path.now }
{
    path.formats
        .as_slice()
        .iter()
        .any(|format| format.member == member)
}

/// One more, where there is one.
fn counted(count: usize, more: bool) -> usize
    requires { count ≤ MOST_PATHS }
    ensures { result ≡ (if more then count + 1 else count) }
{
    if more { count + 1 } else { count }
}

/// Whether a path that is over a member is neither kept nor stands before.
fn is_new(over: bool, kept: bool, before: bool) -> bool
    ensures { result ≡ (over && not (kept || before)) }
{
    over && !kept && !before
}

/// Whether one of the paths before a place is the same as this one.
fn stands_before(paths: &[PathSpec], place: usize, path: &PathSpec) -> bool
    requires { place ≤ length paths.now }
    ensures { result ≡ list_any (same_path path.now) (take place paths.now) }
{
    let mut rest = &paths[..place];
    while let [other, more @ ..] = rest {
        if is_same(path, other) {
            return true;
        }
        rest = more;
    }
    false
}

/// Whether one of the two holds.
fn either(one: bool, other: bool) -> bool
    ensures { result ≡ (one || other) }
{
    one || other
}
