//! Which paths are over which members: the members of the kept paths' formats with the numbers of the paths, each once, in
//! one list by member and number.
ghost use Rattle.std.specs.Prelude.{◌≡◌, ◌+◌, ◌-◌, ◌<◌, ◌≤◌, ◌==◌, ℕ, OnOk, OnErr, IfOk, IfErr, HoldsAt, length, filter, take, drop, insert, vec_len, vec_capacity, if◌then◌else◌};
ghost use Rattle.path_set.specs.MemberSteps.{is_over};
ghost use Rattle.path_set.specs.ByMember.{path_cmp, AreByMember, IsGapFor, numbers_of, with_number, without_number};

use file_model::paths::PathSpec;
use std::alloc::AllocError;
use std::cmp::Ordering;

/// A path over a member.
#[derive(Clone, Copy)]
pub struct PathOver {
    pub(crate) member: u32,
    /// The number of the path.
    pub(crate) id: u64,
}

/// Those over a member. It looks at some of them alone, by two binary searches.
pub(crate) fn paths_of_member(paths: &[PathOver], member: u32) -> &[PathOver]
    requires { AreByMember paths.now }
    ensures { result.now ≡ filter (λ path. path.member == member) paths.now }
{
    let low = paths.partition_point(|path| path.member < member);
    let high = paths.partition_point(|path| path.member <= member);
    part(paths, low, high)
}

fn part(paths: &[PathOver], low: usize, high: usize) -> &[PathOver]
    requires order { low ≤ high }
    requires within { high ≤ length paths.now }
    ensures { result.now ≡ take (high - low) (drop low paths.now) }
{
    &paths[low..high]
}

/// Puts the path of the number where the members of its formats are. After a refusal all is as before.
pub(crate) fn add_path(
    paths: &mut Vec<PathOver>,
    spec: &PathSpec,
    id: u64,
) -> Result<(), AllocError>
    requires { AreByMember paths.old.items }
    ensures ordered { AreByMember paths.new.items }
    ensures added { OnOk result ((member : ℕ) → numbers_of member paths.new.items
        ≡ (if is_over member spec.now then with_number id (numbers_of member paths.old.items) else numbers_of member paths.old.items)) }
    ensures refused { OnErr result (paths.new.items ≡ paths.old.items) }
{
    let formats = spec.formats.as_slice();
    paths.reserve(formats.len())?;
    for place in 0..formats.len() {
        let member = formats[place].member;
        put_path(paths, PathOver { member, id });
    }
    Ok(())
}

/// Puts a path in its place, where it isn't there yet. It takes no memory.
fn put_path(paths: &mut Vec<PathOver>, path: PathOver)
    requires ordered { AreByMember paths.old.items }
    requires room { vec_len paths.old < vec_capacity paths.old }
    ensures ordered { AreByMember paths.new.items }
    ensures numbers { (member : ℕ) → numbers_of member paths.new.items
        ≡ (if path.member == member then with_number path.id (numbers_of member paths.old.items) else numbers_of member paths.old.items) }
    ensures capacity { vec_capacity paths.old ≤ vec_capacity paths.new }
    ensures len { vec_len paths.new ≤ vec_len paths.old + 1 }
{
    match place_of_path(paths.as_slice(), path) {
        Ok(_) => {}
        Err(place) => insert_path(paths, place, path),
    }
}

fn insert_path(paths: &mut Vec<PathOver>, place: usize, path: PathOver)
    requires within { place ≤ length paths.old.items }
    requires room { vec_len paths.old < vec_capacity paths.old }
    ensures items { paths.new.items ≡ insert paths.old.items place path }
    ensures capacity { vec_capacity paths.old ≤ vec_capacity paths.new }
    ensures len { vec_len paths.new ≤ vec_len paths.old + 1 }
{
    paths.insert(place, path).unwrap();
}

/// Takes the path of the number from all members. It takes no memory.
pub(crate) fn remove_path(paths: &mut Vec<PathOver>, id: u64)
    requires { AreByMember paths.old.items }
    ensures ordered { AreByMember paths.new.items }
    ensures removed { (member : ℕ) → numbers_of member paths.new.items ≡ without_number id (numbers_of member paths.old.items) }
{
    paths.retain(|path| path.id != id);
}

/// Where a path is, or where it would go.
fn place_of_path(paths: &[PathOver], path: PathOver) -> Result<usize, usize>
    requires { AreByMember paths.now }
    ensures within { IfOk result (λ place. place < length paths.now) }
    ensures found { IfOk result (HoldsAt (λ other. other ≡ path) paths.now) }
    ensures absent { IfErr result (IsGapFor path paths.now) }
{
    paths.binary_search_by(|other| compare(other, path))
}

/// By member, and then by number.
fn compare(path: &PathOver, other: PathOver) -> Ordering
    ensures { result ≡ path_cmp path.now other }
{
    path.member.cmp(&other.member).then(path.id.cmp(&other.id))
}
