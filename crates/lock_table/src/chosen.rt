//! Which lock, or which job, is looked for among locks in order.
ghost use Rattle.std.specs.List.{find, list_any};
ghost use Rattle.std.specs.List.Sorted.{IsStrictlySortedBy};
ghost use Rattle.std.specs.Prelude.{◌≡◌, ◌≤◌, ◌+◌, ◌&&◌, ◌==◌, filter, length, nat_le, if◌then◌else◌};
ghost use Rattle.lock_table.specs.Lock.{is_boundary_in, is_by, lock_cmp};
ghost use Rattle.lock_table.specs.Table.{least_job, with_lock, without_lock};
ghost use Rattle.lock_table.specs.Index.{is_part, is_sought, lesser};

use crate::lock::{Lock, Reach};
use crate::part::{Part, Sought};
use crate::table::MOST_LOCKS;
use crate::tree::{LockTree, Top};
use std::cmp::Ordering;

/// The order in which locks are listed.
pub fn order(lock: &Lock, other: &Lock) -> Ordering
    ensures { result ≡ lock_cmp lock.now other.now }
{
    lock.cmp(other)
}

/// Whether the lock is there.
pub fn is_there(tree: &LockTree, lock: &Lock) -> bool
    requires { IsStrictlySortedBy lock_cmp tree.now }
    ensures with_it { length (with_lock lock.now tree.now) ≡ length tree.now + (if result then 0 else 1) }
    ensures without_it { length (without_lock lock.now tree.now) + (if result then 1 else 0) ≡ length tree.now }
{
    match &tree.top {
        Top::Empty => false,
        Top::At(node) => match order(lock, &node.lock) {
            Ordering::Less => is_there(&node.left, lock),
            Ordering::Equal => true,
            Ordering::Greater => is_there(&node.right, lock),
        },
    }
}

/// The first lock of the part that is looked for.
pub fn first_in(tree: &LockTree, part: Part, sought: Sought) -> Option<Lock>
    requires { IsStrictlySortedBy lock_cmp tree.now }
    ensures { result ≡ find (is_sought sought) (filter (is_part part) tree.now) }
{
    match &tree.top {
        Top::Empty => None,
        Top::At(node) => match part.side_of(&node.lock) {
            Ordering::Less => first_in(&node.right, part, sought),
            Ordering::Equal => {
                let here = own(&node.lock, sought);
                match first_in(&node.left, part, sought) {
                    Some(lock) => Some(lock),
                    None => match here {
                        Some(lock) => Some(lock),
                        None => first_in(&node.right, part, sought),
                    },
                }
            }
            Ordering::Greater => first_in(&node.left, part, sought),
        },
    }
}

// The lock, if it is looked for.
fn own(lock: &Lock, sought: Sought) -> Option<Lock>
    ensures { result ≡ (if is_sought sought lock.now then Some lock.now else None) }
{
    if is_sought(lock, sought) {
        Some(*lock)
    } else {
        None
    }
}

fn is_sought(lock: &Lock, sought: Sought) -> bool
    ensures { result ≡ is_sought sought lock.now }
{
    match sought {
        Sought::Any => true,
        Sought::Through(opened) => lock.opened == opened,
        Sought::Against(job, kind) => lock.at.rrn != job && lock.kind.clashes_with(kind),
    }
}

/// How many locks of the part are through this open.
pub fn count_in(tree: &LockTree, part: Part, opened: u32) -> usize
    requires ordered { IsStrictlySortedBy lock_cmp tree.now }
    requires few { length tree.now ≤ MOST_LOCKS }
    ensures { result ≡ length (filter (λ lock. lock.opened == opened) (filter (is_part part) tree.now)) }
{
    match &tree.top {
        Top::Empty => 0,
        Top::At(node) => match part.side_of(&node.lock) {
            Ordering::Less => count_in(&node.right, part, opened),
            Ordering::Equal => {
                let sides = count_in(&node.left, part, opened)
                    + count_in(&node.right, part, opened);
                if node.lock.opened == opened {
                    sides + 1
                } else {
                    sides
                }
            }
            Ordering::Greater => count_in(&node.left, part, opened),
        },
    }
}

/// The lesser of two numbers, or the one that is given.
pub fn lesser(one: Option<u32>, other: Option<u32>) -> Option<u32>
    ensures { result ≡ lesser one other }
{
    match one {
        None => other,
        Some(number) => match other {
            None => Some(number),
            Some(second) => Some(number.min(second)),
        },
    }
}

/// The least job that keeps a lock on a record of the member to its boundary.
pub fn least_keeper(tree: &LockTree, member: u32) -> Option<u32>
    requires { IsStrictlySortedBy lock_cmp tree.now }
    ensures { result ≡ least_job (filter (is_boundary_in member) tree.now) }
{
    let mut from: u64 = 0;
    while let Some(first) = first_from(tree, from) {
        let job = first.job;
        if keeps_in(tree, job, member) {
            return Some(job);
        }
        from = job as u64 + 1;
    }
    None
}

fn keeps_in(tree: &LockTree, job: u32, member: u32) -> bool
    requires { IsStrictlySortedBy lock_cmp tree.now }
    ensures { result ≡ list_any (λ lock. is_boundary_in member lock && is_by job lock) tree.now }
{
    first_in(
        tree,
        Part::InMember(job, Reach::Boundary, member),
        Sought::Any,
    )
    .is_some()
}

// The first lock of this job and those after it.
fn first_from(tree: &LockTree, job: u64) -> Option<Lock>
    requires { IsStrictlySortedBy lock_cmp tree.now }
    ensures { result ≡ find (λ lock. nat_le job lock.job) tree.now }
{
    match &tree.top {
        Top::Empty => None,
        Top::At(node) => {
            if (node.lock.job as u64) < job {
                first_from(&node.right, job)
            } else {
                match first_from(&node.left, job) {
                    Some(lock) => Some(lock),
                    None => Some(node.lock),
                }
            }
        }
    }
}
