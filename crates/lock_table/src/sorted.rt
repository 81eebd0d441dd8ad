//! Trees of locks in strict order: where a lock is put in, and where it is taken out.
ghost use Rattle.std.specs.List.Sorted.{IsStrictlySortedBy};
ghost use Rattle.std.specs.Prelude.{◌≡◌, ◌≤◌, ◌+◌, length, is_some, if◌then◌else◌, vec_len, vec_capacity};
ghost use Rattle.lock_table.specs.Lock.{lock_cmp};
ghost use Rattle.lock_table.specs.Table.{with_lock, without_lock};

use crate::chosen::{is_there, order};
use crate::lock::Lock;
use crate::tree::{LockTree, Node, Top, appended, balanced, joined, leaf};
use std::cmp::Ordering;
use std::mem;

/// Puts the lock in its place, unless it is there. There is a free node for it, so no memory is taken.
pub fn put_lock(locks: &mut LockTree, free: &mut Vec<Box<Node>>, lock: Lock)
    requires ordered { IsStrictlySortedBy lock_cmp locks.old }
    requires room { length (with_lock lock locks.old) ≤ length locks.old + vec_len free.old }
    ensures locks { locks.new ≡ with_lock lock locks.old }
    ensures nodes { length locks.new + vec_len free.new ≡ length locks.old + vec_len free.old }
    ensures capacity { vec_capacity free.new ≡ vec_capacity free.old }
{
    if is_there(locks, &lock) {
        return;
    }
    let node = free.take_last();
    let tree = mem::replace(locks, LockTree::new());
    *locks = inserted(tree, lock, node);
}

// The lock isn't there yet.
fn inserted(tree: LockTree, lock: Lock, node: Box<Node>) -> LockTree
    requires ordered { IsStrictlySortedBy lock_cmp tree }
    requires missing { length (with_lock lock tree) ≡ length tree + 1 }
    ensures { result ≡ with_lock lock tree }
{
    match tree.top {
        Top::Empty => leaf(node, lock),
        Top::At(mut top) => {
            if order(&lock, &top.lock).is_lt() {
                let left = mem::replace(&mut top.left, LockTree::new());
                top.left = inserted(left, lock, node);
                balanced(top)
            } else {
                let right = mem::replace(&mut top.right, LockTree::new());
                top.right = inserted(right, lock, node);
                balanced(top)
            }
        }
    }
}

/// Takes the lock out, where it is there. Its node is free then.
pub fn take_lock(locks: &mut LockTree, free: &mut Vec<Box<Node>>, lock: &Lock)
    requires ordered { IsStrictlySortedBy lock_cmp locks.old }
    requires stored { length locks.old + vec_len free.old ≤ vec_capacity free.old }
    ensures locks { locks.new ≡ without_lock lock.now locks.old }
    ensures nodes { length locks.new + vec_len free.new ≡ length locks.old + vec_len free.old }
    ensures capacity { vec_capacity free.new ≡ vec_capacity free.old }
{
    let tree = mem::replace(locks, LockTree::new());
    let (left, node) = removed(tree, lock);
    *locks = left;
    if let Some(node) = node {
        free.push_reserved(node);
    }
}

fn removed(tree: LockTree, lock: &Lock) -> (LockTree, Option<Box<Node>>)
    requires { IsStrictlySortedBy lock_cmp tree }
    ensures locks { result.0 ≡ without_lock lock.now tree }
    ensures node { length result.0 + (if is_some result.1 then 1 else 0) ≡ length tree }
{
    match tree.top {
        Top::Empty => (LockTree::new(), None),
        Top::At(mut top) => {
            let left = mem::replace(&mut top.left, LockTree::new());
            let right = mem::replace(&mut top.right, LockTree::new());
            match order(lock, &top.lock) {
                Ordering::Less => {
                    let (left, node) = removed(left, lock);
                    (joined(left, top, right), node)
                }
                Ordering::Equal => (appended(left, right), Some(top)),
                Ordering::Greater => {
                    let (right, node) = removed(right, lock);
                    (joined(left, top, right), node)
                }
            }
        }
    }
}
