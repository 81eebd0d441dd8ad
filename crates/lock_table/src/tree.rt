//! Locks as a search tree that is balanced by height. No clause speaks of the balance, which bears on time alone. What a
//! tree makes of an order is in sorted.rt.
ghost use Rattle.std.specs.Prelude.{◌≡◌, ◌≤◌, ◌+◌, [], ◌∷◌, ◌++◌, IsTrue, MatchOption, OnOk, length, vec_len, vec_capacity};
ghost use Rattle.lock_table.specs.Tree.{locks_of};

use crate::lock::{Lock, LockKind, Reach, RecordId};
use crate::table::MOST_LOCKS;
use std::alloc::{AllocError, Global};
use std::marker::Model;
use std::mem;

/// Locks, as its nodes have them from left to right.
#[cycle(tree)]
#[derive(Drop)]
pub struct LockTree {
    pub(crate) top: Top,
}

#[cycle(tree)]
#[derive(Drop)]
pub(crate) enum Top {
    Empty,
    At(Box<Node>),
}

/// A lock between the locks of two sides.
#[cycle(tree)]
#[derive(Drop)]
pub struct Node {
    pub(crate) left: LockTree,
    pub(crate) lock: Lock,
    height: u8,
    pub(crate) right: LockTree,
}

impl Model for LockTree {
    ghost use Rattle.std.specs.Prelude.{List, length};
    ghost use Rattle.lock_table.specs.declared.lock.Lock.{Lock};

    ghost Value = { List Lock };

    ghost use Rattle.lock_table.specs.Tree.{locks_at};

    ghost view = { λ tree. locks_at tree.top };

    ghost size = { length };

    ghost use Rattle.std.proofs.Common.{arith, length-append};

    ghost size_decreases = { λ a h. Prim.grind (arith, length-append) };
}

impl LockTree {
    pub fn new() -> LockTree
        ensures { result ≡ [] }
    {
        LockTree { top: Top::Empty }
    }

    /// Whether it has no lock.
    pub fn is_empty(&self) -> bool
        ensures { IsTrue result → self.now ≡ [] }
    {
        match &self.top {
            Top::Empty => true,
            Top::At(_) => false,
        }
    }

    fn height(&self) -> u8 {
        match &self.top {
            Top::Empty => 0,
            Top::At(node) => node.height,
        }
    }
}

/// A node that no tree has yet.
pub fn free_node(alloc: Global) -> Result<Box<Node>, AllocError> {
    let lock = Lock {
        job: 0,
        reach: Reach::Open,
        at: RecordId { member: 0, rrn: 0 },
        opened: 0,
        kind: LockKind::READ,
    };
    let node = Node {
        left: LockTree::new(),
        lock,
        height: 0,
        right: LockTree::new(),
    };
    Ok(Box::new(alloc, node)?)
}

/// The tree of one lock.
pub fn leaf(mut node: Box<Node>, lock: Lock) -> LockTree
    ensures { result ≡ lock ∷ [] }
{
    node.left = LockTree::new();
    node.lock = lock;
    node.right = LockTree::new();
    rooted(node)
}

// The node on top of its sides.
fn rooted(mut node: Box<Node>) -> LockTree
    ensures { result ≡ locks_of node.value }
{
    let below = node.left.height().max(node.right.height());
    node.height = below.saturating_add(1);
    LockTree { top: Top::At(node) }
}

/// The node on top of its sides, where one is two levels higher than the other at most.
pub fn balanced(node: Box<Node>) -> LockTree
    ensures { result ≡ locks_of node.value }
{
    let left = node.left.height();
    let right = node.right.height();
    if left > right.saturating_add(1) {
        lowered_left(node)
    } else if right > left.saturating_add(1) {
        lowered_right(node)
    } else {
        rooted(node)
    }
}

fn lowered_left(mut node: Box<Node>) -> LockTree
    ensures { result ≡ locks_of node.value }
{
    let left = mem::replace(&mut node.left, LockTree::new());
    node.left = leaned_left(left);
    turned_right(node)
}

fn lowered_right(mut node: Box<Node>) -> LockTree
    ensures { result ≡ locks_of node.value }
{
    let right = mem::replace(&mut node.right, LockTree::new());
    node.right = leaned_right(right);
    turned_left(node)
}

// The left side isn't lower than the right one.
fn leaned_left(tree: LockTree) -> LockTree
    ensures { result ≡ tree }
{
    match tree.top {
        Top::Empty => LockTree::new(),
        Top::At(node) => {
            if node.left.height() < node.right.height() {
                turned_left(node)
            } else {
                rooted(node)
            }
        }
    }
}

// The right side isn't lower than the left one.
fn leaned_right(tree: LockTree) -> LockTree
    ensures { result ≡ tree }
{
    match tree.top {
        Top::Empty => LockTree::new(),
        Top::At(node) => {
            if node.right.height() < node.left.height() {
                turned_right(node)
            } else {
                rooted(node)
            }
        }
    }
}

// The left side comes to the top.
fn turned_right(mut node: Box<Node>) -> LockTree
    ensures { result ≡ locks_of node.value }
{
    match mem::replace(&mut node.left, LockTree::new()).top {
        Top::Empty => rooted(node),
        Top::At(mut left) => {
            node.left = mem::replace(&mut left.right, LockTree::new());
            left.right = rooted(node);
            rooted(left)
        }
    }
}

// The right side comes to the top.
fn turned_left(mut node: Box<Node>) -> LockTree
    ensures { result ≡ locks_of node.value }
{
    match mem::replace(&mut node.right, LockTree::new()).top {
        Top::Empty => rooted(node),
        Top::At(mut right) => {
            node.right = mem::replace(&mut right.left, LockTree::new());
            right.left = rooted(node);
            rooted(right)
        }
    }
}

/// The locks of the left tree, the node's and those of the right tree, however high the trees are.
pub fn joined(left: LockTree, node: Box<Node>, right: LockTree) -> LockTree
    ensures { result ≡ left ++ node.value.lock ∷ right }
{
    if left.height() < right.height() {
        hung_left(left, node, right)
    } else {
        hung_right(left, node, right)
    }
}

fn between(left: LockTree, mut node: Box<Node>, right: LockTree) -> LockTree
    ensures { result ≡ left ++ node.value.lock ∷ right }
{
    node.left = left;
    node.right = right;
    balanced(node)
}

// Goes down the right side of the left tree, to where the right tree is high enough.
fn hung_right(left: LockTree, node: Box<Node>, right: LockTree) -> LockTree
    ensures { result ≡ left ++ node.value.lock ∷ right }
{
    if left.height() <= right.height().saturating_add(1) {
        return between(left, node, right);
    }
    match left.top {
        Top::Empty => between(LockTree::new(), node, right),
        Top::At(mut top) => {
            let side = mem::replace(&mut top.right, LockTree::new());
            top.right = hung_right(side, node, right);
            balanced(top)
        }
    }
}

// Goes down the left side of the right tree, to where the left tree is high enough.
fn hung_left(left: LockTree, node: Box<Node>, right: LockTree) -> LockTree
    ensures { result ≡ left ++ node.value.lock ∷ right }
{
    if right.height() <= left.height().saturating_add(1) {
        return between(left, node, right);
    }
    match right.top {
        Top::Empty => between(left, node, LockTree::new()),
        Top::At(mut top) => {
            let side = mem::replace(&mut top.left, LockTree::new());
            top.left = hung_left(left, node, side);
            balanced(top)
        }
    }
}

/// The locks of both trees.
pub fn appended(left: LockTree, right: LockTree) -> LockTree
    ensures { result ≡ left ++ right }
{
    let (rest, first) = first_taken(right);
    match first {
        None => left,
        Some(node) => joined(left, node, rest),
    }
}

// The tree without its first lock, and the node of that.
fn first_taken(tree: LockTree) -> (LockTree, Option<Box<Node>>)
    ensures { MatchOption result.1 (tree ≡ []) (λ node. tree ≡ node.value.lock ∷ result.0) }
{
    match tree.top {
        Top::Empty => (LockTree::new(), None),
        Top::At(mut node) => {
            let left = mem::replace(&mut node.left, LockTree::new());
            let right = mem::replace(&mut node.right, LockTree::new());
            let (rest, first) = first_taken(left);
            match first {
                None => (right, Some(node)),
                Some(first) => (joined(rest, node, right), Some(first)),
            }
        }
    }
}

/// Makes so many free nodes more.
pub fn add_free(free: &mut Vec<Box<Node>>, held: usize, count: usize) -> Result<(), AllocError>
    requires few { held + vec_len free.old + count ≤ MOST_LOCKS }
    requires stored { held + vec_len free.old ≤ vec_capacity free.old }
    ensures added { OnOk result (vec_len free.new ≡ vec_len free.old + count) }
    ensures kept { vec_len free.old ≤ vec_len free.new }
    ensures within { vec_len free.new ≤ vec_len free.old + count }
    ensures stored { held + vec_len free.new ≤ vec_capacity free.new }
{
    free.reserve(held + count)?;
    let alloc = *free.allocator();
    push_free(free, count, alloc)
}

fn push_free(free: &mut Vec<Box<Node>>, count: usize, alloc: Global) -> Result<(), AllocError>
    requires { vec_len free.old + count ≤ vec_capacity free.old }
    ensures added { OnOk result (vec_len free.new ≡ vec_len free.old + count) }
    ensures kept { vec_len free.old ≤ vec_len free.new }
    ensures within { vec_len free.new ≤ vec_len free.old + count }
    ensures capacity { vec_capacity free.new ≡ vec_capacity free.old }
{
    for made in 0..count {
        free.push_reserved(free_node(alloc)?);
    }
    Ok(())
}
