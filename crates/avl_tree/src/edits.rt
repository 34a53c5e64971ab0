// Changes of the tree.
ghost use Rattle.std.specs.Prelude.{◌≡◌, ◌≢◌, ◌+◌, ◌<◌, ◌≤◌, ◌++◌, true, false, None, Some, IfSome, MatchOption};
ghost use Rattle.std.specs.Option.{option_map};
ghost use Rattle.std.specs.Map.{lookup, remove_entry};
ghost use Rattle.std.specs.BTreeMap.{is_at, insert_entry};
ghost use Rattle.avl_tree.specs.Nodes.{entries, entry, entry_in, with_first, stored_height, IsAvl, IsNearlyAvl, SettlesTo, IsBare, HasNoLeft, beside_root, root_entry, IsSearchTree, IsShrunk, IsTold, IsGrownAsTold, IsShrunkAsTold, Exchanges};
ghost use Rattle.avl_tree.specs.declared.tree.Tree.TheVariants.{Empty};

use crate::tree::{Node, Tree, balance, height, put, settle, split, take};
use crate::walks::{compare, is_below};
use std::alloc::Allocator;
use std::cmp::Ordering;
use std::mem;

/// Exchanges the value of a node.
fn exchange_value<K, V, A: Allocator>(node: &mut Node<K, V, A>, value: &mut V)
    ensures left { node.new.left ≡ node.old.left }
    ensures right { node.new.right ≡ node.old.right }
    ensures entry { entry node.new ≡ (node.old.key, value.old) }
    ensures value { value.new ≡ node.old.value }
{
    mem::swap(&mut node.value, value);
}

/// Exchanges the value at the key that compares equal, and returns whether there is one.
pub fn exchange<K: Ord, V, A: Allocator>(tree: &mut Tree<K, V, A>, key: &K, value: &mut V) -> bool
    requires searched { IsSearchTree K.cmp tree.old }
    ensures { Exchanges (is_at (K.cmp key.now)) tree.old value.old result tree.new value.new }
{
    match tree {
        Tree::Empty => false,
        Tree::Fork(_, node) => match compare(key, node) {
            Ordering::Less => exchange(&mut node.left, key, value),
            Ordering::Greater => exchange(&mut node.right, key, value),
            Ordering::Equal => {
                exchange_value(node, value);
                true
            }
        },
    }
}

/// Balances the root after one of its sides grew or shrank, and returns whether the tree has another height than before.
fn regrow<K, V, A: Allocator>(tree: &mut Tree<K, V, A>) -> bool
    requires { IsNearlyAvl tree.old }
    ensures settled { SettlesTo tree.old tree.new }
    ensures told { IsTold result (stored_height tree.old) (stored_height tree.new) }
{
    let before = height(tree);
    settle(tree);
    height(tree) != before
}

/// Puts a node at its place, if no key compares equal, and returns whether the tree is higher than before. If a side did not become higher, nothing
/// changes above it.
pub fn insert<K: Ord, V, A: Allocator>(
    tree: &mut Tree<K, V, A>,
    key: &K,
    fresh: Box<Node<K, V, A>, A>,
) -> bool
    requires searched { IsSearchTree K.cmp tree.old }
    requires height_fits { stored_height tree.old < 200 }
    requires absent { lookup (is_at (K.cmp key.now)) (entries tree.old) ≡ None }
    requires bare { IsBare fresh.value }
    requires key { fresh.value.key ≡ key.now }
    ensures balanced { IsAvl tree.new }
    ensures entries { entries tree.new ≡ insert_entry K.cmp (entries tree.old) key.now fresh.value.value }
    ensures height { IsGrownAsTold result (stored_height tree.old) (stored_height tree.new) }
{
    let grew = match tree {
        Tree::Empty => {
            put(tree, Tree::Fork(1, fresh));
            return true;
        }
        Tree::Fork(_, node) => {
            if is_below(key, node) {
                insert(&mut node.left, key, fresh)
            } else {
                insert(&mut node.right, key, fresh)
            }
        }
    };
    if !grew {
        return false;
    }
    regrow(tree)
}

/// Removes the root, if it has no left side.
fn take_top<K, V, A: Allocator>(tree: &mut Tree<K, V, A>) -> Option<Box<Node<K, V, A>, A>>
    requires balanced { IsAvl tree.old }
    requires no_left { HasNoLeft tree.old }
    ensures balanced { IsAvl tree.new }
    ensures entries { entries tree.old ≡ with_first (entry_in result) (entries tree.new) }
    ensures taken { MatchOption result ((tree.old ≡ Empty) × (tree.new ≡ Empty))
        (λ b. IsBare b.value) }
    ensures height { IsShrunk (stored_height tree.old) (stored_height tree.new) }
    ensures lower { tree.old ≢ Empty → stored_height tree.new < stored_height tree.old }
{
    match take(tree) {
        Tree::Empty => None,
        Tree::Fork(_, mut node) => {
            put(tree, take(&mut node.right));
            Some(node)
        }
    }
}

/// Removes the node of the least key, and reports whether the tree is lower than before. If a side did not become lower, nothing changes above it.
pub fn take_first<K, V, A: Allocator>(
    tree: &mut Tree<K, V, A>,
    lower: &mut bool,
) -> Option<Box<Node<K, V, A>, A>>
    requires balanced { IsAvl tree.old }
    requires height_fits { stored_height tree.old < 200 }
    requires not_lower { lower.old ≡ false }
    ensures balanced { IsAvl tree.new }
    ensures entries { entries tree.old ≡ with_first (entry_in result) (entries tree.new) }
    ensures taken { MatchOption result ((tree.old ≡ Empty) × (tree.new ≡ Empty))
        (λ b. IsBare b.value) }
    ensures height { IsShrunkAsTold lower.new (stored_height tree.old) (stored_height tree.new) }
{
    let taken = match tree {
        Tree::Empty => return None,
        Tree::Fork(_, node) => take_first(&mut node.left, lower),
    };
    match taken {
        None => {
            *lower = true;
            take_top(tree)
        }
        Some(first) => {
            if *lower {
                *lower = regrow(tree);
            }
            Some(first)
        }
    }
}

/// Removes the root. The node of the next key takes its place.
fn take_root<K, V, A: Allocator>(tree: &mut Tree<K, V, A>) -> Option<Box<Node<K, V, A>, A>>
    requires balanced { IsAvl tree.old }
    requires height_fits { stored_height tree.old < 200 }
    ensures balanced { IsAvl tree.new }
    ensures entries { entries tree.new ≡ beside_root tree.old }
    ensures root { entry_in result ≡ root_entry tree.old }
    ensures taken { IfSome result (λ b. IsBare b.value) }
    ensures height { IsShrunk (stored_height tree.old) (stored_height tree.new) }
{
    match take(tree) {
        Tree::Empty => None,
        Tree::Fork(_, node) => {
            let (left, node, mut right) = split(node);
            let mut lower = false;
            match take_first(&mut right, &mut lower) {
                None => {
                    put(&mut right, left);
                    put(tree, right);
                }
                Some(mut next) => {
                    put(&mut next.left, left);
                    put(&mut next.right, right);
                    put(tree, balance(next));
                }
            }
            Some(node)
        }
    }
}

/// Removes the node whose key compares equal, and reports whether the tree is lower than before. If a side did not become lower, nothing changes
/// above it.
pub fn remove<K: Ord, V, A: Allocator>(
    tree: &mut Tree<K, V, A>,
    key: &K,
    lower: &mut bool,
) -> Option<Box<Node<K, V, A>, A>>
    requires searched { IsSearchTree K.cmp tree.old }
    requires height_fits { stored_height tree.old < 200 }
    requires not_lower { lower.old ≡ false }
    ensures balanced { IsAvl tree.new }
    ensures entries { entries tree.new ≡ remove_entry (is_at (K.cmp key.now)) (entries tree.old) }
    ensures value { option_map (λ b. b.value.value) result
        ≡ lookup (is_at (K.cmp key.now)) (entries tree.old) }
    ensures taken { IfSome result (λ b. IsBare b.value) }
    ensures height { IsShrunkAsTold lower.new (stored_height tree.old) (stored_height tree.new) }
{
    let taken = match tree {
        Tree::Empty => return None,
        Tree::Fork(_, node) => match compare(key, node) {
            Ordering::Less => remove(&mut node.left, key, lower),
            Ordering::Greater => remove(&mut node.right, key, lower),
            Ordering::Equal => {
                let before = height(tree);
                let taken = take_root(tree);
                *lower = height(tree) != before;
                return taken;
            }
        },
    };
    if !*lower {
        return taken;
    }
    *lower = regrow(tree);
    taken
}
