// Trees that are freed.
ghost use Rattle.std.specs.Prelude.{◌≡◌, ◌+◌, ◌≤◌};
ghost use Rattle.avl_tree.specs.private.Freeing.{node_count};

use crate::tree::{Node, Tree};
use std::alloc::Allocator;

/// Frees a node, and returns its sides.
fn free_node<K: Drop, V: Drop, A: Allocator>(
    node: Box<Node<K, V, A>, A>,
) -> (Tree<K, V, A>, Tree<K, V, A>)
    ensures left { result.0 ≡ node.value.left }
    ensures right { result.1 ≡ node.value.right }
{
    let Node {
        key: _,
        left,
        right,
        value: _,
    } = Box::into_inner(node);
    (left, right)
}

/// Frees the root, if there is one, and returns its sides.
fn free_root<K: Drop, V: Drop, A: Allocator>(tree: Tree<K, V, A>) -> (Tree<K, V, A>, Tree<K, V, A>)
    ensures { node_count result.0 + node_count result.1 ≤ node_count tree }
{
    match tree {
        Tree::Empty => (Tree::Empty, Tree::Empty),
        Tree::Fork(_, node) => free_node(node),
    }
}

/// Frees two trees, a node of each at a time, so that their waits for memory overlap.
pub fn free_both<K: Drop, V: Drop, A: Allocator>(tree: Tree<K, V, A>, other: Tree<K, V, A>) {
    match tree {
        Tree::Empty => match other {
            Tree::Empty => {}
            Tree::Fork(_, node) => {
                let (left, right) = free_node(node);
                free_both(left, right);
            }
        },
        Tree::Fork(_, node) => {
            let (left, right) = free_node(node);
            let (other_left, other_right) = free_root(other);
            free_both(left, right);
            free_both(other_left, other_right);
        }
    }
}
