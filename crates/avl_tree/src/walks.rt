// Searches down the tree.
ghost use Rattle.std.specs.Prelude.{◌≡◌, ◌<◌};
ghost use Rattle.std.specs.Option.{option_copied, option_map};
ghost use Rattle.std.specs.List.{slice_get};
ghost use Rattle.std.specs.Map.{lookup};
ghost use Rattle.std.specs.Ordering.{is_lt};
ghost use Rattle.std.specs.BTreeMap.{is_at};
ghost use Rattle.avl_tree.specs.Search.{path_length};
ghost use Rattle.avl_tree.specs.Nodes.{entries, entry, search_of, stored_height, IsAvl, IsSearchTree};

use crate::tree::{Node, Tree};
use std::alloc::Allocator;
use std::cmp::Ordering;

/// How a key compares to the key of a node.
pub fn compare<K: Ord, V, A: Allocator>(key: &K, node: &Node<K, V, A>) -> Ordering
    ensures { result ≡ K.cmp key.now node.now.key }
{
    key.cmp(&node.key)
}

/// Whether a key is below the key of a node.
pub fn is_below<K: Ord, V, A: Allocator>(key: &K, node: &Node<K, V, A>) -> bool
    ensures { result ≡ is_lt (K.cmp key.now node.now.key) }
{
    matches!(compare(key, node), Ordering::Less)
}

/// The value of a node.
fn value_of<K, V, A: Allocator>(node: &Node<K, V, A>) -> &V
    ensures { result.now ≡ node.now.value }
{
    &node.value
}

/// The value at the key that compares equal.
pub fn find<'a, K: Ord, V, A: Allocator>(tree: &'a Tree<K, V, A>, key: &K) -> Option<&'a V>
    requires searched { IsSearchTree K.cmp tree.now }
    ensures { option_copied result ≡ lookup (is_at (K.cmp key.now)) (entries tree.now) }
{
    let mut at = tree;
    while let Tree::Fork(_, node) = at {
        match compare(key, node) {
            Ordering::Less => at = &node.left,
            Ordering::Greater => at = &node.right,
            Ordering::Equal => return Some(value_of(node)),
        }
    }
    None
}

/// The entry of a node.
fn entry_of<K, V, A: Allocator>(node: &Node<K, V, A>) -> (&K, &V)
    ensures { (result.0.now, result.1.now) ≡ entry node.now }
{
    (&node.key, &node.value)
}

/// The entry of the least key.
pub fn first<K, V, A: Allocator>(tree: &Tree<K, V, A>) -> Option<(&K, &V)>
    requires { IsAvl tree.now }
    ensures { option_map (λ p. (p.0.now, p.1.now)) result ≡ slice_get (entries tree.now) 0 }
{
    let Tree::Fork(_, node) = tree else {
        return None;
    };
    match &node.left {
        Tree::Empty => Some(entry_of(node)),
        Tree::Fork(_, _) => first(&node.left),
    }
}

/// The value at the key that compares equal, and the number of nodes that the search visited.
pub fn count_visits<'a, K: Ord, V, A: Allocator>(
    tree: &'a Tree<K, V, A>,
    key: &K,
) -> (Option<&'a V>, u32)
    requires searched { IsSearchTree K.cmp tree.now }
    requires height_fits { stored_height tree.now < 256 }
    ensures value { option_copied result.0 ≡ lookup (is_at (K.cmp key.now)) (entries tree.now) }
    ensures visits { result.1 ≡ path_length (K.cmp key.now) (search_of tree.now) }
{
    let mut at = tree;
    let mut visits = 0;
    while let Tree::Fork(_, node) = at {
        visits += 1;
        match compare(key, node) {
            Ordering::Less => at = &node.left,
            Ordering::Greater => at = &node.right,
            Ordering::Equal => return (Some(value_of(node)), visits),
        }
    }
    (None, visits)
}
