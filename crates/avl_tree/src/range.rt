// Walks over a range of keys, and over the first entries.
ghost use Rattle.std.specs.Prelude.{◌≡◌, ◌-◌, length, take};
ghost use Rattle.avl_tree.specs.Nodes.{entries, entry, IsAvl, IsSearchTree};
ghost use Rattle.avl_tree.specs.Visits.{between, CalledAtEntry, VisitsTo};

use crate::tree::{Node, Tree};
use crate::walks::compare;
use std::alloc::Allocator;
use std::cmp::Ordering;

/// Calls the closure with the entry of a node.
fn call_at<K, V, A: Allocator, F: FnMut(&K, &V)>(node: &Node<K, V, A>, f: &mut F)
    requires callable { F.IsAlwaysCallable f.old }
    ensures callable { F.IsAlwaysCallable f.new }
    ensures called { CalledAtEntry F.FnMut f.old (entry node.now) f.new }
{
    f(&node.key, &node.value);
}

/// Calls the closure with each entry from `low` to `high`, by rising key.
pub fn visit<K: Ord, V, A: Allocator, F: FnMut(&K, &V)>(
    tree: &Tree<K, V, A>,
    low: &K,
    high: &K,
    f: &mut F,
)
    requires searched { IsSearchTree K.cmp tree.now }
    requires callable { F.IsAlwaysCallable f.old }
    ensures callable { F.IsAlwaysCallable f.new }
    ensures visited { VisitsTo F.FnMut f.old (between K.cmp low.now high.now (entries tree.now)) f.new }
{
    let Tree::Fork(_, node) = tree else {
        return;
    };
    match compare(low, node) {
        Ordering::Greater => visit(&node.right, low, high, f),
        Ordering::Equal => match compare(high, node) {
            Ordering::Less => {}
            Ordering::Equal => call_at(node, f),
            Ordering::Greater => {
                call_at(node, f);
                visit(&node.right, low, high, f);
            }
        },
        Ordering::Less => match compare(high, node) {
            Ordering::Less => visit(&node.left, low, high, f),
            Ordering::Equal => {
                visit(&node.left, low, high, f);
                call_at(node, f);
            }
            Ordering::Greater => {
                visit(&node.left, low, high, f);
                call_at(node, f);
                visit(&node.right, low, high, f);
            }
        },
    }
}

/// Calls the closure with each of the first `n` entries, by rising key, and returns how many of the `n` are left.
pub fn visit_first<K, V, A: Allocator, F: FnMut(&K, &V)>(
    tree: &Tree<K, V, A>,
    n: usize,
    f: &mut F,
) -> usize
    requires balanced { IsAvl tree.now }
    requires callable { F.IsAlwaysCallable f.old }
    ensures callable { F.IsAlwaysCallable f.new }
    ensures visited { VisitsTo F.FnMut f.old (take n (entries tree.now)) f.new }
    ensures left { result ≡ n - length (entries tree.now) }
{
    let Tree::Fork(_, node) = tree else {
        return n;
    };
    let left = visit_first(&node.left, n, f);
    if left == 0 {
        return 0;
    }
    call_at(node, f);
    visit_first(&node.right, left - 1, f)
}
