// Eight searches down the tree, interleaved, a level of each.
ghost use Rattle.std.specs.Prelude.{◌≡◌, map};
ghost use Rattle.std.specs.Option.{option_copied};
ghost use Rattle.std.specs.Map.{lookup};
ghost use Rattle.std.specs.BTreeMap.{is_at};
ghost use Rattle.avl_tree.specs.Nodes.{entries, LeadsTo, IsSearchTree};

use crate::tree::{Tree, height};
use crate::walks::{compare, find};
use std::alloc::Allocator;
use std::cmp::Ordering;

/// The side of the root in which a search for the key goes on, or the tree itself if the search ends.
///
/// The address is taken from a list instead of by a branch to one of three: which side comes next cannot be predicted, and a mispredicted branch
/// would hold up all eight searches. A choice between the addresses becomes a branch if a link has 24 bytes.
fn step<'a, K: Ord, V, A: Allocator>(tree: &'a Tree<K, V, A>, key: &K) -> &'a Tree<K, V, A>
    requires searched { IsSearchTree K.cmp tree.now }
    ensures { LeadsTo K.cmp key.now tree.now result.now }
{
    let Tree::Fork(_, node) = tree else {
        return tree;
    };
    let order = compare(key, node);
    let here = matches!(order, Ordering::Equal) as usize;
    let right = matches!(order, Ordering::Greater) as usize;
    let ways = [&node.left, &node.right, tree, tree];
    ways[2 * here + right]
}

/// The values at eight keys, each as `find` returns it.
///
/// The searches are interleaved, a level of each, so that their waits for memory overlap.
pub fn find_eight<'a, K: Ord, V, A: Allocator>(
    tree: &'a Tree<K, V, A>,
    keys: &[K; 8],
) -> [Option<&'a V>; 8]
    requires searched { IsSearchTree K.cmp tree.now }
    ensures { map option_copied result ≡ map (λ k. lookup (is_at (K.cmp k)) (entries tree.now)) keys.now }
{
    let [ka, kb, kc, kd, ke, kf, kg, kh] = keys;
    let (mut a, mut b, mut c, mut d) = (tree, tree, tree, tree);
    let (mut e, mut f, mut g, mut h) = (tree, tree, tree, tree);
    for _ in 0..height(tree) {
        a = step(a, ka);
        b = step(b, kb);
        c = step(c, kc);
        d = step(d, kd);
        e = step(e, ke);
        f = step(f, kf);
        g = step(g, kg);
        h = step(h, kh);
    }
    [
        find(a, ka),
        find(b, kb),
        find(c, kc),
        find(d, kd),
        find(e, ke),
        find(f, kf),
        find(g, kg),
        find(h, kh),
    ]
}
