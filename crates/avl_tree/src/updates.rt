// Changes of values in place.
ghost use Rattle.std.specs.Prelude.{◌≡◌, None, IsSome, IfSome};
ghost use Rattle.std.specs.BTreeMap.{is_at};
ghost use Rattle.std.specs.Fn.{CalledAtMut};
ghost use Rattle.avl_tree.specs.Nodes.{entries, IsSearchTree};
ghost use Rattle.avl_tree.specs.Changes.{Changes, TakesAtMut, TakesFound};

use crate::pairs::answer;
use crate::tree::{Node, Tree};
use crate::walks::compare;
use std::alloc::Allocator;
use std::cmp::Ordering;

/// Calls the closure on the value of a node.
fn update_value<K, V, A: Allocator, R, F: FnMut(&mut V) -> R>(
    node: &mut Node<K, V, A>,
    f: &mut F,
) -> R
    requires callable { TakesAtMut F.FnMut f.old node.old.value }
    ensures left { node.new.left ≡ node.old.left }
    ensures right { node.new.right ≡ node.old.right }
    ensures key { node.new.key ≡ node.old.key }
    ensures called { CalledAtMut F.FnMut f.old node.old.value result f.new node.new.value }
{
    f(&mut node.value)
}

/// Calls the closure on the value of a node, and puts its result into its place.
fn answer_value<K, V, A: Allocator, R, F: FnMut(&mut V) -> R>(
    node: &mut Node<K, V, A>,
    f: &mut F,
    out: &mut Option<R>,
)
    requires callable { TakesAtMut F.FnMut f.old node.old.value }
    requires empty { out.old ≡ None }
    ensures left { node.new.left ≡ node.old.left }
    ensures right { node.new.right ≡ node.old.right }
    ensures key { node.new.key ≡ node.old.key }
    ensures answered { IsSome out.new }
    ensures called { IfSome out.new (λ r. CalledAtMut F.FnMut f.old node.old.value r f.new node.new.value) }
{
    answer(out, update_value(node, f));
}

/// Calls the closure on the value of the key that compares equal, if there is one, and puts its result into its place.
fn update_below<K: Ord, V, A: Allocator, R, F: FnMut(&mut V) -> R>(
    tree: &mut Tree<K, V, A>,
    key: &K,
    f: &mut F,
    out: &mut Option<R>,
)
    requires searched { IsSearchTree K.cmp tree.old }
    requires callable { TakesFound F.FnMut (is_at (K.cmp key.now)) (entries tree.old) f.old }
    requires empty { out.old ≡ None }
    ensures { Changes F.FnMut (is_at (K.cmp key.now)) tree.old f.old out.new f.new tree.new }
{
    match tree {
        Tree::Empty => {}
        Tree::Fork(_, node) => match compare(key, node) {
            Ordering::Less => update_below(&mut node.left, key, f, out),
            Ordering::Greater => update_below(&mut node.right, key, f, out),
            Ordering::Equal => answer_value(node, f, out),
        },
    }
}

/// Calls the closure on the value of the key that compares equal, if there is one.
///
/// The search passes a place for the closure's result down, and returns nothing, so it is compiled to a loop.
pub fn update<K: Ord, V, A: Allocator, R, F: FnMut(&mut V) -> R>(
    tree: &mut Tree<K, V, A>,
    key: &K,
    f: &mut F,
) -> Option<R>
    requires searched { IsSearchTree K.cmp tree.old }
    requires callable { TakesFound F.FnMut (is_at (K.cmp key.now)) (entries tree.old) f.old }
    ensures { Changes F.FnMut (is_at (K.cmp key.now)) tree.old f.old result f.new tree.new }
{
    let mut out = None;
    update_below(tree, key, f, &mut out);
    out
}
