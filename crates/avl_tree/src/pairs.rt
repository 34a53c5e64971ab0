// Changes of two values at once, in place.
ghost use Rattle.std.specs.Prelude.{◌≡◌, None, Some, IsSome, IfSome};
ghost use Rattle.std.specs.declared.cmp.Ordering.TheVariants.{Less};
ghost use Rattle.avl_tree.specs.Nodes.{entry, IsSearchTree};
ghost use Rattle.avl_tree.specs.private.Pairs.{CalledAtBoth, ChangesBeside, ChangesApart, ChangesBoth};

use crate::tree::{Node, Tree, side};
use crate::walks::compare;
use std::alloc::Allocator;
use std::cmp::Ordering;
use std::mem;

/// Calls the closure on a held value and another, in this order or the other one.
fn call_both<V, R, F: FnMut(&mut V, &mut V) -> R>(
    held: &mut V,
    other: &mut V,
    in_order: bool,
    f: &mut F,
) -> R
    requires callable { F.IsAlwaysCallable f.old }
    ensures callable { F.IsAlwaysCallable f.new }
    ensures called { CalledAtBoth F.FnMut in_order f.old held.old other.old result f.new held.new other.new }
{
    if in_order {
        f(held, other)
    } else {
        f(other, held)
    }
}

/// Puts the closure's result into its place.
pub(crate) fn answer<R>(out: &mut Option<R>, given: R)
    requires { out.old ≡ None }
    ensures { out.new ≡ Some given }
{
    match mem::replace(out, Some(given)) {
        None => {}
        Some(_) => unreachable!(),
    }
}

/// Calls the closure on a held value and another, and puts its result into its place.
fn answer_both<V, R, F: FnMut(&mut V, &mut V) -> R>(
    held: &mut V,
    other: &mut V,
    in_order: bool,
    f: &mut F,
    out: &mut Option<R>,
)
    requires callable { F.IsAlwaysCallable f.old }
    requires empty { out.old ≡ None }
    ensures callable { F.IsAlwaysCallable f.new }
    ensures answered { IsSome out.new }
    ensures called { IfSome out.new
        (λ r.
        CalledAtBoth F.FnMut in_order f.old held.old other.old r f.new held.new
        other.new) }
{
    answer(out, call_both(held, other, in_order, f));
}

/// Looks for the other key, while the value of the first one is held.
///
/// It is a function of its own, so that a level of both searches saves no registers.
#[inline(never)]
fn beside<K: Ord, V, A: Allocator, R, F: FnMut(&mut V, &mut V) -> R>(
    tree: &mut Tree<K, V, A>,
    key: &K,
    held: &mut V,
    in_order: bool,
    f: &mut F,
    out: &mut Option<R>,
)
    requires searched { IsSearchTree K.cmp tree.old }
    requires callable { F.IsAlwaysCallable f.old }
    requires empty { out.old ≡ None }
    ensures callable { F.IsAlwaysCallable f.new }
    ensures changes { ChangesBeside F.FnMut in_order K.cmp key.now held.old tree.old f.old out.new f.new
        held.new tree.new }
{
    match tree {
        Tree::Empty => {}
        Tree::Fork(_, node) => match compare(key, node) {
            Ordering::Less => beside(&mut node.left, key, held, in_order, f, out),
            Ordering::Greater => beside(&mut node.right, key, held, in_order, f, out),
            Ordering::Equal => answer_both(held, &mut node.value, in_order, f, out),
        },
    }
}

/// Looks for the other key left of a node, while the node's value is held.
fn beside_left<K: Ord, V, A: Allocator, R, F: FnMut(&mut V, &mut V) -> R>(
    node: &mut Node<K, V, A>,
    key: &K,
    in_order: bool,
    f: &mut F,
    out: &mut Option<R>,
)
    requires searched { IsSearchTree K.cmp node.old.left }
    requires callable { F.IsAlwaysCallable f.old }
    requires empty { out.old ≡ None }
    ensures callable { F.IsAlwaysCallable f.new }
    ensures right { node.new.right ≡ node.old.right }
    ensures key { node.new.key ≡ node.old.key }
    ensures changes { ChangesBeside F.FnMut in_order K.cmp key.now node.old.value node.old.left f.old
        out.new f.new node.new.value node.new.left }
{
    beside(&mut node.left, key, &mut node.value, in_order, f, out)
}

/// Looks for the other key right of a node, while the node's value is held.
fn beside_right<K: Ord, V, A: Allocator, R, F: FnMut(&mut V, &mut V) -> R>(
    node: &mut Node<K, V, A>,
    key: &K,
    in_order: bool,
    f: &mut F,
    out: &mut Option<R>,
)
    requires searched { IsSearchTree K.cmp node.old.right }
    requires callable { F.IsAlwaysCallable f.old }
    requires empty { out.old ≡ None }
    ensures callable { F.IsAlwaysCallable f.new }
    ensures left { node.new.left ≡ node.old.left }
    ensures key { node.new.key ≡ node.old.key }
    ensures changes { ChangesBeside F.FnMut in_order K.cmp key.now node.old.value node.old.right f.old
        out.new f.new node.new.value node.new.right }
{
    beside(&mut node.right, key, &mut node.value, in_order, f, out)
}

/// Looks for one key in each of two trees, a level of either, interleaved, so that their waits for memory overlap.
///
/// The end is tested first, so that which side comes next is a choice between two addresses. It is not a branch, because a level calls the next one
/// through [`apart_below`]: in a function that calls itself, which is compiled to a loop, the choice would be a branch that cannot be predicted.
#[cycle(apart)]
#[inline(never)]
fn apart<K: Ord, V, A: Allocator, R, F: FnMut(&mut V, &mut V) -> R>(
    tree: &mut Tree<K, V, A>,
    other: &mut Tree<K, V, A>,
    key: &K,
    other_key: &K,
    in_order: bool,
    f: &mut F,
    out: &mut Option<R>,
)
    requires searched { IsSearchTree K.cmp tree.old }
    requires other_searched { IsSearchTree K.cmp other.old }
    requires callable { F.IsAlwaysCallable f.old }
    requires empty { out.old ≡ None }
    ensures callable { F.IsAlwaysCallable f.new }
    ensures changes { ChangesApart F.FnMut in_order K.cmp key.now other_key.now tree.old
        other.old f.old out.new f.new tree.new other.new }
{
    let Tree::Fork(_, node) = tree else {
        return;
    };
    let order = compare(key, node);
    if order.is_eq() {
        beside(other, other_key, &mut node.value, in_order, f, out);
        return;
    }
    apart_below(other, side(node, order), other_key, key, !in_order, f, out);
}

/// Goes on with both searches: `next` is the tree whose turn it is, `last` the one that is now a level further down.
#[cycle(apart)]
#[inline(never)]
fn apart_below<K: Ord, V, A: Allocator, R, F: FnMut(&mut V, &mut V) -> R>(
    next: &mut Tree<K, V, A>,
    last: &mut Tree<K, V, A>,
    next_key: &K,
    last_key: &K,
    in_order: bool,
    f: &mut F,
    out: &mut Option<R>,
)
    requires searched { IsSearchTree K.cmp next.old }
    requires last_searched { IsSearchTree K.cmp last.old }
    requires callable { F.IsAlwaysCallable f.old }
    requires empty { out.old ≡ None }
    ensures callable { F.IsAlwaysCallable f.new }
    ensures changes { ChangesApart F.FnMut in_order K.cmp next_key.now last_key.now next.old
        last.old f.old out.new f.new next.new last.new }
{
    apart(next, last, next_key, last_key, in_order, f, out);
}

/// Looks for two keys, one on either side of a node.
fn apart_at<K: Ord, V, A: Allocator, R, F: FnMut(&mut V, &mut V) -> R>(
    node: &mut Node<K, V, A>,
    low: &K,
    high: &K,
    in_order: bool,
    f: &mut F,
    out: &mut Option<R>,
)
    requires left { IsSearchTree K.cmp node.old.left }
    requires right { IsSearchTree K.cmp node.old.right }
    requires callable { F.IsAlwaysCallable f.old }
    requires empty { out.old ≡ None }
    ensures callable { F.IsAlwaysCallable f.new }
    ensures entry { entry node.new ≡ entry node.old }
    ensures changes { ChangesApart F.FnMut in_order K.cmp low.now high.now node.old.left
        node.old.right f.old out.new f.new node.new.left node.new.right }
{
    apart(&mut node.left, &mut node.right, low, high, in_order, f, out)
}

/// Looks for two keys from the root on, and calls the closure on their values.
fn seek_both<K: Ord, V, A: Allocator, R, F: FnMut(&mut V, &mut V) -> R>(
    tree: &mut Tree<K, V, A>,
    low: &K,
    high: &K,
    in_order: bool,
    f: &mut F,
    out: &mut Option<R>,
)
    requires searched { IsSearchTree K.cmp tree.old }
    requires lower { K.cmp low.now high.now ≡ Less }
    requires callable { F.IsAlwaysCallable f.old }
    requires empty { out.old ≡ None }
    ensures callable { F.IsAlwaysCallable f.new }
    ensures changes { ChangesBoth F.FnMut in_order K.cmp low.now high.now tree.old f.old
        out.new f.new tree.new }
{
    let Tree::Fork(_, node) = tree else {
        return;
    };
    match compare(low, node) {
        Ordering::Greater => seek_both(&mut node.right, low, high, in_order, f, out),
        Ordering::Equal => beside_right(node, high, in_order, f, out),
        Ordering::Less => match compare(high, node) {
            Ordering::Less => seek_both(&mut node.left, low, high, in_order, f, out),
            Ordering::Equal => beside_left(node, low, !in_order, f, out),
            Ordering::Greater => apart_at(node, low, high, in_order, f, out),
        },
    }
}

/// Calls the closure on the values of two keys, `low`'s first if they are in order, if both exist.
///
/// The closure's result may be large, so the searches pass a place for it down, and return nothing.
pub fn update_two<K: Ord, V, A: Allocator, R, F: FnMut(&mut V, &mut V) -> R>(
    tree: &mut Tree<K, V, A>,
    low: &K,
    high: &K,
    in_order: bool,
    f: &mut F,
) -> Option<R>
    requires searched { IsSearchTree K.cmp tree.old }
    requires lower { K.cmp low.now high.now ≡ Less }
    requires callable { F.IsAlwaysCallable f.old }
    ensures callable { F.IsAlwaysCallable f.new }
    ensures changes { ChangesBoth F.FnMut in_order K.cmp low.now high.now tree.old f.old
        result f.new tree.new }
{
    let mut out = None;
    seek_both(tree, low, high, in_order, f, &mut out);
    out
}
