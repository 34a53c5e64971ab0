// The nodes of the tree, and their rotations.
ghost use Rattle.std.specs.Prelude.{◌≡◌, ◌+◌, ◌<◌, ◌≤◌, max, IfSome};
ghost use Rattle.avl_tree.specs.Nodes.{entries, entries_at, entry, height_at, stored_height, IsAvl, IsNearlyAvl, SettlesTo, IsBare, IsHeightOver, IsLevelAt, IsGrown, DifferByAtMost};
ghost use Rattle.std.specs.Borrow.{sem};
ghost use Rattle.avl_tree.specs.private.Sides.{lends_side, side_of};
ghost use Rattle.avl_tree.specs.declared.tree.Tree.TheVariants.{Empty};

use std::alloc::Allocator;
use std::cmp::Ordering;
use std::mem;

/// A link to a balanced tree: nothing, or the height of the tree and its root.
///
/// The height is next to the pointer, where the link has bytes to spare, so that balancing a node reads no side.
#[cycle(avl)]
#[derive(Drop)]
pub enum Tree<K, V, A: Allocator> {
    Empty,
    Fork(u8, Box<Node<K, V, A>, A>),
}

/// A node.
///
/// A search reads the key and one of the sides, so they come first, and the key before both. If a link holds a handle of its allocator, both sides
/// and the key take more than the rest of a cache line. The fields of a spare node are never read.
#[cycle(avl)]
#[derive(Drop)]
pub struct Node<K, V, A: Allocator> {
    pub key: K,
    pub left: Tree<K, V, A>,
    pub right: Tree<K, V, A>,
    pub value: V,
}

/// The height that the link stores.
pub fn height<K, V, A: Allocator>(tree: &Tree<K, V, A>) -> u8
    ensures { result ≡ stored_height tree.now }
{
    match tree {
        Tree::Empty => 0,
        Tree::Fork(height, _) => *height,
    }
}

/// The side of a node in which a search goes on, if the key that it looks for compares in this order to the node's.
pub fn side<K, V, A: Allocator>(node: &mut Node<K, V, A>, order: Ordering) -> &mut Tree<K, V, A>
    ensures* writes_back { sem 𝓛 (lends_side K.row V.row A.row A.Allocator order node.entry result) }
    ensures value { result.now ≡ side_of order node.old }
{
    match order {
        Ordering::Greater => &mut node.right,
        Ordering::Less | Ordering::Equal => &mut node.left,
    }
}

/// Takes the tree out of its place.
pub fn take<K, V, A: Allocator>(place: &mut Tree<K, V, A>) -> Tree<K, V, A>
    ensures taken { result ≡ place.old }
    ensures empty { place.new ≡ Empty }
{
    mem::replace(place, Tree::Empty)
}

/// Puts a tree into an empty place.
pub fn put<K, V, A: Allocator>(place: &mut Tree<K, V, A>, tree: Tree<K, V, A>)
    requires { place.old ≡ Empty }
    ensures { place.new ≡ tree }
{
    match mem::replace(place, tree) {
        Tree::Empty => {}
        Tree::Fork(_, _) => unreachable!(),
    }
}

/// Separates a node from its sides.
pub fn split<K, V, A: Allocator>(
    mut node: Box<Node<K, V, A>, A>,
) -> (Tree<K, V, A>, Box<Node<K, V, A>, A>, Tree<K, V, A>)
    ensures left { result.0 ≡ node.value.left }
    ensures bare { IsBare result.1.value }
    ensures entry { entry result.1.value ≡ entry node.value }
    ensures right { result.2 ≡ node.value.right }
{
    let left = take(&mut node.left);
    let right = take(&mut node.right);
    (left, node, right)
}

/// The tree of a node over its sides, which differ by at most one level.
fn over<K, V, A: Allocator>(node: Box<Node<K, V, A>, A>) -> Tree<K, V, A>
    requires left { IsAvl node.value.left }
    requires right { IsAvl node.value.right }
    requires close { DifferByAtMost 1 (stored_height node.value.left) (stored_height node.value.right) }
    requires height_fits { max (stored_height node.value.left) (stored_height node.value.right) < 255 }
    ensures balanced { IsAvl result }
    ensures entries { entries result ≡ entries_at node.value }
    ensures height { stored_height result ≡ height_at node.value }
{
    let height = height(&node.left).max(height(&node.right)) + 1;
    Tree::Fork(height, node)
}

/// The tree of a node whose left side is two levels higher. That side's root comes over the node; or, if it leans to the right, the root of its right
/// side comes over both.
fn lean_left<K, V, A: Allocator>(mut node: Box<Node<K, V, A>, A>) -> Tree<K, V, A>
    requires left { IsAvl node.value.left }
    requires right { IsAvl node.value.right }
    requires two_higher { stored_height node.value.left ≡ stored_height node.value.right + 2 }
    requires height_fits { stored_height node.value.left < 250 }
    ensures balanced { IsAvl result }
    ensures entries { entries result ≡ entries_at node.value }
    ensures height { IsGrown (stored_height node.value.left) (stored_height result) }
{
    let Tree::Fork(_, mut top) = take(&mut node.left) else {
        unreachable!()
    };
    if height(&top.left) >= height(&top.right) {
        put(&mut node.left, take(&mut top.right));
        put(&mut top.right, over(node));
        return over(top);
    }
    let Tree::Fork(_, mut middle) = take(&mut top.right) else {
        unreachable!()
    };
    put(&mut top.right, take(&mut middle.left));
    put(&mut node.left, take(&mut middle.right));
    put(&mut middle.left, over(top));
    put(&mut middle.right, over(node));
    over(middle)
}

/// The tree of a node whose right side is two levels higher, as [`lean_left`] makes it.
fn lean_right<K, V, A: Allocator>(mut node: Box<Node<K, V, A>, A>) -> Tree<K, V, A>
    requires left { IsAvl node.value.left }
    requires right { IsAvl node.value.right }
    requires two_higher { stored_height node.value.right ≡ stored_height node.value.left + 2 }
    requires height_fits { stored_height node.value.right < 250 }
    ensures balanced { IsAvl result }
    ensures entries { entries result ≡ entries_at node.value }
    ensures height { IsGrown (stored_height node.value.right) (stored_height result) }
{
    let Tree::Fork(_, mut top) = take(&mut node.right) else {
        unreachable!()
    };
    if height(&top.right) >= height(&top.left) {
        put(&mut node.right, take(&mut top.left));
        put(&mut top.left, over(node));
        return over(top);
    }
    let Tree::Fork(_, mut middle) = take(&mut top.left) else {
        unreachable!()
    };
    put(&mut top.left, take(&mut middle.right));
    put(&mut node.right, take(&mut middle.left));
    put(&mut middle.left, over(node));
    put(&mut middle.right, over(top));
    over(middle)
}

/// The tree of a node over its sides, which differ by at most two levels.
pub fn balance<K, V, A: Allocator>(node: Box<Node<K, V, A>, A>) -> Tree<K, V, A>
    requires left { IsAvl node.value.left }
    requires right { IsAvl node.value.right }
    requires close { DifferByAtMost 2 (stored_height node.value.left) (stored_height node.value.right) }
    requires height_fits { max (stored_height node.value.left) (stored_height node.value.right) < 250 }
    ensures balanced { IsAvl result }
    ensures entries { entries result ≡ entries_at node.value }
    ensures height { IsHeightOver (stored_height node.value.left) (stored_height node.value.right)
        (stored_height result) }
{
    let (to_left, to_right) = (height(&node.left), height(&node.right));
    if to_left > to_right + 1 {
        lean_left(node)
    } else if to_right > to_left + 1 {
        lean_right(node)
    } else {
        over(node)
    }
}

/// The height of the root over its sides, if they differ by at most one level.
fn level_height<K, V, A: Allocator>(tree: &Tree<K, V, A>) -> Option<u8>
    requires { IsNearlyAvl tree.now }
    ensures { IfSome result (λ h. IsLevelAt h tree.now) }
{
    let Tree::Fork(_, node) = tree else {
        return Some(0);
    };
    let (to_left, to_right) = (height(&node.left), height(&node.right));
    if to_left > to_right + 1 || to_right > to_left + 1 {
        return None;
    }
    Some(to_left.max(to_right) + 1)
}

/// Sets the height of a root whose sides differ by at most one level.
fn set_height<K, V, A: Allocator>(tree: &mut Tree<K, V, A>, height: u8)
    requires near { IsNearlyAvl tree.old }
    requires level { IsLevelAt height tree.old }
    ensures { SettlesTo tree.old tree.new }
{
    if let Tree::Fork(stored, _) = tree {
        *stored = height;
    }
}

/// Rotates the root, if one of its sides has become two levels higher than the other.
///
/// It is a function of its own, so that a level of an insert or a removal saves few registers if no rotation is due.
#[inline(never)]
fn rotate<K, V, A: Allocator>(tree: &mut Tree<K, V, A>)
    requires { IsNearlyAvl tree.old }
    ensures { SettlesTo tree.old tree.new }
{
    match take(tree) {
        Tree::Empty => {}
        Tree::Fork(_, node) => put(tree, balance(node)),
    }
}

/// Balances the root, if one of its sides has become one level higher or lower.
pub fn settle<K, V, A: Allocator>(tree: &mut Tree<K, V, A>)
    requires { IsNearlyAvl tree.old }
    ensures { SettlesTo tree.old tree.new }
{
    match level_height(tree) {
        Some(height) => set_height(tree, height),
        None => rotate(tree),
    }
}
