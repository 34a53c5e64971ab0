// The map.
#![tactic(auto, using(crate::proofs::Shape::entries_search_of))]

ghost use Rattle.std.specs.Prelude.{◌≡◌, ◌+◌, ◌<◌, ◌≤◌, ◌^◌, ◌⊎◌, true, false, [], length, map, max, take, IfOk, IfErr, if◌then◌else◌};
ghost use Rattle.std.specs.Option.{option_copied, option_map, is_some, IfNone, IfSome};
ghost use Rattle.std.specs.List.{slice_get};
ghost use Rattle.std.specs.List.Sorted.{IsStrictlySortedBy};
ghost use Rattle.std.specs.Ordering.{is_eq};
ghost use Rattle.std.specs.Map.{keys_of, set_value, remove_entry};
ghost use Rattle.std.specs.BTreeMap.{insert_entry, is_at};
ghost use Rattle.std.specs.declared.option.Option.TheVariants.{None, Some};
ghost use Rattle.avl_tree.specs.Changes.{Changed, ChangedTwo, TakesFound};
ghost use Rattle.avl_tree.specs.Map.{entries, get, IsShallow};
ghost use Rattle.avl_tree.specs.Nodes.{entry, with_first, search_of, IsBare, IsWholeTree};
ghost use Rattle.avl_tree.specs.Search.{path_length};
ghost use Rattle.avl_tree.specs.Visits.{between, VisitsTo};

use crate::freeing::free_both;
use crate::spare::SpareNodes;
use crate::tree::{Node, Tree};
use crate::{edits, eight, pairs, range, updates, walks};
use std::alloc::{AllocError, Allocator};
use std::cmp::Ordering;
use std::marker::Model;
use std::mem;

/// A map with its keys in order, in a balanced tree of nodes in boxes of the caller's allocator.
///
/// A contract sees the pairs by rising key (`entries`), the number of spare nodes, and only in `probe` the shape of the tree. Only `reserve`
/// allocates memory. An insert uses a spare node and never fails, and a removal makes the node of its key spare.
pub struct AvlMap<K: Ord + Copy, V, A: Allocator + Clone> {
    root: Tree<K, V, A>,
    len: usize,
    spare: SpareNodes<K, V, A>,
    alloc: A,
}

impl<K: Ord + Copy, V, A: Allocator + Clone> Model for AvlMap<K, V, A> {
    ghost use Rattle.std.specs.Borrow.{ftrue};
    ghost use Rattle.avl_tree.specs.Map.{Map, map_code};

    ghost Value = { Map K V };

    ghost coded = { map_code K.code V.code };

    ghost use Rattle.avl_tree.specs.Nodes.{search_of, IsWholeTree};

    ghost view = { λ m. record { tree = search_of m.root; spare = m.spare } };

    ghost invariant = { λ m. IsWholeTree K.cmp m.root m.len m.spare };

    ghost also_owns = { λ _. ftrue };

    ghost also_shares = { λ _ _ _. ftrue };
}

impl<K: Ord + Copy, V: Drop, A: Allocator + Clone> Drop for AvlMap<K, V, A> {
    fn drop(self) {
        let AvlMap {
            root,
            len: _,
            spare,
            alloc: _,
        } = self;
        drop(spare);
        free_both(root, Tree::Empty);
    }
}

// A map owns no more than its fields do. These impls are written by hand so that a struct that holds a map gets its own `Send`. No impl that another
// crate could use is derived for nodes that contain each other through boxes, or for what holds them.
unsafe impl<K: Ord + Copy + Send, V: Send, A: Allocator + Clone + Send> Send for AvlMap<K, V, A> {}

unsafe impl<K: Ord + Copy + Sync, V: Sync, A: Allocator + Clone + Sync> Sync for AvlMap<K, V, A> {}

/// Puts a pair into a node.
fn fill<K: Copy, V: Drop, A: Allocator>(node: &mut Node<K, V, A>, key: K, value: V)
    ensures left { node.new.left ≡ node.old.left }
    ensures right { node.new.right ≡ node.old.right }
    ensures key { node.new.key ≡ key }
    ensures value { node.new.value ≡ value }
{
    node.key = key;
    node.value = value;
}

/// Counts out a node that was removed from the tree, makes it spare, and returns its pair.
fn retire<K: Copy, V: Default, A: Allocator>(
    mut node: Box<Node<K, V, A>, A>,
    len: &mut usize,
    spare: &mut SpareNodes<K, V, A>,
) -> (K, V)
    requires bare { IsBare node.value }
    requires counted { 0 < len.old }
    requires fits { spare.old + 1 < 2 ^ 64 }
    ensures pair { result ≡ entry node.value }
    ensures one_less { len.new + 1 ≡ len.old }
    ensures one_more { spare.new ≡ spare.old + 1 }
{
    let pair = (node.key, mem::replace(&mut node.value, V::default()));
    *len -= 1;
    spare.push(node);
    pair
}

impl<K: Ord + Copy, V, A: Allocator + Clone> AvlMap<K, V, A> {
    /// The map of these parts.
    fn of(root: Tree<K, V, A>, len: usize, spare: SpareNodes<K, V, A>, alloc: A) -> Self
        requires { IsWholeTree K.cmp root len spare }
        ensures tree { result.tree ≡ search_of root }
        ensures spare { result.spare ≡ spare }
    {
        AvlMap {
            root,
            len,
            spare,
            alloc,
        }
    }

    /// An empty map with no spare node.
    pub fn new_in(alloc: A) -> Self
        ensures empty { entries result ≡ [] }
        ensures no_spare { result.spare ≡ 0 }
    {
        Self::of(Tree::Empty, 0, SpareNodes::new(), alloc)
    }

    /// The number of keys.
    pub fn len(&self) -> usize
        ensures length { result ≡ length (entries self.now) }
        ensures ordered { IsStrictlySortedBy K.cmp (keys_of (entries self.now)) }
    {
        self.len
    }

    /// The number of spare nodes.
    pub fn spare(&self) -> usize
        ensures { result ≡ self.now.spare }
    {
        self.spare.count()
    }

    /// The value of the key.
    pub fn get(&self, key: &K) -> Option<&V>
        ensures { option_copied result ≡ get K.cmp self.now key.now }
    {
        walks::find(&self.root, key)
    }

    /// The values of eight keys, each as `get` returns it. The eight searches are interleaved, a level of each, so that their waits for memory
    /// overlap.
    pub fn get_many(&self, keys: &[K; 8]) -> [Option<&V>; 8]
        ensures { map option_copied result ≡ map (get K.cmp self.now) keys.now }
    {
        eight::find_eight(&self.root, keys)
    }

    /// The pair of the least key.
    pub fn first(&self) -> Option<(&K, &V)>
        ensures pair { option_map (λ p. (p.0.now, p.1.now)) result ≡ slice_get (entries self.now) 0 }
        ensures ordered { IsStrictlySortedBy K.cmp (keys_of (entries self.now)) }
    {
        walks::first(&self.root)
    }

    /// The value of the key, as `get` returns it, and the number of nodes visited on the way from the root to the key or to where it would be.
    pub fn probe(&self, key: &K) -> (Option<&V>, u32)
        ensures value { option_copied result.0 ≡ get K.cmp self.now key.now }
        ensures visits { result.1 ≡ path_length (K.cmp key.now) self.now.tree }
        ensures shallow { IsShallow self.now result.1 }
    {
        walks::count_visits(&self.root, key)
    }

    /// Calls the closure with each pair from `low` to `high`, both included, by rising key. If `high` is below `low` there is no pair.
    ///
    /// The closure is borrowed, so that the caller has the state that the calls left it in.
    pub fn for_range<F: FnMut(&K, &V)>(&self, low: &K, high: &K, f: &mut F)
        requires { F.IsAlwaysCallable f.old }
        ensures callable { F.IsAlwaysCallable f.new }
        ensures visited { VisitsTo F.FnMut f.old (between K.cmp low.now high.now (entries self.now)) f.new }
        ensures ordered { IsStrictlySortedBy K.cmp (keys_of (entries self.now)) }
    {
        range::visit(&self.root, low, high, f);
    }

    /// Calls the closure with each of the first `n` pairs, or with all if there are fewer, by rising key.
    ///
    /// The closure is borrowed, so that the caller has the state that the calls left it in.
    pub fn for_first<F: FnMut(&K, &V)>(&self, n: usize, f: &mut F)
        requires { F.IsAlwaysCallable f.old }
        ensures callable { F.IsAlwaysCallable f.new }
        ensures visited { VisitsTo F.FnMut f.old (take n (entries self.now)) f.new }
        ensures ordered { IsStrictlySortedBy K.cmp (keys_of (entries self.now)) }
    {
        let _ = range::visit_first(&self.root, n, f);
    }

    /// Gives the key another value, and returns the old one. If the key is absent it returns the value that was passed in, and changes nothing.
    pub fn set(&mut self, key: K, value: V) -> Result<V, V>
        ensures spare { self.new.spare ≡ self.old.spare }
        ensures old { IfOk result (λ v. get K.cmp self.old key ≡ Some v) }
        ensures written { IfOk result
            (λ _. entries self.new ≡ set_value (is_at (K.cmp key)) (entries self.old) value) }
        ensures absent { IfErr result
            (λ v. (v ≡ value) × (get K.cmp self.old key ≡ None) × (self.new ≡ self.old)) }
    {
        let mut value = value;
        if self.exchange(&key, &mut value) {
            Ok(value)
        } else {
            Err(value)
        }
    }

    /// Exchanges the value of the key for the one in the given place, which then has the old one, and returns whether the key exists. If it is
    /// absent, nothing changes.
    pub fn exchange(&mut self, key: &K, value: &mut V) -> bool
        ensures spare { self.new.spare ≡ self.old.spare }
        ensures old { result ≡ true → get K.cmp self.old key.now ≡ Some value.new }
        ensures written { result ≡ true
            → entries self.new ≡ set_value (is_at (K.cmp key.now)) (entries self.old) value.old }
        ensures absent { result ≡ false
            → (get K.cmp self.old key.now ≡ None) × (value.new ≡ value.old) × (self.new ≡ self.old) }
    {
        edits::exchange(&mut self.root, key, value)
    }

    /// Calls the closure on the value of the key, which it may change in place, and returns what the closure returned. The closure is called at most
    /// once, and only on that value. If the key is absent there is no call, and nothing changes.
    pub fn update<R, F: FnMut(&mut V) -> R>(&mut self, key: &K, f: &mut F) -> Option<R>
        requires { TakesFound F.FnMut (is_at (K.cmp key.now)) (entries self.old) f.old }
        ensures callable { F.IsAlwaysCallable f.old → F.IsAlwaysCallable f.new }
        ensures changed { IfSome result
            (λ r.
            Changed F.FnMut (is_at (K.cmp key.now)) (entries self.old) f.old r f.new
            (entries self.new)) }
        ensures absent { IfNone result
            ((get K.cmp self.old key.now ≡ None) × (f.new ≡ f.old) × (self.new ≡ self.old)) }
        ensures spare { self.new.spare ≡ self.old.spare }
    {
        updates::update(&mut self.root, key, f)
    }

    /// Calls the closure on the values of two keys, which it may change in place, and returns what the closure returned. If one of the keys is absent
    /// there is no call, and nothing changes.
    pub fn update_two<R, F: FnMut(&mut V, &mut V) -> R>(
        &mut self,
        a: &K,
        b: &K,
        f: &mut F,
    ) -> Option<R>
        requires differ { is_eq (K.cmp a.now b.now) ≡ false }
        requires callable { F.IsAlwaysCallable f.old }
        ensures callable { F.IsAlwaysCallable f.new }
        ensures changed { IfSome result
            (λ r.
            ChangedTwo F.FnMut (is_at (K.cmp a.now)) (is_at (K.cmp b.now))
            (entries self.old) f.old r f.new (entries self.new)) }
        ensures absent { IfNone result
            (((get K.cmp self.old a.now ≡ None) ⊎ (get K.cmp self.old b.now ≡ None))
            × (f.new ≡ f.old)
            × (self.new ≡ self.old)) }
        ensures spare { self.new.spare ≡ self.old.spare }
    {
        match a.cmp(b) {
            Ordering::Less => pairs::update_two(&mut self.root, a, b, true, f),
            Ordering::Equal => None,
            Ordering::Greater => pairs::update_two(&mut self.root, b, a, false, f),
        }
    }
}

impl<K: Ord + Copy + Default, V: Default + Drop, A: Allocator + Clone> AvlMap<K, V, A> {
    /// Removes the key, and returns its value. Its node becomes spare.
    pub fn remove(&mut self, key: &K) -> Option<V>
        ensures value { result ≡ get K.cmp self.old key.now }
        ensures entries { entries self.new ≡ remove_entry (is_at (K.cmp key.now)) (entries self.old) }
        ensures spare { self.new.spare ≡ self.old.spare + (if is_some result then 1 else 0) }
    {
        let mut lower = false;
        let node = edits::remove(&mut self.root, key, &mut lower)?;
        let (_, value) = retire(node, &mut self.len, &mut self.spare);
        Some(value)
    }

    /// Removes the pair of the least key, and returns it. Its node becomes spare.
    pub fn pop_first(&mut self) -> Option<(K, V)>
        ensures pair { result ≡ slice_get (entries self.old) 0 }
        ensures rest { entries self.old ≡ with_first result (entries self.new) }
        ensures ordered { IsStrictlySortedBy K.cmp (keys_of (entries self.old)) }
        ensures spare { self.new.spare ≡ self.old.spare + (if is_some result then 1 else 0) }
    {
        let mut lower = false;
        let node = edits::take_first(&mut self.root, &mut lower)?;
        Some(retire(node, &mut self.len, &mut self.spare))
    }

    /// Makes spare nodes until there are `n`: the only call that allocates memory. If an allocation fails, the pairs and the tree are as they were,
    /// and the map keeps the nodes that were made.
    ///
    /// More nodes than a `usize` counts are refused as well.
    pub fn reserve(&mut self, n: usize) -> Result<(), AllocError>
        ensures same_tree { self.new.tree ≡ self.old.tree }
        ensures not_less { self.old.spare ≤ self.new.spare }
        ensures no_more { self.new.spare ≤ max self.old.spare n }
        ensures enough { IfOk result (λ _. n ≤ self.new.spare) }
    {
        if self.len.checked_add(n).is_none() {
            return Err(AllocError);
        }
        self.spare.grow_to(n, &self.alloc)
    }

    /// Puts a pair whose key is absent into a spare node.
    pub fn insert_reserved(&mut self, key: K, value: V)
        requires spare { 0 < self.old.spare }
        requires absent { get K.cmp self.old key ≡ None }
        ensures entries { entries self.new ≡ insert_entry K.cmp (entries self.old) key value }
        ensures spare { self.new.spare + 1 ≡ self.old.spare }
    {
        let mut node = self.spare.pop();
        fill(&mut node, key, value);
        edits::insert(&mut self.root, &key, node);
        self.len += 1;
    }
}
