// Nodes that wait for an entry.
ghost use Rattle.std.specs.Prelude.{◌≡◌, ◌+◌, ◌<◌, ◌≤◌, ◌^◌, max, IfOk};
ghost use Rattle.avl_tree.specs.Nodes.{IsBare, IsSpareChain, nodes_in_chain};

use crate::tree::{Node, Tree, put, take};
use std::alloc::{AllocError, Allocator};
use std::marker::Model;

/// Nodes that are not in use, each linked to the next by its left side.
pub struct SpareNodes<K, V, A: Allocator> {
    first: Tree<K, V, A>,
    count: usize,
}

impl<K, V, A: Allocator> Model for SpareNodes<K, V, A> {
    ghost use Rattle.std.specs.Prelude.{ℕ, ◌≡◌};

    ghost Value = { ℕ };

    ghost use Rattle.avl_tree.specs.Nodes.{IsSpareChain, nodes_in_chain};

    ghost view = { λ s. s.count };

    ghost invariant = { λ s. IsSpareChain s.first × (s.count ≡ nodes_in_chain s.first) };
}

impl<K: Drop, V: Drop, A: Allocator> Drop for SpareNodes<K, V, A> {
    fn drop(self) {
        let SpareNodes { first, count: _ } = self;
        free(first);
    }
}

/// Frees a chain a node at a time: a derived `drop` would call itself once for each node.
fn free<K: Drop, V: Drop, A: Allocator>(mut chain: Tree<K, V, A>) {
    loop {
        match chain {
            Tree::Empty => return,
            Tree::Fork(_, node) => {
                let Node {
                    key: _,
                    left,
                    right: _,
                    value: _,
                } = Box::into_inner(node);
                chain = left;
            }
        }
    }
}

/// Makes a node. Its content is overwritten before it is read.
fn make<K: Default + Drop, V: Default + Drop, A: Allocator>(
    alloc: A,
) -> Result<Box<Node<K, V, A>, A>, AllocError>
    ensures bare { IfOk result (λ b. IsBare b.value) }
{
    let node = Node {
        key: K::default(),
        left: Tree::Empty,
        right: Tree::Empty,
        value: V::default(),
    };
    match Box::new(alloc, node) {
        Ok(node) => Ok(node),
        Err(failed) => {
            drop(failed.value);
            Err(AllocError)
        }
    }
}

impl<K, V, A: Allocator> SpareNodes<K, V, A> {
    /// No node.
    pub fn new() -> Self
        ensures { result ≡ 0 }
    {
        SpareNodes {
            first: Tree::Empty,
            count: 0,
        }
    }

    /// The number of nodes.
    pub fn count(&self) -> usize
        ensures { result ≡ self.now }
    {
        self.count
    }

    /// Adds a node.
    pub fn push(&mut self, mut node: Box<Node<K, V, A>, A>)
        requires bare { IsBare node.value }
        requires fits { self.old + 1 < 2 ^ 64 }
        ensures { self.new ≡ self.old + 1 }
    {
        put(&mut node.left, take(&mut self.first));
        put(&mut self.first, Tree::Fork(1, node));
        self.count += 1;
    }

    /// Removes a node, and returns it.
    pub fn pop(&mut self) -> Box<Node<K, V, A>, A>
        requires { 0 < self.old }
        ensures one_less { self.new + 1 ≡ self.old }
        ensures bare { IsBare result.value }
    {
        let Tree::Fork(_, mut node) = take(&mut self.first) else {
            unreachable!()
        };
        put(&mut self.first, take(&mut node.left));
        self.count -= 1;
        node
    }

    /// Makes nodes until there are `n`.
    pub fn grow_to(&mut self, n: usize, alloc: &A) -> Result<(), AllocError>
    where
        K: Default + Drop,
        V: Default + Drop,
        A: Clone,
        ensures not_less { self.old ≤ self.new }
        ensures no_more { self.new ≤ max self.old n }
        ensures enough { IfOk result (λ _. n ≤ self.new) }
    {
        while self.count() < n {
            self.push(make(alloc.clone()?)?);
        }
        Ok(())
    }
}
