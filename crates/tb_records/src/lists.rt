//! A list in a public type, over a vector.
ghost use Rattle.std.specs.Prelude.{◌≡◌, ◌==◌, length, IfOk};

use std::alloc::{AllocError, Global};
use std::marker::Model;

/// A list of items, made from a vector and given back as one, without an allocation.
#[derive(Drop)]
pub struct Items<T: Drop> {
    items: Vec<T>,
}

impl<T: Drop> Model for Items<T> {
    ghost use Rattle.std.specs.Prelude.{List};

    ghost Value = { List T };

    ghost view = { λ s. s.items.items };
}

impl<T: Drop> Items<T> {
    /// The vector's items.
    pub fn new(items: Vec<T>) -> Items<T>
        ensures { result ≡ items.items }
    {
        Items { items }
    }

    /// The items.
    pub fn as_slice(&self) -> &[T]
        ensures { result.now ≡ self.now }
    {
        self.items.as_slice()
    }

    /// The number of items.
    pub fn len(&self) -> usize
        ensures { result ≡ length self.now }
    {
        self.items.len()
    }

    /// Whether there are no items.
    pub fn is_empty(&self) -> bool
        ensures { result ≡ (length self.now == 0) }
    {
        self.items.is_empty()
    }
}

impl<T: Copy + Drop> Items<T> {
    /// A list of the same items.
    pub fn copy(&self, alloc: Global) -> Result<Items<T>, AllocError>
        ensures { IfOk result (λ items. items ≡ self.now) }
    {
        let items = Vec::from_slice(alloc, self.items.as_slice())?;
        Ok(Items { items })
    }
}
