//! A caller of the map.
ghost use Rattle.std.specs.Prelude.{◌≡◌, IfOk, OnErr};
ghost use Rattle.avl_tree.specs.Map.{entries, get};

use avl_tree::AvlMap;
use std::alloc::{AllocError, Allocator};

/// Puts a value at a key, in the place of an old one or in capacity made for it first, and returns the old one. If there is
/// no memory, the map holds what it held.
pub fn put<K: Ord + Copy + Default, V: Default + Drop, A: Allocator + Clone>(
    map: &mut AvlMap<K, V, A>,
    key: K,
    value: V,
) -> Result<Option<V>, AllocError>
    ensures old { IfOk result (λ old. old ≡ get K.cmp map.old key) }
    ensures unchanged { OnErr result (entries map.new ≡ entries map.old) }
{
    match map.set(key, value) {
        Ok(old) => Ok(Some(old)),
        Err(value) => {
            map.reserve(1)?;
            map.insert_reserved(key, value);
            Ok(None)
        }
    }
}
