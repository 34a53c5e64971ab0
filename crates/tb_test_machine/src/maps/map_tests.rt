//! The map in use, at the keys that the books have.
use crate::comparing::{holds, holds_at};
use avl_tree::AvlMap;
use std::alloc::Global;
use std::process::Abort;

type Map = AvlMap<u64, u128, Global>;

/// A map with spare nodes for this many keys.
fn with_room(rt: &impl Abort, alloc: Global, count: usize) -> Map {
    let mut map = AvlMap::new_in(alloc);
    map.reserve(count).expect(rt, "memory");
    map
}

/// Inserts ten times a key, if there is a spare node and the key is absent.
fn put(rt: &impl Abort, map: &mut Map, key: u64) {
    if map.spare() == 0 || map.get(&key).is_some() {
        rt.panic("no spare node, or the key is there");
    }
    map.insert_reserved(key, u128::from(key) * 10);
}

/// A map of the keys from 1 to `last`, put in by rising order.
fn rising(rt: &impl Abort, alloc: Global, last: u64) -> Map {
    let mut map = with_room(rt, alloc, last as usize);
    for key in 1..=last {
        put(rt, &mut map, key);
    }
    map
}

/// No search for a key from 1 to `last` visits more than `most` nodes, and no key after them is found.
fn expect_short(rt: &impl Abort, alloc: Global, last: u64, most: u32) {
    let map = rising(rt, alloc, last);
    for key in 1..=last.saturating_add(1) {
        let (value, visits) = map.probe(&key);
        let wanted = (key <= last).then_some(u128::from(key) * 10);
        holds_at(rt, value.copied() == wanted && visits <= most, &key);
    }
    drop(map);
}

#[test]
fn probes_stay_short(rt: HostRuntime) {
    expect_short(&rt, rt.alloc(), 7, 4);
    expect_short(&rt, rt.alloc(), 1000, 14);
}

/// The keys from `low` to `high`, below 10, as the digits of a number in the order in which they come.
fn digits(map: &Map, low: u64, high: u64) -> u64 {
    let mut digits = 0u64;
    map.for_range(
        &low,
        &high,
        &mut |key: &u64, _: &u128| { digits = digits.wrapping_mul(10).wrapping_add(*key) },
    );
    digits
}

#[test]
fn spare_nodes_are_kept(rt: HostRuntime) {
    let mut map = with_room(&rt, rt.alloc(), 3);
    let reserved = map.spare();
    for key in [2, 1, 3] {
        put(&rt, &mut map, key);
    }
    holds(
        &rt,
        map.spare().checked_add(3) == Some(reserved),
        "three nodes are taken",
    );
    holds(&rt, map.remove(&2) == Some(20), "the value of key 2");
    holds(
        &rt,
        map.spare().checked_add(2) == Some(reserved),
        "a node comes back",
    );
    holds(&rt, map.set(4, 40) == Err(40), "key 4 is absent");
    holds(&rt, map.set(3, 33) == Ok(30), "the value of key 3");
    holds(&rt, digits(&map, 0, 9) == 13, "keys 1 and 3");
    holds(&rt, digits(&map, 9, 0) == 0, "an empty range");
    drop(map);
}

/// So many that they have to be freed without a call for each within another.
#[test]
fn many_spare_nodes_are_let_go(rt: HostRuntime) {
    let map = with_room(&rt, rt.alloc(), 1_000_000);
    let spare = map.spare();
    drop(map);
    holds_at(&rt, spare >= 1_000_000, &spare);
}
