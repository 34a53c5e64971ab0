//! A finite map: rows by rising key, in a balanced tree.
ghost use Rattle.std.specs.Prelude.{◌≡◌, ◌≢◌, ◌↔◌, ℕ, ◌+◌, ◌-◌, ◌<◌, ◌≤◌, ◌==◌, max, [], length, map, None, find, IsTrue, OnOk, IfSome, IfNone};
ghost use Rattle.std.specs.Option.{option_copied};
ghost use Rattle.tb_records.specs.Ordered.{put, replaced, taken_out, Rising};
ghost use Rattle.tb_ledger.specs.Tables.{freed, IsShortSearch, KeepsKey, ChangedRow, KeepsKeys, ChangedRows, LacksOneOf, pairs_in, spare_in};

use crate::tables::absent_ids::{AbsentIds, unfound};
use avl_tree::AvlMap;
use std::alloc::{AllocError, Allocator};
use std::marker::Model;

/// A row that has a key.
pub trait Keyed: Copy + Default {
    ghost key: { Self → ℕ };

    fn key(&self) -> u128
        ensures { result ≡ key self.now };

    /// A number computed from a field in each of its cache lines, so that computing it brings the whole row into the cache. Its value has no meaning.
    fn mixed(&self) -> u128;
}

impl Keyed for u128 {
    ghost key = { λ id. id };

    fn key(&self) -> u128 {
        *self
    }

    fn mixed(&self) -> u128 {
        *self
    }
}

/// Makes capacity until `n` more entries fit, in a map that is made if there is none. If there is no memory the entries stay, and no capacity is lost.
pub(crate) fn reserve_in<K: Ord + Copy + Default, V: Default + Drop, A: Allocator + Clone>(
    map: &mut Option<AvlMap<K, V, A>>,
    alloc: &A,
    n: usize,
) -> Result<(), AllocError>
    ensures entries { pairs_in map.new ≡ pairs_in map.old }
    ensures ok { OnOk result (n ≤ spare_in map.new) }
    ensures not_less { spare_in map.old ≤ spare_in map.new }
    ensures no_more { spare_in map.new ≤ max (spare_in map.old) n }
{
    match map {
        Some(map) if n <= map.spare() => Ok(()),
        Some(map) => map.reserve(n),
        None => {
            let mut made = AvlMap::new_in(alloc.clone()?);
            let reserved = made.reserve(n);
            *map = Some(made);
            reserved
        }
    }
}

/// Rows by rising key. A table allocates memory only on a call of `reserve`.
#[derive(Drop)]
pub struct Table<V: Keyed, A: Allocator + Clone> {
    rows: Option<AvlMap<u128, V, A>>,
    /// What is known of their keys. It stays if rows are removed.
    absent_ids: AbsentIds,
    /// The exclusive or of the results for rows that were touched: the compiler may remove a search whose result is unused. Nothing reads it.
    touched: u128,
}

impl<V: Keyed, A: Allocator + Clone> Model for Table<V, A> {
    ghost use Rattle.tb_ledger.specs.Tables.{pairs_in, rows_in, spare_in, KnowsAbsent, Stored};

    ghost Value = { Stored V };

    ghost view = { λ t. record { items = rows_in t.rows; spare = spare_in t.rows } };

    ghost invariant = { λ t. KnowsAbsent V.key t.absent_ids (pairs_in t.rows) };
}

/// So many rows no longer fit a core's private cache, in which a search for one of them hardly waits.
const MANY_ROWS: usize = 4096;

/// So many rows no longer fit the caches: a search for a row then waits for memory at most of its levels.
const LARGE_ROWS: usize = 65_536;

/// Reads all cache lines of the rows that exist.
fn read_whole<V: Keyed>(rows: &[Option<&V>; 8]) -> u128 {
    let mut mixed = 0;
    for row in rows {
        if let Some(row) = row {
            mixed ^= row.mixed();
        }
    }
    mixed
}

impl<V: Keyed, A: Allocator + Clone> Table<V, A> {
    /// An empty table. No memory is allocated.
    pub fn new() -> Self
        ensures { result ≡ record { items = []; spare = 0 } }
    {
        Table {
            rows: None,
            absent_ids: AbsentIds::new(),
            touched: 0,
        }
    }

    /// The row with the key. A key that is known to be absent is not searched for.
    pub fn get(&self, id: u128) -> Option<&V>
        ensures { option_copied result ≡ find (λ row. V.key row == id) self.now.items }
    {
        if self.absent_ids.excludes(id) {
            return None;
        }
        match &self.rows {
            Some(rows) => rows.get(&id),
            None => None,
        }
    }

    /// The rows with eight keys, each as [`Table::get`] returns it. The searches are interleaved.
    pub fn get_many<'a>(&'a self, ids: &[u128; 8]) -> [Option<&'a V>; 8]
        ensures { map option_copied result
            ≡ map (λ id. find (λ row. V.key row == id) self.now.items) ids.now }
    {
        match &self.rows {
            Some(rows) => rows.get_many(ids),
            None => [None; 8],
        }
    }

    /// An interleaved search for the ids saves time: there are so many rows that a search for one waits for memory, and most of the ids may exist.
    fn is_worth_seeking(&self, ids: &[u128; 8]) -> bool {
        match &self.rows {
            Some(rows) => MANY_ROWS <= rows.len() && self.absent_ids.is_worth_seeking(ids),
            None => false,
        }
    }

    /// Looks for eight ids interleaved, and remembers the absent ones: the next search for one of them is saved. If there are few rows, or most ids
    /// are above all keys, nothing is looked for.
    pub fn seek(&mut self, ids: &[u128; 8])
        ensures { self.new ≡ self.old }
    {
        if !self.is_worth_seeking(ids) {
            self.absent_ids.sought = false;
            return;
        }
        let absent = unfound(ids, &self.get_many(ids));
        self.absent_ids.absent = absent;
        self.absent_ids.sought = true;
    }

    /// There are so many rows that touching those needed next saves more than it costs.
    pub fn is_large(&self) -> bool
        ensures { IsTrue result ↔ 65536 ≤ length self.now.items }
    {
        match &self.rows {
            Some(rows) => LARGE_ROWS <= rows.len(),
            None => false,
        }
    }

    /// Searches for the rows with eight keys interleaved and brings them into the cache, for calls that need them next. The rows stay.
    pub fn touch(&mut self, ids: &[u128; 8])
        ensures { self.new ≡ self.old }
    {
        let mixed = read_whole(&self.get_many(ids));
        self.touched ^= mixed;
    }

    /// Touches the rows of eight pairs of keys.
    pub fn touch_pairs(&mut self, pairs: [(u128, u128); 8])
        ensures { self.new ≡ self.old }
    {
        let [a, b, c, d, e, f, g, h] = pairs;
        self.touch(&[a.0, a.1, b.0, b.1, c.0, c.1, d.0, d.1]);
        self.touch(&[e.0, e.1, f.0, f.1, g.0, g.1, h.0, h.1]);
    }

    /// The row with the key, and the number of nodes that the search visited.
    pub fn probe(&self, id: u128) -> (Option<&V>, u32)
        ensures row { option_copied result.0 ≡ find (λ row. V.key row == id) self.now.items }
        ensures visits { IsShortSearch (length self.now.items) result.1 }
    {
        match &self.rows {
            Some(rows) => rows.probe(&id),
            None => (None, 0),
        }
    }

    /// Makes capacity until `n` more rows fit. If there is no memory the rows stay, and no capacity is lost.
    pub fn reserve(&mut self, alloc: &A, n: usize) -> Result<(), AllocError>
        ensures rows { self.new.items ≡ self.old.items }
        ensures ok { OnOk result (n ≤ self.new.spare) }
        ensures not_less { self.old.spare ≤ self.new.spare }
        ensures no_more { self.new.spare ≤ max self.old.spare n }
    {
        reserve_in(&mut self.rows, alloc, n)
    }

    /// Inserts a row whose key does not exist, if there is capacity.
    pub fn insert_reserved(&mut self, row: V)
        requires capacity { 0 < self.old.spare }
        requires absent { find (λ y. V.key y == V.key row) self.old.items ≡ None }
        ensures table { self.new ≡ record { items = put V.key row self.old.items; spare = self.old.spare - 1 } }
        ensures rising { Rising V.key self.old.items }
    {
        self.absent_ids.admit(row.key());
        let Some(rows) = &mut self.rows else {
            return;
        };
        rows.insert_reserved(row.key(), row);
    }

    /// Puts a row in the place of the row with the same key. If there is none, the table stays.
    pub fn replace(&mut self, row: V)
        ensures table { self.new ≡ record self.old { items = replaced V.key row self.old.items } }
        ensures rising { Rising V.key self.old.items }
    {
        let Some(rows) = &mut self.rows else {
            return;
        };
        let _ = rows.set(row.key(), row);
    }

    /// Calls the closure at the row with the key; the closure may change the row except its key. If there is no such row, nothing happens.
    pub fn update<R, F: FnMut(&mut V) -> R>(&mut self, id: u128, f: &mut F) -> Option<R>
        requires callable { F.IsAlwaysCallable f.old }
        requires keeps { KeepsKey V.key F.FnMut }
        ensures changed { IfSome result
            (λ r. ChangedRow V.key F.FnMut id self.old.items f.old r f.new self.new.items) }
        ensures absent { IfNone result
            ((find (λ y. V.key y == id) self.old.items ≡ None)
            × (self.new.items ≡ self.old.items)) }
        ensures capacity { self.new.spare ≡ self.old.spare }
    {
        let Some(rows) = &mut self.rows else {
            return None;
        };
        rows.update(&id, f)
    }

    /// Calls the closure at the rows of two keys; the closure may change the rows except their keys. If one of the rows does not exist, nothing
    /// happens.
    pub fn update_two<R, F: FnMut(&mut V, &mut V) -> R>(
        &mut self,
        a: u128,
        b: u128,
        f: &mut F,
    ) -> Option<R>
        requires differ { a ≢ b }
        requires callable { F.IsAlwaysCallable f.old }
        requires keeps { KeepsKeys V.key F.FnMut }
        ensures changed { IfSome result
            (λ r. ChangedRows V.key F.FnMut a b self.old.items f.old r f.new self.new.items) }
        ensures absent { IfNone result
            (LacksOneOf V.key a b self.old.items × (f.new ≡ f.old) × (self.new.items ≡ self.old.items)) }
        ensures capacity { self.new.spare ≡ self.old.spare }
    {
        let Some(rows) = &mut self.rows else {
            return None;
        };
        rows.update_two(&a, &b, f)
    }

    /// Removes the row with the key. If there is no such row, the table stays.
    pub fn remove(&mut self, id: u128)
        ensures rows { self.new.items ≡ taken_out V.key id self.old.items }
        ensures capacity { self.new.spare
            ≡ self.old.spare + freed (find (λ y. V.key y == id) self.old.items) }
    {
        let Some(rows) = &mut self.rows else {
            return;
        };
        let _ = rows.remove(&id);
    }
}
