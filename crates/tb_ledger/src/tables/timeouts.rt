//! When open pending transfers expire: their timeouts, by rising time.
ghost use Rattle.std.specs.Prelude.{◌≡◌, ◌+◌, ◌-◌, ◌<◌, ◌≤◌, ◌==◌, max, false, [], None, find, OnOk};
ghost use Rattle.tb_records.specs.Ordered.{put, taken_out, Each};
ghost use Rattle.avl_tree.specs.Map.{entries};
ghost use Rattle.tb_ledger.specs.Tables.{freed};
ghost use Rattle.tb_ledger.specs.private.Timeouts.{timeout_key, timeouts_of, AreTimeouts, with_timeout, without_timeout, TakesDue, IsFirstDue, stored_timeouts};

use crate::tables::map::reserve_in;
use avl_tree::AvlMap;
use std::alloc::{AllocError, Allocator};
use std::marker::Model;

/// When a pending transfer expires, in nanoseconds, and its id.
#[derive(Clone, Copy)]
pub struct Timeout {
    pub at: u64,
    pub id: u128,
}

/// Timeouts by rising time, and by rising id if times are equal. They allocate memory only on a call of `reserve`.
#[derive(Drop)]
pub struct Timeouts<A: Allocator + Clone> {
    keys: Option<AvlMap<(u64, u128), (), A>>,
}

impl<A: Allocator + Clone> Model for Timeouts<A> {
    ghost use Rattle.tb_ledger.specs.declared.tables.timeouts.Timeout.{Timeout};
    ghost use Rattle.tb_ledger.specs.Tables.{spare_in, Stored};
    ghost use Rattle.tb_ledger.specs.private.Timeouts.{timeouts_in, AreTimeouts};

    ghost Value = { Stored Timeout };

    ghost view = { λ t. record { items = timeouts_in t.keys; spare = spare_in t.keys } };

    ghost invariant = { λ t. AreTimeouts (timeouts_in t.keys) };
}

/// Puts a new timeout into a spare node.
fn insert_key<A: Allocator + Clone>(keys: &mut AvlMap<(u64, u128), (), A>, timeout: Timeout)
    requires ordered { AreTimeouts (timeouts_of (entries keys.old)) }
    requires capacity { 0 < keys.old.spare }
    requires absent { find (λ d. timeout_key d == timeout_key timeout) (timeouts_of (entries keys.old)) ≡ None }
    ensures ordered { AreTimeouts (timeouts_of (entries keys.new)) }
    ensures timeouts { timeouts_of (entries keys.new) ≡ put timeout_key timeout (timeouts_of (entries keys.old)) }
    ensures capacity { keys.new.spare + 1 ≡ keys.old.spare }
{
    keys.insert_reserved((timeout.at, timeout.id), ());
}

/// Removes a timeout, if it exists. Its node becomes spare.
fn remove_key<A: Allocator + Clone>(keys: &mut AvlMap<(u64, u128), (), A>, timeout: Timeout)
    requires ordered { AreTimeouts (timeouts_of (entries keys.old)) }
    ensures ordered { AreTimeouts (timeouts_of (entries keys.new)) }
    ensures timeouts { timeouts_of (entries keys.new)
        ≡ taken_out timeout_key (timeout_key timeout) (timeouts_of (entries keys.old)) }
    ensures capacity { keys.new.spare
        ≡ keys.old.spare
        + freed
        (find (λ d. timeout_key d == timeout_key timeout) (timeouts_of (entries keys.old))) }
{
    let _ = keys.remove(&(timeout.at, timeout.id));
}

/// The first timeout, if it is due at the time.
fn first_due<A: Allocator + Clone>(keys: &AvlMap<(u64, u128), (), A>, time: u64) -> Option<Timeout>
    requires { AreTimeouts (timeouts_of (entries keys.now)) }
    ensures { IsFirstDue time (timeouts_of (entries keys.now)) result }
{
    let (key, _) = keys.first()?;
    let (at, id) = *key;
    if at <= time {
        Some(Timeout { at, id })
    } else {
        None
    }
}

// Removes and returns the first timeout, if it is due at the time. Its node becomes spare.
fn pop_first_due<A: Allocator + Clone>(
    keys: &mut AvlMap<(u64, u128), (), A>,
    time: u64,
) -> Option<Timeout>
    requires { AreTimeouts (timeouts_of (entries keys.old)) }
    ensures ordered { AreTimeouts (timeouts_of (entries keys.new)) }
    ensures taken { TakesDue time (stored_timeouts keys.old) result (stored_timeouts keys.new) }
{
    let due = first_due(keys, time)?;
    let _ = keys.pop_first();
    Some(due)
}

impl<A: Allocator + Clone> Timeouts<A> {
    /// No timeouts. No memory is allocated.
    pub fn new() -> Self
        ensures { result ≡ record { items = []; spare = 0 } }
    {
        Timeouts { keys: None }
    }

    /// Makes capacity until `n` more timeouts fit. If there is no memory they stay, and no capacity is lost.
    pub fn reserve(&mut self, alloc: &A, n: usize) -> Result<(), AllocError>
        ensures timeouts { self.new.items ≡ self.old.items }
        ensures ok { OnOk result (n ≤ self.new.spare) }
        ensures not_less { self.old.spare ≤ self.new.spare }
        ensures no_more { self.new.spare ≤ max self.old.spare n }
    {
        reserve_in(&mut self.keys, alloc, n)
    }

    /// Inserts a new timeout, if there is capacity.
    pub fn insert_reserved(&mut self, timeout: Timeout)
        requires capacity { 0 < self.old.spare }
        requires absent { find (λ d. timeout_key d == timeout_key timeout) self.old.items ≡ None }
        ensures { self.new ≡ with_timeout timeout self.old }
    {
        match &mut self.keys {
            Some(keys) => insert_key(keys, timeout),
            None => {}
        }
    }

    /// Removes a timeout. If it does not exist, the timeouts stay.
    pub fn remove(&mut self, timeout: Timeout)
        ensures timeouts { self.new ≡ without_timeout timeout self.old }
        ensures ordered { AreTimeouts self.old.items }
    {
        match &mut self.keys {
            Some(keys) => remove_key(keys, timeout),
            None => {}
        }
    }

    /// The ids of the first eight timeouts, and 0 for each that is missing.
    pub fn next_eight(&self) -> [u128; 8] {
        let mut ids = [0; 8];
        if let Some(keys) = &self.keys {
            let mut n = 0;
            keys.for_first(
                8,
                &mut |key: &(u64, u128), _: &()| {
                    if n < 8 {
                        ids[n] = key.1;
                        n += 1;
                    }
                },
            );
        }
        ids
    }

    /// Whether a timeout is due at the time.
    pub fn is_due(&self, time: u64) -> bool
        ensures { result ≡ false → Each (λ d. time < d.at) self.now.items }
    {
        match &self.keys {
            Some(keys) => keys.len() > 0 && first_due(keys, time).is_some(),
            None => false,
        }
    }

    /// Removes and returns the first timeout, if it is due at the time.
    pub fn pop_due(&mut self, time: u64) -> Option<Timeout>
        ensures { TakesDue time self.old result self.new }
    {
        match &mut self.keys {
            Some(keys) => pop_first_due(keys, time),
            None => None,
        }
    }
}
