//! The ledger: its books, kept in rows.
ghost use Rattle.std.specs.Prelude.{◌≡◌, ◌↔◌, ◌+◌, ◌<◌, ◌≤◌, ◌++◌, max, length, IsTrue, IfOk, OnOk, OnErr, vec_len, vec_capacity};
ghost use Rattle.tb_records.specs.declared.limits.TheConstants.{ITEMS_MAX, LAST_MOMENT};
ghost use Rattle.tb_ledger.specs.Batches.{account_events, batch_after, results, transfer_events};
ghost use Rattle.tb_ledger.specs.Books.{account_now, empty_books, found_accounts, found_transfers, moved_to_two, profile_of, transfer_at};
ghost use Rattle.tb_ledger.specs.private.Capacity.{HasTransfers, capacity_of};
ghost use Rattle.tb_ledger.specs.private.Entering.{CanEnter};
ghost use Rattle.tb_ledger.specs.Kept.{books_in, AreRowsKept};
ghost use Rattle.tb_ledger.specs.Sound.{IdsRise};
ghost use Rattle.tb_ledger.specs.Tables.{IsShortSearch};

use crate::batches::{Event, run_batch};
use crate::expiry::expire;
use crate::lookups;
use crate::tables::rows::Rows;
use crate::tables::work::Work;
use std::alloc::{AllocError, Allocator, Global};
use std::marker::Model;
use tb_records::{Account, EventResult, Profile, Transfer};

/// A ledger of accounts and transfers. Its value is its books: the accounts as they were created, the transfers as they were recorded, by profile 2
/// the ids that failed permanently, and the time of the last entry. Sums, closed accounts and the states of pending transfers all follow from these.
///
/// Amounts are in the ledger's smallest unit, times in nanoseconds. A call that allocates memory makes all its capacity before the first change, so
/// if it returns that there is none, the ledger is as it was.
#[derive(Drop)]
pub struct Ledger<A: Allocator + Clone> {
    alloc: A,
    /// The tables; and between two batches the memory that the last one leaves for the next.
    work: Work<A>,
}

impl<A: Allocator + Clone> Model for Ledger<A> {
    ghost use Rattle.tb_ledger.specs.Books.{Books};
    ghost use Rattle.tb_ledger.specs.Kept.{books_in, AreRowsKept};

    ghost Value = { Books };

    ghost view = { λ l. books_in l.work.rows };

    ghost invariant = { λ l. AreRowsKept l.work.rows };
}

/// Makes capacity for `n` transfers: for their timeouts too, and for as many failed ids if these are kept.
fn reserve_transfers<A: Allocator + Clone>(
    rows: &mut Rows<A>,
    alloc: &A,
    n: usize,
) -> Result<(), AllocError>
    requires { AreRowsKept rows.old }
    ensures kept { AreRowsKept rows.new }
    ensures books { books_in rows.new ≡ books_in rows.old }
    ensures ok { OnOk result (HasTransfers n (capacity_of rows.new)) }
{
    rows.transfers.reserve(alloc, n)?;
    rows.timeouts.reserve(alloc, n)?;
    if rows.keeps_failed {
        rows.failed.reserve(alloc, n)?;
    }
    Ok(())
}

/// Enters a batch at the time `t`, with the capacity for its records: allocates memory for its results and its changes first, expires to `t`, then
/// takes the events.
fn enter<E: Event, A: Allocator + Clone>(
    work: &mut Work<A>,
    alloc: &A,
    global: Global,
    t: u64,
    events: &[E],
) -> Result<Vec<EventResult>, AllocError>
    requires kept { AreRowsKept work.old.rows }
    requires capacity { E.HasCapacity (length events.now) (capacity_of work.old.rows) }
    requires entry { CanEnter work.old.rows.time (length events.now) t }
    ensures kept { AreRowsKept work.new.rows }
    ensures books { OnOk result
        (books_in work.new.rows ≡ (batch_after E.kind (books_in work.old.rows) events.now t).books) }
    ensures results { IfOk result
        (λ r. r.items ≡ results (batch_after E.kind (books_in work.old.rows) events.now t).codes) }
    ensures err { OnErr result (books_in work.new.rows ≡ books_in work.old.rows) }
{
    work.results.reserve(global, events.len())?;
    work.undo_log.reserve(alloc, events.len())?;
    let first = t + 1 - events.len() as u64;
    expire(&mut work.rows, t);
    run_batch(work, events, first);
    Ok(work.results.hand_out(global))
}

impl<A: Allocator + Clone> Ledger<A> {
    /// A ledger with no accounts and no transfers, at the time 0. It allocates from `alloc`, and nothing yet.
    pub fn new_in(alloc: A, profile: Profile) -> Self
        ensures { result ≡ empty_books profile }
    {
        Ledger {
            alloc,
            work: Work::new(profile),
        }
    }

    /// The time of the last entry, in nanoseconds: 0 before the first. In the books of every ledger ids rise: those of accounts, of transfers, and by
    /// profile 2 the failed ones.
    pub fn time(&self) -> u64
        ensures time { result ≡ self.now.time }
        ensures ids_rise { IdsRise self.now }
    {
        self.work.rows.time
    }

    /// The profile in use.
    pub fn profile(&self) -> Profile
        ensures { result ≡ profile_of self.now }
    {
        if self.work.rows.keeps_failed {
            Profile::Two
        } else {
            Profile::One
        }
    }

    /// Changes from profile 1 to profile 2: the books stay as they are, and no id has failed yet. Allocates no memory.
    pub fn move_to_two(&mut self)
        requires { profile_of self.old ≡ Profile.One }
        ensures { self.new ≡ moved_to_two self.old }
    {
        self.work.rows.keeps_failed = true;
    }

    /// The account of an id as it is now: its four sums, and flag closed if it is closed. `None` if it does not exist.
    pub fn account(&self, id: u128) -> Option<Account>
        ensures { result ≡ account_now self.now id }
    {
        match self.work.rows.accounts.get(id) {
            Some(row) => Some(row.as_it_stands()),
            None => None,
        }
    }

    /// The result of [`Ledger::account`], and the number of accounts that the search looked at: at most the height of a balanced tree of them all.
    pub fn probe_account(&self, id: u128) -> (Option<Account>, u32)
        ensures account { result.0 ≡ account_now self.now id }
        ensures visits { IsShortSearch (length self.now.accounts) result.1 }
    {
        let (row, visits) = self.work.rows.accounts.probe(id);
        match row {
            Some(row) => (Some(row.as_it_stands()), visits),
            None => (None, visits),
        }
    }

    /// Whether there are so many accounts that a search for one waits for memory at most of its levels.
    pub fn has_many_accounts(&self) -> bool
        ensures { IsTrue result ↔ 65536 ≤ length self.now.accounts }
    {
        self.work.rows.accounts.is_large()
    }

    /// Brings the accounts of eight ids into the cache, for calls that need them next. Their searches are interleaved, so that waits for memory
    /// overlap. If there are few accounts, nothing is searched for. The books stay.
    pub fn touch(&mut self, ids: &[u128; 8])
        ensures { self.new ≡ self.old }
    {
        if self.has_many_accounts() {
            self.work.rows.accounts.touch(ids);
        }
    }

    /// The transfer of an id as it was recorded: a post or void filled, a balancing one lowered. `None` if it does not exist.
    pub fn transfer(&self, id: u128) -> Option<Transfer>
        ensures { result ≡ transfer_at self.now id }
    {
        match self.work.rows.transfers.get(id) {
            Some(row) => Some(row.recorded()),
            None => None,
        }
    }

    /// Moves the time on to `t`: each pending transfer whose timeout has passed by then expires, and its amount is removed from the pending sums.
    pub fn expire(&mut self, t: u64)
        requires later { self.old.time < t }
        requires in_range { t ≤ LAST_MOMENT }
        ensures { self.new ≡ record self.old { time = t } }
    {
        expire(&mut self.work.rows, t);
    }

    /// Creates accounts, as an entry with the time `t`: expires to `t`, then takes the events. The one at index i of n has the timestamp
    /// `t - n + i + 1`. Returns the index and result code of each event that is not accepted, by rising index. A chain of linked events is applied as
    /// a whole or not at all.
    pub fn create_accounts(
        &mut self,
        global: Global,
        t: u64,
        events: &[Account],
    ) -> Result<Vec<EventResult>, AllocError>
        requires count { length events.now ≤ ITEMS_MAX }
        requires later { self.old.time + max (length events.now) 1 ≤ t }
        requires in_range { t ≤ LAST_MOMENT }
        ensures books { OnOk result (self.new ≡ (batch_after account_events self.old events.now t).books) }
        ensures results { IfOk result
            (λ r. r.items ≡ results (batch_after account_events self.old events.now t).codes) }
        ensures err { OnErr result (self.new ≡ self.old) }
    {
        self.work.rows.accounts.reserve(&self.alloc, events.len())?;
        enter(&mut self.work, &self.alloc, global, t, events)
    }

    /// Creates transfers, as an entry with the time `t`, in the way of [`Ledger::create_accounts`]: single transfers, pending ones, and the posts and
    /// voids of these. By profile 2 the id of a transfer that fails permanently is kept.
    pub fn create_transfers(
        &mut self,
        global: Global,
        t: u64,
        events: &[Transfer],
    ) -> Result<Vec<EventResult>, AllocError>
        requires count { length events.now ≤ ITEMS_MAX }
        requires later { self.old.time + max (length events.now) 1 ≤ t }
        requires in_range { t ≤ LAST_MOMENT }
        ensures books { OnOk result (self.new ≡ (batch_after transfer_events self.old events.now t).books) }
        ensures results { IfOk result
            (λ r. r.items ≡ results (batch_after transfer_events self.old events.now t).codes) }
        ensures err { OnErr result (self.new ≡ self.old) }
    {
        reserve_transfers(&mut self.work.rows, &self.alloc, events.len())?;
        enter(&mut self.work, &self.alloc, global, t, events)
    }

    /// Accounts as they are now, in the order of the ids: an id without an account is skipped, one that is requested twice is returned twice.
    pub fn lookup_accounts(&self, global: Global, ids: &[u128]) -> Result<Vec<Account>, AllocError>
        ensures { IfOk result (λ v. v.items ≡ found_accounts self.now ids.now) }
    {
        let mut found = Vec::with_capacity(global, ids.len())?;
        self.fill_accounts(ids, &mut found);
        Ok(found)
    }

    /// Transfers as they were recorded, in the order of the ids: an id without a transfer is skipped, one that is requested twice is returned twice.
    pub fn lookup_transfers(
        &self,
        global: Global,
        ids: &[u128],
    ) -> Result<Vec<Transfer>, AllocError>
        ensures { IfOk result (λ v. v.items ≡ found_transfers self.now ids.now) }
    {
        let mut found = Vec::with_capacity(global, ids.len())?;
        self.fill_transfers(ids, &mut found);
        Ok(found)
    }

    /// Appends the result of [`Ledger::lookup_accounts`] to a vector with capacity for as many accounts as there are ids.
    pub fn fill_accounts(&self, ids: &[u128], out: &mut Vec<Account>)
        requires { vec_len out.old + length ids.now ≤ vec_capacity out.old }
        ensures items { out.new.items ≡ out.old.items ++ found_accounts self.now ids.now }
        ensures capacity { vec_capacity out.new ≡ vec_capacity out.old }
    {
        lookups::fill(&self.work.rows.accounts, ids, out);
    }

    /// Appends the result of [`Ledger::lookup_transfers`] to a vector with capacity for as many transfers as there are ids.
    pub fn fill_transfers(&self, ids: &[u128], out: &mut Vec<Transfer>)
        requires { vec_len out.old + length ids.now ≤ vec_capacity out.old }
        ensures items { out.new.items ≡ out.old.items ++ found_transfers self.now ids.now }
        ensures capacity { vec_capacity out.new ≡ vec_capacity out.old }
    {
        lookups::fill(&self.work.rows.transfers, ids, out);
    }
}
