//! A batch: its chains, one after another; a chain is applied as a whole or not at all.
ghost use Rattle.std.specs.Prelude.{◌≡◌, ℕ, ◌+◌, ◌==◌, true, false, IfErr, ◌^◌, ◌<◌, ◌≤◌, ◌&&◌, length};
ghost use Rattle.tb_ledger.specs.Batches.{chain_length};
ghost use Rattle.tb_ledger.specs.private.Capacity.{Capacity, capacity_of, Uses};
ghost use Rattle.tb_ledger.specs.private.Gathered.{AddsResults};
ghost use Rattle.tb_ledger.specs.Kept.{books_in, AreRowsKept};
ghost use Rattle.tb_ledger.specs.private.Steps.{IsPrepared, StaysButFailed, TakesEvent, IsPreparedFor, LeavesAfter, TakesInChain, chain_from, chains_from};

pub(crate) mod ahead;
mod results;

use crate::batches::results::break_off;
use crate::tables::rows::Rows;
use crate::tables::work::{Work, unwind};
use std::alloc::Allocator;

/// An event of a batch.
pub trait Event: Copy {
    ghost use Rattle.std.specs.Prelude.{ℕ, Bool, List, Option};
    ghost use Rattle.tb_ledger.specs.Batches.{Kind, chain_failed, chain_open};
    ghost use Rattle.tb_ledger.specs.private.Capacity.{Capacity};

    /// Why an event is not accepted.
    type Refusal: Copy;

    ghost kind: { Kind Self };

    // the result code of a refusal
    ghost code_of: { Self.Refusal → ℕ };

    // the tables can still take n events
    ghost HasCapacity: { ℕ → Capacity → Type 0 };

    // given the failed ids, a refusal of the event with a code can be noted
    ghost IsNew: { Option (List ℕ) → Self → ℕ → Type 0 };

    /// The event is linked to the next one.
    fn linked(&self) -> bool
        ensures { result ≡ kind.linked self.now };

    /// The result code of a refusal.
    fn code(refusal: Self::Refusal) -> u32
        ensures { result ≡ code_of refusal };

    /// The refusal of an event that another event's failure undoes.
    fn undone() -> Self::Refusal
        ensures { code_of result ≡ chain_failed };

    /// The refusal of the last event of an open chain.
    fn chain_open() -> Self::Refusal
        ensures { code_of result ≡ chain_open };

    /// Looks for the ids of the first eight events interleaved, if there are so many. The rows stay.
    fn look_ahead<A: Allocator + Clone>(events: &[Self], rows: &mut Rows<A>)
        ensures { rows.new ≡ rows.old };

    /// Judges the event as of its timestamp, and records it if it is accepted. The undo log leads back to the state before it.
    fn take<A: Allocator + Clone>(&self, work: &mut Work<A>, time: u64) -> Result<(), Self::Refusal>
        requires ready { IsPrepared HasCapacity work.old time }
        ensures takes { TakesEvent kind code_of work.old self.now time result work.new }
        ensures fresh { IfErr result
            (λ refusal. IsNew (books_in work.old.rows).failed self.now (code_of refusal)) };

    /// Notes the lasting effect of the event's refusal.
    fn refuse<A: Allocator + Clone>(&self, rows: &mut Rows<A>, refusal: Self::Refusal)
        requires kept { AreRowsKept rows.old }
        requires capacity { HasCapacity 1 (capacity_of rows.old) }
        requires fresh { IsNew (books_in rows.old).failed self.now (code_of refusal) }
        ensures books { books_in rows.new
            ≡ kind.refused (books_in rows.old) self.now (code_of refusal) }
        ensures kept { AreRowsKept rows.new }
        ensures stays { StaysButFailed rows.old rows.new }
        ensures uses { Uses 1 (capacity_of rows.old) (capacity_of rows.new) };

    // what m events use leaves capacity for the rest
    ghost leaves_rest: { (m n : ℕ) (before after : Capacity) → HasCapacity (m + n) before → Uses m before after
        → HasCapacity n after };

    ghost open_is_new: { (failed : Option (List ℕ)) (e : Self) → IsNew failed e chain_open };
}

/// The number of events in the first chain: up to the first that is not linked.
pub(crate) fn chain_length<E: Event>(events: &[E]) -> usize
    ensures count { result ≡ chain_length E.kind events.now }
    ensures within { result ≤ length events.now }
    ensures some { 0 < length events.now → 0 < result }
{
    let mut n = 0;
    while n < events.len() {
        n += 1;
        if !events[n - 1].linked() {
            return n;
        }
    }
    n
}

/// Runs one chain: all of it is recorded, or nothing except the lasting effect of the failed event's refusal. Each event that is not accepted adds
/// its result.
pub(crate) fn run_chain<E: Event, A: Allocator + Clone>(
    work: &mut Work<A>,
    chain: &[E],
    index: u32,
    time: u64,
)
    requires ready { IsPreparedFor E.HasCapacity (length chain.now) work.old time }
    requires index_fits { index + length chain.now < 2 ^ 32 }
    ensures books { books_in work.new.rows ≡ (chain_from E.kind (books_in work.old.rows) time chain.now).books }
    ensures results { AddsResults index (chain_from E.kind (books_in work.old.rows) time chain.now).codes
        work.old.results work.new.results }
    ensures leaves { LeavesAfter (length chain.now) work.old work.new }
{
    // a refused event changes nothing, so a chain of one event has nothing to undo
    work.undo_log.start(chain.len() > 1);
    let mut i = 0;
    let mut stamp = time;
    while i < chain.len() {
        let event = &chain[i];
        match take_in_chain(event, i + 1 == chain.len(), work, stamp) {
            Ok(()) => {
                i += 1;
                stamp += 1;
            }
            Err(refusal) => {
                unwind(&mut work.rows, &mut work.undo_log);
                event.refuse(&mut work.rows, refusal);
                break_off(&mut work.results, chain, index, i, refusal);
                return;
            }
        }
    }
}

/// Takes an event of a chain. If it is linked and nothing follows, the chain is open.
fn take_in_chain<E: Event, A: Allocator + Clone>(
    event: &E,
    last: bool,
    work: &mut Work<A>,
    time: u64,
) -> Result<(), E::Refusal>
    requires ready { IsPrepared E.HasCapacity work.old time }
    ensures decides { TakesInChain E.kind E.code_of last work.old event.now time result work.new }
    ensures fresh { IfErr result
        (λ refusal. E.IsNew (books_in work.old.rows).failed event.now (E.code_of refusal)) }
{
    if last && event.linked() {
        Err(E::chain_open())
    } else {
        event.take(work, time)
    }
}

/// Looks ahead before a chain of `n` events if one of them has an index that is a multiple of eight.
fn look_ahead<E: Event, A: Allocator + Clone>(rows: &mut Rows<A>, rest: &[E], index: u32, n: usize)
    ensures { rows.new ≡ rows.old }
{
    let to_next = (8 - index % 8) % 8;
    if (to_next as usize) < n {
        E::look_ahead(rest, rows);
    }
}

/// Runs the chains of a batch, whose first event has the timestamp `time`. Each event that is not accepted adds its result.
pub(crate) fn run_batch<E: Event, A: Allocator + Clone>(work: &mut Work<A>, events: &[E], time: u64)
    requires ready { IsPreparedFor E.HasCapacity (length events.now) work.old time }
    requires index_fits { length events.now < 2 ^ 32 }
    ensures books { books_in work.new.rows ≡ (chains_from E.kind (books_in work.old.rows) time events.now).books }
    ensures results { AddsResults 0 (chains_from E.kind (books_in work.old.rows) time events.now).codes
        work.old.results work.new.results }
    ensures kept { AreRowsKept work.new.rows }
    ensures time { work.new.rows.time ≡ work.old.rows.time }
{
    let mut rest = events;
    let mut index = 0;
    let mut stamp = time;
    while !rest.is_empty() {
        let (chain, later) = rest.split_at(chain_length(rest));
        look_ahead(&mut work.rows, rest, index, chain.len());
        run_chain(work, chain, index, stamp);
        index += chain.len() as u32;
        stamp += chain.len() as u64;
        rest = later;
    }
}
