//! The results of a broken chain.
ghost use Rattle.std.specs.Prelude.{◌≡◌, ◌≢◌, ◌+◌, ◌^◌, ◌<◌, ◌≤◌, ◌&&◌, ◌++◌, [], ◌∷◌, length, replicate, if◌then◌else◌};
ghost use Rattle.tb_ledger.specs.Batches.{chain_failed, chain_open, timed_from, undone};
ghost use Rattle.tb_ledger.specs.private.Steps.{broken_codes};
ghost use Rattle.tb_ledger.specs.private.Gathered.{AddsResults, results_from};

use crate::batches::Event;
use crate::tables::work::Results;
use tb_records::EventResult;

/// Adds the result of one event.
fn push_result<E: Event>(results: &mut Results, index: u32, refusal: E::Refusal)
    requires { length results.old.items < results.old.capacity }
    ensures items { results.new.items
        ≡ results.old.items ++ (record { index = index; result = E.code_of refusal } ∷ []) }
    ensures len { length results.new.items ≡ length results.old.items + 1 }
    ensures capacity { results.new.capacity ≡ results.old.capacity }
{
    results.push(EventResult {
        index,
        result: E::code(refusal),
    });
}

/// Adds the results of a broken chain, whose event at `place` has failed with the refusal.
pub(crate) fn break_off<E: Event>(
    results: &mut Results,
    chain: &[E],
    index: u32,
    place: usize,
    refusal: E::Refusal,
)
    requires capacity { length results.old.items + length chain.now ≤ results.old.capacity }
    requires fits { index + length chain.now < 2 ^ 32 }
    requires within { place < length chain.now }
    requires refused { E.code_of refusal ≢ 0 }
    ensures items { AddsResults index (broken_codes E.kind place (E.code_of refusal) chain.now)
        results.old results.new }
    ensures len { length results.new.items ≡ length results.old.items + length chain.now }
    ensures capacity { results.new.capacity ≡ results.old.capacity }
{
    push_failed::<E>(results, index, place);
    push_result::<E>(results, index + place as u32, refusal);
    push_undone(results, &chain[place + 1..], index + place as u32 + 1);
}

/// Adds the results of `n` events that another event's failure undoes.
fn push_failed<E: Event>(results: &mut Results, index: u32, n: usize)
    requires capacity { length results.old.items + n ≤ results.old.capacity }
    requires fits { index + n < 2 ^ 32 }
    ensures items { results.new.items ≡ results.old.items ++ results_from index (replicate n chain_failed) }
    ensures len { length results.new.items ≡ length results.old.items + n }
    ensures capacity { results.new.capacity ≡ results.old.capacity }
{
    for i in 0..n {
        push_result::<E>(results, index + i as u32, E::undone());
    }
}

/// Adds the results of the events after the failed one of a chain.
fn push_undone<E: Event>(results: &mut Results, rest: &[E], index: u32)
    requires capacity { length results.old.items + length rest.now ≤ results.old.capacity }
    requires fits { index + length rest.now < 2 ^ 32 }
    ensures items { results.new.items
        ≡ results.old.items ++ results_from index (undone E.kind (timed_from 0 rest.now)) }
    ensures len { length results.new.items ≡ length results.old.items + length rest.now }
    ensures capacity { results.new.capacity ≡ results.old.capacity }
{
    for i in 0..rest.len() {
        let refusal = undone_by(&rest[i], i + 1 == rest.len());
        push_result::<E>(results, index + i as u32, refusal);
    }
}

/// The refusal of an event that another event's failure undoes.
fn undone_by<E: Event>(event: &E, last: bool) -> E::Refusal
    ensures { E.code_of result ≡ (if last && E.kind.linked event.now then chain_open else chain_failed) }
{
    if last && event.linked() {
        E::chain_open()
    } else {
        E::undone()
    }
}
