//! How many bytes a batch of transfers asks for: the capacity of its undo log, and its records.
use crate::comparing::{holds, holds_at};
use crate::machine::machines::{Ask, clients_max, numbered, request_of};
use crate::refusing::applying::apply;
use crate::refusing::rows::EARLY_NS;
use std::alloc::Global;
use std::process::Abort;
use tb_machine::Machine;
use tb_records::{Body, Items, Profile, Request};
use tb_test_fixtures::{linked, transfer};
use tb_test_refusing::{Refusing, Tally};

/// The undo log has capacity for four changes of each event, and of the next power of two of them; a change has at most this many bytes:
/// a row, and which change it is.
const LOG_BYTES: u64 = 4 * 144;

/// What is kept of an event has at most this many bytes, with the links of its trees: a transfer's row, a timeout, an id that
/// failed.
const KEPT_BYTES: u64 = 192 + 80 + 80;

/// Client 7's batch of this many transfers of 1 each, separate or as one chain.
fn batch(rt: &impl Abort, alloc: Global, count: u32, chained: bool) -> Request {
    let mut all = Vec::new(alloc);
    for k in 1..=count {
        let one = transfer(100 + u128::from(k), 1, 2, 1);
        let goes_on = chained && k < count;
        let event = if goes_on { linked(one) } else { one };
        all.push(event).expect(rt, "memory");
    }
    numbered(rt, 2, Body::CreateTransfers(Items::new(all)))
}

/// Enters a register, two accounts and a batch: what was asked for, with the bytes that only the batch asked for.
fn enter_batch(
    rt: &impl Abort,
    alloc: Global,
    machine: &mut Machine<&Refusing<Global>>,
    heap: &Refusing<Global>,
    batch: Request,
) -> Tally {
    let register = request_of(rt, alloc, &(EARLY_NS, 0, Ask::Register));
    let registered = apply(rt, machine, EARLY_NS, register);
    let accounts = request_of(rt, alloc, &(EARLY_NS, 1, Ask::TwoAccounts));
    let created = apply(rt, machine, EARLY_NS, accounts);
    let before = heap.tally().bytes;
    let entered = apply(rt, machine, EARLY_NS, batch);
    holds(rt, registered && created && entered, "memory");
    let now = heap.tally();
    Tally {
        bytes: now.bytes.wrapping_sub(before),
        ..now
    }
}

/// What a batch of this many transfers asks a machine's allocator for.
fn ask(rt: &impl Abort, alloc: Global, profile: Profile, count: u32, chained: bool) -> Tally {
    let heap = Refusing::new(alloc, 0);
    let made = Machine::new_in(alloc, &heap, profile, clients_max(rt, 2));
    let mut machine = made.expect(rt, "a machine");
    let batch = batch(rt, alloc, count, chained);
    let asked = enter_batch(rt, alloc, &mut machine, &heap, batch);
    drop(machine);
    drop(heap);
    asked
}

/// The undo log of a batch of this many events, of which the next power of two is given, is one allocation, and the greatest; all that the
/// batch asks for is the log's capacity and that of its records. The batch of two accounts before it asks for a log too.
fn expect_bounded(
    rt: &impl Abort,
    alloc: Global,
    profile: Profile,
    size: (u32, u32),
    chained: bool,
) {
    let (count, power) = size;
    let asked = ask(rt, alloc, profile, count, chained);
    let log = LOG_BYTES * u64::from(power);
    let count = u64::from(count);
    let (bytes, greatest) = (asked.bytes, asked.greatest);
    let most = log + KEPT_BYTES * count;
    holds_at(rt, 128 * count <= bytes && bytes <= most, &bytes);
    holds_at(rt, greatest <= log.max(LOG_BYTES * 2), &greatest);
}

/// A batch asks for this many bytes an event at most, and as many for its log as the next power of two of events has, whether its events are
/// separate or in one chain.
#[test]
fn bytes_of_a_batch(rt: HostRuntime) {
    for profile in [Profile::One, Profile::Two] {
        for size in [(1, 1), (2, 2), (20, 32), (300, 512)] {
            expect_bounded(&rt, rt.alloc(), profile, size, false);
            expect_bounded(&rt, rt.alloc(), profile, size, true);
        }
    }
}
