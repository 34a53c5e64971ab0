//! A ledger that one request after another moves on, each as soon as it may come.
ghost use Rattle.std.specs.Prelude.{◌+◌, ◌≤◌, max};
ghost use Rattle.tb_records.specs.declared.limits.TheConstants.{LAST_MOMENT};

use crate::comparing::holds;
use std::alloc::Global;
use std::process::Abort;
use tb_ledger::Ledger;
use tb_records::{Account, EventResult, Profile, Transfer};
use tb_test_fixtures::account;

/// Far from the last moment, so that the time of an entry is in range.
const LATEST: u64 = 9_000_000_000_000_000_000;

/// No event failed.
fn expect_none(rt: &impl Abort, results: Vec<EventResult>) {
    let count = results.len();
    drop(results);
    holds(rt, count == 0, "results");
}

/// The time of an entry of n events that comes as soon as it may.
fn next_time(rt: &impl Abort, ledger: &Ledger<Global>, n: usize) -> u64
    ensures count { n ≤ 8190 }
    ensures later { ledger.now.time + max n 1 ≤ result }
    ensures in_range { result ≤ LAST_MOMENT }
{
    assert!(rt; n <= 8190 && ledger.time() < LATEST);
    ledger.time() + (n as u64).max(1)
}

/// Creates accounts in one request.
pub fn create(rt: &impl Abort, alloc: Global, ledger: &mut Ledger<Global>, events: &[Account]) {
    let time = next_time(rt, ledger, events.len());
    let results = ledger.create_accounts(alloc, time, events);
    expect_none(rt, results.expect(rt, "memory"));
}

/// Creates a transfer.
pub fn ask(rt: &impl Abort, alloc: Global, ledger: &mut Ledger<Global>, event: Transfer) {
    let time = next_time(rt, ledger, 1);
    let results = ledger.create_transfers(alloc, time, &[event]);
    expect_none(rt, results.expect(rt, "memory"));
}

/// The time 10, then accounts 1 and 2.
pub fn start(rt: &impl Abort, alloc: Global, profile: Profile) -> Ledger<Global> {
    let mut ledger = Ledger::new_in(alloc, profile);
    assert!(rt; ledger.time() < 10);
    ledger.expire(10);
    create(rt, alloc, &mut ledger, &[account(1), account(2)]);
    ledger
}
