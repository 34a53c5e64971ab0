//! What is found by ids.
use crate::comparing::holds;
use crate::ledger::runs::{ask, start};
use std::alloc::Global;
use std::process::Abort;
use tb_ledger::Ledger;
use tb_records::{Account, Profile, Transfer, TransferFlag};
use tb_test_fixtures::{account, at, found, held, post, transfer};

/// Looks accounts up, and compares the records that are found.
fn expect_accounts(rt: &impl Abort, alloc: Global, ledger: &Ledger<Global>, want: &[Account]) {
    let found = ledger.lookup_accounts(alloc, &[2, 9, 1, 2]);
    let found = found.expect(rt, "memory");
    holds(rt, found.as_slice() == want, "accounts");
    drop(found);
}

/// Looks transfers up, and compares the records that are found.
fn expect_transfers(rt: &impl Abort, alloc: Global, ledger: &Ledger<Global>, want: &[Transfer]) {
    let found = ledger.lookup_transfers(alloc, &[21, 23, 26, 25]);
    let found = found.expect(rt, "memory");
    holds(rt, found.as_slice() == want, "transfers");
    drop(found);
}

/// A post from account 1 to account 2 as it is recorded.
fn recorded(id: u128, pending_id: u128, amount: u128, timestamp: u64) -> Transfer {
    let post = Transfer {
        pending_id,
        flags: TransferFlag::PostPendingTransfer as u16,
        ..transfer(id, 1, 2, amount)
    };
    at(timestamp, post)
}

/// Three pending transfers of 40: one is posted whole, one by 15, one by nothing.
fn posts() -> [Transfer; 6] {
    [
        held(20, 40),
        post(21, 20, u128::MAX),
        held(22, 40),
        post(23, 22, 15),
        held(24, 40),
        post(25, 24, 0),
    ]
}

/// A ledger with accounts 1 and 2 after transfers, each in a request of its own.
fn after(rt: &impl Abort, alloc: Global, profile: Profile, events: &[Transfer]) -> Ledger<Global> {
    let mut ledger = start(rt, alloc, profile);
    for event in events {
        ask(rt, alloc, &mut ledger, *event);
    }
    ledger
}

/// By each profile: the time after transfers, how much they posted from account 1 to account 2, and their records.
fn expect_found(
    rt: &impl Abort,
    alloc: Global,
    events: &[Transfer],
    time: u64,
    posted: u128,
    records: &[Transfer],
) {
    for profile in &[Profile::One, Profile::Two] {
        let ledger = after(rt, alloc, *profile, events);
        holds(rt, ledger.time() == time, "the time");
        let first = found([0, posted, 0, 0], 11, account(1));
        let second = found([0, 0, 0, posted], 12, account(2));
        expect_accounts(rt, alloc, &ledger, &[second, first, second]);
        expect_transfers(rt, alloc, &ledger, records);
        drop(ledger);
    }
}

/// Both accounts in one request, and no transfer.
#[test]
fn accounts_created(rt: HostRuntime) {
    expect_found(&rt, rt.alloc(), &[], 12, 0, &[]);
}

/// The sums of both accounts, and the records of posts of the whole, a part and nothing.
#[test]
fn posts_whole_part_and_none(rt: HostRuntime) {
    let records = [
        recorded(21, 20, 40, 14),
        recorded(23, 22, 15, 16),
        recorded(25, 24, 0, 18),
    ];
    expect_found(&rt, rt.alloc(), &posts(), 18, 55, &records);
}
