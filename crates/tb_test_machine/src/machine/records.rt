//! Accounts and transfers as the machine's own calls find them.
use crate::comparing::holds;
use crate::machine::fixtures::resolved;
use crate::machine::machines::{Ask, Turn, enter_all, machine};
use crate::machine::rows::TransferRow;
use std::alloc::Global;
use std::process::Abort;
use tb_machine::Machine;
use tb_records::{Account, Transfer};
use tb_test_fixtures::{account, at, found, post};

/// Accounts 1 and 2, three pending transfers, and posts of the whole, of 15 and of nothing.
const THREE_POSTS: [Turn<'static>; 8] = [
    (10, 0, Ask::Register),
    (10, 1, Ask::TwoAccounts),
    (10, 2, Ask::Transfers(&[TransferRow::Held(20, 40)])),
    (
        10,
        3,
        Ask::Transfers(&[TransferRow::Post(21, 20, u128::MAX)]),
    ),
    (10, 4, Ask::Transfers(&[TransferRow::Held(22, 40)])),
    (10, 5, Ask::Transfers(&[TransferRow::Post(23, 22, 15)])),
    (10, 6, Ask::Transfers(&[TransferRow::Held(24, 40)])),
    (10, 7, Ask::Transfers(&[TransferRow::Post(25, 24, 0)])),
];

/// Accounts 2 and 1 as the posts leave them.
fn posted_accounts() -> [Account; 2] {
    [
        found([0, 0, 0, 55], 12, account(2)),
        found([0, 55, 0, 0], 11, account(1)),
    ]
}

/// The posts of the whole, of 15 and of nothing.
fn posts() -> [Transfer; 3] {
    [
        at(14, resolved(post(21, 20, 40))),
        at(16, resolved(post(23, 22, 15))),
        at(18, resolved(post(25, 24, 0))),
    ]
}

/// Accounts in the order of ids, without those that do not exist.
fn expect_accounts(rt: &impl Abort, machine: &Machine<Global>, want: &[Account; 2]) {
    let found = machine.lookup_accounts(&[2, 9, 1]).expect(rt, "memory");
    holds(rt, found.as_slice() == want.as_slice(), "accounts");
    drop(found);
    let [second, first] = want;
    holds(rt, machine.account(1) == Some(*first), "account 1");
    holds(rt, machine.account(2) == Some(*second), "account 2");
    holds(rt, machine.account(9).is_none(), "account 9");
}

/// Transfers in the order of ids, without those that do not exist.
fn expect_transfers(rt: &impl Abort, machine: &Machine<Global>, want: &[Transfer; 3]) {
    let ids = [21, 23, 26, 25];
    let found = machine.lookup_transfers(&ids).expect(rt, "memory");
    holds(rt, found.as_slice() == want.as_slice(), "transfers");
    drop(found);
    let [_, part, _] = want;
    holds(rt, machine.transfer(23) == Some(*part), "transfer 23");
    holds(rt, machine.transfer(26).is_none(), "transfer 26");
}

/// Three posts, and what they leave.
#[test]
fn posts_whole_part_and_none(rt: HostRuntime) {
    let mut machine = machine(&rt, rt.alloc());
    enter_all(&rt, rt.alloc(), &mut machine, &THREE_POSTS);
    expect_accounts(&rt, &machine, &posted_accounts());
    expect_transfers(&rt, &machine, &posts());
    drop(machine);
}
