//! How far a search goes.
use crate::comparing::{holds, holds_at};
use crate::ledger::runs::create;
use std::alloc::Global;
use std::process::Abort;
use tb_ledger::Ledger;
use tb_records::Profile;
use tb_test_fixtures::account;

/// Creates accounts of the ids from 1 to `last` in one request.
fn create_many(rt: &impl Abort, alloc: Global, ledger: &mut Ledger<Global>, last: u128) {
    let mut accounts = Vec::new(alloc);
    for id in 1..=last {
        accounts.push(account(id)).expect(rt, "memory");
    }
    create(rt, alloc, ledger, &accounts);
    drop(accounts);
}

/// A search for an account from 1 to `last` visits 18 nodes at most, and finds what the ledger has.
fn expect_short(rt: &impl Abort, ledger: &Ledger<Global>, last: u128) {
    for id in 1..=last {
        let (found, visits) = ledger.probe_account(id);
        let is_same = found.is_some() && found == ledger.account(id);
        holds_at(rt, is_same && 0 < visits && visits <= 18, &id);
    }
}

#[test]
fn probes_stay_short(rt: HostRuntime) {
    let mut ledger = Ledger::new_in(rt.alloc(), Profile::One);
    create_many(&rt, rt.alloc(), &mut ledger, 8190);
    expect_short(&rt, &ledger, 8190);
    let (none, visits) = ledger.probe_account(9000);
    holds(&rt, none.is_none() && visits <= 18, "account 9000");
    drop(ledger);
}
